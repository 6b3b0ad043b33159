ghost use Rattle.std.specs.Prelude.{◌≡◌, IfSome};
ghost use Rattle.std.specs.Option.{option_map};
ghost use Rattle.line_claims.specs.Lines.{HasLine, both_claimed, castling_lettered, castle_place, castles_lettered, castles_of, line_claim_of, steps_of};
ghost use Rattle.line_claims.specs.declared.claims.LineClaim.TheVariants.{Line};

use crate::claims::LineClaim;
use crate::step_lists::StepList;
use board_base::{Castle, read_unmove};
use fen_text::split_part;

fn read_castle(letter: u8) -> Option<Castle>
    ensures { result ≡ castling_lettered letter }
{
    match letter {
        b'K' => Some(Castle::WhiteShort),
        b'Q' => Some(Castle::WhiteLong),
        b'k' => Some(Castle::BlackShort),
        b'q' => Some(Castle::BlackLong),
        _ => None,
    }
}

fn place(castle: Castle) -> u8
    ensures { result ≡ castle_place castle }
{
    match castle {
        Castle::WhiteShort => 0,
        Castle::WhiteLong => 1,
        Castle::BlackShort => 2,
        Castle::BlackLong => 3,
    }
}

fn both_claimed(first: Castle, second: Castle) -> Option<LineClaim>
    ensures { result ≡ both_claimed first second }
{
    if place(first) < place(second) {
        Some(LineClaim::NotBoth(first, second))
    } else {
        None
    }
}

fn read_letters(first: u8, second: u8) -> Option<LineClaim>
    ensures { result ≡ castles_lettered first second }
{
    match (read_castle(first), read_castle(second)) {
        (Some(first), Some(second)) => both_claimed(first, second),
        _ => None,
    }
}

fn read_castles(text: &[u8]) -> Option<LineClaim>
    ensures { result ≡ castles_of text.now }
{
    match text {
        [first, b' ', second] => read_letters(*first, *second),
        _ => None,
    }
}

/// The steps of a text, one to sixteen texts of unmoves with a space between two.
fn read_steps(text: &[u8]) -> Option<StepList>
    ensures { result ≡ steps_of 16 text.now }
{
    let (word, mut rest) = split_part(text, b' ');
    let mut steps = match read_unmove(word) {
        Some(step) => StepList::of_one(step),
        None => return None,
    };
    while let Some(more) = rest {
        if steps.is_full() {
            return None;
        }
        let (word, after) = split_part(more, b' ');
        match read_unmove(word) {
            Some(step) => steps.push(step),
            None => return None,
        }
        rest = after;
    }
    Some(steps)
}

fn read_line(text: &[u8]) -> Option<LineClaim>
    ensures { result ≡ option_map (λ us. Line us) (steps_of 16 text.now) }
{
    match read_steps(text) {
        Some(steps) => Some(LineClaim::Line(steps)),
        None => None,
    }
}

/// Reads the line of a claim of several steps, without its end: `claim notboth` and two different letters of `K`, `Q`, `k` and `q`,
/// in this order; or `claim line` and one to sixteen texts of unmoves, as `read_unmove` reads them, the last move's first. One
/// space stands between two words. None comes if and only if the line is none of these. What is read may be written again.
#[tactic(auto, unfolding(crate::specs::Lines::line_claim_of))]
pub fn read_line_claim(line: &[u8]) -> Option<LineClaim>
    ensures read { result ≡ line_claim_of line.now }
    ensures grammar { IfSome result HasLine }
{
    if line.starts_with(b"claim notboth ") {
        read_castles(&line[14..])
    } else if line.starts_with(b"claim line ") {
        read_line(&line[11..])
    } else {
        None
    }
}
