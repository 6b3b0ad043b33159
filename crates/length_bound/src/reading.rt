ghost use Rattle.std.specs.Prelude.{◌≡◌, ◌≤◌, ◌∷◌, IfErr, IfOk};
ghost use Rattle.std.specs.Str.{bytes_eq};
ghost use Rattle.board_base.specs.Potentials.{duals};
ghost use Rattle.cert_text.specs.Arguments.{duals_of};
ghost use Rattle.cert_text.specs.Lines.{cut, said};
ghost use Rattle.cert_text.specs.Texts.{IsBadAt};
ghost use Rattle.length_bound.specs.ManDuals.{AreManPotentials};
ghost use Rattle.length_bound.specs.LengthText.{AreLengthLines, at_least_of, length_head, of_side, shown_by, up_to_9999};
ghost use Rattle.length_bound.specs.LengthReading.{AreBelowHead, AreLast, GoesBad, SayLast};

use crate::man_potentials::ManPotentials;
use crate::texts::LengthText;
use arrayvec::ArrayVec;
use board_base::Colour;
use cert_text::{first_line, read_duals, take_fen, take_odds, without_end};
use fen_text::read_number;

/// Whether the line, with its end, is the first of a text.
fn is_head(line: &[u8]) -> bool
    ensures { result ≡ bytes_eq line.now length_head }
{
    line == b"retro length 1\n".as_slice()
}

fn up_to_9999(number: u32) -> Option<u16>
    ensures { result ≡ up_to_9999 number }
{
    if number <= 9999 {
        Some(number as u16)
    } else {
        None
    }
}

#[tactic(auto, unfolding(crate::specs::LengthText::at_least_of))]
fn read_at_least(text: &[u8]) -> Option<u16>
    ensures { result ≡ at_least_of text.now }
{
    if text.starts_with(b"atleast ") {
        up_to_9999(read_number(&text[8..])?)
    } else {
        None
    }
}

/// Reads the line of the number of half-moves, with its end.
#[tactic(auto, unfolding(cert_text::specs::Lines::said))]
fn read_at_least_line(line: &[u8]) -> Option<u16>
    ensures { result ≡ said at_least_of line.now }
{
    read_at_least(without_end(line)?)
}

/// These potentials, which are known to be in range.
fn potentials_with(d: &(ArrayVec<i8, 16>, [i8; 16])) -> ManPotentials
    requires { AreManPotentials (duals d.now.0.items d.now.1) }
    ensures { result ≡ duals d.now.0.items d.now.1 }
{
    ManPotentials::known(d.0.as_slice(), &d.1)
}

/// Reads potentials of at most sixteen men and of sixteen homes.
fn read_potentials(text: &[u8]) -> Option<ManPotentials>
    ensures { result ≡ duals_of 16 text.now }
{
    match read_duals::<16>(text) {
        Some(d) => Some(potentials_with(&d)),
        None => None,
    }
}

fn read_of_side(side: Colour, text: &[u8]) -> Option<(Colour, ManPotentials)>
    ensures { result ≡ of_side side (duals_of 16 text.now) }
{
    Some((side, read_potentials(text)?))
}

#[tactic(auto, unfolding(crate::specs::LengthText::shown_by))]
fn read_moves(text: &[u8]) -> Option<(Colour, ManPotentials)>
    ensures { result ≡ shown_by text.now }
{
    if text.starts_with(b"moves w ") {
        read_of_side(Colour::White, &text[8..])
    } else if text.starts_with(b"moves b ") {
        read_of_side(Colour::Black, &text[8..])
    } else {
        None
    }
}

/// Reads the line of the potentials, with its end.
#[tactic(auto, unfolding(cert_text::specs::Lines::said))]
fn read_moves_line(line: &[u8]) -> Option<(Colour, ManPotentials)>
    ensures { result ≡ said shown_by line.now }
{
    read_moves(without_end(line)?)
}

/// What the lines behind the FEN say: the number, the side and the potentials; or the number of the first bad line.
fn read_last(bytes: &[u8]) -> Result<(u16, Colour, ManPotentials), u32>
    ensures ok { IfOk result (λ r. SayLast (cut bytes.now) r.0 r.1 r.2) }
    ensures bad { IfErr result (λ n. GoesBad AreLast (cut bytes.now) n) }
    ensures first { IfErr result (λ n. n ≤ 3) }
{
    let Some((line, rest)) = first_line(bytes) else {
        return Err(1);
    };
    let Some(at_least) = read_at_least_line(line) else {
        return Err(1);
    };
    let Some((line, rest)) = first_line(rest) else {
        return Err(2);
    };
    let Some((side, potentials)) = read_moves_line(line) else {
        return Err(2);
    };
    match first_line(rest) {
        Some(_) => Err(3),
        None => Ok((at_least, side, potentials)),
    }
}

/// What the lines behind the first say, or the number of the first bad line.
fn read_below(bytes: &[u8]) -> Result<LengthText, u32>
    ensures ok { IfOk result (λ t. AreLengthLines (length_head ∷ cut bytes.now) t) }
    ensures bad { IfErr result (λ n. GoesBad AreBelowHead (cut bytes.now) n) }
    ensures first { IfErr result (λ n. n ≤ 5) }
{
    let (odds, before, rest) = take_odds(bytes);
    let Some(first) = take_fen(odds, None, rest) else {
        return Err(before + 1);
    };
    match read_last(first.rest) {
        Ok((at_least, side, potentials)) => Ok(LengthText {
            query: first.query,
            at_least,
            side,
            potentials,
        }),
        Err(line) => Err(before + 1 + line),
    }
}

/// Reads the text of a length, or says at which line it goes bad.
pub(crate) fn read_length(bytes: &[u8]) -> Result<LengthText, u32>
    ensures ok { IfOk result (λ t. AreLengthLines (cut bytes.now) t) }
    ensures bad { IfErr result (λ n. IsBadAt AreLengthLines (cut bytes.now) n) }
{
    let Some((line, rest)) = first_line(bytes) else {
        return Err(1);
    };
    if !is_head(line) {
        return Err(1);
    }
    match read_below(rest) {
        Ok(text) => Ok(text),
        Err(line) => Err(1 + line),
    }
}
