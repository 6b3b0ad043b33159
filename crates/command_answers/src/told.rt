//! Lines that are made with no memory: those that `check`, `atleast` and `line` write, and how `dossier` names a step.

ghost use Rattle.std.specs.Prelude.{◌≡◌, ◌≤◌, ◌+◌, ◌∷◌, ◌++◌, IsTrue, None, codes, drop, length};
ghost use Rattle.arrayvec.specs.ArrayVec.{array_vec_len};
ghost use Rattle.board_base.specs.Texts.{can_capture, can_promote, unmove_text};
ghost use Rattle.cert_text.specs.ClaimLines.{claim_words, promotes_well};
ghost use Rattle.cert_text.specs.Lines.{ended};
ghost use Rattle.fen_text.specs.Spelling.{spelling};
ghost use Rattle.query_base.specs.Asked.{IsShortClock};
ghost use Rattle.command_answers.specs.AtLeasts.{bound_line};
ghost use Rattle.line_claims.specs.Lines.{HasLine};
ghost use Rattle.command_answers.specs.Checks.{accepted_line, accepted_words_line, clock_words, odds_words, refusal_line};
ghost use Rattle.command_answers.specs.Lines.{accepted_steps_line, line_in, part_line, step_line};

use arrayvec::ArrayVec;
use board_base::{Odds, Unmove, write_unmove};
use cert_text::write_claim;
use fen_text::{write_clock, write_fen, write_odds};
use itoa::Buffer;
use line_claims::{LineClaim, one_text_of_a_line_claim, write_line_claim};
use query_base::{Claim, Query};

pub(crate) fn put(line: &mut ArrayVec<u8, 512>, text: &[u8])
    requires { array_vec_len line.old + length text.now ≤ 512 }
    ensures items { line.new.items ≡ line.old.items ++ text.now }
    ensures len { array_vec_len line.new ≡ array_vec_len line.old + length text.now }
{
    let _ = line.try_extend_from_slice(text);
}

/// What the text of a claim says after `claim `.
fn words_of_claim(text: &[u8]) -> &[u8]
    requires { 6 ≤ length text.now }
    ensures { result.now ≡ drop 6 text.now }
{
    &text[6..]
}

/// Adds a space and the odds, if there are any.
fn put_odds(line: &mut ArrayVec<u8, 512>, odds: Odds)
    requires { array_vec_len line.old ≤ 400 }
    ensures items { line.new.items ≡ line.old.items ++ odds_words odds }
    ensures len { array_vec_len line.new ≤ array_vec_len line.old + 22 }
{
    if odds.is_none() {
        return;
    }
    let mut text: ArrayVec<u8, 32> = ArrayVec::new();
    write_odds(odds, &mut text);
    line.push(b' ');
    put(line, text.as_slice());
}

/// Adds a space and the clock, if one is demanded.
fn put_clock(line: &mut ArrayVec<u8, 512>, clock: Option<u16>)
    requires room { array_vec_len line.old ≤ 440 }
    requires short { IsShortClock clock }
    ensures items { line.new.items ≡ line.old.items ++ clock_words clock }
    ensures len { array_vec_len line.new ≤ array_vec_len line.old + 11 }
{
    let Some(n) = clock else {
        return;
    };
    let mut text: ArrayVec<u8, 32> = ArrayVec::new();
    write_clock(n, &mut text);
    line.push(b' ');
    put(line, text.as_slice());
}

/// Adds the FEN, and the odds and the clock, if there are any.
fn put_position(line: &mut ArrayVec<u8, 512>, query: &Query)
    requires room { array_vec_len line.old ≤ 200 }
    requires plain { query.now.barred ≡ None }
    ensures items { line.new.items ≡ line.old.items ++ (spelling query.now ++ odds_words query.now.odds ++ clock_words query.now.clock) }
    ensures len { array_vec_len line.new ≤ array_vec_len line.old + 120 }
{
    let mut fen: ArrayVec<u8, 128> = ArrayVec::new();
    write_fen(query, &mut fen);
    put(line, fen.as_slice());
    put_odds(line, query.odds);
    put_clock(line, query.clock);
}

/// The line that tells that the claim of these words about the query is accepted.
fn accepted_line_of(words: &[u8], query: &Query) -> ArrayVec<u8, 512>
    requires plain { query.now.barred ≡ None }
    requires short { length words.now ≤ 160 }
    ensures { result.items ≡ accepted_words_line words.now query.now }
{
    let mut line: ArrayVec<u8, 512> = ArrayVec::new();
    put(&mut line, b"accepted ");
    put(&mut line, words);
    line.push(b' ');
    put_position(&mut line, query);
    line.push(b'\n');
    line
}

/// The line that tells that a claim about a query is accepted.
pub(crate) fn accepted(claim: &Claim, query: &Query) -> ArrayVec<u8, 512>
    requires plain { query.now.barred ≡ None }
    requires promotion { IsTrue (promotes_well claim.now) }
    ensures { result.items ≡ accepted_line claim.now query.now }
{
    let mut text: ArrayVec<u8, 128> = ArrayVec::new();
    write_claim(claim, &mut text);
    accepted_line_of(words_of_claim(text.as_slice()), query)
}

/// The line that tells that a claim of several steps about a query is accepted.
pub(crate) fn accepted_steps(claim: &LineClaim, query: &Query) -> ArrayVec<u8, 512>
    requires plain { query.now.barred ≡ None }
    requires lined { HasLine claim.now }
    ensures { result.items ≡ accepted_steps_line claim.now query.now }
{
    one_text_of_a_line_claim();
    let mut text: ArrayVec<u8, 160> = ArrayVec::new();
    write_line_claim(claim, &mut text);
    accepted_line_of(words_of_claim(text.as_slice()), query)
}

/// The line that tells that a dossier has no head.
pub(crate) fn no_head() -> ArrayVec<u8, 512>
    ensures { result.items ≡ ended (codes "refused head") }
{
    let mut line: ArrayVec<u8, 512> = ArrayVec::new();
    put(&mut line, b"refused head\n");
    line
}

/// The line that tells that a step isn't listed.
pub(crate) fn refused_step(number: u8) -> ArrayVec<u8, 512>
    ensures { result.items ≡ step_line number }
{
    let mut line: ArrayVec<u8, 512> = ArrayVec::new();
    let mut digits = Buffer::new();
    put(&mut line, b"refused step ");
    put(&mut line, digits.format(number).as_bytes());
    put(&mut line, b" unlisted\n");
    line
}

/// The line that tells what is wrong with the part of this number.
pub(crate) fn part_refusal(part: u32, what: &[u8]) -> ArrayVec<u8, 512>
    requires { length what.now ≤ 60 }
    ensures { result.items ≡ part_line part what.now }
{
    let mut line: ArrayVec<u8, 512> = ArrayVec::new();
    let mut digits = Buffer::new();
    put(&mut line, b"refused part ");
    put(&mut line, digits.format(part).as_bytes());
    line.push(b' ');
    put(&mut line, what);
    line.push(b'\n');
    line
}

/// The line that tells what is wrong with a line of the certificate of the part of this number.
pub(crate) fn part_line_refusal(part: u32, number: u32, what: &[u8]) -> ArrayVec<u8, 512>
    requires { length what.now ≤ 40 }
    ensures { result.items ≡ part_line part (line_in number what.now) }
{
    let mut said: ArrayVec<u8, 512> = ArrayVec::new();
    let mut digits = Buffer::new();
    put(&mut said, b"line ");
    put(&mut said, digits.format(number).as_bytes());
    said.push(b' ');
    put(&mut said, what);
    part_refusal(part, said.as_slice())
}

/// What is told of an unmove that is the label of no child.
fn unlisted_words(u: &Unmove) -> ArrayVec<u8, 512>
    requires promotion { IsTrue (can_promote u.now.mv.promo) }
    requires capture { IsTrue (can_capture u.now.mv.promo u.now.captured u.now.ep) }
    ensures words { result.items ≡ codes "unlisted " ++ unmove_text u.now }
    ensures short { length result.items ≤ 17 }
{
    let mut name: ArrayVec<u8, 8> = ArrayVec::new();
    write_unmove(u, &mut name);
    let mut what: ArrayVec<u8, 512> = ArrayVec::new();
    put(&mut what, b"unlisted ");
    put(&mut what, name.as_slice());
    what
}

/// The line that tells that in the certificate of the part of this number the unmove is the label of no child.
pub(crate) fn unlisted_in(part: u32, number: u32, u: &Unmove) -> ArrayVec<u8, 512>
    requires promotion { IsTrue (can_promote u.now.mv.promo) }
    requires capture { IsTrue (can_capture u.now.mv.promo u.now.captured u.now.ep) }
    ensures { result.items ≡ part_line part (line_in number (codes "unlisted " ++ unmove_text u.now)) }
{
    part_line_refusal(part, number, unlisted_words(u).as_slice())
}

/// The line that tells that each game to a query has at least so many half-moves.
pub(crate) fn bound(number: u16, query: &Query) -> ArrayVec<u8, 512>
    requires { query.now.barred ≡ None }
    ensures { result.items ≡ bound_line number query.now }
{
    let mut fen: ArrayVec<u8, 128> = ArrayVec::new();
    write_fen(query, &mut fen);
    let mut line: ArrayVec<u8, 512> = ArrayVec::new();
    let mut digits = Buffer::new();
    put(&mut line, b"accepted atleast ");
    put(&mut line, digits.format(number).as_bytes());
    line.push(b' ');
    put(&mut line, fen.as_slice());
    put_odds(&mut line, query.odds);
    line.push(b'\n');
    line
}

/// The line that tells that potentials don't show a length.
pub(crate) fn unsupported() -> ArrayVec<u8, 512>
    ensures { result.items ≡ ended (codes "refused unsupported") }
{
    let mut line: ArrayVec<u8, 512> = ArrayVec::new();
    put(&mut line, b"refused unsupported\n");
    line
}

/// The line that tells what is wrong with the line of this number.
pub(crate) fn refusal(number: u32, what: &[u8]) -> ArrayVec<u8, 512>
    requires { length what.now ≤ 40 }
    ensures { result.items ≡ refusal_line number what.now }
{
    let mut line: ArrayVec<u8, 512> = ArrayVec::new();
    let mut digits = Buffer::new();
    put(&mut line, b"refused line ");
    put(&mut line, digits.format(number).as_bytes());
    line.push(b' ');
    put(&mut line, what);
    line.push(b'\n');
    line
}

/// The line that tells that the unmove is the label of no child.
pub(crate) fn unlisted(number: u32, u: &Unmove) -> ArrayVec<u8, 512>
    requires promotion { IsTrue (can_promote u.now.mv.promo) }
    requires capture { IsTrue (can_capture u.now.mv.promo u.now.captured u.now.ep) }
    ensures { result.items ≡ refusal_line number (codes "unlisted " ++ unmove_text u.now) }
{
    refusal(number, unlisted_words(u).as_slice())
}
