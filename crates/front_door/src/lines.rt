//! What is wrong with the lines of an input.

ghost use Rattle.std.specs.Prelude.{◌≡◌, ◌≢◌, ◌↔◌, []};
ghost use Rattle.hint_texts.specs.declared.advice.LineAdvice.TheVariants.{Empty};

use crate::inputs::{asks_for_claim, fen_number, has_mark, line_at};
use fen_text::{read_clock, read_odds};
use hint_texts::LineAdvice;
use retro_top::InputKind;

/// What is wrong with a line that is due as the claim of `solve` or `settle`.
fn advise_claim(line: &[u8]) -> LineAdvice
    ensures { result ≢ Empty }
{
    if line.starts_with(b"claim line") || line.starts_with(b"claim notboth") {
        LineAdvice::ClaimOfSteps
    } else if line.starts_with(b"claim last") || line.starts_with(b"claim ep") {
        LineAdvice::MoveOfClaim
    } else if line.starts_with(b"claim lost") {
        LineAdvice::RightOfClaim
    } else if line.starts_with(b"claim legal") {
        LineAdvice::LegalClaim
    } else {
        LineAdvice::Claim
    }
}

/// What is wrong with a line that is due as the claim of `dossier`.
fn advise_steps(line: &[u8]) -> LineAdvice
    ensures { result ≢ Empty }
{
    let of_one: [&[u8]; 4] = [b"claim illegal", b"claim last", b"claim lost", b"claim ep"];
    if of_one.iter().any(|words| line.starts_with(words)) {
        LineAdvice::ClaimOfOne
    } else {
        LineAdvice::Steps
    }
}

/// What is wrong with a line that stands before the FEN.
fn advise_demand(line: &[u8]) -> LineAdvice
    ensures { result ≢ Empty }
{
    if line.starts_with(b"odds ") {
        LineAdvice::Odds
    } else if read_clock(line).is_some() {
        LineAdvice::ClockAgainstFen
    } else {
        LineAdvice::Clock
    }
}

/// The line begins as a claim, the odds or the clock does, and ends with a blank.
fn has_blank_at_end(line: &[u8]) -> bool {
    let fronts: [&[u8]; 3] = [b"claim ", b"odds ", b"clock "];
    let blank = line.ends_with(b" ") || line.ends_with(b"\t");
    blank && fronts.iter().any(|front| line.starts_with(front))
}

/// What is wrong with a line that is due as the claim, or stands before the FEN as the odds or the clock.
fn advise_before(kind: InputKind, line: &[u8], number: u32) -> LineAdvice
    ensures { result ≢ Empty }
{
    if has_blank_at_end(line) {
        LineAdvice::BlankAtEnd
    } else if number != 1 || !asks_for_claim(kind) {
        advise_demand(line)
    } else if kind == InputKind::Steps {
        advise_steps(line)
    } else {
        advise_claim(line)
    }
}

/// What is wrong with a line that stands behind the FEN.
fn advise_behind(line: &[u8]) -> LineAdvice
    ensures { result ≢ Empty }
{
    if line.is_empty() {
        LineAdvice::EmptyBehindFen
    } else {
        LineAdvice::LineTooMany
    }
}

/// What is wrong with the line of this number of the command's input.
pub(crate) fn advise_line(kind: InputKind, input: &[u8], number: u32) -> LineAdvice
    ensures { (result ≡ Empty) ↔ (input.now ≡ []) }
{
    if input.is_empty() {
        return LineAdvice::Empty;
    }
    if has_mark(input) {
        return LineAdvice::ByteOrderMark;
    }
    let due = fen_number(kind, input);
    let Some(line) = line_at(input, number) else {
        return if number == due {
            LineAdvice::NoFen
        } else {
            LineAdvice::Lines
        };
    };
    if number > due {
        return advise_behind(line);
    }
    advise_before(kind, line, number)
}
