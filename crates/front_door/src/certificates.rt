//! What was given to `check` that is no certificate, or to `explain` that is no proof.

ghost use Rattle.std.specs.Prelude.{IfSome, IsTrue};
ghost use Rattle.front_door.specs.Hints.{HasProofReturns, HasReturns, IsWithoutProof, ShowsBoard, TellsText};

use crate::inputs::has_mark;
use hint_texts::TextAdvice;
use question_text::read_lone_question;

/// The lines are those of a certificate, but each ends with a carriage return too.
fn has_returns(input: &[u8]) -> bool
    ensures { IsTrue result → HasReturns input.now }
{
    input.starts_with(b"retro 1\r\n") || input.starts_with(b"retro 2\r\n")
}

/// The lines are those of a certificate, a dossier or a length, but each ends with a carriage return too.
fn has_proof_returns(input: &[u8]) -> bool
    ensures { IsTrue result → HasProofReturns input.now }
{
    has_returns(input)
        || input.starts_with(b"retro line 1\r\n")
        || input.starts_with(b"retro length 1\r\n")
}

/// The line is that of a search that found no proof.
fn is_without_proof(input: &[u8]) -> bool
    ensures { IsTrue result → IsWithoutProof input.now }
{
    input.starts_with(b"countered")
        || input.starts_with(b"undecided")
        || input.starts_with(b"spent ")
}

/// The text begins with a board, as a report or an explanation does.
fn is_report(input: &[u8]) -> bool
    ensures { IsTrue result → ShowsBoard input.now }
{
    input.starts_with(b"  a b c d e f g h")
}

/// The input is the lines of a position alone, none of which is long.
fn is_position(input: &[u8]) -> bool {
    let front = &input[..input.len().min(1_024)];
    read_lone_question(front).is_ok()
}

/// What the input is that `check` refused at its first line; None if it isn't known.
fn advise_check(input: &[u8]) -> Option<TextAdvice>
    ensures { IfSome result (λ advice. TellsText advice input.now) }
{
    if has_mark(input) {
        Some(TextAdvice::ByteOrderMark)
    } else if input.starts_with(b"retro line") {
        Some(TextAdvice::Dossier)
    } else if input.starts_with(b"retro length") {
        Some(TextAdvice::Length)
    } else if input.starts_with(b"claim ") {
        Some(TextAdvice::Claim)
    } else if is_without_proof(input) {
        Some(TextAdvice::NoProof)
    } else if is_report(input) {
        Some(TextAdvice::Report)
    } else if has_returns(input) {
        Some(TextAdvice::CarriageReturns)
    } else if is_position(input) {
        Some(TextAdvice::PositionToCheck)
    } else {
        None
    }
}

/// What the input is that `explain` refused at its first line; None if it isn't known.
fn advise_explain(input: &[u8]) -> Option<TextAdvice>
    ensures { IfSome result (λ advice. TellsText advice input.now) }
{
    if has_mark(input) {
        Some(TextAdvice::ByteOrderMark)
    } else if input.starts_with(b"claim ") {
        Some(TextAdvice::ClaimToExplain)
    } else if is_without_proof(input) {
        Some(TextAdvice::NoProof)
    } else if is_report(input) {
        Some(TextAdvice::Report)
    } else if has_proof_returns(input) {
        Some(TextAdvice::ReturnsToExplain)
    } else if is_position(input) {
        Some(TextAdvice::PositionToExplain)
    } else {
        None
    }
}

/// What the input is that `explain`, or else `check`, refused at its first line; None if it isn't known.
pub(crate) fn advise_text(explain: bool, input: &[u8]) -> Option<TextAdvice>
    ensures { IfSome result (λ advice. TellsText advice input.now) }
{
    if explain {
        advise_explain(input)
    } else {
        advise_check(input)
    }
}
