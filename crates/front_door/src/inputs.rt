//! The front of an input, cut into lines.

ghost use Rattle.std.specs.Prelude.{◌≤◌, IsTrue};
ghost use Rattle.front_door.specs.Hints.{HasMark};

use question_text::split_first_line;
use retro_top::InputKind;

/// The text begins with a byte-order mark in UTF-8.
pub(crate) fn has_mark(text: &[u8]) -> bool
    ensures { IsTrue result → HasMark text.now }
{
    text.starts_with(b"\xEF\xBB\xBF")
}

/// The first line is a claim.
pub(crate) fn asks_for_claim(kind: InputKind) -> bool {
    matches!(kind, InputKind::Claim | InputKind::Steps)
}

/// The text from the line of this number on, counted from 1; None if there is none.
fn from_line(text: &[u8], number: u32) -> Option<&[u8]> {
    let mut rest = text;
    for _ in 1..number {
        rest = split_first_line(rest).1;
    }
    if rest.is_empty() { None } else { Some(rest) }
}

/// The line of this number, counted from 1, without its end; None if there is none.
pub(crate) fn line_at(text: &[u8], number: u32) -> Option<&[u8]> {
    match from_line(text, number) {
        Some(rest) => Some(split_first_line(rest).0),
        None => None,
    }
}

/// The line of this number begins with the text.
fn begins(input: &[u8], number: u32, text: &[u8]) -> bool {
    line_at(input, number).is_some_and(|line| line.starts_with(text))
}

/// The number of the line that is due as the FEN.
pub(crate) fn fen_number(kind: InputKind, input: &[u8]) -> u32
    ensures { result ≤ 4 }
{
    let mut number = if asks_for_claim(kind) { 2 } else { 1 };
    if begins(input, number, b"odds ") {
        number += 1;
    }
    if kind != InputKind::PlainPosition && begins(input, number, b"clock ") {
        number += 1;
    }
    number
}

/// The line that is due as the FEN, as far as the input goes.
pub(crate) fn fen_line(kind: InputKind, input: &[u8]) -> &[u8] {
    line_at(input, fen_number(kind, input)).unwrap_or(b"")
}

/// What follows the FEN line.
pub(crate) fn after_fen(kind: InputKind, input: &[u8]) -> &[u8] {
    from_line(input, fen_number(kind, input) + 1).unwrap_or(b"")
}
