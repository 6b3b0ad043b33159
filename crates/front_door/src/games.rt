//! What is wrong with a word of a game.

use board_base::read_move;
use hint_texts::MoveAdvice;
use retro_top::InputKind;

fn is_blank(byte: u8) -> bool {
    matches!(byte, b' ' | b'\n' | b'\r')
}

/// The word of a game without the number before it.
fn without_number(word: &[u8]) -> &[u8] {
    for (i, byte) in word.iter().enumerate() {
        if !byte.is_ascii_digit() && *byte != b'.' {
            return &word[i..];
        }
    }
    &[]
}

/// The word is one of algebraic notation rather than a move's origin and target.
fn is_algebraic(word: &[u8]) -> bool {
    let marks = word
        .iter()
        .any(|byte| matches!(*byte, b'x' | b'+' | b'#' | b'=' | b'.'));
    marks || word.len() < 4 || matches!(word[0], b'K' | b'Q' | b'R' | b'B' | b'N' | b'O' | b'0')
}

/// The word is a remark on a move.
fn is_remark(word: &[u8]) -> bool {
    let marks = word.iter().any(|byte| matches!(
        *byte,
        b'!' | b'?' | b'{' | b'}' | b'(' | b')' | b'[' | b'$' | b';'
    ));
    marks || word.starts_with(b"e.p")
}

/// A word ends with a colon, as the label does before a printed game.
fn has_label(game: &[u8]) -> bool {
    game.split(|byte| is_blank(*byte))
        .any(|word| word.ends_with(b":"))
}

/// What is wrong with a word of `san`.
fn advise_san(word: &[u8]) -> MoveAdvice {
    let word = without_number(word);
    if word.starts_with(b"-0") || word.starts_with(b"o-") {
        MoveAdvice::CastlingLetters
    } else if is_remark(word) {
        MoveAdvice::Marks
    } else if read_move(word).is_some() {
        MoveAdvice::UsePlay
    } else {
        MoveAdvice::San
    }
}

/// What is wrong with the word of this number, counted from 1, of a game of this kind.
pub(crate) fn advise_word(kind: InputKind, game: &[u8], number: u32) -> MoveAdvice {
    let mut words = game
        .split(|byte| is_blank(*byte))
        .filter(|word| !word.is_empty());
    let word = words.nth(number.saturating_sub(1) as usize).unwrap_or(b"");
    if number == 1 && !is_remark(word) && has_label(game) {
        MoveAdvice::Label
    } else if kind == InputKind::Notation {
        advise_san(word)
    } else if !word.is_empty() && is_algebraic(word) {
        MoveAdvice::UseSan
    } else {
        MoveAdvice::Move
    }
}

/// What is wrong with the ply of this number, counted from 1, of a game in algebraic notation, to which no legal move fits; None
/// if nothing is to be said.
pub(crate) fn advise_ply(game: &[u8], number: u32) -> Option<MoveAdvice> {
    let mut words = game
        .split(|byte| is_blank(*byte))
        .map(|word| without_number(word))
        .filter(|word| !word.is_empty());
    let word = words.nth(number.saturating_sub(1) as usize)?;
    if read_move(word).is_some() {
        Some(MoveAdvice::UsePlay)
    } else {
        None
    }
}
