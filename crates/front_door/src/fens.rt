//! What is wrong with a line that is due as a FEN.

use crate::inputs::has_mark;
use hint_texts::FenAdvice;

/// How many squares the text of a rank fills.
fn width(rank: &[u8]) -> usize {
    let mut squares: usize = 0;
    for byte in rank {
        let step = if byte.is_ascii_digit() {
            usize::from(*byte - b'0')
        } else {
            1
        };
        squares = squares.saturating_add(step);
    }
    squares
}

/// How many ranks end in the text.
fn ranks_ended(text: &[u8]) -> usize {
    text.iter().filter(|byte| **byte == b'/').count()
}

/// How many squares the last rank of the text fills.
fn last_width(text: &[u8]) -> usize {
    text.rsplit(|byte| *byte == b'/').next().map_or(0, width)
}

/// The text has eight ranks, the last of which is full.
fn is_placement(text: &[u8]) -> bool {
    ranks_ended(text) == 7 && last_width(text) == 8
}

/// The number of the last rank of the text, of which so many end in it; 1 if there are too many.
fn rank_behind(ended: usize) -> u8 {
    match ended {
        0 => 8,
        1 => 7,
        2 => 6,
        3 => 5,
        4 => 4,
        5 => 3,
        6 => 2,
        _ => 1,
    }
}

/// What is wrong with a rank that ends behind a part that begins some FEN, or with the number of ranks.
fn advise_end(good: &[u8], another: bool) -> FenAdvice {
    let ended = ranks_ended(good);
    if last_width(good) < 8 {
        FenAdvice::ShortRank(rank_behind(ended))
    } else if another {
        FenAdvice::ManyRanks
    } else {
        FenAdvice::FewRanks
    }
}

/// The line is of another kind than a FEN.
fn other_kind(line: &[u8]) -> Option<FenAdvice> {
    if has_mark(line) {
        Some(FenAdvice::ByteOrderMark)
    } else if line.is_empty() {
        Some(FenAdvice::EmptyLine)
    } else if line.starts_with(b"claim") {
        Some(FenAdvice::ClaimLine)
    } else if line.starts_with(b"odds") || line.starts_with(b"clock") {
        Some(FenAdvice::Demand)
    } else if line.starts_with(b"retro ") {
        Some(FenAdvice::OtherText)
    } else {
        None
    }
}

/// Whatever the field, what is wrong with the blank, the quotation mark or the dash where the line stops being a FEN.
fn advise_sign(good: &[u8], rest: &[u8]) -> Option<FenAdvice> {
    match rest {
        [b'\'' | b'"', ..] | [0xE2, 0x80, 0x98..=0x9F, ..] => Some(FenAdvice::Quotes),
        [0xE2, 0x80, 0x90..=0x95, ..] | [0xE2, 0x88, 0x92, ..] => Some(FenAdvice::Dash),
        [b'\t', ..] => Some(FenAdvice::Tab),
        [b' ', ..] if rest.iter().all(|byte| *byte == b' ') && !good.is_empty() => {
            Some(FenAdvice::BlankAtEnd)
        }
        [b' ', ..] if good.is_empty() || good.ends_with(b" ") => Some(FenAdvice::Blanks),
        _ => None,
    }
}

/// The byte is a man or so many empty squares.
pub(crate) fn fills(byte: u8) -> bool {
    matches!(byte, b'1'..=b'8' | b'P' | b'N' | b'B' | b'R' | b'Q' | b'K')
        || matches!(byte, b'p' | b'n' | b'b' | b'r' | b'q' | b'k')
}

/// What is wrong with a rank behind a part that begins some FEN.
fn advise_rank(good: &[u8], rest: &[u8]) -> FenAdvice {
    match rest {
        [b'/', ..] if !good.is_empty() => advise_end(good, true),
        [] | [b' ', ..] if ranks_ended(good) == 7 || last_width(good) == 8 => {
            advise_end(good, false)
        }
        [byte, ..] if fills(*byte) && last_width(good) > 0 => {
            FenAdvice::LongRank(rank_behind(ranks_ended(good)))
        }
        _ => FenAdvice::Placement,
    }
}

/// What is wrong with the men.
fn advise_men(good: &[u8], rest: &[u8]) -> FenAdvice {
    match rest {
        [] if is_placement(good) => FenAdvice::NoSide,
        [b'S' | b's', ..] => FenAdvice::Knight,
        [b'0'..=b'9', ..] if good.last().is_some_and(|byte| byte.is_ascii_digit()) => {
            FenAdvice::Digits
        }
        _ => advise_rank(good, rest),
    }
}

/// What is wrong with a field behind the men.
fn advise_field(field: u32, good: &[u8], rest: &[u8]) -> FenAdvice {
    match field {
        2 if rest.is_empty() && good.ends_with(b" ") => FenAdvice::NoSide,
        5 if rest.is_empty() && good.ends_with(b" ") => FenAdvice::BlankAtEnd,
        2..=5 if rest.is_empty() => FenAdvice::Fields,
        2 => FenAdvice::Side,
        3 => FenAdvice::Rights,
        4 => FenAdvice::Passant,
        5 if !good.ends_with(b" ") => FenAdvice::Numbers,
        6 => FenAdvice::Numbers,
        _ => FenAdvice::Fields,
    }
}

/// What is wrong with the line that is due as a FEN: its first `at` bytes are the longest part from its front on that begins some
/// FEN, and they end in this field.
pub(crate) fn advise_fen(line: &[u8], field: u32, at: usize) -> FenAdvice {
    let at = at.min(line.len());
    let (good, rest) = (&line[..at], &line[at..]);
    if let Some(advice) = other_kind(line) {
        return advice;
    }
    if let Some(advice) = advise_sign(good, rest) {
        return advice;
    }
    if field == 1 {
        advise_men(good, rest)
    } else {
        advise_field(field, good, rest)
    }
}
