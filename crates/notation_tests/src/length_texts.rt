//! The texts of lengths that are written: they are read back. Other texts stand among the rows of `rows_run`.

use arrayvec::ArrayVec;
use board_base::{Colour, Odds, SquareSet};
use fen_text::read_four_fields;
use length_bound::{LengthRefused, check_length, longest, write_length};
use query_base::Query;
use retro_ports::MemSource;
use std::alloc::{AllocError, Global};

/// The answer to a text whose bytes come at most so many at a time, and of which the reads of these numbers fail.
fn checked(
    alloc: Global,
    text: &[u8],
    piece: usize,
    failing: &[u32],
) -> Result<Result<(u16, Query), LengthRefused>, AllocError> {
    let failing = Vec::from_slice(alloc, failing)?;
    let mut source = MemSource::new(Vec::from_slice(alloc, text)?, failing, piece.max(1));
    Ok(check_length(&mut source))
}

/// The side that shows the greatest length of the query's games, and this length, if its text is read so, and is unsupported with one
/// half-move more; None if they aren't, or the query has no such text.
fn read_back(alloc: Global, query: &Query) -> Result<Option<(Colour, u16)>, AllocError> {
    if query.barred.is_some() || query.clock.is_some() {
        return Ok(None);
    }
    let Some(text) = longest(query) else {
        return Ok(None);
    };
    let length = text.at_least;
    if length > 9998 {
        return Ok(None);
    }
    let mut out: ArrayVec<u8, 512> = ArrayVec::new();
    write_length(query, text.side, &text.potentials, length, &mut out);
    let mut more: ArrayVec<u8, 512> = ArrayVec::new();
    write_length(query, text.side, &text.potentials, length + 1, &mut more);
    let good = checked(alloc, out.as_slice(), 1, &[])? == Ok((length, *query));
    let above = checked(alloc, more.as_slice(), 4096, &[])? == Err(LengthRefused::Unsupported);
    Ok(if good && above {
        Some((text.side, length))
    } else {
        None
    })
}

/// What `read_back` gives for the query of a text, whose games begin without the men of this set.
fn read_back_at(alloc: Global, text: &str, odds: u64) -> Option<(Colour, u16)> {
    let mut query = read_four_fields(text.as_bytes())?;
    query.odds = Odds::new(SquareSet::from_bits(odds))?;
    read_back(alloc, &query).ok()?
}

/// Position, the men that are left out, the side that shows the greater length, and that length.
const LENGTHS: [(&str, u64, Colour, u16); 6] = [
    (
        "rnbqk2r/ppppppbp/5np1/8/8/5NP1/PPPPPPBP/RNBQ1RK1 b kq -",
        0,
        Colour::White,
        7,
    ),
    (
        "rnbqkb1r/pppppppp/5n2/8/4P3/8/PPPP1PPP/RNBQKBNR w KQkq -",
        0,
        Colour::White,
        2,
    ),
    (
        "rnbqkbnr/pppppppp/8/8/8/8/PPPPPPPP/RNBQKBNR w KQkq -",
        0,
        Colour::White,
        0,
    ),
    (
        "rnbqkbnr/1ppppppp/8/8/p7/8/PPPPPPPP/RNBQKBNR w KQkq -",
        0,
        Colour::Black,
        4,
    ),
    (
        "rnbqkbnr/pppppppp/8/8/8/P7/PPPPPPPP/RNBQKBNR w KQkq -",
        0,
        Colour::Black,
        0,
    ),
    // Without the knight of b1, that of f3 began on g1.
    (
        "rnbqkbnr/pppppppp/8/8/8/5N2/PPPPPPPP/R1BQKB1R b KQkq -",
        2,
        Colour::White,
        1,
    ),
];

#[test]
fn reads_what_was_written(rt: HostRuntime) {
    for (text, odds, side, length) in LENGTHS {
        assert_eq!(rt;
            read_back_at(rt.alloc(), text, odds),
            Some((side, length)),
            "{text}"
        );
    }
}

/// Why a text is refused that comes five bytes at a time, and whose second read fails.
fn refused(alloc: Global, text: &str) -> Option<LengthRefused> {
    checked(alloc, text.as_bytes(), 5, &[1]).ok()?.err()
}

/// The second read fails, whatever the first gave.
#[test]
fn tells_a_failed_read(rt: HostRuntime) {
    for text in ["retro length 1\n", "retro length 2\n"] {
        assert_eq!(rt; refused(rt.alloc(), text), Some(LengthRefused::ReadFault));
    }
}
