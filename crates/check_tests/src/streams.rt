//! What a check of bytes in pieces, and of a source's, answers.

use crate::first_faults::{ARRAY, DOUBLE_STEP, checked, rows};
use cert_checker::{Accepted, Checker, Fault, Refused, StreamRefused, check_stream};
use retro_ports::MemSource;
use std::alloc::{AllocError, Global};

/// The answer to a text whose bytes come at most so many at a time, and of which the reads of these numbers fail.
fn streamed(
    alloc: Global,
    text: &[u8],
    piece: usize,
    failing: &[u32],
) -> Result<Result<Accepted, StreamRefused>, AllocError> {
    let failing = Vec::from_slice(alloc, failing)?;
    let mut source = MemSource::new(Vec::from_slice(alloc, text)?, failing, piece.max(1));
    Ok(check_stream(&mut source))
}

/// Feeds a piece, if it doesn't go past the most bytes.
fn feed(checker: &mut Checker, piece: &[u8]) {
    if piece.len() <= 67_108_864 - checker.fed() as usize {
        checker.feed(piece);
    }
}

/// The answer to a text that is fed in two pieces, with empty ones before, between and after them.
fn in_two(text: &[u8], first: usize) -> Result<Accepted, Fault> {
    let (front, back) = text.split_at(first.min(text.len()));
    let mut checker = Checker::new();
    for piece in [b"".as_slice(), front, b"", back, b""] {
        feed(&mut checker, piece);
    }
    checker.finish()
}

/// The answer to three pieces, of which the middle one is so many blanks, at most 257.
fn with_blanks(before: &[u8], blanks: usize, behind: &[u8]) -> Result<Accepted, Fault> {
    let line = [b' '; 257];
    let mut checker = Checker::new();
    feed(&mut checker, before);
    feed(&mut checker, &line[..blanks.min(257)]);
    feed(&mut checker, behind);
    checker.finish()
}

/// What `check_bytes` answers in the place of a refusal of a stream that was read to its end.
fn as_refused(refused: StreamRefused) -> Option<Refused> {
    match refused {
        StreamRefused::BadText { line } => Some(Refused::BadText { line }),
        StreamRefused::Unlisted { line, unmove } => Some(Refused::Unlisted { line, unmove }),
        StreamRefused::Unsupported { line, why } => Some(Refused::Unsupported { line, why }),
        StreamRefused::TooLong | StreamRefused::ReadFault => None,
    }
}

/// Whether a text is answered alike whole and at most so many bytes at a time.
fn is_alike(alloc: Global, text: &[u8], piece: usize) -> Result<bool, AllocError> {
    let whole = checked(alloc, text);
    match streamed(alloc, text, piece, &[])? {
        Ok(accepted) => Ok(whole == Ok(accepted)),
        Err(refused) => Ok(whole.err() == as_refused(refused)),
    }
}

/// Whether a text is refused so, or is accepted if no refusal is given: whole, and in reads of one byte and of seven.
pub(crate) fn is_answered(
    alloc: Global,
    text: &[u8],
    refused: Option<Refused>,
) -> Result<bool, AllocError> {
    let whole = checked(alloc, text);
    let as_wanted = match refused {
        Some(refused) => whole == Err(refused),
        None => whole.is_ok(),
    };
    Ok(as_wanted && is_alike(alloc, text, 1)? && is_alike(alloc, text, 7)?)
}

/// The number of the first row that isn't answered as it says, counted from 0.
fn first_otherwise(alloc: Global) -> Result<Option<usize>, AllocError> {
    let rows = rows();
    for (number, (text, refused)) in rows.iter().enumerate() {
        if !is_answered(alloc, text, *refused)? || !is_alike(alloc, text, 4096)? {
            return Ok(Some(number));
        }
    }
    Ok(None)
}

#[test]
fn answers_alike_in_pieces_and_whole(rt: HostRuntime) {
    assert_eq!(rt; first_otherwise(rt.alloc()), Ok(None));
}

/// The length of the first front part that isn't refused at the line that isn't whole.
fn first_taken(alloc: Global) -> Result<Option<usize>, AllocError> {
    let mut line = 1;
    for (length, byte) in DOUBLE_STEP.iter().enumerate() {
        let part = &DOUBLE_STEP[..length];
        if !is_answered(alloc, part, Some(Refused::BadText { line }))? {
            return Ok(Some(length));
        }
        if *byte == b'\n' {
            line = u32::wrapping_add(line, 1);
        }
    }
    Ok(None)
}

/// A part of a certificate from its front on is bad text at the line that isn't whole.
#[test]
fn refuses_each_front_part(rt: HostRuntime) {
    assert_eq!(rt; first_taken(rt.alloc()), Ok(None));
}

#[test]
fn answers_alike_at_each_cut(rt: HostRuntime) {
    let whole = in_two(DOUBLE_STEP, 0);
    assert!(rt; whole.is_ok());
    for first in 0..DOUBLE_STEP.len() {
        assert!(rt; in_two(DOUBLE_STEP, first) == whole);
    }
}

#[test]
fn takes_no_long_line_for_two(rt: HostRuntime) {
    // Behind 255, 256 or 257 blanks stands what would be the line of the claim alone.
    for blanks in [255, 256, 257] {
        let rest = b"claim illegal\nfen 4k3/8/8/8/8/8/8/4K3 w - -\nroot rule kings\n";
        assert!(rt; with_blanks(b"retro 1\n", blanks, rest) == Err(Fault::BadText { line: 2 }));
    }
    // Lines of 255, 256 and 257 bytes with their ends.
    for blanks in [254, 255, 256] {
        assert!(rt; with_blanks(b"", blanks, b"\nretro 1\n") == Err(Fault::BadText { line: 1 }));
    }
}

/// The answer to one piece, and how many bytes were fed.
fn in_one(piece: &[u8]) -> (Result<Accepted, Fault>, u32) {
    let mut checker = Checker::new();
    feed(&mut checker, piece);
    (checker.finish(), checker.fed())
}

#[test]
fn wants_the_last_line_to_end(rt: HostRuntime) {
    let text = b"retro 1\nclaim illegal\nfen 4k3/8/8/8/8/8/8/4K3 w - -\nroot expand 0";
    assert_eq!(rt; in_one(text), (Err(Fault::BadText { line: 4 }), 65));
}

/// Whether the answer to a text is that to the whole, or that a read failed.
fn is_whole_or_failed(
    alloc: Global,
    text: &[u8],
    piece: usize,
    failing: &[u32],
) -> Result<bool, AllocError> {
    match streamed(alloc, text, piece, failing)? {
        Ok(accepted) => Ok(checked(alloc, text) == Ok(accepted)),
        Err(refused) => Ok(refused == StreamRefused::ReadFault),
    }
}

#[test]
fn tells_a_failed_read_after_a_fault(rt: HostRuntime) {
    // The fault stands on line 4, which ends in the third read of forty bytes. The fourth read fails.
    assert_eq!(rt; is_whole_or_failed(rt.alloc(), ARRAY, 40, &[3]), Ok(true));
}
