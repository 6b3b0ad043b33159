//! Inputs that are cut anywhere.

use crate::refusals::is_refused;
use crate::rows::TWO_STEPS;
use run_driver::{Row, Status, WHOLE, is_answered};
use std::test::Fail;

/// The last move was a double step, and before it White can have made no move. A certificate of 85 bytes.
const DOUBLE_STEP: &[u8] =
    b"retro 1\nclaim illegal\nfen 4k3/8/8/3p4/8/8/P7/4K2R w K d6\nroot expand 1\nd7d5 expand 0\n";

/// A part of a certificate from its front on is bad text at the line that isn't whole.
#[test]
fn refuses_each_front_of_a_certificate(rt: HostRuntime) -> Result<(), Fail> {
    for length in 0..DOUBLE_STEP.len() {
        let input = &DOUBLE_STEP[..length];
        let line = input
            .iter()
            .filter(|byte| **byte == b'\n')
            .count()
            .saturating_add(1);
        let text = format!(in rt.alloc(); "refused line {line} text\n")?;
        assert!(rt; is_refused(rt.alloc(), input, text.as_str())?, "{length}");
    }
    Ok(())
}

/// One of the kings has moved, or one of the rooks. A dossier of one part.
const BOTH: &[u8] = b"retro line 1
claim notboth K k
fen 4k2r/8/8/8/8/8/P7/4K2R b - -
part 70
retro 1
claim illegal
fen 4k2r/8/8/8/8/8/P7/4K2R b Kk -
root expand 0
";

/// The bytes of its head.
const HEAD: usize = 64;

/// Cut anywhere, it has no head, or lacks a part.
#[test]
fn refuses_each_front_of_a_dossier(rt: HostRuntime) -> Result<(), Fail> {
    for length in 0..BOTH.len() {
        let text: &[u8] = if length < HEAD {
            b"refused head\n"
        } else {
            b"refused part 1 text\n"
        };
        let row = Row {
            words: TWO_STEPS.words,
            input: &BOTH[..length],
            status: Status::Refused,
            text,
        };
        assert!(rt; is_answered(rt.alloc(), &row, WHOLE)?, "{length}");
    }
    Ok(())
}
