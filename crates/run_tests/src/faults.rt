//! Runs in which a read or a write fails: nothing is written then, or the front of the answer.

use crate::rows::{BLOCKED_PAWN, CAPTURES, DOUBLE_STEP, NO_KINGS, TWO_STEPS};
use run_driver::{Ports, Row, Status, WHOLE, is_answered, run_on};
use std::alloc::Global;
use std::process::Abort;
use std::test::Fail;

/// What fails.
#[derive(Clone, Copy)]
enum Failing {
    Read,
    Write,
}

/// A read gives at most ten bytes, and a write takes one. The read or the write of this number fails.
fn small_pieces(failing: Failing, number: u32) -> Ports {
    let (failing_read, failing_write) = match failing {
        Failing::Read => (Some(number), None),
        Failing::Write => (None, Some(number)),
    };
    Ports {
        most_read: 10,
        most_written: 1,
        failing_read,
        failing_write,
    }
}

/// How many reads or writes there are: a read for every ten bytes of the input and one that finds its end, and a write for every byte of the
/// answer.
fn count_calls(failing: Failing, row: &Row) -> usize {
    match failing {
        Failing::Read => row.input.len().div_ceil(10).saturating_add(1),
        Failing::Write => row.text.len(),
    }
}

/// The run in which this read or this write fails ends so. What was taken before is nothing, or a byte of the answer for each write.
fn assert_fault(
    rt: &(impl Abort + AllocGlobal),
    row: &Row,
    failing: Failing,
    number: u32,
) -> Result<(), Fail> {
    let (fault, taken) = match failing {
        Failing::Read => (Status::ReadFault, 0),
        Failing::Write => (Status::WriteFault, number as usize),
    };
    let ports = small_pieces(failing, number);
    let (status, sink) = run_on(rt.alloc(), row.words, row.input, ports)?;
    assert_eq!(rt; status, fault);
    assert_eq!(rt; sink.taken().len(), taken);
    assert!(rt; row.text.starts_with(sink.taken()));
    Ok(())
}

/// Each read or each write fails in turn, and the run in which none does ends as the row says.
fn assert_faults(rt: &(impl Abort + AllocGlobal), row: &Row, failing: Failing) -> Result<(), Fail> {
    let calls = count_calls(failing, row);
    for number in 0..1_000_u32 {
        if number as usize == calls {
            assert!(rt; is_answered(rt.alloc(), row, small_pieces(failing, number))?);
            return Ok(());
        }
        assert_fault(rt, row, failing, number)?;
    }
    Err(Fail::from("too many calls"))
}

#[test]
fn stops_at_each_fault(rt: HostRuntime) -> Result<(), Fail> {
    for row in [NO_KINGS, BLOCKED_PAWN, CAPTURES, DOUBLE_STEP, TWO_STEPS] {
        assert_faults(&rt, &row, Failing::Read)?;
        assert_faults(&rt, &row, Failing::Write)?;
    }
    Ok(())
}

/// The same if a proof is told, with the text of a run without faults.
#[test]
fn stops_telling_at_each_fault(rt: HostRuntime) -> Result<(), Fail> {
    let words: &[&str] = &["explain"];
    let (status, told) = run_on(rt.alloc(), words, NO_KINGS.input, WHOLE)?;
    assert_eq!(rt; status, Status::Done);
    let row = Row {
        words,
        input: NO_KINGS.input,
        status,
        text: told.taken(),
    };
    assert_faults(&rt, &row, Failing::Read)?;
    assert_faults(&rt, &row, Failing::Write)?;
    Ok(())
}
