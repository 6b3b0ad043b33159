//! Rows are run.

use crate::reading::{Manner, Row};
use run_driver::{Ports, WHOLE, run_on};
use std::alloc::{AllocError, Global};
use std::io;

/// How many bytes pass at once at most, run by run.
const IN_PIECES: &[usize] = &[1, 7, 65_536];

const AT_ONCE: &[usize] = &[65_536];

/// The status and the answer of the last of the commands of a line, of which the first is handed this input, and each other the answer to the
/// one before.
fn run_line(
    alloc: Global,
    line: &str,
    input: &[u8],
    ports: Ports,
) -> Result<(u8, Vec<u8>), AllocError> {
    let mut code = 0;
    let mut text = Vec::from_slice(alloc, input)?;
    for command in line.split('|') {
        let words: Vec<&str> = command.split_whitespace().collect(alloc)?;
        let (status, sink) = run_on(alloc, &words, &text, ports)?;
        code = status.code();
        text = Vec::from_slice(alloc, sink.taken())?;
    }
    Ok((code, text))
}

/// Whether a line of commands is answered as the row says, with this status. Another answer is printed.
fn is_answered(
    rt: &(impl Print + AllocGlobal),
    row: &Row,
    line: &str,
    status: u8,
) -> io::Result<bool> {
    let (pieces, failing_read) = match row.manner {
        Manner::Pieces => (IN_PIECES, None),
        Manner::Whole | Manner::Short => (AT_ONCE, None),
        Manner::Unread => (AT_ONCE, Some(0)),
    };
    for most in pieces {
        let ports = Ports {
            most_read: *most,
            most_written: *most,
            failing_read,
            ..WHOLE
        };
        let (code, text) = run_line(rt.alloc(), line, &row.input, ports)?;
        if code != status || !row.is_answer(&text) {
            println!(rt; "in pieces of {most} it ends with {code}: {line}")?;
            rt.write_all(&text)?;
            return Ok(false);
        }
    }
    Ok(true)
}

/// How many lines of commands were answered as their rows say, and how many otherwise.
#[derive(Clone, Copy)]
pub(crate) struct Count {
    pub(crate) as_said: u32,
    pub(crate) otherwise: u32,
}

/// Runs the row's commands on its input, which are to end with this status, and counts them.
pub(crate) fn run_row(
    rt: &(impl Print + AllocGlobal),
    row: &Row,
    status: u8,
    count: &mut Count,
) -> io::Result<()> {
    for line in row.commands.as_str().lines() {
        if is_answered(rt, row, line, status)? {
            count.as_said = count.as_said.wrapping_add(1);
        } else {
            count.otherwise = count.otherwise.wrapping_add(1);
        }
    }
    Ok(())
}
