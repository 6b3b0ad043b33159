ghost use Rattle.std.specs.Prelude.{[], ◌≡◌, ◌↔◌, IfOk, IsTrue, map, string_bytes};
ghost use Rattle.retro_top.specs.Statuses.{IsAnswer, IsSilent};
ghost use Rattle.run_driver.specs.Runs.{CallNothing, Runs, RunsInPart};

use retro_ports::{MemSink, MemSource};
use retro_top::{Status, run};
use std::alloc::{AllocError, Global};

/// Words and an input, with the status and the text that answer them.
#[derive(Clone, Copy)]
pub struct Row<'a> {
    pub words: &'a [&'a str],
    pub input: &'a [u8],
    pub status: Status,
    pub text: &'a [u8],
}

/// What a source and a sink do.
#[derive(Clone, Copy)]
pub struct Ports {
    /// The most bytes that a read gives, at least one.
    pub most_read: usize,
    /// The most bytes that a write takes, at least one.
    pub most_written: usize,
    /// The read that fails, counted from 0.
    pub failing_read: Option<u32>,
    /// The write that fails, counted from 0.
    pub failing_write: Option<u32>,
}

/// No call fails, and the whole input comes in one piece, if it is of at most 64 KiB.
pub const WHOLE: Ports = Ports {
    most_read: 65_536,
    most_written: 65_536,
    failing_read: None,
    failing_write: None,
};

fn words_of(alloc: Global, words: &[&str]) -> Result<Vec<String>, AllocError>
    ensures { IfOk result (λ v. map string_bytes v.items ≡ map (λ w. w.now) words.now) }
{
    let mut all = Vec::new(alloc);
    for word in words {
        all.push(String::from_str(alloc, word)?)?;
    }
    Ok(all)
}

/// A list of one number, or none.
fn at_most_one(alloc: Global, number: Option<u32>) -> Result<Vec<u32>, AllocError> {
    let mut numbers = Vec::new(alloc);
    if let Some(number) = number {
        numbers.push(number)?;
    }
    Ok(numbers)
}

/// The status and the sink of a run with these words on this input. The words are bad if and only if they call no command. The sink took
/// the text that answers the input; at a status without an answer it took nothing, and at a failed write a part of the text.
pub fn run_on(
    alloc: Global,
    words: &[&str],
    input: &[u8],
    ports: Ports,
) -> Result<(Status, MemSink), AllocError>
    ensures bad_words { IfOk result (λ ran. (ran.0 ≡ Status.BadWords) ↔ CallNothing (map (λ w. w.now) words.now)) }
    ensures silent { IfOk result (λ ran. IsSilent ran.0 → ran.1.taken ≡ []) }
    ensures answer { IfOk result (λ ran. IsAnswer ran.0 → Runs (map (λ w. w.now) words.now) input.now ran.0 ran.1.taken) }
    ensures cut_short { IfOk result (λ ran. ran.0 ≡ Status.WriteFault → RunsInPart (map (λ w. w.now) words.now) input.now ran.1.taken) }
{
    let words = words_of(alloc, words)?;
    let bytes = Vec::from_slice(alloc, input)?;
    let failing_reads = at_most_one(alloc, ports.failing_read)?;
    let mut source = MemSource::new(bytes, failing_reads, ports.most_read.max(1));
    let failing_writes = at_most_one(alloc, ports.failing_write)?;
    let most_written = ports.most_written.max(1);
    let Ok(mut sink) = MemSink::new(alloc, 1_048_576, failing_writes, most_written) else {
        return Err(AllocError);
    };
    let status = run(alloc, &words, &mut source, &mut sink);
    Ok((status, sink))
}

/// Whether the row's words on its input end with its status and its text. If so, the text answers the input if its status is an answer, and
/// is empty if nothing is written with its status; and the words call no command if it says that they are bad.
pub fn is_answered(alloc: Global, row: &Row, ports: Ports) -> Result<bool, AllocError>
    ensures bad_words { IfOk result (λ yes. IsTrue yes → (row.now.status ≡ Status.BadWords) ↔ CallNothing (map (λ w. w.now) row.now.words.now)) }
    ensures silent { IfOk result (λ yes. IsTrue yes → IsSilent row.now.status → row.now.text.now ≡ []) }
    ensures answer { IfOk result (λ yes. IsTrue yes → IsAnswer row.now.status → Runs (map (λ w. w.now) row.now.words.now) row.now.input.now row.now.status row.now.text.now) }
{
    let (status, sink) = run_on(alloc, row.words, row.input, ports)?;
    if status != row.status {
        return Ok(false);
    }
    Ok(sink.taken() == row.text)
}
