//! Searches for proofs that get lost in quiet moves, one behind the other.

ghost use Rattle.std.specs.Prelude.{◌≡◌, ◌++◌, IfOk};
ghost use Rattle.position_report.specs.Open.{longer, run_before, run_behind, run_text};

use prose_words::say;
use std::alloc::AllocError;

/// How many claims stand behind one another whose searches get lost in quiet moves.
#[derive(Clone, Copy, Debug)]
pub enum Run {
    Empty,
    One,
    Several,
}

/// The run with one claim more.
fn longer(run: Run) -> Run
    ensures { result ≡ longer run }
{
    match run {
        Run::Empty => Run::One,
        Run::One => Run::Several,
        Run::Several => Run::Several,
    }
}

/// The run behind a claim, by whether its search gets lost.
pub(crate) fn run_behind(lost: bool, run: Run) -> Run
    ensures { result ≡ run_behind lost run }
{
    if lost { longer(run) } else { Run::Empty }
}

/// Adds that the searches of a run get lost.
pub(crate) fn push_run(run: Run, out: &mut Vec<u8>) -> Result<(), AllocError>
    ensures { IfOk result (λ _. out.new.items ≡ out.old.items ++ run_text run) }
{
    match run {
        Run::Empty => Ok(()),
        Run::One => say(b"The search for a proof gets lost in quiet moves.\n", out),
        Run::Several => say(
            b"The searches for these proofs get lost in quiet moves.\n",
            out,
        ),
    }
}

/// Adds the same before a claim that isn't of the run.
pub(crate) fn push_run_before(lost: bool, run: Run, out: &mut Vec<u8>) -> Result<(), AllocError>
    ensures { IfOk result (λ _. out.new.items ≡ out.old.items ++ run_before lost run) }
{
    if lost { Ok(()) } else { push_run(run, out) }
}
