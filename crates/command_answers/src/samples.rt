ghost use Rattle.std.specs.Prelude.{◌≡◌, IfOk};
ghost use Rattle.command_answers.specs.Limits.{AreSampleNumbers};
ghost use Rattle.command_answers.specs.Samples.{AnswersSample, summary_line};

use crate::statuses::Status;
use position_maker::{Summary, sample};
use std::alloc::{AllocError, Global};

fn write_summary(alloc: Global, summary: Summary) -> Result<Vec<u8>, AllocError>
    ensures { IfOk result (λ v. v.items ≡ summary_line summary.games summary.plies summary.unmoves summary.missing) }
{
    let Summary {
        games,
        plies,
        unmoves,
        missing,
    } = summary;
    Ok(format!(in alloc;
        "games {games} plies {plies} unmoves {unmoves} missing {missing}\n"
    )?.into_bytes())
}

/// The status and the line with which `sample` answers: it makes so many games from the start, from 1 to 1,000, each of at most `plies`
/// moves, from 1 to 200.
pub fn answer_sample(
    alloc: Global,
    start: u64,
    games: u32,
    plies: u32,
) -> Result<(Status, Vec<u8>), AllocError>
    requires { AreSampleNumbers start games plies }
    ensures { IfOk result (λ a. AnswersSample start games plies a.0 a.1.items) }
{
    let summary = match sample(alloc, start, games, plies) {
        Ok(summary) => summary,
        Err(_) => return Err(AllocError),
    };
    Ok((Status::Done, write_summary(alloc, summary)?))
}
