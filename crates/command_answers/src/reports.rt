ghost use Rattle.std.specs.Prelude.{◌≤◌, IfOk, length};
ghost use Rattle.command_answers.specs.Limits.{most_bytes};
ghost use Rattle.command_answers.specs.Reports.{AnswersReport, AnswersReportOf};

use crate::questions::write_fault;
use crate::statuses::Status;
use position_report::{Limits, report};
use question_text::{Position, read_lone_question};
use std::alloc::{AllocError, Global};

/// What is said of the query: its report.
fn answer_query(
    alloc: Global,
    position: &Position,
    limits: Limits,
) -> Result<(Status, Vec<u8>), AllocError>
    ensures { IfOk result (λ a. AnswersReportOf limits.depth limits.nodes position.now.query a.0 a.1.items) }
{
    let text = report(alloc, &position.query, limits)?;
    Ok((Status::Done, text))
}

/// The status and the text with which `report` answers these bytes, by searches within these limits.
pub fn answer_report(
    alloc: Global,
    limits: Limits,
    input: &[u8],
) -> Result<(Status, Vec<u8>), AllocError>
    requires { length input.now ≤ most_bytes }
    ensures { IfOk result (λ a. AnswersReport limits.depth limits.nodes input.now a.0 a.1.items) }
{
    match read_lone_question(input) {
        Ok(position) => answer_query(alloc, &position, limits),
        Err(why) => Ok((Status::BadInput, write_fault(alloc, why)?)),
    }
}
