ghost use Rattle.std.specs.Prelude.{◌≤◌, IfOk, length};
ghost use Rattle.command_answers.specs.Limits.{most_bytes};
ghost use Rattle.command_answers.specs.Settles.{AnswersSettle};

use crate::questions::write_fault;
use crate::solves::write_found;
use crate::statements::read_statement;
use crate::statuses::Status;
use crate::texts::Text;
use position_report::{Limits, settle};
use std::alloc::{AllocError, Global};
use unmove_gen::unmoves_have_texts;

/// The status and the text with which `settle` answers these bytes, by a search for a certificate within these limits; for a game it looks
/// at no more queries.
pub fn answer_settle(
    alloc: Global,
    limits: Limits,
    input: &[u8],
) -> Result<(Status, Text), AllocError>
    requires { length input.now ≤ most_bytes }
    ensures { IfOk result (λ a. AnswersSettle limits.depth limits.nodes input.now a.0 a.1) }
{
    let statement = match read_statement(input) {
        Ok(statement) => statement,
        Err(why) => return Ok((Status::BadInput, Text::of_lines(write_fault(alloc, why)?))),
    };
    unmoves_have_texts();
    match settle(alloc, &statement.query, &statement.claim, limits) {
        Ok(found) => write_found(alloc, found),
        Err(_) => Err(AllocError),
    }
}
