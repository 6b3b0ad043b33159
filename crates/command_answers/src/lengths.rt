ghost use Rattle.std.specs.Prelude.{◌≡◌, ◌≤◌, IfOk, None, length};
ghost use Rattle.command_answers.specs.Limits.{most_bytes};
ghost use Rattle.command_answers.specs.Lengths.{AnswersLength, AnswersLengthOf};

use crate::questions::write_fault;
use crate::statuses::Status;
use arrayvec::ArrayVec;
use length_bound::{longest, write_length};
use question_text::{Position, read_lone_position};
use std::alloc::{AllocError, Global};

/// What is said of the query: the text of the length of its games, or that both sides have too many men for one.
fn answer_query(alloc: Global, position: &Position) -> Result<(Status, Vec<u8>), AllocError>
    requires { position.now.query.clock ≡ None }
    ensures { IfOk result (λ a. AnswersLengthOf position.now.query a.0 a.1.items) }
{
    let Some(said) = longest(&position.query) else {
        return Ok((Status::Undecided, Vec::from_slice(alloc, b"undecided\n")?));
    };
    let mut text: ArrayVec<u8, 512> = ArrayVec::new();
    write_length(
        &position.query,
        said.side,
        &said.potentials,
        said.at_least,
        &mut text,
    );
    Ok((Status::Done, Vec::from_slice(alloc, text.as_slice())?))
}

/// The status and the text with which `length` answers these bytes.
pub fn answer_length(alloc: Global, input: &[u8]) -> Result<(Status, Vec<u8>), AllocError>
    requires { length input.now ≤ most_bytes }
    ensures { IfOk result (λ a. AnswersLength input.now a.0 a.1.items) }
{
    match read_lone_position(input) {
        Ok(position) => answer_query(alloc, &position),
        Err(why) => Ok((Status::BadInput, write_fault(alloc, why)?)),
    }
}
