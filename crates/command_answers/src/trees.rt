ghost use Rattle.std.specs.Prelude.{◌≤◌, IfOk, length};
ghost use Rattle.command_answers.specs.Limits.{most_bytes};
ghost use Rattle.command_answers.specs.Trees.{AnswersTree, AnswersTreeOf};

use crate::questions::write_fault;
use crate::solves::write_spent;
use crate::statuses::Status;
use position_report::Limits;
use question_text::{Position, read_lone_question};
use std::alloc::{AllocError, Global};
use tree_browser::{TreeFault, tree_text};

/// What is said of the query: its tree, or that this has too many lines.
fn answer_query(
    alloc: Global,
    position: &Position,
    limits: Limits,
) -> Result<(Status, Vec<u8>), AllocError>
    ensures { IfOk result (λ a. AnswersTreeOf limits.depth limits.nodes position.now.query a.0 a.1.items) }
{
    match tree_text(alloc, &position.query, limits.depth, limits.nodes) {
        Ok(text) => Ok((Status::Done, text)),
        Err(TreeFault::Spent) => Ok((Status::Spent, write_spent(alloc, limits.nodes)?)),
        Err(TreeFault::Memory) => Err(AllocError),
    }
}

/// The status and the text with which `tree` answers these bytes: the tree goes back at most as many moves as the depth, and has at most as
/// many lines as the nodes.
pub fn answer_tree(
    alloc: Global,
    limits: Limits,
    input: &[u8],
) -> Result<(Status, Vec<u8>), AllocError>
    requires { length input.now ≤ most_bytes }
    ensures { IfOk result (λ a. AnswersTree limits.depth limits.nodes input.now a.0 a.1.items) }
{
    match read_lone_question(input) {
        Ok(position) => answer_query(alloc, &position, limits),
        Err(why) => Ok((Status::BadInput, write_fault(alloc, why)?)),
    }
}
