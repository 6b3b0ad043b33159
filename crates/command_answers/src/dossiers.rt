ghost use Rattle.std.specs.Prelude.{◌≡◌, ◌≤◌, IfOk, codes, length};
ghost use Rattle.line_claims.specs.Lines.{HasLine};
ghost use Rattle.command_answers.specs.Limits.{most_bytes};
ghost use Rattle.command_answers.specs.Dossiers.{AnswersDossier, AnswersLineClaim};
ghost use Rattle.command_answers.specs.Lines.{step_line};
ghost use Rattle.command_answers.specs.Plays.{number_line};

use crate::questions::write_fault;
use crate::solves::write_spent;
use crate::statements::{LineStatement, read_line_statement};
use crate::statuses::Status;
use crate::told::refused_step;
use dossier_search::{Dossier, solve_line};
use position_report::Limits;
use std::alloc::{AllocError, Global};

/// The line that tells which part isn't proved.
fn write_open_part(alloc: Global, part: u32) -> Result<Vec<u8>, AllocError>
    ensures { IfOk result (λ v. v.items ≡ number_line (codes "undecided part ") part) }
{
    Ok(format!(in alloc; "undecided part {part}\n")?.into_bytes())
}

/// The line that tells which step isn't listed.
fn write_unlisted(alloc: Global, step: u8) -> Result<Vec<u8>, AllocError>
    ensures { IfOk result (λ v. v.items ≡ step_line step) }
{
    Vec::from_slice(alloc, refused_step(step).as_slice())
}

/// What is said of the claim of several steps about the query.
fn answer_line_claim(
    alloc: Global,
    statement: &LineStatement,
    limits: Limits,
) -> Result<(Status, Vec<u8>), AllocError>
    requires { HasLine statement.now.claim }
    ensures { IfOk result (λ a. AnswersLineClaim limits.depth limits.nodes statement.now.claim statement.now.query a.0 a.1.items) }
{
    let found = match solve_line(
        alloc,
        &statement.query,
        &statement.claim,
        limits.depth,
        limits.nodes,
    ) {
        Ok(found) => found,
        Err(_) => return Err(AllocError),
    };
    match found {
        Dossier::Written(text) => Ok((Status::Done, text)),
        Dossier::Unlisted { step } => Ok((Status::Refused, write_unlisted(alloc, step)?)),
        Dossier::Undecided { part } => Ok((Status::Undecided, write_open_part(alloc, part)?)),
        Dossier::Spent { .. } => Ok((Status::Spent, write_spent(alloc, limits.nodes)?)),
    }
}

/// The status and the text with which `dossier` answers these bytes: each part is searched as by `solve` within these limits. A part that
/// this leaves open is searched as by `settle` too, and one that is too dear with nothing taken back.
pub fn answer_dossier(
    alloc: Global,
    limits: Limits,
    input: &[u8],
) -> Result<(Status, Vec<u8>), AllocError>
    requires { length input.now ≤ most_bytes }
    ensures { IfOk result (λ a. AnswersDossier limits.depth limits.nodes input.now a.0 a.1.items) }
{
    match read_line_statement(input) {
        Ok(statement) => answer_line_claim(alloc, &statement, limits),
        Err(why) => Ok((Status::BadInput, write_fault(alloc, why)?)),
    }
}
