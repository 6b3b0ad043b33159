ghost use Rattle.std.specs.Prelude.{◌≡◌, ◌≤◌, ◌++◌, IfOk, MatchOption, length};
ghost use Rattle.std.specs.List.{All};
ghost use Rattle.codex_verdict.specs.Rights.{claim_of};
ghost use Rattle.codex_verdict.specs.Verdicts.{Promotes, verdict_text};
ghost use Rattle.command_answers.specs.Limits.{most_bytes};
ghost use Rattle.position_report.specs.Lone.{IsDear};
ghost use Rattle.command_answers.specs.Verdicts.{AnswersPosition, AnswersVerdict, Each, IsSettled, verdicts_text};
ghost use Rattle.command_answers.specs.Told.{HasDearRight};

use crate::questions::write_fault;
use crate::solves::write_spent;
use crate::statuses::Status;
use arrayvec::ArrayVec;
use codex_verdict::{Right, claim_of, rights, verdict_line};
use position_report::{Found, Limits, solve};
use question_text::{Position, read_lone_question};
use std::alloc::{AllocError, Global};

/// Whether the right's claim is settled; None if the search was spent.
fn decide(
    alloc: Global,
    position: &Position,
    right: &Right,
    limits: Limits,
) -> Result<Option<bool>, AllocError>
    ensures { IfOk result (λ o. MatchOption o (IsDear limits.depth limits.nodes (claim_of right.now) position.now.query) (IsSettled position.now.query limits.depth limits.nodes right.now)) }
{
    let found = match solve(
        alloc,
        &position.query,
        &claim_of(right),
        limits.depth,
        limits.nodes,
    ) {
        Ok(found) => found,
        Err(_) => return Err(AllocError),
    };
    match found {
        Found::Proved(_) => Ok(Some(true)),
        Found::Undecided(_) | Found::Countered(_) => Ok(Some(false)),
        Found::Spent { .. } => Ok(None),
    }
}

/// Which of the rights are settled, each by a search of its own; None if one of these was spent.
fn decide_all(
    alloc: Global,
    position: &Position,
    rights: &[Right],
    limits: Limits,
) -> Result<Option<ArrayVec<bool, 18>>, AllocError>
    requires { length rights.now ≤ 18 }
    ensures { IfOk result (λ o. MatchOption o (HasDearRight limits.depth limits.nodes position.now.query rights.now) (λ settled. Each (IsSettled position.now.query limits.depth limits.nodes) rights.now settled.items)) }
{
    let mut all: ArrayVec<bool, 18> = ArrayVec::new();
    for right in rights {
        match decide(alloc, position, right, limits)? {
            Some(settled) => all.push(settled),
            None => return Ok(None),
        }
    }
    Ok(Some(all))
}

/// Adds the line of a right.
fn push_right(text: &mut Vec<u8>, right: &Right, settled: bool, depth: u8) -> Result<(), AllocError>
    requires plain { Promotes right.now → ⊥ }
    requires shallow { depth ≤ 64 }
    ensures { IfOk result (λ _. text.new.items ≡ text.old.items ++ verdict_text right.now settled depth) }
{
    let mut line: ArrayVec<u8, 64> = ArrayVec::new();
    verdict_line(right, settled, depth, &mut line);
    text.extend_from_slice(line.as_slice())
}

/// The line of each right, or that there are none.
fn write_verdicts(
    alloc: Global,
    rights: &[Right],
    settled: &[bool],
    depth: u8,
) -> Result<Vec<u8>, AllocError>
    requires as_many { length settled.now ≡ length rights.now }
    requires plain { All (λ right. Promotes right → ⊥) rights.now }
    requires shallow { depth ≤ 64 }
    ensures { IfOk result (λ v. v.items ≡ verdicts_text depth rights.now settled.now) }
{
    if rights.is_empty() {
        return Vec::from_slice(alloc, b"no rights\n");
    }
    let mut text = Vec::new(alloc);
    for i in 0..rights.len() {
        push_right(&mut text, &rights[i], settled[i], depth)?;
    }
    Ok(text)
}

/// What is said of the rights that the position seems to give.
fn answer_position(
    alloc: Global,
    position: &Position,
    limits: Limits,
) -> Result<(Status, Vec<u8>), AllocError>
    ensures { IfOk result (λ a. AnswersPosition limits.depth limits.nodes position.now.query a.0 a.1.items) }
{
    let rights = rights(&position.query);
    match decide_all(alloc, position, rights.as_slice(), limits)? {
        Some(settled) => Ok((
            Status::Done,
            write_verdicts(alloc, rights.as_slice(), settled.as_slice(), limits.depth)?,
        )),
        None => Ok((Status::Spent, write_spent(alloc, limits.nodes)?)),
    }
}

/// The status and the text with which `verdict` answers these bytes, by a search within these limits for each right.
pub fn answer_verdict(
    alloc: Global,
    limits: Limits,
    input: &[u8],
) -> Result<(Status, Vec<u8>), AllocError>
    requires { length input.now ≤ most_bytes }
    ensures { IfOk result (λ a. AnswersVerdict limits.depth limits.nodes input.now a.0 a.1.items) }
{
    match read_lone_question(input) {
        Ok(position) => answer_position(alloc, &position, limits),
        Err(why) => Ok((Status::BadInput, write_fault(alloc, why)?)),
    }
}
