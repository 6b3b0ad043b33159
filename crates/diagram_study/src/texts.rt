//! The lines of a study that tell of retractions and of lengths.

ghost use Rattle.std.specs.Prelude.{◌≡◌, ◌≤◌, ◌++◌, IfSome, IsTrue, OnOk};
ghost use Rattle.std.specs.List.{All};
ghost use Rattle.board_base.specs.Texts.{can_promote};
ghost use Rattle.line_claims.specs.Lines.{HasLine, has_text};
ghost use Rattle.diagram_study.specs.Findings.{HaveTexts};
ghost use Rattle.diagram_study.specs.Texts.{ends_text, few_words, last_text, left_line, length_line, length_text, move_line, moves_line, possible_line, steps_text};

use crate::forced::StepsFound;
use crate::retractions::MoveFound;
use board_base::UnmoveList;
use claim_findings::{push_found, push_number, push_steps, push_unmoves};
use query_base::Claim;
use std::alloc::AllocError;

/// The most unmoves that are written out.
const MOST_WRITTEN: usize = 24;

/// Adds the line of the last move, if it is proved.
fn push_move(text: &mut Vec<u8>, found: &MoveFound) -> Result<(), AllocError>
    requires { IsTrue (can_promote found.now.mv.promo) }
    ensures { OnOk result (text.new.items ≡ text.old.items ++ move_line found.now) }
{
    if found.finding.is_proved() {
        push_found(text, found.finding, &Claim::Last(found.mv))
    } else {
        Ok(())
    }
}

/// Adds that line, if something was found of a last move.
pub(crate) fn push_last(text: &mut Vec<u8>, last: &Option<MoveFound>) -> Result<(), AllocError>
    requires { IfSome last.now (λ f. IsTrue (can_promote f.mv.promo)) }
    ensures { OnOk result (text.new.items ≡ text.old.items ++ last_text last.now) }
{
    match last {
        Some(found) => push_move(text, found),
        None => Ok(()),
    }
}

/// Adds the line of the last moves, if they are proved.
fn push_moves(text: &mut Vec<u8>, found: &StepsFound) -> Result<(), AllocError>
    requires { HasLine found.now.claim }
    ensures { OnOk result (text.new.items ≡ text.old.items ++ moves_line found.now) }
{
    if found.finding.is_proved() {
        push_steps(text, found.finding, &found.claim)
    } else {
        Ok(())
    }
}

/// Adds that line, if something was found of several last moves.
pub(crate) fn push_forced(text: &mut Vec<u8>, steps: &Option<StepsFound>) -> Result<(), AllocError>
    requires { IfSome steps.now (λ f. HasLine f.claim) }
    ensures { OnOk result (text.new.items ≡ text.old.items ++ steps_text steps.now) }
{
    match steps {
        Some(found) => push_moves(text, found),
        None => Ok(()),
    }
}

/// Adds the unmoves if they are few.
fn push_few(text: &mut Vec<u8>, left: &UnmoveList) -> Result<(), AllocError>
    requires { All (λ u. IsTrue (has_text u)) left.now }
    ensures { OnOk result (text.new.items ≡ text.old.items ++ few_words left.now) }
{
    if left.len() <= MOST_WRITTEN {
        push_unmoves(text, left)
    } else {
        Ok(())
    }
}

/// Adds the line that tells how many of so many unmoves are left, and which.
pub(crate) fn push_left(text: &mut Vec<u8>, left: &UnmoveList, all: u32) -> Result<(), AllocError>
    requires { HaveTexts left.now }
    ensures { OnOk result (text.new.items ≡ text.old.items ++ left_line left.now all) }
{
    text.extend_from_slice(b"left ")?;
    push_number(text, left.len() as u32)?;
    text.extend_from_slice(b" of ")?;
    push_number(text, all)?;
    push_few(text, left)?;
    text.extend_from_slice(b"\n")
}

/// Adds the line that tells with which of so many unmoves some game ends.
fn push_possible(text: &mut Vec<u8>, ends: &UnmoveList, left: usize) -> Result<(), AllocError>
    requires texts { HaveTexts ends.now }
    requires few { left ≤ 143360 }
    ensures { OnOk result (text.new.items ≡ text.old.items ++ possible_line ends.now left) }
{
    text.extend_from_slice(b"possible ")?;
    push_number(text, ends.len() as u32)?;
    text.extend_from_slice(b" of ")?;
    push_number(text, left as u32)?;
    push_unmoves(text, ends)?;
    text.extend_from_slice(b"\n")
}

/// Adds that line, if ends were looked for.
pub(crate) fn push_ends(
    text: &mut Vec<u8>,
    ends: &Option<UnmoveList>,
    left: usize,
) -> Result<(), AllocError>
    requires texts { IfSome ends.now HaveTexts }
    requires few { left ≤ 143360 }
    ensures { OnOk result (text.new.items ≡ text.old.items ++ ends_text ends.now left) }
{
    match ends {
        Some(ends) => push_possible(text, ends, left),
        None => Ok(()),
    }
}

/// Adds the line that tells how many half-moves there are at least.
fn push_number_of_moves(text: &mut Vec<u8>, number: u16) -> Result<(), AllocError>
    ensures { OnOk result (text.new.items ≡ text.old.items ++ length_line number) }
{
    text.extend_from_slice(b"atleast ")?;
    push_number(text, u32::from(number))?;
    text.extend_from_slice(b"\n")
}

/// Adds that line, if it is known.
pub(crate) fn push_length(text: &mut Vec<u8>, length: Option<u16>) -> Result<(), AllocError>
    ensures { OnOk result (text.new.items ≡ text.old.items ++ length_text length) }
{
    match length {
        Some(number) => push_number_of_moves(text, number),
        None => Ok(()),
    }
}
