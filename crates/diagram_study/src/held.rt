ghost use Rattle.std.specs.Prelude.{◌≡◌, ◌++◌, IfOk, OnOk, Some};
ghost use Rattle.diagram_study.specs.Held.{AreHeldFound, castling_of, is_open, unsettled_castling};
ghost use Rattle.diagram_study.specs.HeldSteps.{AddsHeld};
ghost use Rattle.diagram_study.specs.Texts.{held_text, if_line, if_lines};

use crate::rights::RightFound;
use board_base::Castle;
use claim_findings::Finding;
use codex_verdict::Right;
use fen_text::castle_letter;
use ledger_told::{Line, lines_if_held, push_line};
use query_base::Query;
use std::alloc::{AllocError, Global};

/// A castling, and the lines of the ledger that are told only if its right is held.
#[derive(Drop)]
pub struct HeldFound {
    pub castle: Castle,
    pub lines: Vec<Line>,
}

/// Neither a proof nor a game was found.
pub fn is_open(finding: Finding) -> bool
    ensures { result ≡ is_open finding }
{
    match finding {
        Finding::Proved(_) => false,
        Finding::Countered => false,
        Finding::Open => true,
        Finding::Spent => true,
    }
}

/// The castling of a right, if it is one.
fn castling_of(right: &Right) -> Option<Castle>
    ensures { result ≡ castling_of right.now }
{
    match right {
        Right::Castling(castle) => Some(*castle),
        Right::EnPassant(_) => None,
    }
}

/// The castling of a right that is neither proved to be lost nor shown to be kept by a game.
fn unsettled_castling(found: &RightFound) -> Option<Castle>
    ensures { result ≡ unsettled_castling found.now }
{
    if is_open(found.finding) {
        castling_of(&found.right)
    } else {
        None
    }
}

/// Adds what the ledger says only if the castling is held.
fn add_castling(
    alloc: Global,
    query: &Query,
    known: &[Line],
    castle: Castle,
    held: &mut Vec<HeldFound>,
) -> Result<(), AllocError>
    ensures { OnOk result (AddsHeld query.now known.now (Some castle) held.old.items held.new.items) }
{
    let lines = lines_if_held(alloc, query, known, castle)?;
    held.push(HeldFound { castle, lines })?;
    Ok(())
}

/// Adds the same of a castling, if there is one.
fn add_held(
    alloc: Global,
    query: &Query,
    known: &[Line],
    castle: Option<Castle>,
    held: &mut Vec<HeldFound>,
) -> Result<(), AllocError>
    ensures { OnOk result (AddsHeld query.now known.now castle held.old.items held.new.items) }
{
    match castle {
        None => Ok(()),
        Some(castle) => add_castling(alloc, query, known, castle, held),
    }
}

/// What the ledger says only if its right is held, of each castling that isn't settled.
pub(crate) fn find_held(
    alloc: Global,
    query: &Query,
    known: &[Line],
    rights: &[RightFound],
) -> Result<Vec<HeldFound>, AllocError>
    ensures { IfOk result (λ held. AreHeldFound query.now known.now rights.now held.items) }
{
    let mut held = Vec::new(alloc);
    for found in rights {
        add_held(alloc, query, known, unsettled_castling(found), &mut held)?;
    }
    Ok(held)
}

/// Adds a line of the ledger that is so if the castling is held.
fn push_if(text: &mut Vec<u8>, castle: Castle, line: &Line) -> Result<(), AllocError>
    ensures { OnOk result (text.new.items ≡ text.old.items ++ if_line castle line.now) }
{
    text.extend_from_slice(b"if ")?;
    text.push(castle_letter(castle))?;
    text.extend_from_slice(b" ")?;
    push_line(line, text)
}

/// Adds each of these lines.
fn push_each_if(text: &mut Vec<u8>, castle: Castle, lines: &[Line]) -> Result<(), AllocError>
    ensures { OnOk result (text.new.items ≡ text.old.items ++ if_lines castle lines.now) }
{
    for line in lines {
        push_if(text, castle, line)?;
    }
    Ok(())
}

/// Adds what was found of each of these castlings.
pub(crate) fn tell_held(text: &mut Vec<u8>, held: &[HeldFound]) -> Result<(), AllocError>
    ensures { OnOk result (text.new.items ≡ text.old.items ++ held_text held.now) }
{
    for h in held {
        push_each_if(text, h.castle, h.lines.as_slice())?;
    }
    Ok(())
}
