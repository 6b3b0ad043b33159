//! What is known of the last moves.

ghost use Rattle.std.specs.Prelude.{List, ℕ, ◌≡◌, ◌↔◌, ◌++◌, IfOk, IsTrue, None, Some, length};
ghost use Rattle.board_base.specs.declared.unmoves.Unmove.{Unmove as AnUnmove};
ghost use Rattle.unmove_gen.specs.Listed.{unmoves};
ghost use Rattle.verdict_prose.specs.LastMoves.{EndsWithOneOf, WereLast};
ghost use Rattle.position_report.specs.LastMoves.{CanBeNamed, HasLone, IsLone, TellsLast, possible_text, proved_steps, steps_in};
ghost use Rattle.position_report.specs.Told.{HaveEnds, IsLineTold};

use crate::sayings::has_last;
use board_base::{Unmove, UnmoveList};
use diagram_study::{Found, StepsFound};
use line_claims::LineClaim;
use query_base::{Query, is_array};
use std::alloc::{AllocError, Global};
use verdict_prose::{tell_ends, tell_last, tell_left, tell_line};

/// The most retractions left that are named.
const MOST_NAMED: usize = 24;

/// Adds the last moves of the claim, if it is one about them. Whether it is.
fn tell_claim(
    alloc: Global,
    query: &Query,
    claim: &LineClaim,
    out: &mut Vec<u8>,
) -> Result<bool, AllocError>
    ensures { IfOk result (λ told. IsLineTold query.now (steps_in claim.now) told out.old.items out.new.items) }
{
    match claim {
        LineClaim::NotBoth(_, _) => Ok(false),
        LineClaim::Line(steps) => {
            tell_line(alloc, query, steps.items(), out)?;
            Ok(true)
        }
    }
}

/// Adds the last moves, if several are proved. Whether they are.
fn tell_steps(
    alloc: Global,
    query: &Query,
    found: &Option<StepsFound>,
    out: &mut Vec<u8>,
) -> Result<bool, AllocError>
    ensures { IfOk result (λ told. IsLineTold query.now (proved_steps found.now) told out.old.items out.new.items) }
{
    let Some(found) = found else {
        return Ok(false);
    };
    if found.finding.is_proved() {
        tell_claim(alloc, query, &found.claim, out)
    } else {
        Ok(false)
    }
}

/// Some retractions are left, at most 24, and the game of no moves doesn't reach the query.
fn can_be_named(query: &Query, left: &UnmoveList) -> bool
    ensures { IsTrue result ↔ CanBeNamed query.now left.now }
{
    left.len() > 0 && left.len() <= MOST_NAMED && !is_array(query)
}

/// One retraction alone is left, it can be named, and no last move is given.
fn is_lone(query: &Query, left: &UnmoveList) -> bool
    ensures { IsTrue result ↔ IsLone query.now left.now }
{
    left.len() == 1 && can_be_named(query, left) && !has_last(query)
}

/// The retraction that alone is left, if it can be named, and no last move is given.
pub(crate) fn lone_step(query: &Query, left: &UnmoveList) -> Option<Unmove>
    ensures { HasLone query.now left.now result }
{
    if is_lone(query, left) {
        left.get(0)
    } else {
        None
    }
}

/// Adds with which of so many retractions games end, if it is known.
fn push_possible(
    alloc: Global,
    query: &Query,
    ends: &Option<UnmoveList>,
    left: usize,
    out: &mut Vec<u8>,
) -> Result<(), AllocError>
    ensures { IfOk result (λ _. out.new.items ≡ out.old.items ++ possible_text query.now ends.now left) }
{
    match ends {
        None => Ok(()),
        Some(ends) => tell_ends(alloc, query, ends, left, out),
    }
}

/// Adds which the last move can have been, or how many retractions are left.
fn push_left(
    alloc: Global,
    query: &Query,
    found: &Found,
    out: &mut Vec<u8>,
) -> Result<(), AllocError>
    requires none { proved_steps found.now.steps ≡ None }
    requires among { EndsWithOneOf query.now found.now.left }
    requires all { found.now.all ≡ length (unmoves query.now) }
    requires ends { HaveEnds query.now found.now.left found.now.ends }
    ensures { IfOk result (λ _. (own : List ℕ) × TellsLast query.now found.now own × (out.new.items ≡ out.old.items ++ own)) }
{
    if can_be_named(query, &found.left) {
        tell_last(alloc, query, &found.left, out)?;
        push_possible(alloc, query, &found.ends, found.left.len(), out)
    } else {
        tell_left(alloc, found.left.len(), found.all as usize, out)
    }
}

/// Adds what is known of the last moves: several of them, if they are proved; otherwise which the last one can have been, or how many
/// retractions are left.
pub(crate) fn push_last(
    alloc: Global,
    query: &Query,
    found: &Found,
    out: &mut Vec<u8>,
) -> Result<(), AllocError>
    requires line { (steps : List AnUnmove) → proved_steps found.now.steps ≡ Some steps → WereLast query.now steps }
    requires among { EndsWithOneOf query.now found.now.left }
    requires all { found.now.all ≡ length (unmoves query.now) }
    requires ends { HaveEnds query.now found.now.left found.now.ends }
    ensures { IfOk result (λ _. (own : List ℕ) × TellsLast query.now found.now own × (out.new.items ≡ out.old.items ++ own)) }
{
    let told = tell_steps(alloc, query, &found.steps, out)?;
    if told {
        return Ok(());
    }
    push_left(alloc, query, found, out)
}
