//! The claims that are proved.

ghost use Rattle.std.specs.Prelude.{◌≡◌, ◌&&◌, ◌∷◌, ◌++◌, [], IfOk, not};
ghost use Rattle.std.specs.List.{flat_map, list_any};
ghost use Rattle.diagram_study.specs.ClaimFindings.{is_proved};
ghost use Rattle.position_report.specs.Shown.{illegal_shown, is_given, last_shown, other_shown, pair_shown, proves_passing, right_shown, shown_as, shown_claims};

use crate::sayings::{has_last, is_asked};
use board_base::Castle;
use codex_verdict::{Right, claim_of};
use diagram_study::{Found, MoveFound, PairFound, RightFound, with_both};
use query_base::{Claim, Query};
use std::alloc::{AllocError, Global};

/// Two castlings of which at least one is lost.
#[derive(Clone, Copy, Debug)]
pub struct Pair {
    pub first: Castle,
    pub second: Castle,
}

/// A claim that is proved, and the position that it is about: the report's, or the same with two castlings demanded besides, of which the
/// proof shows that at least one is lost. Such a proof begins with that, the diagram and what is given.
#[derive(Clone, Copy, Debug)]
pub struct Shown {
    pub claim: Claim,
    pub query: Query,
    pub pair: Option<Pair>,
}

/// That no game leads to the position.
pub(crate) fn illegal_shown(query: &Query) -> Shown
    ensures { result ≡ illegal_shown query.now }
{
    Shown {
        claim: Claim::Illegal,
        query: *query,
        pair: None,
    }
}

/// Adds a claim about the position.
fn add(
    claim: Claim,
    query: &Query,
    pair: Option<Pair>,
    all: &mut Vec<Shown>,
) -> Result<(), AllocError>
    ensures { IfOk result (λ _. all.new.items ≡ all.old.items ++ shown_as claim query.now pair ∷ []) }
{
    all.push(Shown {
        claim,
        query: *query,
        pair,
    })?;
    Ok(())
}

/// Whether the right is that of a capture en passant, and a last move is given, from which it follows.
fn is_given(query: &Query, right: &Right) -> bool
    ensures { result ≡ is_given query.now right.now }
{
    has_last(query) && is_asked(false, right)
}

/// Whether the claim of a right is proved, and doesn't follow from what is given.
fn is_shown(query: &Query, found: &RightFound) -> bool
    ensures { result ≡ is_proved found.now.finding && not (is_given query.now found.now.right) }
{
    found.finding.is_proved() && !is_given(query, &found.right)
}

/// Adds the claim of a right, if it is proved, and doesn't follow from what is given.
fn add_right(query: &Query, found: &RightFound, all: &mut Vec<Shown>) -> Result<(), AllocError>
    ensures { IfOk result (λ _. all.new.items ≡ all.old.items ++ right_shown query.now found.now) }
{
    if !is_shown(query, found) {
        return Ok(());
    }
    add(claim_of(&found.right), query, None, all)
}

/// Adds those of all rights.
fn add_rights(query: &Query, rights: &[RightFound], all: &mut Vec<Shown>) -> Result<(), AllocError>
    ensures { IfOk result (λ _. all.new.items ≡ all.old.items ++ flat_map (right_shown query.now) rights.now) }
{
    for found in rights {
        add_right(query, found, all)?;
    }
    Ok(())
}

/// Adds that two castlings can't both be kept, if it is proved.
fn add_pair(query: &Query, pair: &PairFound, all: &mut Vec<Shown>) -> Result<(), AllocError>
    ensures { IfOk result (λ _. all.new.items ≡ all.old.items ++ pair_shown query.now pair.now) }
{
    if !pair.finding.is_proved() {
        return Ok(());
    }
    let both = with_both(query, pair.first, pair.second);
    let castlings = Pair {
        first: pair.first,
        second: pair.second,
    };
    add(Claim::Illegal, &both, Some(castlings), all)
}

/// Adds the same of each two.
fn add_pairs(query: &Query, pairs: &[PairFound], all: &mut Vec<Shown>) -> Result<(), AllocError>
    ensures { IfOk result (λ _. all.new.items ≡ all.old.items ++ flat_map (pair_shown query.now) pairs.now) }
{
    for pair in pairs {
        add_pair(query, pair, all)?;
    }
    Ok(())
}

/// Adds the last move, if it is proved.
fn add_last(query: &Query, last: &Option<MoveFound>, all: &mut Vec<Shown>) -> Result<(), AllocError>
    ensures { IfOk result (λ _. all.new.items ≡ all.old.items ++ last_shown query.now last.now) }
{
    let Some(found) = last else {
        return Ok(());
    };
    if !found.finding.is_proved() {
        return Ok(());
    }
    add(Claim::Last(found.mv), query, None, all)
}

/// Whether it is proved that a capture en passant is legal.
fn proves_passing(found: &RightFound) -> bool
    ensures { result ≡ proves_passing found.now }
{
    found.finding.is_proved() && is_asked(false, &found.right)
}

/// Whether that is proved of one of these.
fn prove_passing(rights: &[RightFound]) -> bool
    ensures { result ≡ list_any proves_passing rights.now }
{
    match rights {
        [] => false,
        [found, others @ ..] => proves_passing(found) || prove_passing(others),
    }
}

/// Adds the last move, unless it is given, or a capture en passant is proved to be legal, since then the proof would be the same.
fn add_other(query: &Query, found: &Found, all: &mut Vec<Shown>) -> Result<(), AllocError>
    ensures { IfOk result (λ _. all.new.items ≡ all.old.items ++ other_shown query.now found.now) }
{
    if has_last(query) || prove_passing(found.rights.as_slice()) {
        Ok(())
    } else {
        add_last(query, &found.last, all)
    }
}

/// The claims about a position that are proved, each of which one certificate may prove.
pub(crate) fn shown_claims(
    alloc: Global,
    query: &Query,
    found: &Found,
) -> Result<Vec<Shown>, AllocError>
    ensures { IfOk result (λ all. all.items ≡ shown_claims query.now found.now) }
{
    let mut all = Vec::new(alloc);
    add_rights(query, found.rights.as_slice(), &mut all)?;
    add_pairs(query, found.pairs.as_slice(), &mut all)?;
    add_other(query, found, &mut all)?;
    Ok(all)
}
