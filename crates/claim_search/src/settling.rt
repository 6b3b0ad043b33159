ghost use Rattle.std.specs.Prelude.{◌≡◌, ◌≤◌, ◌⊎◌, IfOk, IfSome, IsTrue, MatchOption, None, length};
ghost use Rattle.query_base.specs.Targets.{target};
ghost use Rattle.query_base.specs.Reach.{Contradicts};
ghost use Rattle.claim_search.specs.Settlements.{IsCounterable, IsCountered, IsSettlement};
ghost use Rattle.retro_search.specs.Answers.{IsProved};
ghost use Rattle.retro_search.specs.Plain.{HasPlainSketch};

use board_base::{Memory, MoveList};
use game_search::{FEW_QUERIES, MOST_QUERIES, find_game};
use query_base::{Claim, Query, target};
use retro_search::{Found, LARGE, Limits, Reasons, SMALL, Searcher, SketchLimits, solve};
use std::alloc::Global;

/// How many queries the first search for a certificate visits at most.
const FIRST_NODES: u32 = 2_000;

/// How many small searches for a sketch may find nothing, if there are nodes for them.
const SMALL_FAILURES: u32 = 100;

/// How many nodes each of these is worth.
const NODES_A_FAILURE: u32 = 20;

/// How many large ones may.
const LARGE_FAILURES: u32 = 10;

/// The same, with no more nodes than the first search has.
fn with_few_nodes(limits: Limits) -> Limits
    ensures depth { result.depth ≡ limits.depth }
    ensures nodes { result.nodes ≤ limits.nodes }
    ensures some { 1 ≤ result.nodes }
{
    Limits {
        depth: limits.depth,
        nodes: limits.nodes.min(FIRST_NODES),
    }
}

/// How many small searches for a sketch may find nothing within these limits.
fn small_failures(limits: Limits) -> u32
    ensures { 1 ≤ result }
{
    (limits.nodes / NODES_A_FAILURE + 1).min(SMALL_FAILURES)
}

/// What a search for a certificate by all reasons comes to.
fn search(
    searcher: &mut Searcher,
    query: &Query,
    claim: &Claim,
    limits: Limits,
) -> Result<Found, Memory>
    requires unbarred { query.now.barred ≡ None }
    requires all { searcher.old ≡ Reasons.All }
    ensures settlement { IfOk result (IsSettlement limits.depth limits.nodes claim.now query.now) }
    ensures reasons { searcher.new ≡ searcher.old }
{
    searcher.settle(query, claim, limits)
}

/// What the same comes to with sketches.
fn search_with(
    searcher: &mut Searcher,
    query: &Query,
    claim: &Claim,
    limits: Limits,
    sketches: SketchLimits,
    failures: u32,
) -> Result<Found, Memory>
    requires unbarred { query.now.barred ≡ None }
    requires all { searcher.old ≡ Reasons.All }
    requires some_failures { 1 ≤ failures }
    ensures settlement { IfOk result (IsSettlement limits.depth limits.nodes claim.now query.now) }
    ensures sketched { IfOk result (λ found. HasPlainSketch (target query.now claim.now) → IsProved found) }
    ensures reasons { searcher.new ≡ searcher.old }
{
    searcher.settle_with_sketches(query, claim, limits, sketches, failures)
}

/// What a search with sketches that visits few queries comes to, if it is a certificate or a game.
fn seek(
    searcher: &mut Searcher,
    query: &Query,
    claim: &Claim,
    limits: Limits,
    sketches: SketchLimits,
    failures: u32,
) -> Result<Option<Found>, Memory>
    requires unbarred { query.now.barred ≡ None }
    requires all { searcher.old ≡ Reasons.All }
    requires some_failures { 1 ≤ failures }
    ensures settlement { IfOk result (λ r. IfSome r (IsSettlement limits.depth limits.nodes claim.now query.now)) }
    ensures counterable { IfOk result (λ r. IfSome r (λ found. IsCounterable limits.depth limits.nodes claim.now query.now → IsCountered found)) }
    ensures sketched { IfOk result (λ r. HasPlainSketch (target query.now claim.now) → MatchOption r ⊥ IsProved) }
    ensures reasons { searcher.new ≡ searcher.old }
{
    let few = with_few_nodes(limits);
    match search_with(searcher, query, claim, few, sketches, failures)? {
        Found::Proved(cert) => Ok(Some(Found::Proved(cert))),
        Found::Countered(game) => Ok(Some(Found::Countered(game))),
        Found::Undecided(_) | Found::Spent { .. } => Ok(None),
    }
}

/// A game that contradicts the claim, if one is found by looking at so many queries.
fn game_against(
    alloc: Global,
    query: &Query,
    claim: &Claim,
    most: u32,
) -> Result<Option<MoveList>, Memory>
    requires unbarred { query.now.barred ≡ None }
    ensures against { IfOk result (λ game. IfSome game (λ g. Contradicts g claim.now query.now)) }
    ensures short { IfOk result (λ game. IfSome game (λ g. length g ≤ most)) }
{
    let hunt = find_game(alloc, &target(query, claim), None, most)?;
    Ok(hunt.game)
}

/// A game, if one is found by looking at as many queries as the nodes leave behind the first search for one; else what the searches for a
/// certificate left open.
fn look_again(
    alloc: Global,
    query: &Query,
    claim: &Claim,
    limits: Limits,
    left_open: Found,
) -> Result<Found, Memory>
    requires unbarred { query.now.barred ≡ None }
    requires settlement { IsSettlement limits.depth limits.nodes claim.now query.now left_open }
    requires uncounterable { IsCounterable limits.depth limits.nodes claim.now query.now → ⊥ }
    ensures settlement { IfOk result (IsSettlement limits.depth limits.nodes claim.now query.now) }
    ensures counterable { IfOk result (λ found. IsCounterable limits.depth limits.nodes claim.now query.now → IsCountered found) }
{
    let most = limits.nodes.saturating_sub(FEW_QUERIES).min(MOST_QUERIES);
    match game_against(alloc, query, claim, most)? {
        Some(game) => Ok(Found::Countered(game)),
        None => Ok(left_open),
    }
}

/// The same, unless a search by rule lines alone comes to a game.
fn look_further(
    alloc: Global,
    query: &Query,
    claim: &Claim,
    limits: Limits,
    left_open: Found,
) -> Result<Found, Memory>
    requires unbarred { query.now.barred ≡ None }
    requires some_nodes { 1 ≤ limits.nodes }
    requires settlement { IsSettlement limits.depth limits.nodes claim.now query.now left_open }
    ensures settlement { IfOk result (IsSettlement limits.depth limits.nodes claim.now query.now) }
    ensures counterable { IfOk result (λ found. IsCounterable limits.depth limits.nodes claim.now query.now → IsCountered found) }
{
    let solved = solve(alloc, query, claim, limits.depth, limits.nodes)?;
    match solved {
        Found::Countered(game) => Ok(Found::Countered(game)),
        _ => look_again(alloc, query, claim, limits, left_open),
    }
}

/// What the long searches come to: one for a certificate by all reasons, and if this leaves the claim open, those behind it.
fn search_long(
    alloc: Global,
    searcher: &mut Searcher,
    query: &Query,
    claim: &Claim,
    limits: Limits,
) -> Result<Found, Memory>
    requires unbarred { query.now.barred ≡ None }
    requires all { searcher.old ≡ Reasons.All }
    requires some_nodes { 1 ≤ limits.nodes }
    ensures settlement { IfOk result (IsSettlement limits.depth limits.nodes claim.now query.now) }
    ensures counterable { IfOk result (λ found. IsCounterable limits.depth limits.nodes claim.now query.now → IsCountered found) }
{
    let found = search(searcher, query, claim, limits)?;
    if is_decided(&found) {
        Ok(found)
    } else {
        look_further(alloc, query, claim, limits, found)
    }
}

/// Whether it is a certificate or a game.
fn is_decided(found: &Found) -> bool
    ensures { IsTrue result → IsProved found.now ⊎ IsCountered found.now }
{
    matches!(found, Found::Proved(_) | Found::Countered(_))
}

/// What the searches behind the search for a game that looks at few queries come to: one with large sketches, if there are more nodes than
/// that search looks at, then the long ones.
fn search_large(
    alloc: Global,
    searcher: &mut Searcher,
    query: &Query,
    claim: &Claim,
    limits: Limits,
) -> Result<Found, Memory>
    requires unbarred { query.now.barred ≡ None }
    requires all { searcher.old ≡ Reasons.All }
    requires some_nodes { 1 ≤ limits.nodes }
    ensures settlement { IfOk result (IsSettlement limits.depth limits.nodes claim.now query.now) }
    ensures counterable { IfOk result (λ found. IsCounterable limits.depth limits.nodes claim.now query.now → IsCountered found) }
{
    if limits.nodes <= FEW_QUERIES {
        return search_long(alloc, searcher, query, claim, limits);
    }
    match seek(searcher, query, claim, limits, LARGE, LARGE_FAILURES)? {
        Some(found) => Ok(found),
        None => search_long(alloc, searcher, query, claim, limits),
    }
}

/// What the searches behind those that visit few queries come to: one for a game that looks at few queries, then the others.
fn search_on(
    alloc: Global,
    searcher: &mut Searcher,
    query: &Query,
    claim: &Claim,
    limits: Limits,
) -> Result<Found, Memory>
    requires unbarred { query.now.barred ≡ None }
    requires all { searcher.old ≡ Reasons.All }
    requires some_nodes { 1 ≤ limits.nodes }
    ensures settlement { IfOk result (IsSettlement limits.depth limits.nodes claim.now query.now) }
    ensures counterable { IfOk result (λ found. IsCounterable limits.depth limits.nodes claim.now query.now → IsCountered found) }
{
    match game_against(alloc, query, claim, limits.nodes.min(FEW_QUERIES))? {
        Some(game) => Ok(Found::Countered(game)),
        None => search_large(alloc, searcher, query, claim, limits),
    }
}

/// What the searches behind the first come to: one with small sketches, then the others.
fn search_small(
    alloc: Global,
    searcher: &mut Searcher,
    query: &Query,
    claim: &Claim,
    limits: Limits,
) -> Result<Found, Memory>
    requires unbarred { query.now.barred ≡ None }
    requires all { searcher.old ≡ Reasons.All }
    requires some_nodes { 1 ≤ limits.nodes }
    ensures settlement { IfOk result (IsSettlement limits.depth limits.nodes claim.now query.now) }
    ensures counterable { IfOk result (λ found. IsCounterable limits.depth limits.nodes claim.now query.now → IsCountered found) }
    ensures sketched { IfOk result (λ found. HasPlainSketch (target query.now claim.now) → IsProved found) }
{
    let failures = small_failures(limits);
    match seek(searcher, query, claim, limits, SMALL, failures)? {
        Some(found) => Ok(found),
        None => search_on(alloc, searcher, query, claim, limits),
    }
}

/// Searches for what decides the claim about the query: a certificate, by taking moves back from the claim's target, at most as many as
/// the depth; or a game that contradicts it. First comes a search for a certificate that visits few queries, then the same with small
/// searches for sketches at the queries that it leaves open, then a search for a game that looks at few queries, then a search for a
/// certificate with large searches for sketches, if there are more than 4,000 nodes, then one without sketches that visits as many
/// queries as the nodes; if this leaves the claim open, the search by rule lines alone that `solve` makes, which may come to a game, and
/// another one for a game. Each search for a certificate visits at most as many queries as the nodes, and those for games look together
/// at no more. The query bars no move of its own.
///
/// - `Proved` comes wherever rule lines refute the target at some depth up to that of the limits at a cost of at most their nodes, flat
///   prices support it, or one node of a sketch refutes it without exact files, prices and marks, and often elsewhere. The certificate is
///   of this claim and this query, proves it, goes back no further than the depth, and has at most 500,000 nodes. It has a text if the
///   claim has one, and no text of more than 64 MiB. No game of any length contradicts the claim.
/// - `Countered` comes with a game that contradicts the claim. It has at most as many moves as the nodes, however low the depth is. It comes
///   wherever `solve` within the same limits must come to a game: if the target's first open line ends at the array, and its cost is at
///   most the nodes.
/// - `Undecided` and `Spent` come as from a search for a certificate alone, with the line that stays open, or with how many queries were
///   visited. They say nothing about games otherwise.
///
/// Want of memory is a free answer: `Memory` may take the place of each of these.
pub fn settle(alloc: Global, query: &Query, claim: &Claim, limits: Limits) -> Result<Found, Memory>
    requires unbarred { query.now.barred ≡ None }
    requires some_nodes { 1 ≤ limits.nodes }
    ensures settlement { IfOk result (IsSettlement limits.depth limits.nodes claim.now query.now) }
    ensures counterable { IfOk result (λ found. IsCounterable limits.depth limits.nodes claim.now query.now → IsCountered found) }
    ensures sketched { IfOk result (λ found. HasPlainSketch (target query.now claim.now) → IsProved found) }
{
    let mut searcher = Searcher::new(alloc, Reasons::All);
    match search(&mut searcher, query, claim, with_few_nodes(limits))? {
        Found::Proved(cert) => Ok(Found::Proved(cert)),
        Found::Countered(game) => Ok(Found::Countered(game)),
        Found::Undecided(_) | Found::Spent { .. } => {
            search_small(alloc, &mut searcher, query, claim, limits)
        }
    }
}
