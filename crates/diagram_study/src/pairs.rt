ghost use Rattle.std.specs.Prelude.{ℕ, ◌≡◌, ◌++◌, IfOk, IsTrue, OnOk, map};
ghost use Rattle.std.specs.List.{All, filter};
ghost use Rattle.line_claims.specs.Due.{with_both};
ghost use Rattle.line_claims.specs.Lines.{in_order};
ghost use Rattle.claim_findings.specs.Decisions.{Grows};
ghost use Rattle.diagram_study.specs.Decisions.{IsPairAgreed, IsPairSought};
ghost use Rattle.diagram_study.specs.Pairs.{HasStuckPairText, are_both_in, castle_pairs, pair_of};
ghost use Rattle.claim_findings.specs.Lines.{decided_steps};
ghost use Rattle.diagram_study.specs.Texts.{pair_lines};

use board_base::Castle::{BlackLong, BlackShort, WhiteLong, WhiteShort};
use board_base::{Castle, CastleSet, UnmoveList};
use claim_findings::{
    Decided, Finding, Games, Searchers, Subject, agreed, decide, push_decided_steps,
};
use line_claims::LineClaim;
use query_base::{Claim, Query};
use std::alloc::{AllocError, Global};

/// Two castlings, and what is found of the claim that they aren't both kept; if that stays open, the retractions that are told of an
/// open line.
#[derive(Drop)]
pub struct PairFound {
    pub first: Castle,
    pub second: Castle,
    pub finding: Finding,
    pub stuck: Option<UnmoveList>,
}

/// Each two castlings.
const PAIRS: [(Castle, Castle); 6] = [
    (WhiteShort, WhiteLong),
    (WhiteShort, BlackShort),
    (WhiteShort, BlackLong),
    (WhiteLong, BlackShort),
    (WhiteLong, BlackLong),
    (BlackShort, BlackLong),
];

/// The query with both castlings added to those that it demands.
pub fn with_both(query: &Query, first: Castle, second: Castle) -> Query
    ensures { result ≡ with_both query.now first second }
{
    let mut both = *query;
    both.held = query.held.with(first).with(second);
    both
}

/// Those of the pairs that are in the set.
fn pairs_in(
    alloc: Global,
    kept: CastleSet,
    pairs: &[(Castle, Castle)],
) -> Result<Vec<(Castle, Castle)>, AllocError>
    ensures { IfOk result (λ due. due.items ≡ filter (are_both_in kept) pairs.now) }
{
    let mut due = Vec::new(alloc);
    for pair in pairs {
        if kept.has(pair.0) && kept.has(pair.1) {
            due.push(*pair)?;
        }
    }
    Ok(due)
}

/// What is found of the claim that the two castlings aren't both kept: of the claim that no game keeps both.
fn seek_pair(
    searchers: &mut Searchers,
    games: &mut Games,
    subject: &Subject,
    first: Castle,
    second: Castle,
) -> Result<PairFound, AllocError>
    ensures first { IfOk result (λ f. f.first ≡ first) }
    ensures second { IfOk result (λ f. f.second ≡ second) }
    ensures sought { IfOk result
        (IsPairSought subject.now.query subject.now.limits.depth subject.now.limits.nodes games.new.found.items) }
    ensures grows { IfOk result (λ f. Grows games.old.found.items games.new.found.items) }
{
    let query = with_both(&subject.query, first, second);
    let both = Subject {
        query,
        limits: subject.limits,
    };
    let decided = decide(searchers, games, &both, &Claim::Illegal)?;
    Ok(PairFound {
        first,
        second,
        finding: decided.finding,
        stuck: decided.stuck,
    })
}

/// What is found of each two of these castlings.
pub(crate) fn seek_pairs(
    searchers: &mut Searchers,
    games: &mut Games,
    subject: &Subject,
    kept: CastleSet,
) -> Result<Vec<PairFound>, AllocError>
    ensures pairs { IfOk result
        (λ found. map pair_of found.items ≡ filter (are_both_in kept) castle_pairs) }
    ensures sought { IfOk result
        (λ found. All (IsPairSought subject.now.query subject.now.limits.depth subject.now.limits.nodes games.new.found.items) found.items) }
    ensures grows { IfOk result (λ found. Grows games.old.found.items games.new.found.items) }
{
    let mut found = Vec::new(searchers.alloc);
    let due = pairs_in(searchers.alloc, kept, &PAIRS)?;
    let each = due.as_slice();
    for pair in each {
        found.push(seek_pair(searchers, games, subject, pair.0, pair.1)?)?;
    }
    Ok(found)
}

/// What is found of the two castlings by these games too.
fn agreed_pair(games: &Games, subject: &Subject, found: PairFound) -> PairFound
    ensures first { result.first ≡ found.first }
    ensures second { result.second ≡ found.second }
    ensures found { (most nodes : ℕ) →
        IsPairSought subject.now.query most nodes games.now.found.items found →
        IsPairAgreed subject.now.query most nodes games.now.found.items result }
{
    let PairFound {
        first,
        second,
        finding,
        stuck,
    } = found;
    let query = with_both(&subject.query, first, second);
    let both = Subject {
        query,
        limits: subject.limits,
    };
    let decided = agreed(games, &both, &Claim::Illegal, Decided { finding, stuck });
    PairFound {
        first,
        second,
        finding: decided.finding,
        stuck: decided.stuck,
    }
}

/// What is found of each two castlings by these games too.
pub(crate) fn agreed_pairs(
    alloc: Global,
    games: &Games,
    subject: &Subject,
    found: Vec<PairFound>,
) -> Result<Vec<PairFound>, AllocError>
    ensures pairs { IfOk result (λ told. map pair_of told.items ≡ map pair_of found.items) }
    ensures found { IfOk result
        (λ told. (most nodes : ℕ) →
        All (IsPairSought subject.now.query most nodes games.now.found.items) found.items →
        All (IsPairAgreed subject.now.query most nodes games.now.found.items) told.items) }
{
    let mut told = Vec::new(alloc);
    for each in found {
        told.push(agreed_pair(games, subject, each))?;
    }
    Ok(told)
}

/// Adds the line of two castlings.
fn push_pair(text: &mut Vec<u8>, f: &PairFound) -> Result<(), AllocError>
    requires order { IsTrue (in_order f.now.first f.now.second) }
    requires texts { HasStuckPairText f.now }
    ensures { OnOk result (text.new.items ≡ text.old.items
        ++ decided_steps f.now.finding f.now.stuck (LineClaim.NotBoth f.now.first f.now.second)) }
{
    push_decided_steps(
        text,
        f.finding,
        &f.stuck,
        &LineClaim::NotBoth(f.first, f.second),
    )
}

/// Adds the line of each two castlings.
pub(crate) fn tell_pairs(text: &mut Vec<u8>, found: &[PairFound]) -> Result<(), AllocError>
    requires order { All (λ f. IsTrue (in_order f.first f.second)) found.now }
    requires texts { All HasStuckPairText found.now }
    ensures { OnOk result (text.new.items ≡ text.old.items ++ pair_lines found.now) }
{
    for f in found {
        push_pair(text, f)?;
    }
    Ok(())
}
