ghost use Rattle.std.specs.Prelude.{ℕ, ◌≡◌, ◌≢◌, ◌⊎◌, IfOk, IsTrue, None, false};
ghost use Rattle.query_base.specs.Targets.{target};
ghost use Rattle.claim_findings.specs.Decisions.{Grows, IsAgreed, IsDecided};
ghost use Rattle.claim_findings.specs.Findings.{IsFound, is_proved};

use crate::ends::End;
use crate::findings::Finding;
use crate::fronts::front_of;
use crate::games::Games;
use crate::proving::{prove_further, seek};
use crate::searchers::Searchers;
use crate::subjects::Subject;
use board_base::{Memory, UnmoveList};
use query_base::{Claim, target};
use std::alloc::AllocError;
use unmove_gen::unmoves_have_texts;

/// What is found of a claim, and of one that stays open the retractions that are told of an open line.
#[derive(Drop)]
pub struct Decided {
    pub finding: Finding,
    pub stuck: Option<UnmoveList>,
}

/// What is found if nothing is told of an open line.
fn plainly(finding: Finding) -> Decided
    ensures finding { result.finding ≡ finding }
    ensures stuck { result.stuck ≡ None }
{
    Decided {
        finding,
        stuck: None,
    }
}

/// What is found of a claim that the searches leave open, and against which no game was found.
fn stay_open(
    searchers: &mut Searchers,
    games: &mut Games,
    subject: &Subject,
    claim: &Claim,
) -> Result<Decided, Memory>
    requires open { IsFound subject.now.query claim.now subject.now.limits.depth subject.now.limits.nodes Finding.Open }
    ensures decided { IfOk result
        (IsDecided subject.now.query claim.now subject.now.limits.depth subject.now.limits.nodes games.new.found.items) }
    ensures unproved { IfOk result (λ d. is_proved d.finding ≡ false) }
    ensures grows { IfOk result (λ d. Grows games.old.found.items games.new.found.items) }
{
    unmoves_have_texts();
    let alloc = searchers.alloc;
    match searchers.end(subject, claim)? {
        End::Line(line) => {
            let front = front_of(alloc, &target(&subject.query, claim), &line)?;
            Ok(Decided {
                finding: Finding::Open,
                stuck: Some(front),
            })
        }
        End::Game(game) => {
            games.add(game)?;
            Ok(plainly(Finding::Countered))
        }
        End::Nowhere => Ok(plainly(Finding::Open)),
    }
}

/// What is found of a claim that the searches didn't prove: a game against it is looked for.
fn look(
    searchers: &mut Searchers,
    games: &mut Games,
    subject: &Subject,
    claim: &Claim,
    sought: Finding,
) -> Result<Decided, Memory>
    requires sought { IsFound subject.now.query claim.now subject.now.limits.depth subject.now.limits.nodes sought }
    requires unproved { is_proved sought ≡ false }
    requires unlooked { sought ≢ Finding.Countered }
    ensures decided { IfOk result
        (IsDecided subject.now.query claim.now subject.now.limits.depth subject.now.limits.nodes games.new.found.items) }
    ensures unproved { IfOk result (λ d. is_proved d.finding ≡ false) }
    ensures grows { IfOk result (λ d. Grows games.old.found.items games.new.found.items) }
{
    let alloc = searchers.alloc;
    if games.reach(alloc, &target(&subject.query, claim), subject.limits.nodes)? {
        return Ok(plainly(Finding::Countered));
    }
    match sought {
        Finding::Open => stay_open(searchers, games, subject, claim),
        Finding::Proved(_) | Finding::Countered | Finding::Spent => Ok(plainly(sought)),
    }
}

/// What is found of a claim if the searches for a proof came to this and didn't prove it: a game against it is looked for.
pub fn counter(
    searchers: &mut Searchers,
    games: &mut Games,
    subject: &Subject,
    claim: &Claim,
    sought: Finding,
) -> Result<Decided, AllocError>
    requires sought { IsFound subject.now.query claim.now subject.now.limits.depth subject.now.limits.nodes sought }
    requires unproved { is_proved sought ≡ false }
    requires unlooked { sought ≢ Finding.Countered }
    ensures decided { IfOk result
        (IsDecided subject.now.query claim.now subject.now.limits.depth subject.now.limits.nodes games.new.found.items) }
    ensures unproved { IfOk result (λ d. is_proved d.finding ≡ false) }
    ensures grows { IfOk result (λ d. Grows games.old.found.items games.new.found.items) }
{
    match look(searchers, games, subject, claim, sought) {
        Ok(decided) => Ok(decided),
        Err(_) => Err(AllocError),
    }
}

/// Whether the claim has neither a proof nor a game against it.
fn is_unsettled(finding: Finding) -> bool
    ensures { IsTrue result → (finding ≡ Finding.Open) ⊎ (finding ≡ Finding.Spent) }
{
    matches!(finding, Finding::Open | Finding::Spent)
}

/// What is found of a claim that the searches for a proof and for a game came to this of: if it stays open, by searching further for a proof.
fn decide_further(
    searchers: &Searchers,
    games: &Games,
    subject: &Subject,
    claim: &Claim,
    decided: Decided,
) -> Result<Decided, AllocError>
    requires decided { IsDecided subject.now.query claim.now subject.now.limits.depth subject.now.limits.nodes games.now.found.items decided }
    ensures { IfOk result
        (IsDecided subject.now.query claim.now subject.now.limits.depth subject.now.limits.nodes games.now.found.items) }
{
    if !is_unsettled(decided.finding) {
        return Ok(decided);
    }
    match prove_further(searchers, subject, claim)? {
        Some(depth) => Ok(plainly(Finding::Proved(depth))),
        None => Ok(decided),
    }
}

/// What is found of the claim, by searches for a proof and for a game against it; if these leave it open, by searching further for a proof.
pub fn decide(
    searchers: &mut Searchers,
    games: &mut Games,
    subject: &Subject,
    claim: &Claim,
) -> Result<Decided, AllocError>
    ensures decided { IfOk result
        (IsDecided subject.now.query claim.now subject.now.limits.depth subject.now.limits.nodes games.new.found.items) }
    ensures grows { IfOk result (λ d. Grows games.old.found.items games.new.found.items) }
{
    let sought = seek(searchers, subject, claim)?;
    if sought.is_proved() {
        return Ok(plainly(sought));
    }
    let decided = counter(searchers, games, subject, claim, sought)?;
    decide_further(searchers, games, subject, claim, decided)
}

/// What is found of the claim by these games too: it is countered if one of them contradicts it.
pub fn agreed(games: &Games, subject: &Subject, claim: &Claim, decided: Decided) -> Decided
    ensures agrees { (most nodes : ℕ) →
        IsDecided subject.now.query claim.now most nodes games.now.found.items decided →
        IsAgreed subject.now.query claim.now most nodes games.now.found.items result }
    ensures proved { is_proved result.finding ≡ is_proved decided.finding }
{
    if !decided.finding.is_proved() && games.have_one(&target(&subject.query, claim)) {
        plainly(Finding::Countered)
    } else {
        decided
    }
}
