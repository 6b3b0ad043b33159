//! What is found of a position, as a value of which a study or a report is written.

ghost use Rattle.std.specs.Prelude.{◌≡◌, ◌≢◌, ◌≤◌, [], IfOk, IsTrue, false};
ghost use Rattle.query_base.specs.Reach.{Reaches};
ghost use Rattle.claim_findings.specs.Findings.{IsFound, is_proved};
ghost use Rattle.diagram_study.specs.Findings.{CanBeWritten, HasLength, IsFoundOf, finding_of, other_side};
ghost use Rattle.diagram_study.specs.Looks.{IsSeen};

use crate::forced::{StepsFound, find_forced};
use crate::gathering::{Gathered, agreed_all, gather};
use crate::held::{HeldFound, find_held};
use crate::joining::joined_up;
use crate::pairs::PairFound;
use crate::possible::find_ends;
use crate::retractions::{Counted, MoveFound, find_last, retractions};
use crate::rights::RightFound;
use board_base::UnmoveList;
use claim_findings::{Decided, Finding, Games, Searchers, Subject, decide, seek};
use ledger_told::{Line, told_lines};
use length_bound::{longest, shown_lengths_hold};
use query_base::{Claim, Query};
use std::alloc::AllocError;

/// What is found of a position that isn't proved to be illegal.
#[derive(Drop)]
pub struct Found {
    /// What is found of the claim that it is illegal.
    pub illegal: Decided,
    /// What is found of each right that it seems to give and doesn't demand.
    pub rights: Vec<RightFound>,
    /// What is found of each two of the castlings that aren't proved to be lost.
    pub pairs: Vec<PairFound>,
    /// The retractions that are left: those whose predecessors the search doesn't refute.
    pub left: UnmoveList,
    /// How many retractions there are in all.
    pub all: u32,
    /// What is found of the last move, if all retractions that are left have one move.
    pub last: Option<MoveFound>,
    /// What is found of the last moves that follow one from another, if there are two to sixteen.
    pub steps: Option<StepsFound>,
    /// Those of the retractions left with which one of the games ends. None if none or more than eight are left, or if it is the array.
    pub ends: Option<UnmoveList>,
    /// The lines of its ledger that are told.
    pub ledger: Vec<Line>,
    /// What the ledger says only if a castling is held that is neither proved to be lost nor shown to be kept by a game.
    pub held: Vec<HeldFound>,
    /// How many half-moves each game has at least. None if both sides have more than sixteen men.
    pub length: Option<u16>,
}

/// What is found of a position.
#[derive(Drop)]
pub enum Findings {
    /// It is illegal: what is found of that claim, and of the same with the other side to move.
    Impossible(Finding, Finding),
    /// That isn't proved.
    Unproved(Found),
}

impl Findings {
    /// What is found of the claim that the position is illegal.
    pub fn finding(&self) -> Finding
        ensures { result ≡ finding_of self.now }
    {
        match self {
            Findings::Impossible(finding, _) => *finding,
            Findings::Unproved(found) => found.illegal.finding,
        }
    }
}

/// The same board with the other side to move: without the double step that an en passant square demands.
fn other_side(query: &Query) -> Query
    ensures { result ≡ other_side query.now }
{
    let mut other = *query;
    other.turn = query.turn.other();
    other.only = None;
    other.barred = None;
    other
}

/// What is found of a position that is illegal.
fn impossible(
    searchers: &mut Searchers,
    games: &mut Games,
    subject: &Subject,
    finding: Finding,
) -> Result<Findings, AllocError>
    requires found { IsFound subject.now.query Claim.Illegal subject.now.limits.depth subject.now.limits.nodes finding }
    requires proved { IsTrue (is_proved finding) }
    ensures found { IfOk result (IsFoundOf subject.now.query subject.now.limits.depth subject.now.limits.nodes games.new.found.items) }
    ensures texts { IfOk result CanBeWritten }
{
    let query = other_side(&subject.query);
    let other = Subject {
        query,
        limits: subject.limits,
    };
    let decided = decide(searchers, games, &other, &Claim::Illegal)?;
    Ok(Findings::Impossible(finding, decided.finding))
}

/// How many half-moves each game has at least. None if both sides have more than sixteen men.
fn least_length(query: &Query) -> Option<u16>
    ensures { HasLength query.now result }
{
    shown_lengths_hold();
    match longest(query) {
        Some(said) => Some(said.at_least),
        None => None,
    }
}

/// What is found of a position that isn't proved to be illegal. Games are looked for first, so that each claim is found by all of them.
fn unproved(
    searchers: &mut Searchers,
    games: &mut Games,
    subject: &Subject,
    sought: Finding,
    seen: Counted,
) -> Result<Findings, AllocError>
    requires sought { IsFound subject.now.query Claim.Illegal subject.now.limits.depth subject.now.limits.nodes sought }
    requires unproved { is_proved sought ≡ false }
    requires unlooked { sought ≢ Finding.Countered }
    requires seen { IsSeen subject.now.query subject.now.limits.depth subject.now.limits.nodes seen }
    requires array { 1 ≤ subject.now.limits.depth → seen.left ≡ [] → Reaches [] subject.now.query }
    ensures found { IfOk result (IsFoundOf subject.now.query subject.now.limits.depth subject.now.limits.nodes games.new.found.items) }
    ensures texts { IfOk result CanBeWritten }
{
    let alloc = searchers.alloc;
    let sought = gather(searchers, games, subject, sought, &seen.left)?;
    let gathered = agreed_all(alloc, games, subject, sought)?;
    let last = find_last(searchers, subject, &seen)?;
    let steps = find_forced(searchers, subject, &seen.left)?;
    let ends = find_ends(alloc, games, &subject.query, &seen.left)?;
    let ledger = told_lines(alloc, &subject.query)?;
    let Gathered {
        illegal,
        rights,
        pairs,
    } = gathered;
    let known = ledger.as_slice();
    let held = find_held(alloc, &subject.query, known, rights.as_slice())?;
    let length = least_length(&subject.query);
    let Counted { left, all, .. } = seen;
    Ok(Findings::Unproved(Found {
        illegal,
        rights,
        pairs,
        left,
        all,
        last,
        steps,
        ends,
        ledger,
        held,
        length,
    }))
}

/// What is found of the position, by searches within the subject's limits and by games, which are added to those that there are: whether it
/// is illegal, and what follows. Where the search alone doesn't prove that, the proofs of what is before its retractions may. `study` tells
/// it.
pub fn find(
    searchers: &mut Searchers,
    games: &mut Games,
    subject: &Subject,
) -> Result<Findings, AllocError>
    ensures found { IfOk result (IsFoundOf subject.now.query subject.now.limits.depth subject.now.limits.nodes games.new.found.items) }
    ensures texts { IfOk result CanBeWritten }
{
    let sought = seek(searchers, subject, &Claim::Illegal)?;
    if sought.is_proved() {
        return impossible(searchers, games, subject, sought);
    }
    let seen = retractions(searchers, subject)?;
    let joined = joined_up(subject, None, sought, &seen);
    if joined.is_proved() {
        return impossible(searchers, games, subject, joined);
    }
    unproved(searchers, games, subject, joined, seen)
}
