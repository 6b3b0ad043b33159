ghost use Rattle.std.specs.Prelude.{ℕ, ◌≡◌, ◌++◌, IfOk, IsTrue, OnOk, map};
ghost use Rattle.std.specs.List.{All};
ghost use Rattle.cert_text.specs.ClaimLines.{promotes_well};
ghost use Rattle.codex_verdict.specs.Rights.{claim_of};
ghost use Rattle.claim_findings.specs.Decisions.{Grows};
ghost use Rattle.diagram_study.specs.Decisions.{IsRightAgreed, IsRightSought};
ghost use Rattle.claim_findings.specs.Findings.{is_proved};
ghost use Rattle.diagram_study.specs.Rights.{AreDue, HasStuckText, is_demanded, open_castlings, with_right};
ghost use Rattle.diagram_study.specs.Texts.{capture_line, capture_lines, castling_line, castling_lines};

use arrayvec::ArrayVec;
use board_base::{CastleSet, UnmoveList};
use claim_findings::{Decided, Finding, Games, Searchers, Subject, agreed, decide, push_decided};
use codex_verdict::{Right, claim_of, rights};
use query_base::{Claim, Query};
use std::alloc::{AllocError, Global};

/// A right, and what is found of the claim that decides it; if that stays open, the retractions that are told of an open line.
#[derive(Drop)]
pub struct RightFound {
    pub right: Right,
    pub finding: Finding,
    pub stuck: Option<UnmoveList>,
}

/// The right is that of a castling which the query demands.
fn is_demanded(query: &Query, right: &Right) -> bool
    ensures { result ≡ is_demanded query.now right.now }
{
    match right {
        Right::Castling(castle) => query.held.has(*castle),
        Right::EnPassant(_) => false,
    }
}

/// The rights that the position seems to give and the query doesn't demand.
fn due_rights(query: &Query) -> ArrayVec<Right, 18>
    ensures { AreDue query.now result.items }
{
    let mut due: ArrayVec<Right, 18> = ArrayVec::new();
    let all = rights(query);
    let each = all.as_slice();
    for right in each {
        if !is_demanded(query, right) {
            due.push(*right);
        }
    }
    due
}

/// What is found of each of these rights.
pub(crate) fn seek_rights(
    searchers: &mut Searchers,
    games: &mut Games,
    subject: &Subject,
) -> Result<Vec<RightFound>, AllocError>
    ensures due { IfOk result (λ found. AreDue subject.now.query (map (λ f. f.right) found.items)) }
    ensures sought { IfOk result
        (λ found. All (IsRightSought subject.now.query subject.now.limits.depth subject.now.limits.nodes games.new.found.items) found.items) }
    ensures grows { IfOk result (λ found. Grows games.old.found.items games.new.found.items) }
{
    let mut found = Vec::new(searchers.alloc);
    let due = due_rights(&subject.query);
    let each = due.as_slice();
    for right in each {
        let decided = decide(searchers, games, subject, &claim_of(right))?;
        found.push(RightFound {
            right: *right,
            finding: decided.finding,
            stuck: decided.stuck,
        })?;
    }
    Ok(found)
}

/// What is found of the right by these games too.
fn agreed_right(games: &Games, subject: &Subject, found: RightFound) -> RightFound
    ensures right { result.right ≡ found.right }
    ensures proved { is_proved result.finding ≡ is_proved found.finding }
    ensures found { (most nodes : ℕ) →
        IsRightSought subject.now.query most nodes games.now.found.items found →
        IsRightAgreed subject.now.query most nodes games.now.found.items result }
{
    let RightFound {
        right,
        finding,
        stuck,
    } = found;
    let decided = agreed(
        games,
        subject,
        &claim_of(&right),
        Decided { finding, stuck },
    );
    RightFound {
        right,
        finding: decided.finding,
        stuck: decided.stuck,
    }
}

/// What is found of each right by these games too.
pub(crate) fn agreed_rights(
    alloc: Global,
    games: &Games,
    subject: &Subject,
    found: Vec<RightFound>,
) -> Result<Vec<RightFound>, AllocError>
    ensures rights { IfOk result
        (λ told. map (λ f. f.right) told.items ≡ map (λ f. f.right) found.items) }
    ensures proved { IfOk result
        (λ told. map (λ f. is_proved f.finding) told.items ≡ map (λ f. is_proved f.finding) found.items) }
    ensures found { IfOk result
        (λ told. (most nodes : ℕ) →
        All (IsRightSought subject.now.query most nodes games.now.found.items) found.items →
        All (IsRightAgreed subject.now.query most nodes games.now.found.items) told.items) }
{
    let mut told = Vec::new(alloc);
    for each in found {
        told.push(agreed_right(games, subject, each))?;
    }
    Ok(told)
}

/// The castlings that aren't proved to be lost.
pub(crate) fn open_castlings(found: &[RightFound]) -> CastleSet
    ensures { result ≡ open_castlings found.now }
{
    let mut kept = CastleSet::none();
    for f in found {
        kept = with_right(f, kept);
    }
    kept
}

/// The set with the castling of a right that was found open, if it is one.
fn with_right(f: &RightFound, set: CastleSet) -> CastleSet
    ensures { result ≡ with_right f.now.right f.now.finding set }
{
    match f.right {
        Right::Castling(castle) if !f.finding.is_proved() => set.with(castle),
        _ => set,
    }
}

/// Adds the line of a right, if it is that of a castling.
fn push_castling(text: &mut Vec<u8>, f: &RightFound) -> Result<(), AllocError>
    requires { HasStuckText f.now }
    ensures { OnOk result (text.new.items ≡ text.old.items
        ++ castling_line f.now.finding f.now.stuck f.now.right) }
{
    match f.right {
        Right::Castling(castle) => push_decided(text, f.finding, &f.stuck, &Claim::Lost(castle)),
        Right::EnPassant(_) => Ok(()),
    }
}

/// Adds the line of a right, if it is that of a capture en passant.
fn push_capture(text: &mut Vec<u8>, f: &RightFound) -> Result<(), AllocError>
    requires promotion { IsTrue (promotes_well (claim_of f.now.right)) }
    requires texts { HasStuckText f.now }
    ensures { OnOk result (text.new.items ≡ text.old.items
        ++ capture_line f.now.finding f.now.stuck f.now.right) }
{
    match f.right {
        Right::Castling(_) => Ok(()),
        Right::EnPassant(m) => push_decided(text, f.finding, &f.stuck, &Claim::Ep(m)),
    }
}

/// Adds the line of each castling.
pub(crate) fn tell_castlings(text: &mut Vec<u8>, found: &[RightFound]) -> Result<(), AllocError>
    requires { All HasStuckText found.now }
    ensures { OnOk result (text.new.items ≡ text.old.items ++ castling_lines found.now) }
{
    for f in found {
        push_castling(text, f)?;
    }
    Ok(())
}

/// Adds the line of each capture en passant.
pub(crate) fn tell_captures(text: &mut Vec<u8>, found: &[RightFound]) -> Result<(), AllocError>
    requires promotions { All (λ f. IsTrue (promotes_well (claim_of f.right))) found.now }
    requires texts { All HasStuckText found.now }
    ensures { OnOk result (text.new.items ≡ text.old.items ++ capture_lines found.now) }
{
    for f in found {
        push_capture(text, f)?;
    }
    Ok(())
}
