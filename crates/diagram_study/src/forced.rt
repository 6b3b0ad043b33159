ghost use Rattle.std.specs.Prelude.{◌≡◌, ◌≤◌, ◌∷◌, [], IfOk, IfSome, IsTrue, MatchOption, None, Some, length};
ghost use Rattle.std.specs.List.{All, list_all};
ghost use Rattle.line_claims.specs.Lines.{HasLine, has_text};
ghost use Rattle.diagram_study.specs.Forced.{AreForced, AreStepsFound, IsForced, IsOpenPlace};
ghost use Rattle.diagram_study.specs.Retractions.{HasLeft};

use crate::retractions::retractions;
use board_base::{Unmove, UnmoveList};
use claim_findings::{Finding, Searchers, Subject, seek, seek_line};
use line_claims::{LineClaim, StepList};
use query_base::Claim;
use std::alloc::AllocError;
use unmove_gen::pred;

/// The claim that each game ends by some last moves, and what is found of it.
#[derive(Drop)]
pub struct StepsFound {
    pub claim: LineClaim,
    pub finding: Finding,
}

/// The most steps of a line.
const MOST_STEPS: usize = 16;

/// The unmove of these, if it is one.
fn only_unmove(left: &UnmoveList) -> Option<Unmove>
    ensures { MatchOption result (length left.now ≡ 1 → ⊥) (λ u. left.now ≡ u ∷ []) }
{
    if left.len() == 1 { left.get(0) } else { None }
}

/// The unmove that alone is left of the query, if its move is proved to have been the last.
fn forced_unmove(
    searchers: &mut Searchers,
    subject: &Subject,
    left: &UnmoveList,
) -> Result<Option<Unmove>, AllocError>
    requires left { HasLeft subject.now.query subject.now.limits.depth subject.now.limits.nodes left.now }
    ensures { IfOk result (λ o. MatchOption o (IsOpenPlace subject.now.query subject.now.limits.depth subject.now.limits.nodes) (λ u. IsForced subject.now.query subject.now.limits.depth subject.now.limits.nodes u × (left.now ≡ u ∷ []))) }
{
    match only_unmove(left) {
        Some(u) => {
            let finding = seek(searchers, subject, &Claim::Last(u.mv))?;
            if finding.is_proved() {
                Ok(Some(u))
            } else {
                Ok(None)
            }
        }
        None => Ok(None),
    }
}

/// The steps that are forced one after another, of which this is the first, at the query.
fn forced_steps(
    searchers: &mut Searchers,
    subject: &Subject,
    first: Option<Unmove>,
) -> Result<Vec<Unmove>, AllocError>
    requires first { MatchOption first (IsOpenPlace subject.now.query subject.now.limits.depth subject.now.limits.nodes) (λ u. IsForced subject.now.query subject.now.limits.depth subject.now.limits.nodes u × IsTrue (has_text u)) }
    ensures forced { IfOk result
        (λ steps. AreForced 16 subject.now.query subject.now.limits.depth subject.now.limits.nodes steps.items) }
    ensures texts { IfOk result (λ steps. IsTrue (list_all has_text steps.items)) }
{
    let mut steps = Vec::new(searchers.alloc);
    let mut here = subject.query;
    let mut step = first;
    while let Some(u) = step {
        steps.push(u)?;
        if steps.len() == MOST_STEPS {
            return Ok(steps);
        }
        here = pred(&here, &u);
        let place = Subject {
            query: here,
            limits: subject.limits,
        };
        let next = retractions(searchers, &place)?;
        step = forced_unmove(searchers, &place, &next.left)?;
    }
    Ok(steps)
}

/// What is found of the claim that each game ends by these steps.
fn find_steps(
    searchers: &mut Searchers,
    subject: &Subject,
    steps: StepList,
) -> Result<StepsFound, AllocError>
    requires forced { AreForced 16 subject.now.query subject.now.limits.depth subject.now.limits.nodes steps }
    requires texts { IsTrue (list_all has_text steps) }
    requires several { 2 ≤ length steps }
    ensures found { IfOk result (λ f. AreStepsFound subject.now.query subject.now.limits.depth subject.now.limits.nodes (Some f)) }
    ensures text { IfOk result (λ f. HasLine f.claim) }
{
    let claim = LineClaim::Line(steps);
    let finding = seek_line(searchers, subject, &claim)?;
    Ok(StepsFound { claim, finding })
}

/// What is found of the last moves that follow one from another, if there are two or more.
pub(crate) fn find_forced(
    searchers: &mut Searchers,
    subject: &Subject,
    left: &UnmoveList,
) -> Result<Option<StepsFound>, AllocError>
    requires left { HasLeft subject.now.query subject.now.limits.depth subject.now.limits.nodes left.now }
    requires texts { All (λ u. IsTrue (has_text u)) left.now }
    ensures found { IfOk result (AreStepsFound subject.now.query subject.now.limits.depth subject.now.limits.nodes) }
    ensures text { IfOk result (λ found. IfSome found (λ f. HasLine f.claim)) }
{
    let first = forced_unmove(searchers, subject, left)?;
    let steps = forced_steps(searchers, subject, first)?;
    let Some(list) = StepList::new(steps.as_slice()) else {
        return Ok(None);
    };
    if steps.len() < 2 {
        return Ok(None);
    }
    let found = find_steps(searchers, subject, list)?;
    Ok(Some(found))
}
