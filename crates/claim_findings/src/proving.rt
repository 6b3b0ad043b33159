//! What is found of a claim by searches for a proof.

ghost use Rattle.std.specs.Prelude.{◌≢◌, IfOk, IfSome};
ghost use Rattle.line_claims.specs.Listing.{HasParts};
ghost use Rattle.claim_findings.specs.Findings.{IsFound, IsOutcome, IsProof, IsProvedAt};
ghost use Rattle.claim_findings.specs.Joined.{IsLineFound};

use crate::findings::Finding;
use crate::searchers::Searchers;
use crate::subjects::Subject;
use line_claims::{Due, LineClaim, parts_bar_no_move, parts_make_lines_hold};
use query_base::{Claim, target};
use retro_search::{Limits, Outcome, deeper_searches_refute_more};
use std::alloc::AllocError;

/// Searches for a refutation of the claim's target within these limits. This alone asks the searches.
pub fn search_at(
    searchers: &mut Searchers,
    subject: &Subject,
    claim: &Claim,
) -> Result<Outcome, AllocError>
    ensures { IfOk result (IsOutcome subject.now.query claim.now subject.now.limits.depth subject.now.limits.nodes) }
{
    match searchers.refute(&target(&subject.query, claim), subject.limits) {
        Ok(outcome) => Ok(outcome),
        Err(_) => Err(AllocError),
    }
}

/// The least depth at which the search proves a claim that is proved at `depth`.
fn least_depth(
    searchers: &mut Searchers,
    subject: &Subject,
    claim: &Claim,
    depth: u8,
) -> Result<u8, AllocError>
    requires proved { IsProvedAt subject.now.query claim.now subject.now.limits.depth depth }
    ensures { IfOk result (IsProof subject.now.query claim.now subject.now.limits.depth subject.now.limits.nodes) }
{
    deeper_searches_refute_more();
    let mut least = depth;
    while least > 0 {
        let nearer = Subject {
            query: subject.query,
            limits: Limits {
                depth: least - 1,
                nodes: subject.limits.nodes,
            },
        };
        let outcome = search_at(searchers, &nearer, claim)?;
        match outcome {
            Outcome::Refuted { height } => least = height,
            Outcome::Open => return Ok(least),
            Outcome::Spent => return Ok(least),
        }
    }
    Ok(least)
}

/// What is found of the claim, by searches within these limits. The search at the greatest depth comes first: if it leaves the claim
/// open, no lower depth proves it.
pub fn seek(
    searchers: &mut Searchers,
    subject: &Subject,
    claim: &Claim,
) -> Result<Finding, AllocError>
    ensures found { IfOk result
        (IsFound subject.now.query claim.now subject.now.limits.depth subject.now.limits.nodes) }
    ensures unlooked { IfOk result (λ finding. finding ≢ Finding.Countered) }
{
    deeper_searches_refute_more();
    searchers.allow_large();
    let outcome = search_at(searchers, subject, claim)?;
    match outcome {
        Outcome::Refuted { height } => {
            let depth = least_depth(searchers, subject, claim, height)?;
            Ok(Finding::Proved(depth))
        }
        Outcome::Open => Ok(Finding::Open),
        Outcome::Spent => Ok(Finding::Spent),
    }
}

/// How many moves a proof takes back that is found by searching further for sketches, if one is.
pub(crate) fn prove_further(
    searchers: &Searchers,
    subject: &Subject,
    claim: &Claim,
) -> Result<Option<u8>, AllocError>
    ensures { IfOk result
        (λ depth. IfSome depth (IsProvedAt subject.now.query claim.now subject.now.limits.depth)) }
{
    match searchers.refute_further(&target(&subject.query, claim), subject.limits) {
        Ok(Outcome::Refuted { height }) => Ok(Some(height)),
        Ok(Outcome::Open | Outcome::Spent) => Ok(None),
        Err(_) => Err(AllocError),
    }
}

/// What is found of a claim of several steps: of all its parts due together.
pub fn seek_line(
    searchers: &mut Searchers,
    subject: &Subject,
    claim: &LineClaim,
) -> Result<Finding, AllocError>
    requires parts { HasParts claim.now subject.now.query }
    ensures { IfOk result (IsLineFound subject.now.query claim.now subject.now.limits.depth subject.now.limits.nodes) }
{
    parts_make_lines_hold();
    parts_bar_no_move();
    let mut finding = Finding::Proved(0);
    let mut due = Due::new(&subject.query, claim);
    while let Some((claimed, query)) = due.next() {
        let asked = Subject {
            query,
            limits: subject.limits,
        };
        let part = seek(searchers, &asked, &claimed)?;
        finding = finding.joined(part);
    }
    Ok(finding)
}
