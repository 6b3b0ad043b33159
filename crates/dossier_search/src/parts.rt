ghost use Rattle.std.specs.Prelude.{◌≡◌, ◌≤◌, IfOk, IfSome, IsTrue, None, length};
ghost use Rattle.cert_text.specs.Certificate.{HasText, IsTextOf};
ghost use Rattle.cert_text.specs.ClaimLines.{promotes_well};
ghost use Rattle.cert_text.specs.SeenCert.{cert_of};
ghost use Rattle.retro_search.specs.Answers.{IsShort};
ghost use Rattle.retro_search.specs.declared.runs.Reasons.TheVariants.{All};
ghost use Rattle.dossier_search.specs.ReachedParts.{IsPartDear, IsPartOpen, IsPartPriced, IsPartSketched};
ghost use Rattle.dossier_search.specs.PartAnswers.{IfDear, IfOpen, IfProof, IsPartProof, IsPartText};

use board_base::Memory;
use cert_text::{Cert, write_cert};
use query_base::{Claim, Query};
use retro_search::{Found, LARGE, Limits, Reasons, SMALL, Searcher, SketchLimits, solve};
use std::alloc::Global;

/// How many small searches for a sketch may find nothing.
const SMALL_FAILURES: u32 = 100;

/// How many large ones may.
const LARGE_FAILURES: u32 = 10;

/// What the search of one part comes to.
#[derive(Drop)]
pub(crate) enum PartAnswer {
    /// The text of a certificate that proves it.
    Proved(Vec<u8>),
    /// Rule lines don't refute its target at the depth, and neither prices nor sketches were found.
    Open,
    /// To prove it by rule lines more queries would have to be visited than were allowed, and neither prices nor sketches were found.
    Dear,
}

/// The text of a certificate, which may stand in a dossier.
fn cert_bytes(alloc: Global, cert: &Cert) -> Result<Vec<u8>, Memory>
    requires text { HasText (cert_of cert.now) }
    requires short { IsShort (cert_of cert.now) }
    ensures text { IfOk result (λ text. IsTextOf text.items (cert_of cert.now)) }
    ensures some { IfOk result (λ text. 1 ≤ length text.items) }
    ensures few { IfOk result (λ text. length text.items ≤ 67108864) }
{
    let text = write_cert(alloc, cert)?;
    Ok(text)
}

/// Searches for a certificate of the part with sketches, within these limits.
fn solve_with(
    alloc: Global,
    searcher: &mut Searcher,
    query: &Query,
    claim: &Claim,
    limits: Limits,
    sketches: SketchLimits,
    failures: u32,
) -> Result<Option<Vec<u8>>, Memory>
    requires unbarred { query.now.barred ≡ None }
    requires promotion { IsTrue (promotes_well claim.now) }
    requires all { searcher.old ≡ All }
    requires some_failures { 1 ≤ failures }
    ensures proof { IfOk result (λ found. IfSome found (λ text. IsPartText limits.depth text.items (claim.now, query.now))) }
    ensures unsketched { IfOk result (λ found. found ≡ None → IsPartSketched (claim.now, query.now) → ⊥) }
    ensures reasons { searcher.new ≡ searcher.old }
{
    match searcher.settle_with_sketches(query, claim, limits, sketches, failures)? {
        Found::Proved(cert) => Ok(Some(cert_bytes(alloc, &cert)?)),
        Found::Undecided(_) | Found::Countered(_) | Found::Spent { .. } => Ok(None),
    }
}

/// The same, first with small ones and then with large ones.
fn solve_by_sketches(
    alloc: Global,
    searcher: &mut Searcher,
    query: &Query,
    claim: &Claim,
    limits: Limits,
) -> Result<Option<Vec<u8>>, Memory>
    requires unbarred { query.now.barred ≡ None }
    requires promotion { IsTrue (promotes_well claim.now) }
    requires all { searcher.old ≡ All }
    ensures proof { IfOk result (λ found. IfSome found (λ text. IsPartText limits.depth text.items (claim.now, query.now))) }
    ensures unsketched { IfOk result (λ found. found ≡ None → IsPartSketched (claim.now, query.now) → ⊥) }
{
    let small = solve_with(alloc, searcher, query, claim, limits, SMALL, SMALL_FAILURES)?;
    if small.is_some() {
        return Ok(small);
    }
    solve_with(alloc, searcher, query, claim, limits, LARGE, LARGE_FAILURES)
}

/// Searches for a certificate of the part by all reasons within these limits, with sketches only if it stays open without. None comes only
/// if flat prices don't support its target, and one node of a sketch doesn't refute it.
fn solve_by_all(
    alloc: Global,
    query: &Query,
    claim: &Claim,
    limits: Limits,
) -> Result<Option<Vec<u8>>, Memory>
    requires unbarred { query.now.barred ≡ None }
    requires promotion { IsTrue (promotes_well claim.now) }
    ensures proof { IfOk result (λ found. IfSome found (λ text. IsPartText limits.depth text.items (claim.now, query.now))) }
    ensures unpriced { IfOk result (λ found. found ≡ None → IsPartPriced (claim.now, query.now) → ⊥) }
    ensures unsketched { IfOk result (λ found. found ≡ None → IsPartSketched (claim.now, query.now) → ⊥) }
{
    let mut searcher = Searcher::new(alloc, Reasons::All);
    match searcher.settle(query, claim, limits)? {
        Found::Proved(cert) => Ok(Some(cert_bytes(alloc, &cert)?)),
        Found::Countered(_) => Ok(None),
        Found::Undecided(_) | Found::Spent { .. } => {
            let found = solve_by_sketches(alloc, &mut searcher, query, claim, limits)?;
            Ok(found)
        }
    }
}

/// Searches for a certificate of the part, which claims this about the query, within the whole limits: by rule lines; if these leave
/// it open, by all reasons; and if it is too dear for them, by all reasons without taking anything back.
pub(crate) fn solve_part(
    alloc: Global,
    query: &Query,
    claim: &Claim,
    limits: Limits,
) -> Result<PartAnswer, Memory>
    requires unbarred { query.now.barred ≡ None }
    requires promotion { IsTrue (promotes_well claim.now) }
    ensures proof { IfOk result (λ part. IfProof part (λ text. IsPartProof limits.depth limits.nodes text.items (claim.now, query.now))) }
    ensures open { IfOk result (λ part. IfOpen part (IsPartOpen limits.depth (claim.now, query.now))) }
    ensures dear { IfOk result (λ part. IfDear part (IsPartDear limits.depth limits.nodes (claim.now, query.now))) }
{
    match solve(alloc, query, claim, limits.depth, limits.nodes)? {
        Found::Proved(cert) => Ok(PartAnswer::Proved(cert_bytes(alloc, &cert)?)),
        Found::Undecided(_) | Found::Countered(_) => {
            match solve_by_all(alloc, query, claim, limits)? {
                Some(text) => Ok(PartAnswer::Proved(text)),
                None => Ok(PartAnswer::Open),
            }
        }
        Found::Spent { .. } => {
            let nodes = limits.nodes;
            match solve_by_all(alloc, query, claim, Limits { depth: 0, nodes })? {
                Some(text) => Ok(PartAnswer::Proved(text)),
                None => Ok(PartAnswer::Dear),
            }
        }
    }
}
