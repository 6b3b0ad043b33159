ghost use Rattle.std.specs.Prelude.{◌≡◌, ◌≤◌, ◌↔◌, IfOk, IsTrue, MatchOption, MatchResult, length, map};
ghost use Rattle.std.specs.List.{All};
ghost use Rattle.cert_checker.specs.Proving.{ProvesClaim};
ghost use Rattle.cert_text.specs.SeenCert.{cert_of};
ghost use Rattle.dossier_text.specs.Dossiers.{BeginsWithPart, HasNoPart};
ghost use Rattle.line_claims.specs.Holding.{HoldsLine};
ghost use Rattle.line_claims.specs.Listing.{HasParts};
ghost use Rattle.dossier_checker.specs.ReadingParts.{PartReads, PartsRead};
ghost use Rattle.dossier_checker.specs.WholeDossiers.{ReadsDossier};
ghost use Rattle.retro_ports.specs.declared.piecewise.TheConstants.{MOST_BYTES};

use crate::parts::{is_same_claim, is_same_query};
use crate::refusals::DossierRefused;
use cert_checker::{Refused, read_proof};
use cert_text::{Cert, first_line};
use dossier_text::{DossierHead, dossiers_prove, read_count_line, read_head};
use line_claims::{Due, LineClaim, unlisted_step};
use query_base::{Claim, Query};
use std::alloc::{AllocError, Global};

/// A claim of several steps with its proofs.
#[derive(Drop)]
pub struct ProvedLine {
    /// The claim.
    pub claim: LineClaim,
    /// The query that it is about.
    pub query: Query,
    /// A certificate for each part due, in their order.
    pub proofs: Vec<Cert>,
}

/// The part with which bytes begin.
#[derive(Drop)]
struct PartText<'a> {
    bytes: &'a [u8],
    /// What follows it.
    rest: &'a [u8],
}

/// The part with which the bytes begin. None comes exactly if they begin with no part.
fn first_part(bytes: &[u8]) -> Option<PartText<'_>>
    ensures { MatchOption result (HasNoPart bytes.now) (λ p. BeginsWithPart bytes.now p.bytes.now p.rest.now) }
{
    let Some((line, others)) = first_line(bytes) else {
        return None;
    };
    let Some(count) = read_count_line(line) else {
        return None;
    };
    let count = count as usize;
    if others.len() < count {
        return None;
    }
    let (part, rest) = others.split_at(count);
    Some(PartText { bytes: part, rest })
}

/// Whether the certificate is of the part that is due: of the same claim about the same query.
fn is_of(cert: &Cert, due: &(Claim, Query)) -> bool
    ensures { IsTrue result ↔ (((cert_of cert.now).claim, (cert_of cert.now).query) ≡ due.now) }
{
    is_same_claim(&cert.claim, &due.0) && is_same_query(&cert.query, &due.1)
}

/// The certificate, if it is of the part that is due.
fn if_due(cert: Cert, due: &(Claim, Query), part: u32) -> Result<Cert, DossierRefused>
    requires { ProvesClaim (cert_of cert) }
    ensures { MatchResult result (λ kept. (kept ≡ cert) × (((cert_of cert).claim, (cert_of cert).query) ≡ due.now)) (λ r. (r ≡ DossierRefused.Other part) × ((((cert_of cert).claim, (cert_of cert).query) ≡ due.now) → ⊥)) }
{
    if is_of(&cert, due) {
        Ok(cert)
    } else {
        Err(DossierRefused::Other { part })
    }
}

/// The certificate whose text these bytes of the part with this number are, if it proves what is due; otherwise why it doesn't.
fn proof_of(
    alloc: Global,
    bytes: &[u8],
    due: &(Claim, Query),
    part: u32,
) -> Result<Result<Cert, DossierRefused>, AllocError>
    requires { length bytes.now ≤ MOST_BYTES }
    ensures { IfOk result (λ read. PartReads bytes.now due.now part read) }
{
    match read_proof(alloc, bytes) {
        Ok(cert) => Ok(if_due(cert, due, part)),
        Err(Refused::BadText { line }) => Ok(Err(DossierRefused::BadText { part, line })),
        Err(Refused::Unlisted { line, unmove }) => {
            Ok(Err(DossierRefused::Unlisted { part, line, unmove }))
        }
        Err(Refused::Unsupported { line, why }) => {
            Ok(Err(DossierRefused::Unsupported { part, line, why }))
        }
        Err(Refused::Memory) => Err(AllocError),
    }
}

/// The certificates of the parts due, whose texts follow one another in the bytes; otherwise the first fault.
fn read_parts(
    alloc: Global,
    claim: &LineClaim,
    query: &Query,
    bytes: &[u8],
) -> Result<Result<Vec<Cert>, DossierRefused>, AllocError>
    requires listed { HasParts claim.now query.now }
    requires short { length bytes.now ≤ MOST_BYTES }
    ensures { IfOk result (λ read. PartsRead claim.now query.now bytes.now read) }
{
    let mut due = Due::new(query, claim);
    let mut proofs = Vec::new(alloc);
    let mut rest = bytes;
    let mut number: u32 = 1;
    while let Some(part) = due.next() {
        let Some(text) = first_part(rest) else {
            return Ok(Err(DossierRefused::NoPart { part: number }));
        };
        match proof_of(alloc, text.bytes, &part, number)? {
            Ok(proof) => proofs.push(proof)?,
            Err(refused) => return Ok(Err(refused)),
        }
        rest = text.rest;
        number += 1;
    }
    if rest.is_empty() {
        Ok(Ok(proofs))
    } else {
        Ok(Err(DossierRefused::NoPart { part: number }))
    }
}

/// The dossier whose text these bytes are, at most 67,108,864 of them, with a certificate for each part, if it proves its claim.
/// Otherwise the refusal with which `check_dossier` answers a source of these bytes. `Err` comes only if memory runs out.
pub fn read_dossier(
    alloc: Global,
    bytes: &[u8],
) -> Result<Result<ProvedLine, DossierRefused>, AllocError>
    requires { length bytes.now ≤ MOST_BYTES }

    // The bytes are a dossier of this claim about this query, with these certificates; or this is the answer to them.
    ensures read { IfOk result (λ read. ReadsDossier bytes.now read) }

    // The parts due are defined, and each certificate proves its claim.
    ensures listed { IfOk result (λ read. IfOk read (λ line. HasParts line.claim line.query)) }
    ensures proves { IfOk result (λ read. IfOk read (λ line. All ProvesClaim (map cert_of line.proofs.items))) }

    // No game, of any length, contradicts the claim.
    ensures holds { IfOk result (λ read. IfOk read (λ line. HoldsLine line.claim line.query)) }
{
    dossiers_prove();
    let Some(head) = read_head(bytes) else {
        return Ok(Err(DossierRefused::Head));
    };
    let DossierHead { claim, query, rest } = head;
    if let Some(step) = unlisted_step(&query, &claim) {
        return Ok(Err(DossierRefused::UnlistedStep { step }));
    }
    match read_parts(alloc, &claim, &query, rest)? {
        Ok(proofs) => Ok(Ok(ProvedLine {
            claim,
            query,
            proofs,
        })),
        Err(refused) => Ok(Err(refused)),
    }
}
