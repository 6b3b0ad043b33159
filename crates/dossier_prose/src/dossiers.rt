//! A dossier in words.

ghost use Rattle.std.specs.Prelude.{◌≡◌, IfOk, map};
ghost use Rattle.std.specs.List.{All};
ghost use Rattle.cert_checker.specs.Proving.{ProvesClaim};
ghost use Rattle.cert_text.specs.SeenCert.{cert_of};
ghost use Rattle.dossier_prose.specs.Parts.{ExplainsDossier};
ghost use Rattle.line_claims.specs.Listing.{HasParts};

use crate::claims::{push_closing, push_opening};
use crate::parts::push_parts;
use dossier_checker::ProvedLine;
use std::alloc::{AllocError, Global};

/// A claim of several steps with its proofs in plain words: the diagram and the claim, each part with its proof, and the claim again.
pub fn explain_dossier(alloc: Global, line: &ProvedLine) -> Result<Vec<u8>, AllocError>
    requires listed { HasParts line.now.claim line.now.query }
    requires proves { All ProvesClaim (map cert_of line.now.proofs.items) }
    ensures { IfOk result (λ text. ExplainsDossier line.now.claim line.now.query (map cert_of line.now.proofs.items) text.items) }
{
    let mut out = Vec::new(alloc);
    push_opening(alloc, &line.claim, &line.query, &mut out)?;
    push_parts(
        alloc,
        &line.claim,
        &line.query,
        line.proofs.as_slice(),
        &mut out,
    )?;
    push_closing(alloc, &line.claim, &line.query, &mut out)?;
    Ok(out)
}
