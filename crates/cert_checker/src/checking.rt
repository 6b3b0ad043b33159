ghost use Rattle.std.specs.Prelude.{◌≤◌, IfErr, IfOk, IfSome, length};
ghost use Rattle.query_base.specs.Reach.{Holds};
ghost use Rattle.cert_text.specs.Certificate.{IsTextOf};
ghost use Rattle.cert_text.specs.Lines.{cut};
ghost use Rattle.cert_text.specs.SeenCert.{cert_of};
ghost use Rattle.cert_checker.specs.Answers.{Answers, answered, refused_as};
ghost use Rattle.cert_checker.specs.Proving.{ProvesClaim};
ghost use Rattle.retro_ports.specs.declared.piecewise.TheConstants.{MOST_BYTES};

use crate::laws::certificates_prove;
use crate::refusals::{Accepted, Refused};
use crate::walking::check_node;
use cert_text::{Cert, CertFault, read_cert, root_line_of};
use query_base::target;
use std::alloc::Global;

/// The certificate whose text these bytes are, at most 67,108,864 of them, if it proves its claim. `BadText` comes exactly if they are no
/// certificate's text. `Unlisted` and `Unsupported` come in all other cases, with the first fault that the walk of the certificate in
/// preorder meets. `Memory` may take the place of each of these.
pub fn read_proof(alloc: Global, bytes: &[u8]) -> Result<Cert, Refused>
    requires { length bytes.now ≤ MOST_BYTES }
    ensures text { IfOk result (λ cert. IsTextOf bytes.now (cert_of cert)) }
    ensures proves { IfOk result (λ cert. ProvesClaim (cert_of cert)) }
    ensures refused { IfErr result (λ why. IfSome (refused_as why) (Answers (cut bytes.now))) }
{
    let cert = match read_cert(alloc, bytes) {
        Ok(cert) => cert,
        Err(CertFault::BadText { line }) => return Err(Refused::BadText { line }),
        Err(CertFault::Memory) => return Err(Refused::Memory),
    };
    let mut ancestors = Vec::new(alloc);
    match check_node(
        &target(&cert.query, &cert.claim),
        &cert.root,
        &mut ancestors,
        root_line_of(&cert.query),
    ) {
        Ok(_) => Ok(cert),
        Err(fault) => Err(fault),
    }
}

/// Checks the certificate whose text these bytes are, at most 67,108,864 of them. `Ok` comes if and only if they are the text of a
/// certificate that proves its claim, with that claim and its query. `BadText` comes if and only if they are no certificate's text.
/// `Unlisted` and `Unsupported` come in all other cases, with the first fault that the walk of the certificate in preorder meets.
/// Want of memory is a free answer: `Memory` may take the place of each of these.
pub fn check_bytes(alloc: Global, bytes: &[u8]) -> Result<Accepted, Refused>
    requires { length bytes.now ≤ MOST_BYTES }

    // The answer is that of the grammar and the walk, unless memory runs out.
    ensures answer { IfSome (answered result) (Answers (cut bytes.now)) }

    // No game, of any length, contradicts a claim that is accepted.
    ensures holds { IfOk result (λ a. Holds a.claim a.query) }
{
    certificates_prove();
    let cert = read_proof(alloc, bytes)?;
    Ok(Accepted {
        claim: cert.claim,
        query: cert.query,
    })
}
