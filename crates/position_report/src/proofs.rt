//! Proofs of what is shown.

ghost use Rattle.std.specs.Prelude.{List, ℕ, ◌≡◌, ◌+◌, ◌<◌, ◌^◌, ◌++◌, [], IfOk, MatchOption, None, codes, cond, length, nat_lt};
ghost use Rattle.std.specs.List.{All};
ghost use Rattle.cert_text.specs.SeenCert.{cert_of};
ghost use Rattle.claim_search.specs.Answers.{IsProofOf, IsProved};
ghost use Rattle.diagram_study.specs.Proving.{ProvesClaim};
ghost use Rattle.claim_search.specs.Found.TheVariants as found;
ghost use Rattle.position_report.specs.Proofs.{IsUntold, TellsCertificate, TellsProof, TellsProofs, aim_text, title_text};

use crate::checking::push_check;
use crate::shown::{Pair, Shown};
use cert_text::Cert;
use claim_search::{Found as Answer, Limits, settle};
use proof_prose::{explain, retell};
use prose_words::{push_number, say};
use query_base::Query;
use std::alloc::{AllocError, Global};
use verdict_prose::{Verdict, tell_verdict};

/// The certificate, if the answer is one.
fn certificate_in(answer: Answer) -> Option<Cert>
    ensures { MatchOption result (IsProved answer → ⊥) (λ cert. answer ≡ found.Proved cert) }
{
    match answer {
        Answer::Proved(cert) => Some(cert),
        Answer::Undecided(_) => None,
        Answer::Countered(_) => None,
        Answer::Spent { .. } => None,
    }
}

/// The certificate of a claim, if `settle` comes to one within the limits.
fn certificate_of(alloc: Global, limits: Limits, shown: &Shown) -> Result<Option<Cert>, AllocError>
    requires { shown.now.query.barred ≡ None }
    ensures { IfOk result (λ cert. MatchOption cert (IsUntold limits.depth limits.nodes shown.now)
        (λ known. IsProofOf limits.depth (cert_of known) shown.now.claim shown.now.query)) }
{
    match settle(alloc, &shown.query, &shown.claim, limits) {
        Ok(answer) => Ok(certificate_in(answer)),
        Err(_) => Err(AllocError),
    }
}

/// Adds an empty line before each proof but the first.
fn push_gap(number: usize, out: &mut Vec<u8>) -> Result<(), AllocError>
    ensures { IfOk result (λ _. out.new.items ≡ out.old.items ++ cond (nat_lt 1 number) (codes "\n") []) }
{
    if number > 1 { say(b"\n", out) } else { Ok(()) }
}

/// Adds what stands before a proof.
fn push_title(number: usize, out: &mut Vec<u8>) -> Result<(), AllocError>
    ensures { IfOk result (λ _. out.new.items ≡ out.old.items ++ title_text number) }
{
    push_gap(number, out)?;
    say(b"Proof ", out)?;
    push_number(number, out)?;
    say(b"\n", out)
}

/// Adds what a proof is for, if it shows that at least one of two castlings is lost.
fn push_aim(
    alloc: Global,
    query: &Query,
    pair: &Option<Pair>,
    out: &mut Vec<u8>,
) -> Result<(), AllocError>
    ensures { IfOk result (λ _. out.new.items ≡ out.old.items ++ aim_text query.now pair.now) }
{
    let Some(pair) = pair else {
        return Ok(());
    };
    tell_verdict(
        alloc,
        query,
        &Verdict::NotBoth(pair.first, pair.second),
        out,
    )?;
    say(b"If both are held, no game leads to this diagram:\n", out)
}

/// The proof of a certificate in words, behind the diagram and what is given if that is to be drawn.
fn words_of(alloc: Global, cert: &Cert, drawn: bool) -> Result<Vec<u8>, AllocError>
    requires { ProvesClaim (cert_of cert.now) }
    ensures { IfOk result (λ text. TellsCertificate drawn (cert_of cert.now) text.items) }
{
    if drawn {
        explain(alloc, cert)
    } else {
        retell(alloc, cert)
    }
}

/// Adds a numbered proof, by a certificate that proves its claim.
fn push_proof(
    alloc: Global,
    limits: Limits,
    number: usize,
    shown: &Shown,
    cert: &Cert,
    out: &mut Vec<u8>,
) -> Result<(), AllocError>
    requires plain { shown.now.query.barred ≡ None }
    requires proof { IsProofOf limits.depth (cert_of cert.now) shown.now.claim shown.now.query }
    ensures { IfOk result (λ _. (own : List ℕ) × TellsProof limits.depth limits.nodes number shown.now own × (out.new.items ≡ out.old.items ++ own)) }
{
    let text = words_of(alloc, cert, shown.pair.is_some())?;
    push_title(number, out)?;
    push_aim(alloc, &shown.query, &shown.pair, out)?;
    say(text.as_slice(), out)?;
    push_check(limits, shown, out)
}

/// Adds the proofs of these claims, numbered from this number on, of each to whose certificate `settle` comes within the limits.
pub(crate) fn push_proofs(
    alloc: Global,
    limits: Limits,
    number: usize,
    all: &[Shown],
    out: &mut Vec<u8>,
) -> Result<(), AllocError>
    requires room { number + length all.now < 2 ^ 64 }
    requires plain { All (λ s. s.query.barred ≡ None) all.now }
    ensures { IfOk result (λ _. (own : List ℕ) × TellsProofs limits.depth limits.nodes number all.now own × (out.new.items ≡ out.old.items ++ own)) }
{
    match all {
        [] => Ok(()),
        [shown, others @ ..] => match certificate_of(alloc, limits, shown)? {
            None => push_proofs(alloc, limits, number, others, out),
            Some(cert) => {
                push_proof(alloc, limits, number, shown, &cert, out)?;
                push_proofs(alloc, limits, number + 1, others, out)
            }
        },
    }
}
