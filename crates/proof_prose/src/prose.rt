//! The proof of a certificate in plain words.

ghost use Rattle.std.specs.Prelude.{◌≡◌, IfOk, List, map};
ghost use Rattle.cert_checker.specs.Proving.{ProvesClaim};
ghost use Rattle.cert_text.specs.SeenCert.{cert_of};
ghost use Rattle.proof_prose.specs.Bodies.{AreSpoken};
ghost use Rattle.proof_prose.specs.Nodes.{nodes_of};
ghost use Rattle.proof_prose.specs.Prose.{Explains, Retells, TellsNodes, point_of};
ghost use Rattle.proof_prose.specs.declared.bodies.Spoken.{Spoken as ASpoken};

use crate::bodies::{Spoken, spoken_of};
use crate::heads::{draw, push_closing, push_supposition};
use crate::nodes::{copied_path, nodes_of};
use crate::paragraphs::push_paragraphs;
use cert_text::Cert;
use proof_story::{Point, copied, tell as tell_story};
use prose_words::say;
use std::alloc::{AllocError, Global};

/// The nodes for a story.
fn points_of(alloc: Global, spoken: &[Spoken]) -> Result<Vec<Point>, AllocError>
    ensures { IfOk result (λ points. points.items ≡ map point_of spoken.now) }
{
    let mut points = Vec::new(alloc);
    for s in spoken {
        points.push(Point {
            path: copied_path(alloc, &s.node.path)?,
            whence: s.node.whence,
            body: copied(alloc, s.body.text())?,
        })?;
    }
    Ok(points)
}

/// The nodes, told as a story, or one after another if there is none.
fn told_of(alloc: Global, spoken: &[Spoken]) -> Result<Vec<u8>, AllocError>
    ensures { IfOk result (λ text. TellsNodes spoken.now text.items) }
{
    let points = points_of(alloc, spoken)?;
    match tell_story(alloc, points.as_slice())? {
        Some(text) => Ok(text),
        None => {
            let mut text = Vec::new(alloc);
            push_paragraphs(alloc, spoken, &mut text)?;
            Ok(text)
        }
    }
}

/// The nodes below the claim of a certificate, in preorder.
fn told(alloc: Global, cert: &Cert) -> Result<Vec<u8>, AllocError>
    requires { ProvesClaim (cert_of cert.now) }
    ensures { IfOk result (λ text. (spoken : List ASpoken) × AreSpoken (nodes_of (cert_of cert.now)) spoken × TellsNodes spoken text.items) }
{
    let nodes = nodes_of(alloc, cert)?;
    let spoken = spoken_of(alloc, nodes)?;
    let text = told_of(alloc, spoken.as_slice())?;
    Ok(text)
}

/// The proof of a certificate in plain words, without the diagram: the claim and what is supposed, then the nodes, and the claim again.
pub fn retell(alloc: Global, cert: &Cert) -> Result<Vec<u8>, AllocError>
    requires { ProvesClaim (cert_of cert.now) }
    ensures { IfOk result (λ text. Retells (cert_of cert.now) text.items) }
{
    let nodes = told(alloc, cert)?;
    let mut out = Vec::new(alloc);
    push_supposition(&cert.claim, &cert.query, &mut out)?;
    say(nodes.as_slice(), &mut out)?;
    push_closing(&cert.claim, &cert.query, &mut out)?;
    Ok(out)
}

/// The proof of a certificate in plain words: the diagram with what is given beside it, and then what `retell` says.
pub fn explain(alloc: Global, cert: &Cert) -> Result<Vec<u8>, AllocError>
    requires { ProvesClaim (cert_of cert.now) }
    ensures { IfOk result (λ text. Explains (cert_of cert.now) text.items) }
{
    let proof = retell(alloc, cert)?;
    let mut out = Vec::new(alloc);
    draw(alloc, &cert.query, &mut out)?;
    say(proof.as_slice(), &mut out)?;
    Ok(out)
}
