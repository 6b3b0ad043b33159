ghost use Rattle.std.specs.Prelude.{ℕ, List, ◌≡◌, ◌<◌, ◌≤◌, ◌^◌, ◌++◌, IfOk, OnOk, true};
ghost use Rattle.std.specs.List.{concat};
ghost use Rattle.sketch_text.specs.Heads.{Head};
ghost use Rattle.cert_text.specs.Certificate.{AreLinesOf, Certificate as AnyCertificate, HasText, IsTextOf, body_of};
ghost use Rattle.cert_text.specs.Lines.{cut, ended};
ghost use Rattle.cert_text.specs.Seen.{tree_of};
ghost use Rattle.cert_text.specs.SeenCert.{cert_of};
ghost use Rattle.cert_text.specs.Texts.{IsBadAt};
ghost use Rattle.cert_text.specs.Writable.{all_fit, fits};
ghost use Rattle.cert_text.specs.NodeLines.{labelled_text};
ghost use Rattle.cert_text.specs.Written.{IsLabel, lines_below, lines_of};

use crate::certificates::Cert;
use crate::head_writing::write_head;
use crate::line_writing::push_line;
use crate::node_lines::{BodyLine, NodeLine};
use crate::nodes::{Body, Kids, Node};
use crate::sketch_writing::push_sketch;
use arrayvec::ArrayVec;
use board_base::{Memory, Unmove};
use std::alloc::{AllocError, Global};

/// Puts the text after the others, with a line end.
pub(crate) fn push_ended(text: &[u8], out: &mut Vec<u8>) -> Result<(), AllocError>
    ensures { OnOk result (out.new.items ≡ out.old.items ++ ended text.now) }
{
    out.extend_from_slice(text)?;
    out.push(b'\n')?;
    Ok(())
}

/// What the own line of a node says of it. The node has fewer than 2^32 children, or its sketch at most 64 lines of prices.
pub fn body_line(node: &Node) -> BodyLine
    requires children { (n : ℕ) → body_of (tree_of node.now) ≡ BodyLine.Expand n → n < 2 ^ 32 }
    requires prices { (h : Head) → body_of (tree_of node.now) ≡ BodyLine.Sketch h → h.prices ≤ 64 }
    ensures { result ≡ body_of (tree_of node.now) }
{
    match &node.body {
        Body::Rule(rule) => BodyLine::Rule(*rule),
        Body::Back(steps) => BodyLine::Back(*steps),
        Body::Expand(kids) => BodyLine::Expand(kids.len() as u32),
        Body::Sketch(body) => BodyLine::Sketch(body.head()),
    }
}

/// Puts the own line of a node after the others.
fn push_own(label: Option<Unmove>, node: &Node, out: &mut Vec<u8>) -> Result<(), AllocError>
    requires label { IsLabel label }
    requires fits { (depth : ℕ) × (fits depth (tree_of node.now) ≡ true) }
    ensures { OnOk result (out.new.items ≡ out.old.items ++ ended (labelled_text label (body_of (tree_of node.now)))) }
{
    let mut text: ArrayVec<u8, 256> = ArrayVec::new();
    let body = body_line(node);
    push_line(&NodeLine { label, body }, &mut text);
    push_ended(text.as_slice(), out)
}

/// Puts the lines that follow the own line of a node after the others.
#[cycle(writing)]
fn push_below(node: &Node, out: &mut Vec<u8>) -> Result<(), AllocError>
    requires { (depth : ℕ) × (fits depth (tree_of node.now) ≡ true) }
    ensures { OnOk result (out.new.items ≡ out.old.items ++ concat (lines_below (tree_of node.now))) }
{
    match &node.body {
        Body::Rule(_) | Body::Back(_) => Ok(()),
        Body::Expand(kids) => push_kids(kids, out),
        Body::Sketch(body) => push_sketch(body, out),
    }
}

/// Puts the lines of the children, one child after another, after the others.
#[cycle(writing)]
fn push_kids(kids: &Kids, out: &mut Vec<u8>) -> Result<(), AllocError>
    requires { (depth : ℕ) × (all_fit depth kids.now ≡ true) }
    ensures { OnOk result (out.new.items ≡ out.old.items ++ concat (lines_of kids.now)) }
{
    for i in 0..kids.len() {
        let kid = kids.get(i).unwrap();
        push_own(Some(kid.label), &kid.node, out)?;
        push_below(&kid.node, out)?;
    }
    Ok(())
}

/// The one text of the certificate, line after line.
fn text_of(alloc: Global, cert: &Cert) -> Result<Vec<u8>, AllocError>
    requires { HasText (cert_of cert.now) }
    ensures { IfOk result (λ text. IsTextOf text.items (cert_of cert.now)) }
{
    let mut head: ArrayVec<u8, 512> = ArrayVec::new();
    write_head(&cert.claim, &cert.query, &mut head);
    let mut out = Vec::new(alloc);
    out.extend_from_slice(head.as_slice())?;
    push_own(None, &cert.root, &mut out)?;
    push_below(&cert.root, &mut out)?;
    Ok(out)
}

/// Writes the one text of the certificate, for which there is one, as `fits_format` tells: in format 1 if its query is at no
/// odds and demands no clock, and else in format 2. `read_cert` reads it as this certificate: it stands for no other, and goes bad
/// at no line. Want of memory is a free answer: `Err` may take the place of the text.
pub fn write_cert(alloc: Global, cert: &Cert) -> Result<Vec<u8>, Memory>
    requires { HasText (cert_of cert.now) }
    ensures text { IfOk result (λ text. IsTextOf text.items (cert_of cert.now)) }
    ensures alone { IfOk result (λ text. (other : List ℕ) → IsTextOf other (cert_of cert.now) → other ≡ text.items) }
    ensures read { IfOk result (λ text. (other : AnyCertificate) → IsTextOf text.items other → other ≡ cert_of cert.now) }
    ensures good { IfOk result (λ text. (n : ℕ) → IsBadAt AreLinesOf (cut text.items) n → ⊥) }
{
    match text_of(alloc, cert) {
        Ok(text) => Ok(text),
        Err(_) => Err(Memory),
    }
}
