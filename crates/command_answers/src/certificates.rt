//! The text of a certificate, written line by line in no memory.

ghost use Rattle.std.specs.Prelude.{◌≡◌, IsTrue, None, OnErr, OnOk};
ghost use Rattle.std.specs.Io.KnownBytes.{Appends};
ghost use Rattle.std.specs.List.{concat};
ghost use Rattle.cert_text.specs.Certificate.{HasText, body_of};
ghost use Rattle.cert_text.specs.ClaimLines.{promotes_well};
ghost use Rattle.cert_text.specs.Lines.{ended};
ghost use Rattle.cert_text.specs.NodeLines.{IsLine, labelled_text};
ghost use Rattle.cert_text.specs.Seen.{tree_of};
ghost use Rattle.cert_text.specs.SeenCert.{cert_of};
ghost use Rattle.cert_text.specs.Written.{cert_lines, head_lines, lines_below, lines_of};
ghost use Rattle.retro_ports.specs.Causes.{HasCause};
ghost use Rattle.retro_ports.specs.Ends.{TakesPrefix};
ghost use Rattle.command_answers.specs.Told.{HaveLines, HasLinesBelow};

use crate::sketches::write_sketch;
use arrayvec::ArrayVec;
use board_base::Unmove;
use cert_text::{Body, Cert, Kids, Node, NodeLine, body_line, write_head, write_line};
use query_base::{Claim, Query};
use retro_ports::{Failed, Sink, write_all};

/// The lines of the head: the format, the claim, the odds and the clock if these are demanded, and the FEN.
fn head_text(claim: &Claim, query: &Query) -> ArrayVec<u8, 512>
    requires promotion { IsTrue (promotes_well claim.now) }
    requires plain { query.now.barred ≡ None }
    ensures { result.items ≡ concat (head_lines claim.now query.now) }
{
    let mut head: ArrayVec<u8, 512> = ArrayVec::new();
    write_head(claim, query, &mut head);
    head
}

/// The own line of a node with this label.
fn own_line(label: Option<Unmove>, node: &Node) -> ArrayVec<u8, 256>
    requires { IsLine (record { label = label; body = body_of (tree_of node.now) }) }
    ensures { result.items ≡ ended (labelled_text label (body_of (tree_of node.now))) }
{
    let body = body_line(node);
    let mut line: ArrayVec<u8, 256> = ArrayVec::new();
    write_line(&NodeLine { label, body }, &mut line);
    line.push(b'\n');
    line
}

/// Writes the lines that follow the own line of a node.
#[cycle(writing)]
fn write_below<K: Sink>(sink: &mut K, node: &Node) -> Result<(), Failed>
    requires { HasLinesBelow (tree_of node.now) }
    ensures ok { OnOk result (Appends (K.taken sink.old) (K.taken sink.new) (concat (lines_below (tree_of node.now)))) }
    ensures failed { OnErr result (TakesPrefix (K.taken sink.old) (K.taken sink.new) (concat (lines_below (tree_of node.now)))) }
    ensures cause { HasCause (K.faults sink.old) (K.faults sink.new) result }
{
    match &node.body {
        Body::Rule(_) | Body::Back(_) => Ok(()),
        Body::Expand(kids) => write_kids(sink, kids),
        Body::Sketch(sketch) => write_sketch(sink, sketch),
    }
}

/// Writes the lines of the children, one child after another.
#[cycle(writing)]
fn write_kids<K: Sink>(sink: &mut K, kids: &Kids) -> Result<(), Failed>
    requires { HaveLines kids.now }
    ensures ok { OnOk result (Appends (K.taken sink.old) (K.taken sink.new) (concat (lines_of kids.now))) }
    ensures failed { OnErr result (TakesPrefix (K.taken sink.old) (K.taken sink.new) (concat (lines_of kids.now))) }
    ensures cause { HasCause (K.faults sink.old) (K.faults sink.new) result }
{
    for i in 0..kids.len() {
        let kid = kids.get(i).unwrap();
        write_all(sink, own_line(Some(kid.label), &kid.node).as_slice())?;
        write_below(sink, &kid.node)?;
    }
    Ok(())
}

/// Writes the one text of the certificate, for which there is one, line by line. `Failed` comes at the first write that fails, after a
/// part of the text, from its front on, was taken. Takes no memory.
pub fn write_certificate<K: Sink>(sink: &mut K, cert: &Cert) -> Result<(), Failed>
    requires { HasText (cert_of cert.now) }
    ensures ok { OnOk result (Appends (K.taken sink.old) (K.taken sink.new) (concat (cert_lines (cert_of cert.now)))) }
    ensures failed { OnErr result (TakesPrefix (K.taken sink.old) (K.taken sink.new) (concat (cert_lines (cert_of cert.now)))) }
    ensures cause { HasCause (K.faults sink.old) (K.faults sink.new) result }
{
    write_all(sink, head_text(&cert.claim, &cert.query).as_slice())?;
    write_all(sink, own_line(None, &cert.root).as_slice())?;
    write_below(sink, &cert.root)
}
