ghost use Rattle.std.specs.Prelude.{◌≡◌, ◌<◌, ◌≤◌, ◌+◌, ◌∷◌, ◌^◌, IfErr, IfOk, IfSome, MatchOption, Some, length, suc, List, ℕ};
ghost use Rattle.sketch_body.specs.Bodies.{most_units};
ghost use Rattle.cert_text.specs.Seen.{tree_of};
ghost use Rattle.cert_text.specs.SeenCert.{cert_of};
ghost use Rattle.cert_text.specs.Lines.{cut, said};
ghost use Rattle.cert_text.specs.Texts.{IsBadAt, IfBadText};
ghost use Rattle.cert_text.specs.NodeLines.{kid_body};
ghost use Rattle.cert_text.specs.Reading.{AreRefused, CanStart, HasRoom, IsRefused, ReadsBelow, ReadsKids, SaysKid};
ghost use Rattle.cert_text.specs.Due.{nodes_due, refused};
ghost use Rattle.cert_text.specs.Certificate.{AreLinesOf, IsTextOf};

use crate::certificates::Cert;
use crate::faults::CertFault;
use crate::headers::read_header;
use crate::lines::{first_line, without_end};
use crate::node_lines::{BodyLine, read_kid};
use crate::nodes::{Body, Kid, Kids, Node};
use crate::sketch_reading::{can_start, read_sketch};
use board_base::Unmove;
use sketch_text::SketchHead;
use std::alloc::Global;

/// Reads the line of a node below the root, with its end: the unmove that leads to it, and its body. The depth of the root is 0.
/// None comes if and only if the line is no child's at this depth.
// A caller that only counts children so copies no label and no body.
#[tactic(auto, unfolding(crate::specs::Lines::said))]
#[inline(always)]
pub fn read_kid_line(depth: u8, line: &[u8]) -> Option<(Unmove, BodyLine)>
    ensures { result ≡ said (kid_body depth) line.now }
{
    read_kid(depth, without_end(line)?)
}

/// What the first line says of a child at this depth, and what follows it.
fn next_kid(bytes: &[u8], depth: u8) -> Option<(Unmove, BodyLine, &[u8])>
    ensures says { IfSome result (λ kid. SaysKid depth (cut bytes.now) kid.0 kid.1 (cut kid.2.now)) }
    ensures fits { IfSome result (λ kid. HasRoom depth kid.1) }
    ensures none { MatchOption result ((m n units : ℕ) (due : List ℕ) → suc (length due) ≡ depth → refused (nodes_due units (suc m ∷ due)) n (cut bytes.now) ≡ Some n) (λ kid. Unit {0}) }
{
    match first_line(bytes) {
        None => None,
        Some((line, rest)) => match read_kid_line(depth, line) {
            Some((label, body)) => Some((label, body, rest)),
            None => None,
        },
    }
}

/// A node, what follows its lines, the number of the line there, and the units of sketches up to there.
#[derive(Drop)]
struct Below<'a> {
    node: Node,
    rest: &'a [u8],
    line: u32,
    units: u32,
}

/// Children, what follows their lines, the number of the line there, and the units of sketches up to there.
#[derive(Drop)]
struct Children<'a> {
    kids: Kids,
    rest: &'a [u8],
    line: u32,
    units: u32,
}

/// The node of a sketch with this first line, whose lines below it begin the bytes.
// Its variables take much room, and most nodes are no sketches.
#[inline(never)]
fn read_sketch_below<'a>(
    alloc: Global,
    head: &SketchHead,
    units: u32,
    bytes: &'a [u8],
    line: u32,
) -> Result<Below<'a>, CertFault>
    requires starts { CanStart units (BodyLine.Sketch head.now) }
    requires room { line + length (cut bytes.now) < 2 ^ 32 }
    ensures ok { IfOk result (λ b. (depth : ℕ) → ReadsBelow (BodyLine.Sketch head.now) depth (cut bytes.now) line units (tree_of b.node) (cut b.rest.now) b.line b.units) }
    ensures bad { IfErr result (λ e. (depth : ℕ) → IfBadText e (IsRefused units (BodyLine.Sketch head.now) depth (cut bytes.now) line)) }
{
    match read_sketch(alloc, head, units, bytes, line) {
        Ok(sketched) => Ok(Below {
            node: Node {
                body: Body::Sketch(sketched.body),
            },
            rest: sketched.rest,
            line: sketched.line,
            units: sketched.units,
        }),
        Err(fault) => Err(fault),
    }
}

/// The node with this body, whose lines below its own begin the bytes.
#[cycle(reader)]
fn read_below<'a>(
    alloc: Global,
    body: &BodyLine,
    depth: u8,
    units: u32,
    bytes: &'a [u8],
    line: u32,
) -> Result<Below<'a>, CertFault>
    requires fits { HasRoom depth body.now }
    requires starts { CanStart units body.now }
    requires few { units ≤ most_units }
    requires room { line + length (cut bytes.now) < 2 ^ 32 }
    ensures ok { IfOk result (λ b. ReadsBelow body.now depth (cut bytes.now) line units (tree_of b.node) (cut b.rest.now) b.line b.units) }
    ensures bad { IfErr result (λ e. IfBadText e (IsRefused units body.now depth (cut bytes.now) line)) }
{
    match body {
        BodyLine::Rule(rule) => Ok(Below {
            node: Node {
                body: Body::Rule(*rule),
            },
            rest: bytes,
            line,
            units,
        }),
        BodyLine::Back(steps) => Ok(Below {
            node: Node {
                body: Body::Back(*steps),
            },
            rest: bytes,
            line,
            units,
        }),
        BodyLine::Expand(count) => match read_kids(alloc, *count, depth, units, bytes, line) {
            Ok(children) => Ok(Below {
                node: Node {
                    body: Body::Expand(children.kids),
                },
                rest: children.rest,
                line: children.line,
                units: children.units,
            }),
            Err(fault) => Err(fault),
        },
        BodyLine::Sketch(head) => read_sketch_below(alloc, head, units, bytes, line),
    }
}

/// So many children, whose lines begin the bytes.
#[cycle(reader)]
fn read_kids(
    alloc: Global,
    count: u32,
    depth: u8,
    units: u32,
    bytes: &[u8],
    line: u32,
) -> Result<Children<'_>, CertFault>
    requires fits { 0 < count → depth < 255 }
    requires few { units ≤ most_units }
    requires room { line + length (cut bytes.now) < 2 ^ 32 }
    ensures ok { IfOk result (λ b. ReadsKids count depth (cut bytes.now) line units b.kids (cut b.rest.now) b.line b.units) }
    ensures bad { IfErr result (λ e. IfBadText e (AreRefused units count depth (cut bytes.now) line)) }
{
    let mut kids = Kids::new(alloc);
    let mut rest = bytes;
    let mut next = line;
    let mut all = units;
    for _i in 0..count {
        let (label, body, after) = match next_kid(rest, depth + 1) {
            Some(kid) => kid,
            None => return Err(CertFault::BadText { line: next }),
        };
        if !can_start(&body, all) {
            return Err(CertFault::BadText { line: next });
        }
        match read_below(alloc, &body, depth + 1, all, after, next + 1) {
            Ok(below) => {
                rest = below.rest;
                next = below.line;
                all = below.units;
                match kids.push(Kid {
                    label,
                    node: below.node,
                }) {
                    Ok(()) => {}
                    Err(_) => return Err(CertFault::Memory),
                }
            }
            Err(fault) => return Err(fault),
        }
    }
    Ok(Children {
        kids,
        rest,
        line: next,
        units: all,
    })
}

/// Reads a certificate, of at most 67,108,864 bytes. Each line ends with one `\n`, and nothing follows the last node's:
///
/// 1. The line of the format: `retro 2` if odds are named or a clock is demanded, and else `retro 1`.
/// 2. The line of the claim, as `read_claim` reads it.
/// 3. In format 2 alone the line of the odds, as `read_odds` reads it, if they are named, and then that of the clock, as `read_clock`
///    reads it, if one is demanded: one of the two, or both.
/// 4. `fen`, a space, and a FEN of four fields.
/// 5. The root's line, and then the lines of the other nodes, as `read_line` reads them. After a node with `expand n` come its n
///    children, each with all that is below it, and after one with `sketch` the lines of the sketch, as `SketchDue::read` reads them; after
///    another node comes nothing of its own. All sketches together have at most 262,144 units. The labels may be any unmoves in any
///    order, and `back` may lead to any ancestor.
///
/// `Ok` comes if and only if the bytes are so, with the certificate that they say. `BadText` comes in all other cases: the lines
/// before `line` begin a certificate's text, and with it they begin none, or the bytes end too early. A last piece with no line
/// end counts as a line, and no certificate begins with it. Want of memory is a free answer: `Memory` may take the place of both.
pub fn read_cert(alloc: Global, bytes: &[u8]) -> Result<Cert, CertFault>
    requires { length bytes.now ≤ 67_108_864 }
    ensures ok { IfOk result (λ c. IsTextOf bytes.now (cert_of c)) }
    ensures bad { IfErr result (λ e. IfBadText e (IsBadAt AreLinesOf (cut bytes.now))) }
{
    let header = match read_header(bytes) {
        Ok(header) => header,
        Err(line) => return Err(CertFault::BadText { line }),
    };
    match read_below(alloc, &header.body, 0, 0, header.rest, header.line) {
        Ok(below) => match first_line(below.rest) {
            Some(_) => Err(CertFault::BadText { line: below.line }),
            None => Ok(Cert {
                claim: header.claim,
                query: header.query,
                root: below.node,
            }),
        },
        Err(fault) => Err(fault),
    }
}
