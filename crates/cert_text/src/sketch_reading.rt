ghost use Rattle.std.specs.Prelude.{◌≡◌, ◌↔◌, ◌+◌, ◌<◌, ◌^◌, IfErr, IfOk, IsTrue, Some, length, ℕ};
ghost use Rattle.sketch_body.specs.Due.{Reading, start};
ghost use Rattle.cert_text.specs.Tree.{sketch};
ghost use Rattle.cert_text.specs.Lines.{cut};
ghost use Rattle.cert_text.specs.Texts.{IfBadText};
ghost use Rattle.cert_text.specs.Reading.{CanStart, IsRefused, ReadsBelow};

use crate::faults::CertFault;
use crate::lines::first_line;
use crate::node_lines::BodyLine;
use crate::sketch_lines::read_sketch_line;
use sketch_body::{SketchBody, SketchDue};
use sketch_text::SketchHead;
use std::alloc::Global;

/// Whether a sketch can begin behind sketches with so many units.
#[inline(never)]
fn can_begin(head: &SketchHead, units: u32) -> bool
    ensures { IsTrue result ↔ ((r : Reading) × (start units head.now ≡ Some r)) }
{
    SketchDue::start(head, units).is_some()
}

/// Whether a sketch that the body begins, if it begins one, doesn't make the units too many.
#[inline(always)]
pub(crate) fn can_start(body: &BodyLine, units: u32) -> bool
    ensures { IsTrue result ↔ CanStart units body.now }
{
    match body {
        BodyLine::Sketch(head) => can_begin(head, units),
        BodyLine::Rule(_) | BodyLine::Back(_) | BodyLine::Expand(_) => true,
    }
}

/// A sketch, what follows its lines, the number of the line there, and the units up to there.
#[derive(Drop)]
pub(crate) struct Sketched<'a> {
    pub(crate) body: SketchBody,
    pub(crate) rest: &'a [u8],
    pub(crate) line: u32,
    pub(crate) units: u32,
}

/// The sketch with this first line, whose lines below it begin the bytes.
#[inline(never)]
pub(crate) fn read_sketch<'a>(
    alloc: Global,
    head: &SketchHead,
    units: u32,
    bytes: &'a [u8],
    line: u32,
) -> Result<Sketched<'a>, CertFault>
    requires starts { CanStart units (BodyLine.Sketch head.now) }
    requires room { line + length (cut bytes.now) < 2 ^ 32 }
    ensures ok { IfOk result (λ s. (depth : ℕ) → ReadsBelow (BodyLine.Sketch head.now) depth (cut bytes.now) line units (sketch s.body) (cut s.rest.now) s.line s.units) }
    ensures bad { IfErr result (λ e. (depth : ℕ) → IfBadText e (IsRefused units (BodyLine.Sketch head.now) depth (cut bytes.now) line)) }
{
    let Some(mut due) = SketchDue::start(head, units) else {
        unreachable!()
    };
    let mut body = SketchBody::new(alloc, head);
    let mut rest = bytes;
    let mut next = line;
    'lines: while !due.is_done() {
        let Some((first, after)) = first_line(rest) else {
            return Err(CertFault::BadText { line: next });
        };
        let Some(item) = read_sketch_line(&mut due, first) else {
            return Err(CertFault::BadText { line: next });
        };
        match body.push(item) {
            Ok(()) => {}
            Err(_) => return Err(CertFault::Memory),
        }
        rest = after;
        next += 1;
    }
    Ok(Sketched {
        body,
        rest,
        line: next,
        units: due.units(),
    })
}
