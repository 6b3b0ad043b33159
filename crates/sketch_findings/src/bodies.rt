ghost use Rattle.std.specs.Prelude.{◌≡◌, ◌↔◌, [], IfOk, IfSome, IsTrue, MatchOption, Some, map, true};
ghost use Rattle.sketch_body.specs.Seen.{line_of};
ghost use Rattle.sketch_body.specs.Whole.{is_body};
ghost use Rattle.sketch_search.specs.Plain.{IsPlainNode};
ghost use Rattle.cert_checker.specs.Sketches.{files_of};
ghost use Rattle.sketch_findings.specs.Bodies.{IsBodyOf, IsGatheredFrom, IsPlainBody};

use crate::files::{exact_files, head_with};
use board_base::Memory;
use capture_prices::Prices;
use sketch_body::{SketchBody, SketchItem, SketchLine};
use sketch_search::FoundSketch;
use sketch_text::{MarkLine, SketchHead};
use std::alloc::Global;

/// A line of marks again.
fn marks_again(marks: &MarkLine) -> MarkLine
    ensures { result ≡ marks.now }
{
    let Some(again) = MarkLine::new(marks.by(), marks.figures()) else {
        unreachable!()
    };
    again
}

/// The line again.
fn line_again(line: &SketchLine) -> SketchLine
    ensures { line_of result ≡ line_of line.now }
{
    match line {
        SketchLine::Node(node) => SketchLine::Node(*node),
        SketchLine::Marks(marks) => SketchLine::Marks(marks_again(marks)),
    }
}

/// A sketch with this first line and these prices.
fn with_prices(alloc: Global, head: &SketchHead, prices: &[Prices]) -> Result<SketchBody, Memory>
    ensures { IfOk result (λ b. b ≡ record { files = head.now.files; prices = prices.now; lines = [] }) }
{
    let mut body = SketchBody::new(alloc, head);
    for line in prices {
        body.push(SketchItem::Prices(*line))?;
    }
    Ok(body)
}

/// A sketch without lines of nodes and marks, with these put in.
fn with_lines(bare: SketchBody, lines: &[SketchLine]) -> Result<SketchBody, Memory>
    requires { bare.lines ≡ [] }
    ensures { IfOk result (λ b. b ≡ record { files = bare.files; prices = bare.prices; lines = map line_of lines.now }) }
{
    let mut body = bare;
    for line in lines {
        body.push(SketchItem::Line(line_again(line)))?;
    }
    Ok(body)
}

/// What was found, as the body of a node.
fn gathered(alloc: Global, found: &FoundSketch) -> Result<Option<SketchBody>, Memory>
    ensures gathered { IfOk result (λ r. IfSome r (λ b. IsGatheredFrom b found.now)) }
    ensures plain { IsPlainNode found.now → IfOk result (λ r. MatchOption r ⊥ IsPlainBody) }
{
    let Some(head) = head_with(&found.exact) else {
        return Ok(None);
    };
    let bare = with_prices(alloc, &head, found.prices.as_slice())?;
    let body = with_lines(bare, found.lines.as_slice())?;
    Ok(Some(body))
}

/// Whether these are the exact files of the sketch.
fn has_files(body: &SketchBody, exact: &[bool; 8]) -> bool
    ensures { IsTrue result ↔ (files_of body.now.files ≡ exact.now) }
{
    exact_files(body.files()) == *exact
}

/// The sketch, if it has a text, and these exact files.
fn if_whole(exact: &[bool; 8], body: SketchBody) -> Option<SketchBody>
    ensures same { IfSome result (λ b. b ≡ body) }
    ensures files { IfSome result (λ b. files_of b.files ≡ exact.now) }
    ensures text { IfSome result (λ b. is_body b ≡ true) }
    ensures all { files_of body.files ≡ exact.now → is_body body ≡ true → result ≡ Some body }
{
    if has_files(&body, exact) && body.has_text() {
        Some(body)
    } else {
        None
    }
}

/// What was found, as the body of a node, if it has a text.
pub(crate) fn body_of(alloc: Global, found: &FoundSketch) -> Result<Option<SketchBody>, Memory>
    ensures body { IfOk result (λ r. IfSome r (λ b. IsBodyOf b found.now)) }
    ensures plain { IsPlainNode found.now → IfOk result (λ r. MatchOption r ⊥ IsPlainBody) }
{
    match gathered(alloc, found)? {
        Some(body) => Ok(if_whole(&found.exact, body)),
        None => Ok(None),
    }
}
