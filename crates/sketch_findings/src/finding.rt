ghost use Rattle.std.specs.Prelude.{◌≡◌, ◌≤◌, IfOk, IfSome, MatchOption, true};
ghost use Rattle.sketch_body.specs.Bodies.{units_of};
ghost use Rattle.sketch_body.specs.Whole.{is_body};
ghost use Rattle.cert_checker.specs.Sketches.{IsSketchOf};
ghost use Rattle.sketch_findings.specs.Plain.{HasPlainSketch};

use crate::bodies::body_of;
use board_base::Memory;
use query_base::Query;
use sketch_body::SketchBody;
use sketch_search::{Limits, SketchDesk, find_sketch};
use std::alloc::Global;

/// Looks for a sketch that supports the query, within these limits, as `find_sketch` of `sketch_search` does. It has a text, as the body of
/// a node of a certificate. If one node without exact files, prices and marks is enough, a sketch of at most 33 units is found; if nothing
/// is found otherwise, nothing is said of the query.
pub fn find_body(
    alloc: Global,
    query: &Query,
    limits: Limits,
    desk: &mut SketchDesk,
) -> Result<Option<SketchBody>, Memory>
    ensures supports { IfOk result (λ r. IfSome r (λ b. IsSketchOf b query.now)) }
    ensures text { IfOk result (λ r. IfSome r (λ b. is_body b ≡ true)) }
    ensures plain { IfOk result (λ r. HasPlainSketch query.now → MatchOption r ⊥ (λ b. units_of b ≤ 33)) }
{
    match find_sketch(alloc, query, limits, desk)? {
        Some(found) => body_of(alloc, &found),
        None => Ok(None),
    }
}
