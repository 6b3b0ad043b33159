ghost use Rattle.std.specs.Prelude.{◌≡◌, IfSome, IsSome};
ghost use Rattle.past_sketches.specs.Figures.{sketch_of};
ghost use Rattle.sketch_checker.specs.Beginning.{CanBegin};
ghost use Rattle.sketch_checker.specs.Roots.{IsRoot};

use figures::{Sketch, sketch_of};
use query_base::Query;
use sketch_checker::is_root;

/// The query's sketch, exactly if sketches may be asked about its board. Then a walk can begin with it.
pub fn root_of(query: &Query) -> Option<Sketch>
    ensures value { IfSome result (λ S. S ≡ sketch_of query.now.board) }
    ensures root { IsSome result → IsRoot query.now.odds query.now.board }
    ensures begins { IsSome result → CanBegin query.now.odds (sketch_of query.now.board) }
    ensures all { IsRoot query.now.odds query.now.board → IsSome result }
{
    if is_root(&query.board, query.odds) {
        sketch_of(&query.board)
    } else {
        None
    }
}
