ghost use Rattle.std.specs.Prelude.{◌≡◌, [], IfOk, IfSome, IsTrue, List, MatchOption};
ghost use Rattle.board_base.specs.declared.moves.Move.{Move};
ghost use Rattle.cage_rules.specs.Reach.{LeadsTo};
ghost use Rattle.past_sketches.specs.Figures.{sketch_of};
ghost use Rattle.sketch_found.specs.Beginning.{CanBegin};
ghost use Rattle.sketch_found.specs.Listed.{earlier};
ghost use Rattle.sketch_found.specs.Found.{IsProofOf, IsWithin};
ghost use Rattle.sketch_found.specs.Plain.{IsPlain, IsPlainNode, no_files};

use board_base::{Memory, Odds};
use figures::Sketch;
use query_base::Query;
use sketch_found::{FoundSketch, plain_root};
use sketch_trees::{StepsBack, before_steps, is_void};
use std::alloc::Global;

/// What is known of a query's sketch before a search.
#[derive(Drop)]
pub(crate) struct Beginning {
    /// Whether one node may refute it, without exact files, prices and marks.
    pub(crate) may_be_plain: bool,
    /// The closed one, if it isn't void and that can't be the array.
    pub(crate) wide: Option<Sketch>,
}

/// Whether a closed sketch may have no step.
fn may_be_stepless(odds: Odds, wide: &Sketch) -> bool
    ensures { earlier odds no_files wide.now ≡ [] → IsTrue result }
{
    let Some(mut steps) = StepsBack::new(odds, &[false; 8], wide) else {
        return true;
    };
    match steps.next() {
        Some(_) => false,
        None => true,
    }
}

/// What is known of a query's sketch before a search. One node can refute it only if it is void, or if the closed one has no step and can't be
/// the array.
pub(crate) fn first_look(query: &Query, sketch: &Sketch) -> Beginning
    ensures { CanBegin query.now.odds sketch.now → IsPlain query.now.odds query.now.held sketch.now → IsTrue result.may_be_plain }
{
    if is_void(sketch, query.held, query.odds) {
        return Beginning {
            may_be_plain: true,
            wide: None,
        };
    }
    match before_steps(sketch, query.held, &[false; 8], query.odds) {
        Some(wide) => Beginning {
            may_be_plain: may_be_stepless(query.odds, &wide),
            wide: Some(wide),
        },
        None => Beginning {
            may_be_plain: false,
            wide: None,
        },
    }
}

/// The proof of one node without exact files, prices and marks that says that the query's sketch is void, or that none of its steps was
/// sound, if it may have one.
pub(crate) fn plain_root_if(
    alloc: Global,
    query: &Query,
    most: usize,
    may_be_plain: bool,
) -> Result<Option<FoundSketch>, Memory>
    ensures proves { IfOk result (λ r. IfSome r (λ found. IsProofOf query.now found)) }
    ensures games { IfOk result (λ r. IfSome r (λ found. (m : List Move) → LeadsTo query.now.odds m query.now → ⊥)) }
    ensures within { IfOk result (λ r. IfSome r (λ found. IsWithin most found)) }
    ensures plain { (CanBegin query.now.odds (sketch_of query.now.board) → IsPlain query.now.odds query.now.held (sketch_of query.now.board) → IsTrue may_be_plain) → IfOk result (λ r. CanBegin query.now.odds (sketch_of query.now.board) → IsPlain query.now.odds query.now.held (sketch_of query.now.board) → MatchOption r ⊥ IsPlainNode) }
{
    if may_be_plain {
        plain_root(alloc, query, most)
    } else {
        Ok(None)
    }
}
