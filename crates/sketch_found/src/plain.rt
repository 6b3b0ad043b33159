ghost use Rattle.std.specs.Prelude.{◌≡◌, ◌∷◌, [], IfOk, IfSome, IsSome, List, MatchOption};
ghost use Rattle.board_base.specs.declared.moves.Move.{Move};
ghost use Rattle.cage_rules.specs.Reach.{LeadsTo};
ghost use Rattle.past_sketches.specs.Figures.{sketch_of};
ghost use Rattle.sketch_checker.specs.Beginning.{CanBegin};
ghost use Rattle.sketch_found.specs.Found.{IsProofOf, IsWithin};
ghost use Rattle.sketch_found.specs.Ends.{EndsPlainly};
ghost use Rattle.sketch_found.specs.Plain.{IsOneNode, IsPlain, IsPlainNode};

use crate::found::{FoundSketch, if_proved};
use board_base::Memory;
use query_base::Query;
use sketch_checker::SketchLine;
use sketch_text::{End, Label, SketchNode};
use std::alloc::Global;

/// This line alone.
fn only_line(alloc: Global, line: SketchLine) -> Result<Vec<SketchLine>, Memory>
    ensures { IfOk result (λ lines. lines.items ≡ line ∷ []) }
{
    let mut lines = Vec::new(alloc);
    match lines.push(line) {
        Ok(()) => Ok(lines),
        Err(_) => Err(Memory),
    }
}

/// One node with this end, without exact files, prices and marks.
fn one_node(alloc: Global, end: End) -> Result<FoundSketch, Memory>
    ensures { IfOk result (IsOneNode end) }
{
    let node = SketchNode {
        label: Label::Now,
        marks: 0,
        end,
    };
    let lines = only_line(alloc, SketchLine::Node(node))?;
    Ok(FoundSketch {
        exact: [false; 8],
        prices: Vec::new(alloc),
        lines,
    })
}

/// The proof of one node with this end, if it is one of the query.
fn proof_by(
    alloc: Global,
    query: &Query,
    most: usize,
    end: End,
) -> Result<Option<FoundSketch>, Memory>
    ensures proves { IfOk result (λ r. IfSome r (λ found. IsProofOf query.now found)) }
    ensures games { IfOk result (λ r. IfSome r (λ found. (m : List Move) → LeadsTo query.now.odds m query.now → ⊥)) }
    ensures within { IfOk result (λ r. IfSome r (λ found. IsWithin most found)) }
    ensures one { IfOk result (λ r. IfSome r (IsOneNode end)) }
    ensures all { IfOk result (λ r. CanBegin query.now.odds (sketch_of query.now.board) → EndsPlainly end query.now.odds query.now.held (sketch_of query.now.board) → IsSome r) }
{
    let node = one_node(alloc, end)?;
    Ok(if_proved(query, most, node))
}

/// The proof of one node without exact files, prices and marks that says that the query's sketch is void, or that none of its steps was
/// sound. None comes of such a sketch only if no walk can begin with it.
pub fn plain_root(alloc: Global, query: &Query, most: usize) -> Result<Option<FoundSketch>, Memory>
    ensures proves { IfOk result (λ r. IfSome r (λ found. IsProofOf query.now found)) }
    ensures games { IfOk result (λ r. IfSome r (λ found. (m : List Move) → LeadsTo query.now.odds m query.now → ⊥)) }
    ensures within { IfOk result (λ r. IfSome r (λ found. IsWithin most found)) }
    ensures plain { IfOk result (λ r. CanBegin query.now.odds (sketch_of query.now.board) → IsPlain query.now.odds query.now.held (sketch_of query.now.board) → MatchOption r ⊥ IsPlainNode) }
{
    let void = proof_by(alloc, query, most, End::Void)?;
    if void.is_some() {
        return Ok(void);
    }
    proof_by(alloc, query, most, End::Steps(0))
}
