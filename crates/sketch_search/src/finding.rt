ghost use Rattle.std.specs.Prelude.{IfOk, IfSome, IsSome, List, MatchOption};
ghost use Rattle.board_base.specs.declared.moves.Move.{Move};
ghost use Rattle.cage_rules.specs.Reach.{LeadsTo};
ghost use Rattle.past_sketches.specs.Figures.{sketch_of};
ghost use Rattle.sketch_found.specs.Roots.{IsRoot};
ghost use Rattle.sketch_found.specs.Found.{IsProofOf, IsWithin};
ghost use Rattle.sketch_found.specs.Plain.{IsPlain, IsPlainNode};

use crate::beginnings::{Beginning, first_look, plain_root_if};
use crate::desks::SketchDesk;
use crate::writing::written;
use board_base::{Kind, Memory, pawn_rank};
use figures::Sketch;
use home_ways::{file_set, squares_of};
use query_base::Query;
use sketch_found::{FoundSketch, if_proved, root_of};
use sketch_text::Label;
use sketch_trees::{Child, Fingerprint, Limits, MOST_BELOW, Search, Setting, fingerprint_beside};
use std::alloc::Global;

/// Whether a pawn on this file has moved.
fn has_moved_pawn(sketch: &Sketch, file: usize) -> bool {
    for figure in sketch.figures() {
        if figure.may_be(Kind::Pawn) {
            for square in squares_of(figure.squares.bits() & file_set(file)) {
                if square / 8 != pawn_rank(figure.colour) as usize {
                    return true;
                }
            }
        }
    }
    false
}

/// What is asked of the query's sketch before a search.
#[derive(Clone, Copy)]
enum Opening {
    /// A search is made. Nothing is noted if nothing is found.
    Free,
    /// None is made.
    Shut,
    /// One is made. If nothing is found, it is noted from which closed sketch.
    Noted(Fingerprint),
}

/// What is asked of the query's sketch before a search, of which this closed one isn't the array: in haste or with little to spend, whether
/// there is one, and whether nothing was found from it before.
fn opening_for(query: &Query, wide: &Option<Sketch>, limits: Limits, desk: &SketchDesk) -> Opening {
    if desk.is_spent(limits) {
        return Opening::Shut;
    }
    if !limits.thrifty {
        let shut = limits.hasty && wide.is_none();
        return if shut { Opening::Shut } else { Opening::Free };
    }
    let Some(wide) = wide else {
        return if limits.hasty {
            Opening::Shut
        } else {
            Opening::Free
        };
    };
    let print = fingerprint_beside(wide, query.held);
    if desk.has_failed(print, query.odds, limits) {
        Opening::Shut
    } else {
        Opening::Noted(print)
    }
}

/// What a search has found that refutes this root, if the desk can keep the prices.
fn found_by(
    alloc: Global,
    search: &mut Search,
    root: &Child,
    desk: &mut SketchDesk,
) -> Result<Option<FoundSketch>, Memory> {
    desk.lend(search)?;
    let refuted = search.refutes(root, MOST_BELOW)?;
    desk.count(search, refuted);
    if !refuted {
        return Ok(None);
    }
    desk.keep(search)?;
    written(alloc, search, root)
}

/// What one search finds, with these exact files, if it proves that no game comes to the query.
fn found_with(
    alloc: Global,
    query: &Query,
    sketch: &Sketch,
    exact: [bool; 8],
    limits: Limits,
    desk: &mut SketchDesk,
) -> Result<Option<FoundSketch>, Memory>
    ensures proves { IfOk result (λ r. IfSome r (λ found. IsProofOf query.now found)) }
    ensures games { IfOk result (λ r. IfSome r (λ found. (m : List Move) → LeadsTo query.now.odds m query.now → ⊥)) }
    ensures within { IfOk result (λ r. IfSome r (λ found. IsWithin limits.steps found)) }
{
    let setting = Setting {
        odds: query.odds,
        held: query.held,
        exact,
    };
    let mut search = Search::new(alloc, setting, desk.left_of(limits));
    let root = Child {
        label: Label::Now,
        sketch: sketch.copied(),
        unknown: None,
        rank: 0,
    };
    match found_by(alloc, &mut search, &root, desk)? {
        Some(found) => Ok(if_proved(query, limits.steps, found)),
        None => Ok(None),
    }
}

/// The same with one exact file after another on which a pawn has moved.
fn found_on_files(
    alloc: Global,
    query: &Query,
    sketch: &Sketch,
    limits: Limits,
    desk: &mut SketchDesk,
) -> Result<Option<FoundSketch>, Memory>
    ensures proves { IfOk result (λ r. IfSome r (λ found. IsProofOf query.now found)) }
    ensures games { IfOk result (λ r. IfSome r (λ found. (m : List Move) → LeadsTo query.now.odds m query.now → ⊥)) }
    ensures within { IfOk result (λ r. IfSome r (λ found. IsWithin limits.steps found)) }
{
    for file in 0..8usize {
        if has_moved_pawn(sketch, file) {
            let mut exact = [false; 8];
            exact[file] = true;
            let found = found_with(alloc, query, sketch, exact, limits, desk)?;
            if found.is_some() {
                return Ok(found);
            }
        }
    }
    Ok(None)
}

/// What the searches find, first without exact files.
fn found_by_all(
    alloc: Global,
    query: &Query,
    sketch: &Sketch,
    limits: Limits,
    desk: &mut SketchDesk,
) -> Result<Option<FoundSketch>, Memory>
    ensures proves { IfOk result (λ r. IfSome r (λ found. IsProofOf query.now found)) }
    ensures games { IfOk result (λ r. IfSome r (λ found. (m : List Move) → LeadsTo query.now.odds m query.now → ⊥)) }
    ensures within { IfOk result (λ r. IfSome r (λ found. IsWithin limits.steps found)) }
{
    let found = found_with(alloc, query, sketch, [false; 8], limits, desk)?;
    if found.is_some() || !limits.files {
        return Ok(found);
    }
    found_on_files(alloc, query, sketch, limits.for_file(), desk)
}

/// The same, but with little to spend nothing if the sketch can be the array, or if nothing was found before from the same closed one.
fn found_further(
    alloc: Global,
    query: &Query,
    sketch: &Sketch,
    wide: &Option<Sketch>,
    limits: Limits,
    desk: &mut SketchDesk,
) -> Result<Option<FoundSketch>, Memory>
    ensures proves { IfOk result (λ r. IfSome r (λ found. IsProofOf query.now found)) }
    ensures games { IfOk result (λ r. IfSome r (λ found. (m : List Move) → LeadsTo query.now.odds m query.now → ⊥)) }
    ensures within { IfOk result (λ r. IfSome r (λ found. IsWithin limits.steps found)) }
{
    let opening = opening_for(query, wide, limits, desk);
    if matches!(opening, Opening::Shut) {
        return Ok(None);
    }
    let found = found_by_all(alloc, query, sketch, limits, desk)?;
    if let Opening::Noted(print) = opening {
        if found.is_none() {
            desk.note_failed(print, query.odds, limits)?;
        }
    }
    Ok(found)
}

/// Looks for a sketch that shows that no game comes to the query: for prices that close its sketch, marks that they force, and trees over
/// what was before its steps, as far as the limits allow. If no exact file is needed, none is given; otherwise one at a time is tried. The
/// same query, limits and desk have the same answer. What is found proves that no game, of any length, leads to the query, and is within the
/// limits; on each exact file less is spent. A proof of one node, without exact files, prices and marks, is always found; if nothing is found
/// otherwise, nothing is said of the query.
pub fn find_sketch(
    alloc: Global,
    query: &Query,
    limits: Limits,
    desk: &mut SketchDesk,
) -> Result<Option<FoundSketch>, Memory>
    ensures proves { IfOk result (λ r. IfSome r (λ found. IsProofOf query.now found)) }
    ensures games { IfOk result (λ r. IfSome r (λ found. (m : List Move) → LeadsTo query.now.odds m query.now → ⊥)) }
    ensures within { IfOk result (λ r. IfSome r (λ found. IsWithin limits.steps found)) }
    ensures root { IfOk result (λ r. IsSome r → IsRoot query.now.odds query.now.board) }
    // A proof of one node without exact files, prices and marks is never missed.
    ensures plain { IfOk result (λ r. IsRoot query.now.odds query.now.board → IsPlain query.now.odds query.now.held (sketch_of query.now.board) → MatchOption r ⊥ IsPlainNode) }
{
    let Some(sketch) = root_of(query) else {
        return Ok(None);
    };
    let Beginning { may_be_plain, wide } = first_look(query, &sketch);
    match plain_root_if(alloc, query, limits.steps, may_be_plain)? {
        Some(found) => Ok(Some(found)),
        None => found_further(alloc, query, &sketch, &wide, limits, desk),
    }
}
