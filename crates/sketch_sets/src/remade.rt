ghost use Rattle.std.specs.Prelude.{◌≡◌, ◌↔◌, Bool, IsTrue, List, length, map};
ghost use Rattle.figures.specs.Figures.{Figure as AFigure};
ghost use Rattle.sketch_sets.specs.Remade.{AreWhole, set_of, with_set};

use board_base::SquareSet;
use figures::{Figure, Sketch, is_same, is_whole};

/// Tells the caller that each figure's set has 64 truth values.
pub(crate) fn are_whole(sketch: &Sketch)
    ensures { AreWhole sketch.now }
{
    for figure in sketch.figures() {
        is_whole(figure.squares);
    }
}

/// The sketch with other sets of squares.
pub(crate) fn with_sets<F: Fn(Figure) -> SquareSet>(sketch: &Sketch, sets: F) -> Sketch
    requires { F.IsAlwaysCallable sets }
    ensures { (h : AFigure → List Bool) → ((f : AFigure) (set : List Bool) → F.post sets f set → set ≡ h f) → result ≡ map (with_set h) sketch.now }
{
    let mut made = Sketch::new();
    for figure in sketch.figures() {
        made.push(Figure {
            colour: figure.colour,
            kinds: figure.kinds,
            squares: sets(*figure),
            marked: figure.marked,
            place: figure.place,
        });
    }
    made
}

/// Whether the figures of two sketches with as many have the same sets of squares.
pub(crate) fn has_same_sets(a: &Sketch, b: &Sketch) -> bool
    requires { length a.now ≡ length b.now }
    ensures { IsTrue result ↔ (map set_of a.now ≡ map set_of b.now) }
{
    let others = b.figures();
    for (i, figure) in a.figures().iter().enumerate() {
        let other = &others[i];
        if !is_same(figure.squares, other.squares) {
            return false;
        }
    }
    true
}
