ghost use Rattle.std.specs.Prelude.{◌≡◌, ◌≤◌, count_by};
ghost use Rattle.figures.specs.Figures.{IsRearranged};
ghost use Rattle.sketch_steps.specs.Places.{is_lower, placed_in, recounted};

use board_base::Kind;
use figures::{Figure, Sketch};

/// Whether the second figure may be a pawn, and has a lower place.
fn is_lower(figure: &Figure, other: &Figure) -> bool
    ensures { result ≡ is_lower figure.now other.now }
{
    other.may_be(Kind::Pawn) & (other.place < figure.place)
}

/// How many figures may be pawns and have a lower place than this one.
fn lower_pawns(sketch: &Sketch, figure: &Figure) -> usize
    ensures value { result ≡ count_by (is_lower figure.now) sketch.now }
    ensures few { result ≤ 32 }
{
    sketch
        .figures()
        .iter()
        .filter(|other| is_lower(figure, *other))
        .count()
}

/// The figure with his place counted anew.
fn placed(sketch: &Sketch, figure: &Figure) -> Figure
    ensures { result ≡ placed_in sketch.now figure.now }
{
    Figure {
        colour: figure.colour,
        kinds: figure.kinds,
        squares: figure.squares,
        marked: figure.marked,
        place: lower_pawns(sketch, figure) as u8,
    }
}

/// The sketch with its places counted anew, in the same order: the place of each figure is how many figures may be pawns and have a lower
/// one.
pub fn recounted(sketch: &Sketch) -> Sketch
    ensures value { result ≡ recounted sketch.now }
    ensures rearranged { IsRearranged sketch.now result }
{
    let mut made = Sketch::new();
    for figure in sketch.figures() {
        made.push(placed(sketch, figure));
    }
    made
}
