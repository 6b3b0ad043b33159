ghost use Rattle.std.specs.Prelude.{◌≡◌, ◌≤◌, ◌∷◌, [], Some, SomeIff, length};
ghost use Rattle.past_sketches.specs.Figures.{figure_of, sketch_of};

use crate::kinds::KindSet;
use crate::men::Figure;
use crate::sets::only_on;
use crate::sketches::Sketch;
use board_base::{Board, Man, Square};

/// The figure of a man on a square, fixed there.
fn figure_on(s: Square, man: Man) -> Figure
    ensures { figure_of s (Some man) ≡ result ∷ [] }
{
    Figure {
        colour: man.colour,
        kinds: KindSet::one(man.kind),
        squares: only_on(s),
        marked: false,
        place: s.rank(),
    }
}

/// The sketch of a board: a figure for each man, fixed on his square. None if and only if there are more than 32.
pub fn sketch_of(board: &Board) -> Option<Sketch>
    ensures { SomeIff result (length (sketch_of board.now) ≤ 32) (sketch_of board.now) }
{
    let mut sketch = Sketch::new();
    for i in 0..64 {
        let s = Square::known(i);
        if let Some(man) = board.at(s) {
            if sketch.len() == 32 {
                return None;
            }
            sketch.push(figure_on(s, man));
        }
    }
    Some(sketch)
}
