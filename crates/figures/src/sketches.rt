ghost use Rattle.std.specs.Prelude.{◌≡◌, ◌<◌, ◌≤◌, ◌++◌, ◌∷◌, [], length, Some};
ghost use Rattle.past_sketches.specs.Figures.{figure_at, fixed_squares};

use crate::men::Figure;
use arrayvec::ArrayVec;
use board_base::SquareSet;
use std::marker::Model;

/// A sketch: some men, at most 32, each a figure, seen as the list of them.
#[derive(Drop)]
pub struct Sketch {
    figures: ArrayVec<Figure, 32>,
}

impl Model for Sketch {
    ghost use Rattle.past_sketches.specs.Figures.{Sketch as ASketch};

    ghost Value = { ASketch };

    ghost view = { λ t. t.figures.items };
}

impl Sketch {
    /// The sketch of nobody.
    pub fn new() -> Sketch
        ensures { result ≡ [] }
    {
        Sketch {
            figures: ArrayVec::new(),
        }
    }

    /// The figures, in order.
    pub fn figures(&self) -> &[Figure]
        ensures value { result.now ≡ self.now }
        ensures few { length self.now ≤ 32 }
    {
        self.figures.as_slice()
    }

    /// How many figures there are.
    pub fn len(&self) -> usize
        ensures value { result ≡ length self.now }
        ensures few { result ≤ 32 }
    {
        self.figures.len()
    }

    /// The figure with this number, counted from 0.
    pub fn get(&self, i: usize) -> Option<Figure>
        ensures { result ≡ figure_at self.now i }
    {
        let figures = self.figures.as_slice();
        if i < figures.len() {
            Some(figures[i])
        } else {
            None
        }
    }

    /// Puts a figure after the others, of whom there are fewer than 32.
    pub fn push(&mut self, figure: Figure)
        requires { length self.old < 32 }
        ensures { self.new ≡ self.old ++ figure ∷ [] }
    {
        self.figures.push(figure);
    }

    /// The same sketch.
    pub fn copied(&self) -> Sketch
        ensures { result ≡ self.now }
    {
        match ArrayVec::try_from(self.figures.as_slice()) {
            Ok(figures) => Sketch { figures },
            Err(_) => unreachable!(),
        }
    }
}

/// The squares on which a figure is fixed.
pub fn fixed_squares(sketch: &Sketch) -> SquareSet
    ensures { result ≡ fixed_squares sketch.now }
{
    let mut fixed = SquareSet::from_bits(0);
    for figure in sketch.figures() {
        if let Some(s) = figure.fixed_square() {
            fixed = fixed.with(s);
        }
    }
    fixed
}
