use board_base::Square;
use figures::Sketch;
use sketch_list::Victim;
use std::marker::Model;

/// A listed step: the figure with this number went as a pawn from one square to another and took somebody or nobody. On the file of its
/// origin so many pawns were above it.
#[derive(Clone, Copy)]
pub struct Listed {
    /// The number of the figure, counted from 0.
    pub by: u8,
    /// Where he went from.
    pub from: Square,
    /// Where he went to.
    pub to: Square,
    /// Whom he took.
    pub victim: Victim,
    /// How many pawns were above him; 0 if he went straight on and is still a pawn.
    pub above: u8,
}

impl Model for Listed {
    ghost use Rattle.sketch_list.specs.Listed.{Listed as AListed};

    ghost Value = { AListed };

    ghost view = { λ y. record { by = y.by; from = y.from; to = y.to; victim = y.victim; above = y.above } };

    ghost inverse = { λ y. record { by = y.by; from = y.from; to = y.to; victim = y.victim; above = y.above } };
}

/// A listed step, and the sketch before it.
#[derive(Drop)]
pub struct Earlier {
    /// The step.
    pub step: Listed,
    /// The sketch before it.
    pub sketch: Sketch,
}

impl Model for Earlier {
    ghost use Rattle.sketch_list.specs.Listed.{Earlier as AnEarlier};

    ghost Value = { AnEarlier };

    ghost view = { λ e. record { step = e.step; sketch = e.sketch } };
}
