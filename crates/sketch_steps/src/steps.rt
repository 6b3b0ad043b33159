use board_base::{Kind, Square};
use std::marker::Model;

/// A step: the figure with this number went as a pawn from one square to another. He took nobody, or a man of this kind there, or past
/// him the pawn that had just made a double step. Before it he had this place among the pawns of his file.
#[derive(Clone, Copy)]
pub struct Step {
    /// The number of the figure, counted from 0.
    pub by: u8,
    /// Where he went from.
    pub from: Square,
    /// Where he went to.
    pub to: Square,
    /// The kind of the man whom he took there.
    pub taken: Option<Kind>,
    /// Whether he took a pawn en passant.
    pub passing: bool,
    /// His place among the pawns of his file before.
    pub place: u8,
}

impl Model for Step {
    ghost use Rattle.figures.specs.Steps.{Step as AStep};

    ghost Value = { AStep };

    ghost view = { λ x. record { by = x.by; from = x.from; to = x.to; taken = x.taken; passing = x.passing; place = x.place } };

    ghost inverse = { λ x. record { by = x.by; from = x.from; to = x.to; taken = x.taken; passing = x.passing; place = x.place } };
}
