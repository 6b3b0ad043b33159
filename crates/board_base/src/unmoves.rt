use crate::men::Kind;
use crate::moves::Move;

/// A move that is taken back, with all that its board before it had and its board after it lacks.
#[derive(Clone, Copy, PartialEq, Eq, Debug)]
pub struct Unmove {
    /// The move that is taken back.
    pub mv: Move,
    /// The kind that the move captured, a pawn if it did so en passant; None if it captured nothing.
    pub captured: Option<Kind>,
    /// Whether the move captured en passant (article 3.7).
    pub ep: bool,
}
