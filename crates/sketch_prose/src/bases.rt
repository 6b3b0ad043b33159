use board_base::{CastleSet, Odds};
use figures::Sketch;

/// What a sketch stands on beside its prices, and the sketch of the diagram.
#[derive(Drop)]
pub(crate) struct Base {
    pub(crate) odds: Odds,
    pub(crate) held: CastleSet,
    pub(crate) exact: [bool; 8],
    pub(crate) diagram: Sketch,
}
