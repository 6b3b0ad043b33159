use arrayvec::ArrayVec;
use board_base::Potentials;

/// How few captures bring the pawns to where they stand.
#[derive(Drop)]
pub struct Least {
    /// The sum of the costs.
    pub cost: u16,
    /// For each pawn its file, from 0 for a to 7 for h, on which it can have begun if the sum is below 64.
    pub files: ArrayVec<u8, 8>,
    /// Potentials whose sum is the cost.
    pub potentials: Potentials,
}
