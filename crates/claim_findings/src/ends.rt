use board_base::{MoveList, UnmoveList};

/// Where a search ends that doesn't prove a claim.
#[derive(Drop)]
pub enum End {
    /// At a line of retractions that stays open.
    Line(UnmoveList),
    /// At a game that contradicts the claim.
    Game(MoveList),
    /// Nowhere: the nodes were spent.
    Nowhere,
}
