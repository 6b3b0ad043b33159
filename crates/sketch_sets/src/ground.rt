use board_base::SquareSet;

/// What the ways of a sketch's figures depend on.
#[derive(Clone, Copy)]
pub(crate) struct Ground {
    /// The squares on which figures are fixed.
    pub(crate) fixed: SquareSet,
    /// The homes of the rights that are held.
    pub(crate) held: SquareSet,
    /// The squares on which kings are fixed.
    pub(crate) white_kings: SquareSet,
    pub(crate) black_kings: SquareSet,
    /// The squares that fixed figures touch.
    pub(crate) white_touched: SquareSet,
    pub(crate) black_touched: SquareSet,
}
