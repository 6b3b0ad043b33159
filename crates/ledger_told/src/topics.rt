use board_base::{Colour, SquareSet};

/// The men whom one line names together.
#[derive(Clone, Copy, PartialEq, Eq, Debug)]
pub enum Group {
    /// Pawns on the board, not where they began, who never left their files.
    Ahead,
    /// Officers on the board who began as no pawns.
    Original,
}

/// Officers of one kind, the bishops told apart by the colour of the squares on which they stand.
#[derive(Clone, Copy, PartialEq, Eq, Debug)]
pub enum Breed {
    Queens,
    Rooks,
    DarkBishops,
    LightBishops,
    Knights,
}

/// Of what one line tells.
#[derive(Clone, Copy, PartialEq, Eq, Debug)]
pub enum Whole {
    /// Who never moved.
    Unmoved,
    /// Which men this side lacks.
    Lacks(Colour),
    /// How many captures this side's pawns made.
    Captures(Colour),
    /// Of whom this holds.
    Those(Group),
    /// How many of this side's men of a kind began as pawns, though it isn't known which.
    Among(Colour, Breed),
}

/// Of what lines tell square by square.
#[derive(Clone, Copy, PartialEq, Eq, Debug)]
pub enum Topic {
    /// Where this side's pawns began who left their files.
    Pawns(Colour),
    /// Where this side's rooks and knights began.
    Men(Colour),
    /// Which of this side's officers began as pawns, and where.
    Officers(Colour),
    /// Who fell, and how, and where beside the men of this frozen set.
    Falls(SquareSet),
    /// Who was promoted.
    Promotions,
}
