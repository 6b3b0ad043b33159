use board_base::Colour;
use ledger_lines::{Manner, Taker};

/// What is told line by line.
#[derive(Clone, Copy, PartialEq, Eq, Debug)]
pub enum Topic {
    /// Whom this side lacks.
    Lacking(Colour),
    /// How many men this side's pawns took, and which of them captured.
    Taken(Colour),
    /// That no capture is to spare.
    Spare,
    /// Which men are promoted pawns.
    Changed,
    /// Which men stand where they didn't begin.
    Origins,
}

/// Men of several lines of whom the same is told.
#[derive(Clone, Copy, PartialEq, Eq, Debug)]
pub enum Group {
    /// The pawns of this side who captured.
    Captors(Colour),
    /// The pawns of this side who fell, to whom and as what.
    Pawns(Colour, Taker, Manner),
    /// The officers of this side who fell, and to whom, but for those who fell at home.
    Officers(Colour, Taker),
    /// Those who fell at home, and to whom.
    AtHome(Colour, Taker),
    /// The pawns of this side who were promoted, if it isn't told that they were taken then.
    Promoted(Colour),
    /// Men who aren't promoted pawns.
    Original,
    /// Kings and officers who never moved, but for those of whom that is given.
    Unmoved,
}

/// A part of the paragraph.
#[derive(Clone, Copy, PartialEq, Eq, Debug)]
pub enum Part {
    /// A sentence for each line of this topic.
    Each(Topic),
    /// Which pawns of this side captured, if it isn't told how many men they took.
    Captured(Colour),
    /// One sentence of this group.
    Together(Group),
}
