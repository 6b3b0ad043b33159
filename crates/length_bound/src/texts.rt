use crate::man_potentials::ManPotentials;
use board_base::Colour;
use query_base::Query;

/// What the text of a length says: that each game that reaches the query has at least so many half-moves, as potentials of a side's
/// men and homes show.
#[derive(Clone, Copy, PartialEq, Eq, Debug)]
pub struct LengthText {
    /// The query.
    pub query: Query,
    /// How many half-moves each game has at least, from 0 to 9999 in a text.
    pub at_least: u16,
    /// The side whose men are looked at.
    pub side: Colour,
    /// The potentials of its men and of its homes.
    pub potentials: ManPotentials,
}
