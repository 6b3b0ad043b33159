ghost use Rattle.std.specs.Prelude.{◌≡◌, ◌↔◌, cond, IsTrue, None, SomeIff};
ghost use Rattle.board_base.specs.Board.{AreOdds, array_of, is_in, may_lack, no_odds};

use crate::boards::Board;
use crate::men::Man;
use crate::square_sets::SquareSet;
use crate::squares::Square;
use std::marker::Model;

/// The odds that a game is played at: the squares whose men the array lacks, seen as the set of them. They are home squares, on
/// ranks 1, 2, 7 and 8, but neither e1 nor e8, since a player is never without a king.
#[derive(Clone, Copy, PartialEq, Eq, Hash, Debug)]
pub struct Odds {
    squares: SquareSet,
}

impl Model for Odds {
    ghost use Rattle.std.specs.Prelude.{List, Bool};
    ghost use Rattle.board_base.specs.Board.{AreOdds};

    ghost Value = { List Bool };

    ghost view = { λ odds. odds.squares };

    ghost invariant = { λ odds. AreOdds odds.squares };

    ghost inverse = { λ set. record { squares = set } };
}

/// Whether the man whose home this is may be left out.
fn may_lack(s: Square) -> bool
    ensures { result ≡ may_lack s }
{
    (s.rank() < 2 || s.rank() > 5) && s.index() != 4 && s.index() != 60
}

/// Whether the men on all squares of the set may be left out.
fn are_odds(set: SquareSet) -> bool
    ensures { IsTrue result ↔ AreOdds set }
{
    set.bits();
    for i in 0..64 {
        let s = Square::known(i);
        if set.has(s) && !may_lack(s) {
            return false;
        }
    }
    true
}

impl Odds {
    /// The odds that leave out the men of these squares; None if and only if the set has a square outside ranks 1, 2, 7 and 8, or
    /// e1, or e8.
    pub fn new(set: SquareSet) -> Option<Odds>
        ensures { SomeIff result (AreOdds set) set }
    {
        if are_odds(set) {
            Some(Odds { squares: set })
        } else {
            None
        }
    }

    /// No odds: nobody is left out.
    pub fn none() -> Odds
        ensures { result ≡ no_odds }
    {
        Odds {
            squares: SquareSet::from_bits(0),
        }
    }

    /// Whether the same men are left out.
    #[tactic(auto, using(crate::specs::SameSets::sets_decide))]
    pub fn is_same(self, other: Odds) -> bool
        ensures { IsTrue result ↔ (self ≡ other) }
    {
        self == other
    }

    /// Whether nobody is left out.
    pub fn is_none(self) -> bool
        ensures { IsTrue result ↔ (self ≡ no_odds) }
    {
        self.is_same(Odds::none())
    }

    /// The squares whose men are left out.
    pub fn set(self) -> SquareSet
        ensures value { result ≡ self }
        ensures odds { AreOdds self }
    {
        self.squares
    }
}

/// The man of the array who begins on this square, unless he is left out.
fn unless_out(set: SquareSet, s: Square, man: Option<Man>) -> Option<Man>
    ensures { result ≡ cond (is_in set s) None man }
{
    if set.has(s) { None } else { man }
}

/// The board from which games at these odds begin: the array (article 2.3) without the men that are left out.
pub fn array_of(odds: Odds) -> Board
    ensures { result ≡ array_of odds }
{
    if odds.is_none() {
        return Board::array();
    }
    let set = odds.set();
    let mut board = Board::array();
    for i in 0..64 {
        let s = Square::known(i);
        board.put(s, unless_out(set, s, board.at(s)));
    }
    board
}
