ghost use Rattle.std.specs.Prelude.{◌≡◌};
ghost use Rattle.board_base.specs.Board.{array_of, no_odds};
ghost use Rattle.board_base.specs.declared.men.Colour.{Colour as AColour};
ghost use Rattle.men_account.specs.Account.{allowance_of, full_allowance, is_any};
ghost use Rattle.men_account.specs.Tallies.{no_men_counted};

/// How many men a side has of each kind (article 2.2), the bishops told apart by the colour of the square that they stand on.
#[derive(Clone, Copy, PartialEq, Eq, Debug)]
pub struct Counts {
    pub pawns: u8,
    pub knights: u8,
    /// The bishops on light squares, as White's on f1 and Black's on c8.
    pub light_bishops: u8,
    /// The bishops on dark squares, as White's on c1 and Black's on f8.
    pub dark_bishops: u8,
    pub rooks: u8,
    pub queens: u8,
    pub kings: u8,
}

impl Counts {
    /// No man at all.
    pub(crate) fn none() -> Counts
        ensures { result ≡ no_men_counted }
    {
        Counts {
            pawns: 0,
            knights: 0,
            light_bishops: 0,
            dark_bishops: 0,
            rooks: 0,
            queens: 0,
            kings: 0,
        }
    }
}

/// How many men of each kind a side may have without a promotion.
#[derive(Clone, Copy, PartialEq, Eq, Debug)]
pub struct Allowance {
    pub pawns: u8,
    pub knights: u8,
    /// The bishops on light squares.
    pub light_bishops: u8,
    /// The bishops on dark squares.
    pub dark_bishops: u8,
    pub rooks: u8,
    pub queens: u8,
}

impl Allowance {
    /// What a side begins with without odds (articles 2.2 and 2.3): eight pawns, two knights, a bishop on a light square and one on a
    /// dark square, two rooks and a queen.
    pub fn full() -> Allowance
        ensures numbers { result ≡ full_allowance }
        ensures homes { (c : AColour) → result ≡ allowance_of c is_any (array_of no_odds) }
    {
        Allowance {
            pawns: 8,
            knights: 2,
            light_bishops: 1,
            dark_bishops: 1,
            rooks: 2,
            queens: 1,
        }
    }
}
