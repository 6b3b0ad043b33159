ghost use Rattle.std.specs.Prelude.{◌≡◌, ◌↔◌, ◌<◌, ◌-◌, ℕ, IsTrue, None, Some, cond, nat_lt, slice_set, true};
ghost use Rattle.board_base.specs.Board.{is_in};
ghost use Rattle.ledger_lines.specs.declared.lines.Line.TheVariants.{Among};
ghost use Rattle.ledger_told.specs.Due.{IsAmongLine, IsUnsure, is_of_breed};

use crate::topics::Breed;
use board_base::{Board, Colour, Kind, Square, SquareSet, is_the};
use ledger_lines::{Fact, Line, is_known, number_in, piece_homes};
use ledger_search::Ledger;
use men_account::is_light;
use query_base::Query;

/// Whether a man of this side and kind stands on the square.
fn is_of_breed(board: &Board, side: Colour, breed: Breed, s: Square) -> bool
    ensures { result ≡ is_of_breed side breed board.now s }
{
    let place = board.at(s);
    match breed {
        Breed::Queens => is_the(side, Kind::Queen, place),
        Breed::Rooks => is_the(side, Kind::Rook, place),
        Breed::DarkBishops => is_the(side, Kind::Bishop, place) && !is_light(s),
        Breed::LightBishops => is_the(side, Kind::Bishop, place) && is_light(s),
        Breed::Knights => is_the(side, Kind::Knight, place),
    }
}

/// Whether it isn't known that he began as a pawn.
fn is_unsure(query: &Query, ledger: &Ledger, side: Colour, breed: Breed, s: Square) -> bool
    ensures { IsTrue result ↔ IsUnsure query.now ledger.now side breed s }
{
    is_of_breed(&query.board, side, breed, s) && !is_known(query, ledger, &Fact::Promoted(s))
}

/// The set, with this square if `more` says so.
fn with_if(set: SquareSet, s: Square, more: bool) -> SquareSet
    ensures { result ≡ cond more (slice_set set s true) set }
{
    if more { set.with(s) } else { set }
}

/// The squares of those of whom it isn't known.
fn unsure(query: &Query, ledger: &Ledger, side: Colour, breed: Breed) -> SquareSet
    ensures { (s : ℕ) → s < 64 → IsTrue (is_in result s) ↔ IsUnsure query.now ledger.now side breed s }
{
    let mut squares = SquareSet::from_bits(0);
    for i in 0..64 {
        let s = Square::known(i);
        squares = with_if(squares, s, is_unsure(query, ledger, side, breed, s));
    }
    squares
}

/// The line of how many of the men on a set are more than the homes, if they are.
fn line_if(homes: u8, men: u8, set: SquareSet) -> Option<Line>
    ensures { result ≡ cond (nat_lt homes men) (Some (Among (men - homes) set)) None }
{
    if homes < men {
        Some(Line::Among(men - homes, set))
    } else {
        None
    }
}

/// The line of how many men of this side and kind began as pawns, besides those who are known to.
pub(crate) fn among_line(query: &Query, ledger: &Ledger, side: Colour, breed: Breed) -> Option<Line>
    ensures { IsAmongLine query.now ledger.now side breed result }
{
    let set = unsure(query, ledger, side, breed);
    let homes = piece_homes(query, ledger, set);
    let men = number_in(set);
    line_if(homes, men, set)
}
