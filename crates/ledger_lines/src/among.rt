ghost use Rattle.std.specs.Prelude.{◌≡◌, ◌&&◌, ◌||◌, ◌+◌, ◌<◌, ◌≤◌, ◌↔◌, IsTrue, cond};
ghost use Rattle.board_base.specs.Board.{is_in};
ghost use Rattle.ledger_lines.specs.declared.facts.Fact.TheVariants.{Among};
ghost use Rattle.ledger_lines.specs.Known.{AreMen, IsKnown, is_piece_home, is_piece_home_of, number_in, piece_homes};

use crate::captors::is_left;
use crate::knowing::is_man;
use board_base::{Kind, Square, SquareSet, array_of, is_a};
use ledger_search::Ledger;
use query_base::Query;

fn either(first: bool, second: bool) -> bool
    ensures { result ≡ (first || second) }
{
    first || second
}

/// One more if `more` says so.
pub(crate) fn one_more(so_far: u8, more: bool) -> u8
    requires { so_far < 64 }
    ensures { result ≡ so_far + cond more 1 0 }
{
    if more { so_far + 1 } else { so_far }
}

/// How many squares are in the set.
pub fn number_in(set: SquareSet) -> u8
    ensures { result ≡ number_in set }
{
    let mut n = 0;
    for i in 0..64 {
        n = one_more(n, set.has(Square::known(i)));
    }
    n
}

/// Whether the man on the first square may have begun on the second, as no pawn.
fn is_piece_home(query: &Query, ledger: &Ledger, s: Square, h: Square) -> bool
    ensures { result ≡ is_piece_home query.now ledger.now s h }
{
    is_left(query, ledger, s, h) && !is_a(Kind::Pawn, array_of(query.odds).at(h))
}

/// Whether a man of the set stands on the first square, and may have.
fn is_home_of_one(query: &Query, ledger: &Ledger, set: SquareSet, s: Square, h: Square) -> bool
    ensures { result ≡ (is_in set s && is_piece_home query.now ledger.now s h) }
{
    set.has(s) && is_piece_home(query, ledger, s, h)
}

/// Whether some man on the set may have.
fn is_piece_home_of(query: &Query, ledger: &Ledger, set: SquareSet, h: Square) -> bool
    ensures { result ≡ is_piece_home_of query.now ledger.now set h }
{
    let mut found = false;
    for i in 0..64 {
        let here = is_home_of_one(query, ledger, set, Square::known(i), h);
        found = either(found, here);
    }
    found
}

/// How many homes there are on which men on the set may have begun, as no pawns.
pub fn piece_homes(query: &Query, ledger: &Ledger, set: SquareSet) -> u8
    ensures { result ≡ piece_homes query.now ledger.now set }
{
    let mut n = 0;
    for i in 0..64 {
        n = one_more(n, is_piece_home_of(query, ledger, set, Square::known(i)));
    }
    n
}

/// Whether a man stands on each square of the set.
fn are_men(query: &Query, set: SquareSet) -> bool
    ensures { IsTrue result ↔ AreMen query.now set }
{
    for i in 0..64 {
        let s = Square::known(i);
        if set.has(s) && !is_man(query.board.at(s)) {
            return false;
        }
    }
    true
}

/// Whether so many of them at least are known to have begun as pawns: those for whom no other home is left.
pub(crate) fn is_among(query: &Query, ledger: &Ledger, set: SquareSet, number: u8) -> bool
    ensures { IsTrue result ↔ IsKnown (Among set number) query.now ledger.now }
{
    let homes = piece_homes(query, ledger, set);
    let men = number_in(set);
    are_men(query, set) && homes <= men && number <= men - homes
}
