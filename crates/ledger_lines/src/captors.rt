//! How many captures single pawns are known to have made.

ghost use Rattle.std.specs.Prelude.{◌≡◌, ◌≤◌, cond};
ghost use Rattle.ledger_lines.specs.Known.{has_taken, is_far, is_left, is_nearer, is_other_pawn, least_taken, taken_by_others};

use crate::among::one_more;
use crate::knowing::is_asked;
use board_base::{Colour, Kind, Square, array_of, files_between, is_the};
use ledger_search::Ledger;
use query_base::Query;

/// Whether the second square is a home of the side of the man on the first one that isn't ruled out for him.
pub fn is_left(query: &Query, ledger: &Ledger, s: Square, h: Square) -> bool
    ensures { result ≡ is_left query.now ledger.now s h }
{
    let ruled_out = ledger.homes[s.index() as usize];
    is_asked(&query.board, &array_of(query.odds), s, h) && !ruled_out.has(h)
}

/// Whether it is one that is fewer than so many files away.
fn is_nearer(query: &Query, ledger: &Ledger, s: Square, number: u8, h: Square) -> bool
    ensures { result ≡ is_nearer query.now ledger.now s number h }
{
    is_left(query, ledger, s, h) && files_between(h, s) < number
}

/// Whether each home that is left for the man on a square is at least so many files away.
fn is_far(query: &Query, ledger: &Ledger, s: Square, number: u8) -> bool
    ensures { result ≡ is_far query.now ledger.now s number }
{
    for i in 0..64 {
        if is_nearer(query, ledger, s, number, Square::known(i)) {
            return false;
        }
    }
    true
}

/// Whether the pawn on a square is known to have made at least so many captures.
pub(crate) fn has_taken(query: &Query, ledger: &Ledger, s: Square, number: u8) -> bool
    ensures { result ≡ has_taken query.now ledger.now s number }
{
    is_far(query, ledger, s, number) || (number <= 1 && ledger.captured.has(s))
}

/// How many, up to 7, he is known to have made at least.
fn least_taken(query: &Query, ledger: &Ledger, s: Square) -> u8
    ensures number { result ≡ least_taken query.now ledger.now s }
    ensures few { result ≤ 7 }
{
    let mut n = 0;
    for i in 0..7 {
        n = one_more(n, has_taken(query, ledger, s, i + 1));
    }
    n
}

/// Whether another pawn of this side than the one on the first square stands on the second.
fn is_other_pawn(query: &Query, side: Colour, s: Square, t: Square) -> bool
    ensures { result ≡ is_other_pawn query.now side s t }
{
    is_the(side, Kind::Pawn, query.board.at(t)) && t.index() != s.index()
}

/// How many captures he is known to have made at least, if there is one.
fn taken_by_other(query: &Query, ledger: &Ledger, side: Colour, s: Square, t: Square) -> u16
    ensures number { result ≡ cond (is_other_pawn query.now side s t) (least_taken query.now ledger.now t) 0 }
    ensures few { result ≤ 7 }
{
    if is_other_pawn(query, side, s, t) {
        least_taken(query, ledger, t) as u16
    } else {
        0
    }
}

/// How many captures the pawns of a side besides the one on a square are known to have made at least, each for himself.
pub(crate) fn taken_by_others(query: &Query, ledger: &Ledger, side: Colour, s: Square) -> u16
    ensures number { result ≡ taken_by_others query.now ledger.now side s }
    ensures few { result ≤ 448 }
{
    let mut sum = 0;
    for i in 0..64 {
        sum += taken_by_other(query, ledger, side, s, Square::known(i));
    }
    sum
}
