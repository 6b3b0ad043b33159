//! How many captures on each class of squares are told.

ghost use Rattle.std.specs.Prelude.{◌≡◌, ◌<◌, cond, map};
ghost use Rattle.std.specs.List.{range_with_len};
ghost use Rattle.ledger_told.specs.Due.{is_class_told, tells_class_at, told_on};

use crate::pawns::{homes_left, is_moving};
use board_base::{Colour, Square};
use ledger_lines::{counts_of, tells_class};
use ledger_search::Ledger;
use query_base::Query;

/// Whether the line of a pawn of this side on a square tells his way, with a capture on the class.
fn tells_class_at(query: &Query, ledger: &Ledger, side: Colour, class: u8, s: Square) -> bool
    ensures { result ≡ tells_class_at query.now ledger.now side class s }
{
    is_moving(query, ledger, side, s) && tells_class(class, homes_left(query, ledger, s), s)
}

/// Whether the line of some pawn of this side does.
fn is_class_told(query: &Query, ledger: &Ledger, side: Colour, class: u8) -> bool
    ensures { result ≡ is_class_told query.now ledger.now side class }
{
    for i in 0..64 {
        if tells_class_at(query, ledger, side, class, Square::known(i)) {
            return true;
        }
    }
    false
}

/// The number, or none if the line of a pawn tells a capture.
fn none_if(told: bool, number: u8) -> u8
    ensures { result ≡ cond told 0 number }
{
    if told { 0 } else { number }
}

/// How many captures on the class are told.
fn told_on(query: &Query, ledger: &Ledger, side: Colour, class: u8) -> u8
    requires { class < 16 }
    ensures { result ≡ told_on query.now ledger.now side class }
{
    let least = counts_of(ledger, side).least_on[class as usize];
    none_if(is_class_told(query, ledger, side, class), least)
}

/// How many on each are.
pub(crate) fn told_on_each(query: &Query, ledger: &Ledger, side: Colour) -> [u8; 16]
    ensures { result ≡ map (told_on query.now ledger.now side) (range_with_len 0 16) }
{
    let mut numbers = [0; 16];
    for k in 0..16 {
        numbers[k as usize] = told_on(query, ledger, side, k);
    }
    numbers
}
