//! The ways of men who count, in words.

ghost use Rattle.std.specs.Prelude.{◌≡◌, ◌++◌, ◌<◌, ◌≤◌, ◌==◌, [], IfOk, codes, cond, length};
ghost use Rattle.std.specs.Fmt.{decimal};
ghost use Rattle.board_base.specs.Texts.{square_text};
ghost use Rattle.assignment.specs.Assignments.{IsInjection};
ghost use Rattle.board_base.specs.Board.{men_squares};
ghost use Rattle.balance_rule.specs.Balance.{men_on};
ghost use Rattle.balance_prose.specs.AccountWords.{counted_man, men_words, moved_words, nth_man};

use crate::words::home_of;
use arrayvec::ArrayVec;
use board_base::{Board, Colour, Man, Square, is_of};
use prose_words::{place_initial, push_number, push_square, say};
use std::alloc::AllocError;

/// The squares of the side's men, at most sixteen, in ascending order.
pub(crate) fn squares_of_men(board: &Board, side: Colour) -> ArrayVec<u8, 16>
    requires { men_on side board.now ≤ 16 }
    ensures { result.items ≡ men_squares side board.now }
{
    let mut men = ArrayVec::new();
    for i in 0..64 {
        if is_of(side, board.at(Square::known(i))) {
            men.push(i);
        }
    }
    men
}

/// A home with a hyphen, if it isn't the square itself.
fn push_home(home: Square, s: Square, out: &mut Vec<u8>) -> Result<(), AllocError>
    ensures { IfOk result (λ _. out.new.items ≡ out.old.items ++ cond (home == s) [] (square_text home ++ codes "-")) }
{
    if home.index() != s.index() {
        push_square(home, out)?;
        say(b"-", out)?;
    }
    Ok(())
}

/// Where a man came from, if he moved, and where he stands.
fn push_moved(
    home: Square,
    place: Option<Man>,
    s: Square,
    out: &mut Vec<u8>,
) -> Result<(), AllocError>
    ensures { IfOk result (λ _. out.new.items ≡ out.old.items ++ moved_words home place s) }
{
    push_home(home, s, out)?;
    say(place_initial(place), out)?;
    push_square(s, out)
}

/// After a comma, the way of a man with what it counts.
fn push_counted(
    home: Square,
    place: Option<Man>,
    s: Square,
    n: u16,
    out: &mut Vec<u8>,
) -> Result<(), AllocError>
    ensures { IfOk result (λ _. out.new.items ≡ out.old.items ++ (codes ", " ++ moved_words home place s ++ codes " " ++ decimal n)) }
{
    say(b", ", out)?;
    push_moved(home, place, s, out)?;
    say(b" ", out)?;
    push_number(n as usize, out)
}

/// The same, if it counts.
fn push_man(
    home: Square,
    place: Option<Man>,
    s: Square,
    n: u16,
    out: &mut Vec<u8>,
) -> Result<(), AllocError>
    ensures { IfOk result (λ _. out.new.items ≡ out.old.items ++ counted_man home place s n) }
{
    if n == 0 {
        Ok(())
    } else {
        push_counted(home, place, s, n, out)
    }
}

/// The ways of all men of a side who count, from these homes.
pub(crate) fn push_men(
    board: &Board,
    side: Colour,
    rows: &[[u16; 16]],
    homes: &[u8],
    list: &mut Vec<u8>,
) -> Result<(), AllocError>
    requires few { length rows.now ≤ 16 }
    requires enough { men_on side board.now ≤ length rows.now }
    requires homes { IsInjection 16 (length rows.now) homes.now }
    ensures { IfOk result (λ _. list.new.items ≡ list.old.items ++ men_words board.now side rows.now homes.now) }
{
    let squares = squares_of_men(board, side);
    for k in 0..squares.len() {
        let home = home_of(side, homes[k]);
        let s = Square::known(squares[k]);
        let cost = rows[k][homes[k] as usize];
        push_man(home, board.at(s), s, cost.saturating_sub(96), list)?;
    }
    Ok(())
}
