ghost use Rattle.std.specs.Prelude.{◌≡◌, ℕ, ◌<◌, ◌==◌, true, false, length};
ghost use Rattle.board_base.specs.Board.{is_in};
ghost use Rattle.check_origins.specs.Near.{AreArrivals, is_near_checker};

use crate::near::is_near_checker;
use board_base::{Board, Colour, Square, SquareSet, in_check};

fn all_squares() -> SquareSet
    ensures size { length result ≡ 64 }
    ensures all { (t : ℕ) → t < 64 → is_in result t ≡ true }
{
    SquareSet::from_bits(u64::MAX)
}

fn no_squares() -> SquareSet
    ensures size { length result ≡ 64 }
    ensures none { (t : ℕ) → t < 64 → is_in result t ≡ false }
{
    SquareSet::from_bits(0)
}

fn only_square(s: Square) -> SquareSet
    ensures size { length result ≡ 64 }
    ensures one { (t : ℕ) → t < 64 → is_in result t ≡ (t == s) }
{
    s.index();
    no_squares().with(s)
}

/// Where the last move can have ended, with this side to move: a check by a knight, by a pawn, or by a man on the next square can't
/// have been uncovered, so the man who gives it has just come. All squares if there is no such checker, his square if there is one,
/// and none if there are more. In a list of retractions each target is one of these.
pub fn origins(board: &Board, turn: Colour) -> SquareSet
    ensures { AreArrivals board.now turn result }
{
    if !in_check(board, turn) {
        return all_squares();
    }
    let mut found = None;
    for i in 0..64 {
        let s = Square::known(i);
        if is_near_checker(board, turn, s) {
            if found.is_some() {
                return no_squares();
            }
            found = Some(s);
        }
    }
    match found {
        Some(s) => only_square(s),
        None => all_squares(),
    }
}
