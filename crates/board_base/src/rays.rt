ghost use Rattle.std.specs.Prelude.{◌≡◌, ◌+◌, ◌*◌, ◌<◌, ℕ, true, not, ◌==◌, ◌&&◌};
ghost use Rattle.board_base.specs.Board.{at, file, is_of, is_the, rank};
ghost use Rattle.board_base.specs.Attacks.{attacks, attacks_from, distance, is_open, on_one_diagonal, on_one_line};
ghost use Rattle.board_base.specs.declared.men.Kind.TheVariants.{Knight};
ghost use Rattle.board_base.specs.LinesThrough.{LiesAlong};

use crate::attacks::man_attacks;
use crate::boards::Board;
use crate::lines::{Change, Direction, first_man};
use crate::men::{Colour, Kind, is_the};
use crate::squares::Square;

/// A man of this colour stands on the square and attacks the other.
#[tactic(auto, unfolding(crate::specs::Attacks::attacks_from))]
fn attacks_by(board: &Board, by: Colour, from: Square, to: Square) -> bool
    ensures { result ≡ (is_of by (at board.now from) && attacks_from board.now from to) }
{
    match board.at(from) {
        Some(man) => by == man.colour && man_attacks(board, man, from, to),
        None => false,
    }
}

/// The first man in this direction is of this colour and attacks the square.
fn is_hit(board: &Board, s: Square, by: Colour, direction: Direction) -> bool
    ensures sound { result ≡ true → attacks board.now s by ≡ true }
    ensures complete { (t : ℕ) → t < 64 → LiesAlong direction s t → is_open board.now s t ≡ true → (is_of by (at board.now t) && attacks_from board.now t s) ≡ true → result ≡ true }
{
    match first_man(board, s, direction) {
        Some(from) => {
            from.index();
            attacks_by(board, by, from, s)
        }
        None => false,
    }
}

/// A man of this colour attacks the square along its file or its rank.
fn is_hit_straight(board: &Board, s: Square, by: Colour) -> bool
    ensures sound { result ≡ true → attacks board.now s by ≡ true }
    ensures complete { (t : ℕ) → t < 64 → (not (s == t) && on_one_line s t) ≡ true → is_open board.now s t ≡ true → (is_of by (at board.now t) && attacks_from board.now t s) ≡ true → result ≡ true }
{
    let [falls, stays, rises] = [Change::Falls, Change::Stays, Change::Rises];
    let down = is_hit(board, s, by, Direction::new(falls, stays));
    let left = is_hit(board, s, by, Direction::new(stays, falls));
    let right = is_hit(board, s, by, Direction::new(stays, rises));
    let up = is_hit(board, s, by, Direction::new(rises, stays));
    (down | left) | (right | up)
}

/// A man of this colour attacks the square along a diagonal.
fn is_hit_diagonally(board: &Board, s: Square, by: Colour) -> bool
    ensures sound { result ≡ true → attacks board.now s by ≡ true }
    ensures complete { (t : ℕ) → t < 64 → (not (s == t) && on_one_diagonal s t) ≡ true → is_open board.now s t ≡ true → (is_of by (at board.now t) && attacks_from board.now t s) ≡ true → result ≡ true }
{
    let [falls, rises] = [Change::Falls, Change::Rises];
    let down_left = is_hit(board, s, by, Direction::new(falls, falls));
    let down_right = is_hit(board, s, by, Direction::new(falls, rises));
    let up_left = is_hit(board, s, by, Direction::new(rises, falls));
    let up_right = is_hit(board, s, by, Direction::new(rises, rises));
    (down_left | down_right) | (up_left | up_right)
}

/// A knight of this colour stands there, a knight's move from the square.
fn is_knight(board: &Board, s: Square, by: Colour, row: u8, column: u8) -> bool
    requires on_rank { row < 8 }
    requires on_file { column < 8 }
    requires away { distance row (rank s) * distance column (file s) ≡ 2 }
    ensures sound { result ≡ true → attacks board.now s by ≡ true }
    ensures exact { result ≡ is_the by Knight (at board.now (8 * row + column)) }
{
    is_the(by, Kind::Knight, board.at(Square::known(8 * row + column)))
}

/// A knight of this colour stands on this rank, so many files left of the square.
fn is_knight_left(board: &Board, s: Square, by: Colour, row: u8, off: u8) -> bool
    requires on_rank { row < 8 }
    requires away { distance row (rank s) * off ≡ 2 }
    ensures sound { result ≡ true → attacks board.now s by ≡ true }
    ensures complete { (t : ℕ) → rank t ≡ row → file t + off ≡ file s → is_the by Knight (at board.now t) ≡ true → result ≡ true }
{
    let column = s.file();
    off <= column && is_knight(board, s, by, row, column - off)
}

/// A knight of this colour stands on this rank, so many files right of the square.
fn is_knight_right(board: &Board, s: Square, by: Colour, row: u8, off: u8) -> bool
    requires on_rank { row < 8 }
    requires away { distance row (rank s) * off ≡ 2 }
    ensures sound { result ≡ true → attacks board.now s by ≡ true }
    ensures complete { (t : ℕ) → rank t ≡ row → file t ≡ file s + off → is_the by Knight (at board.now t) ≡ true → result ≡ true }
{
    let column = s.file();
    off < 8 - column && is_knight(board, s, by, row, column + off)
}

/// A knight of this colour stands on this rank, so many files from the square.
fn is_knight_on(board: &Board, s: Square, by: Colour, row: u8, off: u8) -> bool
    requires on_rank { row < 8 }
    requires away { distance row (rank s) * off ≡ 2 }
    ensures sound { result ≡ true → attacks board.now s by ≡ true }
    ensures complete { (t : ℕ) → rank t ≡ row → distance (file t) (file s) ≡ off → is_the by Knight (at board.now t) ≡ true → result ≡ true }
{
    let left = is_knight_left(board, s, by, row, off);
    let right = is_knight_right(board, s, by, row, off);
    left | right
}

/// A knight of this colour stands so many ranks below the square, and so many files from it.
fn is_knight_below(board: &Board, s: Square, by: Colour, ranks: u8, off: u8) -> bool
    requires { ranks * off ≡ 2 }
    ensures sound { result ≡ true → attacks board.now s by ≡ true }
    ensures complete { (t : ℕ) → rank t + ranks ≡ rank s → distance (file t) (file s) ≡ off → is_the by Knight (at board.now t) ≡ true → result ≡ true }
{
    let row = s.rank();
    ranks <= row && is_knight_on(board, s, by, row - ranks, off)
}

/// A knight of this colour stands so many ranks above the square, and so many files from it.
fn is_knight_above(board: &Board, s: Square, by: Colour, ranks: u8, off: u8) -> bool
    requires { ranks * off ≡ 2 }
    ensures sound { result ≡ true → attacks board.now s by ≡ true }
    ensures complete { (t : ℕ) → t < 64 → rank t ≡ rank s + ranks → distance (file t) (file s) ≡ off → is_the by Knight (at board.now t) ≡ true → result ≡ true }
{
    s.index();
    let row = s.rank();
    ranks < 8 - row && is_knight_on(board, s, by, row + ranks, off)
}

/// A knight of this colour attacks the square.
fn is_hit_by_knight(board: &Board, s: Square, by: Colour) -> bool
    ensures sound { result ≡ true → attacks board.now s by ≡ true }
    ensures complete { (t : ℕ) → t < 64 → is_the by Knight (at board.now t) ≡ true → distance (rank t) (rank s) * distance (file t) (file s) ≡ 2 → result ≡ true }
{
    let below = is_knight_below(board, s, by, 1, 2);
    let far_below = is_knight_below(board, s, by, 2, 1);
    let above = is_knight_above(board, s, by, 1, 2);
    let far_above = is_knight_above(board, s, by, 2, 1);
    (below | far_below) | (above | far_above)
}

impl Board {
    /// Whether a man of this colour attacks the square by articles 3.1 to 3.8. A man attacks it even if its own move there would
    /// leave its king open to attack, and whoever stands on the square.
    pub fn attacked(&self, s: Square, by: Colour) -> bool
        ensures { result ≡ attacks self.now s by }
    {
        let straight = is_hit_straight(self, s, by);
        let diagonal = is_hit_diagonally(self, s, by);
        let knight = is_hit_by_knight(self, s, by);
        (straight | diagonal) | knight
    }
}
