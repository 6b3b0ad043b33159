ghost use Rattle.std.specs.Prelude.{◌≡◌, ◌<◌, ◌≤◌, ◌+◌, ◌*◌, ◌⊎◌, ℕ, true, false, IfSome, IfNone, Some};
ghost use Rattle.board_base.specs.Board.{at, file, is_empty, rank};
ghost use Rattle.board_base.specs.Attacks.{is_open};
ghost use Rattle.board_base.specs.Ways.{IsOff, along, changed};
ghost use Rattle.board_base.specs.LinesThrough.{LiesAlong};
ghost use Rattle.board_base.specs.Growth.{fall, rise};

use crate::boards::Board;
use crate::squares::Square;

/// How a rank or a file changes at each step along a line.
#[derive(Clone, Copy)]
pub enum Change {
    /// By one down, or towards file a.
    Falls,
    /// Not at all.
    Stays,
    /// By one up, or towards file h.
    Rises,
}

/// One of the eight ways from a square along its file, its rank or a diagonal.
#[derive(Clone, Copy)]
pub struct Direction {
    /// How the rank changes.
    pub ranks: Change,
    /// How the file changes.
    pub files: Change,
}

impl Direction {
    /// The direction in which ranks and files change so.
    pub fn new(ranks: Change, files: Change) -> Direction
        ensures { result ≡ record { ranks = ranks; files = files } }
    {
        Direction { ranks, files }
    }
}

/// The rank or file `steps` on from `start`, if it is on the board.
fn changed(change: Change, start: u8, steps: u8) -> Option<u8>
    requires inside { start < 8 }
    requires few { steps < 8 }
    ensures value { IfSome result (λ end. end ≡ changed change start steps) }
    ensures on_board { IfSome result (λ end. (end < 8) × (IsOff change start steps → ⊥)) }
    ensures off { IfNone result (IsOff change start steps) }
{
    match change {
        Change::Falls => start.checked_sub(steps),
        Change::Stays => Some(start),
        Change::Rises => {
            if start + steps < 8 {
                Some(start + steps)
            } else {
                None
            }
        }
    }
}

/// The square so many steps on from `start`, at most seven; None if and only if it is off the board.
pub fn along(direction: Direction, start: Square, steps: u8) -> Option<Square>
    requires { steps < 8 }
    ensures value { IfSome result (λ end. end ≡ along direction start steps) }
    ensures on_board { IfSome result (λ end. (IsOff direction.ranks (rank start) steps → ⊥) × (IsOff direction.files (file start) steps → ⊥)) }
    ensures off { IfNone result (IsOff direction.ranks (rank start) steps ⊎ IsOff direction.files (file start) steps) }
{
    let rank = changed(direction.ranks, start.rank(), steps)?;
    let file = changed(direction.files, start.file(), steps)?;
    Some(Square::known(8 * rank + file))
}

/// For how many steps a rank or a file that changes so stays on the board, at most seven.
fn room(change: Change, start: u8) -> u8
    requires { start < 8 }
    ensures few { result < 8 }
    ensures inside { IsOff change start result → ⊥ }
    ensures off { result < 7 → IsOff change start (result + 1) }
{
    match change {
        Change::Falls => start,
        Change::Stays => 7,
        Change::Rises => 7 - start,
    }
}

/// By how much a rank or a file rises at a step, and by how much it falls.
fn changes(change: Change) -> (u8, u8)
    ensures rise { result.0 ≡ rise change }
    ensures fall { result.1 ≡ fall change }
    ensures small { (result.0 ≤ 1) × (result.1 ≤ 1) }
{
    match change {
        Change::Falls => (0, 1),
        Change::Stays => (0, 0),
        Change::Rises => (1, 0),
    }
}

/// By how much the number of a square rises at a step in this direction, and by how much it falls.
fn growth(direction: Direction) -> (u8, u8)
    ensures rise { result.0 ≡ 8 * rise direction.ranks + rise direction.files }
    ensures fall { result.1 ≡ 8 * fall direction.ranks + fall direction.files }
    ensures small { result.0 ≤ 9 }
{
    let (rank_up, rank_down) = changes(direction.ranks);
    let (file_up, file_down) = changes(direction.files);
    (8 * rank_up + file_up, 8 * rank_down + file_down)
}

/// The square of the first man in this direction: of each man to whom the line is open he is the one.
pub(crate) fn first_man(board: &Board, from: Square, direction: Direction) -> Option<Square>
    ensures { (t : ℕ) → t < 64 → LiesAlong direction from t → is_open board.now from t ≡ true → is_empty (at board.now t) ≡ false → result ≡ Some t }
{
    let room = room(direction.ranks, from.rank()).min(room(direction.files, from.file()));
    let (up, down) = growth(direction);
    let mut number = from.index();
    for _ in 0..room {
        number = number + up - down;
        let to = Square::known(number);
        if board.at(to).is_some() {
            return Some(to);
        }
    }
    None
}
