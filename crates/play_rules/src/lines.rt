ghost use Rattle.std.specs.Prelude.{◌≡◌, ◌<◌, ℕ, true};
ghost use Rattle.board_base.specs.Board.{is_in};
ghost use Rattle.board_base.specs.Attacks.{is_open};
ghost use Rattle.board_base.specs.LinesThrough.{LiesAlong};
ghost use Rattle.play_rules.specs.Reach.{IsWithin};

use crate::sets::add;
use board_base::{Board, Direction, Square, SquareSet, along};

/// Adds the squares in this direction up to the first man, and his.
pub fn add_line(board: &Board, from: Square, direction: Direction, targets: &mut SquareSet)
    ensures kept { IsWithin targets.old targets.new }
    ensures added { (t : ℕ) → t < 64 → LiesAlong direction from t → is_open board.now from t ≡ true → is_in targets.new t ≡ true }
{
    for steps in 1..8 {
        let Some(to) = along(direction, from, steps) else {
            return;
        };
        add(targets, to);
        if board.at(to).is_some() {
            return;
        }
    }
}
