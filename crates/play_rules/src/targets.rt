ghost use Rattle.std.specs.Prelude.{◌≡◌, ◌<◌, ◌&&◌, ◌==◌, ℕ, not, true};
ghost use Rattle.board_base.specs.Board.{is_in, rank};
ghost use Rattle.board_base.specs.Attacks.{is_open, on_one_diagonal, on_one_line};
ghost use Rattle.play_rules.specs.Reach.{IsWithin};
ghost use Rattle.play_rules.specs.Ways.{may_reach, may_step};

use crate::lines::add_line;
use crate::sets::add;
use board_base::{
    Board, Change, Direction, Kind, Man, Square, SquareSet, files_between, is_ahead, ranks_between,
};

/// Adds the squares on the file and the rank up to the first men.
fn add_straight(board: &Board, from: Square, targets: &mut SquareSet)
    ensures kept { IsWithin targets.old targets.new }
    ensures added { (t : ℕ) → t < 64 → (not (from == t) && on_one_line from t && is_open board.now from t) ≡ true → is_in targets.new t ≡ true }
{
    let [falls, stays, rises] = [Change::Falls, Change::Stays, Change::Rises];
    add_line(board, from, Direction::new(falls, stays), targets);
    add_line(board, from, Direction::new(stays, falls), targets);
    add_line(board, from, Direction::new(stays, rises), targets);
    add_line(board, from, Direction::new(rises, stays), targets);
}

/// Adds the squares on the diagonals up to the first men.
fn add_diagonal(board: &Board, from: Square, targets: &mut SquareSet)
    ensures kept { IsWithin targets.old targets.new }
    ensures added { (t : ℕ) → t < 64 → (not (from == t) && on_one_diagonal from t && is_open board.now from t) ≡ true → is_in targets.new t ≡ true }
{
    let [falls, rises] = [Change::Falls, Change::Rises];
    add_line(board, from, Direction::new(falls, falls), targets);
    add_line(board, from, Direction::new(falls, rises), targets);
    add_line(board, from, Direction::new(rises, falls), targets);
    add_line(board, from, Direction::new(rises, rises), targets);
}

/// A pawn, a knight or a king may go so, whatever stands on the board.
#[tactic(auto, unfolding(crate::specs::Ways::may_step))]
fn may_step(man: Man, from: Square, to: Square) -> bool
    ensures { result ≡ may_step man.colour man.kind from to }
{
    let files = files_between(from, to);
    let ranks = ranks_between(from, to);
    match man.kind {
        Kind::Pawn => {
            (is_ahead(man.colour, from, to) && files < 2)
                || (from.file() == to.file() && ranks == 2)
        }
        Kind::Knight => files * ranks == 2,
        Kind::King => files < 3 && ranks < 2,
        _ => false,
    }
}

/// Adds the square if the man may step there.
fn add_step(man: Man, from: Square, to: Square, targets: &mut SquareSet)
    ensures kept { IsWithin targets.old targets.new }
    ensures added { may_step man.colour man.kind from to ≡ true → is_in targets.new to ≡ true }
{
    if may_step(man, from, to) {
        add(targets, to);
    }
}

/// Adds the squares on this rank that the man may step to.
fn add_rank(man: Man, from: Square, row: u8, targets: &mut SquareSet)
    requires { row < 8 }
    ensures kept { IsWithin targets.old targets.new }
    ensures added { (t : ℕ) → rank t ≡ row → may_step man.colour man.kind from t ≡ true → is_in targets.new t ≡ true }
{
    let file = from.file();
    for file in file.saturating_sub(2)..(file + 3).min(8) {
        add_step(man, from, Square::known(8 * row + file), targets);
    }
}

/// Adds the squares that the man may step to. They are at most two ranks and files away.
fn add_steps(man: Man, from: Square, targets: &mut SquareSet)
    ensures kept { IsWithin targets.old targets.new }
    ensures added { (t : ℕ) → t < 64 → may_step man.colour man.kind from t ≡ true → is_in targets.new t ≡ true }
{
    let rank = from.rank();
    for row in rank.saturating_sub(2)..(rank + 3).min(8) {
        add_rank(man, from, row, targets);
    }
}

/// A set of squares outside which the man on `from` has no legal move.
#[tactic(auto, unfolding(crate::specs::Ways::may_reach, board_base::specs::Attacks::kind_attacks))]
pub fn targets_of(board: &Board, man: Man, from: Square) -> SquareSet
    ensures { (t : ℕ) → t < 64 → may_reach board.now man.colour man.kind from t ≡ true → is_in result t ≡ true }
{
    let mut targets = SquareSet::from_bits(0);
    match man.kind {
        Kind::Pawn | Kind::Knight | Kind::King => add_steps(man, from, &mut targets),
        Kind::Bishop => add_diagonal(board, from, &mut targets),
        Kind::Rook => add_straight(board, from, &mut targets),
        Kind::Queen => {
            add_straight(board, from, &mut targets);
            add_diagonal(board, from, &mut targets);
        }
    }
    targets
}
