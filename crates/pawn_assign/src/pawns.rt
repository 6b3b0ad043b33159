ghost use Rattle.std.specs.Prelude.{◌≡◌, ◌||◌, ◌<◌, ◌≤◌, SomeIff, length, not};
ghost use Rattle.std.specs.List.{All};
ghost use Rattle.board_base.specs.Board.{is_in};
ghost use Rattle.pawn_assign.specs.PawnCosts.{can_come, pawn_cost, pawn_costs, pawn_home, pawn_row, pawn_squares};

use crate::table::Costs;
use board_base::{Board, Colour, Kind, Odds, Square, is_the};

/// Whether a pawn that began on this file, from 0 for a to 7 for h, can have come to this square.
#[tactic(auto, unfolding(board_base::specs::Attacks::distance))]
fn can_come(side: Colour, s: Square, file: u8) -> bool
    requires { file < 8 }
    ensures { result ≡ can_come side s file }
{
    let aside = s.file().abs_diff(file);
    match side {
        Colour::White => aside + 1 <= s.rank(),
        Colour::Black => aside + s.rank() <= 6,
    }
}

/// Whether the pawn of this side that begins on this file, from 0 for a to 7 for h, is left out.
fn lacks_pawn(odds: Odds, side: Colour, file: u8) -> bool
    requires { file < 8 }
    ensures { result ≡ is_in odds (pawn_home side file) }
{
    let home = match side {
        Colour::White => 8 + file,
        Colour::Black => 48 + file,
    };
    odds.set().has(Square::known(home))
}

/// Whether a pawn of this side on this square can't have begun on this file, from 0 for a to 7 for h.
fn is_ruled_out(odds: Odds, side: Colour, s: Square, file: u8) -> bool
    requires { file < 8 }
    ensures { result ≡ (is_in odds (pawn_home side file) || not (can_come side s file)) }
{
    lacks_pawn(odds, side, file) || !can_come(side, s, file)
}

/// What a pawn of this side on this square costs from this file, from 0 for a to 7 for h.
#[tactic(auto, unfolding(board_base::specs::Attacks::distance, crate::specs::PawnCosts::pawn_cost))]
fn pawn_cost(odds: Odds, side: Colour, s: Square, file: u8) -> u8
    requires { file < 8 }
    ensures value { result ≡ pawn_cost odds side s file }
    ensures small { result ≤ 64 }
{
    if is_ruled_out(odds, side, s, file) {
        64
    } else {
        s.file().abs_diff(file)
    }
}

/// What a pawn of this side on this square costs from each file.
fn pawn_row(odds: Odds, side: Colour, s: Square) -> [u8; 8]
    ensures value { result ≡ pawn_row odds side s }
    ensures small { All (λ cost. cost ≤ 64) result }
{
    let mut row = [0; 8];
    for file in 0..8 {
        row[file as usize] = pawn_cost(odds, side, s, file);
    }
    row
}

/// The costs of this side's pawns in a game at these odds; None if and only if it has more than eight. From a file whose pawn of the
/// side is left out each costs 64.
pub fn costs(board: &Board, side: Colour, odds: Odds) -> Option<Costs>
    ensures { SomeIff result (length (pawn_squares side board.now) ≤ 8) (pawn_costs odds side board.now) }
{
    let mut costs = Costs::new();
    for i in 0..64 {
        let s = Square::known(i);
        if is_the(side, Kind::Pawn, board.at(s)) {
            if costs.rows() == 8 {
                return None;
            }
            costs.push(pawn_row(odds, side, s));
        }
    }
    Some(costs)
}
