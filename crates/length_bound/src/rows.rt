ghost use Rattle.std.specs.Prelude.{◌≡◌, ◌+◌, ◌<◌, ◌≤◌, IfSome, SomeIff, length, map};
ghost use Rattle.std.specs.List.{All, range_with_len};
ghost use Rattle.std.specs.Option.{option_map};
ghost use Rattle.board_base.specs.Board.{men_squares, home_of};
ghost use Rattle.assignment.specs.Tables.{IsTable};
ghost use Rattle.length_bound.specs.SideBounds.{man_row, move_costs, place_cost};

use crate::costs::move_cost;
use arrayvec::ArrayVec;
use board_base::{Board, Colour, Man, Odds, Square, is_of};

/// A home of a side, by its place among the side's sixteen homes in ascending order, from 0.
fn home_of(side: Colour, j: u8) -> Square
    requires { j < 16 }
    ensures { result ≡ home_of side j }
{
    match side {
        Colour::White => Square::known(j),
        Colour::Black => Square::known(48 + j),
    }
}

/// What the man on this place of a square costs from a home; 64 if nobody stands there.
fn place_cost(odds: Odds, place: Option<Man>, s: Square, home: Square) -> u8
    ensures value { result ≡ place_cost odds place s home }
    ensures small { result ≤ 64 }
{
    match place {
        Some(man) => move_cost(odds, man, s, home),
        None => 64,
    }
}

/// What the man on this place of a square costs from each home of a side.
fn man_row(odds: Odds, side: Colour, place: Option<Man>, s: Square) -> [u8; 16]
    ensures value { result ≡ man_row odds side place s }
    ensures small { All (λ cost. cost ≤ 64) result }
{
    let mut row = [0; 16];
    for j in 0..16 {
        row[j as usize] = place_cost(odds, place, s, home_of(side, j));
    }
    row
}

/// The costs of this side's men in a game at these odds: a row for each man, in ascending order of the men's squares, with the cost
/// from each home of the side, in ascending order. None if and only if it has more than sixteen men.
pub fn costs(board: &Board, side: Colour, odds: Odds) -> Option<ArrayVec<[u8; 16], 16>>
    ensures items { SomeIff (option_map (λ costs. costs.items) result) (length (men_squares side board.now) ≤ 16) (move_costs odds side board.now) }
    ensures table { IfSome result (λ costs. IsTable costs.items 16 64) }
{
    let mut costs: ArrayVec<[u8; 16], 16> = ArrayVec::new();
    for i in 0..64 {
        let s = Square::known(i);
        let place = board.at(s);
        if is_of(side, place) {
            if costs.is_full() {
                return None;
            }
            costs.push(man_row(odds, side, place, s));
        }
    }
    Some(costs)
}
