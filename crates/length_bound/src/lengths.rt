ghost use Rattle.std.specs.Prelude.{◌≡◌, ◌+◌, ◌-◌, ◌<◌, ◌≤◌, ◌↔◌, ◌+ℤ◌, ◌≤ℤ◌, pos, cond, List, length, SomeIff, IfSome, IsNone};
ghost use Rattle.board_base.specs.declared.moves.Move.{Move};
ghost use Rattle.board_base.specs.Board.{men_squares};
ghost use Rattle.assignment.specs.Assignments.{least_cost, total};
ghost use Rattle.query_base.specs.Reach.{Reaches};
ghost use Rattle.length_bound.specs.SideBounds.{IsSideBound, at_least_0, holds_some, length_with, move_costs, moves_shown};

use crate::man_potentials::ManPotentials;
use crate::rows::costs;
use assignment::{bound, solve};
use board_base::{Board, Castle, CastleSet, Colour, Odds};
use query_base::Query;

/// Whether the set has a castling of this side.
fn holds_some(side: Colour, held: CastleSet) -> bool
    ensures { result ≡ holds_some side held }
{
    match side {
        Colour::White => held.has(Castle::WhiteShort) || held.has(Castle::WhiteLong),
        Colour::Black => held.has(Castle::BlackShort) || held.has(Castle::BlackLong),
    }
}

/// The sum of potentials, or 0 if it is below 0.
fn at_least_0(sum: i32) -> u16
    requires { sum ≤ℤ pos 1024 }
    ensures value { result ≡ at_least_0 sum }
    ensures small { result ≤ 1024 }
{
    if sum > 0 { sum as u16 } else { 0 }
}

/// The moves that potentials of this sum show a side to have made, with the castlings whose rights are held: two less than the sum
/// if the side may have castled.
fn moves_shown(side: Colour, held: CastleSet, sum: i32) -> u16
    requires { sum ≤ℤ pos 1024 }
    ensures value { result ≡ at_least_0 sum - cond (holds_some side held) 0 2 }
    ensures small { result ≤ 1024 }
{
    if holds_some(side, held) {
        at_least_0(sum)
    } else {
        at_least_0(sum).saturating_sub(2)
    }
}

/// The least length, in half-moves, of a game in which a side makes at least so many moves, with this side to move after it.
fn length_with(side: Colour, turn: Colour, moves: u16) -> u16
    requires { moves ≤ 1024 }
    ensures value { result ≡ length_with side turn moves }
    ensures small { result ≤ 2049 }
{
    match side {
        Colour::White => match turn {
            Colour::White => 2 * moves,
            Colour::Black => 2 * moves.max(1) - 1,
        },
        Colour::Black => match turn {
            Colour::White => 2 * moves,
            Colour::Black => 2 * moves + 1,
        },
    }
}

/// The sum of the potentials, if the costs of the side's men at these odds bound them; None if and only if they don't.
fn sum_of(board: &Board, side: Colour, odds: Odds, p: &ManPotentials) -> Option<i32>
    ensures sum { SomeIff result (IsSideBound odds side board.now p.now.u p.now.v) (total p.now.u +ℤ total p.now.v) }
    ensures small { IfSome result (λ sum. sum ≤ℤ pos 1024) }
{
    match costs(board, side, odds) {
        Some(costs) => bound(costs.as_slice(), p.u(), p.v()),
        None => None,
    }
}

/// The length that the potentials show; None if and only if the costs of the side's men don't bound them.
fn length_shown(query: &Query, side: Colour, p: &ManPotentials) -> Option<u16>
    ensures value { SomeIff result (IsSideBound query.now.odds side query.now.board p.now.u p.now.v) (length_with side query.now.turn (moves_shown side query.now.held p.now.u p.now.v)) }
    ensures small { IfSome result (λ n. n ≤ 2049) }
{
    match sum_of(&query.board, side, query.odds, p) {
        Some(sum) => Some(length_with(side, query.turn, moves_shown(side, query.held, sum))),
        None => None,
    }
}

/// How long each game that reaches the query is at least, in half-moves, as potentials of a side's men show it: no game with fewer
/// reaches the query. None if and only if there isn't one number `u` for each of the side's men, or if what the men need from the
/// side's homes doesn't bound the potentials. A length is at most 2049.
pub fn length_of(query: &Query, side: Colour, p: &ManPotentials) -> Option<u16>
    ensures answer { SomeIff result (IsSideBound query.now.odds side query.now.board p.now.u p.now.v) (length_with side query.now.turn (moves_shown side query.now.held p.now.u p.now.v)) }
    ensures least { IfSome result (λ n. (g : List Move) → Reaches g query.now → n ≤ length g) }
    ensures small { IfSome result (λ n. n ≤ 2049) }
{
    length_shown(query, side, p)
}

/// Potentials for which `length_of` isn't None, with the greatest sum: the least cost of giving each man of the side a home of his own.
/// None if and only if the side has more than sixteen men.
pub fn best(query: &Query, side: Colour) -> Option<ManPotentials>
    ensures bounded { IfSome result (λ p. IsSideBound query.now.odds side query.now.board p.u p.v) }
    ensures greatest { IfSome result (λ p. (total p.u +ℤ total p.v) ≡ pos (least_cost 16 (move_costs query.now.odds side query.now.board))) }
    ensures none { IsNone result ↔ (16 < length (men_squares side query.now.board)) }
{
    match costs(&query.board, side, query.odds) {
        Some(costs) => {
            let solution = solve(costs.as_slice());
            Some(ManPotentials::known(solution.u.as_slice(), &solution.v))
        }
        None => None,
    }
}
