ghost use Rattle.std.specs.Prelude.{◌≡◌, ◌-◌, ◌<◌, ◌≤◌, ◌++◌, Bool, List, IfSome, SomeIff, length, map, replicate};
ghost use Rattle.std.specs.Option.{option_map};
ghost use Rattle.std.specs.List.{All};
ghost use Rattle.board_base.specs.Board.{array_of, men_squares, home_of};
ghost use Rattle.assignment.specs.Tables.{IsTable};
ghost use Rattle.capture_prices.specs.Prices.{PriceList};
ghost use Rattle.balance_rule.specs.Balance.{cost_table, gone_row, men_on, stand_row};
ghost use Rattle.balance_rule.specs.Costs.{never};
ghost use Rattle.balance_rule.specs.Grounds.{IsGround};
ghost use Rattle.balance_rule.specs.LeastWays.{seen_by};

use crate::fates::{gone, stands};
use crate::grounds::Ground;
use arrayvec::ArrayVec;
use board_base::{Board, Colour, Odds, Square, array_of, is_of};

/// The number of a side's home, as the side sees the board, by its place among the side's sixteen homes in ascending order.
pub fn number_of_home(side: Colour, j: u8) -> u8
    requires { j < 16 }
    ensures home { seen_by side result ≡ home_of side j }
    ensures few { result < 16 }
{
    match side {
        Colour::White => j,
        Colour::Black => 15 - j,
    }
}

/// What it costs that the man on a square began on each of the side's homes.
fn stand_row(ground: &Ground, board: &Board, s: Square) -> [u16; 16]
    ensures small { All (λ cost. cost ≤ never) result }
    ensures value { (o : List Bool) (p : PriceList) → IsGround o p ground.now → result ≡ stand_row p ground.now.frozen ground.now.side (array_of o) board.now s }
{
    let place = board.at(s);
    let mut row = [0; 16];
    for j in 0..16 {
        row[j as usize] = stands(ground, number_of_home(ground.side, j), place, s);
    }
    row
}

/// What it costs that the man of each of the side's homes is gone.
pub fn gone_row(ground: &Ground) -> [u16; 16]
    ensures small { All (λ cost. cost ≤ never) result }
    ensures value { (o : List Bool) (p : PriceList) → IsGround o p ground.now → result ≡ gone_row p ground.now.frozen ground.now.side (array_of o) }
{
    let mut row = [0; 16];
    for j in 0..16 {
        row[j as usize] = gone(ground, number_of_home(ground.side, j));
    }
    row
}

/// How many men a side has.
fn men_on(board: &Board, side: Colour) -> u8
    ensures number { result ≡ men_on side board.now }
    ensures few { result ≤ 64 }
{
    let mut n = 0;
    for i in 0..64 {
        if is_of(side, board.at(Square::known(i))) {
            n += 1;
        }
    }
    n
}

/// With how many men a side begins at these odds.
pub fn begun_with(side: Colour, odds: Odds) -> u8
    ensures number { result ≡ men_on side (array_of odds) }
    ensures few { result ≤ 16 }
{
    men_on(&array_of(odds), side)
}

/// What each man of the side costs from each of its homes, in ascending order of their squares; None if and only if there are more than
/// so many.
fn stand_rows(ground: &Ground, board: &Board, begun: u8) -> Option<ArrayVec<[u16; 16], 16>>
    requires { begun ≤ 16 }
    ensures few { IfSome result (λ rows. length rows.items ≤ begun) }
    ensures table { IfSome result (λ rows. IsTable rows.items 16 never) }
    ensures items { (o : List Bool) (p : PriceList) → IsGround o p ground.now → SomeIff (option_map (λ rows. rows.items) result) (men_on ground.now.side board.now ≤ begun) (map (stand_row p ground.now.frozen ground.now.side (array_of o) board.now) (men_squares ground.now.side board.now)) }
{
    let mut rows: ArrayVec<[u16; 16], 16> = ArrayVec::new();
    for i in 0..64 {
        let s = Square::known(i);
        if is_of(ground.side, board.at(s)) {
            if rows.len() == begun as usize {
                return None;
            }
            rows.push(stand_row(ground, board, s));
        }
    }
    Some(rows)
}

/// Adds a row until there are so many, at most 16.
pub fn fill_up(rows: &mut ArrayVec<[u16; 16], 16>, row: [u16; 16], begun: u8)
    requires begun { begun ≤ 16 }
    requires room { length rows.old.items ≤ begun }
    requires table { IsTable rows.old.items 16 never }
    requires small { All (λ cost. cost ≤ never) row }
    ensures table { IsTable rows.new.items 16 never }
    ensures items { rows.new.items ≡ rows.old.items ++ replicate (begun - length rows.old.items) row }
{
    for _ in rows.len()..begun as usize {
        rows.push(row);
    }
}

/// A row for each man of the side, and one for each who is missing of so many; None if and only if it has more.
pub fn cost_table(ground: &Ground, board: &Board, begun: u8) -> Option<ArrayVec<[u16; 16], 16>>
    requires { begun ≤ 16 }
    ensures table { IfSome result (λ rows. IsTable rows.items 16 never) }
    ensures items { (o : List Bool) (p : PriceList) → IsGround o p ground.now → begun ≡ men_on ground.now.side (array_of o) → SomeIff (option_map (λ rows. rows.items) result) (men_on ground.now.side board.now ≤ begun) (cost_table p ground.now.frozen ground.now.side (array_of o) board.now) }
{
    let mut rows = stand_rows(ground, board, begun)?;
    if rows.len() < begun as usize {
        fill_up(&mut rows, gone_row(ground), begun);
    }
    Some(rows)
}
