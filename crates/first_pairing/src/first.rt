//! The first of the least assignments.

ghost use Rattle.std.specs.Prelude.{◌≡◌, ℕ, ◌+◌, ◌*◌, ◌==◌, ◌∷◌, ◌<◌, ◌≤◌, ◌↔◌, IsTrue, drop, false, length, slice_index_or, pos, ◌+ℤ◌, ◌<ℤ◌};
ghost use Rattle.std.specs.List.{find};
ghost use Rattle.assignment.specs.Tables.{IsTable, cost_at};
ghost use Rattle.assignment.specs.Assignments.{IsBounded, IsInjection, assignment_cost, is_among, least_cost, total};
ghost use Rattle.first_pairing.specs.Endings.{CostAtLeast, IsOut, injections_ending, items_found};
ghost use Rattle.first_pairing.specs.FirstPairings.{IsFirstPairing};

use crate::rest::{is_among, rest_cost};
use arrayvec::ArrayVec;
use assignment::{LargeSolution, solve_large};

/// What it costs to give this row this column.
fn cost_at(costs: &[[u16; 16]], row: usize, column: u8) -> u16
    requires row { row < length costs.now }
    requires column { column < 16 }
    ensures { result ≡ cost_at costs.now row column }
{
    costs[row][column as usize]
}

/// Whether the cost is above the sum of these potentials.
fn is_above(cost: u16, u: i16, v: i16) -> bool
    ensures { IsTrue result ↔ ((u +ℤ v) <ℤ pos cost) }
{
    i32::from(cost) > i32::from(u) + i32::from(v)
}

fn number_at(numbers: &[i16], i: usize) -> i16
    requires { i < length numbers.now }
    ensures { result ≡ slice_index_or numbers.now i (pos 0) }
{
    numbers[i]
}

/// Whether the row costs more with the column than the potentials of both, so that no least assignment pairs them.
fn is_loose(costs: &[[u16; 16]], solution: &LargeSolution<16>, row: usize, column: u8) -> bool
    requires row { row < length costs.now }
    requires column { column < 16 }
    requires bounded { IsBounded 16 costs.now solution.now.u.items solution.now.v }
    ensures { IsTrue result ↔ ((slice_index_or solution.now.u.items row (pos 0) +ℤ slice_index_or solution.now.v column (pos 0)) <ℤ pos (cost_at costs.now row column)) }
{
    let u = number_at(solution.u.as_slice(), row);
    let v = number_at(&solution.v, column as usize);
    is_above(cost_at(costs, row, column), u, v)
}

/// The same columns, with one more before them.
fn with_first(column: u8, columns: &ArrayVec<u8, 16>) -> ArrayVec<u8, 16>
    requires { length columns.now.items < 16 }
    ensures { result.items ≡ column ∷ columns.now.items }
{
    let mut all = ArrayVec::new();
    all.push(column);
    for x in columns.as_slice() {
        all.push(*x);
    }
    all
}

/// Whether the rows up to this one cost too much if it has the column and the others have these columns, which cost so much.
fn is_dear(
    costs: &[[u16; 16]],
    solution: &LargeSolution<16>,
    row: usize,
    column: u8,
    columns: &ArrayVec<u8, 16>,
    spent: u32,
) -> bool
    requires table { IsTable costs.now 16 32767 }
    requires rows { row + 1 + length columns.now.items ≡ length costs.now }
    requires column { column < 16 }
    requires small { spent ≤ 32767 * 16 }
    ensures { IsTrue result → (rest : ℕ) × CostAtLeast 16 costs.now row (column ∷ columns.now.items) rest × (solution.now.cost < rest + (cost_at costs.now row column + spent)) }
{
    let more = with_first(column, columns);
    let cost = u32::from(cost_at(costs, row, column)) + spent;
    let whole = rest_cost(costs, row, &more) + cost;
    if whole <= solution.cost {
        return false;
    }
    true
}

/// Whether the column is taken, or no least assignment has it in the row and ends with these columns, which cost so much.
fn is_out(
    costs: &[[u16; 16]],
    solution: &LargeSolution<16>,
    row: usize,
    column: u8,
    columns: &ArrayVec<u8, 16>,
    spent: u32,
) -> bool
    requires table { IsTable costs.now 16 32767 }
    requires rows { row + 1 + length columns.now.items ≡ length costs.now }
    requires column { column < 16 }
    requires apart { IsInjection 16 (length columns.now.items) columns.now.items }
    requires spent { spent ≡ assignment_cost (drop (row + 1) costs.now) columns.now.items }
    requires small { spent ≤ 32767 * length columns.now.items }
    requires bounded { IsBounded 16 costs.now solution.now.u.items solution.now.v }
    requires reached { (total solution.now.u.items +ℤ total solution.now.v) ≡ pos solution.now.cost }
    ensures out { IsTrue result → IsOut 16 costs.now solution.now.cost row columns.now.items column }
    ensures free { result ≡ false → is_among column columns.now.items ≡ false }
{
    if is_among(column, columns) {
        return true;
    }
    if is_loose(costs, solution, row, column) {
        return true;
    }
    is_dear(costs, solution, row, column, columns, spent)
}

/// The first of the least assignments that end with these columns, which cost so much; so many rows are left.
fn first_ending(
    costs: &[[u16; 16]],
    solution: &LargeSolution<16>,
    left: usize,
    columns: ArrayVec<u8, 16>,
    spent: u32,
) -> Option<ArrayVec<u8, 16>>
    requires table { IsTable costs.now 16 32767 }
    requires rows { left + length columns.items ≡ length costs.now }
    requires apart { IsInjection 16 (length columns.items) columns.items }
    requires spent { spent ≡ assignment_cost (drop left costs.now) columns.items }
    requires small { spent ≤ 32767 * length columns.items }
    requires bounded { IsBounded 16 costs.now solution.now.u.items solution.now.v }
    requires reached { (total solution.now.u.items +ℤ total solution.now.v) ≡ pos solution.now.cost }
    ensures { items_found result ≡ find (λ way. assignment_cost costs.now way == solution.now.cost) (injections_ending 16 left columns.items) }
{
    if left == 0 {
        return if spent == solution.cost {
            Some(columns)
        } else {
            None
        };
    }
    for column in 0..16 {
        if is_out(costs, solution, left - 1, column, &columns, spent) {
            continue;
        }
        let more = with_first(column, &columns);
        let cost = u32::from(cost_at(costs, left - 1, column)) + spent;
        if let Some(way) = first_ending(costs, solution, left - 1, more, cost) {
            return Some(way);
        }
    }
    None
}

/// The first of the least assignments of the rows to sixteen columns: for each row its column.
pub fn first_pairing(costs: &[[u16; 16]]) -> ArrayVec<u8, 16>
    requires { IsTable costs.now 16 32767 }
    ensures injection { IsInjection 16 (length costs.now) result.items }
    ensures cost { assignment_cost costs.now result.items ≡ least_cost 16 costs.now }
    ensures first { IsFirstPairing 16 costs.now result.items }
{
    let solution = solve_large(costs);
    first_ending(costs, &solution, costs.len(), ArrayVec::new(), 0).unwrap()
}
