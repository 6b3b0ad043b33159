ghost use Rattle.std.specs.Prelude.{◌≡◌, ℕ, ◌<◌, ◌≤◌, List, length, pos, ◌+ℤ◌};
ghost use Rattle.std.specs.List.{All};
ghost use Rattle.assignment.specs.Tables.{IsTable};
ghost use Rattle.assignment.specs.Assignments.{IsBounded, IsInjection, IsWithin, assignment_cost, least_cost, total};

use crate::solving::solve_large;
use arrayvec::ArrayVec;

/// A least assignment, and potentials that show that it is one.
#[derive(Drop)]
pub struct Solution<const W: usize> {
    /// What the assignment costs.
    pub cost: u16,
    /// For each row its column.
    pub columns: ArrayVec<u8, W>,
    /// For each row its potential.
    pub u: ArrayVec<i8, W>,
    /// For each column its potential.
    pub v: [i8; W],
}

/// The same costs, with room for large ones.
fn widened_row<const W: usize>(row: &[u8; W]) -> [u16; W]
    ensures { result ≡ row.now }
{
    let mut widened = [0; W];
    for j in 0..W {
        widened[j] = u16::from(row[j]);
    }
    widened
}

/// The same rows, with room for large costs.
fn widened<const W: usize>(costs: &[[u8; W]]) -> ArrayVec<[u16; W], W>
    requires { length costs.now ≤ W }
    ensures { result.items ≡ costs.now }
{
    let mut rows = ArrayVec::new();
    for row in costs {
        rows.push(widened_row(row));
    }
    rows
}

/// The same potentials of rows, which are small.
fn narrowed<const W: usize>(numbers: &ArrayVec<i16, W>) -> ArrayVec<i8, W>
    requires { All (IsWithin 64) numbers.now.items }
    ensures { result.items ≡ numbers.now.items }
{
    let mut narrowed = ArrayVec::new();
    for x in numbers.as_slice() {
        narrowed.push(*x as i8);
    }
    narrowed
}

/// The same potentials of columns, which are small.
fn narrowed_all<const W: usize>(numbers: &[i16; W]) -> [i8; W]
    requires { All (IsWithin 64) numbers.now }
    ensures { result ≡ numbers.now }
{
    let mut narrowed = [0; W];
    for j in 0..W {
        narrowed[j] = numbers[j] as i8;
    }
    narrowed
}

/// A least assignment of the rows to the columns, as `solve_large` finds it, if no cost is above 64.
pub fn solve<const W: usize>(costs: &[[u8; W]]) -> Solution<W>
    requires { IsTable costs.now W 64 }
    ensures injection { IsInjection W (length costs.now) result.columns.items }
    ensures cost { result.cost ≡ assignment_cost costs.now result.columns.items }
    ensures least { result.cost ≡ least_cost W costs.now }
    ensures bounded { IsBounded W costs.now result.u.items result.v }
    ensures reached { (total result.u.items +ℤ total result.v) ≡ pos result.cost }
    ensures u_within { All (IsWithin 64) result.u.items }
    ensures v_within { All (IsWithin 64) result.v }
{
    let solution = solve_large(widened(costs).as_slice());
    Solution {
        cost: solution.cost as u16,
        u: narrowed(&solution.u),
        v: narrowed_all(&solution.v),
        columns: solution.columns,
    }
}
