ghost use Rattle.std.specs.Prelude.{◌≡◌, ℕ, ◌+◌, ◌*◌, ◌<◌, ◌≤◌, List, length, slice_index, pos, ◌+ℤ◌};
ghost use Rattle.std.specs.List.{All};
ghost use Rattle.assignment.specs.Tables.{IsTable};
ghost use Rattle.assignment.specs.Pairings.{IsMatched};
ghost use Rattle.assignment.specs.Assignments.{IsBounded, IsInjection, IsWithin, assignment_cost, least_cost, total};

use crate::nearest::cost_at;
use crate::pairing::Pairing;
use crate::path::hand_on;
use crate::reading::{places_of, read_off, signed, turned};
use crate::tree::grow;
use arrayvec::ArrayVec;

/// A least assignment where costs may be large, and potentials that show that it is one.
#[derive(Drop)]
pub struct LargeSolution<const W: usize> {
    /// What the assignment costs.
    pub cost: u32,
    /// For each row its column.
    pub columns: ArrayVec<u8, W>,
    /// For each row its potential.
    pub u: ArrayVec<i16, W>,
    /// For each column its potential.
    pub v: [i16; W],
}

/// Gives one row after another a column.
fn paired<const W: usize>(costs: &[[u16; W]]) -> Pairing<W>
    requires { IsTable costs.now W 32767 }
    ensures { IsMatched costs.now W result (length costs.now) }
{
    let mut p = Pairing::new();
    for n in 0..costs.len() {
        let path = grow(costs, &mut p, n);
        hand_on(&mut p, &path.parents, path.from, path.to);
    }
    p
}

/// What the rows cost with these columns.
fn cost_of<const W: usize>(costs: &[[u16; W]], columns: &[u8]) -> u32
    requires table { IsTable costs.now W 32767 }
    requires size { length columns.now ≡ length costs.now }
    requires within { All (λ j. j < W) columns.now }
    ensures { result ≡ assignment_cost costs.now columns.now }
{
    let mut sum = 0;
    for i in 0..costs.len() {
        sum += u32::from(cost_at(costs, i as u8, columns[i]));
    }
    sum
}

/// A least assignment of the rows to the columns, by the Hungarian method: row after row gets a column, and no potential is ever
/// above what a column would cost the row. No potential is further from 0 than the greatest cost.
pub fn solve_large<const W: usize>(costs: &[[u16; W]]) -> LargeSolution<W>
    requires { IsTable costs.now W 32767 }
    ensures injection { IsInjection W (length costs.now) result.columns.items }
    ensures cost { result.cost ≡ assignment_cost costs.now result.columns.items }
    ensures least { result.cost ≡ least_cost W costs.now }
    ensures bounded { IsBounded W costs.now result.u.items result.v }
    ensures reached { (total result.u.items +ℤ total result.v) ≡ pos result.cost }
    ensures small { (limit : ℕ) → IsTable costs.now W limit → result.cost ≤ limit * length costs.now }
    ensures u_within { (limit : ℕ) → IsTable costs.now W limit → All (IsWithin limit) result.u.items }
    ensures v_within { (limit : ℕ) → IsTable costs.now W limit → All (IsWithin limit) result.v }
{
    let p = paired(costs);
    let places = places_of(&p.rows, costs.len());
    let columns = read_off(&p.columns, &places);
    let cost = cost_of(costs, columns.as_slice());
    LargeSolution {
        cost,
        columns,
        u: signed(&p.u, &places),
        v: turned(&p.prices, &places_of(&p.columns, W)),
    }
}
