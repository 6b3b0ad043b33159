//! What rows cost at least whose columns are none of some.

ghost use Rattle.std.specs.Prelude.{◌≡◌, ℕ, ◌*◌, ◌<◌, ◌≤◌, false, length, slice_index};
ghost use Rattle.std.specs.List.{All};
ghost use Rattle.assignment.specs.Tables.{IsTable, cost_at};
ghost use Rattle.assignment.specs.Assignments.{is_among};
ghost use Rattle.first_pairing.specs.Endings.{CostAtLeast};

use arrayvec::ArrayVec;
use assignment::solve_large;

/// Whether the column is one of these.
pub(crate) fn is_among(column: u8, columns: &ArrayVec<u8, 16>) -> bool
    ensures { result ≡ is_among column columns.now.items }
{
    columns.as_slice().contains(&column)
}

/// A row in which these columns cost more than any other.
fn barred_row(row: &[u16; 16], columns: &ArrayVec<u8, 16>) -> [u16; 16]
    requires small { All (λ cost. cost ≤ 32767) row.now }
    ensures small { All (λ cost. cost ≤ 32767) result }
    ensures same { (j : ℕ) → is_among j columns.now.items ≡ false → slice_index result j ≡ slice_index row.now j }
{
    let mut barred = *row;
    for j in 0..16 {
        if is_among(j as u8, columns) {
            barred[j] = 32767;
        }
    }
    barred
}

/// The first rows, in which these columns cost more than any other.
fn barred(costs: &[[u16; 16]], left: usize, columns: &ArrayVec<u8, 16>) -> ArrayVec<[u16; 16], 16>
    requires table { IsTable costs.now 16 32767 }
    requires left { left ≤ length costs.now }
    ensures table { IsTable result.items 16 32767 }
    ensures size { length result.items ≡ left }
    ensures same { (i j : ℕ) → i < left → is_among j columns.now.items ≡ false → cost_at result.items i j ≡ cost_at costs.now i j }
{
    let mut rows = ArrayVec::new();
    for i in 0..left {
        rows.push(barred_row(&costs[i], columns));
    }
    rows
}

/// What the first rows cost at least if the others have these columns.
pub(crate) fn rest_cost(costs: &[[u16; 16]], left: usize, columns: &ArrayVec<u8, 16>) -> u32
    requires table { IsTable costs.now 16 32767 }
    requires left { left ≤ length costs.now }
    ensures bound { CostAtLeast 16 costs.now left columns.now.items result }
    ensures small { result ≤ 32767 * 16 }
{
    let rows = barred(costs, left, columns);
    solve_large(rows.as_slice()).cost
}
