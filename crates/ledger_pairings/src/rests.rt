ghost use Rattle.std.specs.Prelude.{◌≡◌, ◌+◌, ◌<◌, ◌≤◌, ℕ, IfSome, IsTrue, List, length, slice_index, sum};
ghost use Rattle.assignment.specs.Tables.{IsTable};
ghost use Rattle.assignment.specs.Assignments.{IsInjection, assignment_cost};
ghost use Rattle.ledger_pairings.specs.Rests.{AreRests, IsRest};
ghost use Rattle.ledger_pairings.specs.Fair.{AreFair, AreRestsOfRow};

use crate::exchanges::{Pairs, exchanges_from, handed_on, index, pairs_of};
use assignment::solve_large;

/// What the rows cost with these columns.
fn cost_of(rows: &[[u16; 16]; 16], columns: &[u8; 16]) -> u32
    requires { IsInjection 16 16 columns.now }
    ensures value { result ≡ assignment_cost rows.now columns.now }
    ensures small { result ≤ 1_048_560 }
{
    let mut sum = 0;
    for r in 0..16 {
        sum += u32::from(rows[r][columns[r] as usize]);
    }
    sum
}

/// For each row but one what it pays for its column: the cost and the price; nothing for this one.
fn dues_of(
    rows: &[[u16; 16]; 16],
    columns: &[u8; 16],
    prices: &[u32; 16],
    without: usize,
) -> [u32; 16]
    requires { without < 16 }
    ensures size { length result ≡ 16 }
    ensures nothing { slice_index result without ≡ 0 }
{
    let mut dues = [0; 16];
    for r in 0..16 {
        let c = index(columns[r]);
        dues[r] = prices[c].saturating_add(u32::from(rows[r][c]));
    }
    dues[without] = 0;
    dues
}

/// Whether the due of a row is nowhere above what a column costs it, with the column's price.
fn row_is_fair(row: &[u16; 16], due: u32, prices: &[u32; 16]) -> bool
    ensures { IsTrue result → (c : ℕ) → c < 16 → due ≤ slice_index row.now c + slice_index prices.now c }
{
    for c in 0..16 {
        if due.saturating_sub(prices[c]) > u32::from(row[c]) {
            return false;
        }
    }
    true
}

/// The same of all rows.
fn are_fair(rows: &[[u16; 16]; 16], dues: &[u32; 16], prices: &[u32; 16]) -> bool
    ensures { IsTrue result → AreFair rows.now dues.now prices.now }
{
    for r in 0..16 {
        if !row_is_fair(&rows[r], dues[r], prices) {
            return false;
        }
    }
    true
}

/// The sum of the numbers.
fn total(numbers: &[u32; 16]) -> u64
    ensures value { result ≡ sum numbers.now }
    ensures small { result ≤ 68_719_476_720 }
{
    let mut sum = 0;
    for r in 0..16 {
        sum += u64::from(numbers[r]);
    }
    sum
}

/// What the other rows cost beside this row with this column, if `columns` is shown to be a least assignment in which it has it.
fn rest_by(
    rows: &[[u16; 16]; 16],
    i: usize,
    j: usize,
    columns: &[u8; 16],
    least: u64,
    above: u64,
) -> Option<u32>
    requires row { i < 16 }
    requires column { j < 16 }
    requires injection { IsInjection 16 16 columns.now }
    requires small { above ≤ 100_000_000_000 }
    requires fair { (others : List ℕ) → IsInjection 16 16 others → slice_index others i ≡ j → least ≤ assignment_cost rows.now others + above }
    ensures { IfSome result (IsRest rows.now i j) }
{
    let cost = cost_of(rows, columns);
    let cell = u32::from(rows[i][j]);
    let rest = cost.saturating_sub(cell);
    if columns[i] as usize == j && rest + cell == cost && u64::from(cost) + above == least {
        Some(rest)
    } else {
        None
    }
}

/// What the other rows cost at least beside this row with each column; None if it isn't shown.
fn rests_of_row(rows: &[[u16; 16]; 16], pairs: &Pairs, i: usize) -> Option<[u32; 16]>
    requires row { i < 16 }
    requires injection { IsInjection 16 16 pairs.now.columns }
    ensures { IfSome result (AreRestsOfRow rows.now i) }
{
    let exchanges = exchanges_from(rows, pairs, index(pairs.columns[i]));
    let dues = dues_of(rows, &pairs.columns, &exchanges.prices, i);
    if !are_fair(rows, &dues, &exchanges.prices) {
        return None;
    }
    let paid = total(&dues);
    let above = total(&exchanges.prices);
    let mut rests = [0; 16];
    for j in 0..16 {
        let columns = handed_on(pairs, &exchanges.next, i, j);
        let least = paid + u64::from(rows[i][j]) + u64::from(exchanges.prices[j]);
        rests[j] = rest_by(rows, i, j, &columns, least, above)?;
    }
    Some(rests)
}

/// For each row and each column what the other rows cost at least with the other columns; None if potentials and assignments at hand don't
/// show it. They are looked for by the nearest ways from one assignment to the next, on which no clause rests.
pub fn rests_of(rows: &[[u16; 16]; 16]) -> Option<[[u32; 16]; 16]>
    requires { IsTable rows.now 16 32767 }
    ensures { IfSome result (AreRests rows.now) }
{
    let pairs = pairs_of(&solve_large(rows));
    let mut rests = [[0; 16]; 16];
    for i in 0..16 {
        rests[i] = rests_of_row(rows, &pairs, i)?;
    }
    Some(rests)
}
