ghost use Rattle.std.specs.Prelude.{◌≡◌, ℕ, ◌+◌, ◌<◌, ◌≤◌, length, slice_index};
ghost use Rattle.assignment.specs.Tables.{IsTable, cost_at};
ghost use Rattle.assignment.specs.Pairings.{IsSound, IsLink, IsOutside, slack_of};

use crate::pairing::Pairing;

/// From the row in one place to the column in another, with the slack between them.
#[derive(Clone, Copy)]
pub(crate) struct Link {
    pub(crate) from: usize,
    pub(crate) to: usize,
    pub(crate) slack: u16,
}

/// What it costs to give this row this column.
pub(crate) fn cost_at<const W: usize>(costs: &[[u16; W]], row: u8, column: u8) -> u16
    requires row { row < length costs.now }
    requires column { column < W }
    ensures { result ≡ cost_at costs.now row column }
{
    costs[row as usize][column as usize]
}

/// By how much the potential of the row in place `m` may rise before it meets the column in place `e`.
fn slack<const W: usize>(costs: &[[u16; W]], p: &Pairing<W>, m: usize, e: usize) -> u16
    requires table { IsTable costs.now W 32767 }
    requires sound { IsSound costs.now W p.now }
    requires row { slice_index p.now.rows m < length costs.now }
    requires from { m < W }
    requires to { e < W }
    ensures { result ≡ slack_of costs.now W p.now m e }
{
    cost_at(costs, p.rows[m], p.columns[e]) + p.prices[e] - p.u[m]
}

/// The least slack between the row in place `m` and the columns in place 0 and in the places from `k` on.
fn nearest_to_row<const W: usize>(costs: &[[u16; W]], p: &Pairing<W>, k: usize, m: usize) -> Link
    requires table { IsTable costs.now W 32767 }
    requires sound { IsSound costs.now W p.now }
    requires row { slice_index p.now.rows m < length costs.now }
    requires within { k ≤ W }
    requires from { m < k }
    ensures from { result.from ≡ m }
    ensures link { IsLink costs.now W p.now k result.from result.to result.slack }
    ensures least { (e : ℕ) → e < W → IsOutside k e → result.slack ≤ slack_of costs.now W p.now m e }
{
    let mut best = Link {
        from: m,
        to: 0,
        slack: slack(costs, p, m, 0),
    };
    for to in k..W {
        let slack = slack(costs, p, m, to);
        if slack < best.slack {
            best = Link { from: m, to, slack };
        }
    }
    best
}

/// The least slack between the rows in the first `k` places and the columns in place 0 and in the places from `k` on.
pub(crate) fn nearest<const W: usize>(costs: &[[u16; W]], p: &Pairing<W>, k: usize) -> Link
    requires table { IsTable costs.now W 32767 }
    requires sound { IsSound costs.now W p.now }
    requires rows { (m : ℕ) → m < k → slice_index p.now.rows m < length costs.now }
    requires some { 0 < k }
    requires within { k ≤ W }
    ensures link { IsLink costs.now W p.now k result.from result.to result.slack }
    ensures least { (m e : ℕ) → m < k → e < W → IsOutside k e → result.slack ≤ slack_of costs.now W p.now m e }
{
    let mut best = nearest_to_row(costs, p, k, 0);
    for m in 1..k {
        let link = nearest_to_row(costs, p, k, m);
        if link.slack < best.slack {
            best = link;
        }
    }
    best
}
