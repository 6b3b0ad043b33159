ghost use Rattle.std.specs.Prelude.{◌<◌};

use crate::assigning::{Assigned, Costs, assign};
use crate::fees::{Fees, NEVER};
use crate::rows::Row;
use crate::terrains::SideTerrain;
use home_ways::squares_of;

/// Where the pawn of a file went who came as a figure: the number of the square where he stood as a pawn or was promoted, and whether he
/// came there straight on.
#[derive(Clone, Copy)]
pub(crate) struct Coming {
    pub(crate) toll: i32,
    pub(crate) number: usize,
    pub(crate) is_straight: bool,
}

/// He can't have come.
const NO_COMING: Coming = Coming {
    toll: NEVER,
    number: 0,
    is_straight: false,
};

/// How the pawn of a file came at the least toll to stand as this pawn; with a capture alone if it is forced.
fn pawn_coming(fees: &Fees, row: &Row, file: usize, forced: bool) -> Coming {
    let mut best = NO_COMING;
    for number in squares_of(row.squares) {
        let aside = fees.aside_at(file, number);
        if !row.marked && aside < best.toll {
            best = Coming {
                toll: aside,
                number,
                is_straight: false,
            };
        }
        let straight = fees.straight_at(file, number / 8);
        if !forced && number % 8 == file && straight < best.toll {
            best = Coming {
                toll: straight,
                number,
                is_straight: true,
            };
        }
    }
    best
}

/// How he came at the least toll to be promoted to this officer.
fn promoted_coming(fees: &Fees, row: &Row, file: usize) -> Coming {
    let mut best = NO_COMING;
    for end in 0..8usize {
        let toll = fees.toll_at(file, 56 + end);
        if row.has_promotion(end) && toll < best.toll {
            best = Coming {
                toll,
                number: 56 + end,
                is_straight: fees.is_straight(file, 56 + end),
            };
        }
    }
    best
}

/// How he came as this figure.
pub(crate) fn coming_as(fees: &Fees, row: &Row, file: usize, forced: bool) -> Coming {
    if row.is_pawn {
        pawn_coming(fees, row, file, forced)
    } else {
        promoted_coming(fees, row, file)
    }
}

/// What a figure costs by homes; if it is forced, only as what a mark would rule out.
fn cost_row(side: &SideTerrain, fees: &Fees, row: &Row, forced: bool) -> [i32; 16] {
    let mut costs = [NEVER; 16];
    for file in 0..8usize {
        if side.begins[file] && !row.is_pawn && !forced && row.has_home(file) {
            costs[file] = 0;
        }
        if side.begins[8 + file] {
            costs[8 + file] = coming_as(fees, row, file, forced).toll;
        }
    }
    costs
}

/// What fills the rows behind those of the men who are gone: nothing, in the columns that nobody has.
fn empty_row(side: &SideTerrain) -> [i32; 16] {
    let mut costs = [NEVER; 16];
    for j in 0..16usize {
        if !side.begins[j] {
            costs[j] = 0;
        }
    }
    costs
}

/// What each figure of a side costs by homes, and each man of it who is gone.
fn cost_table(side: &SideTerrain, fees: &Fees, rows: &[Row]) -> Costs {
    let begun = side.begins.iter().filter(|begins| **begins).count();
    let empty = empty_row(side);
    let mut costs = [fees.gone; 16];
    for i in 0..16usize {
        if i < rows.len() {
            costs[i] = cost_row(side, fees, &rows[i], false);
        } else if i >= begun {
            costs[i] = empty;
        }
    }
    costs
}

/// What a side's men cost, each by homes, and with homes of their own.
#[derive(Clone, Copy)]
pub struct SideAccount {
    costs: Costs,
    pub(crate) assigned: Assigned,
    /// The sum of the costs.
    pub sum: i32,
}

impl SideAccount {
    /// What the men of a side cost. The figure of one row may be forced.
    pub fn new(
        side: &SideTerrain,
        fees: &Fees,
        rows: &[Row],
        forced: Option<usize>,
        columns: [i32; 16],
    ) -> SideAccount {
        let mut costs = cost_table(side, fees, rows);
        if let Some(i) = forced {
            if let Some(row) = rows.get(i) {
                costs[i % 16] = cost_row(side, fees, row, true);
            }
        }
        let assigned = assign(&costs, columns);
        SideAccount {
            costs,
            assigned,
            sum: assigned.sum(&costs),
        }
    }

    /// What they cost if the figure of a row is forced, and none was before.
    pub fn forced(&self, side: &SideTerrain, fees: &Fees, rows: &[Row], i: usize) -> SideAccount {
        match rows.get(i) {
            Some(row) => self.changed(i, &cost_row(side, fees, row, true)),
            None => *self,
        }
    }

    /// What they cost if one row costs this instead.
    fn changed(&self, row: usize, cost: &[i32; 16]) -> SideAccount {
        let mut costs = self.costs;
        costs[row % 16] = *cost;
        let assigned = self.assigned.moved(&costs, row);
        SideAccount {
            costs,
            assigned,
            sum: assigned.sum(&costs),
        }
    }

    /// Numbers of columns from which the next assignment is found soon, at prices that differ a little.
    pub fn columns(&self) -> [i32; 16] {
        self.assigned.columns
    }

    /// The column of a row.
    fn column_of(&self, row: usize) -> usize {
        for j in 0..16usize {
            if self.assigned.row_in(j) == row {
                return j;
            }
        }
        0
    }

    /// What they cost if a mark of the figure in this row were false; at least that.
    pub fn sum_against(&self, side: &SideTerrain, fees: &Fees, rows: &[Row], i: usize) -> i32
        requires { i < 16 }
    {
        if i >= rows.len() {
            return self.sum;
        }
        let costs = cost_row(side, fees, &rows[i], true);
        let column = self.column_of(i);
        if costs[column % 16] == self.costs[i][column % 16] {
            return self.sum;
        }
        self.changed(i, &costs).sum
    }
}
