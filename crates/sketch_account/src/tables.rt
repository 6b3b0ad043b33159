ghost use Rattle.std.specs.Prelude.{◌≡◌, ◌<◌, ◌≤◌, Bool, IfSome, IsTrue, List, MatchOption, length, map, not};
ghost use Rattle.std.specs.List.{All, filter};
ghost use Rattle.board_base.specs.Board.{array_of};
ghost use Rattle.assignment.specs.Assignments.{least_cost};
ghost use Rattle.assignment.specs.Tables.{IsTable};
ghost use Rattle.capture_prices.specs.Prices.{PriceList};
ghost use Rattle.balance_rule.specs.Balance.{men_on};
ghost use Rattle.balance_rule.specs.Costs.{never};
ghost use Rattle.sketch_grounds.specs.Account.{figure_row, figure_table, figures_cost, is_figure_of};
ghost use Rattle.sketch_grounds.specs.Zones.{Room};
ghost use Rattle.sketch_account.specs.Counting.{counted_as, limit_by};
ghost use Rattle.sketch_account.specs.Grounds.{IsGround};
ghost use Rattle.sketch_account.specs.Rows.{IsManner};

use crate::grounds::Ground;
use crate::losses::lost_row;
use crate::rows::{Manner, comer_of, figure_row};
use arrayvec::ArrayVec;
use assignment::solve_large;
use balance_rule::{begun_with, fill_up};
use board_base::Odds;
use figures::{Figure, Sketch};

/// How the man of the figure with this number may have come, by his mark; but against it if that number is given.
fn manner_of(figure: &Figure, i: usize, against: Option<usize>) -> Manner
    ensures { IsManner (limit_by against i figure.now) result }
{
    match against {
        Some(j) => {
            if i == j {
                Manner {
                    plain: false,
                    other: true,
                }
            } else {
                by_mark(figure)
            }
        }
        None => by_mark(figure),
    }
}

/// How the man of the figure may have come, by his mark.
fn by_mark(figure: &Figure) -> Manner
    ensures plain { IsTrue result.plain }
    ensures other { result.other ≡ not figure.now.marked }
{
    Manner {
        plain: true,
        other: !figure.marked,
    }
}

/// A row for each figure of the side; None if and only if there are more than so many.
fn figure_rows(
    ground: &Ground,
    sketch: &Sketch,
    against: Option<usize>,
    begun: u8,
) -> Option<ArrayVec<[u16; 16], 16>>
    requires { begun ≤ 16 }
    ensures few { IfSome result (λ rows. length rows.items ≤ begun) }
    ensures table { IfSome result (λ rows. IsTable rows.items 16 never) }
    ensures items { (o : List Bool) (p : PriceList) (R : Room) → IsGround o p R ground.now → MatchOption result (begun < length (filter (is_figure_of ground.now.base.side) (counted_as against sketch.now))) (λ rows. rows.items ≡ map (figure_row p ground.now.base.frozen R ground.now.base.side (array_of o)) (filter (is_figure_of ground.now.base.side) (counted_as against sketch.now))) }
{
    let mut rows: ArrayVec<[u16; 16], 16> = ArrayVec::new();
    let figures = sketch.figures();
    for i in 0..figures.len() {
        let figure = figures[i];
        if ground.base.side == figure.colour {
            if rows.len() == begun as usize {
                return None;
            }
            rows.push(figure_row(
                ground,
                &comer_of(ground, figure, manner_of(&figure, i, against)),
            ));
        }
    }
    Some(rows)
}

/// The least cost of giving the rows columns of their own.
fn least_cost(rows: &[[u16; 16]]) -> u32
    requires { IsTable rows.now 16 never }
    ensures value { result ≡ least_cost 16 rows.now }
    ensures small { result ≤ 80_000 }
{
    solve_large(rows).cost
}

/// A row for each figure of the side, and one for each who is missing of so many; None if and only if there are more.
fn figure_table(
    ground: &Ground,
    sketch: &Sketch,
    against: Option<usize>,
    begun: u8,
) -> Option<ArrayVec<[u16; 16], 16>>
    requires { begun ≤ 16 }
    ensures table { IfSome result (λ rows. IsTable rows.items 16 never) }
    ensures items { (o : List Bool) (p : PriceList) (R : Room) → IsGround o p R ground.now → begun ≡ men_on ground.now.base.side (array_of o) → MatchOption result (begun < length (filter (is_figure_of ground.now.base.side) (counted_as against sketch.now))) (λ rows. (length (filter (is_figure_of ground.now.base.side) (counted_as against sketch.now)) ≤ begun) × (rows.items ≡ figure_table p ground.now.base.frozen R ground.now.base.side (array_of o) (counted_as against sketch.now))) }
{
    let Some(mut rows) = figure_rows(ground, sketch, against, begun) else {
        return None;
    };
    if rows.len() < begun as usize {
        fill_up(&mut rows, lost_row(ground), begun);
    }
    Some(rows)
}

/// The least that the figures of a side and its men who are gone cost with homes of their own; None if and only if there are more figures
/// than men.
pub(crate) fn ground_cost(
    odds: Odds,
    ground: &Ground,
    sketch: &Sketch,
    against: Option<usize>,
) -> Option<u32>
    ensures small { IfSome result (λ cost. cost ≤ 80_000) }
    ensures value { (p : PriceList) (R : Room) → IsGround odds p R ground.now → MatchOption result (men_on ground.now.base.side (array_of odds) < length (filter (is_figure_of ground.now.base.side) (counted_as against sketch.now))) (λ cost. (length (filter (is_figure_of ground.now.base.side) (counted_as against sketch.now)) ≤ men_on ground.now.base.side (array_of odds)) × (cost ≡ figures_cost odds p ground.now.base.frozen R (counted_as against sketch.now) ground.now.base.side)) }
{
    let begun = begun_with(ground.base.side, odds);
    let Some(rows) = figure_table(ground, sketch, against, begun) else {
        return None;
    };
    Some(least_cost(rows.as_slice()))
}
