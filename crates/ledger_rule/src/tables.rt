ghost use Rattle.std.specs.Prelude.{◌≡◌, ◌<◌, ◌≤◌, Bool, List, IfSome, SomeIff, cond, length, map};
ghost use Rattle.std.specs.Option.{option_map};
ghost use Rattle.std.specs.List.{All};
ghost use Rattle.board_base.specs.Board.{array_of, at, men_squares};
ghost use Rattle.assignment.specs.Tables.{IsTable};
ghost use Rattle.assignment.specs.Assignments.{least_cost};
ghost use Rattle.capture_prices.specs.Prices.{PriceList};
ghost use Rattle.balance_rule.specs.Balance.{men_on};
ghost use Rattle.balance_rule.specs.Costs.{gone, never};
ghost use Rattle.balance_rule.specs.Grounds.{IsGround};
ghost use Rattle.balance_rule.specs.LeastWays.{seen_by};
ghost use Rattle.ledger_facts.specs.Accounts.{cost_table_if, gone_if, gone_row_if, lost, side_cost_if, stand_row_if};

use crate::losses::lost;
use crate::standing::{same_square, stands_if, unless};
use arrayvec::ArrayVec;
use assignment::solve_large;
use balance_rule::{Ground, begun_with, fill_up, gone_row, ground_of, number_of_home, seen_by};
use board_base::{Board, Colour, Square, SquareSet, is_of};
use capture_prices::Prices;
use ledger_facts::Supposition;
use query_base::Query;

/// What it costs that the man on a square began on each of the side's homes, if the supposition is true.
pub(crate) fn stand_row(
    ground: &Ground,
    supposition: &Supposition,
    board: &Board,
    s: Square,
) -> [u16; 16]
    ensures small { All (λ cost. cost ≤ never) result }
    ensures value { (o : List Bool) (p : PriceList) → IsGround o p ground.now → result ≡ stand_row_if supposition.now p ground.now.frozen ground.now.side (array_of o) board.now s }
{
    let place = board.at(s);
    let mut row = [0; 16];
    for j in 0..16 {
        row[j as usize] = stands_if(
            ground,
            supposition,
            number_of_home(ground.side, j),
            place,
            s,
        );
    }
    row
}

/// The cell of a man who is supposed to be gone so, if this is his home.
fn gone_so(ground: &Ground, promoted: bool, struck: bool, n: u8, plain: u16, here: bool) -> u16
    requires few { n < 16 }
    requires small { plain ≤ never }
    ensures small { result ≤ never }
    ensures value { (o : List Bool) (p : PriceList) → IsGround o p ground.now → result ≡ cond here (lost promoted struck p ground.now.frozen ground.now.side (at (array_of o) (seen_by ground.now.side n)) (seen_by ground.now.side n)) plain }
{
    if here {
        lost(ground, promoted, struck, n)
    } else {
        plain
    }
}

/// What it costs that the man of this number of the side is gone, if the supposition is true and this is what it costs otherwise.
pub(crate) fn gone_if(ground: &Ground, supposition: &Supposition, n: u8, plain: u16) -> u16
    requires few { n < 16 }
    requires small { plain ≤ never }
    ensures small { result ≤ never }
    ensures value { (o : List Bool) (p : PriceList) → IsGround o p ground.now → plain ≡ gone p ground.now.frozen ground.now.side (at (array_of o) (seen_by ground.now.side n)) (seen_by ground.now.side n) → result ≡ gone_if supposition.now p ground.now.frozen ground.now.side (at (array_of o) (seen_by ground.now.side n)) (seen_by ground.now.side n) }
{
    let home = seen_by(ground.side, n);
    match *supposition {
        Supposition::Began(_, _) => plain,
        Supposition::Went(_, _) => plain,
        Supposition::Stands(k, _) => unless(same_square(home, k), plain),
        Supposition::Gone(k, promoted, struck) => {
            gone_so(ground, promoted, struck, n, plain, same_square(home, k))
        }
        Supposition::AtMost(_, _, _) => plain,
        Supposition::AtLeast(_, _, _) => plain,
    }
}

/// What it costs that the man of each of the side's homes is gone, if the supposition is true.
fn gone_row_if(ground: &Ground, supposition: &Supposition) -> [u16; 16]
    ensures small { All (λ cost. cost ≤ never) result }
    ensures value { (o : List Bool) (p : PriceList) → IsGround o p ground.now → result ≡ gone_row_if supposition.now p ground.now.frozen ground.now.side (array_of o) }
{
    let plain = gone_row(ground);
    let mut row = [0; 16];
    for j in 0..16 {
        row[j as usize] = gone_if(
            ground,
            supposition,
            number_of_home(ground.side, j),
            plain[j as usize],
        );
    }
    row
}

/// A row for each man of the side, in ascending order of their squares; None if and only if there are more than so many.
fn stand_rows(
    ground: &Ground,
    supposition: &Supposition,
    board: &Board,
    begun: u8,
) -> Option<ArrayVec<[u16; 16], 16>>
    requires { begun ≤ 16 }
    ensures few { IfSome result (λ rows. length rows.items ≤ begun) }
    ensures table { IfSome result (λ rows. IsTable rows.items 16 never) }
    ensures items { (o : List Bool) (p : PriceList) → IsGround o p ground.now → SomeIff (option_map (λ rows. rows.items) result) (men_on ground.now.side board.now ≤ begun) (map (stand_row_if supposition.now p ground.now.frozen ground.now.side (array_of o) board.now) (men_squares ground.now.side board.now)) }
{
    let mut rows: ArrayVec<[u16; 16], 16> = ArrayVec::new();
    for i in 0..64 {
        let s = Square::known(i);
        if is_of(ground.side, board.at(s)) {
            if rows.len() == begun as usize {
                return None;
            }
            rows.push(stand_row(ground, supposition, board, s));
        }
    }
    Some(rows)
}

/// A row for each man of the side, and one for each who is missing of so many; None if and only if it has more.
pub(crate) fn cost_table(
    ground: &Ground,
    supposition: &Supposition,
    board: &Board,
    begun: u8,
) -> Option<ArrayVec<[u16; 16], 16>>
    requires { begun ≤ 16 }
    ensures table { IfSome result (λ rows. IsTable rows.items 16 never) }
    ensures items { (o : List Bool) (p : PriceList) → IsGround o p ground.now → begun ≡ men_on ground.now.side (array_of o) → SomeIff (option_map (λ rows. rows.items) result) (men_on ground.now.side board.now ≤ begun) (cost_table_if supposition.now p ground.now.frozen ground.now.side (array_of o) board.now) }
{
    let mut rows = stand_rows(ground, supposition, board, begun)?;
    if rows.len() < begun as usize {
        fill_up(&mut rows, gone_row_if(ground, supposition), begun);
    }
    Some(rows)
}

/// The least cost of giving the rows columns of their own.
pub(crate) fn least_cost(rows: &[[u16; 16]]) -> u32
    requires { IsTable rows.now 16 never }
    ensures value { result ≡ least_cost 16 rows.now }
    ensures small { result ≤ 80_000 }
{
    solve_large(rows).cost
}

/// The least that the men of the ground's side cost with homes of their own, if the supposition is true and the side began with so many men;
/// None if and only if it has more.
pub(crate) fn cost_beside(
    ground: &Ground,
    supposition: &Supposition,
    board: &Board,
    begun: u8,
) -> Option<u32>
    requires { begun ≤ 16 }
    ensures value { (o : List Bool) (p : PriceList) → IsGround o p ground.now → begun ≡ men_on ground.now.side (array_of o) → SomeIff result (men_on ground.now.side board.now ≤ begun) (side_cost_if supposition.now o board.now p ground.now.frozen ground.now.side) }
    ensures small { IfSome result (λ cost. cost ≤ 80_000) }
{
    let rows = cost_table(ground, supposition, board, begun)?;
    Some(least_cost(rows.as_slice()))
}

/// The least that the men of a side cost with homes of their own, if the supposition is true; None if and only if it has more men than it
/// began with.
pub(crate) fn side_cost(
    query: &Query,
    frozen: SquareSet,
    prices: &Prices,
    supposition: &Supposition,
    side: Colour,
) -> Option<u32>
    ensures value { SomeIff result (men_on side query.now.board ≤ men_on side (array_of query.now.odds)) (side_cost_if supposition.now query.now.odds query.now.board prices.now frozen side) }
    ensures small { IfSome result (λ cost. cost ≤ 80_000) }
{
    let ground = ground_of(query, frozen, prices, side);
    let begun = begun_with(side, query.odds);
    let rows = cost_table(&ground, supposition, &query.board, begun)?;
    Some(least_cost(rows.as_slice()))
}
