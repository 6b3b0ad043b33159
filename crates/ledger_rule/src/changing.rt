ghost use Rattle.std.specs.Prelude.{◌≡◌, ◌&&◌, ◌<◌, ◌≤◌, ℕ, Bool, List, Some, cond, not, slice_index};
ghost use Rattle.board_base.specs.Board.{Places, array_of, home_of, is_in};
ghost use Rattle.board_base.specs.declared.men.Colour.{Colour as AColour};
ghost use Rattle.assignment.specs.Assignments.{least_cost};
ghost use Rattle.assignment.specs.Tables.{cost_at};
ghost use Rattle.capture_prices.specs.Prices.{PriceList};
ghost use Rattle.balance_rule.specs.Costs.{never};
ghost use Rattle.ledger_facts.specs.Accounts.{cost_table_if, side_cost_if};
ghost use Rattle.ledger_facts.specs.declared.suppositions.Supposition.{Supposition as ASupposition};
ghost use Rattle.ledger_facts.specs.declared.suppositions.Supposition.TheVariants.{Began};
ghost use Rattle.ledger_rule.specs.Kept.{IsSide, IsSound};
ghost use Rattle.ledger_rule.specs.Touched.{AreSame, IsOfHome, IsOfMan, IsReckoned};

use crate::men::{place_among, place_of_home};
use crate::sides::{Side, Table};
use crate::standing::{began, stands_if};
use crate::tables::{gone_if, stand_row};
use balance_rule::number_of_home;
use board_base::{Board, Colour, Square, SquareSet};
use ledger_facts::Supposition;
use ledger_pairings::{cost_with_column, cost_with_row};

/// What the men cost if nothing is ruled out for them.
pub(crate) fn unchanged(table: &Table) -> u32
    requires { IsSound table.now }
    ensures { (changed : List (List ℕ)) → AreSame table.now.rows changed → result ≡ least_cost 16 changed }
{
    cost_with_row(&table.rows, &table.rests, 0, &table.rows[0])
}

/// The row of a man who is supposed to have begun on some homes.
fn began_row(side: Colour, homes: SquareSet, plain: &[u16; 16]) -> [u16; 16]
    requires { (j : ℕ) → slice_index plain.now j ≤ never }
    ensures { (j : ℕ) → j < 16 → slice_index result j ≡ cond (not (is_in homes (home_of side j))) never (slice_index plain.now j) }
{
    let mut row = [0; 16];
    for j in 0..16 {
        let n = number_of_home(side, j);
        row[j as usize] = began(n, plain[j as usize], side, homes, true);
    }
    row
}

/// What the men of a side cost if the man on a square is supposed to have begun on some homes.
pub(crate) fn by_homes(
    side: &Side,
    table: &Table,
    board: &Board,
    t: Square,
    homes: SquareSet,
) -> u32
    requires known { IsReckoned board.now side.now }
    requires table { side.now.table ≡ Some table.now }
    ensures { (o : List Bool) (p : PriceList) (set : List Bool) (c : AColour) → IsSide o board.now p set c side.now → result ≡ side_cost_if (Began t homes) o board.now p set c }
{
    match place_among(side.men.as_slice(), t) {
        Some(i) => {
            let row = began_row(side.ground.side, homes, &table.rows[i]);
            cost_with_row(&table.rows, &table.rests, i, &row)
        }
        None => unchanged(table),
    }
}

/// The same if something else is supposed of him.
pub(crate) fn by_man(
    side: &Side,
    table: &Table,
    board: &Board,
    supposition: &Supposition,
    t: Square,
) -> u32
    requires known { IsReckoned board.now side.now }
    requires table { side.now.table ≡ Some table.now }
    ensures { (o : List Bool) (p : PriceList) (set : List Bool) (c : AColour) → IsSide o board.now p set c side.now → IsOfMan supposition.now t → result ≡ side_cost_if supposition.now o board.now p set c }
{
    match place_among(side.men.as_slice(), t) {
        Some(i) => {
            let row = stand_row(&side.ground, supposition, board, t);
            cost_with_row(&table.rows, &table.rests, i, &row)
        }
        None => unchanged(table),
    }
}

/// What the man in a row costs from a home.
fn cell_if(
    side: &Side,
    table: &Table,
    board: &Board,
    supposition: &Supposition,
    r: usize,
    j: u8,
) -> u16
    requires row { r < 16 }
    requires column { j < 16 }
    requires known { IsReckoned board.now side.now }
    requires table { side.now.table ≡ Some table.now }
    ensures { (o : List Bool) (p : PriceList) (set : List Bool) (c : AColour) → IsSide o board.now p set c side.now → result ≡ cost_at (cost_table_if supposition.now p set c (array_of o) board.now) r j }
{
    let n = number_of_home(side.ground.side, j);
    let men = side.men.as_slice();
    if r < men.len() {
        let s = Square::known(men[r]);
        stands_if(&side.ground, supposition, n, board.at(s), s)
    } else {
        gone_if(&side.ground, supposition, n, table.rows[r][j as usize])
    }
}

/// What each row costs from a home.
fn column_if(
    side: &Side,
    table: &Table,
    board: &Board,
    supposition: &Supposition,
    j: u8,
) -> [u16; 16]
    requires column { j < 16 }
    requires known { IsReckoned board.now side.now }
    requires table { side.now.table ≡ Some table.now }
    ensures { (o : List Bool) (p : PriceList) (set : List Bool) (c : AColour) → IsSide o board.now p set c side.now → (r : ℕ) → r < 16 → cost_at (cost_table_if supposition.now p set c (array_of o) board.now) r j ≡ slice_index result r }
{
    let mut column = [0; 16];
    for r in 0..16 {
        column[r] = cell_if(side, table, board, supposition, r, j);
    }
    column
}

/// What the men of a side cost if something is supposed of who began on a home.
pub(crate) fn by_home(
    side: &Side,
    table: &Table,
    board: &Board,
    supposition: &Supposition,
    k: Square,
) -> u32
    requires known { IsReckoned board.now side.now }
    requires table { side.now.table ≡ Some table.now }
    ensures { (o : List Bool) (p : PriceList) (set : List Bool) (c : AColour) → IsSide o board.now p set c side.now → IsOfHome supposition.now k → result ≡ side_cost_if supposition.now o board.now p set c }
{
    match place_of_home(side.ground.side, k) {
        Some(j) => {
            let column = column_if(side, table, board, supposition, j);
            cost_with_column(&table.rows, &table.rests, j as usize, &column)
        }
        None => unchanged(table),
    }
}
