ghost use Rattle.std.specs.Prelude.{◌≡◌, ◌↔◌, ◌+◌, ◌≤◌, length, Bool, IsTrue, List, pos, ◌+ℤ◌, ◌<ℤ◌};
ghost use Rattle.board_base.specs.Board.{Places};
ghost use Rattle.board_base.specs.Potentials.{ArePotentials};
ghost use Rattle.board_base.specs.declared.men.Colour.{Colour as AColour};
ghost use Rattle.board_base.specs.declared.moves.Move.{Move};
ghost use Rattle.men_account.specs.Account.{is_any};
ghost use Rattle.men_account.specs.Homes.{men_of};
ghost use Rattle.cage_rules.specs.Refuted.{HasTooMany, is_spent};
ghost use Rattle.pawn_assign.specs.PawnCosts.{pawn_costs, pawn_squares};
ghost use Rattle.query_base.specs.Reach.{Reaches};
ghost use Rattle.static_rules.specs.SetRules.{CapsSupports, FrozenSupports, IsAbove, IsSettled, PromoSupports};
ghost use Rattle.static_rules.specs.Greatest.{AreBest};

use crate::living_homes::{living_allowance, spent_of};
use board_base::{Board, Colour, Potentials, Square, SquareSet, array_of};
use cage_rules::{as_array, is_frozen};
use men_account::{counts, excess, men_of};
use pawn_assign::{Costs, bound, costs, least};
use query_base::Query;

/// Tells the caller that a set has 64 truth values.
pub(crate) fn is_whole(set: SquareSet)
    ensures { length set ≡ 64 }
{
    let _ = set.has(Square::known(0));
}

/// Tells the caller what numbers potentials are.
pub(crate) fn are_potentials(p: &Potentials)
    ensures { ArePotentials p.now }
{
    let _ = p.v();
}

fn is_changed(query: &Query, set: SquareSet) -> bool
    ensures { IsTrue result ↔ FrozenSupports query.now.odds query.now set }
{
    is_whole(set);
    is_frozen(query, set) && !as_array(&query.board, set, query.odds)
}

/// Whether the rule on frozen sets supports the query. Where it does, no game of any length reaches the query.
pub(crate) fn frozen_supports(query: &Query, set: SquareSet) -> bool
    ensures answer { IsTrue result ↔ FrozenSupports query.now.odds query.now set }
    ensures unreached { IsTrue result → (g : List Move) → Reaches g query.now → ⊥ }
{
    is_changed(query, set)
}

fn is_settled(query: &Query, set: SquareSet) -> bool
    ensures { IsTrue result ↔ IsSettled query.now.odds query.now set }
{
    is_whole(set);
    is_frozen(query, set) && as_array(&query.board, set, query.odds)
}

/// Whether the side's pawns, and its officers of each kind above its homes of the kind that aren't dead, are more than the pawns with
/// which it began. Homes whose men are left out aren't counted.
pub(crate) fn has_more(query: &Query, side: Colour, set: SquareSet) -> bool
    ensures { IsTrue result ↔ HasTooMany query.now.odds query.now set side }
{
    let allowed = living_allowance(&query.board, set, side, query.odds);
    excess(&counts(&query.board, side), &allowed) > allowed.pawns as u16
}

fn promo_holds(query: &Query, side: Colour, set: SquareSet) -> bool
    ensures { IsTrue result ↔ PromoSupports query.now.odds query.now side set }
{
    is_settled(query, set) && has_more(query, side, set)
}

/// Whether the rule on promoted men supports the query. Where it does, no game of any length reaches the query.
pub(crate) fn promo_supports(query: &Query, side: Colour, set: SquareSet) -> bool
    ensures answer { IsTrue result ↔ PromoSupports query.now.odds query.now side set }
    ensures unreached { IsTrue result → (g : List Move) → Reaches g query.now → ⊥ }
{
    promo_holds(query, side, set)
}

/// Whether a sum is above the side's men on the first board, less those on the board, less those of its homes that are dead and shielded.
fn is_over(first: &Board, board: &Board, side: Colour, set: SquareSet, sum: i32) -> bool
    ensures { IsTrue result ↔ (pos (men_of side is_any first.now) <ℤ (sum +ℤ pos (men_of side is_any board.now + men_of side (is_spent board.now set) first.now))) }
{
    let begun = men_of(first, side) as i32;
    let on_board = men_of(board, side) as i32;
    let lost = spent_of(first, board, set, side) as i32;
    sum > begun - on_board - lost
}

/// Whether the potentials are bounded by the costs, which are those of the side's pawns, and their sum is above the men with which the
/// other side begins, less those on the board, less those of its homes that are dead and shielded.
pub(crate) fn is_above_with(
    query: &Query,
    side: Colour,
    set: SquareSet,
    costs: &Costs,
    p: &Potentials,
) -> bool
    requires few { length (pawn_squares side query.now.board) ≤ 8 }
    requires costs { costs.now ≡ pawn_costs query.now.odds side query.now.board }
    ensures { IsTrue result ↔ IsAbove query.now.odds query.now side set p.now.u p.now.v }
{
    match bound(costs, p) {
        Some(sum) => is_over(&array_of(query.odds), &query.board, side.other(), set, sum),
        None => false,
    }
}

/// The same of the costs of the side's pawns, if they are no more than eight.
fn is_above(query: &Query, side: Colour, set: SquareSet, p: &Potentials) -> bool
    ensures { IsTrue result ↔ IsAbove query.now.odds query.now side set p.now.u p.now.v }
{
    match costs(&query.board, side, query.odds) {
        Some(costs) => is_above_with(query, side, set, &costs, p),
        None => false,
    }
}

/// The potentials with the greatest sum that these costs bound.
pub(crate) fn best_potentials(costs: &Costs) -> Potentials
    ensures best { (o : List Bool) (side : AColour) (board : Places) → costs.now ≡ pawn_costs o side board → AreBest o side board result.u result.v }
    ensures known { ArePotentials result }
{
    let p = least(costs).potentials;
    are_potentials(&p);
    p
}

fn caps_holds(query: &Query, side: Colour, set: SquareSet, p: &Potentials) -> bool
    ensures { IsTrue result ↔ CapsSupports query.now.odds query.now side set p.now.u p.now.v }
{
    are_potentials(p);
    is_settled(query, set) && is_above(query, side, set, p)
}

/// Whether the rule on captures by pawns supports the query. Where it does, no game of any length reaches the query.
pub(crate) fn caps_supports(query: &Query, side: Colour, set: SquareSet, p: &Potentials) -> bool
    ensures answer { IsTrue result ↔ CapsSupports query.now.odds query.now side set p.now.u p.now.v }
    ensures unreached { IsTrue result → (g : List Move) → Reaches g query.now → ⊥ }
{
    caps_holds(query, side, set, p)
}
