ghost use Rattle.std.specs.Prelude.{◌≡◌, ◌≤◌, List, MatchOption, IfSome, length};
ghost use Rattle.std.specs.List.{All};
ghost use Rattle.board_base.specs.declared.moves.Move.{Move};
ghost use Rattle.pawn_assign.specs.PawnCosts.{pawn_costs, pawn_squares};
ghost use Rattle.query_base.specs.Reach.{Reaches};
ghost use Rattle.static_rules.specs.Greatest.{IsGreatestSettled};
ghost use Rattle.static_rules.specs.Lines.{HasNoCapsLine, HasNoFrozenLine, HasNoPromoLine, HasNoSettledLine, simple};
ghost use Rattle.static_rules.specs.Supports.{IsClosed, Supports};

use crate::rules::supports;
use crate::set_rules::{best_potentials, has_more, is_above_with, is_whole};
use crate::stayed::{has_few, needs_few};
use board_base::{Colour, SquareSet};
use cage_rules::{as_array, greatest_frozen};
use pawn_assign::{Costs, costs};
use query_base::{Query, RuleLine};

/// The first of these rule lines that supports the query.
fn first_of(query: &Query, rules: &[RuleLine]) -> Option<RuleLine>
    ensures { MatchOption result (All (λ rule. Supports query.now rule → ⊥) rules.now) (λ rule. Supports query.now rule) }
{
    for rule in rules {
        if supports(query, rule) {
            return Some(*rule);
        }
    }
    None
}

/// A rule line without sets that supports the query.
fn simple_line(query: &Query) -> Option<RuleLine>
    ensures { MatchOption result (All (λ rule. Supports query.now rule → ⊥) simple) (λ rule. Supports query.now rule) }
{
    first_of(
        query,
        &[
            RuleLine::Kings,
            RuleLine::Ranks,
            RuleLine::Check,
            RuleLine::Rights,
            RuleLine::Count(Colour::White),
            RuleLine::Count(Colour::Black),
        ],
    )
}

/// A rule line on promoted men of this side that supports the query. Most queries are told by the men who stand where they began.
fn promo_line(query: &Query, side: Colour, settled: SquareSet) -> Option<RuleLine>
    requires { IsGreatestSettled query.now.odds query.now settled }
    ensures { MatchOption result (HasNoPromoLine query.now side) (λ rule. Supports query.now rule) }
{
    if has_few(query, side) {
        return None;
    }
    if has_more(query, side, settled) {
        Some(RuleLine::Promo(side, settled))
    } else {
        None
    }
}

/// A rule line on captures by pawns of this side, which have these costs, that supports the query. Most queries are told by the number of
/// enemy men.
fn costly_line(query: &Query, side: Colour, settled: SquareSet, costs: &Costs) -> Option<RuleLine>
    requires settled { IsGreatestSettled query.now.odds query.now settled }
    requires few { length (pawn_squares side query.now.board) ≤ 8 }
    requires costs { costs.now ≡ pawn_costs query.now.odds side query.now.board }
    ensures { MatchOption result (HasNoCapsLine query.now side) (λ rule. Supports query.now rule) }
{
    if needs_few(query, side, settled, costs) {
        return None;
    }
    let p = best_potentials(costs);
    if is_above_with(query, side, settled, costs, &p) {
        Some(RuleLine::Caps(side, settled, p))
    } else {
        None
    }
}

/// A rule line on captures by pawns of this side that supports the query.
fn caps_line(query: &Query, side: Colour, settled: SquareSet) -> Option<RuleLine>
    requires { IsGreatestSettled query.now.odds query.now settled }
    ensures { MatchOption result (HasNoCapsLine query.now side) (λ rule. Supports query.now rule) }
{
    match costs(&query.board, side, query.odds) {
        Some(costs) => costly_line(query, side, settled, &costs),
        None => None,
    }
}

/// A rule line on a set that is frozen and as in the array at the query's odds that supports the query, if the greatest of these sets
/// is known.
fn settled_line(query: &Query, settled: SquareSet) -> Option<RuleLine>
    requires { IsGreatestSettled query.now.odds query.now settled }
    ensures { MatchOption result (HasNoSettledLine query.now) (λ rule. Supports query.now rule) }
{
    if let Some(rule) = promo_line(query, Colour::White, settled) {
        return Some(rule);
    }
    if let Some(rule) = promo_line(query, Colour::Black, settled) {
        return Some(rule);
    }
    if let Some(rule) = caps_line(query, Colour::White, settled) {
        return Some(rule);
    }
    caps_line(query, Colour::Black, settled)
}

/// A rule line on a set that supports the query. Where the greatest frozen set is as in the array at the query's odds, it is the
/// greatest of those that are, which decides the other rules.
fn set_line(query: &Query) -> Option<RuleLine>
    ensures { MatchOption result (HasNoFrozenLine query.now × HasNoSettledLine query.now) (λ rule. Supports query.now rule) }
{
    let set = greatest_frozen(query);
    is_whole(set);
    if as_array(&query.board, set, query.odds) {
        settled_line(query, set)
    } else {
        Some(RuleLine::Frozen(set))
    }
}

fn any_line(query: &Query) -> Option<RuleLine>
    ensures { MatchOption result (IsClosed query.now → ⊥) (λ rule. Supports query.now rule) }
{
    match simple_line(query) {
        Some(rule) => Some(rule),
        None => set_line(query),
    }
}

/// A rule line that supports the query, which therefore no game of any length reaches; None if and only if no rule line does, with any
/// side, set of squares and potentials. `Kings`, `Ranks`, `Check`, `Rights` and `Count` are tried first, in this order, then `Frozen`,
/// then `Promo` and then `Caps` of White and of Black. Which rule line is given if several support is free.
pub fn close(query: &Query) -> Option<RuleLine>
    ensures closed { MatchOption result (IsClosed query.now → ⊥) (λ rule. Supports query.now rule) }
    ensures unreached { IfSome result (λ rule. (g : List Move) → Reaches g query.now → ⊥) }
{
    any_line(query)
}
