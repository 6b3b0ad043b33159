ghost use Rattle.std.specs.Prelude.{◌≡◌, ◌<◌, ◌≤◌, ℕ, Bool, List, cond, min, nat_lt, slice_index};
ghost use Rattle.capture_prices.specs.Prices.{PriceList, gate, take};
ghost use Rattle.men_fates.specs.Ways.{toll};
ghost use Rattle.balance_rule.specs.Costs.{never};
ghost use Rattle.balance_rule.specs.LeastWays.{IsLeast, IsReach};
ghost use Rattle.sketch_account.specs.Coming.{comes_to};

use balance_rule::{NEVER, Reach, number_of};
use board_base::{Colour, Square, SquareSet};

/// The least toll of the ways to a square that are straight, short of the last rank, where that is allowed, and of the others, where these
/// are.
fn toll_by(reach: &Reach, i: u8, plain: bool, other: bool) -> u16
    requires { i < 64 }
    ensures { result ≡ min (cond (cond (nat_lt i 56) plain other) (slice_index reach.now.straight i) never) (cond other (slice_index reach.now.aside i) never) }
{
    let straight_allowed = if i < 56 { plain } else { other };
    let straight = if straight_allowed {
        reach.straight[i as usize]
    } else {
        NEVER
    };
    let aside = if other {
        reach.aside[i as usize]
    } else {
        NEVER
    };
    straight.min(aside)
}

/// The same of the ways to some squares.
pub(crate) fn least_to(
    reach: &Reach,
    side: Colour,
    goals: SquareSet,
    plain: bool,
    other: bool,
) -> u16
    ensures small { result ≤ never }
    ensures least { (p : PriceList) (set : List Bool) (h : ℕ) → h < 64 → IsReach p set side h reach.now → IsLeast side set h (comes_to side goals plain other h) (toll (take p side) (gate p) h) result }
{
    let mut least = NEVER;
    let mut i = goals.next_from(0);
    'goals: while i < 64 {
        least = toll_by(reach, number_of(side, Square::known(i)), plain, other).min(least);
        i = goals.next_from(i + 1);
    }
    least
}
