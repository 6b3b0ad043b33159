ghost use Rattle.std.specs.Prelude.{◌≡◌, ◌||◌, ◌-◌, ◌≤◌, not};
ghost use Rattle.std.specs.List.{find, list_any, range_with_len};
ghost use Rattle.retraction_bars.specs.Bars.{bars};
ghost use Rattle.retraction_bars.specs.Grounds.{bars_all, first_bar, spares};
ghost use Rattle.retraction_bars.specs.Numbers.{bar_at};
ghost use Rattle.retraction_bars.specs.Scopes.{is_within};

use crate::bars::{Bar, is_barred};
use crate::numbers::bar_at;
use crate::scopes::{Scope, high_of, is_within, low_of};
use board_base::Unmove;
use query_base::Query;

/// The way is out of the scope, or barred.
fn spares(query: &Query, scope: &Scope, bar: Bar, u: &Unmove) -> bool
    ensures { result ≡ spares query.now scope.now bar u.now }
{
    !is_within(scope, u) || is_barred(query, u, bar)
}

/// The bar with this number bars all ways of the scope.
fn bars_all(query: &Query, ways: &[Unmove], scope: &Scope, n: u8) -> bool
    ensures { result ≡ bars_all query.now ways.now scope.now n }
{
    let bar = bar_at(n);
    ways.iter().all(|u| spares(query, scope, bar, u))
}

/// Whether some way is within the scope.
fn has_any(ways: &[Unmove], scope: &Scope) -> bool
    ensures { result ≡ list_any (is_within scope.now) ways.now }
{
    ways.iter().any(|u| is_within(scope, u))
}

/// The number of the first bar, from one number to another, that bars all ways of the scope.
fn first_of(query: &Query, ways: &[Unmove], scope: &Scope, low: u8, high: u8) -> Option<u8>
    requires { low ≤ high }
    ensures { result ≡ find (bars_all query.now ways.now scope.now) (range_with_len low (high - low)) }
{
    for n in low..high {
        if bars_all(query, ways, scope, n) {
            return Some(n);
        }
    }
    None
}

/// The number of the first bar that bars all ways of the scope; None if there is no such way, or no such bar.
#[tactic(auto, unfolding(crate::specs::Grounds::first_bar))]
pub fn first_bar(query: &Query, ways: &[Unmove], scope: &Scope) -> Option<u8>
    ensures { result ≡ first_bar query.now ways.now scope.now }
{
    if has_any(ways, scope) {
        first_of(
            query,
            ways,
            scope,
            low_of(scope.manner),
            high_of(scope.manner),
        )
    } else {
        None
    }
}
