ghost use Rattle.std.specs.Prelude.{◌≡◌};
ghost use Rattle.query_base.specs.Asked.{IsShortClock};

use board_base::Odds;
use query_base::Query;

/// The query of games at these odds that demands this clock, from 0 to 9999, or none. FEN has no word for either: in all else this is
/// the same query.
pub fn at_demands(query: Query, odds: Odds, clock: Option<u16>) -> Query
    requires { IsShortClock clock }
    ensures { result ≡ record query { odds = odds; clock = clock } }
{
    let mut query = query;
    query.odds = odds;
    query.clock = clock;
    query
}
