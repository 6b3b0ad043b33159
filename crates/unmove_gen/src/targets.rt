ghost use Rattle.std.specs.Prelude.{◌≡◌, false, IfSome};
ghost use Rattle.check_origins.specs.Near.{AreArrivals};
ghost use Rattle.unmove_gen.specs.Plain.{AreFacts};
ghost use Rattle.unmove_gen.specs.Ready.{AreTargets, IsNoTarget};

use crate::facts::QueryFacts;
use board_base::{Square, SquareSet, is_of};
use check_origins::origins;
use query_base::Query;

/// Where the last move can have ended, as far as checks tell.
pub fn arrivals_by(query: &Query, facts: &Option<QueryFacts>) -> SquareSet
    requires { IfSome facts.now (λ f. AreFacts query.now f) }
    ensures { AreArrivals query.now.board query.now.turn result }
{
    match facts {
        Some(facts) if !facts.checked => SquareSet::from_bits(u64::MAX),
        _ => origins(&query.board, query.turn),
    }
}

/// A man of the side that moved stands on the square, and the last move can have ended there.
fn may_be_target(query: &Query, arrivals: SquareSet, s: Square) -> bool
    requires { AreArrivals query.now.board query.now.turn arrivals }
    ensures { result ≡ false → IsNoTarget query.now s }
{
    query.board.is_whole();
    s.index();
    arrivals.has(s) && is_of(query.turn.other(), query.board.at(s))
}

/// The squares on which a listed move can have ended.
pub fn targets_of(query: &Query, arrivals: SquareSet) -> SquareSet
    requires { AreArrivals query.now.board query.now.turn arrivals }
    ensures { AreTargets query.now result }
{
    let mut targets = SquareSet::from_bits(0);
    for i in 0..64 {
        let s = Square::known(i);
        if may_be_target(query, arrivals, s) {
            targets = targets.with(s);
        }
    }
    targets
}
