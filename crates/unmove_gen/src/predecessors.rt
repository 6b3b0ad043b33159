ghost use Rattle.std.specs.Prelude.{◌≡◌, ◌↔◌, IsTrue};
ghost use Rattle.std.specs.List.{Contains};
ghost use Rattle.unmove_gen.specs.Listed.{unmoves};
ghost use Rattle.query_base.specs.Asked.{IsShortClock};
ghost use Rattle.unmove_gen.specs.Predecessor.{clock_before, predecessor, with_castle};

use crate::legality::{answered, is_listed};
use crate::taking_back::take_back;
use board_base::{Castle, CastleSet, Unmove};
use castle_history::castle_of;
use query_base::Query;

fn with_castle(held: CastleSet, castle: Option<Castle>) -> CastleSet
    ensures { result ≡ with_castle held castle }
{
    match castle {
        Some(castle) => held.with(castle),
        None => held,
    }
}

/// Whether the unmove is in the query's list, as `Unmoves` gives it. Any unmove may be asked about.
pub fn is_unmove(query: &Query, u: &Unmove) -> bool
    ensures { IsTrue result ↔ Contains (unmoves query.now) u.now }
{
    query.board.is_whole();
    let _from = u.mv.from.index();
    let _to = u.mv.to.index();
    is_listed(query, u)
}

/// The clock before the last move, if it is known.
fn clock_before(clock: Option<u16>) -> Option<u16>
    requires { IsShortClock clock }
    ensures clock { result ≡ clock_before clock }
    ensures short { IsShortClock result }
{
    match clock {
        Some(n) if n > 0 => Some(n - 1),
        _ => None,
    }
}

/// What a game has to reach before the unmove's move, so that it reaches the query with it: the board before the move, the other
/// side to move, the same odds, the rights that are held with that of the castling that it takes back (article 3.8.2), and the
/// double step that it answered as the last move, if it captured en passant (article 3.7.3.1). No move is barred. A clock
/// above 0 was one less, and of a clock of 0 nothing is known before (article 9.3).
pub fn pred(query: &Query, u: &Unmove) -> Query
    requires { Contains (unmoves query.now) u.now }
    ensures { result ≡ predecessor query.now u.now }
{
    Query {
        board: take_back(&query.board, u),
        turn: query.turn.other(),
        odds: query.odds,
        held: with_castle(query.held, castle_of(u, &query.board)),
        only: answered(u, query.turn.other()),
        barred: None,
        clock: clock_before(query.clock),
    }
}
