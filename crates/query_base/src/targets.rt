ghost use Rattle.std.specs.Prelude.{◌≡◌, ◌↔◌, IfSome, IsTrue, List, None, Some};
ghost use Rattle.board_base.specs.declared.moves.Move.{Move as AMove};
ghost use Rattle.query_base.specs.Reach.{Contradicts, Reaches};
ghost use Rattle.query_base.specs.Targets.{Covers, target};

use crate::claims::Claim;
use crate::ends::is_within;
use crate::queries::Query;
use board_base::{Move, is_move};
use play_rules::{double_of, ep_fits};

/// The query that a game reaches if and only if it contradicts the claim about `query`: the query itself if it is claimed to be
/// illegal; with the claimed last move barred; with the castling that is claimed to be lost added to those held; with the double step
/// barred that the claimed capture en passant answers, or the query itself if that capture doesn't fit its board. The query bars
/// no move of its own.
pub fn target(query: &Query, claim: &Claim) -> Query
    requires { query.now.barred ≡ None }
    ensures query { result ≡ target query.now claim.now }
    ensures contradicted { (g : List AMove) → Reaches g result ↔ Contradicts g claim.now query.now }
{
    let mut target = *query;
    match claim {
        Claim::Illegal => {}
        Claim::Last(m) => target.barred = Some(*m),
        Claim::Lost(castle) => target.held = query.held.with(*castle),
        Claim::Ep(m) => {
            if ep_fits(&query.board, query.turn, m) {
                target.barred = double_of(m, query.turn);
            }
        }
    }
    target
}

/// A move that the first query demands or bars, if it does, is the one that the second does.
fn is_kept(first: &Option<Move>, second: &Option<Move>) -> bool
    ensures { IsTrue result ↔ IfSome first.now (λ m. second.now ≡ Some m) }
{
    match first {
        Some(m) => is_move(second, m),
        None => true,
    }
}

/// A clock that the first query demands, if it does, is the one that the second does.
fn is_same_clock(first: Option<u16>, second: Option<u16>) -> bool
    ensures { IsTrue result ↔ IfSome first (λ n. second ≡ Some n) }
{
    first.is_none() || first == second
}

/// Whether the first query asks no more than the second: board, side to move and odds are the same; each castling that `a` holds `q`
/// holds too; `a.only` is None or is `q.only`; `a.barred` is None or is `q.barred`; `a.clock` is None or is `q.clock`. Each game that reaches `q` then reaches `a`.
pub fn covers(a: &Query, q: &Query) -> bool
    ensures answer { IsTrue result ↔ Covers a.now q.now }
    ensures reached { IsTrue result → (g : List AMove) → Reaches g q.now → Reaches g a.now }
{
    if !a.board.is_same(&q.board) {
        return false;
    }
    if a.turn != q.turn {
        return false;
    }
    if !a.odds.is_same(q.odds) {
        return false;
    }
    if !is_within(a.held, q.held) {
        return false;
    }
    if !is_kept(&a.only, &q.only) {
        return false;
    }
    is_kept(&a.barred, &q.barred) && is_same_clock(a.clock, q.clock)
}
