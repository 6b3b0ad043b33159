ghost use Rattle.std.specs.Prelude.{◌≡◌, ◌+◌, ◌*◌, ◌<◌, ◌≤◌, ◌⊎◌, IfSome};
ghost use Rattle.unmove_gen.specs.Cursors.{number_of};
ghost use Rattle.unmove_gen.specs.Numbers.{AreUnlisted};
ghost use Rattle.unmove_gen.specs.Ready.{AreTargets};

use crate::candidates::Cursor;
use crate::ways::{is_way, next_way, reaches_last};
use board_base::SquareSet;
use query_base::Query;

/// The first candidate with this target, or the end.
fn at_target(to: u8) -> Cursor
    requires { to ≤ 64 }
    ensures { number_of result ≡ 2240 * to }
{
    Cursor {
        to,
        from: 0,
        promotion: 0,
        capture: 0,
    }
}

/// This candidate if this is its origin; else the candidate with its target that comes first from this origin, or with the next target
/// if there is none such.
fn at_origin(here: Cursor, from: u8) -> Cursor
    requires inside { here.to < 64 }
    requires later { here.from ≤ from }
    requires few { from ≤ 64 }
    ensures forward { number_of here ≤ number_of result }
    ensures there { (number_of result ≡ number_of here) ⊎ (number_of result ≡ 2240 * here.to + 35 * from) }
{
    if from == here.from {
        here
    } else if from < 64 {
        Cursor {
            to: here.to,
            from,
            promotion: 0,
            capture: 0,
        }
    } else {
        here.next_target()
    }
}

/// The first candidate from this one on to a target from a square from which the man there may have come, or with a later target.
pub fn on_a_way(query: &Query, targets: SquareSet, here: Cursor) -> Cursor
    requires inside { here.to < 64 }
    requires targets { AreTargets query.now targets }
    ensures forward { number_of here ≤ number_of result }
    ensures unlisted { AreUnlisted query.now (number_of here) (number_of result) }
{
    let m = here.mv();
    let board = &query.board;
    board.is_whole();
    if !targets.has(m.to) {
        return at_target(targets.next_from(here.to + 1));
    }
    match board.at(m.to) {
        Some(man) => at_origin(here, next_way(board, man, m.to, here.from)),
        None => here.next_target(),
    }
}

/// A later candidate, if none from this one on to there is listed by the move's promotion, with which the man on the target can't have
/// moved so.
pub fn skipped(query: &Query, here: Cursor) -> Option<Cursor>
    requires inside { here.to < 64 }
    ensures forward { IfSome result (λ there. number_of here < number_of there) }
    ensures unlisted { IfSome result (λ there. AreUnlisted query.now (number_of here) (number_of there)) }
{
    let m = here.mv();
    let board = &query.board;
    board.is_whole();
    if is_way(board, &m) {
        return None;
    }
    if reaches_last(board, &m) {
        Some(here.next_promotion())
    } else {
        Some(here.next_origin())
    }
}

/// A later candidate after all of this one's move, with none listed between.
pub fn past_move(query: &Query, here: Cursor) -> Cursor
    requires { here.to < 64 }
    ensures forward { 2240 * here.to + 35 * here.from + 7 * (here.promotion + 1) ≤ number_of result }
    ensures unlisted { AreUnlisted query.now (2240 * here.to + 35 * here.from + 7 * (here.promotion + 1)) (number_of result) }
{
    query.board.is_whole();
    if reaches_last(&query.board, &here.mv()) {
        here.next_promotion()
    } else {
        here.next_origin()
    }
}
