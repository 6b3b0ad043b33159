ghost use Rattle.std.specs.Prelude.{◌≡◌, ℕ, ◌+◌, ◌*◌, ◌<◌, ◌≤◌, false, slice_index_or, IfSome, IfNone};
ghost use Rattle.unmove_gen.specs.Cursors.{number_of};
ghost use Rattle.unmove_gen.specs.Numbers.{AreUnlisted, number_at};
ghost use Rattle.unmove_gen.specs.Plain.{AreFacts, KnowsAlone};
ghost use Rattle.unmove_gen.specs.Ready.{AreReady, AreTargets};

use crate::candidates::Cursor;
use crate::captures::{is_alone, listed};
use crate::facts::QueryFacts;
use crate::skipping::{on_a_way, past_move, skipped};
use board_base::{Square, SquareSet};
use query_base::Query;

/// A candidate, and for each of the seven candidates of its move whether it is listed.
#[derive(Clone, Copy)]
pub struct ListedMove {
    pub cursor: Cursor,
    pub listed: [bool; 7],
    /// It is known that with the man on the candidate's target taken off the king of the side to move is left alone.
    pub alone: bool,
}

/// Whether with the man on this target taken off the king is left alone, which may be known of this one.
fn is_alone_at(query: &Query, facts: &Option<QueryFacts>, last: u8, alone: bool, to: u8) -> bool
    requires inside { to < 64 }
    requires facts { IfSome facts.now (λ f. AreFacts query.now f) }
    requires alone { IfSome facts.now (λ f. KnowsAlone query.now f.king last alone) }
    ensures { IfSome facts.now (λ f. KnowsAlone query.now f.king to result) }
{
    if to == last {
        alone
    } else {
        is_alone(query, facts, Square::known(to))
    }
}

/// 7, or the place of a capture from this one on with none before it that is listed.
fn next_listed(listed: &[bool; 7], start: u8) -> u8
    requires { start ≤ 7 }
    ensures high { start ≤ result }
    ensures low { result ≤ 7 }
    ensures none { (r : ℕ) → start ≤ r → r < result → slice_index_or listed.now r false ≡ false }
{
    let mut place = start;
    while place < 7 {
        if listed[place as usize] {
            return place;
        }
        place += 1;
    }
    place
}

/// The first candidate from this one on of the same move that is listed, with what is listed of the move; None if none is.
fn stop_on(
    query: &Query,
    facts: &Option<QueryFacts>,
    start: Cursor,
    alone: bool,
) -> Option<ListedMove>
    requires inside { start.to < 64 }
    requires facts { IfSome facts.now (λ f. AreFacts query.now f) }
    requires alone { IfSome facts.now (λ f. KnowsAlone query.now f.king start.to alone) }
    ensures alone { IfSome result (λ stop. IfSome facts.now (λ f. KnowsAlone query.now f.king stop.cursor.to stop.alone)) }
    ensures forward { IfSome result (λ stop. number_of start ≤ number_of stop.cursor) }
    ensures unlisted { IfSome result (λ stop. AreUnlisted query.now (number_of start) (number_of stop.cursor)) }
    ensures ready { IfSome result (λ stop. AreReady query.now stop.cursor stop.listed) }
    ensures none { IfNone result (AreUnlisted query.now (number_of start) (number_at start.to start.from start.promotion 7)) }
{
    let listed = listed(query, facts, &start.mv(), alone);
    let place = next_listed(&listed, start.capture);
    if place < 7 {
        Some(ListedMove {
            cursor: Cursor {
                to: start.to,
                from: start.from,
                promotion: start.promotion,
                capture: place,
            },
            listed,
            alone,
        })
    } else {
        None
    }
}

/// The end, or a candidate from this one on with none before it that is listed.
pub fn stop_from(
    query: &Query,
    facts: &Option<QueryFacts>,
    targets: SquareSet,
    start: Cursor,
    last: u8,
    alone: bool,
) -> ListedMove
    requires alone { IfSome facts.now (λ f. KnowsAlone query.now f.king last alone) }
    requires facts { IfSome facts.now (λ f. AreFacts query.now f) }
    requires targets { AreTargets query.now targets }
    ensures alone { IfSome facts.now (λ f. KnowsAlone query.now f.king result.cursor.to result.alone) }
    ensures forward { number_of start ≤ number_of result.cursor }
    ensures unlisted { AreUnlisted query.now (number_of start) (number_of result.cursor) }
    ensures ready { AreReady query.now result.cursor result.listed }
{
    let mut there = start;
    let mut seen = last;
    let mut free = alone;
    while there.to < 64 {
        let next = on_a_way(query, targets, there);
        if next.to > there.to {
            there = next;
        } else {
            match skipped(query, next) {
                Some(later) => there = later,
                None => {
                    free = is_alone_at(query, facts, seen, free, next.to);
                    seen = next.to;
                    match stop_on(query, facts, next, free) {
                        Some(stop) => return stop,
                        None => there = past_move(query, next),
                    }
                }
            }
        }
    }
    ListedMove {
        cursor: there,
        listed: [false; 7],
        alone: false,
    }
}

/// A later candidate, with none listed between.
pub fn stop_after(
    query: &Query,
    facts: &Option<QueryFacts>,
    targets: SquareSet,
    here: &ListedMove,
) -> ListedMove
    requires alone { IfSome facts.now (λ f. KnowsAlone query.now f.king here.now.cursor.to here.now.alone) }
    requires inside { here.now.cursor.to < 64 }
    requires facts { IfSome facts.now (λ f. AreFacts query.now f) }
    requires targets { AreTargets query.now targets }
    requires ready { AreReady query.now here.now.cursor here.now.listed }
    ensures alone { IfSome facts.now (λ f. KnowsAlone query.now f.king result.cursor.to result.alone) }
    ensures forward { number_of here.now.cursor < number_of result.cursor }
    ensures unlisted { AreUnlisted query.now (number_of here.now.cursor + 1) (number_of result.cursor) }
    ensures ready { AreReady query.now result.cursor result.listed }
{
    let cursor = here.cursor;
    let place = next_listed(&here.listed, cursor.capture + 1);
    if place < 7 {
        ListedMove {
            cursor: Cursor {
                to: cursor.to,
                from: cursor.from,
                promotion: cursor.promotion,
                capture: place,
            },
            listed: here.listed,
            alone: here.alone,
        }
    } else {
        stop_from(
            query,
            facts,
            targets,
            past_move(query, cursor),
            cursor.to,
            here.alone,
        )
    }
}
