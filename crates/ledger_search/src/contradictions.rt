ghost use Rattle.std.specs.Prelude.{◌≡◌, ◌<◌, ◌↔◌, ℕ, IsTrue};
ghost use Rattle.ledger_search.specs.Contradictions.{AreAllDenied, IsContradictedAt, IsContradictory, IsHomeless, are_void, has_no_fate, is_torn, is_void};

use crate::counts::{Counts, Range};
use crate::ledgers::{Fates, Ledger};
use crate::questions::{Question, is_asked, is_man};
use board_base::{Square, SquareSet, array_of};
use query_base::Query;

/// Whether each square of which the question is asked is in the set.
fn are_all_denied(query: &Query, question: &Question, found: SquareSet) -> bool
    ensures { IsTrue result ↔ AreAllDenied question.now query.now found }
{
    for i in 0..64 {
        let h = Square::known(i);
        if is_asked(query, question, h) && !found.has(h) {
            return false;
        }
    }
    true
}

/// Whether a man stands on the square, and no home is left for him.
fn is_homeless(query: &Query, ledger: &Ledger, s: Square) -> bool
    ensures { IsTrue result ↔ IsHomeless query.now ledger.now s }
{
    let found = ledger.homes[s.index() as usize];
    is_man(query.board.at(s)) && are_all_denied(query, &Question::Home(s), found)
}

/// Whether the pawn on the square can neither have captured nor have not.
fn is_torn(ledger: &Ledger, s: Square) -> bool
    ensures { result ≡ is_torn ledger.now s }
{
    ledger.captured.has(s) && ledger.straight.has(s)
}

/// Whether no fate is left for the man who began on the square.
fn has_no_fate(query: &Query, fates: &Fates, h: Square) -> bool
    ensures { result ≡ has_no_fate query.now fates.now h }
{
    let first = array_of(query.odds);
    is_man(first.at(h))
        && fates.stands.has(h)
        && fates.stands_promoted.has(h)
        && fates.taken.has(h)
        && fates.struck.has(h)
        && fates.taken_promoted.has(h)
        && fates.struck_promoted.has(h)
}

/// Whether one of these is so.
fn is_contradicted_at(query: &Query, ledger: &Ledger, s: Square) -> bool
    ensures { IsTrue result ↔ IsContradictedAt query.now ledger.now s }
{
    is_homeless(query, ledger, s) || is_torn(ledger, s) || has_no_fate(query, &ledger.fates, s)
}

/// Whether one of them is so on some square.
fn is_contradicted(query: &Query, ledger: &Ledger) -> bool
    ensures { IsTrue result ↔ ((s : ℕ) × (s < 64) × IsContradictedAt query.now ledger.now s) }
{
    for i in 0..64 {
        if is_contradicted_at(query, ledger, Square::known(i)) {
            return true;
        }
    }
    false
}

/// Whether more captures were made at least than at most.
fn is_void(range: &Range) -> bool
    ensures { result ≡ is_void range.now }
{
    range.most < range.least
}

fn are_void(counts: &Counts) -> bool
    ensures { result ≡ are_void counts.now }
{
    is_void(&counts.all) || is_void(&counts.dark) || is_void(&counts.light)
}

/// Whether the ledger contradicts itself: a man on the board has no home left, a pawn can neither have captured nor have not, a man of
/// the array has no fate left, or a side's pawns made more captures at least than at most. By `contradictions_close` no game leads to the
/// position then.
pub fn is_contradictory(query: &Query, ledger: &Ledger) -> bool
    ensures { IsTrue result ↔ IsContradictory query.now ledger.now }
{
    is_contradicted(query, ledger) || are_void(&ledger.white) || are_void(&ledger.black)
}
