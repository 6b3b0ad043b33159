ghost use Rattle.std.specs.Prelude.{◌≡◌, ◌<◌, ◌↔◌, ◌⊎◌, Bool, IsTrue, List, [], cond, slice_index_or, slice_set, true};
ghost use Rattle.board_base.specs.Board.{array_of, is_in};
ghost use Rattle.ledger_facts.specs.Refuted.{IsRefuted};
ghost use Rattle.ledger_rule.specs.Kept.{IsAccount};
ghost use Rattle.ledger_search.specs.Learning.{Finds, FindsFates, FindsHomes, Learns};
ghost use Rattle.ledger_search.specs.Questions.{about, is_asked};

use crate::counts::narrowed_counts;
use crate::ledgers::{Fates, Ledger};
use crate::questions::{Question, about, is_asked};
use board_base::{Colour, Square, SquareSet};
use ledger_rule::{Account, refutes_in};
use query_base::Query;

/// Whether the question is asked of a square, and the account's prices refute that its answer is yes.
fn is_denied(query: &Query, account: &Account, question: &Question, s: Square) -> bool
    requires { IsAccount query.now account.now }
    ensures { IsTrue result ↔ (IsTrue (is_asked question.now query.now.board (array_of query.now.odds) s) × IsRefuted (about question.now s) query.now account.now.set account.now.prices) }
{
    is_asked(query, question, s) && refutes_in(query, account, &about(question, s))
}

/// Whether the square is found already, or they do.
fn is_found(
    query: &Query,
    account: &Account,
    question: &Question,
    found: SquareSet,
    s: Square,
) -> bool
    requires { IsAccount query.now account.now }
    ensures { IsTrue result ↔ (IsTrue (is_in found s) ⊎ (IsTrue (is_asked question.now query.now.board (array_of query.now.odds) s) × IsRefuted (about question.now s) query.now account.now.set account.now.prices)) }
{
    found.has(s) || is_denied(query, account, question, s)
}

/// The set, with this square if `more` says so.
fn with_if(set: SquareSet, s: Square, more: bool) -> SquareSet
    ensures { result ≡ cond more (slice_set set s true) set }
{
    if more { set.with(s) } else { set }
}

/// The squares that are found already, and those of which the question is asked and whose answer can't be yes by the account's prices.
fn more(query: &Query, account: &Account, question: &Question, found: SquareSet) -> SquareSet
    requires { IsAccount query.now account.now }
    ensures { Finds question.now query.now account.now.set account.now.prices found result }
{
    let mut squares = SquareSet::from_bits(0);
    for i in 0..64 {
        let s = Square::known(i);
        squares = with_if(squares, s, is_found(query, account, question, found, s));
    }
    squares
}

/// What is known of the homes of the man on a square.
fn homes_on(homes: &[SquareSet; 64], i: u8) -> SquareSet
    requires { i < 64 }
    ensures { result ≡ slice_index_or homes.now i [] }
{
    homes[i as usize]
}

/// The same of the homes of the man on each square.
fn more_homes(query: &Query, account: &Account, homes: &[SquareSet; 64]) -> [SquareSet; 64]
    requires { IsAccount query.now account.now }
    ensures { FindsHomes query.now account.now.set account.now.prices homes.now result }
{
    let mut all = [SquareSet::from_bits(0); 64];
    for i in 0..64 {
        let found = homes_on(homes, i);
        all[i as usize] = more(query, account, &Question::Home(Square::known(i)), found);
    }
    all
}

/// The same of each fate.
fn more_fates(query: &Query, account: &Account, fates: &Fates) -> Fates
    requires { IsAccount query.now account.now }
    ensures { FindsFates query.now account.now.set account.now.prices fates.now result }
{
    Fates {
        stands: more(query, account, &Question::Stay(false), fates.stands),
        stands_promoted: more(query, account, &Question::Stay(true), fates.stands_promoted),
        taken: more(query, account, &Question::Loss(false, false), fates.taken),
        struck: more(query, account, &Question::Loss(false, true), fates.struck),
        taken_promoted: more(
            query,
            account,
            &Question::Loss(true, false),
            fates.taken_promoted,
        ),
        struck_promoted: more(
            query,
            account,
            &Question::Loss(true, true),
            fates.struck_promoted,
        ),
    }
}

/// The ledger, with what the account's prices refute.
pub(crate) fn learn(query: &Query, account: &Account, ledger: &Ledger) -> Ledger
    requires { IsAccount query.now account.now }
    ensures { Learns query.now account.now.set account.now.prices ledger.now result }
{
    Ledger {
        homes: more_homes(query, account, &ledger.homes),
        captured: more(query, account, &Question::Way(true), ledger.captured),
        straight: more(query, account, &Question::Way(false), ledger.straight),
        fates: more_fates(query, account, &ledger.fates),
        white: narrowed_counts(query, account, Colour::White, &ledger.white),
        black: narrowed_counts(query, account, Colour::Black, &ledger.black),
    }
}
