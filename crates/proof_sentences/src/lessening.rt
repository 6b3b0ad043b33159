//! Least sets: what is told of men who never moved is told of no more of them than the reason needs.

ghost use Rattle.std.specs.Prelude.{◌≡◌, None, cond, slice_set};
ghost use Rattle.board_base.specs.Board.{is_in};
ghost use Rattle.cert_checker.specs.Reasons.{ReasonSupports};
ghost use Rattle.static_rules.specs.Left.{left_with};
ghost use Rattle.proof_sentences.specs.Lessened.{IsGreatestWithin, IsLeast, IsLeft, IsLessened, line_set, line_with, set_of, with_set};

use balance_rule::is_whole;
use board_base::{Board, Man, Square, SquareSet};
use cage_rules::greatest_frozen;
use cert_checker::reason_supports;
use cert_text::Reason;
use query_base::{Query, RuleLine};

/// The set of a rule line that has one.
fn line_set(rule: &RuleLine) -> Option<SquareSet>
    ensures { result ≡ line_set rule.now }
{
    match rule {
        RuleLine::Frozen(set) | RuleLine::Caps(_, set, _) | RuleLine::Promo(_, set) => Some(*set),
        RuleLine::Kings
        | RuleLine::Ranks
        | RuleLine::Check
        | RuleLine::Rights
        | RuleLine::Count(_) => None,
    }
}

/// The set of a reason that has one.
fn set_of(reason: &Reason) -> Option<SquareSet>
    ensures { result ≡ set_of reason.now }
{
    match reason {
        Reason::Line(rule) => line_set(rule),
        Reason::Balance(set, _) => Some(*set),
    }
}

/// The rule line with this set, if it has one.
fn line_with(rule: &RuleLine, set: SquareSet) -> RuleLine
    ensures { result ≡ line_with rule.now set }
{
    match rule {
        RuleLine::Frozen(_) => RuleLine::Frozen(set),
        RuleLine::Caps(side, _, p) => RuleLine::Caps(*side, set, *p),
        RuleLine::Promo(side, _) => RuleLine::Promo(*side, set),
        RuleLine::Kings
        | RuleLine::Ranks
        | RuleLine::Check
        | RuleLine::Rights
        | RuleLine::Count(_) => *rule,
    }
}

/// The reason with this set, if it has one.
fn with_set(reason: &Reason, set: SquareSet) -> Reason
    ensures { result ≡ with_set reason.now set }
{
    match reason {
        Reason::Line(rule) => Reason::Line(line_with(rule, set)),
        Reason::Balance(_, prices) => Reason::Balance(set, *prices),
    }
}

/// What stands in the place, if the set has the square.
fn place_if(set: SquareSet, s: Square, place: Option<Man>) -> Option<Man>
    ensures { result ≡ cond (is_in set s) place None }
{
    if set.has(s) { place } else { None }
}

/// The board with only the men on the squares of the set.
fn kept_men(board: &Board, set: SquareSet) -> Board
    ensures { result ≡ left_with (is_in set) board.now }
{
    let mut left = Board::empty();
    for i in 0..64 {
        let s = Square::known(i);
        left.put(s, place_if(set, s, board.at(s)));
    }
    left
}

/// The query with only those men.
fn kept_query(query: &Query, set: SquareSet) -> Query
    ensures { result ≡ record query.now { board = left_with (is_in set) query.now.board } }
{
    let mut bare = *query;
    bare.board = kept_men(&query.board, set);
    bare
}

/// The greatest frozen set within a set: the greatest one if only the men on its squares stand.
fn part(query: &Query, set: SquareSet) -> SquareSet
    ensures { IsGreatestWithin query.now set result }
{
    is_whole(set);
    let part = greatest_frozen(&kept_query(query, set));
    is_whole(part);
    part
}

/// What is left of the set if this square is to be taken out: the set, if the reason doesn't stand without it.
fn without_square(query: &Query, reason: &Reason, set: SquareSet, s: Square) -> SquareSet
    requires { ReasonSupports query.now (with_set reason.now set) }
    ensures supports { ReasonSupports query.now (with_set reason.now result) }
    ensures left { IsLeft query.now reason.now set s result }
{
    if !set.has(s) {
        return set;
    }
    let part = part(query, set.without(s));
    if reason_supports(query, &with_set(reason, part)) {
        part
    } else {
        set
    }
}

/// What is left of the set if the squares are to be taken out one after another.
fn lessened_set(query: &Query, reason: &Reason, set: SquareSet) -> SquareSet
    requires { ReasonSupports query.now (with_set reason.now set) }
    ensures supports { ReasonSupports query.now (with_set reason.now result) }
    ensures least { IsLessened query.now reason.now set result }
{
    let mut left = set;
    for i in 0..64 {
        left = without_square(query, reason, left, Square::known(i));
    }
    left
}

/// The reason with what is left of its set, from which no square can be taken.
pub(crate) fn lessened(query: &Query, reason: &Reason) -> Reason
    requires { ReasonSupports query.now reason.now }
    ensures supports { ReasonSupports query.now result }
    ensures least { IsLeast query.now reason.now result }
{
    match set_of(reason) {
        Some(set) => with_set(reason, lessened_set(query, reason, set)),
        None => *reason,
    }
}
