//! The sentences of a reason that supports a query.

ghost use Rattle.std.specs.Prelude.{◌≡◌, ◌-◌, ◌≤◌, ◌∷◌, [], length, true, Bool, IfOk, IfSome, IsSome, IsTrue, List};
ghost use Rattle.board_base.specs.Board.{array_of};
ghost use Rattle.cert_checker.specs.Reasons.{ReasonSupports};
ghost use Rattle.men_account.specs.Account.{is_any};
ghost use Rattle.men_account.specs.Homes.{men_of};
ghost use Rattle.assignment.specs.Assignments.{least_cost};
ghost use Rattle.pawn_assign.specs.PawnCosts.{pawn_costs, pawn_squares};
ghost use Rattle.static_rules.specs.SetRules.{CapsSupports, FrozenSupports, PromoSupports};
ghost use Rattle.static_rules.specs.Supports.{Supports};
ghost use Rattle.proof_sentences.specs.Firsts.{IsFirst, is_changed};
ghost use Rattle.balance_prose.specs.declared.numbers.Numbers.TheVariants.{Exact, Enough};
ghost use Rattle.proof_sentences.specs.Reasons.{Adds, AddsReason, IsCheapest, IsWayOf, TellsReason, TellsRule};
ghost use Rattle.proof_sentences.specs.Sentences.{AreTooMany, NeverMoved, Says};

use crate::balancing::push_balance;
use crate::lessening::lessened;
use crate::rights::astray_right;
use crate::sentences::{PawnFact, Sentence};
use crate::squares::{king_in_check, pawn_on_end};
use crate::telling::push_sentence;
use crate::ways::cheapest_way;
use balance_prose::Numbers;
use board_base::{Colour, Potentials, Square, SquareSet, array_of, is_same_place};
use cert_text::Reason;
use men_account::{allowance, counts, excess, men_of};
use pawn_assign::{costs, least};
use query_base::{Query, RuleLine};
use std::alloc::{AllocError, Global};

/// Whether the square is one of the set, and doesn't hold what it held in the beginning.
fn is_changed(query: &Query, set: SquareSet, s: Square) -> bool
    ensures { result ≡ is_changed query.now.odds query.now.board set s }
{
    set.has(s) && !is_same_place(query.board.at(s), array_of(query.odds).at(s))
}

/// The first square of the set that doesn't hold what it held in the beginning.
fn changed_square(query: &Query, set: SquareSet) -> Option<Square>
    requires { FrozenSupports query.now.odds query.now set }
    ensures some { IsSome result }
    ensures first { IfSome result (IsFirst (is_changed query.now.odds query.now.board set)) }
{
    for i in 0..64 {
        let s = Square::known(i);
        if is_changed(query, set, s) {
            return Some(s);
        }
    }
    None
}

/// With how few captures the side's pawns, at most eight, came to where they stand, by the first of the cheapest ways.
fn way_of(query: &Query, side: Colour) -> Option<Sentence>
    ensures says { IfSome result (λ s. Says s query.now) }
    ensures shape { IfSome result (IsCheapest query.now side) }
    ensures some { length (pawn_squares side query.now.board) ≤ 8 → IsSome result }
{
    match costs(&query.board, side, query.odds) {
        Some(costs) => {
            let least = least(&costs);
            let files = cheapest_way(&costs, &least);
            Some(Sentence::OnPawns(PawnFact::Way {
                side,
                captures: least.cost,
                files,
            }))
        }
        None => None,
    }
}

/// How many men the side lacks.
fn missing_of(query: &Query, side: Colour) -> u8
    ensures { result ≡ men_of side is_any (array_of query.now.odds) - men_of side is_any query.now.board }
{
    men_of(&array_of(query.odds), side).saturating_sub(men_of(&query.board, side))
}

/// A number of captures that is too many already if the side's pawns made so many at least, and these are too many.
fn enough(query: &Query, side: Colour, captures: u16) -> u16
    ensures most { result ≤ captures }
    ensures too_many { (set : List Bool) → AreTooMany captures query.now set side → AreTooMany result query.now set side }
{
    let missing = missing_of(query, side.other());
    captures.min(u16::from(missing) + 1)
}

/// The same by a number that is enough, or by that way if the pawns have none, while the men on the set stood.
fn enough_of(query: &Query, side: Colour, set: SquareSet) -> Option<Sentence>
    requires never { NeverMoved query.now set }
    requires too_many { AreTooMany (least_cost 8 (pawn_costs query.now.odds side query.now.board)) query.now set side }
    ensures says { IfSome result (λ s. Says s query.now) }
    ensures shape { IfSome result (IsWayOf Enough query.now side set) }
    ensures some { length (pawn_squares side query.now.board) ≤ 8 → IsSome result }
{
    match costs(&query.board, side, query.odds) {
        Some(costs) => {
            let captures = least(&costs).cost;
            if captures < 64 {
                Some(Sentence::OnPawns(PawnFact::AtLeast {
                    side,
                    set,
                    captures: enough(query, side, captures),
                }))
            } else {
                way_of(query, side)
            }
        }
        None => None,
    }
}

/// With how few captures the side's pawns came, by the numbers that are told, while the men on the set stood.
fn told_way(query: &Query, side: Colour, set: SquareSet, numbers: Numbers) -> Option<Sentence>
    requires never { NeverMoved query.now set }
    requires too_many { AreTooMany (least_cost 8 (pawn_costs query.now.odds side query.now.board)) query.now set side }
    ensures says { IfSome result (λ s. Says s query.now) }
    ensures shape { IfSome result (IsWayOf numbers query.now side set) }
    ensures some { length (pawn_squares side query.now.board) ≤ 8 → IsSome result }
{
    match numbers {
        Numbers::Exact => way_of(query, side),
        Numbers::Enough => enough_of(query, side, set),
    }
}

/// Who shut each other in, and which of them can't have begun there.
fn push_frozen(
    alloc: Global,
    query: &Query,
    set: SquareSet,
    out: &mut Vec<u8>,
) -> Result<(), AllocError>
    requires { FrozenSupports query.now.odds query.now set }
    ensures { IfOk result (λ _. TellsRule Exact true query.now (RuleLine.Frozen set) out.old.items out.new.items) }
{
    let odd = changed_square(query, set).unwrap();
    push_sentence(alloc, query, &Sentence::Caged(set), out)?;
    push_sentence(alloc, query, &Sentence::Changed(set, odd), out)
}

/// Who never moved, whose officers were captured meanwhile, and how many men were promoted.
fn push_promo(
    alloc: Global,
    query: &Query,
    first: bool,
    side: Colour,
    set: SquareSet,
    out: &mut Vec<u8>,
) -> Result<(), AllocError>
    requires { PromoSupports query.now.odds query.now side set }
    ensures { IfOk result (λ _. TellsRule Exact first query.now (RuleLine.Promo side set) out.old.items out.new.items) }
{
    let pawns = counts(&query.board, side).pawns;
    let began = allowance(side, query.odds).pawns;
    let gone = Sentence::OnPawns(PawnFact::Gone(side, set));
    let promoted = Sentence::OnPawns(PawnFact::Promoted {
        side,
        set,
        pawns,
        began,
        first,
    });
    push_sentence(alloc, query, &Sentence::Settled(set), out)?;
    push_sentence(alloc, query, &gone, out)?;
    push_sentence(alloc, query, &promoted, out)
}

/// Who never moved, how many captures the side's pawns made, and how many men the other side lacks.
fn push_caps(
    alloc: Global,
    query: &Query,
    numbers: Numbers,
    first: bool,
    side: Colour,
    set: SquareSet,
    p: &Potentials,
    out: &mut Vec<u8>,
) -> Result<(), AllocError>
    requires { CapsSupports query.now.odds query.now side set p.now.u p.now.v }
    ensures { IfOk result (λ _. TellsRule numbers first query.now (RuleLine.Caps side set p.now) out.old.items out.new.items) }
{
    let other = side.other();
    let missing = missing_of(query, other);
    let way = told_way(query, side, set, numbers).unwrap();
    let lacks = Sentence::OnPawns(PawnFact::Lacks {
        side: other,
        set,
        missing,
        first,
    });
    push_sentence(alloc, query, &Sentence::Settled(set), out)?;
    push_sentence(alloc, query, &way, out)?;
    push_sentence(alloc, query, &lacks, out)
}

/// Adds the words of a sentence that holds of the query.
pub fn push_one(
    alloc: Global,
    query: &Query,
    sentence: &Sentence,
    out: &mut Vec<u8>,
) -> Result<(), AllocError>
    requires { Says sentence.now query.now }
    ensures { IfOk result (λ _. Adds query.now (sentence.now ∷ []) out.old.items out.new.items) }
{
    push_sentence(alloc, query, sentence, out)
}

/// How many pawns and promoted men the side has, and with how many pawns it began.
fn push_side(
    alloc: Global,
    query: &Query,
    first: bool,
    side: Colour,
    out: &mut Vec<u8>,
) -> Result<(), AllocError>
    requires { Supports query.now (RuleLine.Count side) }
    ensures { IfOk result (λ _. TellsRule Exact first query.now (RuleLine.Count side) out.old.items out.new.items) }
{
    let men = counts(&query.board, side);
    let allowed = allowance(side, query.odds);
    let together = excess(&men, &allowed);
    let count = Sentence::OnPawns(PawnFact::Count {
        side,
        pawns: men.pawns,
        together,
        began: allowed.pawns,
        first,
    });
    push_sentence(alloc, query, &count, out)
}

/// Where a pawn stands that can't stand there.
fn push_ranks(alloc: Global, query: &Query, out: &mut Vec<u8>) -> Result<(), AllocError>
    requires { Supports query.now RuleLine.Ranks }
    ensures { IfOk result (λ _. TellsRule Exact true query.now RuleLine.Ranks out.old.items out.new.items) }
{
    let s = pawn_on_end(&query.board).unwrap();
    push_sentence(alloc, query, &Sentence::Ranks(s), out)
}

/// Which king stands in check.
fn push_attacked(alloc: Global, query: &Query, out: &mut Vec<u8>) -> Result<(), AllocError>
    requires { Supports query.now RuleLine.Check }
    ensures { IfOk result (λ _. TellsRule Exact true query.now RuleLine.Check out.old.items out.new.items) }
{
    let side = query.turn.other();
    let s = king_in_check(&query.board, side).unwrap();
    push_sentence(alloc, query, &Sentence::Check(side, s), out)
}

/// Which right to castle can't have been kept.
fn push_rights(alloc: Global, query: &Query, out: &mut Vec<u8>) -> Result<(), AllocError>
    requires { Supports query.now RuleLine.Rights }
    ensures { IfOk result (λ _. TellsRule Exact true query.now RuleLine.Rights out.old.items out.new.items) }
{
    let castle = astray_right(query).unwrap();
    push_sentence(alloc, query, &Sentence::Rights(castle), out)
}

/// Why the rule line supports the query.
fn push_rule(
    alloc: Global,
    query: &Query,
    numbers: Numbers,
    first: bool,
    rule: &RuleLine,
    out: &mut Vec<u8>,
) -> Result<(), AllocError>
    requires { Supports query.now rule.now }
    ensures { IfOk result (λ _. TellsRule numbers first query.now rule.now out.old.items out.new.items) }
{
    match rule {
        RuleLine::Kings => push_one(alloc, query, &Sentence::Kings, out),
        RuleLine::Ranks => push_ranks(alloc, query, out),
        RuleLine::Check => push_attacked(alloc, query, out),
        RuleLine::Rights => push_rights(alloc, query, out),
        RuleLine::Count(side) => push_side(alloc, query, first, *side, out),
        RuleLine::Frozen(set) => push_frozen(alloc, query, *set, out),
        RuleLine::Promo(side, set) => push_promo(alloc, query, first, *side, *set, out),
        RuleLine::Caps(side, set, p) => push_caps(
            alloc, query, numbers, first, *side, *set, p, out,
        ),
    }
}

/// The same of any reason.
fn push_supported(
    alloc: Global,
    query: &Query,
    numbers: Numbers,
    first: bool,
    reason: &Reason,
    out: &mut Vec<u8>,
) -> Result<(), AllocError>
    requires { ReasonSupports query.now reason.now }
    ensures { IfOk result (λ _. TellsReason numbers first query.now reason.now out.old.items out.new.items) }
{
    match reason {
        Reason::Line(rule) => push_rule(alloc, query, numbers, first, rule, out),
        Reason::Balance(set, prices) => push_balance(
            alloc, query, numbers, first, *set, prices, out,
        ),
    }
}

/// Adds the sentences that say why the reason supports the query, with the least set that it needs. Whether the query is the first that is
/// told decides some of their words, and which numbers are told some others.
pub fn push_reason(
    alloc: Global,
    query: &Query,
    numbers: Numbers,
    first: bool,
    reason: &Reason,
    out: &mut Vec<u8>,
) -> Result<(), AllocError>
    requires { ReasonSupports query.now reason.now }
    ensures { IfOk result (λ _. AddsReason numbers first query.now reason.now out.old.items out.new.items) }
{
    let least = lessened(query, reason);
    push_supported(alloc, query, numbers, first, &least, out)
}
