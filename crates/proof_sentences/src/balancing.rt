//! The sentences of a balance of captures that supports a query.

ghost use Rattle.std.specs.Prelude.{◌≡◌, ◌↔◌, ◌∷◌, [], IfOk, IsTrue, Some};
ghost use Rattle.board_base.specs.declared.men.Colour.TheVariants.{White, Black};
ghost use Rattle.balance_prose.specs.Accounts.{HasNoMore};
ghost use Rattle.balance_rule.specs.Balance.{BalanceSupports};
ghost use Rattle.proof_sentences.specs.Reasons.{Adds, CountsFor, TellsBalance, TellsBy, TellsCounted, TellsPriced, homeless_side};
ghost use Rattle.proof_sentences.specs.Sentences.{is_homeless};
ghost use Rattle.proof_sentences.specs.declared.sentences.BalanceFact.TheVariants.{Homeless};
ghost use Rattle.proof_sentences.specs.declared.sentences.Sentence.TheVariants.{OnBalance, Settled};

use crate::sentences::{BalanceFact, Sentence};
use crate::telling::push_sentence;
use balance_prose::{Numbers, balance_counts_too_many, is_plain, least_homes, lowered, one_treads};
use balance_rule::{balances, side_cost};
use board_base::{Colour, SquareSet};
use capture_prices::Prices;
use query_base::Query;
use std::alloc::{AllocError, Global};

/// Where nothing has a price, the men of a side cost more with homes of their own than anything does: they can't all have homes. A side
/// with more men than it began with isn't asked for.
fn is_homeless(query: &Query, set: SquareSet, side: Colour) -> bool
    requires { HasNoMore query.now side }
    ensures { result ≡ is_homeless query.now set side }
{
    let free = Prices::known(&[0; 16], &[0; 16], &[]);
    5000 <= side_cost(query, set, &free, side).unwrap()
}

/// The side whose men can't all have homes, if there is one; White comes first.
fn homeless_side(query: &Query, set: SquareSet) -> Option<Colour>
    requires white { HasNoMore query.now White }
    requires black { HasNoMore query.now Black }
    ensures { result ≡ homeless_side query.now set }
{
    if is_homeless(query, set, Colour::White) {
        Some(Colour::White)
    } else if is_homeless(query, set, Colour::Black) {
        Some(Colour::Black)
    } else {
        None
    }
}

/// Who never moved, and that the men of a side can't all have homes.
fn push_homeless(
    alloc: Global,
    query: &Query,
    set: SquareSet,
    prices: &Prices,
    side: Colour,
    out: &mut Vec<u8>,
) -> Result<(), AllocError>
    requires supports { BalanceSupports query.now set prices.now }
    requires homeless { homeless_side query.now set ≡ Some side }
    ensures { IfOk result (λ _. Adds query.now (Settled set ∷ OnBalance (Homeless side set) ∷ []) out.old.items out.new.items) }
{
    push_sentence(alloc, query, &Sentence::Settled(set), out)?;
    let homeless = Sentence::OnBalance(BalanceFact::Homeless(side, set));
    push_sentence(alloc, query, &homeless, out)
}

/// Whether captures are counted at these prices, and they support the query.
fn counts_for(query: &Query, set: SquareSet, prices: &Prices) -> bool
    ensures { IsTrue result ↔ CountsFor query.now set prices.now }
{
    is_plain(prices) && balances(query, set, prices)
}

/// Who never moved, what is counted, and what the men count at least.
fn push_counted(
    alloc: Global,
    query: &Query,
    numbers: Numbers,
    first: bool,
    set: SquareSet,
    prices: &Prices,
    out: &mut Vec<u8>,
) -> Result<(), AllocError>
    requires { CountsFor query.now set prices.now }
    ensures { IfOk result (λ _. TellsCounted numbers first query.now set prices.now out.old.items out.new.items) }
{
    balance_counts_too_many();
    one_treads();
    let white = least_homes(query, prices, set, Colour::White);
    let black = least_homes(query, prices, set, Colour::Black);
    let counted = Sentence::OnBalance(BalanceFact::Counted(set, *prices));
    let best = Sentence::OnBalance(BalanceFact::Best {
        set,
        prices: *prices,
        white,
        black,
        first,
        numbers,
    });
    push_sentence(alloc, query, &Sentence::Settled(set), out)?;
    push_sentence(alloc, query, &counted, out)?;
    push_sentence(alloc, query, &best, out)
}

/// Who never moved, what captures cost, and what the men of both sides cost.
fn push_priced(
    alloc: Global,
    query: &Query,
    numbers: Numbers,
    set: SquareSet,
    prices: &Prices,
    out: &mut Vec<u8>,
) -> Result<(), AllocError>
    requires { BalanceSupports query.now set prices.now }
    ensures { IfOk result (λ _. TellsPriced numbers query.now set prices.now out.old.items out.new.items) }
{
    let white = side_cost(query, set, prices, Colour::White).unwrap();
    let black = side_cost(query, set, prices, Colour::Black).unwrap();
    let priced = Sentence::OnBalance(BalanceFact::Priced(set, *prices));
    let balanced = Sentence::OnBalance(BalanceFact::Balanced {
        set,
        prices: *prices,
        white,
        black,
        numbers,
    });
    push_sentence(alloc, query, &Sentence::Settled(set), out)?;
    push_sentence(alloc, query, &priced, out)?;
    push_sentence(alloc, query, &balanced, out)
}

/// The same if all men have homes: by what is counted, or else by prices.
fn push_by_prices(
    alloc: Global,
    query: &Query,
    numbers: Numbers,
    first: bool,
    set: SquareSet,
    prices: &Prices,
    out: &mut Vec<u8>,
) -> Result<(), AllocError>
    requires { BalanceSupports query.now set prices.now }
    ensures { IfOk result (λ _. TellsBalance numbers first query.now set prices.now out.old.items out.new.items) }
{
    let plain = lowered(prices);
    if counts_for(query, set, &plain) {
        push_counted(alloc, query, numbers, first, set, &plain, out)
    } else {
        push_priced(alloc, query, numbers, set, prices, out)
    }
}

/// Why a balance of captures supports the query.
pub(crate) fn push_balance(
    alloc: Global,
    query: &Query,
    numbers: Numbers,
    first: bool,
    set: SquareSet,
    prices: &Prices,
    out: &mut Vec<u8>,
) -> Result<(), AllocError>
    requires { BalanceSupports query.now set prices.now }
    ensures { IfOk result (λ _. TellsBy numbers (homeless_side query.now set) first query.now set prices.now out.old.items out.new.items) }
{
    match homeless_side(query, set) {
        Some(side) => push_homeless(alloc, query, set, prices, side, out),
        None => push_by_prices(alloc, query, numbers, first, set, prices, out),
    }
}
