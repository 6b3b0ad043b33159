//! Words for what is said of a balance.

ghost use Rattle.std.specs.Prelude.{◌≡◌, ◌++◌, ◌+◌, IfOk, codes};
ghost use Rattle.std.specs.Fmt.{decimal};
ghost use Rattle.balance_prose.specs.declared.numbers.Numbers.TheVariants.{Exact};
ghost use Rattle.capture_prices.specs.Prices.{all_gates};
ghost use Rattle.proof_sentences.specs.Sentences.{BalanceSays, account_words, balance_fact_words, difference_words, homeless_words, most_words, net_words};

use crate::sentences::BalanceFact;
use balance_prose::{Numbers, all_gates, push_account as push_best, push_counts, push_priced};
use balance_rule::begun_with;
use board_base::{Colour, Odds};
use capture_prices::Prices;
use prose_words::{push_number, say, side_word};
use query_base::Query;
use std::alloc::{AllocError, Global};

/// By how much more a side pays at least than it earns.
fn push_paid(n: u32, out: &mut Vec<u8>) -> Result<(), AllocError>
    ensures { IfOk result (λ _. out.new.items ≡ out.old.items ++ (codes "'s men pay at least " ++ decimal n ++ codes " more than they earn")) }
{
    say(b"'s men pay at least ", out)?;
    push_number(n as usize, out)?;
    say(b" more than they earn", out)
}

/// By how much more it earns at most than it pays.
fn push_earned(n: u32, out: &mut Vec<u8>) -> Result<(), AllocError>
    ensures { IfOk result (λ _. out.new.items ≡ out.old.items ++ (codes "'s men earn at most " ++ decimal n ++ codes " more than they pay")) }
{
    say(b"'s men earn at most ", out)?;
    push_number(n as usize, out)?;
    say(b" more than they pay", out)
}

/// What is paid more than earned, or the other way round.
fn push_difference(cost: u32, own: u32, out: &mut Vec<u8>) -> Result<(), AllocError>
    ensures { IfOk result (λ _. out.new.items ≡ out.old.items ++ difference_words cost own) }
{
    if own <= cost {
        push_paid(cost - own, out)
    } else {
        push_earned(own - cost, out)
    }
}

/// What the men of a side cost, of whom so many began.
fn push_net(side: Colour, cost: u32, men: u8, out: &mut Vec<u8>) -> Result<(), AllocError>
    ensures { IfOk result (λ _. out.new.items ≡ out.old.items ++ net_words side cost men) }
{
    say(side_word(side), out)?;
    push_difference(cost, 96 * u32::from(men), out)
}

/// That a side's men can't all have homes.
fn push_homeless(side: Colour, out: &mut Vec<u8>) -> Result<(), AllocError>
    ensures { IfOk result (λ _. out.new.items ≡ out.old.items ++ homeless_words side) }
{
    say(side_word(side), out)?;
    say(
        b"'s men, with those who are gone, can't all have begun on homes of their own.",
        out,
    )
}

/// Why the men of both sides pay no more than they earn, but for what they pay for squares.
fn push_gates_most(gates: u32, out: &mut Vec<u8>) -> Result<(), AllocError>
    ensures { IfOk result (λ _. out.new.items ≡ out.old.items ++ (codes ". But what is paid for captures is what is earned, and for squares at most " ++ decimal gates ++ codes " is paid.")) }
{
    say(
        b". But what is paid for captures is what is earned, and for squares at most ",
        out,
    )?;
    push_number(gates as usize, out)?;
    say(b" is paid.", out)
}

/// Why the men can't pay more than they earn, or only what they pay for squares.
fn push_most(gates: u32, out: &mut Vec<u8>) -> Result<(), AllocError>
    ensures { IfOk result (λ _. out.new.items ≡ out.old.items ++ most_words gates) }
{
    if gates == 0 {
        say(b". But what is paid is what is earned.", out)
    } else {
        push_gates_most(gates, out)
    }
}

/// What the men of each side cost, who have homes.
fn push_each(
    odds: Odds,
    gates: u32,
    white: u32,
    black: u32,
    out: &mut Vec<u8>,
) -> Result<(), AllocError>
    ensures { IfOk result (λ _. out.new.items ≡ out.old.items ++ account_words Exact odds gates white black) }
{
    push_net(Colour::White, white, begun_with(Colour::White, odds), out)?;
    say(b", and ", out)?;
    push_net(Colour::Black, black, begun_with(Colour::Black, odds), out)?;
    push_most(gates, out)
}

/// That the men of both sides cost too much together, with so much paid for squares at most.
fn push_together(gates: u32, out: &mut Vec<u8>) -> Result<(), AllocError>
    ensures { IfOk result (λ _. out.new.items ≡ out.old.items ++ (codes "All men together pay at least " ++ decimal (gates + 1) ++ codes " more than they earn" ++ most_words gates)) }
{
    say(b"All men together pay at least ", out)?;
    push_number(gates as usize + 1, out)?;
    say(b" more than they earn", out)?;
    push_most(gates, out)
}

/// What the men of both sides cost, who have homes: those of each side, or a number that is enough for both.
fn push_account(
    numbers: Numbers,
    odds: Odds,
    gates: u32,
    white: u32,
    black: u32,
    out: &mut Vec<u8>,
) -> Result<(), AllocError>
    ensures { IfOk result (λ _. out.new.items ≡ out.old.items ++ account_words numbers odds gates white black) }
{
    match numbers {
        Numbers::Exact => push_each(odds, gates, white, black, out),
        Numbers::Enough => push_together(gates, out),
    }
}

/// The same with all gates of the prices.
fn push_accounts(
    query: &Query,
    numbers: Numbers,
    prices: &Prices,
    white: u32,
    black: u32,
    out: &mut Vec<u8>,
) -> Result<(), AllocError>
    ensures { IfOk result (λ _. out.new.items ≡ out.old.items ++ account_words numbers query.now.odds (all_gates prices.now) white black) }
{
    let gates = all_gates(prices);
    push_account(numbers, query.odds, gates, white, black, out)
}

/// The words of what is said of a balance, which holds of a query.
#[tactic(auto, unfolding(crate::specs::Sentences::balance_fact_words))]
pub(crate) fn push_balance_fact(
    alloc: Global,
    query: &Query,
    fact: &BalanceFact,
    out: &mut Vec<u8>,
) -> Result<(), AllocError>
    requires { BalanceSays fact.now query.now }
    ensures { IfOk result (λ _. out.new.items ≡ out.old.items ++ balance_fact_words fact.now query.now) }
{
    match fact {
        BalanceFact::Priced(_, prices) => push_priced(alloc, prices, out),
        BalanceFact::Balanced {
            set: _,
            prices,
            white,
            black,
            numbers,
        } => push_accounts(query, *numbers, prices, *white, *black, out),
        BalanceFact::Counted(_, prices) => push_counts(alloc, prices, out),
        BalanceFact::Best {
            set,
            prices,
            white,
            black,
            first,
            numbers,
        } => push_best(
            alloc,
            *numbers,
            *first,
            query,
            prices,
            *set,
            white.as_slice(),
            black.as_slice(),
            out,
        ),
        BalanceFact::Homeless(side, _) => push_homeless(*side, out),
    }
}
