//! Who lacks how many men, and who of them makes up for nothing, in words.

ghost use Rattle.std.specs.Prelude.{◌≡◌, ◌++◌, ◌<◌, ◌≤◌, ◌==◌, ◌&&◌, ◌+◌, [], nat_le, IfOk, codes, cond, drop, length, slice_index};
ghost use Rattle.std.specs.Fmt.{decimal};
ghost use Rattle.board_base.specs.declared.men.Colour.TheVariants.{White, Black};
ghost use Rattle.assignment.specs.Assignments.{is_among};
ghost use Rattle.balance_rule.specs.Balance.{men_on};
ghost use Rattle.balance_prose.specs.Accounts.{HasNoMore};
ghost use Rattle.balance_prose.specs.Counted.{is_counted};
ghost use Rattle.balance_prose.specs.AccountWords.{all_idle, all_missing, idle_words, lack_words, missing, number_of_men, side_idle, side_lacks};

use crate::making::squares_of_men;
use crate::plain::is_counted;
use crate::words::{either, home_of};
use balance_rule::{begun_with, gone_row, ground_of};
use board_base::{Colour, SquareSet};
use capture_prices::Prices;
use prose_words::{push_number, push_square_if, say, side_word};
use query_base::Query;
use std::alloc::{AllocError, Global};

/// How many men of a side are on the board.
fn standing(query: &Query, side: Colour) -> usize
    requires { HasNoMore query.now side }
    ensures value { result ≡ men_on side query.now.board }
    ensures few { result ≤ 16 }
{
    let _ = begun_with(side, query.odds);
    squares_of_men(&query.board, side).len()
}

/// How many men of a side are gone.
pub(crate) fn missing(query: &Query, side: Colour) -> usize
    requires { HasNoMore query.now side }
    ensures value { result ≡ missing query.now side }
    ensures few { result ≤ 16 }
{
    begun_with(side, query.odds) as usize - standing(query, side)
}

/// How many men are gone of a side whose enemy's captures count.
fn missing_if(query: &Query, side: Colour, enemy: &[u8; 16]) -> usize
    requires { HasNoMore query.now side }
    ensures value { result ≡ cond (is_counted enemy.now) (missing query.now side) 0 }
    ensures few { result ≤ 16 }
{
    if is_counted(enemy) {
        missing(query, side)
    } else {
        0
    }
}

/// How many men are gone of the sides whose enemy's captures count.
pub(crate) fn all_missing(query: &Query, prices: &Prices) -> usize
    requires white { HasNoMore query.now White }
    requires black { HasNoMore query.now Black }
    ensures { result ≡ all_missing query.now prices.now }
{
    missing_if(query, Colour::White, prices.takes(Colour::Black))
        + missing_if(query, Colour::Black, prices.takes(Colour::White))
}

/// Whether the man of a home is gone and makes up for nothing.
fn is_idle(gone: &[u16; 16], homes: &[u8], j: u8) -> bool
    requires { j < 16 }
    ensures { result ≡ (is_among j homes.now && nat_le 96 (slice_index gone.now j)) }
{
    homes.contains(&j) && gone[j as usize] >= 96
}

/// The homes of the men who are gone and make up for nothing, among these.
fn push_idle(
    side: Colour,
    gone: &[u16; 16],
    homes: &[u8],
    list: &mut Vec<u8>,
) -> Result<(), AllocError>
    ensures { IfOk result (λ _. list.new.items ≡ list.old.items ++ idle_words side gone.now homes.now) }
{
    for j in 0..16 {
        push_square_if(is_idle(gone, homes, j), home_of(side, j), list)?;
    }
    Ok(())
}

/// The homes from this place on.
fn behind(homes: &[u8], n: usize) -> &[u8]
    requires { n ≤ length homes.now }
    ensures { result.now ≡ drop n homes.now }
{
    &homes[n..]
}

/// Those of a side, if the enemy's captures count.
fn push_side_idle(
    query: &Query,
    prices: &Prices,
    set: SquareSet,
    side: Colour,
    homes: &[u8],
    list: &mut Vec<u8>,
) -> Result<(), AllocError>
    requires men { HasNoMore query.now side }
    requires homes { men_on side query.now.board ≤ length homes.now }
    ensures { IfOk result (λ _. list.new.items ≡ list.old.items ++ side_idle query.now prices.now set side homes.now) }
{
    if !is_counted(prices.takes(side.other())) {
        return Ok(());
    }
    let gone = gone_row(&ground_of(query, set, prices, side));
    push_idle(side, &gone, behind(homes, standing(query, side)), list)
}

/// Those of both sides.
pub(crate) fn idle_of(
    alloc: Global,
    query: &Query,
    prices: &Prices,
    set: SquareSet,
    white: &[u8],
    black: &[u8],
) -> Result<Vec<u8>, AllocError>
    requires white { HasNoMore query.now White }
    requires black { HasNoMore query.now Black }
    requires white_homes { men_on White query.now.board ≤ length white.now }
    requires black_homes { men_on Black query.now.board ≤ length black.now }
    ensures { IfOk result (λ v. v.items ≡ all_idle query.now prices.now set white.now black.now) }
{
    let mut list = Vec::new(alloc);
    push_side_idle(query, prices, set, Colour::White, white, &mut list)?;
    push_side_idle(query, prices, set, Colour::Black, black, &mut list)?;
    Ok(list)
}

/// A number in decimal digits, but `no` for 0.
fn push_how_many(n: usize, out: &mut Vec<u8>) -> Result<(), AllocError>
    ensures { IfOk result (λ _. out.new.items ≡ out.old.items ++ cond (n == 0) (codes "no") (decimal n)) }
{
    if n == 0 {
        say(b"no", out)
    } else {
        push_number(n, out)
    }
}

/// A number of men.
fn push_number_of_men(n: usize, out: &mut Vec<u8>) -> Result<(), AllocError>
    ensures { IfOk result (λ _. out.new.items ≡ out.old.items ++ number_of_men n) }
{
    push_how_many(n, out)?;
    either(n == 1, b" man", b" men", out)
}

/// How many men a side lacks.
fn push_side_lacks(first: bool, side: Colour, n: usize, out: &mut Vec<u8>) -> Result<(), AllocError>
    ensures { IfOk result (λ _. out.new.items ≡ out.old.items ++ side_lacks first side n) }
{
    say(side_word(side), out)?;
    either(first, b" lacks ", b" lacked ", out)?;
    push_number_of_men(n, out)
}

/// How many men White lacks, and Black.
fn push_both_lack(
    first: bool,
    white: usize,
    black: usize,
    out: &mut Vec<u8>,
) -> Result<(), AllocError>
    ensures { IfOk result (λ _. out.new.items ≡ out.old.items ++ (side_lacks first White white ++ codes " and " ++ side_lacks first Black black)) }
{
    push_side_lacks(first, Colour::White, white, out)?;
    say(b" and ", out)?;
    push_side_lacks(first, Colour::Black, black, out)
}

/// How many men each side lacks whose enemy's captures count.
pub(crate) fn push_lacks(
    first: bool,
    query: &Query,
    prices: &Prices,
    out: &mut Vec<u8>,
) -> Result<(), AllocError>
    requires white { HasNoMore query.now White }
    requires black { HasNoMore query.now Black }
    ensures { IfOk result (λ _. out.new.items ≡ out.old.items ++ lack_words first query.now prices.now) }
{
    let white = missing(query, Colour::White);
    let black = missing(query, Colour::Black);
    if !is_counted(prices.takes(Colour::Black)) {
        push_side_lacks(first, Colour::Black, black, out)
    } else if is_counted(prices.takes(Colour::White)) {
        push_both_lack(first, white, black, out)
    } else {
        push_side_lacks(first, Colour::White, white, out)
    }
}
