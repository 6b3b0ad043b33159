//! What the men count at least, and who makes up for it, in words.

ghost use Rattle.std.specs.Prelude.{◌≡◌, ◌+◌, ◌++◌, ◌<◌, ◌==◌, [], IfOk, codes, cond, drop};
ghost use Rattle.std.specs.List.{All, flat_map};
ghost use Rattle.std.specs.Fmt.{decimal};
ghost use Rattle.balance_prose.specs.Accounts.{CountTooMany, all_counted, all_made_up};
ghost use Rattle.balance_prose.specs.Pricing.{around};
ghost use Rattle.capture_prices.specs.Prices.{all_gates};
ghost use Rattle.balance_prose.specs.AccountWords.{best_words, counted_words, either_words, end_words, gate_alone, gate_too, made_up_words, makers_words, ways_words, whom_words};

use crate::accounts::{Tally, count_men, table_of};
use crate::lacking::{all_missing, idle_of, push_lacks};
use crate::making::push_men;
use crate::numbers::Numbers;
use crate::pricing::all_gates;
use crate::words::{either, push_around, rest_of};
use board_base::{Colour, Square, SquareSet};
use capture_prices::{Gate, Prices};
use prose_words::{push_number, push_square, say};
use query_base::Query;
use std::alloc::{AllocError, Global};

/// What the men of both sides count with these homes, and for how much they make up.
fn tally_of(query: &Query, prices: &Prices, set: SquareSet, white: &[u8], black: &[u8]) -> Tally
    requires { CountTooMany query.now prices.now set white.now black.now }
    ensures counted { result.counted ≡ all_counted query.now prices.now set white.now black.now }
    ensures made_up { result.made_up ≡ all_made_up query.now prices.now set white.now black.now }
{
    let of_white = count_men(
        table_of(query, prices, set, Colour::White).as_slice(),
        white,
    );
    let of_black = count_men(
        table_of(query, prices, set, Colour::Black).as_slice(),
        black,
    );
    Tally {
        counted: of_white.counted + of_black.counted,
        made_up: of_white.made_up + of_black.made_up,
    }
}

/// The ways of the men of both sides who count.
fn ways_of(
    alloc: Global,
    query: &Query,
    prices: &Prices,
    set: SquareSet,
    white: &[u8],
    black: &[u8],
) -> Result<Vec<u8>, AllocError>
    requires { CountTooMany query.now prices.now set white.now black.now }
    ensures { IfOk result (λ v. drop 1 v.items ≡ ways_words query.now prices.now set white.now black.now) }
{
    let of_white = table_of(query, prices, set, Colour::White);
    let of_black = table_of(query, prices, set, Colour::Black);
    let mut list = Vec::new(alloc);
    push_men(
        &query.board,
        Colour::White,
        of_white.as_slice(),
        white,
        &mut list,
    )?;
    push_men(
        &query.board,
        Colour::Black,
        of_black.as_slice(),
        black,
        &mut list,
    )?;
    Ok(list)
}

/// What a gate makes up for, behind what the men do.
fn push_gate_too(gate: &Gate, out: &mut Vec<u8>) -> Result<(), AllocError>
    requires { gate.now.square < 64 }
    ensures { IfOk result (λ _. out.new.items ≡ out.old.items ++ gate_too gate.now) }
{
    say(b", and ", out)?;
    push_square(Square::known(gate.square), out)?;
    say(b" for ", out)?;
    push_number(gate.toll as usize, out)
}

/// The same of each gate.
fn gates_too(alloc: Global, gates: &[Gate]) -> Result<Vec<u8>, AllocError>
    requires { All (λ g. g.square < 64) gates.now }
    ensures { IfOk result (λ v. v.items ≡ flat_map gate_too gates.now) }
{
    let mut list = Vec::new(alloc);
    for gate in gates {
        push_gate_too(gate, &mut list)?;
    }
    Ok(list)
}

/// What a gate makes up for, if no man is gone.
fn push_gate_alone(gate: &Gate, out: &mut Vec<u8>) -> Result<(), AllocError>
    requires { gate.now.square < 64 }
    ensures { IfOk result (λ _. out.new.items ≡ out.old.items ++ gate_alone gate.now) }
{
    say(b", ", out)?;
    push_square(Square::known(gate.square), out)?;
    say(b" makes up for ", out)?;
    push_number(gate.toll as usize, out)
}

/// The same of each gate.
fn gates_alone(alloc: Global, gates: &[Gate]) -> Result<Vec<u8>, AllocError>
    requires { All (λ g. g.square < 64) gates.now }
    ensures { IfOk result (λ v. v.items ≡ flat_map gate_alone gates.now) }
{
    let mut list = Vec::new(alloc);
    for gate in gates {
        push_gate_alone(gate, &mut list)?;
    }
    Ok(list)
}

/// Who makes up for something: of so many men all, or those who aren't named, each after a space, as making up for nothing.
fn makers(men: usize, idle: &[u8]) -> &'static [u8]
    ensures { result.now ≡ makers_words men idle.now }
{
    if idle.len() == 0 {
        if men == 1 {
            b": he makes up for "
        } else {
            b": they make up for "
        }
    } else if idle.len() / 3 + 1 == men {
        b": the other makes up for "
    } else {
        b": the others make up for "
    }
}

/// That so many men make up for nothing.
fn push_none(men: usize, out: &mut Vec<u8>) -> Result<(), AllocError>
    ensures { IfOk result (λ _. out.new.items ≡ out.old.items ++ (makers_words men [] ++ codes "none")) }
{
    say(makers(men, b""), out)?;
    say(b"none", out)
}

/// For how much they make up.
fn push_some(men: usize, idle: &[u8], n: u32, out: &mut Vec<u8>) -> Result<(), AllocError>
    ensures { IfOk result (λ _. out.new.items ≡ out.old.items ++ (makers_words men idle.now ++ decimal n)) }
{
    say(makers(men, idle), out)?;
    push_number(n as usize, out)
}

/// For how much so many men make up.
fn push_made_up(men: usize, idle: &[u8], n: u32, out: &mut Vec<u8>) -> Result<(), AllocError>
    ensures { IfOk result (λ _. out.new.items ≡ out.old.items ++ made_up_words men idle.now n) }
{
    if n == 0 {
        push_none(men, out)
    } else {
        push_some(men, idle, n, out)
    }
}

/// Who of them makes up for nothing, if others make up for something.
fn push_whom(n: u32, idle: &[u8], out: &mut Vec<u8>) -> Result<(), AllocError>
    ensures { IfOk result (λ _. out.new.items ≡ out.old.items ++ whom_words n idle.now) }
{
    if n == 0 {
        Ok(())
    } else {
        push_around(
            b", of whom whoever began on",
            idle,
            b" makes up for none",
            out,
        )
    }
}

/// Who makes up for how much, if men are gone.
fn push_gone(
    alloc: Global,
    men: usize,
    idle: &[u8],
    n: u32,
    gates: &[Gate],
    out: &mut Vec<u8>,
) -> Result<(), AllocError>
    requires { All (λ g. g.square < 64) gates.now }
    ensures { IfOk result (λ _. out.new.items ≡ out.old.items ++ (whom_words n idle.now ++ made_up_words men idle.now n ++ flat_map gate_too gates.now)) }
{
    let too = gates_too(alloc, gates)?;
    push_whom(n, idle, out)?;
    push_made_up(men, idle, n, out)?;
    say(too.as_slice(), out)
}

/// What gates alone make up for.
fn push_alone(alloc: Global, gates: &[Gate], out: &mut Vec<u8>) -> Result<(), AllocError>
    requires { All (λ g. g.square < 64) gates.now }
    ensures { IfOk result (λ _. out.new.items ≡ out.old.items ++ around (codes ": only") (drop 1 (flat_map gate_alone gates.now)) []) }
{
    let list = gates_alone(alloc, gates)?;
    push_around(b": only", rest_of(list.as_slice()), b"", out)
}

/// Who makes up for how much, if men are gone and if none is.
fn push_either(
    alloc: Global,
    men: usize,
    idle: &[u8],
    n: u32,
    gates: &[Gate],
    out: &mut Vec<u8>,
) -> Result<(), AllocError>
    requires { All (λ g. g.square < 64) gates.now }
    ensures { IfOk result (λ _. out.new.items ≡ out.old.items ++ either_words men idle.now n gates.now) }
{
    if men == 0 {
        push_alone(alloc, gates, out)
    } else {
        push_gone(alloc, men, idle, n, gates, out)
    }
}

/// Who makes up for how much, of so many men who are gone.
fn push_end(
    alloc: Global,
    men: usize,
    idle: &[u8],
    n: u32,
    gates: &[Gate],
    out: &mut Vec<u8>,
) -> Result<(), AllocError>
    requires { All (λ g. g.square < 64) gates.now }
    ensures { IfOk result (λ _. out.new.items ≡ out.old.items ++ end_words men idle.now n gates.now) }
{
    push_either(alloc, men, idle, n, gates, out)?;
    say(b".", out)
}

/// That the men count at least so many captures.
fn push_at_least(n: u32, out: &mut Vec<u8>) -> Result<(), AllocError>
    ensures { IfOk result (λ _. out.new.items ≡ out.old.items ++ (codes "That makes at least " ++ decimal n)) }
{
    say(b"That makes at least ", out)?;
    push_number(n as usize, out)
}

/// The same, with the ways of the men who count.
fn push_best(n: u32, ways: &[u8], out: &mut Vec<u8>) -> Result<(), AllocError>
    ensures { IfOk result (λ _. out.new.items ≡ out.old.items ++ (codes "That makes at least " ++ decimal n ++ codes ":" ++ drop 1 ways.now)) }
{
    push_at_least(n, out)?;
    say(b":", out)?;
    say(rest_of(ways), out)
}

/// One more than men and gates make up for.
fn enough_of(tally: Tally, gates: u32) -> u32
    requires { tally.made_up + gates < tally.counted }
    ensures { result ≡ tally.made_up + gates + 1 }
{
    tally.made_up + gates + 1
}

/// What the men count at least.
fn push_counted(
    alloc: Global,
    numbers: Numbers,
    query: &Query,
    prices: &Prices,
    set: SquareSet,
    white: &[u8],
    black: &[u8],
    out: &mut Vec<u8>,
) -> Result<(), AllocError>
    requires { CountTooMany query.now prices.now set white.now black.now }
    ensures { IfOk result (λ _. out.new.items ≡ out.old.items ++ counted_words numbers query.now prices.now set white.now black.now) }
{
    let tally = tally_of(query, prices, set, white, black);
    match numbers {
        Numbers::Exact => {
            let ways = ways_of(alloc, query, prices, set, white, black)?;
            push_best(tally.counted, ways.as_slice(), out)
        }
        Numbers::Enough => push_at_least(enough_of(tally, all_gates(prices)), out),
    }
}

/// Before how many men each side lacks.
fn push_but(first: bool, out: &mut Vec<u8>) -> Result<(), AllocError>
    ensures { IfOk result (λ _. out.new.items ≡ out.old.items ++ (codes ". But " ++ cond first [] (codes "before this move "))) }
{
    say(b". But ", out)?;
    either(first, b"", b"before this move ", out)
}

/// What the men count at least, with how many men each side lacks, and who makes up for how much.
pub fn push_account(
    alloc: Global,
    numbers: Numbers,
    first: bool,
    query: &Query,
    prices: &Prices,
    set: SquareSet,
    white: &[u8],
    black: &[u8],
    out: &mut Vec<u8>,
) -> Result<(), AllocError>
    requires { CountTooMany query.now prices.now set white.now black.now }
    ensures { IfOk result (λ _. out.new.items ≡ out.old.items ++ best_words numbers first query.now prices.now set white.now black.now) }
{
    let tally = tally_of(query, prices, set, white, black);
    let idle = idle_of(alloc, query, prices, set, white, black)?;
    push_counted(alloc, numbers, query, prices, set, white, black, out)?;
    push_but(first, out)?;
    push_lacks(first, query, prices, out)?;
    push_end(
        alloc,
        all_missing(query, prices),
        idle.as_slice(),
        tally.made_up,
        prices.gates(),
        out,
    )
}
