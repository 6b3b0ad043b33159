//! Moves of which one was the last, in a sentence.

ghost use Rattle.std.specs.Prelude.{◌≡◌, ◌++◌, IfOk, None, drop};
ghost use Rattle.std.specs.List.{list_all};
ghost use Rattle.verdict_prose.specs.Choices.{choice_from, choice_sign, each_words, end_sign, ends_text, ends_words, follows, goes_on, is_again, last_text, last_words, listed_words, man_words, move_words, one_words, some_words};

use crate::steps::{closing_sign, has_victim, push_named};
use board_base::{Board, Kind, Unmove, UnmoveList, is_move};
use castle_history::castle_of;
use proof_story::push_wrapped;
use prose_words::{kind_word, say};
use query_base::Query;
use std::alloc::{AllocError, Global};

/// Whether the moves are the same, and each captured somebody on the target.
fn is_again(u: &Unmove, v: &Unmove) -> bool
    ensures { result ≡ is_again u.now v.now }
{
    has_victim(u) && has_victim(v) && is_move(&Some(u.mv), &v.mv)
}

/// Whether the move is again the one before it, if there is one.
fn follows(before: &Option<Unmove>, v: &Unmove) -> bool
    ensures { result ≡ follows before.now v.now }
{
    match before {
        None => false,
        Some(u) => is_again(u, v),
    }
}

/// Whether the first of the moves from this place on is this one again.
fn goes_on(u: &Unmove, moves: &UnmoveList, place: usize) -> bool
    ensures { result ≡ goes_on u.now (drop place moves.now) }
{
    match moves.get(place) {
        None => false,
        Some(v) => is_again(u, &v),
    }
}

/// Whether all moves from this place on are this one again.
fn are_again(u: &Unmove, moves: &UnmoveList, place: usize) -> bool
    ensures { result ≡ list_all (is_again u.now) (drop place moves.now) }
{
    for i in place..moves.len() {
        let v = moves.get(i).unwrap();
        if !is_again(u, &v) {
            return false;
        }
    }
    true
}

/// Adds a captured man alone.
fn push_man(captured: Option<Kind>, out: &mut Vec<u8>) -> Result<(), AllocError>
    ensures { IfOk result (λ _. out.new.items ≡ out.old.items ++ man_words captured) }
{
    match captured {
        None => Ok(()),
        Some(kind) => {
            say(b"a ", out)?;
            say(kind_word(kind), out)
        }
    }
}

/// Adds a move, or whom it captured if it is the one before it again.
fn push_move(board: &Board, again: bool, u: &Unmove, out: &mut Vec<u8>) -> Result<(), AllocError>
    ensures { IfOk result (λ _. out.new.items ≡ out.old.items ++ move_words board.now again u.now) }
{
    if again {
        push_man(u.captured, out)
    } else {
        push_named(castle_of(u, board), board, u, out)
    }
}

/// Adds what closes the parenthesis of a move that doesn't go on.
fn push_end(on: bool, u: &Unmove, out: &mut Vec<u8>) -> Result<(), AllocError>
    ensures { IfOk result (λ _. out.new.items ≡ out.old.items ++ end_sign on u.now) }
{
    if on {
        Ok(())
    } else {
        say(closing_sign(u), out)
    }
}

/// Adds a move among others.
fn push_listed(
    board: &Board,
    again: bool,
    on: bool,
    u: &Unmove,
    out: &mut Vec<u8>,
) -> Result<(), AllocError>
    ensures { IfOk result (λ _. out.new.items ≡ out.old.items ++ listed_words board.now again on u.now) }
{
    push_move(board, again, u, out)?;
    push_end(on, u, out)
}

/// What stands before a move.
fn choice_sign(word: &'static [u8], first: bool, again: bool, on: bool, last: bool) -> &'static [u8]
    ensures { result.now ≡ choice_sign word.now first again on last }
{
    if first {
        b""
    } else if again {
        if on { b", " } else { b" or " }
    } else if last {
        word
    } else {
        b", "
    }
}

/// Adds the move at a place, behind the one before it.
fn push_one(
    word: &'static [u8],
    before: &Option<Unmove>,
    board: &Board,
    u: &Unmove,
    moves: &UnmoveList,
    after: usize,
    out: &mut Vec<u8>,
) -> Result<(), AllocError>
    ensures { IfOk result (λ _. out.new.items ≡ out.old.items ++ one_words word.now before.now board.now u.now (drop after moves.now)) }
{
    let again = follows(before, u);
    let on = goes_on(u, moves, after);
    let last = are_again(u, moves, after);
    say(choice_sign(word, before.is_none(), again, on, last), out)?;
    push_listed(board, again, on, u, out)
}

/// Adds moves that led to this board, with this before the last one.
fn push_choice(
    word: &'static [u8],
    board: &Board,
    moves: &UnmoveList,
    out: &mut Vec<u8>,
) -> Result<(), AllocError>
    ensures { IfOk result (λ _. out.new.items ≡ out.old.items ++ choice_from word.now None board.now moves.now) }
{
    let mut before = None;
    for i in 0..moves.len() {
        let u = moves.get(i).unwrap();
        push_one(word, &before, board, &u, moves, i + 1, out)?;
        before = Some(u);
    }
    Ok(())
}

#[tactic(auto, unfolding(crate::specs::Choices::last_words))]
fn push_last_words(board: &Board, left: &UnmoveList, out: &mut Vec<u8>) -> Result<(), AllocError>
    ensures { IfOk result (λ _. out.new.items ≡ out.old.items ++ last_words board.now left.now) }
{
    say(b"The last move was ", out)?;
    push_choice(b" or ", board, left, out)?;
    say(b".", out)
}

/// Adds that the last move was one of these. It is true if each game that reaches the query has a last move, and it is one of them.
pub fn tell_last(
    alloc: Global,
    query: &Query,
    left: &UnmoveList,
    out: &mut Vec<u8>,
) -> Result<(), AllocError>
    ensures { IfOk result (λ _. out.new.items ≡ out.old.items ++ last_text query.now left.now) }
{
    let mut line = Vec::new(alloc);
    push_last_words(&query.board, left, &mut line)?;
    push_wrapped(line.as_slice(), out)
}

fn each_words(n: usize) -> &'static [u8]
    ensures { result.now ≡ each_words n }
{
    if n == 1 {
        b"There is a game that ends with it"
    } else {
        b"There are games that end with each of them"
    }
}

fn some_words(n: usize) -> &'static [u8]
    ensures { result.now ≡ some_words n }
{
    if n == 1 {
        b"There is a game that ends with "
    } else {
        b"There are games that end with "
    }
}

fn push_ends(
    board: &Board,
    ends: &UnmoveList,
    left: usize,
    out: &mut Vec<u8>,
) -> Result<(), AllocError>
    ensures { IfOk result (λ _. out.new.items ≡ out.old.items ++ ends_words board.now ends.now left) }
{
    if ends.len() == left {
        return say(each_words(left), out);
    }
    say(some_words(ends.len()), out)?;
    push_choice(b" and ", board, ends, out)
}

/// Adds with which of so many retractions that are left games end, if there are any. It is true if some game that reaches the query ends
/// with each.
pub fn tell_ends(
    alloc: Global,
    query: &Query,
    ends: &UnmoveList,
    left: usize,
    out: &mut Vec<u8>,
) -> Result<(), AllocError>
    ensures { IfOk result (λ _. out.new.items ≡ out.old.items ++ ends_text query.now ends.now left) }
{
    if ends.len() == 0 {
        return Ok(());
    }
    let mut line = Vec::new(alloc);
    push_ends(&query.board, ends, left, &mut line)?;
    say(b".", &mut line)?;
    push_wrapped(line.as_slice(), out)
}
