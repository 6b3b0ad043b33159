//! Which the last moves were, or can have been.

ghost use Rattle.std.specs.Prelude.{◌≡◌, ◌++◌, IfOk};
ghost use Rattle.verdict_prose.specs.Moves.{all_left_words, left_text, left_words, line_text, moves_words, open_line_text, open_line_words, remain_word, some_left_words, were_words};

use crate::steps::{push_played, push_step};
use board_base::{Board, Unmove};
use proof_story::push_wrapped;
use prose_words::{push_number, say};
use query_base::Query;
use std::alloc::{AllocError, Global};
use unmove_gen::take_back;

/// Adds the moves that led to this board, given the last one first.
fn push_moves(board: &Board, steps: &[Unmove], out: &mut Vec<u8>) -> Result<(), AllocError>
    ensures { IfOk result (λ _. out.new.items ≡ out.old.items ++ moves_words board.now steps.now) }
{
    match steps {
        [] => say(b"no move", out),
        [u] => push_step(board, u, out),
        [u, next, others @ ..] => {
            let earlier = take_back(board, u);
            push_played(&earlier, next, others, out)?;
            say(b" and ", out)?;
            push_step(board, u, out)
        }
    }
}

fn were_words(n: usize) -> &'static [u8]
    ensures { result.now ≡ were_words n }
{
    if n == 1 {
        b"The last move was "
    } else {
        b"The last moves were "
    }
}

/// Adds which the last moves were, in the order of play: the steps are retractions, the last move first. It is true if each game that
/// reaches the query ends by them.
pub fn tell_line(
    alloc: Global,
    query: &Query,
    steps: &[Unmove],
    out: &mut Vec<u8>,
) -> Result<(), AllocError>
    ensures { IfOk result (λ _. out.new.items ≡ out.old.items ++ line_text query.now steps.now) }
{
    let mut line = Vec::new(alloc);
    say(were_words(steps.len()), &mut line)?;
    push_moves(&query.board, steps, &mut line)?;
    say(b".", &mut line)?;
    push_wrapped(line.as_slice(), out)
}

#[tactic(auto, unfolding(crate::specs::Moves::open_line_words))]
fn push_open_line(board: &Board, steps: &[Unmove], out: &mut Vec<u8>) -> Result<(), AllocError>
    ensures { IfOk result (λ _. out.new.items ≡ out.old.items ++ open_line_words board.now steps.now) }
{
    say(b"A line that ends with ", out)?;
    push_moves(board, steps, out)?;
    say(b" stays open. Before it:", out)
}

/// Adds with which moves a line ends that stays open, before the diagram of what was before them. It says nothing of games.
pub fn tell_open_line(
    alloc: Global,
    query: &Query,
    steps: &[Unmove],
    out: &mut Vec<u8>,
) -> Result<(), AllocError>
    ensures { IfOk result (λ _. out.new.items ≡ out.old.items ++ open_line_text query.now steps.now) }
{
    let mut line = Vec::new(alloc);
    push_open_line(&query.board, steps, &mut line)?;
    push_wrapped(line.as_slice(), out)
}

fn remain_word(n: usize) -> &'static [u8]
    ensures { result.now ≡ remain_word n }
{
    if n == 1 { b" remains" } else { b" remain" }
}

fn push_all_left(all: usize, out: &mut Vec<u8>) -> Result<(), AllocError>
    ensures { IfOk result (λ _. out.new.items ≡ out.old.items ++ all_left_words all) }
{
    say(b"None of the ", out)?;
    push_number(all, out)?;
    say(b" conceivable last moves is excluded", out)
}

fn push_some_left(n: usize, all: usize, out: &mut Vec<u8>) -> Result<(), AllocError>
    ensures { IfOk result (λ _. out.new.items ≡ out.old.items ++ some_left_words n all) }
{
    say(b"Of the ", out)?;
    push_number(all, out)?;
    say(b" conceivable last moves ", out)?;
    push_number(n, out)?;
    say(remain_word(n), out)
}

fn push_left(n: usize, all: usize, out: &mut Vec<u8>) -> Result<(), AllocError>
    ensures { IfOk result (λ _. out.new.items ≡ out.old.items ++ left_words n all) }
{
    if n == all {
        push_all_left(all, out)
    } else {
        push_some_left(n, all, out)
    }
}

/// Adds how many of all retractions are left. It is true if the last move of each game that reaches the query is one of so many.
pub fn tell_left(alloc: Global, n: usize, all: usize, out: &mut Vec<u8>) -> Result<(), AllocError>
    ensures { IfOk result (λ _. out.new.items ≡ out.old.items ++ left_text n all) }
{
    let mut line = Vec::new(alloc);
    push_left(n, all, &mut line)?;
    say(b".", &mut line)?;
    push_wrapped(line.as_slice(), out)
}
