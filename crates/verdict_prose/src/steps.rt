//! Moves that are taken back, in words.

ghost use Rattle.std.specs.Prelude.{◌≡◌, ◌++◌, IfOk};
ghost use Rattle.verdict_prose.specs.Moves.{castling_sign, closing_sign, goes_words, has_victim, named_words, played_words, step_words, taken_words, taking_sign, victim_words};

use board_base::{Board, Castle, Kind, Unmove};
use castle_history::castle_of;
use proof_story::{mover_initial, push_became};
use prose_words::{kind_word, push_square, say};
use std::alloc::AllocError;
use unmove_gen::take_back;

/// The sign of a castling.
fn castling_sign(castle: Castle) -> &'static [u8]
    ensures { result.now ≡ castling_sign castle }
{
    match castle {
        Castle::WhiteShort | Castle::BlackShort => b"O-O",
        Castle::WhiteLong | Castle::BlackLong => b"O-O-O",
    }
}

/// The sign between the squares of another move.
fn taking_sign(u: &Unmove) -> &'static [u8]
    ensures { result.now ≡ taking_sign u.now }
{
    if u.captured.is_some() { b"x" } else { b"-" }
}

/// Adds a man who was captured, in a parenthesis that is still open.
fn push_victim(passing: bool, kind: Kind, out: &mut Vec<u8>) -> Result<(), AllocError>
    ensures { IfOk result (λ _. out.new.items ≡ out.old.items ++ victim_words passing kind) }
{
    if passing {
        return say(b" en passant", out);
    }
    say(b" (a ", out)?;
    say(kind_word(kind), out)
}

/// Adds the man who was captured, if one was.
fn push_taken(captured: Option<Kind>, passing: bool, out: &mut Vec<u8>) -> Result<(), AllocError>
    ensures { IfOk result (λ _. out.new.items ≡ out.old.items ++ taken_words captured passing) }
{
    match captured {
        None => Ok(()),
        Some(kind) => push_victim(passing, kind, out),
    }
}

/// Adds a move that is no castling.
fn push_goes(board: &Board, u: &Unmove, out: &mut Vec<u8>) -> Result<(), AllocError>
    ensures { IfOk result (λ _. out.new.items ≡ out.old.items ++ goes_words board.now u.now) }
{
    say(mover_initial(board.at(u.mv.to), u.mv.promo), out)?;
    push_square(u.mv.from, out)?;
    say(taking_sign(u), out)?;
    push_square(u.mv.to, out)?;
    push_became(u.mv.promo, out)?;
    push_taken(u.captured, u.ep, out)
}

/// Adds the castling, if the move was one, or the move. A parenthesis with whom it captured is still open.
pub(crate) fn push_named(
    castle: Option<Castle>,
    board: &Board,
    u: &Unmove,
    out: &mut Vec<u8>,
) -> Result<(), AllocError>
    ensures { IfOk result (λ _. out.new.items ≡ out.old.items ++ named_words castle board.now u.now) }
{
    match castle {
        None => push_goes(board, u, out),
        Some(castle) => say(castling_sign(castle), out),
    }
}

/// Whether somebody was captured on the target.
pub(crate) fn has_victim(u: &Unmove) -> bool
    ensures { result ≡ has_victim u.now }
{
    u.captured.is_some() && !u.ep
}

/// What closes the parenthesis, if one is open.
pub(crate) fn closing_sign(u: &Unmove) -> &'static [u8]
    ensures { result.now ≡ closing_sign u.now }
{
    if has_victim(u) { b")" } else { b"" }
}

/// Adds the move that led to this board.
pub(crate) fn push_step(board: &Board, u: &Unmove, out: &mut Vec<u8>) -> Result<(), AllocError>
    ensures { IfOk result (λ _. out.new.items ≡ out.old.items ++ step_words board.now u.now) }
{
    push_named(castle_of(u, board), board, u, out)?;
    say(closing_sign(u), out)
}

/// Adds the move that led to this board behind those before it, in the order of play.
pub(crate) fn push_played(
    board: &Board,
    u: &Unmove,
    before: &[Unmove],
    out: &mut Vec<u8>,
) -> Result<(), AllocError>
    ensures { IfOk result (λ _. out.new.items ≡ out.old.items ++ played_words board.now u.now before.now) }
{
    match before {
        [] => push_step(board, u, out),
        [next, others @ ..] => {
            let earlier = take_back(board, u);
            push_played(&earlier, next, others, out)?;
            say(b", ", out)?;
            push_step(board, u, out)
        }
    }
}
