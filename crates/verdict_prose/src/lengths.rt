//! How long games are.

ghost use Rattle.std.specs.Prelude.{◌≡◌, ◌+◌, ◌/◌, ◌++◌, IfOk};
ghost use Rattle.verdict_prose.specs.Sentences.{digit_letters, end_words, half_moves, is_teen, length_words, mover_at, ordinal};

use board_base::Colour;
use prose_words::{push_number, say, side_word};
use std::alloc::AllocError;

/// Whether the last two digits of a number are from eleven to thirteen.
fn is_teen(n: u16) -> bool
    ensures { result ≡ is_teen n }
{
    n % 100 == 11 || n % 100 == 12 || n % 100 == 13
}

/// The letters behind a number that counts, by its last digit.
fn digit_letters(n: u16) -> &'static [u8]
    ensures { result.now ≡ digit_letters n }
{
    if n == 1 {
        b"st"
    } else if n == 2 {
        b"nd"
    } else if n == 3 {
        b"rd"
    } else {
        b"th"
    }
}

/// Adds a number that counts.
#[tactic(auto, unfolding(crate::specs::Sentences::ordinal))]
fn push_ordinal(n: u16, out: &mut Vec<u8>) -> Result<(), AllocError>
    ensures { IfOk result (λ _. out.new.items ≡ out.old.items ++ ordinal n) }
{
    push_number(n as usize, out)?;
    if is_teen(n) {
        say(b"th", out)
    } else {
        say(digit_letters(n % 10), out)
    }
}

/// Whose half-move this is, counted from 1.
fn mover_at(n: u16) -> Colour
    ensures { result ≡ mover_at n }
{
    if n % 2 == 1 {
        Colour::White
    } else {
        Colour::Black
    }
}

/// Adds so many half-moves.
#[tactic(auto, unfolding(crate::specs::Sentences::half_moves))]
fn push_half_moves(n: u16, out: &mut Vec<u8>) -> Result<(), AllocError>
    ensures { IfOk result (λ _. out.new.items ≡ out.old.items ++ half_moves n) }
{
    if n == 1 {
        say(b"one half-move", out)
    } else {
        push_number(n as usize, out)?;
        say(b" half-moves", out)
    }
}

/// The number of the move that this half-move belongs to.
fn move_number(n: u16) -> u16
    ensures { result ≡ (n + 1) / 2 }
{
    n / 2 + n % 2
}

/// Adds with which move a game of so many half-moves ends.
#[tactic(auto, unfolding(crate::specs::Sentences::end_words))]
fn push_end(n: u16, out: &mut Vec<u8>) -> Result<(), AllocError>
    ensures { IfOk result (λ _. out.new.items ≡ out.old.items ++ end_words n) }
{
    say(side_word(mover_at(n)), out)?;
    say(b"'s ", out)?;
    push_ordinal(move_number(n), out)?;
    say(b" move at the earliest", out)
}

/// Adds that each game is so long.
pub(crate) fn push_length(n: u16, out: &mut Vec<u8>) -> Result<(), AllocError>
    ensures { IfOk result (λ _. out.new.items ≡ out.old.items ++ length_words n) }
{
    say(b"No game leads here in fewer than ", out)?;
    push_half_moves(n, out)?;
    say(b": each ends with ", out)?;
    push_end(n, out)
}
