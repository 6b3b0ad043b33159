//! Phrases that several sentences have.

ghost use Rattle.std.specs.Prelude.{◌≡◌, ◌++◌, IfOk, cond};
ghost use Rattle.board_base.specs.Board.{is_in};
ghost use Rattle.proof_sentences.specs.Phrases.{stayed_words, unmoved_words};
ghost use Rattle.proof_sentences.specs.Sentences.{counted};
ghost use Rattle.prose_words.specs.Words.{squares_words};

use board_base::{Castle, Square, SquareSet};
use castle_history::home;
use prose_words::{push_number, push_square, push_squares, say};
use std::alloc::{AllocError, Global};

/// Adds the one text if this is the first, and the other if not.
pub fn push_either(
    first: bool,
    one: &[u8],
    other: &[u8],
    out: &mut Vec<u8>,
) -> Result<(), AllocError>
    ensures { IfOk result (λ _. out.new.items ≡ out.old.items ++ cond first one.now other.now) }
{
    if first {
        say(one, out)
    } else {
        say(other, out)
    }
}

/// A number of things, with the word for one or for several.
pub(crate) fn push_counted(
    n: usize,
    one: &[u8],
    several: &[u8],
    out: &mut Vec<u8>,
) -> Result<(), AllocError>
    ensures { IfOk result (λ _. out.new.items ≡ out.old.items ++ counted n one.now several.now) }
{
    push_number(n, out)?;
    push_either(n == 1, one, several, out)
}

/// Adds that the king and the rook of these squares are what they were.
#[tactic(auto, unfolding(crate::specs::Phrases::stayed_words))]
fn push_stayed(king: Square, rook: Square, out: &mut Vec<u8>) -> Result<(), AllocError>
    ensures { IfOk result (λ _. out.new.items ≡ out.old.items ++ stayed_words king rook) }
{
    say(b"the king of ", out)?;
    push_square(king, out)?;
    say(b" and the rook of ", out)?;
    push_square(rook, out)?;
    say(b" never moved, and the rook was never taken", out)
}

/// Adds that the king and the rook of a castling are what they were.
pub fn push_unmoved(castle: Castle, out: &mut Vec<u8>) -> Result<(), AllocError>
    ensures { IfOk result (λ _. out.new.items ≡ out.old.items ++ unmoved_words castle) }
{
    let (king, rook) = home(castle);
    push_stayed(king, rook, out)
}

/// The squares of the set, ascending, each after a space.
pub fn set_squares(alloc: Global, set: SquareSet) -> Result<Vec<u8>, AllocError>
    ensures { IfOk result (λ v. v.items ≡ squares_words (is_in set)) }
{
    let mut list = Vec::new(alloc);
    push_squares(set, &mut list)?;
    Ok(list)
}
