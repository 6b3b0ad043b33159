//! Sets of squares, and words for the men on them.

ghost use Rattle.std.specs.Prelude.{◌≡◌, ◌&&◌, ◌||◌, ◌++◌, ◌==◌, IfOk, cond};
ghost use Rattle.board_base.specs.Play.{king_home, rook_home};
ghost use Rattle.board_base.specs.Rights.{holds};
ghost use Rattle.figures.specs.Frozen.{is_held_home};
ghost use Rattle.sketch_words.specs.Words.{held_homes, men_words, set_words, without};

use board_base::{Castle, CastleSet, Square, SquareSet};
use castle_history::home;
use figures::{both, outside, squares_that};
use prose_words::{push_squares, say};
use std::alloc::{AllocError, Global};

/// The squares of the first set that aren't in the second.
pub fn without(a: SquareSet, b: SquareSet) -> SquareSet
    ensures { result ≡ without a b }
{
    both(a, outside(b))
}

/// Whether the square is the home of this king or this rook, whose right to castle is held.
fn is_home_of(held: CastleSet, castle: Castle, s: Square) -> bool
    ensures { result ≡ (holds held castle && ((king_home castle == s) || (rook_home castle == s))) }
{
    let (king, rook) = home(castle);
    held.has(castle) && (king == s || rook == s)
}

/// Whether the square is the home of some king or rook whose right to castle is held.
fn is_held_home(held: CastleSet, s: Square) -> bool
    ensures { result ≡ is_held_home held s }
{
    is_home_of(held, Castle::WhiteShort, s)
        || is_home_of(held, Castle::WhiteLong, s)
        || is_home_of(held, Castle::BlackShort, s)
        || is_home_of(held, Castle::BlackLong, s)
}

/// The homes of kings and rooks whose right to castle is held.
pub(crate) fn held_homes(held: CastleSet) -> SquareSet
    ensures { result ≡ held_homes held }
{
    squares_that(|s| is_held_home(held, s))
}

/// The squares of a set, each after a space.
pub fn list_of(alloc: Global, set: SquareSet) -> Result<Vec<u8>, AllocError>
    ensures { IfOk result (λ v. v.items ≡ set_words set) }
{
    let mut list = Vec::new(alloc);
    push_squares(set, &mut list)?;
    Ok(list)
}

/// The first text if it is so, or else the other.
pub(crate) fn push_either(
    first: bool,
    one: &[u8],
    other: &[u8],
    out: &mut Vec<u8>,
) -> Result<(), AllocError>
    ensures { IfOk result (λ _. out.new.items ≡ out.old.items ++ cond first one.now other.now) }
{
    if first {
        say(one, out)
    } else {
        say(other, out)
    }
}

/// The men on these squares, or the man on one.
pub(crate) fn push_men(list: &[u8], out: &mut Vec<u8>) -> Result<(), AllocError>
    ensures { IfOk result (λ _. out.new.items ≡ out.old.items ++ men_words list.now) }
{
    push_either(list.len() == 3, b" man on", b" men on", out)?;
    say(list, out)
}
