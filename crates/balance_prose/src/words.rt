//! Words that are put together.

ghost use Rattle.std.specs.Prelude.{◌≡◌, ◌++◌, ◌<◌, IfOk, cond, drop};
ghost use Rattle.std.specs.Str.{bytes_eq};
ghost use Rattle.board_base.specs.Board.{home_of};
ghost use Rattle.balance_prose.specs.Pricing.{around};

use board_base::{Colour, Square};
use prose_words::say;
use std::alloc::AllocError;

/// Nothing if there is no list, else the list with what stands around it.
pub fn push_around(
    front: &[u8],
    list: &[u8],
    back: &[u8],
    out: &mut Vec<u8>,
) -> Result<(), AllocError>
    ensures { IfOk result (λ _. out.new.items ≡ out.old.items ++ around front.now list.now back.now) }
{
    if list.len() == 0 {
        return Ok(());
    }
    say(front, out)?;
    say(list, out)?;
    say(back, out)
}

/// One of two texts.
pub(crate) fn either(
    first: bool,
    one: &[u8],
    other: &[u8],
    out: &mut Vec<u8>,
) -> Result<(), AllocError>
    ensures { IfOk result (λ _. out.new.items ≡ out.old.items ++ cond first one.now other.now) }
{
    if first {
        say(one, out)
    } else {
        say(other, out)
    }
}

/// The list without its first letter.
pub fn rest_of(list: &[u8]) -> &[u8]
    ensures { result.now ≡ drop 1 list.now }
{
    if list.len() == 0 { list } else { &list[1..] }
}

/// Whether the letters are the same.
pub(crate) fn are_same(a: &[u8], b: &[u8]) -> bool
    ensures { result ≡ bytes_eq a.now b.now }
{
    a == b
}

/// A side's home, by its place among the side's sixteen homes in ascending order.
pub(crate) fn home_of(side: Colour, j: u8) -> Square
    requires { j < 16 }
    ensures { result ≡ home_of side j }
{
    match side {
        Colour::White => Square::known(j),
        Colour::Black => Square::known(48 + j),
    }
}
