//! Numbers in words.

ghost use Rattle.std.specs.Prelude.{◌≡◌, ◌++◌, IfOk};
ghost use Rattle.ledger_prose.specs.Numbers.{high_word, low_word, number_words};

use prose_words::{push_number, say};
use std::alloc::AllocError;

/// A number up to eight.
fn low_word(n: u8) -> &'static [u8]
    ensures { result.now ≡ low_word n }
{
    match n {
        0 => b"no",
        1 => b"one",
        2 => b"two",
        3 => b"three",
        4 => b"four",
        5 => b"five",
        6 => b"six",
        7 => b"seven",
        _ => b"eight",
    }
}

/// A number from nine to sixteen.
fn high_word(n: u8) -> &'static [u8]
    ensures { result.now ≡ high_word n }
{
    match n {
        9 => b"nine",
        10 => b"ten",
        11 => b"eleven",
        12 => b"twelve",
        13 => b"thirteen",
        14 => b"fourteen",
        15 => b"fifteen",
        _ => b"sixteen",
    }
}

/// Adds a number in a word, or in digits if it is above sixteen.
#[tactic(auto, unfolding(crate::specs::Numbers::number_words))]
pub(crate) fn push_count(n: u8, out: &mut Vec<u8>) -> Result<(), AllocError>
    ensures { IfOk result (λ _. out.new.items ≡ out.old.items ++ number_words n) }
{
    if n < 9 {
        say(low_word(n), out)
    } else if n < 17 {
        say(high_word(n), out)
    } else {
        push_number(n as usize, out)
    }
}
