//! Numbers among the words of the command line.

ghost use Rattle.std.specs.Prelude.{ℕ, ◌≡◌, ◌≤◌, ◌↔◌, IsTrue, MatchOption, string_bytes};
ghost use Rattle.std.specs.Fmt.{decimal};
ghost use Rattle.retro_top.specs.Names.{MayStand};
ghost use Rattle.retro_top.specs.Numbers.{Gives, IsNumber};

use itoa::Buffer;

/// A number among the words of a call.
#[derive(Clone, Copy, PartialEq, Eq, Debug)]
pub enum Number {
    /// How many moves are taken back at most.
    Depth,
    /// How many positions a search visits, or how many lines a tree has, at most.
    Nodes,
    /// From which number games are made.
    Start,
    /// How many games are made.
    Games,
    /// How many moves a game has at most.
    Plies,
}

impl Number {
    /// The least and the greatest number that may stand there.
    pub fn range(self) -> (u64, u64)
        ensures { (n : ℕ) → MayStand self n ↔ (result.0 ≤ n) × (n ≤ result.1) }
    {
        match self {
            Number::Depth => (0, 64),
            Number::Nodes => (1, 500_000),
            Number::Start => (0, u64::MAX),
            Number::Games => (1, 1_000),
            Number::Plies => (1, 200),
        }
    }

    /// The number that the word is, if it may stand there.
    pub(crate) fn read(self, word: &String) -> Option<u64>
        ensures { MatchOption result ((n : ℕ) → Gives self (string_bytes word.now) n →
            ⊥) (Gives self (string_bytes word.now)) }
    {
        let (least, most) = self.range();
        read_number(word, least, most)
    }
}

/// The word is the number in decimal, without sign and without a leading zero.
fn is_decimal(word: &str, number: u64) -> bool
    ensures { IsTrue result ↔ (word.now ≡ decimal number) }
{
    let mut buffer = Buffer::new();
    word == buffer.format(number)
}

/// The number that the word is in decimal, without sign and without a leading zero, if it is in the range from `least` to `most`.
/// None comes if and only if the word is no such number.
fn read_number(word: &String, least: u64, most: u64) -> Option<u64>
    ensures { MatchOption result ((n : ℕ) → IsNumber (string_bytes word.now) least most n →
        ⊥) (IsNumber (string_bytes word.now) least most) }
{
    let Ok(number) = word.as_str().parse::<u64>() else {
        return None;
    };
    if number < least || most < number {
        return None;
    }
    if is_decimal(word.as_str(), number) {
        Some(number)
    } else {
        None
    }
}
