//! Letters that are kept.

ghost use Rattle.std.specs.Prelude.{◌≡◌, IfOk};
ghost use Rattle.std.specs.Str.{bytes_eq};

use prose_words::say;
use std::alloc::{AllocError, Global};
use std::marker::Model;

/// Letters that are kept. Contracts see them as a list.
#[derive(Drop)]
pub struct Letters {
    text: Vec<u8>,
}

impl Model for Letters {
    ghost use Rattle.std.specs.Prelude.{List, ℕ};

    ghost Value = { List ℕ };

    ghost view = { λ p. p.text.items };
}

impl Letters {
    /// The letters.
    pub fn text(&self) -> &[u8]
        ensures { result.now ≡ self.now }
    {
        self.text.as_slice()
    }
}

/// These letters, kept.
pub fn kept(text: Vec<u8>) -> Letters
    ensures { result ≡ text.items }
{
    Letters { text }
}

/// A copy of these letters.
pub fn copied(alloc: Global, text: &[u8]) -> Result<Letters, AllocError>
    ensures { IfOk result (λ p. p ≡ text.now) }
{
    let mut own = Vec::new(alloc);
    say(text, &mut own)?;
    Ok(Letters { text: own })
}

/// Whether the letters are the same.
pub fn are_same(a: &[u8], b: &[u8]) -> bool
    ensures { result ≡ bytes_eq a.now b.now }
{
    a == b
}
