//! A quick hasher for keys that are made of many small numbers, such as the men of a board. It takes no memory.
#![tactic(auto)]

ghost use Rattle.std.specs.Prelude.{◌≡◌, slice_index};
ghost use Rattle.byte_hash.specs.ByteHash as hashing;

use std::hash::Hasher;

/// What the state is multiplied by before the next byte is added.
const MULTIPLIER: u64 = 0x9e37_79b9_7f4a_7c15;

/// A hasher that counts each write by its first byte alone, the lowest of a number. So it suits keys that are written as many small
/// numbers, each by itself. It begins with 0 each time: whoever picks the keys can make them collide.
#[derive(Clone, Copy, Default)]
pub struct ByteHasher {
    state: u64,
}

/// The first byte, or 0 if there is none.
fn first_of(bytes: &[u8]) -> u8
    ensures { result ≡ slice_index bytes.now 0 }
{
    match bytes {
        [first, ..] => *first,
        [] => 0,
    }
}

impl Hasher for ByteHasher {
    ghost write = { hashing.write };

    ghost finish = { hashing.finish };

    fn finish(&self) -> u64 {
        self.state
    }

    fn write(&mut self, bytes: &[u8]) {
        let first = u64::from(first_of(bytes));
        self.state = self.state.wrapping_mul(MULTIPLIER).wrapping_add(first);
    }
}
