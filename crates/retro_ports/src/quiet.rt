ghost use Rattle.std.specs.Prelude.{◌≡◌, ◌<◌, ◌≤◌, min, length, Some, None, Ok, IfOk};
ghost use Rattle.std.specs.Io.{ReadsAtMost};
ghost use Rattle.std.specs.Io.KnownBytes.{ReadConsumes, WriteAppends};
ghost use Rattle.retro_ports.specs.Causes.{HasCause};

use crate::memory::copy_front;
use crate::traits::{Failed, Sink, Source};
use std::marker::Model;

/// A source over bytes in memory, of which no read fails. Contracts see it as the bytes left.
#[derive(Drop)]
pub struct QuietSource {
    bytes: Vec<u8>,
    at: usize,
}

impl Model for QuietSource {
    ghost use Rattle.std.specs.Prelude.{ℕ, ◌≤◌, List, drop, length};

    ghost Value = { List ℕ };

    ghost view = { λ s. drop s.at s.bytes.items };

    ghost invariant = { λ s. s.at ≤ length s.bytes.items };
}

impl QuietSource {
    /// A source of these bytes.
    pub fn new(bytes: Vec<u8>) -> QuietSource
        ensures { result ≡ bytes.items }
    {
        QuietSource { bytes, at: 0 }
    }
}

impl Source for QuietSource {
    ghost left = { λ s. Some s };

    ghost faults = { λ _. 0 };

    /// Gives as many bytes as are left and the buffer holds.
    fn read(&mut self, buf: &mut [u8]) -> Result<usize, Failed>
        requires { 0 < length buf.old }
        ensures bound { ReadsAtMost result buf.new }
        ensures bytes { ReadConsumes (Some self.old) (Some self.new) result buf.new }
        ensures cause { HasCause 0 0 result }
        ensures count { result ≡ Ok (min (length buf.old) (length self.old)) }
    {
        let n = copy_front(&self.bytes[self.at..], buf.len(), buf);
        self.at += n;
        Ok(n)
    }
}

/// A sink that takes every piece whole and keeps nothing of it: it doesn't tell what was taken, and no write fails.
#[derive(Drop)]
pub struct QuietSink;

impl Model for QuietSink {
    ghost Value = { Unit {0} };

    ghost view = { λ _. tt };
}

impl QuietSink {
    /// A sink.
    pub fn new() -> QuietSink
        ensures { result ≡ tt }
    {
        QuietSink
    }
}

impl Sink for QuietSink {
    ghost taken = { λ _. None };

    ghost faults = { λ _. 0 };

    /// Takes the whole piece.
    fn write(&mut self, piece: &[u8]) -> Result<usize, Failed>
        requires { 0 < length piece.now }
        ensures bound { IfOk result (λ n. (0 < n) × (n ≤ length piece.now)) }
        ensures bytes { WriteAppends None None result piece.now }
        ensures cause { HasCause 0 0 result }
        ensures count { result ≡ Ok (length piece.now) }
    {
        Ok(piece.len())
    }
}
