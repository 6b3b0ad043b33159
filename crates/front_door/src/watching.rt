//! A source and a sink that keep the front of what passes through them.

ghost use Rattle.std.specs.Prelude.{◌≡◌, ◌<◌, ◌≤◌, ◌++◌, [], IfOk, length, take};
ghost use Rattle.std.specs.Io.{ReadsAtMost};
ghost use Rattle.std.specs.Io.KnownBytes.{ReadConsumes, WriteAppends};
ghost use Rattle.retro_ports.specs.Causes.{HasCause};
ghost use Rattle.front_door.specs.Fronts.{KeepsFront};

use arrayvec::ArrayVec;
use retro_ports::{Failed, Sink, Source};
use std::marker::Model;

/// Adds as much of the piece as there is room for.
fn keep<const N: usize>(front: &mut ArrayVec<u8, N>, piece: &[u8])
    ensures { front.new.items ≡ take N (front.old.items ++ piece.now) }
{
    let room = front.remaining_capacity().min(piece.len());
    let _ = front.try_extend_from_slice(&piece[..room]);
}

/// A source that passes on what another gives, and keeps its first 1,024 bytes.
#[derive(Drop)]
pub struct Watched<S: Source> {
    inner: S,
    front: ArrayVec<u8, 1024>,
}

impl<S: Source> Model for Watched<S> {
    ghost use Rattle.front_door.specs.Fronts.{Fronted};

    ghost Value = { Fronted S };

    ghost view = { λ w. record { inner = w.inner; front = w.front.items } };
}

impl<S: Source> Watched<S> {
    pub fn new(inner: S) -> Watched<S>
        ensures { result ≡ record { inner = inner; front = [] } }
    {
        Watched {
            inner,
            front: ArrayVec::new(),
        }
    }

    /// The first bytes that were read, at most 1,024.
    pub fn front(&self) -> &[u8]
        ensures { result.now ≡ self.now.front }
    {
        self.front.as_slice()
    }
}

impl<S: Source> Source for Watched<S> {
    ghost left = { λ w. S.left w.inner };

    ghost faults = { λ w. S.faults w.inner };

    fn read(&mut self, buf: &mut [u8]) -> Result<usize, Failed>
        requires { 0 < length buf.old }
        ensures bound { ReadsAtMost result buf.new }
        ensures bytes { ReadConsumes (S.left self.old.inner) (S.left self.new.inner) result buf.new }
        ensures cause { HasCause (S.faults self.old.inner) (S.faults self.new.inner) result }
        ensures front { KeepsFront 1024 self.old.front self.new.front result buf.new }
    {
        match self.inner.read(buf) {
            Ok(count) => {
                keep(&mut self.front, &buf[..count]);
                Ok(count)
            }
            Err(_) => Err(Failed),
        }
    }
}

/// A sink that passes on what it is given to another, and keeps its first 64 bytes.
#[derive(Drop)]
pub struct Overheard<K: Sink> {
    inner: K,
    front: ArrayVec<u8, 64>,
}

impl<K: Sink> Model for Overheard<K> {
    ghost use Rattle.front_door.specs.Fronts.{Fronted};

    ghost Value = { Fronted K };

    ghost view = { λ o. record { inner = o.inner; front = o.front.items } };
}

impl<K: Sink> Overheard<K> {
    pub fn new(inner: K) -> Overheard<K>
        ensures { result ≡ record { inner = inner; front = [] } }
    {
        Overheard {
            inner,
            front: ArrayVec::new(),
        }
    }

    /// The first bytes that were written, at most 64.
    pub fn front(&self) -> &[u8]
        ensures { result.now ≡ self.now.front }
    {
        self.front.as_slice()
    }
}

impl<K: Sink> Sink for Overheard<K> {
    ghost taken = { λ o. K.taken o.inner };

    ghost faults = { λ o. K.faults o.inner };

    fn write(&mut self, piece: &[u8]) -> Result<usize, Failed>
        requires { 0 < length piece.now }
        ensures bound { IfOk result (λ n. (0 < n) × (n ≤ length piece.now)) }
        ensures bytes { WriteAppends (K.taken self.old.inner) (K.taken self.new.inner) result piece.now }
        ensures cause { HasCause (K.faults self.old.inner) (K.faults self.new.inner) result }
        ensures front { KeepsFront 64 self.old.front self.new.front result piece.now }
    {
        match self.inner.write(piece) {
            Ok(count) => {
                keep(&mut self.front, &piece[..count]);
                Ok(count)
            }
            Err(_) => Err(Failed),
        }
    }
}
