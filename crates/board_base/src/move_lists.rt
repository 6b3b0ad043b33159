ghost use Rattle.std.specs.Prelude.{◌≡◌, ◌∷◌, [], ◌++◌, OnErr, OnOk, length, slice_get};

use crate::memory::Memory;
use crate::moves::Move;
use crate::unmoves::Unmove;
use std::alloc::Global;
use std::marker::Model;

/// A list of moves, first to last.
#[derive(Drop)]
pub struct MoveList {
    moves: Vec<Move>,
}

impl Model for MoveList {
    ghost use Rattle.std.specs.Prelude.{List};
    ghost use Rattle.board_base.specs.declared.moves.Move.{Move as AMove};

    ghost Value = { List AMove };

    ghost view = { λ l. l.moves.items };
}

impl MoveList {
    /// The list of no moves. This takes no memory; `push` takes what it needs from `alloc`.
    pub fn new(alloc: Global) -> MoveList
        ensures { result ≡ [] }
    {
        MoveList {
            moves: Vec::new(alloc),
        }
    }

    /// How many moves there are.
    pub fn len(&self) -> usize
        ensures { result ≡ length self.now }
    {
        self.moves.len()
    }

    /// The move at this place, counted from 0. None if and only if the place isn't below `len`.
    pub fn get(&self, i: usize) -> Option<Move>
        ensures { result ≡ slice_get self.now i }
    {
        self.moves.get(i).copied()
    }

    /// Puts the move after the others. After `Memory` the list is unchanged.
    pub fn push(&mut self, m: Move) -> Result<(), Memory>
        ensures ok { OnOk result (self.new ≡ self.old ++ m ∷ []) }
        ensures err { OnErr result (self.new ≡ self.old) }
    {
        match self.moves.push(m) {
            Ok(()) => {}
            Err(_) => return Err(Memory),
        }
        Ok(())
    }
}

/// A list of unmoves, first to last.
#[derive(Drop)]
pub struct UnmoveList {
    unmoves: Vec<Unmove>,
}

impl Model for UnmoveList {
    ghost use Rattle.std.specs.Prelude.{List};
    ghost use Rattle.board_base.specs.declared.unmoves.Unmove.{Unmove as AnUnmove};

    ghost Value = { List AnUnmove };

    ghost view = { λ l. l.unmoves.items };
}

impl UnmoveList {
    /// The list of no unmoves. This takes no memory; `push` takes what it needs from `alloc`.
    pub fn new(alloc: Global) -> UnmoveList
        ensures { result ≡ [] }
    {
        UnmoveList {
            unmoves: Vec::new(alloc),
        }
    }

    /// How many unmoves there are.
    pub fn len(&self) -> usize
        ensures { result ≡ length self.now }
    {
        self.unmoves.len()
    }

    /// The unmove at this place, counted from 0. None if and only if the place isn't below `len`.
    pub fn get(&self, i: usize) -> Option<Unmove>
        ensures { result ≡ slice_get self.now i }
    {
        self.unmoves.get(i).copied()
    }

    /// Puts the unmove after the others. After `Memory` the list is unchanged.
    pub fn push(&mut self, u: Unmove) -> Result<(), Memory>
        ensures ok { OnOk result (self.new ≡ self.old ++ u ∷ []) }
        ensures err { OnErr result (self.new ≡ self.old) }
    {
        match self.unmoves.push(u) {
            Ok(()) => {}
            Err(_) => return Err(Memory),
        }
        Ok(())
    }
}
