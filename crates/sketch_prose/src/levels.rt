//! What is left to be told.

ghost use Rattle.std.specs.Prelude.{◌≡◌, ◌∷◌, ◌<◌, [], IfSome, List, MatchOption, None, OnOk};
ghost use Rattle.sketch_proof.specs.Proofs.{Setting};
ghost use Rattle.sketch_prose.specs.Levels.{AreLeft, Passes, back};
ghost use Rattle.sketch_text.specs.Trees.{Line as ALine, Nodes};

use crate::dues::Left;
use sketch_words::Spot;
use std::alloc::{AllocError, Global};
use std::marker::Model;

/// The nodes below one that are still to be told: where, with which number the next one is told by itself, how many
/// they are, and those that are due.
#[derive(Drop)]
pub(crate) struct Level {
    pub(crate) spot: Spot,
    pub(crate) number: usize,
    pub(crate) count: u16,
    pub(crate) left: Left,
}

impl Model for Level {
    ghost use Rattle.std.specs.Prelude.{◌+◌, ◌≤◌};
    ghost use Rattle.sketch_prose.specs.Dues.{due_by};
    ghost use Rattle.sketch_prose.specs.Levels.{Level as ALevel};

    ghost Value = { ALevel };

    ghost view = { λ v. record { spot = v.spot; number = v.number; count = v.count; due = due_by v.left } };

    ghost invariant = { λ v. v.number + v.count ≤ 65536 };
}

/// Levels, seen as their list, the lowest first.
#[derive(Drop)]
pub(crate) struct Levels {
    levels: Vec<Level>,
}

impl Model for Levels {
    ghost use Rattle.std.specs.Prelude.{List, reverse};
    ghost use Rattle.sketch_prose.specs.Levels.{Level as ALevel};

    ghost Value = { List ALevel };

    ghost view = { λ s. reverse s.levels.items };
}

impl Levels {
    /// No levels.
    pub(crate) fn new(alloc: Global) -> Levels
        ensures { result ≡ [] }
    {
        Levels {
            levels: Vec::new(alloc),
        }
    }

    /// Puts a level below the others.
    pub(crate) fn push(&mut self, level: Level) -> Result<(), AllocError>
        ensures { OnOk result (self.new ≡ level ∷ self.old) }
    {
        self.levels.push(level)?;
        Ok(())
    }

    /// Takes off the lowest level.
    pub(crate) fn pop(&mut self) -> Option<Level>
        ensures { MatchOption result ((self.old ≡ []) × (self.new ≡ [])) (λ v. self.old ≡ v ∷ self.new) }
    {
        self.levels.pop()
    }
}

/// Takes off the lowest level at which a node is left, and those below it.
pub(crate) fn next_level(levels: &mut Levels) -> Option<Level>
    ensures passes { (g : Setting) (fs : List Nodes) (lines : List ALine) → AreLeft g levels.old fs lines → Passes g levels.old fs (back result levels.new) lines }
    ensures some { IfSome result (λ v. 0 < v.count) }
    ensures none { result ≡ None → levels.new ≡ [] }
{
    'levels: while let Some(level) = levels.pop() {
        if level.count > 0 {
            return Some(level);
        }
    }
    None
}
