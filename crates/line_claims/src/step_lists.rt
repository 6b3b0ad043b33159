ghost use Rattle.std.specs.Prelude.{◌≡◌, ◌≤◌, ◌<◌, ◌↔◌, ◌∷◌, [], ◌++◌, length, IsTrue, SomeIff};

use board_base::Unmove;
use std::marker::Model;

/// One to sixteen unmoves, the last move's first.
#[derive(Drop, Debug)]
pub struct StepList {
    steps: [Unmove; 16],
    len: usize,
}

impl Model for StepList {
    ghost use Rattle.std.specs.Prelude.{List, ◌≤◌, take};
    ghost use Rattle.board_base.specs.declared.unmoves.Unmove.{Unmove as AnUnmove};

    ghost Value = { List AnUnmove };

    ghost view = { λ s. take s.len s.steps };

    ghost invariant = { λ s. (1 ≤ s.len) × (s.len ≤ 16) };
}

impl StepList {
    /// The list of these unmoves, in their order; None if and only if there is none, or there are more than sixteen.
    pub fn new(items: &[Unmove]) -> Option<StepList>
        ensures { SomeIff result ((1 ≤ length items.now) × (length items.now ≤ 16)) items.now }
    {
        if items.is_empty() || items.len() > 16 {
            return None;
        }
        Some(StepList::of_items(items))
    }

    /// The unmoves, in their order.
    pub fn items(&self) -> &[Unmove]
        ensures items { result.now ≡ self.now }
        ensures some { 1 ≤ length self.now }
        ensures few { length self.now ≤ 16 }
    {
        &self.steps[..self.len]
    }

    fn of_items(items: &[Unmove]) -> StepList
        requires some { 1 ≤ length items.now }
        requires few { length items.now ≤ 16 }
        ensures { result ≡ items.now }
    {
        let mut list = StepList::of_one(items[0]);
        for step in &items[1..] {
            list.push(*step);
        }
        list
    }

    /// Another list of the same unmoves.
    pub(crate) fn copied(&self) -> StepList
        ensures same { result ≡ self.now }
        ensures few { length self.now ≤ 16 }
    {
        StepList::of_items(self.items())
    }

    /// The list of this unmove alone.
    pub(crate) fn of_one(step: Unmove) -> StepList
        ensures { result ≡ step ∷ [] }
    {
        StepList {
            steps: [step; 16],
            len: 1,
        }
    }

    /// Whether there are sixteen.
    pub(crate) fn is_full(&self) -> bool
        ensures full { IsTrue result ↔ (length self.now ≡ 16) }
        ensures few { length self.now ≤ 16 }
    {
        self.items().len() == 16
    }

    /// Puts the unmove after the others.
    pub(crate) fn push(&mut self, step: Unmove)
        requires { length self.old < 16 }
        ensures { self.new ≡ self.old ++ step ∷ [] }
    {
        self.steps[self.len] = step;
        self.len += 1;
    }
}
