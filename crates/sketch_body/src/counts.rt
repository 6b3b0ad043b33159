ghost use Rattle.std.specs.Prelude.{◌≡◌, ◌<◌, ◌≤◌, ◌∷◌, [], MatchOption, length};
ghost use Rattle.sketch_body.specs.Due.{settled};

use arrayvec::ArrayVec;
use std::marker::Model;

/// At most 65 numbers of nodes, seen as their list, the last first.
#[derive(Drop)]
pub(crate) struct Counts {
    counts: ArrayVec<u16, 65>,
}

impl Model for Counts {
    ghost use Rattle.std.specs.Prelude.{List, reverse, ℕ};

    ghost Value = { List ℕ };

    ghost view = { λ s. reverse s.counts.items };
}

impl Counts {
    /// One node alone.
    pub(crate) fn one() -> Counts
        ensures { result ≡ 1 ∷ [] }
    {
        let mut counts = ArrayVec::new();
        counts.push(1);
        Counts { counts }
    }

    pub(crate) fn len(&self) -> usize
        ensures value { result ≡ length self.now }
        ensures few { length self.now ≤ 65 }
    {
        self.counts.len()
    }

    /// Puts a number before the others.
    pub(crate) fn push(&mut self, count: u16)
        requires { length self.old < 65 }
        ensures { self.new ≡ count ∷ self.old }
    {
        self.counts.push(count);
    }

    /// Takes off the first number.
    pub(crate) fn pop(&mut self) -> Option<u16>
        ensures { MatchOption result ((self.old ≡ []) × (self.new ≡ [])) (λ n. self.old ≡ n ∷ self.new) }
    {
        self.counts.pop()
    }
}

#[tactic(auto, using(crate::proofs::Settling::zero_off, crate::proofs::Settling::other_stays, crate::proofs::Settling::none_left, crate::proofs::Settling::shorter))]
/// Takes off the zeros before the first number that is none.
pub(crate) fn settle(counts: &mut Counts)
    ensures { counts.new ≡ settled counts.old }
{
    'zeros: while counts.len() > 0 {
        let Some(count) = counts.pop() else {
            return;
        };
        if count > 0 {
            counts.push(count);
            return;
        }
    }
}
