ghost use Rattle.std.specs.Prelude.{◌≡◌, ◌≤◌, ◌∷◌, [], MatchOption, length};

use crate::step_lists::StepList;
use board_base::Unmove;
use std::marker::Model;

/// The steps of a claim that are still to be taken back, seen as their list.
#[derive(Drop)]
pub(crate) struct StepsLeft {
    steps: Option<StepList>,
    begun: usize,
}

impl Model for StepsLeft {
    ghost use Rattle.std.specs.Prelude.{List, [], drop, unwrap_or};
    ghost use Rattle.board_base.specs.declared.unmoves.Unmove.{Unmove as AnUnmove};

    ghost Value = { List AnUnmove };

    ghost view = { λ l. drop l.begun (unwrap_or l.steps []) };
}

impl StepsLeft {
    /// None at all.
    pub(crate) fn none() -> StepsLeft
        ensures { result ≡ [] }
    {
        StepsLeft {
            steps: None,
            begun: 0,
        }
    }

    /// All steps of the list.
    pub(crate) fn of(list: &StepList) -> StepsLeft
        ensures steps { result ≡ list.now }
        ensures few { length list.now ≤ 16 }
    {
        StepsLeft {
            steps: Some(list.copied()),
            begun: 0,
        }
    }

    /// The first step that is left, which then is left no more; None if and only if none is left.
    pub(crate) fn next(&mut self) -> Option<Unmove>
        ensures { MatchOption result ((self.old ≡ []) × (self.new ≡ [])) (λ u. self.old ≡ u ∷ self.new) }
    {
        let step = match &self.steps {
            Some(steps) => steps.items().get(self.begun).copied(),
            None => None,
        };
        if step.is_some() {
            self.begun += 1;
        }
        step
    }
}
