ghost use Rattle.std.specs.Prelude.{◌≡◌, ◌≤◌, IfOk, IfSome, MatchOption, true};
ghost use Rattle.sketch_body.specs.Bodies.{units_of};
ghost use Rattle.sketch_body.specs.Whole.{is_body};
ghost use Rattle.sketch_findings.specs.Plain.{HasPlainSketch};
ghost use Rattle.sketch_findings.specs.Sketches.{IsSketchOf};

use board_base::Memory;
use query_base::Query;
use sketch_body::SketchBody;
use sketch_findings::{SMALL, SketchDesk, SketchLimits, find_body};
use std::alloc::Global;

/// What is kept while sketches are sought, and how long they are.
#[derive(Drop)]
pub struct SketchQuest {
    /// What one search for a sketch keeps for the next.
    pub desk: SketchDesk,
    /// How far each search for a sketch goes.
    pub limits: SketchLimits,
    /// How many more of them may find nothing.
    pub left: u32,
    /// How many have found nothing, and looked at sketches that weren't closed at once.
    pub vain: u32,
}

impl SketchQuest {
    /// None is sought.
    pub(crate) fn idle(alloc: Global) -> SketchQuest
        ensures { result.left ≡ 0 }
    {
        SketchQuest {
            desk: SketchDesk::new(alloc),
            limits: SMALL,
            left: 0,
            vain: 0,
        }
    }

    /// From now on searches for sketches go so far, until so many have found nothing.
    pub(crate) fn begin(&mut self, limits: SketchLimits, failures: u32)
        ensures { self.new.left ≡ failures }
    {
        self.limits = limits;
        self.left = failures;
    }

    /// A sketch that supports the query, if one is sought and found.
    pub(crate) fn find(
        &mut self,
        alloc: Global,
        query: &Query,
    ) -> Result<Option<SketchBody>, Memory>
        ensures supports { IfOk result (λ r. IfSome r (λ b. IsSketchOf b query.now)) }
        ensures text { IfOk result (λ r. IfSome r (λ b. is_body b ≡ true)) }
        ensures plain { 1 ≤ self.old.left → IfOk result (λ r. HasPlainSketch query.now → MatchOption r ⊥ (λ b. units_of b ≤ 33)) }
    {
        if self.left == 0 {
            return Ok(None);
        }
        let seen = self.desk.states();
        let found = find_body(alloc, query, self.limits, &mut self.desk)?;
        if found.is_none() {
            self.left -= 1;
            if self.desk.states() != seen {
                self.vain = self.vain.saturating_add(1);
            }
        }
        Ok(found)
    }
}
