ghost use Rattle.std.specs.Prelude.{◌≡◌, ◌↔◌, IsTrue, false};
ghost use Rattle.retro_search.specs.Runs.{IsReady};
ghost use Rattle.retro_search.specs.Tidy.{IsFresh};

use crate::memos::Memo;
use crate::quests::SketchQuest;
use price_search::PriceDesk;
use std::alloc::Global;

/// What may refute a query of which nothing is taken back.
#[derive(Clone, Copy, PartialEq, Eq, Debug)]
pub enum Reasons {
    /// The eight rule lines alone.
    RuleLines,
    /// The rule lines, and a set and prices that support the query by the balance of captures, if some are found; and a sketch, if sketches
    /// are sought.
    All,
}

/// What a search has at hand on its way.
#[derive(Drop)]
pub struct Run {
    /// How many queries may still be visited.
    pub left: u32,
    /// By what it refutes.
    pub reasons: Reasons,
    /// The refutations that are kept.
    pub memo: Memo,
    /// What is kept while prices are sought.
    pub desk: PriceDesk,
    /// What is kept while sketches are sought.
    pub quest: SketchQuest,
}

impl Run {
    /// A search by these reasons that has kept nothing so far.
    pub(crate) fn new(alloc: Global, reasons: Reasons) -> Run
        ensures ready { IsReady result }
        ensures fresh { IsFresh result.memo }
        ensures reasons { result.reasons ≡ reasons }
    {
        Run {
            left: 0,
            reasons,
            memo: Memo::new(alloc),
            desk: PriceDesk::new(alloc),
            quest: SketchQuest::idle(alloc),
        }
    }

    /// A search by these reasons that keeps no refutation.
    pub(crate) fn bare(alloc: Global, reasons: Reasons) -> Run
        ensures ready { IsReady result }
        ensures off { result.memo.on ≡ false }
        ensures reasons { result.reasons ≡ reasons }
    {
        Run {
            left: 0,
            reasons,
            memo: Memo::off(alloc),
            desk: PriceDesk::new(alloc),
            quest: SketchQuest::idle(alloc),
        }
    }

    /// Whether no query may be visited any more.
    pub(crate) fn is_spent(&self) -> bool
        ensures { IsTrue result ↔ (self.now.left ≡ 0) }
    {
        self.left == 0
    }
}
