ghost use Rattle.std.specs.Prelude.{◌≡◌, ◌≤◌, ◌<◌, ◌↔◌, [], IfOk, None};
ghost use Rattle.query_base.specs.Targets.{target};
ghost use Rattle.price_search.specs.FlatPrices.{FlatPricesSupport};
ghost use Rattle.sketch_findings.specs.Plain.{HasPlainSketch};
ghost use Rattle.cert_text.specs.SeenCert.{cert_of};
ghost use Rattle.retro_search.specs.Answers.{IfCountered, IfProved, IfSpentAt, IfUndecided, IfUnspent, IsAnswer, IsProved, IsShort};
ghost use Rattle.retro_search.specs.Outcomes.{HasProof, IfRefuted, IsRefuted};
ghost use Rattle.retro_search.specs.Refutable.{IsRefutable};
ghost use Rattle.retro_search.specs.Runs.{IsReady, IsSeeking};
ghost use Rattle.retro_search.specs.SearchSizes.{IsLargeSearch};
ghost use Rattle.retro_search.specs.Unsettled.{IsAgainst, IsUnpriced, StaysUnsettled, WhereRefutable};

use crate::answering::answer;
use crate::answers::Found;
use crate::attempts::refute;
use crate::limits::Limits;
use crate::runs::{Reasons, Run};
use crate::unrefuted::Unrefuted;
use board_base::Memory;
use query_base::{Claim, Query};
use sketch_findings::SketchLimits;
use std::alloc::Global;
use std::marker::Model;

/// What a search for a refutation of a query comes to.
#[derive(Clone, Copy, PartialEq, Eq, Debug)]
pub enum Outcome {
    /// No game reaches the query: a tree of this height proves it.
    Refuted {
        /// How many moves the tree goes back at most.
        height: u8,
    },
    /// A line of unmoves stays open.
    Open,
    /// All the nodes that were allowed were visited.
    Spent,
}

/// What a search for a refutation of the query within these limits comes to, by what the run has at hand.
fn outcome_of(
    alloc: Global,
    query: &Query,
    limits: Limits,
    run: &mut Run,
) -> Result<Outcome, Memory>
    requires ready { IsReady run.old }
    ensures refuted { IfOk result (λ outcome. IfRefuted outcome (λ height. HasProof query.now height limits.depth)) }
    ensures low { run.old.reasons ≡ Reasons.RuleLines → IfOk result (λ outcome. IfRefuted outcome (λ height. IsRefutable query.now height [])) }
    ensures open { IfOk result (λ outcome. outcome ≡ Outcome.Open → IsRefutable query.now limits.depth [] → ⊥) }
    ensures spent { IfOk result (λ outcome. outcome ≡ Outcome.Spent → WhereRefutable query.now limits.depth (λ n. limits.nodes < n)) }
    ensures large { IfOk result (λ outcome. outcome ≡ Outcome.Spent → IsLargeSearch query.now limits.depth limits.nodes) }
    ensures never_weaker { IfOk result (λ outcome. WhereRefutable query.now limits.depth (λ n. n ≤ limits.nodes → IsRefuted outcome)) }
    ensures priced { run.old.reasons ≡ Reasons.All → 1 ≤ limits.nodes → FlatPricesSupport query.now → IfOk result IsRefuted }
    ensures sketched { run.old.reasons ≡ Reasons.All → IsSeeking run.old → HasPlainSketch query.now → IfOk result IsRefuted }
    ensures exactly { run.old.reasons ≡ Reasons.RuleLines → IfOk result (λ outcome. (outcome ≡ Outcome.Spent → ⊥) → (IsRefuted outcome ↔ IsRefutable query.now limits.depth [])) }
    ensures ready { IsReady run.new }
    ensures on { run.new.memo.on ≡ run.old.memo.on }
    ensures reasons { run.new.reasons ≡ run.old.reasons }
{
    match refute(alloc, query, limits, run) {
        Ok(found) => Ok(Outcome::Refuted {
            height: found.height,
        }),
        Err(Unrefuted::Open(_)) => Ok(Outcome::Open),
        Err(Unrefuted::Spent) => Ok(Outcome::Spent),
        Err(Unrefuted::TooLarge) => unreachable!(),
        Err(Unrefuted::Memory) => Err(Memory),
    }
}

/// A search for refutations that keeps those which lean on no query above them from one question to the next, and looks for the
/// prices of a query once. It is seen as the reasons by which it refutes.
#[derive(Drop)]
pub struct Searcher {
    alloc: Global,
    run: Run,
}

impl Model for Searcher {
    ghost use Rattle.std.specs.Prelude.{◌≡◌, true};
    ghost use Rattle.retro_search.specs.Runs.{IsReady};
    ghost use Rattle.retro_search.specs.declared.runs.Reasons.{Reasons as AReasons};

    ghost Value = { AReasons };

    ghost view = { λ s. s.run.reasons };

    ghost invariant = { λ s. IsReady s.run × (s.run.memo.on ≡ true) };
}

impl Searcher {
    /// A search by these reasons that has kept nothing.
    pub fn new(alloc: Global, reasons: Reasons) -> Searcher
        ensures { result ≡ reasons }
    {
        Searcher {
            alloc,
            run: Run::new(alloc, reasons),
        }
    }

    /// How many searches for a sketch have found nothing, and looked at sketches that weren't closed at once.
    pub fn vain_sketches(&self) -> u32 {
        self.run.quest.vain
    }

    /// Searches for a refutation of the query within these limits: takes moves back from it. What earlier questions kept serves this one,
    /// and no clause depends on it.
    ///
    /// - `Refuted` comes wherever rule lines refute the query at some depth up to that of the limits at a cost of at most their nodes, by
    ///   all reasons also where flat prices support it, and often elsewhere. A tree of the height that it gives proves the query, and no
    ///   game of any length reaches it.
    /// - `Open` comes only if rule lines don't refute the query at the depth. By rule lines alone it comes wherever they don't, unless
    ///   `Spent` comes.
    /// - `Spent` comes only if the whole search of the query to the depth is larger than the nodes; and its cost is above them at each
    ///   depth up to that of the limits at which rule lines refute it.
    ///
    /// Want of memory is a free answer: `Memory` may take the place of each of these, and the next question may be asked all the same.
    pub fn refute(&mut self, query: &Query, limits: Limits) -> Result<Outcome, Memory>
        ensures refuted { IfOk result (λ outcome. IfRefuted outcome (λ height. HasProof query.now height limits.depth)) }
        ensures low { self.old ≡ Reasons.RuleLines → IfOk result (λ outcome. IfRefuted outcome (λ height. IsRefutable query.now height [])) }
        ensures open { IfOk result (λ outcome. outcome ≡ Outcome.Open → IsRefutable query.now limits.depth [] → ⊥) }
        ensures spent { IfOk result (λ outcome. outcome ≡ Outcome.Spent → WhereRefutable query.now limits.depth (λ n. limits.nodes < n)) }
        ensures large { IfOk result (λ outcome. outcome ≡ Outcome.Spent → IsLargeSearch query.now limits.depth limits.nodes) }
        ensures never_weaker { IfOk result (λ outcome. WhereRefutable query.now limits.depth (λ n. n ≤ limits.nodes → IsRefuted outcome)) }
        ensures priced { self.old ≡ Reasons.All → 1 ≤ limits.nodes → FlatPricesSupport query.now → IfOk result IsRefuted }
        ensures exactly { self.old ≡ Reasons.RuleLines → IfOk result (λ outcome. (outcome ≡ Outcome.Spent → ⊥) → (IsRefuted outcome ↔ IsRefutable query.now limits.depth [])) }
        ensures reasons { self.new ≡ self.old }
    {
        let alloc = self.alloc;
        outcome_of(alloc, query, limits, &mut self.run)
    }

    /// The same by all reasons, and if neither rule lines nor prices refute a query, a sketch is sought within these limits, until so many
    /// searches for one have found nothing. `Refuted` comes also wherever one node of a sketch refutes the query, without exact files,
    /// prices and marks.
    pub fn refute_with_sketches(
        &mut self,
        query: &Query,
        limits: Limits,
        sketches: SketchLimits,
        failures: u32,
    ) -> Result<Outcome, Memory>
        requires all { self.old ≡ Reasons.All }
        requires some_failures { 1 ≤ failures }
        ensures refuted { IfOk result (λ outcome. IfRefuted outcome (λ height. HasProof query.now height limits.depth)) }
        ensures open { IfOk result (λ outcome. outcome ≡ Outcome.Open → IsRefutable query.now limits.depth [] → ⊥) }
        ensures spent { IfOk result (λ outcome. outcome ≡ Outcome.Spent → WhereRefutable query.now limits.depth (λ n. limits.nodes < n)) }
        ensures large { IfOk result (λ outcome. outcome ≡ Outcome.Spent → IsLargeSearch query.now limits.depth limits.nodes) }
        ensures never_weaker { IfOk result (λ outcome. WhereRefutable query.now limits.depth (λ n. n ≤ limits.nodes → IsRefuted outcome)) }
        ensures priced { 1 ≤ limits.nodes → FlatPricesSupport query.now → IfOk result IsRefuted }
        ensures sketched { HasPlainSketch query.now → IfOk result IsRefuted }
        ensures reasons { self.new ≡ self.old }
    {
        let alloc = self.alloc;
        self.run.quest.begin(sketches, failures);
        let came = outcome_of(alloc, query, limits, &mut self.run);
        self.run.quest.left = 0;
        came
    }

    /// Searches for a certificate of the claim about the query within these limits, as `solve` does: takes moves back from the claim's
    /// target. By all reasons it looks, if no rule line supports a query, for a set and prices that support it by the balance of
    /// captures. What earlier questions kept serves this one, and no clause depends on it. The query bars no move of its own.
    ///
    /// - `Proved` comes wherever rule lines refute the target at some depth up to that of the limits at a cost of at most their nodes, by
    ///   all reasons also where flat prices support it, and often elsewhere; by rule lines alone, if and only if they refute it at the depth
    ///   and `Spent` doesn't come. The certificate is of this claim and this query, proves it, goes back no further than the depth, and has
    ///   at most 500,000 nodes. It has a text if the claim has one, and no text of more than 64 MiB. No game of any length contradicts
    ///   the claim.
    /// - `Undecided` comes with a line of listed unmoves on which no rule line supports a query, and none is covered by one before it. It
    ///   has as many unmoves as the depth, and doesn't end at the array. By all reasons and with at most 250,000 nodes, flat prices
    ///   support no query on it.
    /// - `Countered` comes with a game that contradicts the claim, and has no more moves than the depth.
    /// - `Spent` comes only if the whole search of the target to the depth is larger than the nodes; and its cost is above them at each
    ///   depth up to that of the limits at which rule lines refute it. It says how many queries were visited, which are all that were
    ///   allowed.
    ///
    /// Want of memory is a free answer: `Memory` may take the place of each of these.
    pub fn settle(&mut self, query: &Query, claim: &Claim, limits: Limits) -> Result<Found, Memory>
        requires unbarred { query.now.barred ≡ None }
        ensures answer { IfOk result (IsAnswer limits.depth limits.nodes claim.now query.now) }
        ensures short { IfOk result (λ found. IfProved found (λ cert. IsShort (cert_of cert))) }
        ensures undecided { IfOk result (λ found. IfUndecided found (λ line. StaysUnsettled line (target query.now claim.now) limits.depth)) }
        ensures countered { IfOk result (λ found. IfCountered found (λ game. IsAgainst game claim.now query.now limits.depth)) }
        ensures spent { IfOk result (λ found. IfSpentAt found (λ visited. WhereRefutable (target query.now claim.now) limits.depth (λ n. limits.nodes < n))) }
        ensures large { IfOk result (λ found. IfSpentAt found (λ visited. IsLargeSearch (target query.now claim.now) limits.depth limits.nodes)) }
        ensures never_weaker { IfOk result (λ found. WhereRefutable (target query.now claim.now) limits.depth (λ n. n ≤ limits.nodes → IsProved found)) }
        ensures priced { self.old ≡ Reasons.All → 1 ≤ limits.nodes → FlatPricesSupport (target query.now claim.now) → IfOk result IsProved }
        ensures unpriced { self.old ≡ Reasons.All → limits.nodes ≤ 250000 → IfOk result (λ found. IfUndecided found (IsUnpriced (target query.now claim.now))) }
        ensures exactly { self.old ≡ Reasons.RuleLines → IfOk result (λ found. IfUnspent found (IsProved found ↔ IsRefutable (target query.now claim.now) limits.depth [])) }
        ensures reasons { self.new ≡ self.old }
    {
        let alloc = self.alloc;
        answer(alloc, query, claim, limits, &mut self.run)
    }

    /// The same by all reasons, and if neither rule lines nor prices refute a query, a sketch is sought within these limits, until so many
    /// searches for one have found nothing. `Proved` comes also wherever one node of a sketch refutes the target, without exact files,
    /// prices and marks.
    pub fn settle_with_sketches(
        &mut self,
        query: &Query,
        claim: &Claim,
        limits: Limits,
        sketches: SketchLimits,
        failures: u32,
    ) -> Result<Found, Memory>
        requires unbarred { query.now.barred ≡ None }
        requires all { self.old ≡ Reasons.All }
        requires some_failures { 1 ≤ failures }
        ensures answer { IfOk result (IsAnswer limits.depth limits.nodes claim.now query.now) }
        ensures short { IfOk result (λ found. IfProved found (λ cert. IsShort (cert_of cert))) }
        ensures undecided { IfOk result (λ found. IfUndecided found (λ line. StaysUnsettled line (target query.now claim.now) limits.depth)) }
        ensures countered { IfOk result (λ found. IfCountered found (λ game. IsAgainst game claim.now query.now limits.depth)) }
        ensures spent { IfOk result (λ found. IfSpentAt found (λ visited. WhereRefutable (target query.now claim.now) limits.depth (λ n. limits.nodes < n))) }
        ensures large { IfOk result (λ found. IfSpentAt found (λ visited. IsLargeSearch (target query.now claim.now) limits.depth limits.nodes)) }
        ensures never_weaker { IfOk result (λ found. WhereRefutable (target query.now claim.now) limits.depth (λ n. n ≤ limits.nodes → IsProved found)) }
        ensures priced { 1 ≤ limits.nodes → FlatPricesSupport (target query.now claim.now) → IfOk result IsProved }
        ensures unpriced { limits.nodes ≤ 250000 → IfOk result (λ found. IfUndecided found (IsUnpriced (target query.now claim.now))) }
        ensures sketched { IfOk result (λ found. HasPlainSketch (target query.now claim.now) → IsProved found) }
        ensures reasons { self.new ≡ self.old }
    {
        let alloc = self.alloc;
        self.run.quest.begin(sketches, failures);
        let found = answer(alloc, query, claim, limits, &mut self.run);
        self.run.quest.left = 0;
        found
    }
}
