ghost use Rattle.std.specs.Prelude.{◌≡◌, ◌<◌, ◌≤◌, [], IfOk, IsTrue};
ghost use Rattle.price_search.specs.FlatPrices.{FlatPricesSupport};
ghost use Rattle.retro_search.specs.Outcomes.{HasProof, IfRefuted};
ghost use Rattle.retro_search.specs.Plain.{HasPlainSketch};
ghost use Rattle.retro_search.specs.Refutable.{IsRefutable};
ghost use Rattle.retro_search.specs.SearchSizes.{IsLargeSearch};
ghost use Rattle.retro_search.specs.Unsettled.{WhereRefutable};
ghost use Rattle.retro_search.specs.declared.runs.Reasons.TheVariants.{All, RuleLines};
ghost use Rattle.claim_findings.specs.SearchEnds.{IsSearchEnd};
ghost use Rattle.claim_findings.specs.Findings.{is_refuted};

use crate::ends::End;
use crate::subjects::Subject;
use board_base::Memory;
use game_search::FEW_QUERIES;
use query_base::{Claim, Query};
use retro_search::{Found, LARGE, Limits, Outcome, QUICK, Reasons, SMALL, Searcher, SketchLimits};
use std::alloc::Global;

/// Of so many nodes one is visited where the balance of captures is looked for.
const PRICED_SHARE: u32 = 10;

/// How many quick searches for a sketch may find nothing in one search.
const QUICK_FAILURES: u32 = 10;

/// How many queries such a search visits at most.
const QUICK_NODES: u32 = 100;

/// How many searches for a sketch may find nothing in a study until the quick ones look at none but plain sketches, at targets alone.
const MOST_VAIN: u32 = 10;

/// Searches for none but plain sketches.
const PLAIN: SketchLimits = SketchLimits { states: 0, ..QUICK };

/// How many large ones may in a study, but for one of each claim's target.
const LARGE_FAILURES: u32 = 1;

/// What a large search for a sketch looks at in a study: no exact files, on which much is sought in vain, and fewer sketches, with little
/// spent on those that seldom close.
const LARGE_HERE: SketchLimits = SketchLimits {
    states: 100,
    ascents: 100,
    files: false,
    thrifty: true,
    ..LARGE
};

/// How many queries a search visits at most that goes further for a claim which stays open.
const FURTHER_NODES: u32 = 2_000;

/// How many small searches for a sketch may find nothing in it, if there are nodes for them.
const SMALL_FAILURES: u32 = 100;

/// How many nodes each of these is worth.
const NODES_A_FAILURE: u32 = 100;

/// How many large ones may.
const FURTHER_FAILURES: u32 = 10;

/// The two searches of a study. What one question makes them keep serves the others.
#[derive(Drop)]
pub struct Searchers {
    pub alloc: Global,
    by_rule_lines: Searcher,
    /// By the balance of captures and by sketches too, which are dear to look for.
    by_all: Searcher,
    /// How many more large searches for a sketch may find nothing.
    large_left: u32,
    ghost lines: { by_rule_lines ≡ RuleLines },
    ghost reasons: { by_all ≡ All },
}

impl Searchers {
    /// Searches that have kept nothing.
    pub fn new(alloc: Global) -> Searchers {
        Searchers {
            alloc,
            by_rule_lines: Searcher::new(alloc, Reasons::RuleLines),
            by_all: Searcher::new(alloc, Reasons::All),
            large_left: LARGE_FAILURES,
        }
    }

    /// Searches for a refutation of the query by rule lines; and if these leave it open, or cost too much, by the balance of captures
    /// too, as far back but with a tenth of the nodes, and if it stays open still, by sketches. Where flat prices support the query, and any
    /// may be visited, or one node of a sketch refutes it without exact files, prices and marks, it is refuted.
    pub(crate) fn refute(&mut self, query: &Query, limits: Limits) -> Result<Outcome, Memory>
        ensures refuted { IfOk result
            (λ outcome. IfRefuted outcome (λ height. HasProof query.now height limits.depth)) }
        ensures stays_open { IfOk result
            (λ outcome. outcome ≡ Outcome.Open → IsRefutable query.now limits.depth [] → ⊥) }
        ensures spent { IfOk result
            (λ outcome. outcome ≡ Outcome.Spent →
            WhereRefutable query.now limits.depth (λ n. limits.nodes < n)) }
        ensures large { IfOk result
            (λ outcome. outcome ≡ Outcome.Spent →
            IsLargeSearch query.now limits.depth limits.nodes) }
        ensures priced { IfOk result
            (λ outcome. 1 ≤ limits.nodes → FlatPricesSupport query.now →
            IsTrue (is_refuted outcome)) }
        ensures sketched { IfOk result
            (λ outcome. HasPlainSketch query.now → IsTrue (is_refuted outcome)) }
    {
        let by_rule_lines = self.by_rule_lines.refute(query, limits)?;
        if is_refuted(by_rule_lines) {
            return Ok(by_rule_lines);
        }
        let by_all = self.refute_by_all(query, priced(limits))?;
        if is_refuted(by_all) {
            Ok(by_all)
        } else {
            Ok(by_rule_lines)
        }
    }

    /// Searches for a refutation by all reasons, and only if the balance of captures leaves the query open, by sketches too.
    fn refute_by_all(&mut self, query: &Query, limits: Limits) -> Result<Outcome, Memory>
        ensures refuted { IfOk result
            (λ outcome. IfRefuted outcome (λ height. HasProof query.now height limits.depth)) }
        ensures priced { IfOk result
            (λ outcome. 1 ≤ limits.nodes → FlatPricesSupport query.now →
            IsTrue (is_refuted outcome)) }
        ensures sketched { IfOk result
            (λ outcome. HasPlainSketch query.now → IsTrue (is_refuted outcome)) }
    {
        let by_prices = self.by_all.refute(query, limits)?;
        if is_refuted(by_prices) {
            return Ok(by_prices);
        }
        let by_sketches = self.refute_by_sketches(query, limits)?;
        if is_refuted(by_sketches) {
            return Ok(by_sketches);
        }
        let by_one = self.refute_by_one(query, limits)?;
        Ok(by_one)
    }

    /// Searches for a refutation with quick searches for sketches, among few queries; with nothing taken back, and for none but plain sketches,
    /// once too many have found nothing.
    fn refute_by_sketches(&mut self, query: &Query, limits: Limits) -> Result<Outcome, Memory>
        ensures refuted { IfOk result
            (λ outcome. IfRefuted outcome (λ height. HasProof query.now height limits.depth)) }
        ensures sketched { IfOk result
            (λ outcome. HasPlainSketch query.now → IsTrue (is_refuted outcome)) }
    {
        if self.by_all.vain_sketches() >= MOST_VAIN {
            return self.refute_here(query, limits, PLAIN);
        }
        let few = with_few_nodes(limits);
        let outcome = self
            .by_all
            .refute_with_sketches(query, few, QUICK, QUICK_FAILURES)?;
        Ok(outcome)
    }

    /// Searches for one sketch that refutes the query, with nothing taken back.
    fn refute_here(
        &mut self,
        query: &Query,
        limits: Limits,
        sketches: SketchLimits,
    ) -> Result<Outcome, Memory>
        ensures refuted { IfOk result
            (λ outcome. IfRefuted outcome (λ height. HasProof query.now height limits.depth)) }
        ensures sketched { IfOk result
            (λ outcome. HasPlainSketch query.now → IsTrue (is_refuted outcome)) }
    {
        let here = Limits { depth: 0, nodes: 1 };
        let outcome = self.by_all.refute_with_sketches(query, here, sketches, 1)?;
        Ok(outcome)
    }

    /// Searches far for one sketch that refutes the query, unless too many such searches have found nothing.
    fn refute_by_one(&mut self, query: &Query, limits: Limits) -> Result<Outcome, Memory>
        ensures { IfOk result
            (λ outcome. IfRefuted outcome (λ height. HasProof query.now height limits.depth)) }
    {
        if self.large_left == 0 {
            return Ok(Outcome::Open);
        }
        let outcome = self.refute_here(query, limits, LARGE_HERE)?;
        if !is_refuted(outcome) {
            self.large_left = self.large_left.saturating_sub(1);
        }
        Ok(outcome)
    }

    /// Searches for a refutation of the query as far as if its claim stood alone, by searches that have kept nothing: with small searches for
    /// sketches at what stays open, and with large ones if there are more nodes than a first search for a game has.
    pub(crate) fn refute_further(&self, query: &Query, limits: Limits) -> Result<Outcome, Memory>
        ensures { IfOk result
            (λ outcome. IfRefuted outcome (λ height. HasProof query.now height limits.depth)) }
    {
        let mut searcher = Searcher::new(self.alloc, Reasons::All);
        let few = with_further_nodes(limits);
        let failures = small_failures(limits);
        let by_small = searcher.refute_with_sketches(query, few, SMALL, failures)?;
        if is_refuted(by_small) || limits.nodes <= FEW_QUERIES {
            return Ok(by_small);
        }
        let by_large = searcher.refute_with_sketches(query, few, LARGE, FURTHER_FAILURES)?;
        Ok(by_large)
    }

    /// Lets one large search for a sketch be made, at the target of a claim.
    pub(crate) fn allow_large(&mut self) {
        self.large_left = self.large_left.max(1);
    }

    /// Where the search by rule lines ends.
    fn end_by_rule_lines(&mut self, subject: &Subject, claim: &Claim) -> Result<End, Memory>
        ensures { IfOk result
            (IsSearchEnd subject.now.query claim.now subject.now.limits.depth subject.now.limits.nodes) }
    {
        match self
            .by_rule_lines
            .settle(&subject.query, claim, subject.limits)?
        {
            Found::Undecided(line) => Ok(End::Line(line)),
            Found::Countered(game) => Ok(End::Game(game)),
            Found::Proved(_) => Ok(End::Nowhere),
            Found::Spent { .. } => Ok(End::Nowhere),
        }
    }

    /// Where the search ends that leaves the claim open: the one by all reasons, or else the one by rule lines.
    pub(crate) fn end(&mut self, subject: &Subject, claim: &Claim) -> Result<End, Memory>
        ensures { IfOk result
            (IsSearchEnd subject.now.query claim.now subject.now.limits.depth subject.now.limits.nodes) }
    {
        match self
            .by_all
            .settle(&subject.query, claim, priced(subject.limits))?
        {
            Found::Undecided(line) => Ok(End::Line(line)),
            Found::Countered(game) => Ok(End::Game(game)),
            Found::Proved(_) => self.end_by_rule_lines(subject, claim),
            Found::Spent { .. } => self.end_by_rule_lines(subject, claim),
        }
    }
}

/// The limits of a search where the balance of captures is looked for.
fn priced(limits: Limits) -> Limits
    ensures depth { result.depth ≡ limits.depth }
    ensures some { 1 ≤ limits.nodes → 1 ≤ result.nodes }
{
    Limits {
        depth: limits.depth,
        nodes: (limits.nodes + PRICED_SHARE - 1) / PRICED_SHARE,
    }
}

/// The limits of a search with quick searches for sketches.
fn with_few_nodes(limits: Limits) -> Limits
    ensures { result.depth ≡ limits.depth }
{
    Limits {
        depth: limits.depth,
        nodes: limits.nodes.min(QUICK_NODES),
    }
}

/// The limits of a search that goes further.
fn with_further_nodes(limits: Limits) -> Limits
    ensures { result.depth ≡ limits.depth }
{
    Limits {
        depth: limits.depth,
        nodes: limits.nodes.min(FURTHER_NODES),
    }
}

/// How many small searches for a sketch may find nothing within these limits.
fn small_failures(limits: Limits) -> u32
    ensures { 1 ≤ result }
{
    (limits.nodes / NODES_A_FAILURE + 1).min(SMALL_FAILURES)
}

/// The query was refuted.
pub fn is_refuted(outcome: Outcome) -> bool
    ensures { result ≡ is_refuted outcome }
{
    matches!(outcome, Outcome::Refuted { .. })
}
