ghost use Rattle.std.specs.Prelude.{ℕ, List, ◌≡◌, ◌+◌, ◌*◌, ◌<◌, ◌≤◌, ◌⊎◌, [], IfErr, IfOk, IsTrue, OnOk, false, length, reverse, suc};
ghost use Rattle.price_search.specs.FlatPrices.{FlatPricesSupport};
ghost use Rattle.sketch_findings.specs.Plain.{HasPlainSketch};
ghost use Rattle.query_base.specs.Reach.{Reaches};
ghost use Rattle.cert_text.specs.Seen.{tree_of};
ghost use Rattle.retro_search.specs.Refutable.{IsRefutable, IsShut};
ghost use Rattle.retro_search.specs.Costs.{IsCost};
ghost use Rattle.retro_search.specs.SearchSizes.{IsSearchSize};
ghost use Rattle.retro_search.specs.Searched.{AreCounted, IsCostBelow, IsCounted, IsOpen, IsSizeBelow, IsUnsettled, WhereEachRefutable};
ghost use Rattle.retro_search.specs.Unrefuted.{IfOpen, IfSpent, IfTooLarge};
ghost use Rattle.retro_search.specs.Unsettled.{IsUnpriced};
ghost use Rattle.retro_search.specs.Kept.{IsRefutation, IsSound, KeepsRuleLines, StandsAlone};
ghost use Rattle.retro_search.specs.RuleLines.{IsByRuleLines};
ghost use Rattle.retro_search.specs.Runs.{GoesOn, IsSeeking};
ghost use Rattle.retro_search.specs.Tidy.{HasRoomFor, Keeps};
ghost use Rattle.retro_search.specs.Good.{GoesWell, GoesWellBelow, IsGood, IsGoodBelow, IsPaid};
ghost use Rattle.query_base.specs.Asked.{Asked};

use crate::copying::copied;
use crate::memos::Kept;
use crate::reasoning::by_reason;
use crate::refutations::{Children, MOST_NODES, Refutation};
use crate::runs::{Reasons, Run};
use crate::shutting::shut;
use crate::unrefuted::{OpenLine, Unrefuted, lengthened};
use query_base::{Query, is_array};
use std::alloc::Global;
use unmove_gen::{Unmoves, pred};

/// A refutation by a copy of the tree that is kept.
fn taken(alloc: Global, kept: &Kept) -> Result<Refutation, Unrefuted>
    ensures tree { IfOk result (λ found. tree_of found.node ≡ tree_of kept.now.node) }
    ensures numbers { IfOk result (λ found. (found.lean ≡ 0) × (found.height ≡ kept.now.height) × (found.lines ≡ kept.now.lines)) }
    ensures unrefuted { IfErr result (λ stop. stop ≡ Unrefuted.Memory) }
{
    match copied(alloc, &kept.node) {
        Ok(node) => Ok(Refutation {
            node,
            lean: 0,
            height: kept.height,
            lines: kept.lines,
        }),
        Err(_) => Err(Unrefuted::Memory),
    }
}

/// Keeps the refutation, if it leans on no ancestor. False if out of memory.
fn keep_alone(alloc: Global, query: &Query, found: &Refutation, run: &mut Run) -> bool
    requires sound { IsSound run.old.memo }
    requires alone { found.now.lean ≡ 0 → StandsAlone (tree_of found.now.node) query.now found.now.height found.now.lines }
    ensures on { GoesOn run.old run.new × (run.new.left ≡ run.old.left) }
    ensures lined { KeepsRuleLines run.old.memo → IsByRuleLines (tree_of found.now.node) → KeepsRuleLines run.new.memo }
    ensures kept { IsTrue result → found.now.lean ≡ 0 → HasRoomFor run.old.memo query.now found.now.lines → Keeps run.old.memo query.now found.now run.new.memo }
{
    if found.lean != 0 {
        return true;
    }
    match run.memo.keep(alloc, query, found) {
        Ok(()) => true,
        Err(_) => false,
    }
}

/// The refutation, which leans on no ancestor, kept if there is room.
fn kept_alone(
    alloc: Global,
    query: &Query,
    found: Refutation,
    run: &mut Run,
) -> Result<Refutation, Unrefuted>
    requires sound { IsSound run.old.memo }
    requires alone { found.lean ≡ 0 }
    requires stands { StandsAlone (tree_of found.node) query.now found.height found.lines }
    ensures on { GoesOn run.old run.new × (run.new.left ≡ run.old.left) }
    ensures found { IfOk result (λ same. same ≡ found) }
    ensures memory { IfErr result (λ stop. stop ≡ Unrefuted.Memory) }
{
    if keep_alone(alloc, query, &found, run) {
        Ok(found)
    } else {
        Err(Unrefuted::Memory)
    }
}

/// Refutes the query at this depth below these ancestors, of which the parent comes last, with at most so many visits as are
/// left; else says what stopped it.
#[cycle(searching)]
pub(crate) fn search(
    alloc: Global,
    query: &Query,
    depth: u8,
    ancestors: &mut Vec<Query>,
    run: &mut Run,
) -> Result<Refutation, Unrefuted>
    requires shallow { length ancestors.old.items + depth ≤ 64 }
    requires sound { IsSound run.old.memo }
    requires lined { run.old.reasons ≡ Reasons.RuleLines → KeepsRuleLines run.old.memo }
    requires few { run.old.left ≤ MOST_NODES }
    ensures refuted { IfOk result (λ found. IsRefutation found query.now depth (reverse ancestors.old.items)) }
    ensures unsettled { IfErr result (λ stop. IfOpen stop (λ line. IsUnsettled line query.now depth (reverse ancestors.old.items))) }
    ensures unrefuted { run.old.reasons ≡ Reasons.RuleLines → IfErr result (λ stop. IfOpen stop (λ line. IsOpen line query.now depth (reverse ancestors.old.items))) }
    ensures plain { run.old.reasons ≡ Reasons.RuleLines → IfOk result (λ found. run.old.memo.on ≡ false → found.lines + run.new.left ≤ run.old.left) }
    ensures too_large { run.old.reasons ≡ Reasons.RuleLines → IfErr result (λ stop. IfTooLarge stop (run.old.memo.on ≡ false → ⊥)) }
    ensures twice { IfOk result (λ found. run.old.memo.on ≡ false → found.lines + 2 * run.new.left ≤ 2 * run.old.left) }
    ensures few_visits { IfErr result (λ stop. IfTooLarge stop (run.old.memo.on ≡ false → 250000 < run.old.left)) }
    ensures priced { run.old.reasons ≡ Reasons.All → FlatPricesSupport query.now → IfErr result (λ stop. (stop ≡ Unrefuted.Memory) ⊎ (run.old.left ≡ 0)) }
    ensures sketched { run.old.reasons ≡ Reasons.All → IsSeeking run.old → HasPlainSketch query.now → IfErr result (λ stop. (stop ≡ Unrefuted.Memory) ⊎ (run.old.left ≡ 0)) }
    ensures unpriced { run.old.reasons ≡ Reasons.All → IfErr result (λ stop. IfOpen stop (λ line. IsUnpriced query.now (reverse line.back.items))) }
    ensures cost { OnOk result (IsRefutable query.now depth (reverse ancestors.old.items) → (n : ℕ) → IsCost query.now depth (reverse ancestors.old.items) n → run.old.left ≤ run.new.left + n) }
    ensures spent { IfErr result (λ stop. IfSpent stop (IsCounted run.old.reasons query.now depth (reverse ancestors.old.items) → (n : ℕ) → IsCost query.now depth (reverse ancestors.old.items) n → run.old.left < n)) }
    ensures size { OnOk result ((n : ℕ) → IsSearchSize query.now depth (reverse ancestors.old.items) n → run.old.left ≤ run.new.left + n) }
    ensures outsized { IfErr result (λ stop. IfSpent stop ((n : ℕ) → IsSearchSize query.now depth (reverse ancestors.old.items) n → run.old.left < n)) }
    ensures deep { IfErr result (λ stop. IfOpen stop (λ line. length line.back.items < run.old.left)) }
    ensures on { GoesOn run.old run.new }
    ensures lined { run.old.reasons ≡ Reasons.RuleLines → IfOk result (λ found. IsByRuleLines (tree_of found.node)) }
    ensures keeps { run.old.reasons ≡ Reasons.RuleLines → KeepsRuleLines run.new.memo }
    ensures kept { OnOk result (ancestors.new.items ≡ ancestors.old.items) }
    ensures well { run.old.reasons ≡ Reasons.RuleLines → IfOk result (λ found. (ps : List Asked) (n : ℕ) → IsGood ps n query.now depth (reverse ancestors.old.items) run.old → GoesWell ps n query.now depth (reverse ancestors.old.items) found run.old run.new) }
    ensures paid { run.old.reasons ≡ Reasons.RuleLines → IfErr result (λ stop. (ps : List Asked) (n : ℕ) → IsGood ps n query.now depth (reverse ancestors.old.items) run.old → IfSpent stop (IsPaid ps (reverse ancestors.old.items) run.old.left run.old.memo)) }
    ensures small { run.old.reasons ≡ Reasons.RuleLines → IfErr result (λ stop. (ps : List Asked) (n : ℕ) → IsGood ps n query.now depth (reverse ancestors.old.items) run.old → IfTooLarge stop ⊥) }
{
    if run.is_spent() {
        return Err(Unrefuted::Spent);
    }
    run.left -= 1;
    if let Some(found) = shut(query, ancestors) {
        return Ok(found);
    }
    let at_array = is_array(query);
    if at_array {
        return Err(Unrefuted::Open(OpenLine {
            back: Vec::new(alloc),
            at_array,
        }));
    }
    if let Some(kept) = run.memo.find(query, depth) {
        return taken(alloc, kept);
    }
    let reason = match by_reason(alloc, query, run) {
        Ok(reason) => reason,
        Err(_) => return Err(Unrefuted::Memory),
    };
    if let Some(found) = reason {
        return kept_alone(alloc, query, found, run);
    }
    if depth == 0 {
        return Err(Unrefuted::Open(OpenLine {
            back: Vec::new(alloc),
            at_array,
        }));
    }
    match expand(alloc, query, depth - 1, ancestors, run) {
        Ok(found) => {
            if keep_alone(alloc, query, &found, run) {
                Ok(found)
            } else {
                Err(Unrefuted::Memory)
            }
        }
        Err(stop) => Err(stop),
    }
}

/// Refutes the query, which isn't shut and isn't the array's, by its predecessors at this depth.
#[cycle(searching)]
fn expand(
    alloc: Global,
    query: &Query,
    below: u8,
    ancestors: &mut Vec<Query>,
    run: &mut Run,
) -> Result<Refutation, Unrefuted>
    requires room { length ancestors.old.items + below < 64 }
    requires unshut { IsShut query.now (reverse ancestors.old.items) → ⊥ }
    requires elsewhere { Reaches [] query.now → ⊥ }
    requires sound { IsSound run.old.memo }
    requires lined { run.old.reasons ≡ Reasons.RuleLines → KeepsRuleLines run.old.memo }
    requires few { run.old.left < MOST_NODES }
    ensures refuted { IfOk result (λ found. IsRefutation found query.now (suc below) (reverse ancestors.old.items)) }
    ensures unsettled { IfErr result (λ stop. IfOpen stop (λ line. IsUnsettled line query.now (suc below) (reverse ancestors.old.items))) }
    ensures unrefuted { run.old.reasons ≡ Reasons.RuleLines → IfErr result (λ stop. IfOpen stop (λ line. IsOpen line query.now (suc below) (reverse ancestors.old.items))) }
    ensures plain { run.old.reasons ≡ Reasons.RuleLines → IfOk result (λ found. run.old.memo.on ≡ false → found.lines + run.new.left ≤ run.old.left + 1) }
    ensures too_large { run.old.reasons ≡ Reasons.RuleLines → IfErr result (λ stop. IfTooLarge stop (run.old.memo.on ≡ false → ⊥)) }
    ensures twice { IfOk result (λ found. run.old.memo.on ≡ false → found.lines + 2 * run.new.left ≤ 2 * run.old.left + 1) }
    ensures few_visits { IfErr result (λ stop. IfTooLarge stop (run.old.memo.on ≡ false → 250000 ≤ run.old.left)) }
    ensures unpriced { run.old.reasons ≡ Reasons.All → (FlatPricesSupport query.now → ⊥) → IfErr result (λ stop. IfOpen stop (λ line. IsUnpriced query.now (reverse line.back.items))) }
    ensures cost { OnOk result (WhereEachRefutable query.now below (reverse ancestors.old.items) (λ n. run.old.left ≤ run.new.left + n)) }
    ensures spent { IfErr result (λ stop. IfSpent stop (AreCounted run.old.reasons query.now below (reverse ancestors.old.items) → (n : ℕ) → IsCostBelow query.now below (reverse ancestors.old.items) n → run.old.left < n)) }
    ensures size { OnOk result ((n : ℕ) → IsSizeBelow query.now below (reverse ancestors.old.items) n → run.old.left ≤ run.new.left + n) }
    ensures outsized { IfErr result (λ stop. IfSpent stop ((n : ℕ) → IsSizeBelow query.now below (reverse ancestors.old.items) n → run.old.left < n)) }
    ensures deep { IfErr result (λ stop. IfOpen stop (λ line. length line.back.items ≤ run.old.left)) }
    ensures on { GoesOn run.old run.new }
    ensures lined { run.old.reasons ≡ Reasons.RuleLines → IfOk result (λ found. IsByRuleLines (tree_of found.node)) }
    ensures keeps { run.old.reasons ≡ Reasons.RuleLines → KeepsRuleLines run.new.memo }
    ensures kept { OnOk result (ancestors.new.items ≡ ancestors.old.items) }
    ensures well { run.old.reasons ≡ Reasons.RuleLines → IfOk result (λ found. (ps : List Asked) (m : ℕ) → IsGoodBelow ps m query.now below (reverse ancestors.old.items) run.old → GoesWellBelow ps m query.now below (reverse ancestors.old.items) found run.old run.new) }
    ensures paid { run.old.reasons ≡ Reasons.RuleLines → IfErr result (λ stop. (ps : List Asked) (m : ℕ) → IsGoodBelow ps m query.now below (reverse ancestors.old.items) run.old → IfSpent stop (IsPaid ps (reverse ancestors.old.items) (run.old.left + 1) run.old.memo)) }
    ensures small { run.old.reasons ≡ Reasons.RuleLines → IfErr result (λ stop. (ps : List Asked) (m : ℕ) → IsGoodBelow ps m query.now below (reverse ancestors.old.items) run.old → IfTooLarge stop ⊥) }
{
    match ancestors.push(*query) {
        Ok(()) => {}
        Err(_) => return Err(Unrefuted::Memory),
    }
    let mut children = Children::new(alloc);
    let mut unmoves = Unmoves::new(query);
    while let Some(unmove) = unmoves.next() {
        let found = match search(alloc, &pred(query, &unmove), below, ancestors, run) {
            Ok(found) => found,
            Err(stop) => return Err(lengthened(stop, unmove)),
        };
        match children.add(unmove, found) {
            Ok(()) => {}
            Err(stop) => return Err(stop),
        }
    }
    let _ = ancestors.pop();
    Ok(children.finish())
}
