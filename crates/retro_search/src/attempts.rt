ghost use Rattle.std.specs.Prelude.{◌≡◌, ◌≤◌, ◌⊎◌, IfErr, false};
ghost use Rattle.retro_search.specs.Attempts.{ComesTo, IsPaidSearch};
ghost use Rattle.sketch_findings.specs.Plain.{HasPlainSketch};
ghost use Rattle.retro_search.specs.Runs.{IsReady, IsSeeking};
ghost use Rattle.retro_search.specs.Tidy.{IsFresh};
ghost use Rattle.retro_search.specs.Unrefuted.{IfTooLarge};

use crate::limits::Limits;
use crate::refutations::Refutation;
use crate::runs::{Reasons, Run};
use crate::searching::search;
use crate::unrefuted::Unrefuted;
use query_base::Query;
use std::alloc::Global;

/// Refutes the query within these limits; else says what stopped it.
fn attempt(
    alloc: Global,
    query: &Query,
    limits: Limits,
    run: &mut Run,
) -> Result<Refutation, Unrefuted>
    requires { IsReady run.old }
    ensures plain { run.old.reasons ≡ Reasons.RuleLines → run.old.memo.on ≡ false → IfErr result (λ why. IfTooLarge why ⊥) }
    ensures few_nodes { run.old.memo.on ≡ false → limits.nodes ≤ 250000 → IfErr result (λ why. IfTooLarge why ⊥) }
    ensures comes { ComesTo result query.now limits.depth limits.nodes run.old.reasons }
    ensures sketched { run.old.reasons ≡ Reasons.All → IsSeeking run.old → HasPlainSketch query.now → IfErr result (λ stop. (stop ≡ Unrefuted.Memory) ⊎ (limits.nodes ≡ 0)) }
    ensures lone { run.old.reasons ≡ Reasons.RuleLines → IsFresh run.old.memo → IsPaidSearch result query.now limits.depth limits.nodes }
    ensures ready { IsReady run.new }
    ensures on { run.new.memo.on ≡ run.old.memo.on }
    ensures reasons { run.new.reasons ≡ run.old.reasons }
{
    run.left = limits.nodes;
    let mut ancestors = Vec::new(alloc);
    search(alloc, query, limits.depth, &mut ancestors, run)
}

/// The same with no refutation kept, by these reasons; or by rule lines alone, if the tree grows too large even so.
fn refute_bare(
    alloc: Global,
    query: &Query,
    limits: Limits,
    reasons: Reasons,
) -> Result<Refutation, Unrefuted>
    ensures comes { ComesTo result query.now limits.depth limits.nodes reasons }
    ensures small { IfErr result (λ why. IfTooLarge why ⊥) }
{
    let mut bare = Run::bare(alloc, reasons);
    match attempt(alloc, query, limits, &mut bare) {
        Ok(found) => Ok(found),
        Err(Unrefuted::TooLarge) => {
            let mut plain = Run::bare(alloc, Reasons::RuleLines);
            attempt(alloc, query, limits, &mut plain)
        }
        Err(why) => Err(why),
    }
}

/// Refutes the query within these limits, with each part of the tree written down where it is needed; if the tree grows too large,
/// without a memo, since then it has no more nodes than were visited.
pub(crate) fn refute(
    alloc: Global,
    query: &Query,
    limits: Limits,
    run: &mut Run,
) -> Result<Refutation, Unrefuted>
    requires { IsReady run.old }
    ensures comes { ComesTo result query.now limits.depth limits.nodes run.old.reasons }
    ensures small { IfErr result (λ why. IfTooLarge why ⊥) }
    ensures sketched { run.old.reasons ≡ Reasons.All → IsSeeking run.old → HasPlainSketch query.now → IfErr result (λ stop. (stop ≡ Unrefuted.Memory) ⊎ (limits.nodes ≡ 0)) }
    ensures lone { run.old.reasons ≡ Reasons.RuleLines → IsFresh run.old.memo → IsPaidSearch result query.now limits.depth limits.nodes }
    ensures ready { IsReady run.new }
    ensures on { run.new.memo.on ≡ run.old.memo.on }
    ensures reasons { run.new.reasons ≡ run.old.reasons }
{
    match attempt(alloc, query, limits, run) {
        Ok(found) => Ok(found),
        Err(Unrefuted::TooLarge) => refute_bare(alloc, query, limits, run.reasons),
        Err(why) => Err(why),
    }
}
