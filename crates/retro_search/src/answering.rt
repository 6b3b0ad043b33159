ghost use Rattle.std.specs.Prelude.{◌≡◌, IfErr, IfOk, IsTrue, None, map, reverse};
ghost use Rattle.cert_text.specs.Writable.{stays_on_board, IsQuery};
ghost use Rattle.query_base.specs.Targets.{target};
ghost use Rattle.sketch_findings.specs.Plain.{HasPlainSketch};
ghost use Rattle.retro_search.specs.Answers.{IsAnswer, IsProved};
ghost use Rattle.retro_search.specs.Runs.{IsReady, IsSeeking};
ghost use Rattle.retro_search.specs.Told.{IsTold, Tells, TellsOpenLine};
ghost use Rattle.retro_search.specs.Unrefuted.{IfTooLarge};

use crate::answers::Found;
use crate::attempts::refute;
use crate::limits::Limits;
use crate::refutations::Refutation;
use crate::runs::{Reasons, Run};
use crate::shared_lines::with_lines_shared;
use crate::unrefuted::{OpenLine, Unrefuted};
use board_base::{Memory, MoveList, Unmove, UnmoveList};
use cert_text::Cert;
use query_base::{Claim, Query, target};
use std::alloc::Global;

/// The moves of these unmoves, in order.
fn moves_of(alloc: Global, unmoves: &[Unmove]) -> Result<MoveList, Memory>
    ensures { IfOk result (λ l. l ≡ map (λ u. u.mv) unmoves.now) }
{
    let mut moves = MoveList::new(alloc);
    for unmove in unmoves {
        moves.push(unmove.mv)?;
    }
    Ok(moves)
}

/// The unmoves, the last first.
fn reversed(alloc: Global, unmoves: &[Unmove]) -> Result<UnmoveList, Memory>
    ensures { IfOk result (λ l. l ≡ reverse unmoves.now) }
{
    let mut line = UnmoveList::new(alloc);
    for i in 0..unmoves.len() {
        line.push(unmoves[unmoves.len() - 1 - i])?;
    }
    Ok(line)
}

/// The answer if this line stays open: a game if it ends at the array.
fn open_answer(alloc: Global, line: &OpenLine) -> Result<Found, Memory>
    ensures { IfOk result (TellsOpenLine line.now) }
{
    if line.at_array {
        Ok(Found::Countered(moves_of(alloc, &line.back)?))
    } else {
        Ok(Found::Undecided(reversed(alloc, &line.back)?))
    }
}

/// Tells the caller what every query and every claim keeps, and does nothing when it runs.
fn are_known(query: &Query, claim: &Claim)
    ensures query { IsQuery query.now }
    ensures claim { IsTrue (stays_on_board claim.now) }
{
    query.board.is_whole();
    query.odds.set();
    match claim {
        Claim::Illegal | Claim::Lost(_) => {}
        Claim::Last(m) | Claim::Ep(m) => {
            m.from.index();
            m.to.index();
        }
    }
}

/// What is answered of the claim, if the search of its target with so many nodes came to this.
fn told(
    alloc: Global,
    query: &Query,
    claim: &Claim,
    nodes: u32,
    came: Result<Refutation, Unrefuted>,
) -> Result<Found, Memory>
    requires { IfErr came (λ why. IfTooLarge why ⊥) }
    ensures { IfOk result (Tells claim.now query.now nodes came) }
{
    match came {
        Ok(found) => Ok(Found::Proved(Cert {
            claim: *claim,
            query: *query,
            root: found.node,
        })),
        Err(Unrefuted::Open(line)) => open_answer(alloc, &line),
        Err(Unrefuted::Spent) => Ok(Found::Spent { visited: nodes }),
        Err(Unrefuted::TooLarge) => unreachable!(),
        Err(Unrefuted::Memory) => Err(Memory),
    }
}

/// What is answered of the claim within these limits: its target is refuted by what the run has at hand, or it is told what stopped it.
pub(crate) fn answer(
    alloc: Global,
    query: &Query,
    claim: &Claim,
    limits: Limits,
    run: &mut Run,
) -> Result<Found, Memory>
    requires unbarred { query.now.barred ≡ None }
    requires ready { IsReady run.old }
    ensures answer { IfOk result (IsAnswer limits.depth limits.nodes claim.now query.now) }
    ensures told { IfOk result (IsTold limits.depth limits.nodes run.old claim.now query.now) }
    ensures sketched { run.old.reasons ≡ Reasons.All → IsSeeking run.old → HasPlainSketch (target query.now claim.now) → IfOk result IsProved }
    ensures ready { IsReady run.new }
    ensures on { run.new.memo.on ≡ run.old.memo.on }
    ensures reasons { run.new.reasons ≡ run.old.reasons }
{
    are_known(query, claim);
    let asked = target(query, claim);
    let came = refute(alloc, &asked, limits, run);
    let shared = with_lines_shared(alloc, &asked, run.reasons, came);
    told(alloc, query, claim, limits.nodes, shared)
}
