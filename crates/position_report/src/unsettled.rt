//! Which rights are open, and where the search gets stuck.

ghost use Rattle.std.specs.Prelude.{◌≡◌, ◌∷◌, ◌++◌, [], IfOk, IfSome, None};
ghost use Rattle.std.specs.List.{All, flat_map};
ghost use Rattle.query_base.specs.Targets.{target};
ghost use Rattle.line_claims.specs.Due.{with_both};
ghost use Rattle.line_claims.specs.Listing.{AreListed};
ghost use Rattle.unmove_gen.specs.Predecessor.{left_by};
ghost use Rattle.codex_verdict.specs.Rights.{claim_of};
ghost use Rattle.position_report.specs.Open.{all_open, front_text, if_open, is_lost, open_as, open_pair, open_right, stuck_text};
ghost use Rattle.position_report.specs.Told.{AreTold};

use crate::runs::{Run, push_run, push_run_before, run_behind};
use board_base::{Unmove, UnmoveList};
use codex_verdict::claim_of;
use diagram_study::{Finding, Found, PairFound, RightFound, is_open, with_both};
use proof_prose::draw;
use query_base::{Query, target};
use std::alloc::{AllocError, Global};
use unmove_gen::pred;
use verdict_prose::{Verdict, tell_open_line, tell_verdict};

/// What is to be reached before these retractions of a query, the last move first.
fn before_all(query: &Query, steps: &[Unmove]) -> Query
    requires { AreListed query.now steps.now }
    ensures { result ≡ left_by query.now steps.now }
{
    match steps {
        [] => *query,
        [u, others @ ..] => before_all(&pred(query, u), others),
    }
}

/// The retractions of a list.
fn steps_of(alloc: Global, front: &UnmoveList) -> Result<Vec<Unmove>, AllocError>
    ensures { IfOk result (λ steps. steps.items ≡ front.now) }
{
    let mut steps = Vec::new(alloc);
    for i in 0..front.len() {
        steps.push(front.get(i).unwrap())?;
    }
    Ok(steps)
}

/// Adds with which moves a line ends that stays open, and what was before them, if there are any.
fn push_front(
    alloc: Global,
    query: &Query,
    steps: &[Unmove],
    out: &mut Vec<u8>,
) -> Result<(), AllocError>
    requires { AreListed query.now steps.now }
    ensures { IfOk result (λ _. out.new.items ≡ out.old.items ++ front_text query.now steps.now) }
{
    match steps {
        [] => Ok(()),
        [_, ..] => {
            tell_open_line(alloc, query, steps, out)?;
            draw(alloc, &before_all(query, steps), out)
        }
    }
}

/// Adds where the search gets stuck, if it is known.
fn push_stuck(
    alloc: Global,
    query: &Query,
    stuck: &Option<UnmoveList>,
    out: &mut Vec<u8>,
) -> Result<(), AllocError>
    requires { IfSome stuck.now (AreListed query.now) }
    ensures { IfOk result (λ _. out.new.items ≡ out.old.items ++ stuck_text query.now stuck.now) }
{
    match stuck {
        None => Ok(()),
        Some(front) => {
            let steps = steps_of(alloc, front)?;
            push_front(alloc, query, steps.as_slice(), out)
        }
    }
}

/// Whether the search gets lost in quiet moves: it gets stuck, and no line is shown.
fn is_lost(stuck: &Option<UnmoveList>) -> bool
    ensures { result ≡ is_lost stuck.now }
{
    match stuck {
        None => false,
        Some(front) => front.len() == 0,
    }
}

/// Adds a claim behind a run: that it isn't settled, and where the search gets stuck at its target. The run behind it.
fn push_claim(
    alloc: Global,
    query: &Query,
    said: &Verdict,
    at_target: &Query,
    stuck: &Option<UnmoveList>,
    run: Run,
    out: &mut Vec<u8>,
) -> Result<Run, AllocError>
    requires { IfSome stuck.now (AreListed at_target.now) }
    ensures { IfOk result (λ behind. AreTold query.now (open_as said.now at_target.now stuck.now ∷ []) run behind out.old.items out.new.items) }
{
    let lost = is_lost(stuck);
    push_run_before(lost, run, out)?;
    tell_verdict(alloc, query, said, out)?;
    push_stuck(alloc, at_target, stuck, out)?;
    Ok(run_behind(lost, run))
}

/// Adds the same, if it isn't settled.
fn push_open(
    alloc: Global,
    query: &Query,
    said: &Verdict,
    at_target: &Query,
    finding: Finding,
    stuck: &Option<UnmoveList>,
    run: Run,
    out: &mut Vec<u8>,
) -> Result<Run, AllocError>
    requires { IfSome stuck.now (AreListed at_target.now) }
    ensures { IfOk result (λ behind. AreTold query.now (if_open finding (open_as said.now at_target.now stuck.now)) run behind out.old.items out.new.items) }
{
    if !is_open(finding) {
        return Ok(run);
    }
    push_claim(alloc, query, said, at_target, stuck, run, out)
}

/// Adds a right that isn't settled. The run behind it.
fn push_right(
    alloc: Global,
    query: &Query,
    found: &RightFound,
    run: Run,
    out: &mut Vec<u8>,
) -> Result<Run, AllocError>
    requires plain { query.now.barred ≡ None }
    requires listed { IfSome found.now.stuck (AreListed (target query.now (claim_of found.now.right))) }
    ensures { IfOk result (λ behind. AreTold query.now (open_right query.now found.now) run behind out.old.items out.new.items) }
{
    let claim = claim_of(&found.right);
    let at_target = target(query, &claim);
    push_open(
        alloc,
        query,
        &Verdict::Unsettled(claim),
        &at_target,
        found.finding,
        &found.stuck,
        run,
        out,
    )
}

/// Adds the rights that aren't settled. The run behind them.
fn push_rights(
    alloc: Global,
    query: &Query,
    rights: &[RightFound],
    before: Run,
    out: &mut Vec<u8>,
) -> Result<Run, AllocError>
    requires plain { query.now.barred ≡ None }
    requires listed { All (λ f. IfSome f.stuck (AreListed (target query.now (claim_of f.right)))) rights.now }
    ensures { IfOk result (λ behind. AreTold query.now (flat_map (open_right query.now) rights.now) before behind out.old.items out.new.items) }
{
    let mut run = before;
    for f in rights {
        run = push_right(alloc, query, f, run, out)?;
    }
    Ok(run)
}

/// Adds two castlings of which it isn't settled whether both can be kept. The run behind them.
fn push_pair(
    alloc: Global,
    query: &Query,
    pair: &PairFound,
    run: Run,
    out: &mut Vec<u8>,
) -> Result<Run, AllocError>
    requires { IfSome pair.now.stuck (AreListed (with_both query.now pair.now.first pair.now.second)) }
    ensures { IfOk result (λ behind. AreTold query.now (open_pair query.now pair.now) run behind out.old.items out.new.items) }
{
    let both = with_both(query, pair.first, pair.second);
    push_open(
        alloc,
        query,
        &Verdict::UnsettledBoth(pair.first, pair.second),
        &both,
        pair.finding,
        &pair.stuck,
        run,
        out,
    )
}

/// Adds those of each two. The run behind them.
fn push_pairs(
    alloc: Global,
    query: &Query,
    pairs: &[PairFound],
    before: Run,
    out: &mut Vec<u8>,
) -> Result<Run, AllocError>
    requires { All (λ f. IfSome f.stuck (AreListed (with_both query.now f.first f.second))) pairs.now }
    ensures { IfOk result (λ behind. AreTold query.now (flat_map (open_pair query.now) pairs.now) before behind out.old.items out.new.items) }
{
    let mut run = before;
    for f in pairs {
        run = push_pair(alloc, query, f, run, out)?;
    }
    Ok(run)
}

/// The rights that aren't settled, in the order of a study.
pub(crate) fn open_part(alloc: Global, query: &Query, found: &Found) -> Result<Vec<u8>, AllocError>
    requires plain { query.now.barred ≡ None }
    requires rights { All (λ f. IfSome f.stuck (AreListed (target query.now (claim_of f.right)))) found.now.rights.items }
    requires pairs { All (λ f. IfSome f.stuck (AreListed (with_both query.now f.first f.second))) found.now.pairs.items }
    ensures { IfOk result (λ part. part.items ≡ all_open query.now found.now) }
{
    let mut part = Vec::new(alloc);
    let first = push_rights(alloc, query, found.rights.as_slice(), Run::Empty, &mut part)?;
    let last = push_pairs(alloc, query, found.pairs.as_slice(), first, &mut part)?;
    push_run(last, &mut part)?;
    Ok(part)
}
