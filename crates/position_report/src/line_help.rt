//! How a proof of last moves is to be had.

ghost use Rattle.std.specs.Prelude.{◌≡◌, ◌∷◌, ◌++◌, [], IfOk, IfSome, IsTrue, None};
ghost use Rattle.line_claims.specs.Lines.{HasLine, has_text, line_claim_text};
ghost use Rattle.line_claims.specs.declared.claims.LineClaim.TheVariants.{Line as IsLine};
ghost use Rattle.position_report.specs.LastMoves.{proved_steps, steps_in};
ghost use Rattle.position_report.specs.Proofs.{ended, line_help, line_input, lone_help, lone_words};

use crate::checking::{push_call, push_line, push_position};
use arrayvec::ArrayVec;
use board_base::Unmove;
use claim_search::Limits;
use diagram_study::StepsFound;
use line_claims::{LineClaim, StepList, write_line_claim};
use prose_words::say;
use query_base::Query;
use std::alloc::AllocError;

/// Adds the line of the claim.
fn push_claim(claim: &LineClaim, out: &mut Vec<u8>) -> Result<(), AllocError>
    requires { HasLine claim.now }
    ensures { IfOk result (λ _. out.new.items ≡ out.old.items ++ ended (line_claim_text claim.now)) }
{
    let mut text: ArrayVec<u8, 160> = ArrayVec::new();
    write_line_claim(claim, &mut text);
    push_line(text.as_slice(), out)
}

/// Adds how `dossier` writes a proof of last moves, and `explain` tells it, behind these words.
fn push_input(
    words: &[u8],
    query: &Query,
    limits: Limits,
    claim: &LineClaim,
    out: &mut Vec<u8>,
) -> Result<(), AllocError>
    requires plain { query.now.barred ≡ None }
    requires text { HasLine claim.now }
    ensures { IfOk result (λ _. out.new.items ≡ out.old.items ++ line_input words.now limits.depth limits.nodes query.now claim.now) }
{
    push_call(words, limits, b" << END | retractor explain\n", out)?;
    push_claim(claim, out)?;
    push_position(query, out)?;
    say(b"END\n", out)
}

/// The claim that the last move was this one.
fn claim_of_one(u: Unmove) -> LineClaim
    requires { IsTrue (has_text u) }
    ensures is { result ≡ IsLine (u ∷ []) }
    ensures text { HasLine result }
{
    LineClaim::Line(StepList::new(&[u]).unwrap())
}

/// Adds how a proof of one last move is to be had, with what it captured.
fn push_one(query: &Query, limits: Limits, u: Unmove, out: &mut Vec<u8>) -> Result<(), AllocError>
    requires plain { query.now.barred ≡ None }
    requires text { IsTrue (has_text u) }
    ensures { IfOk result (λ _. out.new.items ≡ out.old.items ++ line_input (lone_words u.captured) limits.depth limits.nodes query.now (IsLine (u ∷ []))) }
{
    let captured = u.captured;
    let claim = claim_of_one(u);
    match captured {
        None => push_input(
            b"For a proof of the last move, and that it captured nothing:\nretractor dossier ",
            query,
            limits,
            &claim,
            out,
        ),
        Some(_) => push_input(
            b"For a proof of the last move, with what it captured:\nretractor dossier ",
            query,
            limits,
            &claim,
            out,
        ),
    }
}

/// Adds the same, if there is one retraction of which to ask.
fn push_lone(
    query: &Query,
    limits: Limits,
    lone: Option<Unmove>,
    out: &mut Vec<u8>,
) -> Result<(), AllocError>
    requires plain { query.now.barred ≡ None }
    requires text { IfSome lone (λ u. IsTrue (has_text u)) }
    ensures { IfOk result (λ _. out.new.items ≡ out.old.items ++ lone_help limits.depth limits.nodes query.now lone) }
{
    match lone {
        None => Ok(()),
        Some(u) => push_one(query, limits, u, out),
    }
}

/// Adds how a proof of several last moves is to be had, if the claim is one about them; otherwise of the one.
fn push_of_line(
    query: &Query,
    limits: Limits,
    claim: &LineClaim,
    lone: Option<Unmove>,
    out: &mut Vec<u8>,
) -> Result<(), AllocError>
    requires plain { query.now.barred ≡ None }
    requires text { HasLine claim.now }
    requires lone { IfSome lone (λ u. IsTrue (has_text u)) }
    ensures { IfOk result (λ _. out.new.items ≡ out.old.items ++ line_help limits.depth limits.nodes query.now (steps_in claim.now) lone) }
{
    match claim {
        LineClaim::NotBoth(_, _) => push_lone(query, limits, lone, out),
        LineClaim::Line(_) => push_input(
            b"For a proof of the last moves:\nretractor dossier ",
            query,
            limits,
            claim,
            out,
        ),
    }
}

/// Adds how a proof of several last moves is to be had, if they are proved; otherwise of the one, if there is such a retraction.
pub(crate) fn push_line_help(
    query: &Query,
    limits: Limits,
    found: &Option<StepsFound>,
    lone: Option<Unmove>,
    out: &mut Vec<u8>,
) -> Result<(), AllocError>
    requires plain { query.now.barred ≡ None }
    requires text { IfSome found.now (λ f. HasLine f.claim) }
    requires lone { IfSome lone (λ u. IsTrue (has_text u)) }
    ensures { IfOk result (λ _. out.new.items ≡ out.old.items ++ line_help limits.depth limits.nodes query.now (proved_steps found.now) lone) }
{
    let Some(found) = found else {
        return push_lone(query, limits, lone, out);
    };
    if found.finding.is_proved() {
        push_of_line(query, limits, &found.claim, lone, out)
    } else {
        push_lone(query, limits, lone, out)
    }
}
