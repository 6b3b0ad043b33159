//! Claims of several steps in words.

ghost use Rattle.std.specs.Prelude.{◌≡◌, ◌++◌, IfOk, codes, length, true};
ghost use Rattle.std.specs.Fmt.{decimal};
ghost use Rattle.dossier_prose.specs.Claims.{closing_text, count_words, line_words, moves_words, opening_text, right_words, rights_words, separator, step_words};
ghost use Rattle.proof_story.specs.Rows.{rows_of};
ghost use Rattle.line_claims.specs.Listing.{AreListed, HasParts};

use board_base::{Castle, Unmove};
use line_claims::LineClaim;
use proof_prose::{draw, push_label};
use proof_story::push_wrapped;
use prose_words::{push_number, say, side_word, wing_word};
use query_base::Query;
use std::alloc::{AllocError, Global};
use unmove_gen::pred;

/// A right to castle.
fn push_right(castle: Castle, out: &mut Vec<u8>) -> Result<(), AllocError>
    ensures { IfOk result (λ _. out.new.items ≡ out.old.items ++ right_words castle) }
{
    say(side_word(castle.side()), out)?;
    say(b"'s on the ", out)?;
    say(wing_word(castle), out)?;
    say(b" side", out)
}

/// That one of two rights to castle is lost.
fn push_rights(first: Castle, second: Castle, out: &mut Vec<u8>) -> Result<(), AllocError>
    ensures { IfOk result (λ _. out.new.items ≡ out.old.items ++ rights_words first second) }
{
    say(b"at least one of these two rights to castle is lost: ", out)?;
    push_right(first, out)?;
    say(b", ", out)?;
    push_right(second, out)
}

/// What stands between a move and the one before it.
fn separator(first: bool) -> &'static [u8]
    ensures { result.now ≡ separator first }
{
    if first { b"" } else { b"; " }
}

/// The move of a step.
fn push_step(first: bool, query: &Query, step: &Unmove, out: &mut Vec<u8>) -> Result<(), AllocError>
    ensures { IfOk result (λ _. out.new.items ≡ out.old.items ++ step_words first query.now step.now) }
{
    say(separator(first), out)?;
    push_label(query, step, out)
}

/// The moves of the steps, the last move first.
fn push_moves(query: &Query, steps: &[Unmove], out: &mut Vec<u8>) -> Result<(), AllocError>
    requires { AreListed query.now steps.now }
    ensures { IfOk result (λ _. out.new.items ≡ out.old.items ++ moves_words true query.now steps.now) }
{
    let mut left = *query;
    let mut first = true;
    for step in steps {
        push_step(first, &left, step, out)?;
        left = pred(&left, step);
        first = false;
    }
    Ok(())
}

/// That several moves are spoken of.
fn push_several(count: usize, out: &mut Vec<u8>) -> Result<(), AllocError>
    ensures { IfOk result (λ _. out.new.items ≡ out.old.items ++ (codes "the last " ++ decimal count ++ codes " moves were, the last one first: ")) }
{
    say(b"the last ", out)?;
    push_number(count, out)?;
    say(b" moves were, the last one first: ", out)
}

/// Of how many moves is spoken.
fn push_count(count: usize, out: &mut Vec<u8>) -> Result<(), AllocError>
    ensures { IfOk result (λ _. out.new.items ≡ out.old.items ++ count_words count) }
{
    if count == 1 {
        say(b"the last move was ", out)
    } else {
        push_several(count, out)
    }
}

/// Which moves were the last ones.
fn push_steps(query: &Query, steps: &[Unmove], out: &mut Vec<u8>) -> Result<(), AllocError>
    requires { AreListed query.now steps.now }
    ensures { IfOk result (λ _. out.new.items ≡ out.old.items ++ (count_words (length steps.now) ++ moves_words true query.now steps.now)) }
{
    push_count(steps.len(), out)?;
    push_moves(query, steps, out)
}

/// What is claimed.
fn push_claim(claim: &LineClaim, query: &Query, out: &mut Vec<u8>) -> Result<(), AllocError>
    requires { HasParts claim.now query.now }
    ensures { IfOk result (λ _. out.new.items ≡ out.old.items ++ line_words claim.now query.now) }
{
    match claim {
        LineClaim::NotBoth(first, second) => push_rights(*first, *second, out),
        LineClaim::Line(steps) => push_steps(query, steps.items(), out),
    }
}

/// Rows that say what is claimed, between these words.
fn push_claim_rows(
    alloc: Global,
    before: &[u8],
    claim: &LineClaim,
    query: &Query,
    after: &[u8],
    out: &mut Vec<u8>,
) -> Result<(), AllocError>
    requires { HasParts claim.now query.now }
    ensures { IfOk result (λ _. out.new.items ≡ out.old.items ++ rows_of (before.now ++ line_words claim.now query.now ++ after.now)) }
{
    let mut line = Vec::new(alloc);
    say(before, &mut line)?;
    push_claim(claim, query, &mut line)?;
    say(after, &mut line)?;
    push_wrapped(line.as_slice(), out)
}

/// The diagram, what is given beside it, and the claim.
pub(crate) fn push_opening(
    alloc: Global,
    claim: &LineClaim,
    query: &Query,
    out: &mut Vec<u8>,
) -> Result<(), AllocError>
    requires { HasParts claim.now query.now }
    ensures { IfOk result (λ _. out.new.items ≡ out.old.items ++ opening_text claim.now query.now) }
{
    draw(alloc, query, out)?;
    push_claim_rows(alloc, b"Claim: ", claim, query, b".", out)
}

/// The claim again, after an empty row.
pub(crate) fn push_closing(
    alloc: Global,
    claim: &LineClaim,
    query: &Query,
    out: &mut Vec<u8>,
) -> Result<(), AllocError>
    requires { HasParts claim.now query.now }
    ensures { IfOk result (λ _. out.new.items ≡ out.old.items ++ closing_text claim.now query.now) }
{
    say(b"\n", out)?;
    push_claim_rows(alloc, b"So ", claim, query, b". QED", out)
}
