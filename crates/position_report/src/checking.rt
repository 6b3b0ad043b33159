//! How a proof is checked.

ghost use Rattle.std.specs.Prelude.{◌≡◌, ◌≢◌, ◌++◌, IfOk, IsTrue, None};
ghost use Rattle.query_base.specs.Asked.{IsShortClock};
ghost use Rattle.board_base.specs.Texts.{can_promote};
ghost use Rattle.board_base.specs.Board.{no_odds};
ghost use Rattle.fen_text.specs.OddsLines.{is_no_odds, odds_text};
ghost use Rattle.fen_text.specs.Spelling.{spelling};
ghost use Rattle.cert_text.specs.ClaimLines.{claim_text, promotes_well};
ghost use Rattle.position_report.specs.Proofs.{call_text, check_text, clock_lines, ended, input_text, limits_text, odds_lines, position_lines};

use crate::shown::Shown;
use arrayvec::ArrayVec;
use board_base::{Kind, Odds};
use cert_text::write_claim;
use claim_search::Limits;
use fen_text::{write_clock, write_fen, write_odds};
use prose_words::{push_number, say};
use query_base::{Claim, Query};
use std::alloc::AllocError;

/// Adds a text with a line end.
#[tactic(auto, unfolding(crate::specs::Proofs::ended))]
pub(crate) fn push_line(text: &[u8], out: &mut Vec<u8>) -> Result<(), AllocError>
    ensures { IfOk result (λ _. out.new.items ≡ out.old.items ++ ended text.now) }
{
    say(text, out)?;
    say(b"\n", out)
}

/// Adds a depth and nodes.
#[tactic(auto, unfolding(crate::specs::Proofs::limits_text))]
fn push_limits(limits: Limits, out: &mut Vec<u8>) -> Result<(), AllocError>
    ensures { IfOk result (λ _. out.new.items ≡ out.old.items ++ limits_text limits.depth limits.nodes) }
{
    push_number(limits.depth as usize, out)?;
    say(b" ", out)?;
    push_number(limits.nodes as usize, out)
}

/// Adds a call of the shell: a command, its limits, and what stands behind them.
pub(crate) fn push_call(
    command: &[u8],
    limits: Limits,
    after: &[u8],
    out: &mut Vec<u8>,
) -> Result<(), AllocError>
    ensures { IfOk result (λ _. out.new.items ≡ out.old.items ++ call_text command.now limits.depth limits.nodes after.now) }
{
    say(command, out)?;
    push_limits(limits, out)?;
    say(after, out)
}

/// Whether nobody is left out.
fn is_no_odds(odds: Odds) -> bool
    ensures { result ≡ is_no_odds odds }
{
    odds.is_none()
}

/// Adds the line of the odds, of which there are some.
fn push_some_odds(odds: Odds, out: &mut Vec<u8>) -> Result<(), AllocError>
    requires { odds ≢ no_odds }
    ensures { IfOk result (λ _. out.new.items ≡ out.old.items ++ ended (odds_text odds)) }
{
    let mut text: ArrayVec<u8, 32> = ArrayVec::new();
    write_odds(odds, &mut text);
    push_line(text.as_slice(), out)
}

/// Adds the line of the odds, if there are any.
fn push_odds(odds: Odds, out: &mut Vec<u8>) -> Result<(), AllocError>
    ensures { IfOk result (λ _. out.new.items ≡ out.old.items ++ odds_lines odds) }
{
    if is_no_odds(odds) {
        Ok(())
    } else {
        push_some_odds(odds, out)
    }
}

/// Adds the line of the clock, if one is demanded.
fn push_clock(clock: Option<u16>, out: &mut Vec<u8>) -> Result<(), AllocError>
    requires { IsShortClock clock }
    ensures { IfOk result (λ _. out.new.items ≡ out.old.items ++ clock_lines clock) }
{
    let Some(n) = clock else {
        return Ok(());
    };
    let mut text: ArrayVec<u8, 32> = ArrayVec::new();
    write_clock(n, &mut text);
    push_line(text.as_slice(), out)
}

/// Adds the line of a position in FEN.
fn push_fen(query: &Query, out: &mut Vec<u8>) -> Result<(), AllocError>
    requires { query.now.barred ≡ None }
    ensures { IfOk result (λ _. out.new.items ≡ out.old.items ++ ended (spelling query.now)) }
{
    let mut text: ArrayVec<u8, 128> = ArrayVec::new();
    write_fen(query, &mut text);
    push_line(text.as_slice(), out)
}

/// Adds the lines of a position, as commands read them.
#[tactic(auto, unfolding(crate::specs::Proofs::position_lines))]
pub(crate) fn push_position(query: &Query, out: &mut Vec<u8>) -> Result<(), AllocError>
    requires { query.now.barred ≡ None }
    ensures { IfOk result (λ _. out.new.items ≡ out.old.items ++ position_lines query.now) }
{
    push_odds(query.odds, out)?;
    push_clock(query.clock, out)?;
    push_fen(query, out)
}

/// Whether a text can say what a pawn became.
fn can_promote(promo: Option<Kind>) -> bool
    ensures { result ≡ can_promote promo }
{
    match promo {
        None => true,
        Some(Kind::Pawn) => false,
        Some(Kind::King) => false,
        Some(Kind::Knight) => true,
        Some(Kind::Bishop) => true,
        Some(Kind::Rook) => true,
        Some(Kind::Queen) => true,
    }
}

/// Whether the claim has a text.
fn has_text(claim: &Claim) -> bool
    ensures { result ≡ promotes_well claim.now }
{
    match claim {
        Claim::Illegal => true,
        Claim::Last(m) => can_promote(m.promo),
        Claim::Lost(_) => true,
        Claim::Ep(m) => m.promo.is_none(),
    }
}

/// Adds the line of a claim that has a text.
fn push_claim(claim: &Claim, out: &mut Vec<u8>) -> Result<(), AllocError>
    requires { IsTrue (promotes_well claim.now) }
    ensures { IfOk result (λ _. out.new.items ≡ out.old.items ++ ended (claim_text claim.now)) }
{
    let mut text: ArrayVec<u8, 128> = ArrayVec::new();
    write_claim(claim, &mut text);
    push_line(text.as_slice(), out)
}

/// Adds how `settle` writes the certificate, and `check` takes it.
fn push_input(limits: Limits, shown: &Shown, out: &mut Vec<u8>) -> Result<(), AllocError>
    requires plain { shown.now.query.barred ≡ None }
    requires text { IsTrue (promotes_well shown.now.claim) }
    ensures { IfOk result (λ _. out.new.items ≡ out.old.items ++ input_text limits.depth limits.nodes shown.now) }
{
    push_call(
        b"To check it:\nretractor settle ",
        limits,
        b" << END | retractor check\n",
        out,
    )?;
    push_claim(&shown.claim, out)?;
    push_position(&shown.query, out)?;
    say(b"END\n", out)
}

/// Adds how to check a proof, if its claim has a text.
pub(crate) fn push_check(limits: Limits, shown: &Shown, out: &mut Vec<u8>) -> Result<(), AllocError>
    requires { shown.now.query.barred ≡ None }
    ensures { IfOk result (λ _. out.new.items ≡ out.old.items ++ check_text limits.depth limits.nodes shown.now) }
{
    if has_text(&shown.claim) {
        push_input(limits, shown, out)
    } else {
        Ok(())
    }
}
