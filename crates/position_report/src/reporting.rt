//! A report.

ghost use Rattle.std.specs.Prelude.{List, ℕ, ◌≡◌, ◌++◌, [], IfOk, None, Option, Some, length};
ghost use Rattle.std.specs.List.{All};
ghost use Rattle.board_base.specs.declared.unmoves.Unmove.{Unmove as AnUnmove};
ghost use Rattle.query_base.specs.Reach.{Holds};
ghost use Rattle.query_base.specs.declared.claims.Claim.TheVariants.{Illegal};
ghost use Rattle.unmove_gen.specs.Listed.{unmoves};
ghost use Rattle.ledger_prose.specs.Sentences.{sentences_of};
ghost use Rattle.ledger_prose.specs.Words.{prose_text};
ghost use Rattle.diagram_study.specs.ClaimFindings.{IsFound};
ghost use Rattle.diagram_study.specs.Findings.{AreFindings, CanBeWritten, HasTexts, IsFoundOf, other_side};
ghost use Rattle.verdict_prose.specs.LastMoves.{EndsWithOneOf, WereLast};
ghost use Rattle.position_report.specs.Held.{held_prose};
ghost use Rattle.position_report.specs.LastMoves.{HasLone, TellsLast, proved_steps};
ghost use Rattle.position_report.specs.Lengths.{TellsGame, length_text};
ghost use Rattle.position_report.specs.Proofs.{TellsProofs, line_help};
ghost use Rattle.position_report.specs.Reports.{IsPlainFound, IsReport, PlainIsFound, TellsFindings, TellsFound, TellsImpossible, verdicts_text};
ghost use Rattle.position_report.specs.Sayings.{impossible_of, shown_of, unsettled_text};
ghost use Rattle.position_report.specs.Told.{HaveEnds};

use crate::asking::{last_part, plain_part};
use crate::games::{other_part, push_first, push_length};
use crate::held::push_each_held;
use crate::last_moves::{lone_step, push_last};
use crate::line_help::push_line_help;
use crate::parts::push_part;
use crate::proofs::push_proofs;
use crate::sayings::{impossible_of, push_unsettled, shown_of};
use crate::shown::{Shown, illegal_shown, shown_claims};
use crate::unsettled::open_part;
use board_base::MoveList;
use claim_search::Limits;
use diagram_study::{
    Finding, Findings, Found, Games, Searchers, Subject, find, makes_demands, without_demands,
};
use ledger_prose::{news_hold, sentences_hold, tell_ledger_prose};
use ledger_told::told_lines_hold;
use proof_prose::draw;
use query_base::Query;
use std::alloc::{AllocError, Global};
use verdict_prose::{Verdict, tell_verdict};

/// Adds the sentences of these verdicts.
fn push_verdicts(
    alloc: Global,
    query: &Query,
    verdicts: &[Verdict],
    out: &mut Vec<u8>,
) -> Result<(), AllocError>
    ensures { IfOk result (λ _. out.new.items ≡ out.old.items ++ verdicts_text query.now verdicts.now) }
{
    for verdict in verdicts {
        tell_verdict(alloc, query, verdict, out)?;
    }
    Ok(())
}

/// What is said of a position, and of the last moves.
fn said_part(alloc: Global, query: &Query, found: &Found) -> Result<Vec<u8>, AllocError>
    requires line { (steps : List AnUnmove) → proved_steps found.now.steps ≡ Some steps → WereLast query.now steps }
    requires among { EndsWithOneOf query.now found.now.left }
    requires all { found.now.all ≡ length (unmoves query.now) }
    requires ends { HaveEnds query.now found.now.left found.now.ends }
    ensures { IfOk result (λ part. (last : List ℕ) × TellsLast query.now found.now last × (part.items ≡ unsettled_text found.now.illegal.finding ++ verdicts_text query.now (shown_of query.now found.now) ++ last)) }
{
    let verdicts = shown_of(alloc, query, found)?;
    let mut part = Vec::new(alloc);
    push_unsettled(found.illegal.finding, &mut part)?;
    push_verdicts(alloc, query, verdicts.as_slice(), &mut part)?;
    push_last(alloc, query, found, &mut part)?;
    Ok(part)
}

/// The ledger in a paragraph.
fn ledger_part(alloc: Global, query: &Query, found: &Found) -> Result<Vec<u8>, AllocError>
    ensures { IfOk result (λ part. part.items ≡ prose_text query.now (sentences_of query.now found.now.ledger.items)) }
{
    let mut part = Vec::new(alloc);
    tell_ledger_prose(alloc, query, found.ledger.as_slice(), &mut part)?;
    Ok(part)
}

/// What the ledger says only if a castling is held that isn't settled.
fn held_part(alloc: Global, query: &Query, found: &Found) -> Result<Vec<u8>, AllocError>
    ensures { IfOk result (λ part. part.items ≡ held_prose query.now found.now.ledger.items found.now.held.items) }
{
    let mut part = Vec::new(alloc);
    let known = found.ledger.as_slice();
    push_each_held(alloc, query, known, found.held.as_slice(), &mut part)?;
    Ok(part)
}

/// The proofs of these claims.
fn proofs_part(alloc: Global, limits: Limits, all: &[Shown]) -> Result<Vec<u8>, AllocError>
    requires { All (λ s. s.query.barred ≡ None) all.now }
    ensures { IfOk result (λ part. TellsProofs limits.depth limits.nodes 1 all.now part.items) }
{
    let mut part = Vec::new(alloc);
    push_proofs(alloc, limits, 1, all, &mut part)?;
    Ok(part)
}

/// How a proof of several last moves is to be had, if they are proved; otherwise of the one, if one retraction alone is left.
fn line_part(
    alloc: Global,
    query: &Query,
    limits: Limits,
    found: &Found,
) -> Result<Vec<u8>, AllocError>
    requires plain { query.now.barred ≡ None }
    requires texts { HasTexts found.now }
    ensures { IfOk result (λ part. (lone : Option AnUnmove) × HasLone query.now found.now.left lone × (part.items ≡ line_help limits.depth limits.nodes query.now (proved_steps found.now.steps) lone)) }
{
    let mut part = Vec::new(alloc);
    let lone = lone_step(query, &found.left);
    push_line_help(query, limits, &found.steps, lone, &mut part)?;
    Ok(part)
}

/// How long games are at least, and a game that was found.
fn games_part(
    alloc: Global,
    query: &Query,
    found: &Found,
    games: &[MoveList],
) -> Result<Vec<u8>, AllocError>
    ensures { IfOk result (λ part. (game : List ℕ) × TellsGame query.now [] games.now game × (part.items ≡ length_text query.now found.now.length ++ game)) }
{
    let mut part = Vec::new(alloc);
    push_length(alloc, query, found.length, &mut part)?;
    push_first(alloc, query, b"", games, &mut part)?;
    Ok(part)
}

/// What is found of the claim that the position is illegal without its demands, and adds a game that leads there, if one was found.
fn find_without(
    alloc: Global,
    query: &Query,
    limits: Limits,
    out: &mut Vec<u8>,
) -> Result<Finding, AllocError>
    ensures { IfOk result (λ plain. (game : List ℕ) × PlainIsFound query.now limits.depth limits.nodes plain game × (out.new.items ≡ out.old.items ++ game)) }
{
    let subject = &Subject {
        query: without_demands(query),
        limits,
    };
    let mut searchers = Searchers::new(alloc);
    let mut games = Games::new(alloc);
    let findings = find(&mut searchers, &mut games, subject)?;
    let by = games.found.as_slice();
    push_first(alloc, &subject.query, b" without that", by, out)?;
    Ok(findings.finding())
}

/// The same, if it makes any.
fn find_plain(
    alloc: Global,
    query: &Query,
    limits: Limits,
    out: &mut Vec<u8>,
) -> Result<Option<Finding>, AllocError>
    ensures { IfOk result (λ plain. (game : List ℕ) × IsPlainFound query.now limits.depth limits.nodes plain game × (out.new.items ≡ out.old.items ++ game)) }
{
    if !makes_demands(query) {
        return Ok(None);
    }
    let finding = find_without(alloc, query, limits, out)?;
    Ok(Some(finding))
}

/// What is said of a position that is illegal.
fn impossible_part(
    alloc: Global,
    query: &Query,
    against: Finding,
    plain: Option<Finding>,
) -> Result<Vec<u8>, AllocError>
    ensures { IfOk result (λ part. part.items ≡ verdicts_text query.now (impossible_of against plain)) }
{
    let verdicts = impossible_of(alloc, against, plain)?;
    let mut part = Vec::new(alloc);
    push_verdicts(alloc, query, verdicts.as_slice(), &mut part)?;
    Ok(part)
}

/// Adds the parts of a position that is illegal.
fn push_impossible(
    alloc: Global,
    query: &Query,
    limits: Limits,
    games: &[MoveList],
    against: Finding,
    out: &mut Vec<u8>,
) -> Result<(), AllocError>
    requires plain { query.now.barred ≡ None }
    requires shown { Holds Illegal query.now }
    requires against { IsFound (other_side query.now) Illegal limits.depth limits.nodes against }
    ensures { IfOk result (λ _. (own : List ℕ) × TellsImpossible query.now limits.depth limits.nodes games.now against own × (out.new.items ≡ out.old.items ++ own)) }
{
    let mut plain_game = Vec::new(alloc);
    let plain = find_plain(alloc, query, limits, &mut plain_game)?;
    let said = impossible_part(alloc, query, against, plain)?;
    let proofs = proofs_part(alloc, limits, &[illegal_shown(query)])?;
    let game = other_part(alloc, query, against, plain, games)?;
    let ask = plain_part(alloc, query, limits, plain)?;
    push_part(said.as_slice(), out)?;
    push_part(proofs.as_slice(), out)?;
    push_part(game.as_slice(), out)?;
    push_part(plain_game.as_slice(), out)?;
    push_part(ask.as_slice(), out)
}

/// Adds those of a position that isn't proved to be illegal.
fn push_found(
    alloc: Global,
    query: &Query,
    limits: Limits,
    games: &[MoveList],
    found: &Found,
    out: &mut Vec<u8>,
) -> Result<(), AllocError>
    requires plain { query.now.barred ≡ None }
    requires found { AreFindings query.now limits.depth limits.nodes games.now found.now }
    requires texts { HasTexts found.now }
    ensures { IfOk result (λ _. (own : List ℕ) × TellsFound query.now limits.depth limits.nodes games.now found.now own × (out.new.items ≡ out.old.items ++ own)) }
{
    told_lines_hold();
    sentences_hold();
    news_hold();
    let said = said_part(alloc, query, found)?;
    let ledger = ledger_part(alloc, query, found)?;
    let held = held_part(alloc, query, found)?;
    let shown = shown_claims(alloc, query, found)?;
    let proofs = proofs_part(alloc, limits, shown.as_slice())?;
    let ask = last_part(alloc, query, limits)?;
    let line = line_part(alloc, query, limits, found)?;
    let unsettled = open_part(alloc, query, found)?;
    let ends = games_part(alloc, query, found, games)?;
    push_part(said.as_slice(), out)?;
    push_part(ledger.as_slice(), out)?;
    push_part(held.as_slice(), out)?;
    push_part(proofs.as_slice(), out)?;
    push_part(ask.as_slice(), out)?;
    push_part(line.as_slice(), out)?;
    push_part(unsettled.as_slice(), out)?;
    push_part(ends.as_slice(), out)
}

/// Adds what was found.
fn push_findings(
    alloc: Global,
    query: &Query,
    limits: Limits,
    games: &[MoveList],
    findings: &Findings,
    out: &mut Vec<u8>,
) -> Result<(), AllocError>
    requires plain { query.now.barred ≡ None }
    requires found { IsFoundOf query.now limits.depth limits.nodes games.now findings.now }
    requires texts { CanBeWritten findings.now }
    ensures { IfOk result (λ _. (own : List ℕ) × TellsFindings query.now limits.depth limits.nodes games.now findings.now own × (out.new.items ≡ out.old.items ++ own)) }
{
    match findings {
        Findings::Impossible(_, against) => {
            push_impossible(alloc, query, limits, games, *against, out)
        }
        Findings::Unproved(found) => push_found(alloc, query, limits, games, found, out),
    }
}

/// The report of the position, in parts with an empty line between them: the diagram and what is given; what is proved and what games show,
/// behind the sentence that it isn't settled whether a game leads there, if it isn't; the ledger in a paragraph; what it says besides if a
/// right to castle is held; the proofs, numbered; how to ask without a last move that is given; how to get a proof of several last moves,
/// or of what the last one captured; which rights are open, and where the search gets stuck; and how long games are at least, with a game
/// that was found. It says no more than `study` does within the same limits.
pub fn report(alloc: Global, query: &Query, limits: Limits) -> Result<Vec<u8>, AllocError>
    requires { query.now.barred ≡ None }
    ensures { IfOk result (λ text. IsReport query.now limits.depth limits.nodes text.items) }
{
    let subject = &Subject {
        query: *query,
        limits,
    };
    let mut searchers = Searchers::new(alloc);
    let mut games = Games::new(alloc);
    let findings = find(&mut searchers, &mut games, subject)?;
    let mut out = Vec::new(alloc);
    draw(alloc, query, &mut out)?;
    let found = games.found.as_slice();
    push_findings(alloc, query, limits, found, &findings, &mut out)?;
    Ok(out)
}
