ghost use Rattle.std.specs.Prelude.{List, ℕ, ◌≡◌, ◌++◌, IfOk, None, OnOk};
ghost use Rattle.claim_findings.specs.Lines.{found_line};
ghost use Rattle.diagram_study.specs.Budgets.{IsBudget};
ghost use Rattle.diagram_study.specs.Facts.{SaysTrue};
ghost use Rattle.diagram_study.specs.Findings.{CanBeWritten, HasTexts};
ghost use Rattle.diagram_study.specs.Studies.{IsStudy, TellsAgain, TellsPlain, TellsPosition, makes_demands, without_demands};
ghost use Rattle.diagram_study.specs.Texts.{findings_text, found_text, other_line};

use crate::findings::{Findings, Found, find};
use crate::held::tell_held;
use crate::pairs::tell_pairs;
use crate::rights::{tell_captures, tell_castlings};
use crate::texts::{push_ends, push_forced, push_last, push_left, push_length};
use board_base::{Castle, CastleSet};
use claim_findings::{Finding, Games, Limits, Searchers, Subject, push_decided, push_found};
use ledger_told::write_lines;
use query_base::{Claim, Query};
use std::alloc::{AllocError, Global};

/// Adds what is found of a position that isn't proved to be illegal.
fn tell_found(found: &Found, text: &mut Vec<u8>) -> Result<(), AllocError>
    requires { HasTexts found.now }
    ensures { OnOk result (text.new.items ≡ text.old.items ++ found_text found.now) }
{
    let illegal = &found.illegal;
    let rights = found.rights.as_slice();
    push_decided(text, illegal.finding, &illegal.stuck, &Claim::Illegal)?;
    tell_castlings(text, rights)?;
    tell_pairs(text, found.pairs.as_slice())?;
    tell_captures(text, rights)?;
    push_last(text, &found.last)?;
    push_forced(text, &found.steps)?;
    push_left(text, &found.left, found.all)?;
    push_ends(text, &found.ends, found.left.len())?;
    write_lines(found.ledger.as_slice(), text)?;
    tell_held(text, found.held.as_slice())?;
    push_length(text, found.length)
}

/// Adds that the position is illegal, and what is found with the other side to move.
fn tell_impossible(finding: Finding, against: Finding, text: &mut Vec<u8>) -> Result<(), AllocError>
    ensures { OnOk result (text.new.items ≡ text.old.items
        ++ (found_line finding Claim.Illegal ++ other_line against)) }
{
    push_found(text, finding, &Claim::Illegal)?;
    text.extend_from_slice(b"other side ")?;
    push_found(text, against, &Claim::Illegal)
}

/// Adds what is found of the position.
fn tell_findings(findings: &Findings, text: &mut Vec<u8>) -> Result<(), AllocError>
    requires { CanBeWritten findings.now }
    ensures { OnOk result (text.new.items ≡ text.old.items ++ findings_text findings.now) }
{
    match findings {
        Findings::Impossible(finding, against) => tell_impossible(*finding, *against, text),
        Findings::Unproved(found) => tell_found(found, text),
    }
}

/// Finds what can be found of the position, and adds it. What is found of the claim that it is illegal.
fn tell_position(
    searchers: &mut Searchers,
    games: &mut Games,
    subject: &Subject,
    text: &mut Vec<u8>,
) -> Result<Finding, AllocError>
    ensures { IfOk result (λ finding. (own : List ℕ)
        × TellsPosition subject.now.query subject.now.limits.depth subject.now.limits.nodes finding own × (text.new.items ≡ text.old.items ++ own)) }
{
    let findings = find(searchers, games, subject)?;
    tell_findings(&findings, text)?;
    Ok(findings.finding())
}

/// The query demands a right, a last move or a clock.
pub fn makes_demands(query: &Query) -> bool
    ensures { result ≡ makes_demands query.now }
{
    let held = query.held;
    held.has(Castle::WhiteShort)
        || held.has(Castle::WhiteLong)
        || held.has(Castle::BlackShort)
        || held.has(Castle::BlackLong)
        || query.only.is_some()
        || query.clock.is_some()
}

/// The query without its demands, at the same odds.
pub fn without_demands(query: &Query) -> Query
    ensures { result ≡ without_demands query.now }
{
    Query {
        board: query.board,
        turn: query.turn,
        odds: query.odds,
        held: CastleSet::none(),
        only: None,
        barred: None,
        clock: None,
    }
}

/// Adds what is found of the position without its demands.
fn tell_plain(
    searchers: &mut Searchers,
    games: &mut Games,
    subject: &Subject,
    text: &mut Vec<u8>,
) -> Result<(), AllocError>
    ensures { OnOk result ((own : List ℕ)
        × TellsPlain subject.now.query subject.now.limits.depth subject.now.limits.nodes own
        × (text.new.items ≡ text.old.items ++ own)) }
{
    text.extend_from_slice(b"without demands\n")?;
    let query = without_demands(&subject.query);
    let plain = Subject {
        query,
        limits: subject.limits,
    };
    match tell_position(searchers, games, &plain, text) {
        Ok(_) => Ok(()),
        Err(why) => Err(why),
    }
}

/// Adds what is found of the position without its demands, if these make it illegal.
fn tell_again(
    searchers: &mut Searchers,
    games: &mut Games,
    subject: &Subject,
    finding: Finding,
    text: &mut Vec<u8>,
) -> Result<(), AllocError>
    ensures { OnOk result ((own : List ℕ)
        × TellsAgain subject.now.query subject.now.limits.depth subject.now.limits.nodes finding own × (text.new.items ≡ text.old.items ++ own)) }
{
    if finding.is_proved() && makes_demands(&subject.query) {
        tell_plain(searchers, games, subject, text)
    } else {
        Ok(())
    }
}

/// The study of the position: its text has a line for each fact. For each claim `most` moves are taken back at most, 0 to 64, and each
/// search visits at most `nodes` queries, 1 to 500,000: by rule lines, and, if these settle nothing, by the balance of captures and then
/// by sketches too. The query bars no move of its own.
///
/// - `proved D` before a claim says that it holds of every game, and that D is the least depth at which the search proves it, 0 if
///   flat prices support its target, or one node of a sketch refutes it without exact files, prices and marks; `open` that rule lines don't
///   refute its target at `most` nor at any lower depth; `spent` that the whole search is larger than the nodes.
/// - First comes what was found of the claim `illegal`. Where the search alone leaves that open, but refutes what is before each retraction,
///   it is proved all the same, at one more than the greatest depth there; but not with no move taken back, nor of the array. So is the
///   claim that a move was the last, if no other is left. If `illegal` is proved, every claim about the position holds, so nothing more is
///   told of it but what was found of the same board with the other side to move. Where it makes demands, it is studied once more
///   without them, behind a line that says so.
/// - Else come the castlings that it seems to give and doesn't demand; each two of them of which neither is proved to be lost; the
///   captures en passant; the last move, if it is proved, and two to sixteen last moves, if they follow one from another; how
///   many of the retractions are left whose predecessors the search doesn't refute, and which, if they are at most 24; the ledger; what it
///   says only if a castling is held that is neither proved to be lost nor kept by a game, each line behind `if` and the castling's letter;
///   and how many half-moves each game has at least.
pub fn study(alloc: Global, query: &Query, most: u8, nodes: u32) -> Result<Vec<u8>, AllocError>
    requires plain { query.now.barred ≡ None }
    requires budget { IsBudget most nodes }
    ensures study { IfOk result (λ text. IsStudy query.now most nodes text.items) }
    ensures true_ { IfOk result (λ text. SaysTrue query.now text.items) }
{
    let subject = &Subject {
        query: *query,
        limits: Limits { depth: most, nodes },
    };
    let mut searchers = Searchers::new(alloc);
    let mut games = Games::new(alloc);
    let mut text = Vec::new(alloc);
    let finding = tell_position(&mut searchers, &mut games, subject, &mut text)?;
    tell_again(&mut searchers, &mut games, subject, finding, &mut text)?;
    Ok(text)
}
