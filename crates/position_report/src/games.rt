//! How long games are, and a game that was found.

ghost use Rattle.std.specs.Prelude.{List, ℕ, ◌≡◌, ◌++◌, IfOk, codes};
ghost use Rattle.proof_story.specs.Rows.{rows_of};
ghost use Rattle.san_text.specs.FromArray.{Tells};
ghost use Rattle.verdict_prose.specs.Verdicts.{turned};
ghost use Rattle.position_report.specs.Lengths.{LeadsHere, TellsGame, TellsOther, game_words, is_other_told, length_text, other_words};

use crate::replaying::{leads_here, moves_of};
use board_base::{Move, MoveList};
use diagram_study::Finding;
use play_rules::State;
use proof_story::push_wrapped;
use prose_words::{say, side_word};
use query_base::Query;
use san_text::write_san_game;
use std::alloc::{AllocError, Global};
use verdict_prose::{Verdict, tell_verdict};

/// The text of a game in algebraic notation.
fn notation(alloc: Global, query: &Query, moves: &[Move]) -> Result<Vec<u8>, AllocError>
    requires { LeadsHere moves.now query.now }
    ensures { IfOk result (λ text. Tells query.now.odds text.items moves.now) }
{
    // Each move is legal, so that only memory can be wanting.
    match write_san_game(alloc, State::start_of(query.odds), moves) {
        Ok(text) => Ok(text),
        Err(_) => Err(AllocError),
    }
}

/// Adds that the game of no moves leads to a position, of which these words say which it is.
fn push_none(whose: &[u8], out: &mut Vec<u8>) -> Result<(), AllocError>
    ensures { IfOk result (λ _. out.new.items ≡ out.old.items ++ (codes "The game of no moves leads here" ++ whose.now ++ codes ".")) }
{
    say(b"The game of no moves leads here", out)?;
    say(whose, out)?;
    say(b".", out)
}

/// Adds a game with what stands before it.
fn push_some(whose: &[u8], text: &[u8], out: &mut Vec<u8>) -> Result<(), AllocError>
    ensures { IfOk result (λ _. out.new.items ≡ out.old.items ++ (codes "A game that leads here" ++ whose.now ++ codes ": " ++ text.now)) }
{
    say(b"A game that leads here", out)?;
    say(whose, out)?;
    say(b": ", out)?;
    say(text, out)
}

/// Adds a game with what stands before it, in one line.
fn push_words(whose: &[u8], text: &[u8], out: &mut Vec<u8>) -> Result<(), AllocError>
    ensures { IfOk result (λ _. out.new.items ≡ out.old.items ++ game_words whose.now text.now) }
{
    if text.len() == 0 {
        push_none(whose, out)
    } else {
        push_some(whose, text, out)
    }
}

/// Adds a game in rows.
fn push_game(alloc: Global, whose: &[u8], text: &[u8], out: &mut Vec<u8>) -> Result<(), AllocError>
    ensures { IfOk result (λ _. out.new.items ≡ out.old.items ++ rows_of (game_words whose.now text.now)) }
{
    let mut line = Vec::new(alloc);
    push_words(whose, text, &mut line)?;
    push_wrapped(line.as_slice(), out)
}

/// Adds the first of the games that leads to the query, if one does. These words say which position it is.
pub(crate) fn push_first(
    alloc: Global,
    query: &Query,
    whose: &[u8],
    games: &[MoveList],
    out: &mut Vec<u8>,
) -> Result<(), AllocError>
    ensures { IfOk result (λ _. (own : List ℕ) × TellsGame query.now whose.now games.now own × (out.new.items ≡ out.old.items ++ own)) }
{
    match games {
        [] => Ok(()),
        [game, others @ ..] => {
            let moves = moves_of(alloc, game)?;
            if !leads_here(query, moves.as_slice()) {
                return push_first(alloc, query, whose, others, out);
            }
            let text = notation(alloc, query, moves.as_slice())?;
            push_game(alloc, whose, text.as_slice(), out)
        }
    }
}

/// Adds how long games are at least, if that is known.
pub(crate) fn push_length(
    alloc: Global,
    query: &Query,
    length: Option<u16>,
    out: &mut Vec<u8>,
) -> Result<(), AllocError>
    ensures { IfOk result (λ _. out.new.items ≡ out.old.items ++ length_text query.now length) }
{
    match length {
        None => Ok(()),
        Some(n) => {
            if n == 0 {
                return Ok(());
            }
            tell_verdict(alloc, query, &Verdict::AtLeast(n), out)
        }
    }
}

/// The same board with the other side to move, without the double step that belongs to the side to move.
fn turned(query: &Query) -> Query
    ensures { result ≡ turned query.now }
{
    let mut other = *query;
    other.turn = query.turn.other();
    other.only = None;
    other.barred = None;
    other
}

/// That the other side is to move.
fn other_words(alloc: Global, query: &Query) -> Result<Vec<u8>, AllocError>
    ensures { IfOk result (λ words. words.items ≡ other_words query.now) }
{
    let mut words = Vec::new(alloc);
    say(b" with ", &mut words)?;
    say(side_word(query.turn.other()), &mut words)?;
    say(b" to move", &mut words)?;
    Ok(words)
}

/// The first of the games that leads to the position with the other side to move, if one does.
fn turned_part(alloc: Global, query: &Query, games: &[MoveList]) -> Result<Vec<u8>, AllocError>
    ensures { IfOk result (λ part. TellsGame (turned query.now) (other_words query.now) games.now part.items) }
{
    let whose = other_words(alloc, query)?;
    let mut part = Vec::new(alloc);
    push_first(alloc, &turned(query), whose.as_slice(), games, &mut part)?;
    Ok(part)
}

/// Whether it is said that a game leads to the position with the other side to move, of what was found of that and without demands.
fn is_other_told(against: Finding, plain: Option<Finding>) -> bool
    ensures { result ≡ is_other_told against plain }
{
    match plain {
        Some(_) => false,
        None => matches!(against, Finding::Countered),
    }
}

/// The first of the games that leads to the position with the other side to move, if that is said.
pub(crate) fn other_part(
    alloc: Global,
    query: &Query,
    against: Finding,
    plain: Option<Finding>,
    games: &[MoveList],
) -> Result<Vec<u8>, AllocError>
    ensures { IfOk result (λ part. TellsOther query.now games.now (is_other_told against plain) part.items) }
{
    if is_other_told(against, plain) {
        turned_part(alloc, query, games)
    } else {
        Ok(Vec::new(alloc))
    }
}
