//! What follows if a right to castle is held.

ghost use Rattle.std.specs.Prelude.{◌≡◌, ◌++◌, IfOk};
ghost use Rattle.position_report.specs.Held.{behind_if, held_prose, if_lines, if_prose, if_text};

use board_base::Castle;
use diagram_study::HeldFound;
use ledger_prose::{news_of_all, tell_ledger_prose};
use ledger_told::{Line, with_held};
use prose_words::{say, side_word, wing_word};
use query_base::Query;
use std::alloc::{AllocError, Global};

/// Adds what is said if the right is held.
fn push_if(castle: Castle, out: &mut Vec<u8>) -> Result<(), AllocError>
    ensures { IfOk result (λ _. out.new.items ≡ out.old.items ++ if_text castle) }
{
    say(b"If ", out)?;
    say(side_word(castle.side()), out)?;
    say(b" may castle on the ", out)?;
    say(wing_word(castle), out)?;
    say(b" side:\n", out)
}

/// Adds a paragraph, and before it what it follows from, if it isn't empty.
fn push_behind(castle: Castle, prose: &[u8], out: &mut Vec<u8>) -> Result<(), AllocError>
    ensures { IfOk result (λ _. out.new.items ≡ out.old.items ++ behind_if castle prose.now) }
{
    if prose.len() == 0 {
        return Ok(());
    }
    push_if(castle, out)?;
    say(prose, out)
}

/// The lines that are told if this castling is held, without the men of whom the ledger says anyhow that they never moved.
fn if_lines(alloc: Global, known: &[Line], found: &HeldFound) -> Result<Vec<Line>, AllocError>
    ensures { IfOk result (λ lines. lines.items ≡ if_lines known.now found.now) }
{
    news_of_all(alloc, known, found.lines.as_slice())
}

/// Adds what the ledger says only if this castling is held.
fn push_held(
    alloc: Global,
    query: &Query,
    known: &[Line],
    found: &HeldFound,
    out: &mut Vec<u8>,
) -> Result<(), AllocError>
    ensures { IfOk result (λ _. out.new.items ≡ out.old.items ++ if_prose query.now known.now found.now) }
{
    let held = with_held(query, found.castle);
    let lines = if_lines(alloc, known, found)?;
    let mut prose = Vec::new(alloc);
    tell_ledger_prose(alloc, &held, lines.as_slice(), &mut prose)?;
    push_behind(found.castle, prose.as_slice(), out)
}

/// Adds the same of each of these castlings.
pub(crate) fn push_each_held(
    alloc: Global,
    query: &Query,
    known: &[Line],
    held: &[HeldFound],
    out: &mut Vec<u8>,
) -> Result<(), AllocError>
    ensures { IfOk result (λ _. out.new.items ≡ out.old.items ++ held_prose query.now known.now held.now) }
{
    for found in held {
        push_held(alloc, query, known, found, out)?;
    }
    Ok(())
}
