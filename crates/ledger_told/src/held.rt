ghost use Rattle.std.specs.Prelude.{◌≡◌, ◌⊎◌, ◌↔◌, ◌∷◌, ◌++◌, [], IfOk, IsTrue};
ghost use Rattle.std.specs.List.{All, Contains};
ghost use Rattle.ledger_told.specs.Held.{AreNews, TellsIf, with_held};
ghost use Rattle.ledger_told.specs.Told.{IsLineTrue};

use crate::laws::told_lines_hold;
use crate::telling::told_lines;
use board_base::Castle;
use ledger_lines::Line;
use query_base::Query;
use std::alloc::{AllocError, Global};

/// The query with a castling added to those that it demands.
pub fn with_held(query: &Query, castle: Castle) -> Query
    ensures { result ≡ with_held query.now castle }
{
    let mut held = *query;
    held.held = query.held.with(castle);
    held
}

fn is_same_line(a: &Line, b: &Line) -> bool
    ensures { IsTrue result ↔ (a.now ≡ b.now) }
{
    a == b
}

/// Whether the line is one of these.
fn is_among(line: &Line, lines: &[Line]) -> bool
    ensures { IsTrue result ↔ Contains lines.now line.now }
{
    for other in lines {
        if is_same_line(other, line) {
            return true;
        }
    }
    false
}

/// Adds the line, unless it is known already.
fn add_new(known: &[Line], line: &Line, news: &mut Vec<Line>) -> Result<(), AllocError>
    ensures { IfOk result (λ _. (Contains known.now line.now × (news.new.items ≡ news.old.items))
        ⊎ ((Contains known.now line.now → ⊥) × (news.new.items ≡ news.old.items ++ line.now ∷ []))) }
{
    if is_among(line, known) {
        Ok(())
    } else {
        news.push(*line)?;
        Ok(())
    }
}

/// Those of the lines that aren't known already, in order.
fn news_of(alloc: Global, known: &[Line], lines: &[Line]) -> Result<Vec<Line>, AllocError>
    ensures { IfOk result (λ news. AreNews known.now lines.now news.items) }
{
    let mut news = Vec::new(alloc);
    for line in lines {
        add_new(known, line, &mut news)?;
    }
    Ok(news)
}

/// The lines that are told of the query if this right to castle is held besides, but for those that are known already. Each is true of every
/// game that reaches the query and keeps the right. There are none if the ledger contradicts itself, so that no such game keeps it.
pub fn lines_if_held(
    alloc: Global,
    query: &Query,
    known: &[Line],
    castle: Castle,
) -> Result<Vec<Line>, AllocError>
    ensures told { IfOk result (λ news. TellsIf query.now known.now castle news.items) }
    ensures true_ { IfOk result (λ news. All (IsLineTrue (with_held query.now castle)) news.items) }
{
    told_lines_hold();
    let held = with_held(query, castle);
    let lines = told_lines(alloc, &held)?;
    news_of(alloc, known, lines.as_slice())
}
