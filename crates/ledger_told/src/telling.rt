ghost use Rattle.std.specs.Prelude.{List, ◌≡◌, ◌++◌, IfOk, OnOk, length};
ghost use Rattle.ledger_lines.specs.declared.lines.Line.{Line as ALine};
ghost use Rattle.ledger_told.specs.Told.{TellsAll, TellsAmong, TellsFirst, TellsLines, TellsWhole, one_line};

use crate::squares::square_line;
use crate::topics::{Breed, Group, Topic, Whole};
use crate::wholes::whole_line;
use board_base::{Colour, Square, SquareSet};
use cage_rules::greatest_as_array;
use ledger_lines::Line;
use ledger_search::{Ledger, is_contradictory, ledger_of};
use query_base::Query;
use std::alloc::{AllocError, Global};

/// Adds the line, if there is one.
fn add_line(line: Option<Line>, lines: &mut Vec<Line>) -> Result<(), AllocError>
    ensures { OnOk result (lines.new.items ≡ lines.old.items ++ one_line line) }
{
    match line {
        Some(line) => {
            lines.push(line)?;
            Ok(())
        }
        None => Ok(()),
    }
}

/// Adds the line of what is told by one, if it is due.
fn add_whole(
    whole: Whole,
    query: &Query,
    ledger: &Ledger,
    set: SquareSet,
    lines: &mut Vec<Line>,
) -> Result<(), AllocError>
    ensures { OnOk result ((xs : List ALine) × TellsWhole whole query.now ledger.now set xs
        × (lines.new.items ≡ lines.old.items ++ xs)) }
{
    let line = whole_line(whole, query, ledger, set);
    add_line(line, lines)
}

/// Adds the lines of what is told square by square.
fn add_each(
    topic: &Topic,
    query: &Query,
    ledger: &Ledger,
    lines: &mut Vec<Line>,
) -> Result<(), AllocError>
    ensures { OnOk result ((xs : List ALine) × TellsFirst topic.now query.now ledger.now 64 xs
        × (lines.new.items ≡ lines.old.items ++ xs)) }
{
    for i in 0..64 {
        let line = square_line(topic, query, ledger, Square::known(i));
        add_line(line, lines)?;
    }
    Ok(())
}

/// Adds how many officers of a side began as pawns, kind by kind.
fn add_among(
    side: Colour,
    query: &Query,
    ledger: &Ledger,
    set: SquareSet,
    lines: &mut Vec<Line>,
) -> Result<(), AllocError>
    ensures { OnOk result ((xs : List ALine) × TellsAmong side query.now ledger.now set xs
        × (lines.new.items ≡ lines.old.items ++ xs)) }
{
    add_whole(Whole::Among(side, Breed::Queens), query, ledger, set, lines)?;
    add_whole(Whole::Among(side, Breed::Rooks), query, ledger, set, lines)?;
    add_whole(
        Whole::Among(side, Breed::DarkBishops),
        query,
        ledger,
        set,
        lines,
    )?;
    add_whole(
        Whole::Among(side, Breed::LightBishops),
        query,
        ledger,
        set,
        lines,
    )?;
    add_whole(
        Whole::Among(side, Breed::Knights),
        query,
        ledger,
        set,
        lines,
    )
}

/// Adds the lines that are due, in order.
fn add_all(
    query: &Query,
    ledger: &Ledger,
    set: SquareSet,
    lines: &mut Vec<Line>,
) -> Result<(), AllocError>
    ensures { OnOk result ((xs : List ALine) × TellsAll query.now ledger.now set xs
        × (lines.new.items ≡ lines.old.items ++ xs)) }
{
    add_whole(Whole::Unmoved, query, ledger, set, lines)?;
    add_whole(Whole::Lacks(Colour::White), query, ledger, set, lines)?;
    add_whole(Whole::Lacks(Colour::Black), query, ledger, set, lines)?;
    add_whole(Whole::Captures(Colour::White), query, ledger, set, lines)?;
    add_whole(Whole::Captures(Colour::Black), query, ledger, set, lines)?;
    add_each(&Topic::Pawns(Colour::White), query, ledger, lines)?;
    add_each(&Topic::Pawns(Colour::Black), query, ledger, lines)?;
    add_each(&Topic::Men(Colour::White), query, ledger, lines)?;
    add_each(&Topic::Men(Colour::Black), query, ledger, lines)?;
    add_whole(Whole::Those(Group::Ahead), query, ledger, set, lines)?;
    add_whole(Whole::Those(Group::Original), query, ledger, set, lines)?;
    add_each(&Topic::Officers(Colour::White), query, ledger, lines)?;
    add_each(&Topic::Officers(Colour::Black), query, ledger, lines)?;
    add_among(Colour::White, query, ledger, set, lines)?;
    add_among(Colour::Black, query, ledger, set, lines)?;
    add_each(&Topic::Falls(set), query, ledger, lines)?;
    add_each(&Topic::Promotions, query, ledger, lines)
}

/// Tells the caller that a set has 64 truth values.
fn is_whole(set: SquareSet)
    ensures { length set ≡ 64 }
{
    let _ = set.has(Square::known(0));
}

/// The lines of the query's ledger that say more than the board does, in order: of who never moved, of the men who are lacking, of the
/// captures of White's pawns and of Black's, of where pawns, rooks and knights began, of the pawns who never left their files, of the
/// officers who began as no pawns, of those who did, of who fell, and of who was promoted. There are none if the ledger contradicts itself,
/// so that no game leads to the query. By `told_lines_hold` each line is true of every game that reaches the query.
pub fn told_lines(alloc: Global, query: &Query) -> Result<Vec<Line>, AllocError>
    ensures { IfOk result (λ lines. TellsLines query.now lines.items) }
{
    let ledger = ledger_of(query);
    let set = greatest_as_array(query);
    is_whole(set);
    let mut lines = Vec::new(alloc);
    if is_contradictory(query, &ledger) {
        return Ok(lines);
    }
    add_all(query, &ledger, set, &mut lines)?;
    Ok(lines)
}
