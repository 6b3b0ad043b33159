ghost use Rattle.std.specs.Prelude.{◌≡◌, ◌↔◌, ◌<◌, ◌≤◌, ℕ, IsTrue, cond, slice_set, true};
ghost use Rattle.board_base.specs.Board.{is_in, is_like};
ghost use Rattle.ledger_told.specs.Due.{IsChosen, IsGroupLine, IsUnmovedLine, IsWhole, are_all_taken, captures_line, is_ahead, is_promotable, is_somebody, lacks_line, most_dark, most_made, of_group, takings, told_dark};

use crate::breeds::among_line;
use crate::classes::told_on_each;
use crate::topics::{Group, Whole};
use board_base::{Colour, Kind, Man, Square, SquareSet, array_of, is_a, is_the};
use ledger_lines::{Fact, Line, Losses, Takings, counts_of, is_known, lacking, losses_of};
use ledger_search::{Ledger, Range};
use men_account::counts;
use query_base::Query;

/// The line of those who never moved.
fn unmoved_line(set: SquareSet) -> Option<Line>
    ensures { IsUnmovedLine set result }
{
    if set.next_from(0) < 64 {
        Some(Line::Unmoved(set))
    } else {
        None
    }
}

/// Whether somebody is lacking.
fn is_somebody(losses: &Losses) -> bool
    ensures { result ≡ is_somebody losses.now }
{
    losses.queens > 0
        || losses.rooks > 0
        || losses.dark_bishops > 0
        || losses.light_bishops > 0
        || losses.knights > 0
        || losses.pawns > 0
}

/// The line of the men whom a side lacks, if it lacks somebody.
fn lacks_line(query: &Query, side: Colour) -> Option<Line>
    ensures { result ≡ lacks_line query.now side }
{
    let losses = losses_of(&array_of(query.odds), &query.board, side);
    if is_somebody(&losses) {
        Some(Line::Lacks(side, losses))
    } else {
        None
    }
}

/// How many captures a side's pawns made at most.
pub(crate) fn most_made(query: &Query, ledger: &Ledger, side: Colour) -> u8
    ensures { result ≡ most_made query.now ledger.now side }
{
    let lacking = lacking(query, side.other());
    let most = counts_of(ledger, side).all.most;
    if most < lacking && most < 16 {
        most
    } else {
        lacking
    }
}

/// Whether they took all whom the other side lacks.
pub(crate) fn all_taken(query: &Query, ledger: &Ledger, side: Colour) -> bool
    ensures { result ≡ are_all_taken query.now ledger.now side }
{
    lacking(query, side.other()) <= counts_of(ledger, side).all.least
}

/// How many captures they made on dark squares at most.
fn most_dark(query: &Query, ledger: &Ledger, side: Colour) -> u8
    ensures { result ≡ most_dark query.now ledger.now side }
{
    let made = most_made(query, ledger, side);
    let most = counts_of(ledger, side).dark.most;
    if most < made && most < 16 { most } else { made }
}

/// How many they made there, if that says more than how many they made in all.
fn told_dark(query: &Query, ledger: &Ledger, side: Colour) -> Option<Range>
    ensures { result ≡ told_dark query.now ledger.now side }
{
    let counts = counts_of(ledger, side);
    let least = counts.dark.least;
    let most = most_dark(query, ledger, side);
    if counts.all.least > 0 && (least > 0 || most < most_made(query, ledger, side)) {
        Some(Range { least, most })
    } else {
        None
    }
}

/// What is told of their captures.
fn takings(query: &Query, ledger: &Ledger, side: Colour) -> Takings
    ensures { result ≡ takings query.now ledger.now side }
{
    let counts = counts_of(ledger, side);
    let least = counts.all.least;
    let most = most_made(query, ledger, side);
    Takings {
        all: Range { least, most },
        lacking: lacking(query, side.other()),
        dark: told_dark(query, ledger, side),
        least_on: told_on_each(query, ledger, side),
    }
}

/// The line of the captures of a side's pawns.
fn captures_line(query: &Query, ledger: &Ledger, side: Colour) -> Option<Line>
    ensures { result ≡ captures_line query.now ledger.now side }
{
    let least = counts_of(ledger, side).all.least;
    let most = most_made(query, ledger, side);
    if least > 0 || most < lacking(query, side.other()) {
        Some(Line::Captures(side, takings(query, ledger, side)))
    } else {
        None
    }
}

/// Whether the pawn on a square is not where he began, and never left his file.
fn is_ahead(query: &Query, ledger: &Ledger, s: Square) -> bool
    ensures { result ≡ is_ahead query.now ledger.now s }
{
    ledger.straight.has(s) && !is_like(query.board.at(s), array_of(query.odds).at(s))
}

/// Whether a man of the colour and kind of the man on the first place stands on the second.
fn is_like(place: Option<Man>, other: Option<Man>) -> bool
    ensures { result ≡ is_like place other }
{
    match place {
        Some(man) => is_the(man.colour, man.kind, other),
        None => false,
    }
}

/// Whether the man on a place may have been promoted.
fn is_promotable(query: &Query, place: Option<Man>) -> bool
    ensures { result ≡ is_promotable query.now place }
{
    match place {
        Some(man) => {
            !is_a(Kind::Pawn, place)
                && !is_a(Kind::King, place)
                && counts(&query.board, man.colour).pawns < 8
        }
        None => false,
    }
}

/// Whether the man on a square is one of the group.
fn is_chosen(group: Group, query: &Query, ledger: &Ledger, set: SquareSet, s: Square) -> bool
    ensures { IsTrue result ↔ IsChosen group query.now ledger.now set s }
{
    match group {
        Group::Ahead => is_ahead(query, ledger, s),
        Group::Original => {
            is_promotable(query, query.board.at(s))
                && !set.has(s)
                && is_known(query, ledger, &Fact::Original(s))
        }
    }
}

/// The set, with this square if `more` says so.
fn with_if(set: SquareSet, s: Square, more: bool) -> SquareSet
    ensures { result ≡ cond more (slice_set set s true) set }
{
    if more { set.with(s) } else { set }
}

/// The squares of the group.
fn chosen(group: Group, query: &Query, ledger: &Ledger, set: SquareSet) -> SquareSet
    ensures { (s : ℕ) → s < 64 → IsTrue (is_in result s) ↔ IsChosen group query.now ledger.now set s }
{
    let mut squares = SquareSet::from_bits(0);
    for i in 0..64 {
        let s = Square::known(i);
        squares = with_if(squares, s, is_chosen(group, query, ledger, set, s));
    }
    squares
}

/// The line that names these.
fn of_group(group: Group, named: SquareSet) -> Line
    ensures { result ≡ of_group group named }
{
    match group {
        Group::Ahead => Line::Ahead(named),
        Group::Original => Line::Original(named),
    }
}

/// The line of the group.
fn group_line(group: Group, query: &Query, ledger: &Ledger, set: SquareSet) -> Option<Line>
    ensures { IsGroupLine group query.now ledger.now set result }
{
    let named = chosen(group, query, ledger, set);
    if named.next_from(0) < 64 {
        Some(of_group(group, named))
    } else {
        None
    }
}

/// The line of what is told by one, if it is due.
pub(crate) fn whole_line(
    whole: Whole,
    query: &Query,
    ledger: &Ledger,
    set: SquareSet,
) -> Option<Line>
    ensures { IsWhole whole query.now ledger.now set result }
{
    match whole {
        Whole::Unmoved => unmoved_line(set),
        Whole::Lacks(side) => lacks_line(query, side),
        Whole::Captures(side) => captures_line(query, ledger, side),
        Whole::Those(group) => group_line(group, query, ledger, set),
        Whole::Among(side, breed) => among_line(query, ledger, side, breed),
    }
}
