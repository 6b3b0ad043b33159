ghost use Rattle.std.specs.Prelude.{◌≡◌, ◌||◌, ◌<◌, ◌≤◌, ◌↔◌, ℕ, IsTrue, cond, nat_lt, not, slice_set, true};
ghost use Rattle.std.specs.Bool.{beq};
ghost use Rattle.board_base.specs.Board.{array_of, at, is_a, is_in};
ghost use Rattle.board_base.specs.declared.men.Kind.TheVariants.{Pawn};
ghost use Rattle.ledger_search.specs.Questions.{is_asked, is_man};
ghost use Rattle.ledger_search.specs.declared.questions.Question.TheVariants.{Home};
ghost use Rattle.ledger_lines.specs.declared.facts.Fact.TheVariants.{TookAtMost};
ghost use Rattle.ledger_lines.specs.Known.{AreRuledOut, IsKnown, IsOnBoard, are_lacking, counts_of, has_few, have_few, is_class, is_fallen, is_few, is_few_on, is_most, is_promoted, is_struck, is_unpromoted, is_unstruck, lacking, least_of, most_aside};

use crate::among::is_among;
use crate::captors::{has_taken, taken_by_others};
use crate::confined::has_stayed;
use crate::facts::Fact;
use crate::losses::are_losses;
use board_base::{
    Board, Colour, Kind, Man, Square, SquareSet, array_of, files_between, is_a, is_of,
    ranks_between,
};
use ledger_facts::Squares;
use ledger_search::{Counts, Fates, Ledger, Range};
use men_account::men_of;
use query_base::Query;

/// Whether the place has a man.
pub(crate) fn is_man(place: Option<Man>) -> bool
    ensures { result ≡ is_man place }
{
    match place {
        Some(_) => true,
        None => false,
    }
}

/// Whether the home is one of the side of the man on a square.
pub(crate) fn is_asked(board: &Board, first: &Board, s: Square, h: Square) -> bool
    ensures { result ≡ is_asked (Home s) board.now first.now h }
{
    match board.at(s) {
        Some(man) => is_of(man.colour, first.at(h)),
        None => false,
    }
}

/// The set, with this square if `more` says so.
fn with_if(set: SquareSet, s: Square, more: bool) -> SquareSet
    ensures { result ≡ cond more (slice_set set s true) set }
{
    if more { set.with(s) } else { set }
}

/// The squares on which pawns begin, or all others.
fn first_squares(first: &Board, pawns: bool) -> SquareSet
    ensures { (h : ℕ) → h < 64 → IsTrue (is_in result h) ↔ (is_a Pawn (at first.now h) ≡ pawns) }
{
    let mut squares = SquareSet::from_bits(0);
    for i in 0..64 {
        let h = Square::known(i);
        let more = is_a(Kind::Pawn, first.at(h)) == pawns;
        squares = with_if(squares, h, more);
    }
    squares
}

/// Whether a man stands on the square, and each home of his side that isn't among these is ruled out for him.
fn has_begun_among(query: &Query, ledger: &Ledger, s: Square, homes: SquareSet) -> bool
    ensures { IsTrue result ↔ AreRuledOut query.now ledger.now s (λ h. not (is_in homes h)) }
{
    let first = array_of(query.odds);
    let ruled_out = ledger.homes[s.index() as usize];
    for i in 0..64 {
        let h = Square::known(i);
        if is_asked(&query.board, &first, s, h) && !homes.has(h) && !ruled_out.has(h) {
            return false;
        }
    }
    is_man(query.board.at(s))
}

/// Whether he began as a pawn, or as none.
fn has_begun_as(query: &Query, ledger: &Ledger, s: Square, pawn: bool) -> bool
    ensures { IsTrue result ↔ AreRuledOut query.now ledger.now s (λ h. not (beq pawn (is_a Pawn (at (array_of query.now.odds) h)))) }
{
    let homes = first_squares(&array_of(query.odds), pawn);
    has_begun_among(query, ledger, s, homes)
}

/// How many captures a pawn makes at most between two squares: one a rank, or one fewer if so many don't lead to the file.
fn most_aside(h: Square, s: Square) -> u8
    ensures { result ≡ most_aside h s }
{
    let ranks = ranks_between(h, s);
    ranks.saturating_sub((ranks + files_between(h, s)) % 2)
}

/// Whether each home of his side that isn't ruled out for the man on a square allows at most so many.
fn has_come_near(query: &Query, ledger: &Ledger, s: Square, number: u8) -> bool
    ensures { IsTrue result ↔ AreRuledOut query.now ledger.now s (λ h. nat_lt number (most_aside h s)) }
{
    let first = array_of(query.odds);
    let ruled_out = ledger.homes[s.index() as usize];
    for i in 0..64 {
        let h = Square::known(i);
        if is_asked(&query.board, &first, s, h) && number < most_aside(h, s) && !ruled_out.has(h) {
            return false;
        }
    }
    is_man(query.board.at(s))
}

/// Whether the man who began on the square doesn't stand.
pub fn is_fallen(first: &Board, fates: &Fates, h: Square) -> bool
    ensures { result ≡ is_fallen first.now fates.now h }
{
    is_man(first.at(h)) && fates.stands.has(h) && fates.stands_promoted.has(h)
}

/// Whether a pawn took him.
pub fn is_struck(first: &Board, fates: &Fates, h: Square) -> bool
    ensures { result ≡ is_struck first.now fates.now h }
{
    is_fallen(first, fates, h) && fates.taken.has(h) && fates.taken_promoted.has(h)
}

/// Whether no pawn did.
pub fn is_unstruck(first: &Board, fates: &Fates, h: Square) -> bool
    ensures { result ≡ is_unstruck first.now fates.now h }
{
    is_man(first.at(h)) && fates.struck.has(h) && fates.struck_promoted.has(h)
}

/// Whether he was promoted.
pub fn is_promoted(first: &Board, fates: &Fates, h: Square) -> bool
    ensures { result ≡ is_promoted first.now fates.now h }
{
    is_man(first.at(h)) && fates.stands.has(h) && fates.taken.has(h) && fates.struck.has(h)
}

/// Whether he never was.
pub fn is_unpromoted(first: &Board, fates: &Fates, h: Square) -> bool
    ensures { result ≡ is_unpromoted first.now fates.now h }
{
    is_man(first.at(h))
        && fates.stands_promoted.has(h)
        && fates.taken_promoted.has(h)
        && fates.struck_promoted.has(h)
}

/// The numbers of captures of a side.
pub fn counts_of(ledger: &Ledger, side: Colour) -> Counts
    ensures { result ≡ counts_of ledger.now side }
{
    match side {
        Colour::White => ledger.white,
        Colour::Black => ledger.black,
    }
}

/// How many captures a side's pawns made at least on some squares; nothing is known of classes that there aren't.
fn least_of(counts: &Counts, squares: Squares) -> u8
    ensures { IsTrue (is_class squares) → result ≡ least_of counts.now squares }
{
    match squares {
        Squares::All => counts.all.least,
        Squares::Dark => counts.dark.least,
        Squares::Light => counts.light.least,
        Squares::Class(k) => {
            if k < 16 {
                counts.least_on[k as usize]
            } else {
                0
            }
        }
    }
}

/// Whether it is known that they made at most so many.
fn is_few(range: &Range, number: u16) -> bool
    ensures { result ≡ is_few range.now number }
{
    range.most as u16 <= number && range.most < 16
}

/// Whether they did there; of a class no more is known than of all squares.
fn is_few_on(counts: &Counts, squares: Squares, number: u16) -> bool
    ensures { result ≡ is_few_on counts.now squares number }
{
    match squares {
        Squares::All => is_few(&counts.all, number),
        Squares::Dark => is_few(&counts.dark, number),
        Squares::Light => is_few(&counts.light, number),
        Squares::Class(_) => is_few(&counts.all, number),
    }
}

/// Whether they did there or in all.
fn is_most(counts: &Counts, squares: Squares, number: u16) -> bool
    ensures { result ≡ is_most counts.now squares number }
{
    is_few_on(counts, squares, number) || is_few(&counts.all, number)
}

/// How many men fewer a side has than it began with.
pub fn lacking(query: &Query, side: Colour) -> u8
    ensures number { result ≡ lacking query.now side }
    ensures few { result ≤ 64 }
{
    men_of(&array_of(query.odds), side).saturating_sub(men_of(&query.board, side))
}

/// Whether the other side lacks at most so many men.
fn are_lacking(query: &Query, side: Colour, number: u16) -> bool
    ensures { result ≡ are_lacking query.now side number }
{
    lacking(query, side.other()) as u16 <= number
}

/// Whether a side's pawns are known to have made at most so many captures on some squares.
fn have_few(query: &Query, ledger: &Ledger, side: Colour, squares: Squares, number: u16) -> bool
    ensures { result ≡ have_few query.now ledger.now side squares number }
{
    is_most(&counts_of(ledger, side), squares, number) || are_lacking(query, side, number)
}

/// Whether those of the side of the man on a square are known to have made at most so many besides the captures of its other pawns.
fn has_few(query: &Query, ledger: &Ledger, s: Square, place: Option<Man>, number: u8) -> bool
    ensures { result ≡ has_few query.now ledger.now s place number }
{
    match place {
        Some(man) => {
            let number = number as u16 + taken_by_others(query, ledger, man.colour, s);
            have_few(query, ledger, man.colour, Squares::All, number)
        }
        None => false,
    }
}

/// Whether it is known of the pawn on a square that he made at most so many captures.
fn has_taken_few(query: &Query, ledger: &Ledger, s: Square, number: u8) -> bool
    ensures { IsTrue result ↔ IsKnown (TookAtMost s number) query.now ledger.now }
{
    let place = query.board.at(s);
    is_a(Kind::Pawn, place)
        && (has_come_near(query, ledger, s, number) || has_few(query, ledger, s, place, number))
}

/// Whether the ledger of the query knows the fact.
pub fn is_known(query: &Query, ledger: &Ledger, fact: &Fact) -> bool
    requires { IsOnBoard fact.now }
    ensures { IsTrue result ↔ IsKnown fact.now query.now ledger.now }
{
    let first = array_of(query.odds);
    match *fact {
        Fact::Began(s, homes) => has_begun_among(query, ledger, s, homes),
        Fact::Original(s) => has_begun_as(query, ledger, s, false),
        Fact::Promoted(s) => has_begun_as(query, ledger, s, true),
        Fact::Captured(s) => ledger.captured.has(s),
        Fact::Took(s, number) => {
            is_a(Kind::Pawn, query.board.at(s)) && has_taken(query, ledger, s, number)
        }
        Fact::TookAtMost(s, number) => has_taken_few(query, ledger, s, number),
        Fact::Slanted(s) => is_a(Kind::Pawn, query.board.at(s)),
        Fact::Straight(s) => ledger.straight.has(s),
        Fact::Fell(h) => is_fallen(&first, &ledger.fates, h),
        Fact::FellToPawn(h) => is_struck(&first, &ledger.fates, h),
        Fact::EscapedPawns(h) => is_unstruck(&first, &ledger.fates, h),
        Fact::Became(h) => is_promoted(&first, &ledger.fates, h),
        Fact::NeverBecame(h) => is_unpromoted(&first, &ledger.fates, h),
        Fact::Stayed(h, squares) => has_stayed(query, h, squares),
        Fact::AtLeast(side, squares, number) => {
            number <= least_of(&counts_of(ledger, side), squares)
        }
        Fact::AtMost(side, squares, number) => {
            have_few(query, ledger, side, squares, number as u16)
        }
        Fact::Lacks(side, losses) => are_losses(&first, &query.board, side, &losses),
        Fact::Among(set, number) => is_among(query, ledger, set, number),
    }
}
