ghost use Rattle.std.specs.Prelude.{◌≡◌, ◌↔◌, IsTrue};
ghost use Rattle.board_base.specs.Board.{array_of, at};
ghost use Rattle.ledger_told.specs.Due.{IsManLine, IsPromotedMan, IsSquareLine, are_all_taken, fall_line, is_moved_man, is_news, is_one_of_two, manner_of, mirrored, most_made, promotion_line, taker_of, tells_manner, tells_taker, tells_within, told_manner, told_within};

use crate::pawns::{homes_left, pawn_line};
use crate::topics::Topic;
use crate::wholes::{all_taken, most_made};
use board_base::{Board, Colour, Kind, Square, SquareSet, array_of, is_a, is_of, is_the};
use cage_rules::region;
use ledger_lines::{
    Fact, Line, Manner, Taker, has_officer, is_fallen, is_known, is_promoted, is_struck,
    is_unpromoted, is_unstruck, number_in,
};
use ledger_search::{Fates, Ledger};
use query_base::Query;

/// Whether a rook or knight of this side stands on the first square, and a man of it began on the second, another.
fn is_moved_man(query: &Query, side: Colour, s: Square, h: Square) -> bool
    ensures { result ≡ is_moved_man query.now side s h }
{
    let place = query.board.at(s);
    (is_the(side, Kind::Rook, place) || is_the(side, Kind::Knight, place))
        && is_of(side, array_of(query.odds).at(h))
        && h.index() != s.index()
}

/// Whether he is known to have begun there.
fn has_moved_from(query: &Query, ledger: &Ledger, side: Colour, s: Square, h: Square) -> bool
    ensures { IsTrue result ↔ IsManLine query.now ledger.now side s h }
{
    is_moved_man(query, side, s, h)
        && is_known(
            query,
            ledger,
            &Fact::Began(s, SquareSet::from_bits(0).with(h)),
        )
}

/// The line of the rook or knight on a square.
fn man_line(query: &Query, ledger: &Ledger, side: Colour, s: Square) -> Option<Line>
    ensures { IsSquareLine (Topic.Men side) query.now ledger.now s result }
{
    for i in 0..64 {
        let h = Square::known(i);
        if has_moved_from(query, ledger, side, s, h) {
            return Some(Line::Man(s, h));
        }
    }
    None
}

/// Whether the man on a square is an officer of this side who is known to have begun as a pawn.
fn is_promoted_man(query: &Query, ledger: &Ledger, side: Colour, s: Square) -> bool
    ensures { IsTrue result ↔ IsPromotedMan query.now ledger.now side s }
{
    let place = query.board.at(s);
    is_of(side, place) && !is_a(Kind::Pawn, place) && is_known(query, ledger, &Fact::Promoted(s))
}

/// The line of the officer on a square who began as a pawn.
fn officer_line(query: &Query, ledger: &Ledger, side: Colour, s: Square) -> Option<Line>
    ensures { IsSquareLine (Topic.Officers side) query.now ledger.now s result }
{
    if is_promoted_man(query, ledger, side, s) {
        Some(Line::Promoted(s, homes_left(query, ledger, s)))
    } else {
        None
    }
}

/// Who took the man of a home, as far as it is known.
fn taker_of(first: &Board, fates: &Fates, h: Square) -> Taker
    ensures { result ≡ taker_of first.now fates.now h }
{
    if is_struck(first, fates, h) {
        Taker::Pawn
    } else if is_unstruck(first, fates, h) {
        Taker::Officer
    } else {
        Taker::Anyone
    }
}

/// As what he fell.
fn manner_of(first: &Board, fates: &Fates, h: Square) -> Manner
    ensures { result ≡ manner_of first.now fates.now h }
{
    if is_unpromoted(first, fates, h) {
        Manner::AsPawn
    } else if is_promoted(first, fates, h) {
        Manner::AsPromoted
    } else {
        Manner::Anyhow
    }
}

/// The same, if he began as a pawn.
fn told_manner(first: &Board, fates: &Fates, h: Square) -> Manner
    ensures { result ≡ told_manner first.now fates.now h }
{
    if is_a(Kind::Pawn, first.at(h)) {
        manner_of(first, fates, h)
    } else {
        Manner::Anyhow
    }
}

/// Whether it says more than the numbers of captures who took him.
fn tells_taker(query: &Query, ledger: &Ledger, first: &Board, h: Square) -> bool
    requires { first.now ≡ array_of query.now.odds }
    ensures { result ≡ tells_taker query.now ledger.now (at first.now h) h }
{
    match first.at(h) {
        None => false,
        Some(man) => {
            let by = man.colour.other();
            (is_struck(first, &ledger.fates, h) && !all_taken(query, ledger, by))
                || (is_unstruck(first, &ledger.fates, h) && most_made(query, ledger, by) > 0)
        }
    }
}

/// Whether it does as what he fell.
fn tells_manner(first: &Board, fates: &Fates, h: Square) -> bool
    ensures { result ≡ tells_manner first.now fates.now h }
{
    is_a(Kind::Pawn, first.at(h))
        && (is_unpromoted(first, fates, h) || is_promoted(first, fates, h))
}

/// The square on the other wing.
fn mirrored(h: Square) -> Square
    ensures { result ≡ mirrored h }
{
    Square::known(8 * h.rank() + (7 - h.file()))
}

/// Whether he is one of two rooks or knights of whom the other may stand.
fn is_one_of_two(first: &Board, fates: &Fates, h: Square) -> bool
    ensures { result ≡ is_one_of_two first.now fates.now h }
{
    let place = first.at(h);
    (is_a(Kind::Rook, place) || is_a(Kind::Knight, place)) && !is_fallen(first, fates, mirrored(h))
}

/// Whether he is an officer who can't have left three squares at most, beside the men of a frozen set.
fn tells_within(query: &Query, set: SquareSet, h: Square) -> bool
    ensures { result ≡ tells_within query.now set h }
{
    has_officer(query, h) && number_in(region(set, h)) <= 3
}

/// These squares, if he can't; none otherwise.
fn told_within(query: &Query, set: SquareSet, h: Square) -> SquareSet
    ensures { result ≡ told_within query.now set h }
{
    if tells_within(query, set, h) {
        region(set, h)
    } else {
        SquareSet::from_bits(0)
    }
}

/// Whether it says more than the lines before that he fell.
fn is_news(query: &Query, ledger: &Ledger, first: &Board, set: SquareSet, h: Square) -> bool
    requires { first.now ≡ array_of query.now.odds }
    ensures { result ≡ is_news query.now ledger.now set h }
{
    tells_taker(query, ledger, first, h)
        || tells_manner(first, &ledger.fates, h)
        || is_one_of_two(first, &ledger.fates, h)
        || tells_within(query, set, h)
}

/// The line of the fall of the man who began on a square.
fn fall_line(query: &Query, ledger: &Ledger, set: SquareSet, h: Square) -> Option<Line>
    ensures { result ≡ fall_line query.now ledger.now set h }
{
    let first = array_of(query.odds);
    if is_fallen(&first, &ledger.fates, h) && is_news(query, ledger, &first, set, h) {
        let taker = taker_of(&first, &ledger.fates, h);
        let manner = told_manner(&first, &ledger.fates, h);
        let within = told_within(query, set, h);
        Some(Line::Fell(h, taker, manner, within))
    } else {
        None
    }
}

/// The line of his promotion.
fn promotion_line(query: &Query, ledger: &Ledger, h: Square) -> Option<Line>
    ensures { result ≡ promotion_line query.now ledger.now h }
{
    let first = array_of(query.odds);
    if is_promoted(&first, &ledger.fates, h) && is_a(Kind::Pawn, first.at(h)) {
        Some(Line::Became(h))
    } else {
        None
    }
}

/// The line that is told of a square.
pub(crate) fn square_line(topic: &Topic, query: &Query, ledger: &Ledger, s: Square) -> Option<Line>
    ensures { IsSquareLine topic.now query.now ledger.now s result }
{
    match *topic {
        Topic::Pawns(side) => pawn_line(query, ledger, side, s),
        Topic::Men(side) => man_line(query, ledger, side, s),
        Topic::Officers(side) => officer_line(query, ledger, side, s),
        Topic::Falls(set) => fall_line(query, ledger, set, s),
        Topic::Promotions => promotion_line(query, ledger, s),
    }
}
