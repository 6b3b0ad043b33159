//! Which lines are told, and which squares a sentence names.

ghost use Rattle.std.specs.Prelude.{◌≡◌, ◌≤◌, ◌+◌, ◌<◌, ◌==◌, ◌&&◌, IfOk, cond, length, nat_lt, not};
ghost use Rattle.board_base.specs.Board.{is_in};
ghost use Rattle.std.specs.List.{list_any};
ghost use Rattle.ledger_prose.specs.Sentences.{are_all_taken, are_untold, fell_to, group_lines, has_taken_all, is_alone, is_at_home, is_captor, is_change, is_given, is_home_of, is_lacking, is_later_fall, is_named, is_no_pawn, is_of_group, is_officer_fall, is_origin, is_original, is_pawn_fall, is_promotion, is_taken, is_unmoved, names_square, number_named, same_manner, same_taker, told_taker};
ghost use Rattle.ledger_prose.specs.Words.{is_any_from};

use crate::parts::Group;
use board_base::{
    Castle, CastleSet, Colour, Kind, Square, SquareSet, array_of, is_a, is_of, is_the,
};
use castle_history::home;
use ledger_lines::{Line, Manner, Taker};
use query_base::Query;
use std::alloc::{AllocError, Global};

/// The line says whom this side lacks.
pub(crate) fn is_lacking(side: Colour, line: &Line) -> bool
    ensures { result ≡ is_lacking side line.now }
{
    match *line {
        Line::Lacks(other, _) => side == other,
        _ => false,
    }
}

/// The line says that this side's pawns made some captures, or fewer than the other side lacks men.
pub(crate) fn is_taken(side: Colour, line: &Line) -> bool
    ensures { result ≡ is_taken side line.now }
{
    match *line {
        Line::Captures(other, x) => {
            side == other && x.lacking > 0 && (x.all.least > 0 || x.all.most < x.lacking)
        }
        _ => false,
    }
}

/// One of the lines says that.
fn has_taken(side: Colour, lines: &[Line]) -> bool
    ensures { result ≡ list_any (is_taken side) lines.now }
{
    match lines {
        [] => false,
        [line, others @ ..] => is_taken(side, line) || has_taken(side, others),
    }
}

/// Whether there are such lines of a side's pawns, and none says how many men that side's pawns took.
pub(crate) fn are_untold(side: Colour, lines: &[Line], ways: &[Line]) -> bool
    ensures { result ≡ are_untold side lines.now ways.now }
{
    ways.len() > 0 && !has_taken(side, lines)
}

/// The line says that this side's pawns took all whom the other side lacks.
pub(crate) fn are_all_taken(side: Colour, line: &Line) -> bool
    ensures { result ≡ are_all_taken side line.now }
{
    match *line {
        Line::Captures(other, x) => side == other && x.lacking > 0 && x.lacking <= x.all.least,
        _ => false,
    }
}

/// One of the lines does.
pub(crate) fn has_taken_all(side: Colour, lines: &[Line]) -> bool
    ensures { result ≡ has_taken_all side lines.now }
{
    for line in lines {
        if are_all_taken(side, line) {
            return true;
        }
    }
    false
}

/// The line says of the man who began on a square that he was promoted and then taken.
fn is_later_fall(h: Square, line: &Line) -> bool
    ensures { result ≡ is_later_fall h line.now }
{
    match *line {
        Line::Fell(k, _, Manner::AsPromoted, _) => k.index() == h.index(),
        _ => false,
    }
}

/// One of the lines does.
fn was_taken_later(h: Square, lines: &[Line]) -> bool
    ensures { result ≡ list_any (is_later_fall h) lines.now }
{
    for line in lines {
        if is_later_fall(h, line) {
            return true;
        }
    }
    false
}

/// The king's or the rook's home of a castling that is held.
fn is_home_of(held: CastleSet, castle: Castle, s: Square) -> bool
    ensures { result ≡ is_home_of held castle s }
{
    let (king, rook) = home(castle);
    held.has(castle) && (king.index() == s.index() || rook.index() == s.index())
}

/// Of whoever stands there it is given that he never moved.
fn is_given(held: CastleSet, s: Square) -> bool
    ensures { result ≡ is_given held s }
{
    is_home_of(held, Castle::WhiteShort, s)
        || is_home_of(held, Castle::WhiteLong, s)
        || is_home_of(held, Castle::BlackShort, s)
        || is_home_of(held, Castle::BlackLong, s)
}

/// A king or an officer stands there.
fn is_no_pawn(query: &Query, s: Square) -> bool
    ensures { result ≡ is_no_pawn query.now s }
{
    let place = query.board.at(s);
    match place {
        None => false,
        Some(_) => !is_a(Kind::Pawn, place),
    }
}

/// Whether the square is named of the line's.
fn names_square(query: &Query, s: Square, line: &Line) -> bool
    ensures { result ≡ names_square query.now s line.now }
{
    match *line {
        Line::Unmoved(set) => set.has(s) && is_no_pawn(query, s) && !is_given(query.held, s),
        Line::Pawn(_, homes, _, _) => homes.has(s),
        Line::Original(set) => set.has(s),
        Line::Promoted(_, homes) => homes.has(s),
        Line::Among(_, set) => set.has(s),
        Line::Fell(h, _, _, _) => h.index() == s.index(),
        Line::Became(h) => h.index() == s.index(),
        _ => false,
    }
}

/// Whether one of the lines names the square.
pub(crate) fn is_named(query: &Query, lines: &[Line], s: Square) -> bool
    ensures { result ≡ is_named query.now lines.now s }
{
    for line in lines {
        if names_square(query, s, line) {
            return true;
        }
    }
    false
}

/// Whether they name this square or one behind it.
pub(crate) fn names_any(query: &Query, lines: &[Line], start: u8) -> bool
    requires { start ≤ 64 }
    ensures { result ≡ is_any_from (is_named query.now lines.now) start }
{
    for i in start..64 {
        if is_named(query, lines, Square::known(i)) {
            return true;
        }
    }
    false
}

/// One more if `more` says so.
pub(crate) fn one_more(so_far: u8, more: bool) -> u8
    requires { so_far < 64 }
    ensures { result ≡ so_far + cond more 1 0 }
{
    if more { so_far + 1 } else { so_far }
}

/// How many squares they name.
pub(crate) fn number_named(query: &Query, lines: &[Line]) -> u8
    ensures { result ≡ number_named query.now lines.now }
{
    let mut n = 0;
    for i in 0..64 {
        n = one_more(n, is_named(query, lines, Square::known(i)));
    }
    n
}

fn same_taker(one: Taker, other: Taker) -> bool
    ensures { result ≡ same_taker one other }
{
    match (one, other) {
        (Taker::Anyone, Taker::Anyone) => true,
        (Taker::Pawn, Taker::Pawn) => true,
        (Taker::Officer, Taker::Officer) => true,
        _ => false,
    }
}

fn same_manner(one: Manner, other: Manner) -> bool
    ensures { result ≡ same_manner one other }
{
    match (one, other) {
        (Manner::Anyhow, Manner::Anyhow) => true,
        (Manner::AsPawn, Manner::AsPawn) => true,
        (Manner::AsPromoted, Manner::AsPromoted) => true,
        _ => false,
    }
}

/// That a pawn took a man isn't said of him if pawns took all.
fn told_taker(all: bool, taker: Taker) -> Taker
    ensures { result ≡ told_taker all taker }
{
    match taker {
        Taker::Anyone => Taker::Anyone,
        Taker::Pawn => { if all { Taker::Anyone } else { Taker::Pawn } }
        Taker::Officer => Taker::Officer,
    }
}

/// Whether a man whom this side lacks fell to the first taker, as far as it is told.
fn fell_to(side: Colour, told: Taker, lines: &[Line], taker: Taker) -> bool
    ensures { result ≡ fell_to side told lines.now taker }
{
    let all = has_taken_all(side.other(), lines);
    same_taker(told, told_taker(all, taker))
}

/// The line is that of a pawn of this side who captured.
fn is_captor(side: Colour, query: &Query, line: &Line) -> bool
    ensures { result ≡ is_captor side query.now line.now }
{
    match *line {
        Line::Pawn(s, _, n, _) => is_the(side, Kind::Pawn, query.board.at(s)) && n > 0,
        _ => false,
    }
}

/// It is that of a pawn of this side who fell so.
fn is_pawn_fall(
    side: Colour,
    told: Taker,
    manner: Manner,
    query: &Query,
    lines: &[Line],
    line: &Line,
) -> bool
    ensures { result ≡ is_pawn_fall side told manner query.now lines.now line.now }
{
    match *line {
        Line::Fell(h, taker, how, _) => {
            is_the(side, Kind::Pawn, array_of(query.odds).at(h))
                && same_manner(manner, how)
                && fell_to(side, told, lines, taker)
        }
        _ => false,
    }
}

/// Whether a square is another one of the set.
fn is_other(h: Square, set: SquareSet, s: Square) -> bool
    ensures { result ≡ (is_in set s && not (s == h)) }
{
    set.has(s) && s.index() != h.index()
}

/// Whether the set has no other square.
fn is_alone(h: Square, set: SquareSet) -> bool
    ensures { result ≡ is_alone h set }
{
    for i in 0..64 {
        if is_other(h, set, Square::known(i)) {
            return false;
        }
    }
    true
}

/// Whether it is told of whoever began on a square that he was taken there.
fn is_at_home(h: Square, within: SquareSet) -> bool
    ensures { result ≡ is_at_home h within }
{
    within.has(h) && is_alone(h, within)
}

/// It is that of an officer of this side who fell so, at home or not.
fn is_officer_fall(
    side: Colour,
    told: Taker,
    home: bool,
    query: &Query,
    lines: &[Line],
    line: &Line,
) -> bool
    ensures { result ≡ is_officer_fall side told home query.now lines.now line.now }
{
    match *line {
        Line::Fell(h, taker, _, within) => {
            let place = array_of(query.odds).at(h);
            is_of(side, place)
                && !is_a(Kind::Pawn, place)
                && fell_to(side, told, lines, taker)
                && home == is_at_home(h, within)
        }
        _ => false,
    }
}

/// It is that of a promoted pawn of whom no line says that he was taken then.
fn is_promotion(side: Colour, query: &Query, lines: &[Line], line: &Line) -> bool
    ensures { result ≡ is_promotion side query.now lines.now line.now }
{
    match *line {
        Line::Became(h) => {
            is_the(side, Kind::Pawn, array_of(query.odds).at(h)) && !was_taken_later(h, lines)
        }
        _ => false,
    }
}

fn is_original(line: &Line) -> bool
    ensures { result ≡ is_original line.now }
{
    matches!(*line, Line::Original(_))
}

fn is_unmoved(line: &Line) -> bool
    ensures { result ≡ is_unmoved line.now }
{
    matches!(*line, Line::Unmoved(_))
}

/// The line is one of the group.
fn is_of_group(group: Group, query: &Query, lines: &[Line], line: &Line) -> bool
    ensures { result ≡ is_of_group group query.now lines.now line.now }
{
    match group {
        Group::Captors(side) => is_captor(side, query, line),
        Group::Pawns(side, taker, manner) => {
            is_pawn_fall(side, taker, manner, query, lines, line)
        }
        Group::Officers(side, taker) => is_officer_fall(side, taker, false, query, lines, line),
        Group::AtHome(side, taker) => is_officer_fall(side, taker, true, query, lines, line),
        Group::Promoted(side) => is_promotion(side, query, lines, line),
        Group::Original => is_original(line),
        Group::Unmoved => is_unmoved(line),
    }
}

/// The lines of the group.
pub(crate) fn group_lines(
    alloc: Global,
    group: Group,
    query: &Query,
    lines: &[Line],
) -> Result<Vec<Line>, AllocError>
    ensures { IfOk result (λ kept. kept.items ≡ group_lines group query.now lines.now) }
{
    let mut kept = Vec::new(alloc);
    for line in lines {
        if is_of_group(group, query, lines, line) {
            kept.push(*line)?;
        }
    }
    Ok(kept)
}

/// The line is that of a promoted man, or of men of whom some are.
pub(crate) fn is_change(line: &Line) -> bool
    ensures { result ≡ is_change line.now }
{
    matches!(*line, Line::Promoted(_, _) | Line::Among(_, _))
}

/// It is that of a man who stands where he didn't begin.
pub(crate) fn is_origin(line: &Line) -> bool
    ensures { result ≡ is_origin line.now }
{
    matches!(*line, Line::Man(_, _))
}
