ghost use Rattle.std.specs.Prelude.{◌≡◌, ◌∷◌, [], ◌&&◌, ◌||◌, not, nat_le, nat_lt, ◌<◌, false, true, IfSome, IsTrue, Some, None};
ghost use Rattle.board_base.specs.Attacks.{attacks, on_one_diagonal, on_one_line};
ghost use Rattle.board_base.specs.Board.{at, man};
ghost use Rattle.board_base.specs.declared.men.Kind.TheVariants.{Pawn};
ghost use Rattle.men_account.specs.Account.{excess_of};
ghost use Rattle.play_rules.specs.Laws.{HasNoPawnOnEnds, is_end};
ghost use Rattle.unmove_gen.specs.Listed.{fits_ends, is_retraction, mover, obeys, taking, taking_en_passant};
ghost use Rattle.unmove_gen.specs.Plain.{AreFacts, AreFitting, IsPlain, KnowsAlone, TellListed, goes_plainly, has_room, kept_of, king_goes, put_back, starts_on_end};

use crate::conditions::{fits_ends, obeys, obeys_clock};
use crate::facts::{QueryFacts, has_room};
use crate::legality::is_retraction;
use crate::plain_moves::{attacks_past, goes_to_empty, put_back, starts_on_end};
use crate::ways::ways_to;
use board_base::{Board, Castle, Colour, Kind, Man, Move, Square, Unmove, is_a, man_attacks};
use castle_history::castling_from;
use ep_history::double_of;
use play_rules::is_end;
use query_base::Query;

fn taking(m: &Move, captured: Option<Kind>) -> Unmove
    ensures { result ≡ record { mv = m.now; captured = captured; ep = false } }
{
    Unmove {
        mv: *m,
        captured,
        ep: false,
    }
}

fn taking_en_passant(m: &Move) -> Unmove
    ensures { result ≡ taking_en_passant m.now }
{
    Unmove {
        mv: *m,
        captured: Some(Kind::Pawn),
        ep: true,
    }
}

/// Of each candidate of the move whether it fits, one by one. A candidate fits that is a retraction of the query, but for the clock.
fn one_by_one(query: &Query, m: &Move) -> [bool; 7]
    ensures { AreFitting query.now m.now result }
{
    [
        is_retraction(query, &taking(m, None)),
        is_retraction(query, &taking(m, Some(Kind::Pawn))),
        is_retraction(query, &taking(m, Some(Kind::Knight))),
        is_retraction(query, &taking(m, Some(Kind::Bishop))),
        is_retraction(query, &taking(m, Some(Kind::Rook))),
        is_retraction(query, &taking(m, Some(Kind::Queen))),
        is_retraction(query, &taking_en_passant(m)),
    ]
}

/// The castling whose king goes so, if a king stands on the target.
fn king_goes(board: &Board, m: &Move) -> Option<Castle>
    ensures { result ≡ king_goes board.now m.now }
{
    if is_a(Kind::King, board.at(m.to)) {
        castling_from(m.from, m.to)
    } else {
        None
    }
}

/// The capture en passant fits.
fn fits_en_passant(query: &Query, m: &Move) -> bool
    ensures { result ≡ is_retraction query.now (taking_en_passant m.now) }
{
    if !is_a(Kind::Pawn, query.board.at(m.to)) {
        return false;
    }
    match double_of(m, query.turn.other()) {
        Some(_) => is_retraction(query, &taking_en_passant(m)),
        None => false,
    }
}

/// No man of the side that moved attacks the king of the side to move.
fn is_left_alone(before: &Board, query: &Query, king: Square) -> bool
    ensures { result ≡ not (attacks before.now king (mover query.now)) }
{
    !before.attacked(king, query.turn.other())
}

/// The man on the target goes so if the target was empty.
fn steps(query: &Query, them: Man, m: &Move) -> bool
    requires ends { HasNoPawnOnEnds query.now.board }
    requires plain { IsPlain query.now.board (mover query.now) m.now }
    requires there { at query.now.board m.now.to ≡ Some them }
    ensures { result ≡ goes_plainly (put_back query.now.board m.now None) (mover query.now) m.now }
{
    goes_to_empty(&query.board, them, m.from, m.to)
}

/// The man on the target goes so if a man stood there.
fn strikes(query: &Query, them: Man, m: &Move) -> bool
    requires ends { HasNoPawnOnEnds query.now.board }
    requires plain { IsPlain query.now.board (mover query.now) m.now }
    requires there { at query.now.board m.now.to ≡ Some them }
    ensures { result ≡ goes_plainly (put_back query.now.board m.now (man query.now.turn Pawn)) (mover query.now) m.now }
{
    man_attacks(&query.board, them, m.from, m.to)
}

/// He goes so if the target was empty, and comes from no end as a pawn.
fn comes_quietly(query: &Query, them: Man, m: &Move) -> bool
    requires ends { HasNoPawnOnEnds query.now.board }
    requires plain { IsPlain query.now.board (mover query.now) m.now }
    requires there { at query.now.board m.now.to ≡ Some them }
    ensures { result ≡ (goes_plainly (put_back query.now.board m.now None) (mover query.now) m.now && not (starts_on_end query.now.board m.now)) }
{
    steps(query, them, m) && !starts_on_end(&query.board, m)
}

/// He goes so if a man stood on the target, and comes from no end as a pawn. An officer or a king does as to an empty target.
fn comes_taking(query: &Query, them: Man, m: &Move, quiet: bool) -> bool
    requires ends { HasNoPawnOnEnds query.now.board }
    requires plain { IsPlain query.now.board (mover query.now) m.now }
    requires there { at query.now.board m.now.to ≡ Some them }
    requires quiet { quiet ≡ (goes_plainly (put_back query.now.board m.now None) (mover query.now) m.now && not (starts_on_end query.now.board m.now)) }
    ensures { result ≡ (goes_plainly (put_back query.now.board m.now (man query.now.turn Pawn)) (mover query.now) m.now && not (starts_on_end query.now.board m.now)) }
{
    match them.kind {
        Kind::Pawn => strikes(query, them, m) && !starts_on_end(&query.board, m),
        _ => quiet,
    }
}

/// With the man put back and nobody on the target, no man of the side that moved attacks the king. It may be known that none does
/// with the man taken off, and then only he may.
fn is_free(query: &Query, king: Square, them: Man, m: &Move, alone: bool) -> bool
    requires plain { IsPlain query.now.board (mover query.now) m.now }
    requires there { at query.now.board m.now.to ≡ Some them }
    requires alone { KnowsAlone query.now king m.now.to alone }
    ensures { result ≡ not (attacks (put_back query.now.board m.now None) king (mover query.now)) }
{
    king.index();
    if alone {
        !attacks_past(&query.board, them, m, king)
    } else {
        is_left_alone(&put_back(&query.board, m, None), query, king)
    }
}

/// He comes so at all, and then leaves the king alone.
fn comes_freely(comes: bool, query: &Query, king: Square, them: Man, m: &Move, alone: bool) -> bool
    requires plain { IsPlain query.now.board (mover query.now) m.now }
    requires there { at query.now.board m.now.to ≡ Some them }
    requires alone { KnowsAlone query.now king m.now.to alone }
    ensures { result ≡ (comes && not (attacks (put_back query.now.board m.now None) king (mover query.now))) }
{
    comes && is_free(query, king, them, m, alone)
}

/// The squares are on one file, rank or diagonal.
fn are_on_a_line(s: Square, t: Square) -> bool
    ensures { result ≡ (on_one_line s t || on_one_diagonal s t) }
{
    s.index();
    ways_to(Colour::White, Kind::Queen, t).has(s)
}

/// With the man on a square taken off no man of the side that moved attacks the king.
fn is_alone_without(query: &Query, facts: &QueryFacts, to: Square) -> bool
    requires { AreFacts query.now facts.now }
    ensures { KnowsAlone query.now facts.now.king to result }
{
    to.index();
    if !facts.checked && !are_on_a_line(to, facts.king) {
        return true;
    }
    let mut bare = query.board;
    bare.put(to, None);
    is_left_alone(&bare, query, facts.king)
}

/// Whether with the man on a square taken off no man of the side that moved attacks the king.
pub fn is_alone(query: &Query, facts: &Option<QueryFacts>, to: Square) -> bool
    requires { IfSome facts.now (λ f. AreFacts query.now f) }
    ensures { IfSome facts.now (λ f. KnowsAlone query.now f.king to result) }
{
    match facts {
        Some(facts) => is_alone_without(query, facts, to),
        None => false,
    }
}

fn pawn_of(colour: Colour) -> Option<Man>
    ensures { result ≡ man colour Pawn }
{
    Some(Man {
        colour,
        kind: Kind::Pawn,
    })
}

/// The man comes so with a man on the target, and then the king is left alone; it may be known that he is with the target empty.
fn strikes_freely(strikes: bool, query: &Query, king: Square, m: &Move, free: bool) -> bool
    requires { free ≡ true → attacks (put_back query.now.board m.now (man query.now.turn Pawn)) king (mover query.now) ≡ false }
    ensures { result ≡ (strikes && not (attacks (put_back query.now.board m.now (man query.now.turn Pawn)) king (mover query.now))) }
{
    strikes && (free || is_left_alone(&put_back(&query.board, m, pawn_of(query.turn)), query, king))
}

/// And the side has no more men than it may.
fn fits_account(goes: bool, facts: &QueryFacts) -> bool
    ensures { result ≡ (goes && nat_le facts.now.used facts.now.allowed.pawns) }
{
    goes && facts.used <= facts.allowed.pawns as u16
}

/// And the side has room for one man more of this kind.
fn fits_room(goes: bool, facts: &QueryFacts, kind: Kind, s: Square) -> bool
    requires { facts.now.used ≡ excess_of facts.now.men facts.now.allowed }
    ensures { result ≡ (goes && has_room facts.now.allowed facts.now.men kind s) }
{
    goes && has_room(facts, kind, s)
}

/// And for one pawn more, on no end.
fn fits_pawn(goes: bool, facts: &QueryFacts, s: Square) -> bool
    requires { facts.now.used ≡ excess_of facts.now.men facts.now.allowed }
    ensures { result ≡ (goes && (has_room facts.now.allowed facts.now.men Pawn s && not (is_end s))) }
{
    goes && (has_room(facts, Kind::Pawn, s) && !is_end(s))
}

/// Of each candidate of a move whether it fits, if only the capture en passant may be.
fn only_en_passant(query: &Query, m: &Move) -> [bool; 7]
    ensures { result ≡ false ∷ false ∷ false ∷ false ∷ false ∷ false ∷ is_retraction query.now (taking_en_passant m.now) ∷ [] }
{
    let passes = fits_en_passant(query, m);
    [false, false, false, false, false, false, passes]
}

/// Of each candidate of a plain move of this man whether it fits.
fn fitting_of_man(query: &Query, facts: &QueryFacts, them: Man, m: &Move, alone: bool) -> [bool; 7]
    requires alone { KnowsAlone query.now facts.now.king m.now.to alone }
    requires facts { AreFacts query.now facts.now }
    requires plain { IsPlain query.now.board (mover query.now) m.now }
    requires there { at query.now.board m.now.to ≡ Some them }
    ensures { AreFitting query.now m.now result }
{
    let king = facts.king;
    let quiet = comes_quietly(query, them, m);
    let taking = comes_taking(query, them, m, quiet);
    if !(quiet | taking) {
        return only_en_passant(query, m);
    }
    if !obeys(query, m) {
        return [false; 7];
    }
    let free = comes_freely(quiet | taking, query, king, them, m, alone);
    let takes = strikes_freely(taking, query, king, m, free);
    [
        fits_account(quiet & free, facts),
        fits_pawn(takes, facts, m.to),
        fits_room(takes, facts, Kind::Knight, m.to),
        fits_room(takes, facts, Kind::Bishop, m.to),
        fits_room(takes, facts, Kind::Rook, m.to),
        fits_room(takes, facts, Kind::Queen, m.to),
        fits_en_passant(query, m),
    ]
}

/// Of each candidate of a plain move whether it fits.
fn fitting_of_plain(query: &Query, facts: &QueryFacts, m: &Move, alone: bool) -> [bool; 7]
    requires alone { KnowsAlone query.now facts.now.king m.now.to alone }
    requires facts { AreFacts query.now facts.now }
    requires plain { IsPlain query.now.board (mover query.now) m.now }
    ensures { AreFitting query.now m.now result }
{
    match query.board.at(m.to) {
        Some(them) => fitting_of_man(query, facts, them, m, alone),
        None => one_by_one(query, m),
    }
}

/// A move to where a man of the side that moved stands, from an empty square, with no castling or promotion.
fn is_plain(query: &Query, m: &Move) -> bool
    ensures { IsTrue result → IsPlain query.now.board (mover query.now) m.now }
{
    query.board.is_whole();
    let _from = m.from.index();
    let _to = m.to.index();
    if !fits_ends(query, &taking(m, None)) {
        return false;
    }
    m.promo.is_none() && king_goes(&query.board, m).is_none()
}

/// Of each candidate of the move whether it fits.
fn fitting(query: &Query, facts: &Option<QueryFacts>, m: &Move, alone: bool) -> [bool; 7]
    requires facts { IfSome facts.now (λ f. AreFacts query.now f) }
    requires alone { IfSome facts.now (λ f. KnowsAlone query.now f.king m.now.to alone) }
    ensures { AreFitting query.now m.now result }
{
    match facts {
        Some(facts) if is_plain(query, m) => fitting_of_plain(query, facts, m, alone),
        _ => one_by_one(query, m),
    }
}

/// Of those that fit, a quiet move if this is allowed, and captures if these are.
fn kept(fitting: [bool; 7], quiet: bool, takes: bool) -> [bool; 7]
    ensures { result ≡ kept_of fitting quiet takes }
{
    [
        fitting[0] & quiet,
        fitting[1] & takes,
        fitting[2] & takes,
        fitting[3] & takes,
        fitting[4] & takes,
        fitting[5] & takes,
        fitting[6] & takes,
    ]
}

/// Of each candidate of the move whether it is listed.
pub fn listed(query: &Query, facts: &Option<QueryFacts>, m: &Move, alone: bool) -> [bool; 7]
    requires facts { IfSome facts.now (λ f. AreFacts query.now f) }
    requires alone { IfSome facts.now (λ f. KnowsAlone query.now f.king m.now.to alone) }
    ensures { TellListed query.now m.now result }
{
    let fitting = fitting(query, facts, m, alone);
    let quiet = obeys_clock(query, &taking(m, None));
    let takes = obeys_clock(query, &taking_en_passant(m));
    kept(fitting, quiet, takes)
}
