ghost use Rattle.std.specs.Prelude.{◌≡◌, ◌∷◌, ◌++◌, IfOk, drop};
ghost use Rattle.std.specs.List.{list_any};
ghost use Rattle.retraction_bars.specs.Phrases.{phrase};
ghost use Rattle.retraction_bars.specs.Numbers.{bar_at};
ghost use Rattle.retraction_bars.specs.Sentences.{bar_words, bystander_initial, double_words, is_ground, is_of_bar, is_whole, label_words, man_words, men_words, named_words, origin_words, origins_words, sentence_words, sentences_words, spaced, square_words, start_of, tells, text_if, ways_words, whole_words, wholes_words};

use crate::bars::Bar;
use crate::gathering::Clause;
use crate::numbers::bar_at;
use crate::phrases::{Phrase, say_phrase};
use crate::scopes::{Manner, same_manner};
use board_base::{Castle, Colour, Kind, Move, Square, is_of};
use castle_history::home;
use prose_words::{initial, place_initial, push_square, say, side_word};
use query_base::Query;
use std::alloc::{AllocError, Global};

/// The squares of the double step that the query demands, as in `e2-e4`.
fn push_double(m: &Option<Move>, out: &mut Vec<u8>) -> Result<(), AllocError>
    ensures { IfOk result (λ _. out.new.items ≡ out.old.items ++ double_words m.now) }
{
    if let Some(m) = m {
        push_square(m.from, out)?;
        say(b"-", out)?;
        push_square(m.to, out)?;
    }
    Ok(())
}

/// That the last move was a double step, which the query demands.
fn push_only(query: &Query, out: &mut Vec<u8>) -> Result<(), AllocError>
    ensures { IfOk result (λ _. out.new.items ≡ out.old.items ++ bar_words query.now Bar.Only) }
{
    say_phrase(Phrase::LastMove, out)?;
    push_double(&query.only, out)
}

/// The letter of a man who stood on a square before the move of another, and gave check: he stands there still, or is a rook that castled.
fn bystander_initial(query: &Query, s: Square) -> &'static [u8]
    ensures { result.now ≡ bystander_initial query.now s }
{
    let place = query.board.at(s);
    if is_of(query.turn.other(), place) {
        place_initial(place)
    } else {
        initial(Kind::Rook)
    }
}

/// That the man on this square gave check already.
fn push_check(query: &Query, s: Square, out: &mut Vec<u8>) -> Result<(), AllocError>
    ensures { IfOk result (λ _. out.new.items ≡ out.old.items ++ bar_words query.now (Bar.Check s)) }
{
    say(bystander_initial(query, s), out)?;
    push_square(s, out)?;
    say_phrase(Phrase::GaveCheck, out)
}

/// That the king and the rook of a right that is held never moved.
fn push_held(query: &Query, castle: Castle, out: &mut Vec<u8>) -> Result<(), AllocError>
    ensures { IfOk result (λ _. out.new.items ≡ out.old.items ++ bar_words query.now (Bar.Held castle)) }
{
    let (king, rook) = home(castle);
    say_phrase(Phrase::TheKing, out)?;
    push_square(king, out)?;
    say_phrase(Phrase::AndTheRook, out)?;
    push_square(rook, out)?;
    say_phrase(Phrase::NeverMoved, out)
}

/// That this side would have had too many pawns and promoted men.
fn push_account(query: &Query, side: Colour, out: &mut Vec<u8>) -> Result<(), AllocError>
    ensures { IfOk result (λ _. out.new.items ≡ out.old.items ++ bar_words query.now (Bar.Account side)) }
{
    say(side_word(side), out)?;
    say_phrase(Phrase::TooMany, out)
}

/// What bars a retraction, in words.
pub fn push_bar(query: &Query, bar: Bar, out: &mut Vec<u8>) -> Result<(), AllocError>
    ensures { IfOk result (λ _. out.new.items ≡ out.old.items ++ bar_words query.now bar) }
{
    match bar {
        Bar::Only => push_only(query, out),
        Bar::Check(s) => push_check(query, s, out),
        Bar::Occupied => say_phrase(Phrase::Occupied, out),
        Bar::Itself => say_phrase(Phrase::ItGave, out),
        Bar::Held(castle) => push_held(query, castle, out),
        Bar::Barred => say_phrase(Phrase::RuledOut, out),
        Bar::Account(side) => push_account(query, side, out),
        Bar::Clock => say_phrase(Phrase::ByClock, out),
        Bar::Passed => say_phrase(Phrase::NotPassed, out),
        Bar::Otherwise => say_phrase(Phrase::Illegal, out),
    }
}

/// How the list of the squares that a man may have come from begins, by how he went.
fn start_of(manner: Manner) -> Phrase
    ensures { result ≡ start_of manner }
{
    match manner {
        Manner::Anywhere | Manner::Origin => Phrase::From,
        Manner::Quiet => Phrase::Quietly,
        Manner::Taking => Phrase::Capturing,
        Manner::Passing => Phrase::EnPassant,
    }
}

/// Whether the clause tells of the man on t, in this manner, the bar with this number.
fn is_ground(t: Square, manner: Manner, n: u8, c: &Clause) -> bool
    ensures { result ≡ is_ground t manner n c.now }
{
    c.to == t && same_manner(manner, c.scope.manner) && c.bar == n
}

/// Whether some clause does.
fn has_ground(cs: &[Clause], t: Square, manner: Manner, n: u8) -> bool
    ensures { result ≡ list_any (is_ground t manner n) cs.now }
{
    cs.iter().any(|c| is_ground(t, manner, n, c))
}

/// Whether the clause does so of this origin, for a man who was or wasn't promoted by the move.
fn tells(t: Square, manner: Manner, n: u8, from: Square, promoted: bool, c: &Clause) -> bool
    ensures { result ≡ tells t manner n from promoted c.now }
{
    is_ground(t, manner, n, c) && c.scope.from == from && c.scope.promoted == promoted
}

/// Whether some clause does so.
fn is_told(cs: &[Clause], t: Square, manner: Manner, n: u8, from: Square, promoted: bool) -> bool
    ensures { result ≡ list_any (tells t manner n from promoted) cs.now }
{
    cs.iter().any(|c| tells(t, manner, n, from, promoted, c))
}

/// A square after a space.
fn push_spaced(s: Square, out: &mut Vec<u8>) -> Result<(), AllocError>
    ensures { IfOk result (λ _. out.new.items ≡ out.old.items ++ spaced s) }
{
    say(b" ", out)?;
    push_square(s, out)
}

/// The same, if the square is to be named.
fn push_spaced_if(given: bool, s: Square, out: &mut Vec<u8>) -> Result<(), AllocError>
    ensures { IfOk result (λ _. out.new.items ≡ out.old.items ++ text_if given (spaced s)) }
{
    if given {
        push_spaced(s, out)?;
    }
    Ok(())
}

/// A square after a space, with the note that the man was a pawn there, if it is to be named.
fn push_pawn_if(given: bool, s: Square, out: &mut Vec<u8>) -> Result<(), AllocError>
    ensures { IfOk result (λ _. out.new.items ≡ out.old.items ++ text_if given (spaced s ++ phrase Phrase.AsPawn)) }
{
    if given {
        push_spaced(s, out)?;
        say_phrase(Phrase::AsPawn, out)?;
    }
    Ok(())
}

/// An origin, once for each clause on it: of a man who came as himself, and of a pawn that was promoted.
fn push_origin(
    cs: &[Clause],
    t: Square,
    manner: Manner,
    n: u8,
    from: Square,
    out: &mut Vec<u8>,
) -> Result<(), AllocError>
    ensures { IfOk result (λ _. out.new.items ≡ out.old.items ++ origin_words cs.now t manner n from) }
{
    push_spaced_if(is_told(cs, t, manner, n, from, false), from, out)?;
    push_pawn_if(is_told(cs, t, manner, n, from, true), from, out)
}

/// The origins of which the bar with this number is told, by squares ascending.
fn push_origins(
    cs: &[Clause],
    t: Square,
    manner: Manner,
    n: u8,
    out: &mut Vec<u8>,
) -> Result<(), AllocError>
    ensures { IfOk result (λ _. out.new.items ≡ out.old.items ++ origins_words cs.now t manner n) }
{
    for i in 0..64 {
        push_origin(cs, t, manner, n, Square::known(i), out)?;
    }
    Ok(())
}

/// The ways of this manner of the man on t that the bar with this number bars, behind a comma.
fn push_ways(
    query: &Query,
    cs: &[Clause],
    n: u8,
    t: Square,
    manner: Manner,
    out: &mut Vec<u8>,
) -> Result<(), AllocError>
    ensures { IfOk result (λ _. out.new.items ≡ out.old.items ++ 44 ∷ (label_words query.now t ++ phrase (start_of manner) ++ origins_words cs.now t manner n)) }
{
    say(b",", out)?;
    push_label(query, t, out)?;
    say_phrase(start_of(manner), out)?;
    push_origins(cs, t, manner, n, out)
}

/// The same, if the bar with this number bars any ways of this manner.
fn push_ways_if(
    query: &Query,
    cs: &[Clause],
    n: u8,
    t: Square,
    manner: Manner,
    out: &mut Vec<u8>,
) -> Result<(), AllocError>
    ensures { IfOk result (λ _. out.new.items ≡ out.old.items ++ ways_words query.now cs.now n t manner) }
{
    if has_ground(cs, t, manner, n) {
        push_ways(query, cs, n, t, manner, out)?;
    }
    Ok(())
}

/// The ways of the man on t that the bar with this number bars, manner by manner.
fn push_man(
    query: &Query,
    cs: &[Clause],
    n: u8,
    t: Square,
    out: &mut Vec<u8>,
) -> Result<(), AllocError>
    ensures { IfOk result (λ _. out.new.items ≡ out.old.items ++ man_words query.now cs.now n t) }
{
    push_ways_if(query, cs, n, t, Manner::Origin, out)?;
    push_ways_if(query, cs, n, t, Manner::Quiet, out)?;
    push_ways_if(query, cs, n, t, Manner::Taking, out)?;
    push_ways_if(query, cs, n, t, Manner::Passing, out)
}

/// The ways that the bar with this number bars, of each man, by squares ascending.
fn push_men(query: &Query, cs: &[Clause], n: u8, out: &mut Vec<u8>) -> Result<(), AllocError>
    ensures { IfOk result (λ _. out.new.items ≡ out.old.items ++ men_words query.now cs.now n) }
{
    for i in 0..64 {
        push_man(query, cs, n, Square::known(i), out)?;
    }
    Ok(())
}

/// Of each man the ways that the bar with this number bars, each behind a comma.
fn men_of(alloc: Global, query: &Query, cs: &[Clause], n: u8) -> Result<Vec<u8>, AllocError>
    ensures { IfOk result (λ men. men.items ≡ men_words query.now cs.now n) }
{
    let mut men = Vec::new(alloc);
    push_men(query, cs, n, &mut men)?;
    Ok(men)
}

/// The list without its first letter.
fn rest_of(list: &[u8]) -> &[u8]
    ensures { result.now ≡ drop 1 list.now }
{
    if list.len() == 0 { list } else { &list[1..] }
}

/// From where, if the bar speaks of it.
fn push_any_square(bar: Bar, out: &mut Vec<u8>) -> Result<(), AllocError>
    ensures { IfOk result (λ _. out.new.items ≡ out.old.items ++ square_words bar) }
{
    match bar {
        Bar::Itself => say_phrase(Phrase::AnySquare, out),
        _ => Ok(()),
    }
}

/// The man on t, if the bar with this number bars all of his ways.
fn push_whole_if(
    query: &Query,
    cs: &[Clause],
    n: u8,
    t: Square,
    out: &mut Vec<u8>,
) -> Result<(), AllocError>
    ensures { IfOk result (λ _. out.new.items ≡ out.old.items ++ whole_words query.now cs.now n t) }
{
    if has_ground(cs, t, Manner::Anywhere, n) {
        push_label(query, t, out)?;
    }
    Ok(())
}

/// The men all of whose ways the bar with this number bars.
fn push_wholes(query: &Query, cs: &[Clause], n: u8, out: &mut Vec<u8>) -> Result<(), AllocError>
    ensures { IfOk result (λ _. out.new.items ≡ out.old.items ++ wholes_words query.now cs.now n) }
{
    for i in 0..64 {
        push_whole_if(query, cs, n, Square::known(i), out)?;
    }
    Ok(())
}

/// Those, and then the men of whom it bars some ways.
fn push_wholes_first(
    query: &Query,
    cs: &[Clause],
    n: u8,
    out: &mut Vec<u8>,
) -> Result<(), AllocError>
    ensures { IfOk result (λ _. out.new.items ≡ out.old.items ++ (wholes_words query.now cs.now n ++ square_words (bar_at n) ++ men_words query.now cs.now n)) }
{
    push_wholes(query, cs, n, out)?;
    push_any_square(bar_at(n), out)?;
    push_men(query, cs, n, out)
}

/// The men of whom the bar with this number bars some ways, if it bars all ways of none: no comma stands before the first.
fn push_men_alone(
    alloc: Global,
    query: &Query,
    cs: &[Clause],
    n: u8,
    out: &mut Vec<u8>,
) -> Result<(), AllocError>
    ensures { IfOk result (λ _. out.new.items ≡ out.old.items ++ drop 1 (men_words query.now cs.now n)) }
{
    let men = men_of(alloc, query, cs, n)?;
    say(rest_of(men.as_slice()), out)
}

/// Whether the clause tells that the bar with this number bars all of a man's ways.
fn is_whole(n: u8, c: &Clause) -> bool
    ensures { result ≡ is_whole n c.now }
{
    same_manner(Manner::Anywhere, c.scope.manner) && c.bar == n
}

/// Whether the bar with this number bars all of some man's ways.
fn has_whole(cs: &[Clause], n: u8) -> bool
    ensures { result ≡ list_any (is_whole n) cs.now }
{
    cs.iter().any(|c| is_whole(n, c))
}

/// Whom the bar with this number concerns: the men all of whose ways it bars, and the ways of the others.
fn push_named(
    alloc: Global,
    query: &Query,
    cs: &[Clause],
    n: u8,
    out: &mut Vec<u8>,
) -> Result<(), AllocError>
    ensures { IfOk result (λ _. out.new.items ≡ out.old.items ++ named_words query.now cs.now n) }
{
    if has_whole(cs, n) {
        push_wholes_first(query, cs, n, out)
    } else {
        push_men_alone(alloc, query, cs, n, out)
    }
}

/// The sentence of the bar with this number.
fn push_sentence(
    alloc: Global,
    query: &Query,
    cs: &[Clause],
    n: u8,
    out: &mut Vec<u8>,
) -> Result<(), AllocError>
    ensures { IfOk result (λ _. out.new.items ≡ out.old.items ++ (named_words query.now cs.now n ++ phrase Phrase.Is ++ bar_words query.now (bar_at n) ++ phrase Phrase.Stop)) }
{
    push_named(alloc, query, cs, n, out)?;
    say_phrase(Phrase::Is, out)?;
    push_bar(query, bar_at(n), out)?;
    say_phrase(Phrase::Stop, out)
}

/// Whether the clause is one of the bar with this number.
fn is_of_bar(n: u8, c: &Clause) -> bool
    ensures { result ≡ is_of_bar n c.now }
{
    c.bar == n
}

/// Whether some clause is.
fn has_bar(cs: &[Clause], n: u8) -> bool
    ensures { result ≡ list_any (is_of_bar n) cs.now }
{
    cs.iter().any(|c| is_of_bar(n, c))
}

/// The sentence of the bar with this number, if some clause is one of it.
fn push_sentence_if(
    alloc: Global,
    query: &Query,
    cs: &[Clause],
    n: u8,
    out: &mut Vec<u8>,
) -> Result<(), AllocError>
    ensures { IfOk result (λ _. out.new.items ≡ out.old.items ++ sentence_words query.now cs.now n) }
{
    if has_bar(cs, n) {
        push_sentence(alloc, query, cs, n, out)?;
    }
    Ok(())
}

/// Bar by bar, the men all of whose ways it bars, and those of whom it bars some, with these ways.
pub fn push_sentences(
    alloc: Global,
    query: &Query,
    cs: &[Clause],
    out: &mut Vec<u8>,
) -> Result<(), AllocError>
    ensures { IfOk result (λ _. out.new.items ≡ out.old.items ++ sentences_words query.now cs.now) }
{
    for n in 0..146 {
        push_sentence_if(alloc, query, cs, n, out)?;
    }
    Ok(())
}

/// A man by his letter and his square, after a space.
pub fn push_label(query: &Query, t: Square, out: &mut Vec<u8>) -> Result<(), AllocError>
    ensures { IfOk result (λ _. out.new.items ≡ out.old.items ++ label_words query.now t) }
{
    say(b" ", out)?;
    say(place_initial(query.board.at(t)), out)?;
    push_square(t, out)
}
