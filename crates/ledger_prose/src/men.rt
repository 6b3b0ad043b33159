//! Sentences about single men, and about several men of whom the same is told.

ghost use Rattle.std.specs.Prelude.{◌≡◌, ◌++◌, IfOk, cond};
ghost use Rattle.ledger_lines.specs.declared.lines.Line.TheVariants.{Among, Man, Promoted};
ghost use Rattle.ledger_prose.specs.Words.{all_pawns_of, among_words, group_words, is_single, line_words, manner_words, officers_words, pawn_was, pawn_words, pawns_of, some_pawns_of, taker_words};
ghost use Rattle.ledger_prose.specs.declared.parts.Group.TheVariants.{Pawns};

use crate::due::number_named;
use crate::names::{Joint, Style, push_names, push_of_men, push_square_words};
use crate::numbers::push_count;
use crate::parts::Group;
use board_base::{Colour, Square, SquareSet};
use ledger_lines::{Line, Manner, Taker};
use prose_words::{colour_word, push_square, say, side_word};
use query_base::Query;
use std::alloc::AllocError;

/// The lines name one square.
fn is_single(query: &Query, lines: &[Line]) -> bool
    ensures { result ≡ is_single query.now lines.now }
{
    number_named(query, lines) == 1
}

/// One of two texts.
fn chosen(first: bool, one: &'static [u8], other: &'static [u8]) -> &'static [u8]
    ensures { result.now ≡ cond first one.now other.now }
{
    if first { one } else { other }
}

/// Adds all pawns of a side.
fn push_all_pawns_of(side: Colour, out: &mut Vec<u8>) -> Result<(), AllocError>
    ensures { IfOk result (λ _. out.new.items ≡ out.old.items ++ all_pawns_of side) }
{
    say(b"All of ", out)?;
    say(side_word(side), out)?;
    say(b"'s pawns were ", out)
}

/// Adds pawns of a side by their files.
fn push_some_pawns_of(
    side: Colour,
    query: &Query,
    lines: &[Line],
    out: &mut Vec<u8>,
) -> Result<(), AllocError>
    ensures { IfOk result (λ _. out.new.items ≡ out.old.items ++ some_pawns_of side query.now lines.now) }
{
    let ending = chosen(is_single(query, lines), b"pawn was ", b"pawns were ");
    say(side_word(side), out)?;
    say(b"'s ", out)?;
    push_names(Joint::And, Style::Files, query, lines, out)?;
    say(ending, out)
}

/// Adds them so, or all if they are eight.
#[tactic(auto, unfolding(crate::specs::Words::pawns_of))]
fn push_pawns_of(
    side: Colour,
    query: &Query,
    lines: &[Line],
    out: &mut Vec<u8>,
) -> Result<(), AllocError>
    ensures { IfOk result (λ _. out.new.items ≡ out.old.items ++ pawns_of side query.now lines.now) }
{
    if number_named(query, lines) == 8 {
        push_all_pawns_of(side, out)
    } else {
        push_some_pawns_of(side, query, lines, out)
    }
}

/// As what one or several were taken.
fn manner_words(single: bool, manner: Manner) -> &'static [u8]
    ensures { result.now ≡ manner_words single manner }
{
    match manner {
        Manner::Anyhow => b"taken",
        Manner::AsPawn => chosen(single, b"taken as a pawn", b"taken as pawns"),
        Manner::AsPromoted => b"promoted and then taken",
    }
}

/// Adds that pawns of this side took them.
fn push_pawn_words(single: bool, side: Colour, out: &mut Vec<u8>) -> Result<(), AllocError>
    ensures { IfOk result (λ _. out.new.items ≡ out.old.items ++ pawn_words single side) }
{
    if single {
        say(b" by a ", out)?;
        say(colour_word(side), out)?;
        say(b"pawn", out)
    } else {
        say(b" by ", out)?;
        say(colour_word(side), out)?;
        say(b"pawns", out)
    }
}

/// Adds by whom of this side they were taken.
fn push_taker(single: bool, side: Colour, taker: Taker, out: &mut Vec<u8>) -> Result<(), AllocError>
    ensures { IfOk result (λ _. out.new.items ≡ out.old.items ++ taker_words single side taker) }
{
    match taker {
        Taker::Anyone => Ok(()),
        Taker::Pawn => push_pawn_words(single, side, out),
        Taker::Officer => say(b", but not by a pawn", out),
    }
}

/// Adds that pawns of this side fell.
fn push_pawn_falls(
    side: Colour,
    taker: Taker,
    manner: Manner,
    query: &Query,
    lines: &[Line],
    out: &mut Vec<u8>,
) -> Result<(), AllocError>
    ensures { IfOk result (λ _. out.new.items ≡ out.old.items ++ group_words (Pawns side taker manner) query.now lines.now) }
{
    let single = is_single(query, lines);
    push_pawns_of(side, query, lines, out)?;
    say(manner_words(single, manner), out)?;
    push_taker(single, side.other(), taker, out)
}

/// Adds that officers of this side fell, in words for one or for several.
fn push_officer_falls(
    side: Colour,
    taker: Taker,
    query: &Query,
    lines: &[Line],
    one: &'static [u8],
    several: &'static [u8],
    out: &mut Vec<u8>,
) -> Result<(), AllocError>
    ensures { IfOk result (λ _. out.new.items ≡ out.old.items ++ officers_words side taker query.now lines.now one.now several.now) }
{
    let single = is_single(query, lines);
    say(b"The ", out)?;
    push_names(Joint::AndThe, Style::Homes, query, lines, out)?;
    say(chosen(single, one, several), out)?;
    push_taker(single, side.other(), taker, out)
}

/// Adds what the lines of a group say.
pub(crate) fn push_group_words(
    group: Group,
    query: &Query,
    lines: &[Line],
    out: &mut Vec<u8>,
) -> Result<(), AllocError>
    ensures { IfOk result (λ _. out.new.items ≡ out.old.items ++ group_words group query.now lines.now) }
{
    match group {
        Group::Captors(_) => Ok(()),
        Group::Pawns(side, taker, manner) => {
            push_pawn_falls(side, taker, manner, query, lines, out)
        }
        Group::Officers(side, taker) => push_officer_falls(
            side,
            taker,
            query,
            lines,
            b" was taken",
            b" were taken",
            out,
        ),
        Group::AtHome(side, taker) => push_officer_falls(
            side,
            taker,
            query,
            lines,
            b" was taken at home",
            b" were taken at home",
            out,
        ),
        Group::Promoted(side) => {
            push_pawns_of(side, query, lines, out)?;
            say(b"promoted", out)
        }
        Group::Original => push_of_men(
            query,
            lines,
            b" is not a promoted pawn",
            b" are not promoted pawns",
            out,
        ),
        Group::Unmoved => push_of_men(query, lines, b" never moved", b" never moved", out),
    }
}

/// Adds where the man on a square began.
fn push_origin(query: &Query, s: Square, h: Square, out: &mut Vec<u8>) -> Result<(), AllocError>
    ensures { IfOk result (λ _. out.new.items ≡ out.old.items ++ line_words query.now (Man s h)) }
{
    say(b"The ", out)?;
    push_square_words(Style::Standing, query, s, out)?;
    say(b" is that of ", out)?;
    push_square(h, out)
}

/// Adds which pawn a man was, of some, or only that he was one if they are many.
fn push_pawn_was(
    many: bool,
    query: &Query,
    lines: &[Line],
    out: &mut Vec<u8>,
) -> Result<(), AllocError>
    ensures { IfOk result (λ _. out.new.items ≡ out.old.items ++ pawn_was many query.now lines.now) }
{
    if many {
        say(b"a promoted pawn", out)
    } else {
        say(b"the promoted pawn of ", out)?;
        push_names(Joint::Or, Style::Squares, query, lines, out)
    }
}

/// Adds that the man on a square is a promoted pawn.
fn push_promoted(
    query: &Query,
    s: Square,
    homes: SquareSet,
    out: &mut Vec<u8>,
) -> Result<(), AllocError>
    ensures { IfOk result (λ _. out.new.items ≡ out.old.items ++ line_words query.now (Promoted s homes)) }
{
    let lines = [Line::Promoted(s, homes)];
    let many = number_named(query, &lines) > 3;
    say(b"The ", out)?;
    push_square_words(Style::Standing, query, s, out)?;
    say(b" is ", out)?;
    push_pawn_was(many, query, &lines, out)
}

/// Adds that at least so many of some men are promoted pawns.
fn push_some_of(query: &Query, n: u8, lines: &[Line], out: &mut Vec<u8>) -> Result<(), AllocError>
    ensures { IfOk result (λ _. out.new.items ≡ out.old.items ++ among_words query.now n lines.now) }
{
    let ending = chosen(n == 1, b" is a promoted pawn", b" are promoted pawns");
    say(b"At least ", out)?;
    push_count(n, out)?;
    say(b" of the men on ", out)?;
    push_names(Joint::And, Style::Squares, query, lines, out)?;
    say(ending, out)
}

/// Adds that so many of the men on a set are promoted pawns, or all.
fn push_among(query: &Query, n: u8, set: SquareSet, out: &mut Vec<u8>) -> Result<(), AllocError>
    ensures { IfOk result (λ _. out.new.items ≡ out.old.items ++ line_words query.now (Among n set)) }
{
    let lines = [Line::Among(n, set)];
    if number_named(query, &lines) == n {
        push_of_men(
            query,
            &lines,
            b" is a promoted pawn",
            b" are promoted pawns",
            out,
        )
    } else {
        push_some_of(query, n, &lines, out)
    }
}

/// Adds what a line says.
pub(crate) fn push_line_words(
    query: &Query,
    line: &Line,
    out: &mut Vec<u8>,
) -> Result<(), AllocError>
    ensures { IfOk result (λ _. out.new.items ≡ out.old.items ++ line_words query.now line.now) }
{
    match *line {
        Line::Man(s, h) => push_origin(query, s, h, out),
        Line::Promoted(s, homes) => push_promoted(query, s, homes, out),
        Line::Among(n, set) => push_among(query, n, set, out),
        _ => Ok(()),
    }
}
