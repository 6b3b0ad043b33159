//! Sentences about the captures by a side's pawns.

ghost use Rattle.std.specs.Prelude.{◌≡◌, ◌==◌, ◌++◌, [], IfOk, codes, cond, map, not};
ghost use Rattle.std.specs.List.{list_any};
ghost use Rattle.ledger_lines.specs.Slants.{tells_way, way_words as slants_words};
ghost use Rattle.proof_story.specs.Rendering.{parted};
ghost use Rattle.ledger_prose.specs.Words.{all_words, are_more, both_words, captured_words, few_words, gone_words, is_open, it_words, least_words, limit_words, made_words, number_left, number_taken, number_told, of_them, part_words, rest_words, share_words, side_took, taken_by, taken_words, took_words, way_words, ways_sign, ways_words};

use crate::leftovers::push_left;
use crate::names::{Joint, Style, push_names};
use crate::numbers::push_count;
use board_base::{Colour, Square, SquareSet};
use ledger_lines::{Line, Takings, push_way as push_way_squares, tells_way};
use prose_words::{colour_word, push_square, say, side_word};
use query_base::Query;
use std::alloc::AllocError;

/// Adds that a pawn of this side took it.
fn push_it(side: Colour, out: &mut Vec<u8>) -> Result<(), AllocError>
    ensures { IfOk result (λ _. out.new.items ≡ out.old.items ++ it_words side) }
{
    say(b"A ", out)?;
    say(colour_word(side), out)?;
    say(b"pawn took it", out)
}

/// Adds that a side's pawns took both or all.
fn push_both_or_all(n: u8, out: &mut Vec<u8>) -> Result<(), AllocError>
    ensures { IfOk result (λ _. out.new.items ≡ out.old.items ++ both_words n) }
{
    if n == 2 {
        say(b"both", out)
    } else {
        say(b"all ", out)?;
        push_count(n, out)
    }
}

/// Adds that a side's pawns took all whom the other side lacks, so many.
fn push_all(side: Colour, n: u8, out: &mut Vec<u8>) -> Result<(), AllocError>
    ensures { IfOk result (λ _. out.new.items ≡ out.old.items ++ all_words side n) }
{
    if n == 1 {
        push_it(side, out)
    } else {
        say(side_word(side), out)?;
        say(b"'s pawns took ", out)?;
        push_both_or_all(n, out)
    }
}

/// Adds that they took so many, behind some words.
fn push_of_them(before: &[u8], n: u8, out: &mut Vec<u8>) -> Result<(), AllocError>
    ensures { IfOk result (λ _. out.new.items ≡ out.old.items ++ of_them before.now n) }
{
    say(before, out)?;
    push_count(n, out)?;
    say(b" of them", out)
}

/// Adds that they took at most so many.
fn push_few(most: u8, out: &mut Vec<u8>) -> Result<(), AllocError>
    ensures { IfOk result (λ _. out.new.items ≡ out.old.items ++ few_words most) }
{
    if most == 0 {
        say(b"never captured", out)
    } else {
        push_of_them(b"took at most ", most, out)
    }
}

/// Adds how many they took at most, if that is fewer than the other side lacks.
fn push_limit(most: u8, missing: u8, out: &mut Vec<u8>) -> Result<(), AllocError>
    ensures { IfOk result (λ _. out.new.items ≡ out.old.items ++ limit_words most missing) }
{
    if most < missing {
        say(b", at most ", out)?;
        push_count(most, out)
    } else {
        Ok(())
    }
}

/// Adds that they took at least so many.
fn push_least(least: u8, most: u8, missing: u8, out: &mut Vec<u8>) -> Result<(), AllocError>
    ensures { IfOk result (λ _. out.new.items ≡ out.old.items ++ least_words least most missing) }
{
    if least == most {
        push_of_them(b"took exactly ", least, out)
    } else {
        push_of_them(b"took at least ", least, out)?;
        push_limit(most, missing, out)
    }
}

/// How many the pawn of a line took at least.
fn taken_by(line: &Line) -> u8
    ensures { result ≡ taken_by line.now }
{
    match *line {
        Line::Pawn(_, _, n, _) => n,
        _ => 0,
    }
}

/// Whether the pawns of these lines took more than so many.
fn are_more(n: u8, ways: &[Line]) -> bool
    ensures { result ≡ are_more n ways.now }
{
    let mut left = n;
    for way in ways {
        let taken = taken_by(way);
        if left < taken {
            return true;
        }
        left -= taken;
    }
    false
}

/// Adds how many they took, or that they took some, if the lines of single pawns say more.
fn push_number_taken(more: bool, x: &Takings, out: &mut Vec<u8>) -> Result<(), AllocError>
    ensures { IfOk result (λ _. out.new.items ≡ out.old.items ++ number_taken more x.now) }
{
    if more {
        say(b"took some of them", out)?;
        push_limit(x.all.most, x.lacking, out)
    } else {
        push_least(x.all.least, x.all.most, x.lacking, out)
    }
}

/// Adds that they took some, or not all.
fn push_part(more: bool, x: &Takings, out: &mut Vec<u8>) -> Result<(), AllocError>
    ensures { IfOk result (λ _. out.new.items ≡ out.old.items ++ part_words more x.now) }
{
    if x.all.least == 0 {
        push_few(x.all.most, out)
    } else {
        push_number_taken(more, x, out)
    }
}

/// Adds how many of those whom the other side lacks a side's pawns took.
fn push_taken(side: Colour, more: bool, x: &Takings, out: &mut Vec<u8>) -> Result<(), AllocError>
    ensures { IfOk result (λ _. out.new.items ≡ out.old.items ++ taken_words side more x.now) }
{
    if x.lacking <= x.all.least {
        push_all(side, x.lacking, out)
    } else {
        say(side_word(side), out)?;
        say(b"'s pawns ", out)?;
        push_part(more, x, out)
    }
}

/// Adds what stands before a number that is exact, or before the least.
fn least_sign(exact: bool) -> &'static [u8]
    ensures { result.now ≡ cond exact (codes " ") (codes " at least ") }
{
    if exact { b" " } else { b" at least " }
}

/// Adds how many a pawn took, unless there is only one to be taken.
fn push_share(single: bool, exact: bool, n: u8, out: &mut Vec<u8>) -> Result<(), AllocError>
    ensures { IfOk result (λ _. out.new.items ≡ out.old.items ++ share_words single exact n) }
{
    if single {
        Ok(())
    } else {
        say(least_sign(exact), out)?;
        push_count(n, out)
    }
}

/// Adds to where a pawn went, and how many he took.
fn push_gone(
    s: Square,
    single: bool,
    exact: bool,
    n: u8,
    out: &mut Vec<u8>,
) -> Result<(), AllocError>
    ensures { IfOk result (λ _. out.new.items ≡ out.old.items ++ gone_words s single exact n) }
{
    say(b"-", out)?;
    push_square(s, out)?;
    push_share(single, exact, n, out)
}

/// Adds on which squares he captured, if it is known, and otherwise to where he went, and how many he took.
fn push_course(
    s: Square,
    homes: SquareSet,
    single: bool,
    exact: bool,
    n: u8,
    out: &mut Vec<u8>,
) -> Result<(), AllocError>
    ensures { IfOk result (λ _. out.new.items ≡ out.old.items ++ cond (tells_way homes s) (slants_words (codes "x") homes s) (gone_words s single exact n)) }
{
    if tells_way(homes, s) {
        push_way_squares(b"x", homes, s, out)
    } else {
        push_gone(s, single, exact, n, out)
    }
}

/// Adds from where the pawn of a line went, and where he captured.
fn push_way(query: &Query, single: bool, line: &Line, out: &mut Vec<u8>) -> Result<(), AllocError>
    ensures { IfOk result (λ _. out.new.items ≡ out.old.items ++ way_words query.now single line.now) }
{
    match *line {
        Line::Pawn(s, homes, n, exact) => {
            push_names(Joint::Slash, Style::Squares, query, &[*line], out)?;
            push_course(s, homes, single, exact, n, out)
        }
        _ => Ok(()),
    }
}

/// Adds what stands before one that isn't the first.
fn push_comma(i: usize, out: &mut Vec<u8>) -> Result<(), AllocError>
    ensures { IfOk result (λ _. out.new.items ≡ out.old.items ++ cond (i == 0) [] (codes ", ")) }
{
    if i == 0 { Ok(()) } else { say(b", ", out) }
}

/// Adds them with commas between them.
fn push_list(
    query: &Query,
    single: bool,
    ways: &[Line],
    out: &mut Vec<u8>,
) -> Result<(), AllocError>
    ensures { IfOk result (λ _. out.new.items ≡ out.old.items ++ parted (codes ", ") (map (way_words query.now single) ways.now)) }
{
    for i in 0..ways.len() {
        push_comma(i, out)?;
        push_way(query, single, &ways[i], out)?;
    }
    Ok(())
}

/// How many captures are spoken of before the ways.
fn number_told(x: &Takings) -> u8
    ensures { result ≡ number_told x.now }
{
    if x.lacking <= x.all.least {
        x.lacking
    } else {
        x.all.least
    }
}

/// How many captures are left of so many beside those by the pawns of these lines.
fn number_left(n: u8, ways: &[Line]) -> u8
    ensures { result ≡ number_left n ways.now }
{
    match ways {
        [] => n,
        [way, others @ ..] => number_left(n.saturating_sub(taken_by(way)), others),
    }
}

/// Whether the pawn of a line may have made more captures than it says.
fn is_open(line: &Line) -> bool
    ensures { result ≡ is_open line.now }
{
    match *line {
        Line::Pawn(s, homes, _, exact) => !exact && !tells_way(homes, s),
        _ => false,
    }
}

/// Whether one of several may.
fn are_open(ways: &[Line]) -> bool
    ensures { result ≡ list_any is_open ways.now }
{
    match ways {
        [] => false,
        [way, others @ ..] => is_open(way) || are_open(others),
    }
}

/// What stands before the ways.
fn ways_sign(left: u8, ways: &[Line]) -> &'static [u8]
    ensures { result.now ≡ ways_sign left ways.now }
{
    if left > 0 && are_open(ways) {
        b"; among these captures: "
    } else {
        b": "
    }
}

/// Adds the captures that are left, if some are, and the pawns of these lines made none of them.
fn push_rest(left: u8, x: &Takings, ways: &[Line], out: &mut Vec<u8>) -> Result<(), AllocError>
    ensures { IfOk result (λ _. out.new.items ≡ out.old.items ++ rest_words left x.now ways.now) }
{
    if left == 0 || are_open(ways) {
        Ok(())
    } else {
        push_left(left, x, ways, out)
    }
}

/// Adds the ways behind what stands before them, if there are any, and the captures that are left.
fn push_ways(
    query: &Query,
    left: u8,
    x: &Takings,
    ways: &[Line],
    out: &mut Vec<u8>,
) -> Result<(), AllocError>
    ensures { IfOk result (λ _. out.new.items ≡ out.old.items ++ ways_words query.now left x.now ways.now) }
{
    if ways.len() == 0 {
        return Ok(());
    }
    say(ways_sign(left, ways), out)?;
    push_list(query, x.lacking == 1, ways, out)?;
    push_rest(left, x, ways, out)
}

/// Adds what the numbers of a side's captures say, with the lines of its pawns.
fn push_side_took(
    side: Colour,
    query: &Query,
    x: &Takings,
    ways: &[Line],
    out: &mut Vec<u8>,
) -> Result<(), AllocError>
    ensures { IfOk result (λ _. out.new.items ≡ out.old.items ++ side_took side query.now x.now ways.now) }
{
    let more = are_more(x.all.least, ways);
    let left = number_left(number_told(x), ways);
    push_taken(side, more, x, out)?;
    push_ways(query, left, x, ways, out)
}

/// Adds what a line of captures says, with the lines of the side's pawns.
pub(crate) fn push_took(
    query: &Query,
    line: &Line,
    ways: &[Line],
    out: &mut Vec<u8>,
) -> Result<(), AllocError>
    ensures { IfOk result (λ _. out.new.items ≡ out.old.items ++ took_words query.now line.now ways.now) }
{
    match *line {
        Line::Captures(side, x) => push_side_took(side, query, &x, ways, out),
        _ => Ok(()),
    }
}

/// What stands before the captures of a side's pawns: that they made one, or more.
fn made_words(more: bool) -> &'static [u8]
    ensures { result.now ≡ made_words more }
{
    if more {
        b"'s pawns made at least these captures: "
    } else {
        b"'s pawns made at least one capture: "
    }
}

/// Adds that a side's pawns made the captures of several lines.
fn push_made(
    side: Colour,
    more: bool,
    query: &Query,
    ways: &[Line],
    out: &mut Vec<u8>,
) -> Result<(), AllocError>
    ensures { IfOk result (λ _. out.new.items ≡ out.old.items ++ captured_words side more query.now ways.now) }
{
    say(side_word(side), out)?;
    say(made_words(more), out)?;
    push_list(query, !more, ways, out)
}

/// The same, with the words for one capture or for more.
pub(crate) fn push_captured(
    side: Colour,
    query: &Query,
    ways: &[Line],
    out: &mut Vec<u8>,
) -> Result<(), AllocError>
    ensures { IfOk result (λ _. out.new.items ≡ out.old.items ++ captured_words side (are_more 1 ways.now) query.now ways.now) }
{
    push_made(side, are_more(1, ways), query, ways, out)
}
