ghost use Rattle.std.specs.Prelude.{◌≡◌, ◌||◌, ◌++◌, ◌<◌, IfOk};
ghost use Rattle.board_base.specs.Board.{is_in};
ghost use Rattle.prose_words.specs.Words.{squares_words};
ghost use Rattle.ledger_lines.specs.declared.lines.Line.TheVariants.{Among, Became, Captures, Fell, Lacks, Man, Pawn, Promoted};
ghost use Rattle.ledger_lines.specs.LineTexts.{class_words, classes_words, dark_words, home_word, homes_words, line_text, losses_words, made_words, manner_word, more_word, range_words, repeated, shade_word, side_letter, spaced_number, spaced_square, taker_word, takings_words, within_words};

use crate::among::number_in;
use crate::lines::{Line, Manner, Taker, Takings};
use crate::losses::Losses;
use crate::slants::{push_way, tells_way};
use board_base::{Colour, Square, SquareSet};
use ledger_search::Range;
use prose_words::{push_number, push_square, push_squares, say};
use std::alloc::AllocError;

/// The letter of a side.
fn side_letter(side: Colour) -> &'static [u8]
    ensures { result.now ≡ side_letter side }
{
    match side {
        Colour::White => b"w",
        Colour::Black => b"b",
    }
}

/// Who took a man, after a space.
fn taker_word(taker: Taker) -> &'static [u8]
    ensures { result.now ≡ taker_word taker }
{
    match taker {
        Taker::Anyone => b"",
        Taker::Pawn => b" pawn",
        Taker::Officer => b" officer",
    }
}

/// As what he was taken, after a space.
fn manner_word(manner: Manner) -> &'static [u8]
    ensures { result.now ≡ manner_word manner }
{
    match manner {
        Manner::Anyhow => b"",
        Manner::AsPawn => b" as-pawn",
        Manner::AsPromoted => b" as-promoted",
    }
}

/// A number after a space.
fn push_spaced_number(number: u8, out: &mut Vec<u8>) -> Result<(), AllocError>
    ensures { IfOk result (λ _. out.new.items ≡ out.old.items ++ spaced_number number) }
{
    say(b" ", out)?;
    push_number(number as usize, out)
}

/// A square after a space.
fn push_spaced_square(s: Square, out: &mut Vec<u8>) -> Result<(), AllocError>
    ensures { IfOk result (λ _. out.new.items ≡ out.old.items ++ spaced_square s) }
{
    say(b" ", out)?;
    push_square(s, out)
}

/// Adds a word so many times.
fn push_repeated(word: &[u8], number: u8, out: &mut Vec<u8>) -> Result<(), AllocError>
    ensures { IfOk result (λ _. out.new.items ≡ out.old.items ++ repeated word.now number) }
{
    for _ in 0..number {
        say(word, out)?;
    }
    Ok(())
}

/// Adds a word for each man who is lacking.
fn push_losses(losses: &Losses, out: &mut Vec<u8>) -> Result<(), AllocError>
    ensures { IfOk result (λ _. out.new.items ≡ out.old.items ++ losses_words losses.now) }
{
    push_repeated(b" q", losses.queens, out)?;
    push_repeated(b" r", losses.rooks, out)?;
    push_repeated(b" bd", losses.dark_bishops, out)?;
    push_repeated(b" bl", losses.light_bishops, out)?;
    push_repeated(b" n", losses.knights, out)?;
    push_repeated(b" p", losses.pawns, out)
}

/// Adds which men a side lacks.
fn push_lacking(side: Colour, losses: &Losses, out: &mut Vec<u8>) -> Result<(), AllocError>
    ensures { IfOk result (λ _. out.new.items ≡ out.old.items ++ line_text (Lacks side losses.now)) }
{
    say(b"lacks ", out)?;
    say(side_letter(side), out)?;
    push_losses(losses, out)
}

/// The shade of squares, behind their file.
fn shade_word(dark: bool) -> &'static [u8]
    ensures { result.now ≡ shade_word dark }
{
    if dark { b"-dark" } else { b"-light" }
}

/// Adds how many captures were made on a class at least, if some were.
fn push_class(k: u8, number: u8, out: &mut Vec<u8>) -> Result<(), AllocError>
    requires { k < 16 }
    ensures { IfOk result (λ _. out.new.items ≡ out.old.items ++ class_words k number) }
{
    if number == 0 {
        return Ok(());
    }
    say(b" on ", out)?;
    out.push(b'a' + k / 2)?;
    say(shade_word(k % 2 == 0), out)?;
    push_spaced_number(number, out)
}

/// Adds how many were made on each class.
fn push_classes(numbers: &[u8; 16], out: &mut Vec<u8>) -> Result<(), AllocError>
    ensures { IfOk result (λ _. out.new.items ≡ out.old.items ++ classes_words numbers.now) }
{
    for k in 0..16 {
        push_class(k, numbers[k as usize], out)?;
    }
    Ok(())
}

/// Adds two numbers, each after a space.
fn push_range(range: &Range, out: &mut Vec<u8>) -> Result<(), AllocError>
    ensures { IfOk result (λ _. out.new.items ≡ out.old.items ++ range_words range.now) }
{
    push_spaced_number(range.least, out)?;
    push_spaced_number(range.most, out)
}

/// Adds how many captures were made on dark squares, if it is told.
fn push_dark(dark: &Option<Range>, out: &mut Vec<u8>) -> Result<(), AllocError>
    ensures { IfOk result (λ _. out.new.items ≡ out.old.items ++ dark_words dark.now) }
{
    match dark {
        None => Ok(()),
        Some(range) => {
            say(b" dark", out)?;
            push_range(range, out)
        }
    }
}

/// Adds the numbers of captures of a side.
fn push_captures(side: Colour, takings: &Takings, out: &mut Vec<u8>) -> Result<(), AllocError>
    ensures { IfOk result (λ _. out.new.items ≡ out.old.items ++ line_text (Captures side takings.now)) }
{
    say(b"captures ", out)?;
    say(side_letter(side), out)?;
    push_range(&takings.all, out)?;
    push_spaced_number(takings.lacking, out)?;
    push_dark(&takings.dark, out)?;
    push_classes(&takings.least_on, out)
}

fn either(first: bool, second: bool) -> bool
    ensures { result ≡ (first || second) }
{
    first || second
}

/// Adds a home, after a space, or after a comma if there are several.
fn push_home_if(given: bool, several: bool, h: Square, out: &mut Vec<u8>) -> Result<(), AllocError>
    ensures { IfOk result (λ _. out.new.items ≡ out.old.items ++ home_word given several h) }
{
    if !given {
        return Ok(());
    }
    say(if several { b"," } else { b" " }, out)?;
    push_square(h, out)
}

/// Adds the homes of a set with commas between two.
fn push_homes(homes: SquareSet, out: &mut Vec<u8>) -> Result<(), AllocError>
    ensures { IfOk result (λ _. out.new.items ≡ out.old.items ++ homes_words homes) }
{
    let mut several = false;
    for i in 0..64 {
        let h = Square::known(i);
        let given = homes.has(h);
        push_home_if(given, several, h, out)?;
        several = either(several, given);
    }
    Ok(())
}

/// A sign behind a number that may be greater.
fn more_word(exact: bool) -> &'static [u8]
    ensures { result.now ≡ more_word exact }
{
    if exact { b"" } else { b"+" }
}

/// Adds the squares on which a pawn captured, if he went to another file with each step, and otherwise how often he did.
fn push_made(
    s: Square,
    homes: SquareSet,
    number: u8,
    exact: bool,
    out: &mut Vec<u8>,
) -> Result<(), AllocError>
    ensures { IfOk result (λ _. out.new.items ≡ out.old.items ++ made_words s homes number exact) }
{
    if tells_way(homes, s) {
        return push_way(b" ", homes, s, out);
    }
    push_spaced_number(number, out)?;
    say(more_word(exact), out)
}

/// Adds where a pawn began, and how often he captured, or where.
fn push_pawn(
    s: Square,
    homes: SquareSet,
    number: u8,
    exact: bool,
    out: &mut Vec<u8>,
) -> Result<(), AllocError>
    ensures { IfOk result (λ _. out.new.items ≡ out.old.items ++ line_text (Pawn s homes number exact)) }
{
    say(b"pawn", out)?;
    push_spaced_square(s, out)?;
    push_homes(homes, out)?;
    push_made(s, homes, number, exact, out)
}

/// Adds where a man began.
fn push_man(s: Square, h: Square, out: &mut Vec<u8>) -> Result<(), AllocError>
    ensures { IfOk result (λ _. out.new.items ≡ out.old.items ++ line_text (Man s h)) }
{
    say(b"man", out)?;
    push_spaced_square(s, out)?;
    push_spaced_square(h, out)
}

/// Adds on one of how many squares a man was taken, if it is told.
fn push_within(h: Square, within: SquareSet, out: &mut Vec<u8>) -> Result<(), AllocError>
    ensures { IfOk result (λ _. out.new.items ≡ out.old.items ++ within_words h within) }
{
    if !within.has(h) {
        return Ok(());
    }
    say(b" within", out)?;
    push_spaced_number(number_in(within), out)
}

/// Adds how a man fell.
fn push_fall(
    h: Square,
    taker: Taker,
    manner: Manner,
    within: SquareSet,
    out: &mut Vec<u8>,
) -> Result<(), AllocError>
    ensures { IfOk result (λ _. out.new.items ≡ out.old.items ++ line_text (Fell h taker manner within)) }
{
    say(b"fell", out)?;
    push_spaced_square(h, out)?;
    say(taker_word(taker), out)?;
    say(manner_word(manner), out)?;
    push_within(h, within, out)
}

/// Adds that a man was promoted, and where he began.
fn push_officer(s: Square, homes: SquareSet, out: &mut Vec<u8>) -> Result<(), AllocError>
    ensures { IfOk result (λ _. out.new.items ≡ out.old.items ++ line_text (Promoted s homes)) }
{
    say(b"promoted", out)?;
    push_spaced_square(s, out)?;
    push_homes(homes, out)
}

/// Adds how many of some men began as pawns at least.
fn push_among(number: u8, set: SquareSet, out: &mut Vec<u8>) -> Result<(), AllocError>
    ensures { IfOk result (λ _. out.new.items ≡ out.old.items ++ line_text (Among number set)) }
{
    say(b"among", out)?;
    push_spaced_number(number, out)?;
    push_squares(set, out)
}

/// Adds who was promoted.
fn push_promoted(h: Square, out: &mut Vec<u8>) -> Result<(), AllocError>
    ensures { IfOk result (λ _. out.new.items ≡ out.old.items ++ line_text (Became h)) }
{
    say(b"became", out)?;
    push_spaced_square(h, out)
}

/// Adds a word and the squares of a set.
fn push_set(word: &[u8], set: SquareSet, out: &mut Vec<u8>) -> Result<(), AllocError>
    ensures { IfOk result (λ _. out.new.items ≡ out.old.items ++ (word.now ++ squares_words (is_in set))) }
{
    say(word, out)?;
    push_squares(set, out)
}

/// Adds the text of a line, without its end.
pub fn write_line(line: &Line, out: &mut Vec<u8>) -> Result<(), AllocError>
    ensures { IfOk result (λ _. out.new.items ≡ out.old.items ++ line_text line.now) }
{
    match *line {
        Line::Unmoved(set) => push_set(b"unmoved", set, out),
        Line::Lacks(side, losses) => push_lacking(side, &losses, out),
        Line::Captures(side, takings) => push_captures(side, &takings, out),
        Line::Pawn(s, homes, number, exact) => push_pawn(s, homes, number, exact, out),
        Line::Man(s, h) => push_man(s, h, out),
        Line::Ahead(set) => push_set(b"ahead", set, out),
        Line::Original(set) => push_set(b"original", set, out),
        Line::Promoted(s, homes) => push_officer(s, homes, out),
        Line::Among(number, set) => push_among(number, set, out),
        Line::Fell(h, taker, manner, within) => push_fall(h, taker, manner, within, out),
        Line::Became(h) => push_promoted(h, out),
    }
}
