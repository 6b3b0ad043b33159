//! The captures of a side's pawns that are left beside those of which lines tell.

ghost use Rattle.std.specs.Prelude.{◌≡◌, ◌<◌, ◌++◌, [], IfOk, codes, cond};
ghost use Rattle.std.specs.List.{list_any};
ghost use Rattle.ledger_prose.specs.Words.{class_words, classes_words, is_elsewhere, is_on, is_placed, is_unplaced, left_words, number_elsewhere};

use crate::due::one_more;
use crate::numbers::push_count;
use ledger_lines::{Line, Takings, tells_class, tells_way};
use prose_words::say;
use std::alloc::AllocError;

/// Whether the line doesn't say on which squares its pawn captured.
fn is_unplaced(line: &Line) -> bool
    ensures { result ≡ is_unplaced line.now }
{
    match *line {
        Line::Pawn(s, homes, _, _) => !tells_way(homes, s),
        _ => true,
    }
}

/// Whether one of them doesn't.
fn are_unplaced(ways: &[Line]) -> bool
    ensures { result ≡ list_any is_unplaced ways.now }
{
    match ways {
        [] => false,
        [way, others @ ..] => is_unplaced(way) || are_unplaced(others),
    }
}

/// Whether the line says of its pawn that he captured on the class of squares.
fn is_on(class: u8, line: &Line) -> bool
    ensures { result ≡ is_on class line.now }
{
    match *line {
        Line::Pawn(s, homes, _, _) => tells_class(class, homes, s),
        _ => false,
    }
}

/// Whether one of them does.
fn are_on(class: u8, ways: &[Line]) -> bool
    ensures { result ≡ list_any (is_on class) ways.now }
{
    match ways {
        [] => false,
        [way, others @ ..] => is_on(class, way) || are_on(class, others),
    }
}

/// Whether some captures were made on the class, and by none of these pawns as far as it is said.
fn is_elsewhere(x: &Takings, ways: &[Line], class: u8) -> bool
    requires { class < 16 }
    ensures { result ≡ is_elsewhere x.now ways.now class }
{
    x.least_on[class as usize] > 0 && !are_on(class, ways)
}

/// How many such classes there are.
fn number_elsewhere(x: &Takings, ways: &[Line]) -> u8
    ensures { result ≡ number_elsewhere x.now ways.now }
{
    let mut n = 0;
    for k in 0..16 {
        n = one_more(n, is_elsewhere(x, ways, k));
    }
    n
}

/// Whether one capture is left, and it is known on which class it was made.
fn is_placed(left: u8, x: &Takings, ways: &[Line]) -> bool
    ensures { result ≡ is_placed left x.now ways.now }
{
    left == 1 && !are_unplaced(ways) && number_elsewhere(x, ways) == 1
}

/// The words before the letter of a class's file.
fn shade_words(dark: bool) -> &'static [u8]
    ensures { result.now ≡ cond dark (codes " on a dark square of the ") (codes " on a light square of the ") }
{
    if dark {
        b" on a dark square of the "
    } else {
        b" on a light square of the "
    }
}

/// Adds a class of squares.
fn push_class(class: u8, out: &mut Vec<u8>) -> Result<(), AllocError>
    requires { class < 16 }
    ensures { IfOk result (λ _. out.new.items ≡ out.old.items ++ class_words class) }
{
    say(shade_words(class % 2 == 0), out)?;
    out.push(b'a' + class / 2)?;
    say(b"-file", out)
}

/// Adds it if this is true.
fn push_class_if(given: bool, class: u8, out: &mut Vec<u8>) -> Result<(), AllocError>
    requires { class < 16 }
    ensures { IfOk result (λ _. out.new.items ≡ out.old.items ++ cond given (class_words class) []) }
{
    if given {
        push_class(class, out)
    } else {
        Ok(())
    }
}

/// Adds each class on which some captures were made, and by none of these pawns as far as it is said.
fn push_classes(x: &Takings, ways: &[Line], out: &mut Vec<u8>) -> Result<(), AllocError>
    ensures { IfOk result (λ _. out.new.items ≡ out.old.items ++ classes_words x.now ways.now) }
{
    for k in 0..16 {
        push_class_if(is_elsewhere(x, ways, k), k, out)?;
    }
    Ok(())
}

/// Adds on which class the capture was made that is left, if it is known, or that more were made.
fn push_where(left: u8, x: &Takings, ways: &[Line], out: &mut Vec<u8>) -> Result<(), AllocError>
    ensures { IfOk result (λ _. out.new.items ≡ out.old.items ++ cond (is_placed left x.now ways.now) (classes_words x.now ways.now) (codes " more")) }
{
    if is_placed(left, x, ways) {
        push_classes(x, ways, out)
    } else {
        say(b" more", out)
    }
}

/// Adds so many more captures, or the one that is left on its class.
pub(crate) fn push_left(
    left: u8,
    x: &Takings,
    ways: &[Line],
    out: &mut Vec<u8>,
) -> Result<(), AllocError>
    ensures { IfOk result (λ _. out.new.items ≡ out.old.items ++ left_words left x.now ways.now) }
{
    say(b", and ", out)?;
    push_count(left, out)?;
    push_where(left, x, ways, out)
}
