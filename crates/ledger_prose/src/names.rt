//! Squares and men by their names.

ghost use Rattle.std.specs.Prelude.{◌≡◌, ◌+◌, ◌∷◌, ◌++◌, ◌||◌, IfOk, codes};
ghost use Rattle.board_base.specs.Board.{file};
ghost use Rattle.board_base.specs.Texts.{square_text};
ghost use Rattle.ledger_prose.specs.Words.{comma_of, given_words, last_of, names_words, of_men, place_word, sign_of, square_words};

use crate::due::{is_named, names_any, number_named};
use board_base::{Man, Square, array_of};
use ledger_lines::Line;
use prose_words::{kind_word, push_square, say};
use query_base::Query;
use std::alloc::AllocError;

/// What stands between several.
#[derive(Clone, Copy, PartialEq, Eq, Debug)]
pub enum Joint {
    /// A slash, between homes of which one is meant.
    Slash,
    /// Commas, and `and` before the last.
    And,
    /// The same with an article before each.
    AndThe,
    /// Commas, and `or` before the last.
    Or,
}

/// How a square is named.
#[derive(Clone, Copy, PartialEq, Eq, Debug)]
pub enum Style {
    /// By file and rank, as in `f2`.
    Squares,
    /// With the man who stands there, as in `rook on f2`.
    Standing,
    /// With the man whose home it is, as in `rook of h1`.
    Homes,
    /// By its file, as in `h-`, if a pawn's home is meant.
    Files,
}

/// What stands between two, if another follows.
fn comma_of(joint: Joint) -> &'static [u8]
    ensures { result.now ≡ comma_of joint }
{
    match joint {
        Joint::Slash => b"/",
        Joint::And => b", ",
        Joint::AndThe => b", the ",
        Joint::Or => b", ",
    }
}

/// What stands before the last of several.
fn last_of(joint: Joint) -> &'static [u8]
    ensures { result.now ≡ last_of joint }
{
    match joint {
        Joint::Slash => b"/",
        Joint::And => b" and ",
        Joint::AndThe => b" and the ",
        Joint::Or => b" or ",
    }
}

/// Adds what stands before one, if others stand before it, and more behind it.
pub(crate) fn push_sign(
    joint: Joint,
    several: bool,
    more: bool,
    out: &mut Vec<u8>,
) -> Result<(), AllocError>
    ensures { IfOk result (λ _. out.new.items ≡ out.old.items ++ sign_of joint several more) }
{
    if !several {
        Ok(())
    } else if more {
        say(comma_of(joint), out)
    } else {
        say(last_of(joint), out)
    }
}

/// Whoever stands on a place.
fn place_word(place: Option<Man>) -> &'static [u8]
    ensures { result.now ≡ place_word place }
{
    match place {
        None => b"man",
        Some(man) => kind_word(man.kind),
    }
}

/// Adds a man by his square or by his home.
fn push_placed(
    place: Option<Man>,
    joint: &[u8],
    s: Square,
    out: &mut Vec<u8>,
) -> Result<(), AllocError>
    ensures { IfOk result (λ _. out.new.items ≡ out.old.items ++ (place_word place ++ joint.now ++ square_text s)) }
{
    say(place_word(place), out)?;
    say(joint, out)?;
    push_square(s, out)
}

/// Adds the file of a square.
fn push_file(s: Square, out: &mut Vec<u8>) -> Result<(), AllocError>
    ensures { IfOk result (λ _. out.new.items ≡ out.old.items ++ ((97 + file s) ∷ codes "-")) }
{
    out.push(b'a' + s.file())?;
    say(b"-", out)
}

/// Adds a square, as it is named.
pub(crate) fn push_square_words(
    style: Style,
    query: &Query,
    s: Square,
    out: &mut Vec<u8>,
) -> Result<(), AllocError>
    ensures { IfOk result (λ _. out.new.items ≡ out.old.items ++ square_words style query.now s) }
{
    match style {
        Style::Squares => push_square(s, out),
        Style::Standing => push_placed(query.board.at(s), b" on ", s, out),
        Style::Homes => push_placed(array_of(query.odds).at(s), b" of ", s, out),
        Style::Files => push_file(s, out),
    }
}

/// Adds one of several squares behind its sign, if it is to be named.
fn push_name(
    joint: Joint,
    style: Style,
    query: &Query,
    given: bool,
    several: bool,
    more: bool,
    s: Square,
    out: &mut Vec<u8>,
) -> Result<(), AllocError>
    ensures { IfOk result (λ _. out.new.items ≡ out.old.items ++ given_words joint given several more (square_words style query.now s)) }
{
    if !given {
        return Ok(());
    }
    push_sign(joint, several, more, out)?;
    push_square_words(style, query, s, out)
}

fn either(first: bool, second: bool) -> bool
    ensures { result ≡ (first || second) }
{
    first || second
}

/// Adds the squares that some lines name.
pub(crate) fn push_names(
    joint: Joint,
    style: Style,
    query: &Query,
    lines: &[Line],
    out: &mut Vec<u8>,
) -> Result<(), AllocError>
    ensures { IfOk result (λ _. out.new.items ≡ out.old.items ++ names_words joint style query.now lines.now) }
{
    let mut several = false;
    for i in 0..64 {
        let s = Square::known(i);
        let given = is_named(query, lines, s);
        let more = names_any(query, lines, i + 1);
        push_name(joint, style, query, given, several, more, s, out)?;
        several = either(several, given);
    }
    Ok(())
}

/// Adds what is said of men on the board: of one, or of several.
pub(crate) fn push_of_men(
    query: &Query,
    lines: &[Line],
    one: &[u8],
    several: &[u8],
    out: &mut Vec<u8>,
) -> Result<(), AllocError>
    ensures { IfOk result (λ _. out.new.items ≡ out.old.items ++ of_men query.now lines.now one.now several.now) }
{
    if number_named(query, lines) == 1 {
        say(b"The ", out)?;
        push_names(Joint::And, Style::Standing, query, lines, out)?;
        say(one, out)
    } else {
        say(b"The men on ", out)?;
        push_names(Joint::And, Style::Squares, query, lines, out)?;
        say(several, out)
    }
}
