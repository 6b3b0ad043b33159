//! What is counted, in words.

ghost use Rattle.std.specs.Prelude.{◌≡◌, ◌++◌, ◌<◌, ◌+◌, IfOk, codes};
ghost use Rattle.std.specs.List.{All, flat_map};
ghost use Rattle.board_base.specs.Board.{file};
ghost use Rattle.balance_prose.specs.CountWords.{both_count, count_words, file_if, files_words, gate_words, on_files, shade_words, side_counts, twice_front, twice_fronts, twice_words, where_words, who_counts, who_of};

use crate::plain::{is_counted, is_shade_counted, times_on};
use crate::words::are_same;
use board_base::{Colour, Square};
use capture_prices::{Gate, Prices};
use prose_words::{push_number, push_square, say, side_word};
use std::alloc::{AllocError, Global};

/// A file after a space, if captures on it count so often.
fn push_file_if(takes: &[u8; 16], times: u8, file: u8, list: &mut Vec<u8>) -> Result<(), AllocError>
    requires { file < 8 }
    ensures { IfOk result (λ _. list.new.items ≡ list.old.items ++ file_if takes.now times file) }
{
    if times_on(takes, file) == times {
        list.push(b' ')?;
        list.push(b'a' + file)?;
    }
    Ok(())
}

/// The files on which captures count so often.
fn files_of(alloc: Global, takes: &[u8; 16], times: u8) -> Result<Vec<u8>, AllocError>
    ensures { IfOk result (λ v. v.items ≡ files_words takes.now times) }
{
    let mut list = Vec::new(alloc);
    for file in 0..8 {
        push_file_if(takes, times, file, &mut list)?;
    }
    Ok(list)
}

/// A list with what stands before and behind it.
fn push_between(front: &[u8], list: &[u8], back: &[u8], out: &mut Vec<u8>) -> Result<(), AllocError>
    ensures { IfOk result (λ _. out.new.items ≡ out.old.items ++ (front.now ++ list.now ++ back.now)) }
{
    say(front, out)?;
    say(list, out)?;
    say(back, out)
}

/// What stands around one file or several, and nothing if there is none.
fn push_on_files(
    list: &[u8],
    one: &[u8],
    one_end: &[u8],
    several: &[u8],
    several_end: &[u8],
    out: &mut Vec<u8>,
) -> Result<(), AllocError>
    ensures { IfOk result (λ _. out.new.items ≡ out.old.items ++ on_files list.now one.now one_end.now several.now several_end.now) }
{
    if list.len() == 0 {
        Ok(())
    } else if list.len() == 2 {
        push_between(one, list, one_end, out)
    } else {
        push_between(several, list, several_end, out)
    }
}

/// On which squares captures count, if on those of one shade alone.
fn shade_words(takes: &[u8; 16]) -> &'static [u8]
    ensures { result.now ≡ shade_words takes.now }
{
    if is_shade_counted(takes, 0) {
        if is_shade_counted(takes, 1) {
            b""
        } else {
            b" on dark squares"
        }
    } else {
        b" on light squares"
    }
}

/// On which squares a side's captures count.
fn where_words(alloc: Global, takes: &[u8; 16]) -> Result<Vec<u8>, AllocError>
    ensures { IfOk result (λ v. v.items ≡ where_words takes.now) }
{
    let free = files_of(alloc, takes, 0)?;
    let mut list = Vec::new(alloc);
    say(shade_words(takes), &mut list)?;
    push_on_files(
        free.as_slice(),
        b" but not on the",
        b"-file",
        b" but not on files",
        b"",
        &mut list,
    )?;
    Ok(list)
}

/// The captures of a side's pawns that count, on these squares.
fn push_side(side: Colour, on: &[u8], out: &mut Vec<u8>) -> Result<(), AllocError>
    ensures { IfOk result (λ _. out.new.items ≡ out.old.items ++ side_counts side on.now) }
{
    say(side_word(side), out)?;
    say(b"'s pawns", out)?;
    say(on, out)
}

/// Two texts.
fn push_two(one: &[u8], other: &[u8], out: &mut Vec<u8>) -> Result<(), AllocError>
    ensures { IfOk result (λ _. out.new.items ≡ out.old.items ++ (one.now ++ other.now)) }
{
    say(one, out)?;
    say(other, out)
}

/// The captures of both sides' pawns that count, on different squares.
fn push_each(white: &[u8], black: &[u8], out: &mut Vec<u8>) -> Result<(), AllocError>
    ensures { IfOk result (λ _. out.new.items ≡ out.old.items ++ ((codes "White's pawns" ++ white.now) ++ (codes ", and by Black's" ++ black.now))) }
{
    push_two(b"White's pawns", white, out)?;
    push_two(b", and by Black's", black, out)
}

/// The captures of both sides' pawns that count.
fn push_both(white: &[u8], black: &[u8], out: &mut Vec<u8>) -> Result<(), AllocError>
    ensures { IfOk result (λ _. out.new.items ≡ out.old.items ++ both_count white.now black.now) }
{
    if are_same(white, black) {
        push_two(b"pawns", white, out)
    } else if white.len() == 0 {
        push_two(b"pawns, those by Black's", black, out)
    } else if black.len() == 0 {
        push_two(b"pawns, those by White's", white, out)
    } else {
        push_each(white, black, out)
    }
}

/// Whose captures count, on these squares.
fn push_who_of(
    white_counts: bool,
    black_counts: bool,
    white: &[u8],
    black: &[u8],
    out: &mut Vec<u8>,
) -> Result<(), AllocError>
    ensures { IfOk result (λ _. out.new.items ≡ out.old.items ++ who_of white_counts black_counts white.now black.now) }
{
    if !white_counts {
        push_side(Colour::Black, black, out)
    } else if black_counts {
        push_both(white, black, out)
    } else {
        push_side(Colour::White, white, out)
    }
}

/// Whose captures count.
fn push_who(
    alloc: Global,
    white: &[u8; 16],
    black: &[u8; 16],
    out: &mut Vec<u8>,
) -> Result<(), AllocError>
    ensures { IfOk result (λ _. out.new.items ≡ out.old.items ++ who_counts white.now black.now) }
{
    let of_white = where_words(alloc, white)?;
    let of_black = where_words(alloc, black)?;
    push_who_of(
        is_counted(white),
        is_counted(black),
        of_white.as_slice(),
        of_black.as_slice(),
        out,
    )
}

/// What stands before the file on which the side's captures count twice.
fn twice_front(side: Colour) -> &'static [u8]
    ensures { result.now ≡ twice_front side }
{
    match side {
        Colour::White => b"Those by White's pawns on the",
        Colour::Black => b"Those by Black's pawns on the",
    }
}

/// The same before several files.
fn twice_fronts(side: Colour) -> &'static [u8]
    ensures { result.now ≡ twice_fronts side }
{
    match side {
        Colour::White => b"Those by White's pawns on files",
        Colour::Black => b"Those by Black's pawns on files",
    }
}

/// Which captures of a side count twice.
fn push_twice(
    alloc: Global,
    side: Colour,
    takes: &[u8; 16],
    out: &mut Vec<u8>,
) -> Result<(), AllocError>
    ensures { IfOk result (λ _. out.new.items ≡ out.old.items ++ twice_words side takes.now) }
{
    let list = files_of(alloc, takes, 2)?;
    push_on_files(
        list.as_slice(),
        twice_front(side),
        b"-file count twice. ",
        twice_fronts(side),
        b" count twice. ",
        out,
    )
}

/// What is added for a gate, and why it is added once at most.
fn push_gate(gate: &Gate, out: &mut Vec<u8>) -> Result<(), AllocError>
    requires { gate.now.square < 64 }
    ensures { IfOk result (λ _. out.new.items ≡ out.old.items ++ gate_words gate.now) }
{
    let s = Square::known(gate.square);
    say(b"Add ", out)?;
    push_number(gate.toll as usize, out)?;
    say(
        b" if a pawn that neither captured nor was taken as a pawn stood on ",
        out,
    )?;
    push_square(s, out)?;
    say(b" or crossed it: of those of ", out)?;
    push_square(Square::known(8 + s.file()), out)?;
    say(b" and ", out)?;
    push_square(Square::known(48 + s.file()), out)?;
    say(b" only one can have. ", out)
}

/// The same for each gate.
fn gates_of(alloc: Global, gates: &[Gate]) -> Result<Vec<u8>, AllocError>
    requires { All (λ g. g.square < 64) gates.now }
    ensures { IfOk result (λ v. v.items ≡ flat_map gate_words gates.now) }
{
    let mut list = Vec::new(alloc);
    for gate in gates {
        push_gate(gate, &mut list)?;
    }
    Ok(list)
}

/// What is counted at plain prices.
pub fn push_counts(alloc: Global, prices: &Prices, out: &mut Vec<u8>) -> Result<(), AllocError>
    ensures { IfOk result (λ _. out.new.items ≡ out.old.items ++ count_words prices.now) }
{
    let white = prices.takes(Colour::White);
    let black = prices.takes(Colour::Black);
    let gates = gates_of(alloc, prices.gates())?;
    say(b"Count the captures by ", out)?;
    push_who(alloc, white, black, out)?;
    say(b". ", out)?;
    push_twice(alloc, Colour::White, white, out)?;
    push_twice(alloc, Colour::Black, black, out)?;
    say(gates.as_slice(), out)
}
