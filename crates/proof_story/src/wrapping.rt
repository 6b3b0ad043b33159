//! Lines that are not too long.

ghost use Rattle.std.specs.Prelude.{ℕ, ◌≡◌, ◌++◌, ◌∷◌, ◌+◌, ◌<◌, ◌≤◌, ◌^◌, IfOk, length};
ghost use Rattle.proof_story.specs.Rows.{column_after, cut_from, end_of, is_cut, is_ended, is_gap, rows_of, word_length};

use prose_words::say;
use std::alloc::AllocError;

/// Whether the letter is a blank or a line end.
fn is_gap(letter: u8) -> bool
    ensures { result ≡ is_gap letter }
{
    letter == b' ' || letter == b'\n'
}

/// How many letters come before the next blank or line end.
fn word_length(line: &[u8]) -> usize
    ensures number { result ≡ word_length line.now }
    ensures few { result ≤ length line.now }
{
    for i in 0..line.len() {
        if is_gap(line[i]) {
            return i;
        }
    }
    line.len()
}

/// Whether a row of `column` letters ends before this letter: it is a blank, and the word that follows it would not fit.
fn is_cut(column: usize, letter: u8, rest: &[u8]) -> bool
    requires { column + length rest.now < 2 ^ 64 }
    ensures { result ≡ is_cut column letter rest.now }
{
    letter == b' ' && 100 <= column + word_length(rest)
}

/// How many letters a row of `column` letters has behind this one; none behind a line end.
fn column_after(column: usize, letter: u8) -> usize
    requires { column + 1 < 2 ^ 64 }
    ensures { result ≡ column_after column letter }
{
    if letter == b'\n' { 0 } else { column + 1 }
}

/// A letter of a line behind `column` others of its row; the answer is how many letters the row then has. In the place of a blank comes
/// a line end with an indent where the word that follows it would not fit.
fn push_letter(
    column: usize,
    letter: u8,
    rest: &[u8],
    out: &mut Vec<u8>,
) -> Result<usize, AllocError>
    requires { column + length rest.now + 1 < 2 ^ 64 }
    ensures cut { IfOk result (λ next. out.new.items ++ cut_from next rest.now ≡ out.old.items ++ cut_from column (letter ∷ rest.now)) }
    ensures next { IfOk result (λ next. (most : ℕ) → column + 1 ≤ most → 4 ≤ most → next ≤ most) }
{
    if is_cut(column, letter, rest) {
        say(b"\n    ", out)?;
        return Ok(4);
    }
    out.push(letter)?;
    Ok(column_after(column, letter))
}

/// The letters of a line, cut at blanks into rows of at most a hundred letters.
fn push_cut(line: &[u8], out: &mut Vec<u8>) -> Result<(), AllocError>
    ensures { IfOk result (λ _. out.new.items ≡ out.old.items ++ cut_from 0 line.now) }
{
    let mut column: usize = 0;
    for i in 0..line.len() {
        column = push_letter(column, line[i], &line[i + 1..], out)?;
    }
    Ok(())
}

/// Whether a line end is the last letter.
fn is_ended(line: &[u8]) -> bool
    ensures { result ≡ is_ended line.now }
{
    line.len() > 0 && line[line.len() - 1] == b'\n'
}

/// A line end, if there is none yet.
fn push_end(line: &[u8], out: &mut Vec<u8>) -> Result<(), AllocError>
    ensures { IfOk result (λ _. out.new.items ≡ out.old.items ++ end_of line.now) }
{
    if is_ended(line) {
        return Ok(());
    }
    say(b"\n", out)
}

/// The rows of a line.
pub fn push_wrapped(line: &[u8], out: &mut Vec<u8>) -> Result<(), AllocError>
    ensures { IfOk result (λ _. out.new.items ≡ out.old.items ++ rows_of line.now) }
{
    push_cut(line, out)?;
    push_end(line, out)
}
