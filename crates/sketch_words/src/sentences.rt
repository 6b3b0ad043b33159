//! The words of sentences.

ghost use Rattle.std.specs.Prelude.{◌≡◌, ◌++◌, ◌∷◌, ◌+◌, ◌<◌, [], IfOk, cond, codes};
ghost use Rattle.std.specs.List.{flat_map, range_with_len};
ghost use Rattle.std.specs.Fmt.{decimal};
ghost use Rattle.board_base.specs.Board.{array_of, at};
ghost use Rattle.board_base.specs.Texts.{square_text};
ghost use Rattle.prose_words.specs.Words.{man_words};
ghost use Rattle.sketch_words.specs.Phrases.{deed_words, file_words, files_words, foreign_words, fresh_words, heading_words, kept_words, marked_words, neither_words, number_words, or_words, said_of, settled_words, stayed_words, stepped_words, unknown_words, unmoved_words, without_words};
ghost use Rattle.sketch_words.specs.Words.{common, held_homes, men_words, name_words, without};

use crate::sets::{held_homes, list_of, push_either, push_men, without};
use crate::spots::Spot;
use crate::steps::{push_lead, push_name};
use board_base::{CastleSet, Odds, Square, SquareSet, array_of};
use figures::both;
use prose_words::{push_man, push_number, push_square, say};
use sketch_text::Label;
use std::alloc::{AllocError, Global};

/// The number of a node, and what leads to it.
fn push_numbered(
    spot: &Spot,
    number: usize,
    label: &Label,
    out: &mut Vec<u8>,
) -> Result<(), AllocError>
    ensures { IfOk result (λ _. out.new.items ≡ out.old.items ++ number_words spot.now number label.now) }
{
    say(spot.lead.as_slice(), out)?;
    say(spot.prefix.as_slice(), out)?;
    push_number(number, out)?;
    say(b". ", out)?;
    push_lead(label, out)?;
    push_name(label, out)?;
    say(b":", out)
}

/// What is told of a node begins so.
pub fn push_heading(
    spot: &Spot,
    number: usize,
    label: &Label,
    out: &mut Vec<u8>,
) -> Result<(), AllocError>
    ensures { IfOk result (λ _. out.new.items ≡ out.old.items ++ heading_words spot.now number label.now) }
{
    match label {
        Label::Now => say(b"No game leads to this position, whoever is to move.", out),
        Label::Step(_) | Label::Case(_) => push_numbered(spot, number, label, out),
    }
}

/// Some men, between a text before them and one behind.
fn push_the(before: &[u8], list: &[u8], behind: &[u8], out: &mut Vec<u8>) -> Result<(), AllocError>
    ensures { IfOk result (λ _. out.new.items ≡ out.old.items ++ (before.now ++ men_words list.now ++ behind.now)) }
{
    say(before, out)?;
    push_men(list, out)?;
    say(behind, out)
}

/// That men never moved.
fn push_stayed(list: &[u8], out: &mut Vec<u8>) -> Result<(), AllocError>
    ensures { IfOk result (λ _. out.new.items ≡ out.old.items ++ stayed_words list.now) }
{
    if list.len() == 0 {
        return Ok(());
    }
    push_the(b" The", list, b" never moved.", out)
}

/// Some men, behind a text.
fn push_and(before: &[u8], list: &[u8], out: &mut Vec<u8>) -> Result<(), AllocError>
    ensures { IfOk result (λ _. out.new.items ≡ out.old.items ++ (before.now ++ men_words list.now)) }
{
    say(before, out)?;
    push_men(list, out)
}

/// That others didn't either.
fn push_neither(list: &[u8], out: &mut Vec<u8>) -> Result<(), AllocError>
    ensures { IfOk result (λ _. out.new.items ≡ out.old.items ++ neither_words list.now) }
{
    if list.len() == 0 {
        return Ok(());
    }
    push_and(b", and neither did the", list, out)
}

/// That men never moved, by a right to castle, nor others.
fn push_kept(kept: &[u8], others: &[u8], out: &mut Vec<u8>) -> Result<(), AllocError>
    ensures { IfOk result (λ _. out.new.items ≡ out.old.items ++ kept_words kept.now others.now) }
{
    say(b" By the right to castle the", out)?;
    push_men(kept, out)?;
    say(b" never moved", out)?;
    push_neither(others, out)?;
    say(b".", out)
}

/// That men never moved: first those who have a right to castle, if there are any, and then the others.
fn push_unmoved_of(kept: &[u8], others: &[u8], out: &mut Vec<u8>) -> Result<(), AllocError>
    ensures { IfOk result (λ _. out.new.items ≡ out.old.items ++ unmoved_words kept.now others.now) }
{
    if kept.len() == 0 {
        push_stayed(others, out)
    } else {
        push_kept(kept, others, out)
    }
}

/// That the men of a set never moved, first those who have a right to castle.
pub fn push_fresh(
    alloc: Global,
    held: CastleSet,
    fresh: SquareSet,
    out: &mut Vec<u8>,
) -> Result<(), AllocError>
    ensures { IfOk result (λ _. out.new.items ≡ out.old.items ++ fresh_words held fresh) }
{
    let homes = held_homes(held);
    let kept = list_of(alloc, both(fresh, homes))?;
    let others = list_of(alloc, without(fresh, homes))?;
    push_unmoved_of(kept.as_slice(), others.as_slice(), out)
}

/// A text, a list and a full stop.
fn push_around(before: &[u8], list: &[u8], out: &mut Vec<u8>) -> Result<(), AllocError>
    ensures { IfOk result (λ _. out.new.items ≡ out.old.items ++ (before.now ++ list.now ++ codes ".")) }
{
    say(before, out)?;
    say(list, out)?;
    say(b".", out)
}

/// Something of men, if there are any.
fn push_said_of(list: &[u8], words: &[u8], out: &mut Vec<u8>) -> Result<(), AllocError>
    ensures { IfOk result (λ _. out.new.items ≡ out.old.items ++ said_of list.now words.now) }
{
    if list.len() == 0 {
        return Ok(());
    }
    push_around(words, list, out)
}

/// Whose marks are forced.
pub fn push_marked(officers: &[u8], pawns: &[u8], out: &mut Vec<u8>) -> Result<(), AllocError>
    ensures { IfOk result (λ _. out.new.items ≡ out.old.items ++ marked_words officers.now pawns.now) }
{
    push_said_of(officers, b" These officers aren't promoted pawns:", out)?;
    push_said_of(pawns, b" These pawns never captured:", out)?;
    say(b" Otherwise the captures by pawns wouldn't balance.", out)
}

/// The letter of a file after a space, if it is exact.
fn push_file(exact: bool, file: u8, out: &mut Vec<u8>) -> Result<(), AllocError>
    requires { file < 8 }
    ensures { IfOk result (λ _. out.new.items ≡ out.old.items ++ cond exact (32 ∷ (97 + file) ∷ []) []) }
{
    if exact {
        out.push(b' ')?;
        out.push(b'a' + file)?;
    }
    Ok(())
}

/// The letters of the exact files, each after a space.
fn files_list(alloc: Global, exact: &[bool; 8]) -> Result<Vec<u8>, AllocError>
    ensures { IfOk result (λ v. v.items ≡ files_words exact.now) }
{
    let mut list = Vec::new(alloc);
    for file in 0..8u8 {
        push_file(exact[usize::from(file)], file, &mut list)?;
    }
    Ok(list)
}

/// The alternative of a move of a pawn on one of these files.
fn push_or_moves(files: &[u8], out: &mut Vec<u8>) -> Result<(), AllocError>
    ensures { IfOk result (λ _. out.new.items ≡ out.old.items ++ (codes ", or a move of a pawn on file" ++ files.now ++ codes ",")) }
{
    say(b", or a move of a pawn on file", out)?;
    say(files, out)?;
    say(b",", out)
}

/// A move of a pawn on one of these files, if there are any.
fn push_or(files: &[u8], out: &mut Vec<u8>) -> Result<(), AllocError>
    ensures { IfOk result (λ _. out.new.items ≡ out.old.items ++ or_words files.now) }
{
    if files.len() == 0 {
        return Ok(());
    }
    push_or_moves(files, out)
}

/// What a step is.
fn push_deed(alloc: Global, exact: &[bool; 8], out: &mut Vec<u8>) -> Result<(), AllocError>
    ensures { IfOk result (λ _. out.new.items ≡ out.old.items ++ deed_words exact.now) }
{
    let files = files_list(alloc, exact)?;
    say(b"capture by a pawn or promotion", out)?;
    push_or(files.as_slice(), out)
}

/// Who can't have moved since the last step, if there are any steps.
pub fn push_settled(list: &[u8], count: u16, out: &mut Vec<u8>) -> Result<(), AllocError>
    ensures { IfOk result (λ _. out.new.items ≡ out.old.items ++ settled_words list.now count) }
{
    if count == 0 || list.len() == 0 {
        return Ok(());
    }
    push_the(b" Since then the", list, b" can't have moved.", out)
}

/// The words for "without a step", if the step is the first that is spoken of.
fn push_without_a(alloc: Global, exact: &[bool; 8], out: &mut Vec<u8>) -> Result<(), AllocError>
    ensures { IfOk result (λ _. out.new.items ≡ out.old.items ++ (codes " Without a " ++ deed_words exact.now)) }
{
    say(b" Without a ", out)?;
    push_deed(alloc, exact, out)
}

/// Without a step, or, below the first node, without another one.
fn push_without(
    alloc: Global,
    first: bool,
    exact: &[bool; 8],
    out: &mut Vec<u8>,
) -> Result<(), AllocError>
    ensures { IfOk result (λ _. out.new.items ≡ out.old.items ++ without_words first exact.now) }
{
    if first {
        push_without_a(alloc, exact, out)
    } else {
        say(b" Without another such move", out)
    }
}

/// Why not all men can have come from home without a step, that there was a last one, and whether there are any. The step before which it
/// is told is the first one, or not.
pub fn push_stepped(
    alloc: Global,
    first: bool,
    exact: &[bool; 8],
    why: &[u8],
    count: u16,
    out: &mut Vec<u8>,
) -> Result<(), AllocError>
    ensures { IfOk result (λ _. out.new.items ≡ out.old.items ++ stepped_words first exact.now why.now count) }
{
    push_without(alloc, first, exact, out)?;
    say(why, out)?;
    push_either(
        count == 0,
        b". But no such move can have been last.",
        b". So there was such a move. Consider the last one.",
        out,
    )
}

/// Of whom it isn't known what he was.
pub fn push_unknown(s: Square, out: &mut Vec<u8>) -> Result<(), AllocError>
    ensures { IfOk result (λ _. out.new.items ≡ out.old.items ++ unknown_words s) }
{
    say(b" The man on ", out)?;
    push_square(s, out)?;
    say(b" was a knight, a rook or a queen.", out)
}

/// Who stood on a square at the beginning.
pub fn push_foreign(odds: Odds, s: Square, out: &mut Vec<u8>) -> Result<(), AllocError>
    ensures { IfOk result (λ _. out.new.items ≡ out.old.items ++ foreign_words odds s) }
{
    say(b" But at the beginning ", out)?;
    push_man(array_of(odds).at(s), out)?;
    say(b" stood on ", out)?;
    push_square(s, out)?;
    say(b".", out)
}
