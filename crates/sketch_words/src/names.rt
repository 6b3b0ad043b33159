//! Names of figures.

ghost use Rattle.std.specs.Prelude.{◌≡◌, ◌++◌, ◌-◌, IfOk, Some, codes};
ghost use Rattle.figures.specs.Figures.{figure_at, is_fixed_on};
ghost use Rattle.sketch_words.specs.Words.{agree, called_words, figure_if, figure_words, figures_words, fixed_words, later_words, noun_of, now_words, officer_noun, place_words};

use board_base::{Kind, Square};
use figures::{Figure, Sketch};
use prose_words::{push_square_if, say};
use std::alloc::{AllocError, Global};

/// The square on which the figure is fixed, after a space; nothing if he isn't.
fn fixed_list(alloc: Global, figure: &Figure) -> Result<Vec<u8>, AllocError>
    ensures { IfOk result (λ v. v.items ≡ fixed_words figure.now) }
{
    let mut list = Vec::new(alloc);
    for i in 0..64 {
        let s = Square::known(i);
        push_square_if(figure.is_fixed_on(s), s, &mut list)?;
    }
    Ok(list)
}

/// A list in parentheses, as where somebody stands now.
fn push_around(list: &[u8], out: &mut Vec<u8>) -> Result<(), AllocError>
    ensures { IfOk result (λ _. out.new.items ≡ out.old.items ++ (codes " (now" ++ list.now ++ codes ")")) }
{
    say(b" (now", out)?;
    say(list, out)?;
    say(b")", out)
}

/// Where a figure stands in the diagram, if he does.
fn push_now(alloc: Global, figure: Option<Figure>, out: &mut Vec<u8>) -> Result<(), AllocError>
    ensures { IfOk result (λ _. out.new.items ≡ out.old.items ++ now_words figure) }
{
    match figure {
        None => say(b" (fallen)", out),
        Some(man) => {
            let list = fixed_list(alloc, &man)?;
            push_around(list.as_slice(), out)
        }
    }
}

/// The figure with this number, counted from 0: his square, if he has one alone, and otherwise where he stands in the diagram.
pub(crate) fn push_figure(
    alloc: Global,
    diagram: &Sketch,
    i: usize,
    figure: &Figure,
    out: &mut Vec<u8>,
) -> Result<(), AllocError>
    ensures { IfOk result (λ _. out.new.items ≡ out.old.items ++ figure_words diagram.now i figure.now) }
{
    let list = fixed_list(alloc, figure)?;
    if list.len() == 0 {
        return push_now(alloc, diagram.get(i), out);
    }
    say(list.as_slice(), out)
}

/// What a man is called by his kinds.
fn noun_of(figure: &Figure) -> &'static [u8]
    ensures { result.now ≡ noun_of figure.now }
{
    if figure.may_be(Kind::Pawn) {
        b"pawn"
    } else if figure.may_be(Kind::King) {
        b"king"
    } else if figure.may_be(Kind::Bishop) {
        b"bishop"
    } else {
        officer_noun(figure.may_be(Kind::Knight), figure.may_be(Kind::Rook))
    }
}

/// The same of an officer who is no bishop.
fn officer_noun(knight: bool, rook: bool) -> &'static [u8]
    ensures { result.now ≡ officer_noun knight rook }
{
    if knight && rook {
        b"officer"
    } else if knight {
        b"knight"
    } else if rook {
        b"rook"
    } else {
        b"queen"
    }
}

/// Where a man stands in the diagram, if he does.
fn push_later(alloc: Global, figure: Option<Figure>, out: &mut Vec<u8>) -> Result<(), AllocError>
    ensures { IfOk result (λ _. out.new.items ≡ out.old.items ++ later_words figure) }
{
    match figure {
        None => say(b" who fell", out),
        Some(man) => {
            let list = fixed_list(alloc, &man)?;
            push_pair(b" now on", list.as_slice(), out)
        }
    }
}

/// One text after another.
pub(crate) fn push_pair(a: &[u8], b: &[u8], out: &mut Vec<u8>) -> Result<(), AllocError>
    ensures { IfOk result (λ _. out.new.items ≡ out.old.items ++ (a.now ++ b.now)) }
{
    say(a, out)?;
    say(b, out)
}

/// Where the figure with this number, counted from 0, stands: on his square, if he has one alone, and otherwise where he does in the diagram.
fn push_place(
    alloc: Global,
    diagram: &Sketch,
    i: usize,
    figure: &Figure,
    out: &mut Vec<u8>,
) -> Result<(), AllocError>
    ensures { IfOk result (λ _. out.new.items ≡ out.old.items ++ place_words diagram.now i figure.now) }
{
    let list = fixed_list(alloc, figure)?;
    if list.len() == 0 {
        return push_later(alloc, diagram.get(i), out);
    }
    push_pair(b" on", list.as_slice(), out)
}

/// The same of a figure who is given.
fn push_called_one(
    alloc: Global,
    diagram: &Sketch,
    i: usize,
    figure: &Figure,
    out: &mut Vec<u8>,
) -> Result<(), AllocError>
    ensures { IfOk result (λ _. out.new.items ≡ out.old.items ++ called_words diagram.now i (Some figure.now)) }
{
    push_pair(b" the ", noun_of(figure), out)?;
    push_place(alloc, diagram, i, figure, out)
}

/// What a man is called by his kinds and where he stands, as in `the knight on h2`.
pub(crate) fn push_called(
    alloc: Global,
    diagram: &Sketch,
    i: usize,
    figure: Option<Figure>,
    out: &mut Vec<u8>,
) -> Result<(), AllocError>
    ensures { IfOk result (λ _. out.new.items ≡ out.old.items ++ called_words diagram.now i figure) }
{
    match figure {
        None => say(b" a man", out),
        Some(man) => push_called_one(alloc, diagram, i, &man, out),
    }
}

/// Whether both hold, or neither.
fn agree(a: bool, b: bool) -> bool
    ensures { result ≡ agree a b }
{
    if a { b } else { !b }
}

/// The same if he is a pawn, or if he is none.
fn push_figure_if(
    alloc: Global,
    pawns: bool,
    diagram: &Sketch,
    i: usize,
    figure: Option<Figure>,
    out: &mut Vec<u8>,
) -> Result<(), AllocError>
    ensures { IfOk result (λ _. out.new.items ≡ out.old.items ++ figure_if pawns diagram.now i figure) }
{
    match figure {
        None => Ok(()),
        Some(man) => {
            if agree(pawns, man.may_be(Kind::Pawn)) {
                push_figure(alloc, diagram, i, &man, out)
            } else {
                Ok(())
            }
        }
    }
}

/// The index of the figure with this number, counted from 1.
fn index_of(number: u8) -> usize
    ensures { result ≡ number - 1 }
{
    usize::from(number.saturating_sub(1))
}

/// The pawns or the officers of the figures with these numbers, counted from 1.
pub fn figures_list(
    alloc: Global,
    pawns: bool,
    diagram: &Sketch,
    sketch: &Sketch,
    numbers: &[u8],
) -> Result<Vec<u8>, AllocError>
    ensures { IfOk result (λ v. v.items ≡ figures_words pawns diagram.now sketch.now numbers.now) }
{
    let mut list = Vec::new(alloc);
    for number in numbers {
        let i = index_of(*number);
        push_figure_if(alloc, pawns, diagram, i, sketch.get(i), &mut list)?;
    }
    Ok(list)
}
