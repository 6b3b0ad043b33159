//! Why not all men can have come from home, in words.

ghost use Rattle.std.specs.Prelude.{◌≡◌, ◌++◌, IfOk, [], cond, count_by, Some};
ghost use Rattle.sketch_words.specs.Crowds.{came_words, first_crowded, first_homeless, first_lacking, first_roaming, lodgers_words, lone_words, named, places_words, why_at, why_words};
ghost use Rattle.sketch_words.specs.Lodging.{lacks_on, lives_on, lodges_on};
ghost use Rattle.sketch_words.specs.declared.crowds.Lack.TheVariants.{Home, Room};

use crate::names::{push_called, push_figure, push_pair};
use crate::sets::list_of;
use board_base::{Board, Odds, SquareSet, array_of};
use figures::{Figure, Sketch};
use prose_words::say;
use sketch_sets::{count, homes_on, is_within};
use std::alloc::{AllocError, Global};

/// Whether all homes of the figure are among these.
fn lives_on(first: &Board, homes: SquareSet, figure: &Figure) -> bool
    ensures { result ≡ lives_on first.now homes figure.now }
{
    is_within(homes_on(first, *figure), homes)
}

/// The same of a figure, if there is one.
fn lodges_on(first: &Board, homes: SquareSet, figure: Option<Figure>) -> bool
    ensures { result ≡ lodges_on first.now homes figure }
{
    match figure {
        None => false,
        Some(man) => lives_on(first, homes, &man),
    }
}

/// How many figures have all their homes among these.
fn lodgers(first: &Board, homes: SquareSet, sketch: &Sketch) -> usize
    ensures { result ≡ count_by (lives_on first.now homes) sketch.now }
{
    sketch
        .figures()
        .iter()
        .filter(|figure| lives_on(first, homes, *figure))
        .count()
}

/// What a figure lacks.
#[derive(Clone, Copy)]
pub enum Lack {
    /// A home; and he has fewer squares than so many.
    Home(usize),
    /// Room: more figures have all their homes among his than there are.
    Room,
}

/// Whether the figure has no home, and fewer squares than so many.
fn is_homeless(below: usize, first: &Board, figure: &Figure) -> bool
    ensures { result ≡ lacks_on (Home below) first.now [] figure.now }
{
    let homes = homes_on(first, *figure);
    let beds = count(homes);
    let seats = count(figure.squares);
    let homeless = beds == 0;
    let few = seats < below;
    homeless & few
}

/// Whether more figures have all their homes among his than there are.
fn is_crowded(first: &Board, sketch: &Sketch, figure: &Figure) -> bool
    ensures { result ≡ lacks_on Room first.now sketch.now figure.now }
{
    let homes = homes_on(first, *figure);
    let beds = count(homes);
    let wanted = lodgers(first, homes, sketch);
    beds < wanted
}

/// Whether the figure lacks this.
fn lacks_it(lack: Lack, first: &Board, sketch: &Sketch, figure: &Figure) -> bool
    ensures { result ≡ lacks_on lack first.now sketch.now figure.now }
{
    match lack {
        Lack::Home(below) => is_homeless(below, first, figure),
        Lack::Room => is_crowded(first, sketch, figure),
    }
}

/// The number, from 0, of the first figure who lacks this.
fn first_lacking(lack: Lack, odds: Odds, sketch: &Sketch) -> Option<usize>
    ensures { result ≡ first_lacking lack odds sketch.now 0 sketch.now }
{
    let first = array_of(odds);
    for i in 0..sketch.len() {
        let Some(figure) = sketch.get(i) else {
            return None;
        };
        if lacks_it(lack, &first, sketch, &figure) {
            return Some(i);
        }
    }
    None
}

/// The first figure without a home who has at most eight squares; if there is none, the first without a home.
fn first_roaming(odds: Odds, sketch: &Sketch) -> Option<usize>
    ensures { result ≡ first_roaming odds sketch.now }
{
    match first_lacking(Lack::Home(9), odds, sketch) {
        Some(i) => Some(i),
        None => first_lacking(Lack::Home(65), odds, sketch),
    }
}

/// The first figure without a home who has one square alone; if there is none, that one.
fn first_homeless(odds: Odds, sketch: &Sketch) -> Option<usize>
    ensures { result ≡ first_homeless odds sketch.now }
{
    match first_lacking(Lack::Home(2), odds, sketch) {
        Some(i) => Some(i),
        None => first_roaming(odds, sketch),
    }
}

/// That one; if there is none, the first with too few homes.
fn first_crowded(odds: Odds, sketch: &Sketch) -> Option<usize>
    ensures { result ≡ first_crowded odds sketch.now }
{
    match first_homeless(odds, sketch) {
        Some(i) => Some(i),
        None => first_lacking(Lack::Room, odds, sketch),
    }
}

/// The name of a figure with this number, counted from 0, if there is one and he is wanted.
fn push_named_if(
    alloc: Global,
    wanted: bool,
    diagram: &Sketch,
    i: usize,
    figure: Option<Figure>,
    out: &mut Vec<u8>,
) -> Result<(), AllocError>
    ensures { IfOk result (λ _. out.new.items ≡ out.old.items ++ cond wanted (named diagram.now i figure) []) }
{
    match figure {
        None => Ok(()),
        Some(man) => {
            if wanted {
                push_figure(alloc, diagram, i, &man, out)
            } else {
                Ok(())
            }
        }
    }
}

/// The names in the sketch of those figures of the wider one whose homes all lie within those of the figure.
fn lodgers_list(
    alloc: Global,
    odds: Odds,
    diagram: &Sketch,
    sketch: &Sketch,
    wide: &Sketch,
    figure: &Figure,
) -> Result<Vec<u8>, AllocError>
    ensures { IfOk result (λ v. v.items ≡ lodgers_words odds diagram.now sketch.now wide.now figure.now) }
{
    let first = array_of(odds);
    let homes = homes_on(&first, *figure);
    let mut list = Vec::new(alloc);
    for i in 0..wide.len() {
        let wanted = lodges_on(&first, homes, wide.get(i));
        push_named_if(alloc, wanted, diagram, i, sketch.get(i), &mut list)?;
    }
    Ok(list)
}

/// Three texts, one after another.
fn push_three(a: &[u8], b: &[u8], c: &[u8], out: &mut Vec<u8>) -> Result<(), AllocError>
    ensures { IfOk result (λ _. out.new.items ≡ out.old.items ++ (a.now ++ b.now ++ c.now)) }
{
    push_pair(a, b, out)?;
    say(c, out)
}

/// The same of four texts.
fn push_four(a: &[u8], b: &[u8], c: &[u8], d: &[u8], out: &mut Vec<u8>) -> Result<(), AllocError>
    ensures { IfOk result (λ _. out.new.items ≡ out.old.items ++ (a.now ++ b.now ++ c.now ++ d.now)) }
{
    push_pair(a, b, out)?;
    say(c, out)?;
    say(d, out)
}

/// On which squares a man can have been, if they are at most eight; his home isn't among them.
fn push_places(squares: &[u8], out: &mut Vec<u8>) -> Result<(), AllocError>
    ensures { IfOk result (λ _. out.new.items ≡ out.old.items ++ places_words squares.now) }
{
    if squares.len() == 3 {
        return say(b" can only have been there, where no such man began", out);
    }
    if squares.len() > 24 {
        return say(b" can't have come from home", out);
    }
    push_three(
        b" can only have been on",
        squares,
        b", where no such man began",
        out,
    )
}

/// A man without a home.
fn push_lone(
    alloc: Global,
    diagram: &Sketch,
    i: usize,
    figure: Option<Figure>,
    squares: &[u8],
    out: &mut Vec<u8>,
) -> Result<(), AllocError>
    ensures { IfOk result (λ _. out.new.items ≡ out.old.items ++ lone_words diagram.now i figure squares.now) }
{
    push_called(alloc, diagram, i, figure, out)?;
    push_places(squares, out)
}

/// Men for whom there are only these homes; or one man, with this number, for whom there are none.
fn push_came(
    alloc: Global,
    diagram: &Sketch,
    i: usize,
    figure: Option<Figure>,
    names: &[u8],
    homes: &[u8],
    squares: &[u8],
    out: &mut Vec<u8>,
) -> Result<(), AllocError>
    ensures { IfOk result (λ _. out.new.items ≡ out.old.items ++ came_words diagram.now i figure names.now homes.now squares.now) }
{
    if homes.len() == 0 {
        return push_lone(alloc, diagram, i, figure, squares, out);
    }
    push_four(
        b" these men can only have come from",
        homes,
        b":",
        names,
        out,
    )
}

/// Which men can't have come from home, if they can have been where the wider sketch says. The figure with this number is one for whom
/// there are too few homes.
fn push_crowd(
    alloc: Global,
    odds: Odds,
    diagram: &Sketch,
    sketch: &Sketch,
    wide: &Sketch,
    i: usize,
    figure: &Figure,
    out: &mut Vec<u8>,
) -> Result<(), AllocError>
    ensures { IfOk result (λ _. out.new.items ≡ out.old.items ++ why_at odds diagram.now sketch.now wide.now i (Some figure.now)) }
{
    let first = array_of(odds);
    let homes = homes_on(&first, *figure);
    let names = lodgers_list(alloc, odds, diagram, sketch, wide, figure)?;
    let home_list = list_of(alloc, homes)?;
    let squares = list_of(alloc, figure.squares)?;
    push_came(
        alloc,
        diagram,
        i,
        sketch.get(i),
        names.as_slice(),
        home_list.as_slice(),
        squares.as_slice(),
        out,
    )
}

/// The same of the figure with this number, if there is one.
fn push_why_at(
    alloc: Global,
    odds: Odds,
    diagram: &Sketch,
    sketch: &Sketch,
    wide: &Sketch,
    i: usize,
    out: &mut Vec<u8>,
) -> Result<(), AllocError>
    ensures { IfOk result (λ _. out.new.items ≡ out.old.items ++ why_words odds diagram.now sketch.now wide.now (Some i)) }
{
    match wide.get(i) {
        None => say(b" not all men can have come from home", out),
        Some(figure) => push_crowd(alloc, odds, diagram, sketch, wide, i, &figure, out),
    }
}

/// The same of the first figure for whom there are too few homes, if there is one.
fn push_why(
    alloc: Global,
    odds: Odds,
    diagram: &Sketch,
    sketch: &Sketch,
    wide: &Sketch,
    out: &mut Vec<u8>,
) -> Result<(), AllocError>
    ensures { IfOk result (λ _. out.new.items ≡ out.old.items ++ why_words odds diagram.now sketch.now wide.now (first_crowded odds wide.now)) }
{
    match first_crowded(odds, wide) {
        None => say(b" not all men can have come from home", out),
        Some(i) => push_why_at(alloc, odds, diagram, sketch, wide, i, out),
    }
}

/// Why not all men of the sketch can have come from home, if they can have been where the wider one says.
pub fn why_list(
    alloc: Global,
    odds: Odds,
    diagram: &Sketch,
    sketch: &Sketch,
    wide: &Sketch,
) -> Result<Vec<u8>, AllocError>
    ensures { IfOk result (λ v. v.items ≡ why_words odds diagram.now sketch.now wide.now (first_crowded odds wide.now)) }
{
    let mut list = Vec::new(alloc);
    push_why(alloc, odds, diagram, sketch, wide, &mut list)?;
    Ok(list)
}
