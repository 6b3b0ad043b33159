//! The proof by a sketch in plain words.

ghost use Rattle.std.specs.Prelude.{◌≡◌, ◌==◌, IfOk};
ghost use Rattle.std.specs.List.{list_any};
ghost use Rattle.sketch_checker.specs.Supports.{BodySupports};
ghost use Rattle.sketch_prose.specs.Telling.{AddsSketch, exact_files, first_spot};
ghost use Rattle.sketch_prose.specs.Levels.{first_level};
ghost use Rattle.sketch_words.specs.Words.{nowhere};

use crate::bases::Base;
use crate::dues::Left;
use crate::levels::{Level, Levels};
use crate::telling::push_all;
use board_base::SquareSet;
use figures::{Sketch, sketch_of, squares_that};
use prose_words::say;
use query_base::Query;
use sketch_body::SketchBody;
use sketch_words::Spot;
use std::alloc::{AllocError, Global};

/// Whether the file is among these.
fn has_file(files: &[u8], file: u8) -> bool
    ensures { result ≡ list_any (λ n. n == file) files.now }
{
    files.iter().any(|n| *n == file)
}

/// The files with these numbers, from 0 for a to 7 for h.
fn exact_files(files: &[u8]) -> [bool; 8]
    ensures { result ≡ exact_files files.now }
{
    [
        has_file(files, 0),
        has_file(files, 1),
        has_file(files, 2),
        has_file(files, 3),
        has_file(files, 4),
        has_file(files, 5),
        has_file(files, 6),
        has_file(files, 7),
    ]
}

/// No square.
fn nowhere() -> SquareSet
    ensures { result ≡ nowhere }
{
    squares_that(|_| false)
}

/// Where the first node is told.
fn first_spot(alloc: Global) -> Result<Spot, AllocError>
    ensures { IfOk result (λ spot. spot ≡ first_spot) }
{
    let mut lead = Vec::new(alloc);
    say(b"\n", &mut lead)?;
    Ok(Spot {
        lead,
        prefix: Vec::new(alloc),
        known: nowhere(),
    })
}

/// The level of the first node.
fn first_level(alloc: Global, sketch: Sketch) -> Result<Level, AllocError>
    ensures { IfOk result (λ level. level ≡ first_level sketch) }
{
    Ok(Level {
        spot: first_spot(alloc)?,
        number: 1,
        count: 1,
        left: Left::First(sketch),
    })
}

/// Adds the proof by a sketch that no game leads to the query, in plain words. It is one line that may be long, and then, behind a line end
/// each and without one behind the last, what is told of the nodes below the first, each line with an indent of a blank for each node above.
pub fn push_sketch(
    alloc: Global,
    query: &Query,
    body: &SketchBody,
    out: &mut Vec<u8>,
) -> Result<(), AllocError>
    requires { BodySupports query.now (exact_files body.now.files) body.now.prices body.now.lines }
    ensures { IfOk result (λ _. AddsSketch query.now body.now out.old.items out.new.items) }
{
    let Some(diagram) = sketch_of(&query.board) else {
        unreachable!()
    };
    let mut levels = Levels::new(alloc);
    levels.push(first_level(alloc, diagram.copied())?)?;
    let base = Base {
        odds: query.odds,
        held: query.held,
        exact: exact_files(body.files()),
        diagram,
    };
    push_all(alloc, &base, body.prices(), &mut levels, body.lines(), out)
}
