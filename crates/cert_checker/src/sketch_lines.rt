ghost use Rattle.std.specs.Prelude.{◌≡◌, ◌==◌, true};
ghost use Rattle.std.specs.List.{list_any};
ghost use Rattle.sketch_body.specs.Seen.{line_of};
ghost use Rattle.sketch_checker.specs.LineWalk.{OnLine};
ghost use Rattle.sketch_checker.specs.Placed.{may_come};
ghost use Rattle.cert_checker.specs.Sketches.{files_of};
ghost use Rattle.cert_checker.specs.SketchLines.{IsAfter};

use crate::refusals::Why;
use sketch_body::SketchLine;
use sketch_checker::{SketchFault, SketchWalk};

/// The first fault of the walk over a sketch.
#[derive(Clone, Copy, PartialEq, Eq, Debug)]
pub(crate) struct LineFault {
    /// The number of the line.
    pub(crate) line: u32,
    /// What is wrong with it.
    pub(crate) why: Why,
}

fn has_file(files: &[u8], file: u8) -> bool
    ensures { result ≡ list_any (λ n. n == file) files.now }
{
    files.iter().any(|n| *n == file)
}

/// The files with these numbers, from 0 for a to 7 for h.
pub(crate) fn exact_files(files: &[u8]) -> [bool; 8]
    ensures { result ≡ files_of files.now }
{
    [
        has_file(files, 0),
        has_file(files, 1),
        has_file(files, 2),
        has_file(files, 3),
        has_file(files, 4),
        has_file(files, 5),
        has_file(files, 6),
        has_file(files, 7),
    ]
}

/// Takes the next line of a sketch, which has this number and is one that may come there.
pub(crate) fn take_sketch_line(
    walk: &mut SketchWalk,
    number: u32,
    line: &SketchLine,
) -> Result<(), LineFault>
    requires { may_come walk.old.opened walk.old.frames (line_of line.now) ≡ true }
    ensures walk { IsAfter result walk.new.opened walk.new.frames (OnLine walk.old.setting walk.old.opened walk.old.frames number (line_of line.now)) }
    ensures setting { walk.new.setting ≡ walk.old.setting }
{
    match walk.take(number, line) {
        Ok(()) => Ok(()),
        Err(SketchFault::Stray { line }) => Err(LineFault {
            line,
            why: Why::Stray,
        }),
        Err(SketchFault::Unsupported { line }) => Err(LineFault {
            line,
            why: Why::Rule,
        }),
        Err(SketchFault::Misplaced) => unreachable!(),
    }
}
