ghost use Rattle.std.specs.Prelude.{◌≡◌, MatchOption};
ghost use Rattle.std.specs.Option.{option_map};
ghost use Rattle.sketch_body.specs.Due.{step};
ghost use Rattle.sketch_body.specs.Seen.{item_of};
ghost use Rattle.cert_text.specs.Lines.{said};

use crate::lines::without_end;
use sketch_body::{SketchDue, SketchItem};

/// Reads the next line of a sketch, with its end, as `SketchDue::read` reads it without. None comes if and only if the line isn't one that
/// is due, or the units become too many. Nothing changes then.
#[tactic(auto, unfolding(crate::specs::Lines::said))]
#[inline(never)]
pub fn read_sketch_line(due: &mut SketchDue, line: &[u8]) -> Option<SketchItem>
    ensures read { option_map (λ i. (item_of i, due.new)) result ≡ said (step due.old) line.now }
    ensures kept { MatchOption result (due.new ≡ due.old) (λ i. Unit {0}) }
{
    match without_end(line) {
        Some(text) => due.read(text),
        None => None,
    }
}
