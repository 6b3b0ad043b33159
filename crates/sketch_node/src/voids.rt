ghost use Rattle.std.specs.Prelude.{◌↔◌, IsTrue};
ghost use Rattle.sketch_account.specs.Closes.{Closes};
ghost use Rattle.sketch_node.specs.Nodes.{IsVoid};

use board_base::{CastleSet, Odds};
use figures::Sketch;
use sketch_account::{are_begun, greatest_frozen};

/// Whether a figure of the greatest frozen set isn't of the man whom the array at these odds has on his square. Then an account closes the
/// sketch, as that man never moved.
pub fn is_void(sketch: &Sketch, held: CastleSet, odds: Odds) -> bool
    ensures exact { IsTrue result ↔ IsVoid odds held sketch.now }
    ensures sound { IsTrue result → Closes odds held sketch.now }
{
    !are_begun(sketch, greatest_frozen(sketch, held), odds)
}
