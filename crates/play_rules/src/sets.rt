ghost use Rattle.std.specs.Prelude.{◌≡◌, slice_set, true};
ghost use Rattle.board_base.specs.Board.{is_in};
ghost use Rattle.play_rules.specs.Reach.{IsWithin};

use board_base::{Square, SquareSet};

/// The set, in which the square is now a member or is not.
pub fn marked(set: SquareSet, s: Square, member: bool) -> SquareSet
    ensures { result ≡ slice_set set s member }
{
    if member { set.with(s) } else { set.without(s) }
}

/// Adds the square to the set.
pub fn add(set: &mut SquareSet, s: Square)
    ensures kept { IsWithin set.old set.new }
    ensures added { is_in set.new s ≡ true }
{
    set.bits();
    s.index();
    *set = set.with(s);
}
