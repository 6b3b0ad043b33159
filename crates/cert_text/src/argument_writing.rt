ghost use Rattle.std.specs.Prelude.{◌≡◌, ◌+◌, ◌*◌, ◌<◌, ◌≤◌, ◌++◌, length};
ghost use Rattle.std.specs.List.{All};
ghost use Rattle.std.specs.Fmt.{signed_decimal};
ghost use Rattle.board_base.specs.Potentials.{IsWithinLimit, duals};
ghost use Rattle.fen_text.specs.Sets.{set_text};
ghost use Rattle.cert_text.specs.Arguments.{potentials_text};

use arrayvec::ArrayVec;
use board_base::{Potentials, SquareSet};
use fen_text::{push_text, set_text};
use itoa::Buffer;

/// Puts the text of a set after the others.
pub(crate) fn push_set(set: SquareSet, out: &mut ArrayVec<u8, 256>)
    requires { length out.old.items + 16 ≤ 256 }
    ensures text { out.new.items ≡ out.old.items ++ set_text set }
    ensures longer { length out.new.items ≡ length out.old.items + 16 }
{
    push_text(&set_text(set), out);
}

/// Puts the text of a number from -64 to 64 after the others.
fn push_signed<const N: usize>(number: i8, out: &mut ArrayVec<u8, N>)
    requires room { length out.old.items + 3 ≤ N }
    requires near { IsWithinLimit number }
    ensures text { out.new.items ≡ out.old.items ++ signed_decimal number }
    ensures short { length out.new.items ≤ length out.old.items + 3 }
{
    let mut buffer = Buffer::new();
    push_text(buffer.format(number).as_bytes(), out);
}

/// Puts the one text of potentials after what stands in `out`: the numbers of the rows, a `/` and the numbers of the columns, with a
/// space between two. The numbers are from -64 to 64, and there is room.
pub fn push_duals<const N: usize>(u: &[i8], v: &[i8], out: &mut ArrayVec<u8, N>)
    requires room { length out.old.items + 4 * (length u.now + length v.now) + 1 ≤ N }
    requires rows { All IsWithinLimit u.now }
    requires columns { All IsWithinLimit v.now }
    ensures text { out.new.items ≡ out.old.items ++ potentials_text (duals u.now v.now) }
    ensures short { length out.new.items ≤ length out.old.items + 4 * (length u.now + length v.now) + 1 }
{
    for row in u {
        push_signed(*row, out);
        out.push(b' ');
    }
    out.push(b'/');
    for column in v {
        out.push(b' ');
        push_signed(*column, out);
    }
}

/// Puts the text of potentials after the others.
pub(crate) fn push_potentials(p: &Potentials, out: &mut ArrayVec<u8, 256>)
    requires { length out.old.items + 65 ≤ 256 }
    ensures text { out.new.items ≡ out.old.items ++ potentials_text p.now }
    ensures short { length out.new.items ≤ length out.old.items + 65 }
{
    push_duals(p.u(), p.v(), out);
}
