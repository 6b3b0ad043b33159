ghost use Rattle.std.specs.Prelude.{◌≡◌, ◌+◌, ◌≤◌, ◌++◌, [], None, codes, length};
ghost use Rattle.std.specs.Fmt.{decimal};
ghost use Rattle.cert_text.specs.Lines.{cut, ended};
ghost use Rattle.length_bound.specs.ManDuals.{AreManPotentials};
ghost use Rattle.length_bound.specs.LengthText.{AreLengthLines};
ghost use Rattle.length_bound.specs.LengthReading.{moves_text};

use crate::man_potentials::ManPotentials;
use arrayvec::ArrayVec;
use board_base::Colour;
use cert_text::{push_duals, write_query_lines};
use fen_text::{push_text, turn_letter};
use itoa::Buffer;
use query_base::Query;

/// Puts a number of at most four digits after the others.
fn push_number(number: u16, out: &mut ArrayVec<u8, 512>)
    requires room { length out.old.items + 4 ≤ 512 }
    requires small { number ≤ 9999 }
    ensures text { out.new.items ≡ out.old.items ++ decimal number }
    ensures short { length out.new.items ≤ length out.old.items + 4 }
{
    let mut buffer = Buffer::new();
    push_text(buffer.format(number).as_bytes(), out);
}

/// Puts the line of the number of half-moves after the others.
fn push_at_least(number: u16, out: &mut ArrayVec<u8, 512>)
    requires room { length out.old.items + 13 ≤ 512 }
    requires small { number ≤ 9999 }
    ensures text { out.new.items ≡ out.old.items ++ ended (codes "atleast " ++ decimal number) }
    ensures short { length out.new.items ≤ length out.old.items + 13 }
{
    push_text(b"atleast ", out);
    push_number(number, out);
    out.push(b'\n');
}

/// Puts the line of the potentials after the others.
fn push_moves(side: Colour, p: &ManPotentials, out: &mut ArrayVec<u8, 512>)
    requires { length out.old.items + 138 ≤ 512 }
    ensures text { out.new.items ≡ out.old.items ++ ended (moves_text side p.now) }
    ensures known { AreManPotentials p.now }
    ensures short { length out.new.items ≤ length out.old.items + 138 }
{
    push_text(b"moves ", out);
    out.push(turn_letter(side));
    out.push(b' ');
    push_duals(p.u(), p.v(), out);
    out.push(b'\n');
}

/// Writes the one text that says of the query that each game that reaches it has at least `n` half-moves, as these potentials of the
/// side's men and homes show: at most 274 bytes. `check_length` reads it so. `out` is empty before, `n` is at most 9999, and the
/// query bars no move and demands no clock. It takes no memory.
pub fn write_length(
    query: &Query,
    side: Colour,
    p: &ManPotentials,
    n: u16,
    out: &mut ArrayVec<u8, 512>,
)
    requires empty { out.old.items ≡ [] }
    requires small { n ≤ 9999 }
    requires plain { query.now.barred ≡ None }
    requires free { query.now.clock ≡ None }
    ensures text { AreLengthLines (cut out.new.items) (record { query = query.now; at_least = n; side = side; potentials = p.now }) }
    ensures short { length out.new.items ≤ 274 }
{
    push_text(b"retro length 1\n", out);
    write_query_lines(query, out);
    push_at_least(n, out);
    push_moves(side, p, out);
}
