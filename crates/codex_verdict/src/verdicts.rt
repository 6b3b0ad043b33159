ghost use Rattle.std.specs.Prelude.{◌≡◌, ◌≤◌, ◌+◌, ◌++◌, [], ◌∷◌, length};
ghost use Rattle.std.specs.Fmt.{decimal};
ghost use Rattle.codex_verdict.specs.Verdicts.{Promotes, open_words, proved_words, right_text, verdict, verdict_text};

use crate::kinds::Right;
use arrayvec::ArrayVec;
use board_base::write_move;
use fen_text::{castle_letter, push_text};
use itoa::Buffer;

fn push_right(right: &Right, out: &mut ArrayVec<u8, 64>)
    requires empty { out.old.items ≡ [] }
    requires promotion { Promotes right.now → ⊥ }
    ensures text { out.new.items ≡ right_text right.now }
    ensures short { length out.new.items ≤ 8 }
{
    match right {
        Right::Castling(castle) => out.push(castle_letter(*castle)),
        Right::EnPassant(m) => {
            let mut text: ArrayVec<u8, 8> = ArrayVec::new();
            write_move(m, &mut text);
            push_text(text.as_slice(), out);
        }
    }
}

fn push_depth(depth: u8, out: &mut ArrayVec<u8, 64>)
    requires { length out.old.items ≤ 24 }
    ensures text { out.new.items ≡ out.old.items ++ decimal depth }
    ensures short { length out.new.items ≤ length out.old.items + 4 }
{
    let mut buffer = Buffer::new();
    push_text(buffer.format(depth).as_bytes(), out);
}

/// What is said of a right whose claim is proved.
fn proved_words(right: &Right) -> &'static [u8]
    ensures words { result.now ≡ proved_words right.now }
    ensures short { length result.now ≤ 14 }
{
    match right {
        Right::Castling(_) => b" not permitted",
        Right::EnPassant(_) => b" permitted",
    }
}

/// What is said, before the depth, of a right whose claim isn't proved.
fn open_words(right: &Right) -> &'static [u8]
    ensures words { result.now ≡ open_words right.now }
    ensures short { length result.now ≤ 16 }
{
    match right {
        Right::Castling(_) => b" undisproved to ",
        Right::EnPassant(_) => b" unproved to ",
    }
}

/// Writes the line of a right, with its end: its letter or its move, and what the conventions say of it. A castling is not permitted
/// if its loss is proved (`refuted`), else undisproved to the depth; a capture en passant is permitted if it is proved to be
/// legal, else unproved to the depth. `out` is empty before, the depth is from 0 to 64, and a capture en passant promotes nothing.
pub fn verdict_line(right: &Right, refuted: bool, depth: u8, out: &mut ArrayVec<u8, 64>)
    requires empty { out.old.items ≡ [] }
    requires promotion { Promotes right.now → ⊥ }
    requires shallow { depth ≤ 64 }
    ensures { out.new.items ≡ verdict_text right.now refuted depth }
{
    push_right(right, out);
    if refuted {
        push_text(proved_words(right), out);
    } else {
        push_text(open_words(right), out);
        push_depth(depth, out);
    }
    out.push(b'\n');
}
