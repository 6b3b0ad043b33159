ghost use Rattle.std.specs.Prelude.{◌≡◌, ◌≤◌, ◌+◌, ◌++◌, [], length, IsTrue};
ghost use Rattle.play_rules.specs.States.{legal_at};
ghost use Rattle.san_text.specs.Fits.{IsOnly, fits_text};
ghost use Rattle.san_text.specs.Spelling.{capital, file_text, rank_text, takes_text, promotion_text, origin_text, end_text, going_text, said_text, mark_text, mark_of, spelling};
ghost use Rattle.san_text.specs.Small.{IsSmall};
ghost use Rattle.san_text.specs.Spellable.{IsSmallSaid};

use crate::grammar::{Going, San};
use crate::marks::{Mark, mark_of};
use crate::naming::named;
use arrayvec::ArrayVec;
use board_base::{Kind, Move, push_square};
use play_rules::{State, step};

fn push_capital(kind: Kind, out: &mut ArrayVec<u8, 16>)
    requires { length out.old.items + 1 ≤ 16 }
    ensures text { out.new.items ≡ out.old.items ++ capital kind }
    ensures room { length out.new.items ≤ length out.old.items + 1 }
{
    match kind {
        Kind::Pawn => {}
        Kind::Knight => out.push(b'N'),
        Kind::Bishop => out.push(b'B'),
        Kind::Rook => out.push(b'R'),
        Kind::Queen => out.push(b'Q'),
        Kind::King => out.push(b'K'),
    }
}

fn push_file(file: Option<u8>, out: &mut ArrayVec<u8, 16>)
    requires small { IsSmall file }
    requires fits { length out.old.items + 1 ≤ 16 }
    ensures text { out.new.items ≡ out.old.items ++ file_text file }
    ensures room { length out.new.items ≤ length out.old.items + 1 }
{
    if let Some(file) = file {
        out.push(b'a' + file);
    }
}

fn push_rank(rank: Option<u8>, out: &mut ArrayVec<u8, 16>)
    requires small { IsSmall rank }
    requires fits { length out.old.items + 1 ≤ 16 }
    ensures text { out.new.items ≡ out.old.items ++ rank_text rank }
    ensures room { length out.new.items ≤ length out.old.items + 1 }
{
    if let Some(rank) = rank {
        out.push(b'1' + rank);
    }
}

fn push_takes(takes: bool, out: &mut ArrayVec<u8, 16>)
    requires { length out.old.items + 1 ≤ 16 }
    ensures text { out.new.items ≡ out.old.items ++ takes_text takes }
    ensures room { length out.new.items ≤ length out.old.items + 1 }
{
    if takes {
        out.push(b'x');
    }
}

fn push_promotion(promo: Option<Kind>, out: &mut ArrayVec<u8, 16>)
    requires { length out.old.items + 2 ≤ 16 }
    ensures text { out.new.items ≡ out.old.items ++ promotion_text promo }
    ensures room { length out.new.items ≤ length out.old.items + 2 }
{
    if let Some(kind) = promo {
        out.push(b'=');
        push_capital(kind, out);
    }
}

fn push_mark(mark: Mark, out: &mut ArrayVec<u8, 16>)
    requires { length out.old.items + 1 ≤ 16 }
    ensures { out.new.items ≡ out.old.items ++ mark_text mark }
{
    match mark {
        Mark::Quiet => {}
        Mark::Check => out.push(b'+'),
        Mark::Mate => out.push(b'#'),
    }
}

fn push_origin(going: &Going, out: &mut ArrayVec<u8, 16>)
    requires file { IsSmall going.now.file }
    requires rank { IsSmall going.now.rank }
    requires fits { length out.old.items + 3 ≤ 16 }
    ensures text { out.new.items ≡ out.old.items ++ origin_text going.now }
    ensures room { length out.new.items ≤ length out.old.items + 3 }
{
    push_capital(going.kind, out);
    push_file(going.file, out);
    push_rank(going.rank, out);
}

fn push_end(going: &Going, out: &mut ArrayVec<u8, 16>)
    requires fits { length out.old.items + 5 ≤ 16 }
    ensures text { out.new.items ≡ out.old.items ++ end_text going.now }
    ensures room { length out.new.items ≤ length out.old.items + 5 }
{
    push_takes(going.takes, out);
    push_square(going.to, out);
    push_promotion(going.promo, out);
}

fn push_said(said: &San, out: &mut ArrayVec<u8, 16>)
    requires small { IsSmallSaid said.now }
    requires fits { length out.old.items + 8 ≤ 16 }
    ensures text { out.new.items ≡ out.old.items ++ said_text said.now }
    ensures room { length out.new.items ≤ length out.old.items + 8 }
{
    match said {
        San::Short => {
            out.push(b'O');
            out.push(b'-');
            out.push(b'O');
        }
        San::Long => {
            out.push(b'O');
            out.push(b'-');
            out.push(b'O');
            out.push(b'-');
            out.push(b'O');
        }
        San::Goes(going) => {
            push_origin(going, out);
            push_end(going, out);
        }
    }
}

/// Writes the one spelling of a legal move, which `read_san` reads as this move: what is told of its man, its origin and its target,
/// as little of the origin as leaves no rival, and `+` or `#` if it gives check or mate. `out` is empty before. Takes no memory.
#[tactic(auto, unfolding(crate::specs::Spelling::spelling))]
pub fn write_san(state: &State, m: &Move, out: &mut ArrayVec<u8, 16>)
    requires legal { IsTrue (legal_at state.now m.now) }
    requires empty { out.old.items ≡ [] }
    ensures text { out.new.items ≡ spelling state.now m.now }
    ensures read { IsOnly (fits_text out.new.items state.now) m.now }
{
    state.board().is_whole();
    push_said(&named(state, m), out);
    if let Ok(next) = step(state, m) {
        push_mark(mark_of(&next), out);
    }
}
