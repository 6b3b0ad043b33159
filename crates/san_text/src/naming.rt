ghost use Rattle.std.specs.Prelude.{◌≡◌, ◌&&◌, ◌==◌, not};
ghost use Rattle.san_text.specs.Spelling.{any_rival, is_rival, kind_at, named, named_castle, named_going, origin_of, shares};

use crate::fitting::captures;
use crate::grammar::{Going, San};
use board_base::{Board, Castle, Kind, Move, Square, is_a};
use play_rules::{State, castling, is_legal};

/// What the square of another man has in common with the origin.
#[derive(Clone, Copy)]
pub enum Shared {
    Board,
    File,
    Rank,
}

fn shares(shared: Shared, s: Square, from: Square) -> bool
    ensures { result ≡ shares shared s from }
{
    match shared {
        Shared::Board => true,
        Shared::File => s.file() == from.file(),
        Shared::Rank => s.rank() == from.rank(),
    }
}

fn is_rival(state: &State, kind: Kind, m: &Move, s: Square) -> bool
    ensures { result ≡ is_rival state.now kind m.now s }
{
    let other = Move {
        from: s,
        to: m.to,
        promo: m.promo,
    };
    s != m.from && is_a(kind, state.board().at(s)) && is_legal(state, &other)
}

fn is_such_rival(state: &State, kind: Kind, m: &Move, shared: Shared, s: Square) -> bool
    ensures { result ≡ (shares shared s m.now.from && is_rival state.now kind m.now s) }
{
    shares(shared, s, m.from) && is_rival(state, kind, m, s)
}

/// Another man of this kind, on a square that has this in common with the origin, may go to the same target.
fn any_rival(state: &State, kind: Kind, m: &Move, shared: Shared) -> bool
    ensures { result ≡ any_rival shared state.now kind m.now }
{
    for i in 0..64 {
        if is_such_rival(state, kind, m, shared, Square::known(i)) {
            return true;
        }
    }
    false
}

/// The origin's file and rank, as far as they are told.
fn origin_of(state: &State, kind: Kind, m: &Move) -> (Option<u8>, Option<u8>)
    ensures { result ≡ origin_of state.now kind m.now }
{
    let (file, rank) = (m.from.file(), m.from.rank());
    if kind == Kind::Pawn {
        let file = if captures(state.board(), m) {
            Some(file)
        } else {
            None
        };
        return (file, None);
    }
    if !any_rival(state, kind, m, Shared::Board) {
        (None, None)
    } else if !any_rival(state, kind, m, Shared::File) {
        (Some(file), None)
    } else if !any_rival(state, kind, m, Shared::Rank) {
        (None, Some(rank))
    } else {
        (Some(file), Some(rank))
    }
}

fn kind_at(board: &Board, s: Square) -> Kind
    ensures { result ≡ kind_at board.now s }
{
    match board.at(s) {
        Some(man) => man.kind,
        None => Kind::Pawn,
    }
}

fn named_castle(castle: Castle) -> San
    ensures { result ≡ named_castle castle }
{
    match castle {
        Castle::WhiteShort | Castle::BlackShort => San::Short,
        Castle::WhiteLong | Castle::BlackLong => San::Long,
    }
}

fn named_going(state: &State, m: &Move) -> San
    ensures { result ≡ named_going state.now m.now }
{
    let kind = kind_at(state.board(), m.from);
    let (file, rank) = origin_of(state, kind, m);
    San::Goes(Going {
        kind,
        file,
        rank,
        takes: captures(state.board(), m),
        to: m.to,
        promo: m.promo,
    })
}

/// What the spelling of a move says of it.
#[tactic(auto, unfolding(crate::specs::Spelling::named))]
pub fn named(state: &State, m: &Move) -> San
    ensures { result ≡ named state.now m.now }
{
    match castling(state.board(), m) {
        Some(castle) => named_castle(castle),
        None => named_going(state, m),
    }
}
