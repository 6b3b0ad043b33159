ghost use Rattle.std.specs.Prelude.{◌≡◌};
ghost use Rattle.san_text.specs.Candidates.{candidate};
ghost use Rattle.san_text.specs.Fits.{allows, captures, castles_by, fits, goes_by, agrees, long_of, short_of};

use crate::grammar::{Going, San};
use board_base::{Board, Castle, Colour, Kind, Move, Square, is_a};
use castle_history::{home, target};
use play_rules::{State, castling, goes_en_passant, is_legal};

pub fn short_of(side: Colour) -> Castle
    ensures { result ≡ short_of side }
{
    match side {
        Colour::White => Castle::WhiteShort,
        Colour::Black => Castle::BlackShort,
    }
}

pub fn long_of(side: Colour) -> Castle
    ensures { result ≡ long_of side }
{
    match side {
        Colour::White => Castle::WhiteLong,
        Colour::Black => Castle::BlackLong,
    }
}

/// The move takes a man, en passant too (articles 3.1 and 3.7).
pub fn captures(board: &Board, m: &Move) -> bool
    ensures { result ≡ captures board.now m.now }
{
    board.at(m.to).is_some() || goes_en_passant(board, m)
}

fn allows(told: Option<u8>, number: u8) -> bool
    ensures { result ≡ allows told number }
{
    match told {
        Some(told) => told == number,
        None => true,
    }
}

fn castles_by(board: &Board, castle: Castle, m: &Move) -> bool
    ensures { result ≡ castles_by board.now castle m.now }
{
    is_a(Kind::King, board.at(m.from)) && m.from == home(castle).0 && m.to == target(castle).0
}

fn goes_by(board: &Board, said: &Going, m: &Move) -> bool
    ensures { result ≡ goes_by board.now said.now m.now }
{
    castling(board, m).is_none()
        && is_a(said.kind, board.at(m.from))
        && m.to == said.to
        && said.promo == m.promo
        && allows(said.file, m.from.file())
        && allows(said.rank, m.from.rank())
        && said.takes == captures(board, m)
}

fn agrees(board: &Board, side: Colour, said: &San, m: &Move) -> bool
    ensures { result ≡ agrees board.now side said.now m.now }
{
    match said {
        San::Short => castles_by(board, short_of(side), m),
        San::Long => castles_by(board, long_of(side), m),
        San::Goes(going) => goes_by(board, going, m),
    }
}

/// The move is legal in the state, and what is said fits it.
#[tactic(auto, unfolding(crate::specs::Fits::fits))]
pub fn fits(state: &State, said: &San, m: &Move) -> bool
    ensures { result ≡ fits said.now state.now m.now }
{
    is_legal(state, m) && agrees(state.board(), state.turn(), said, m)
}

/// Of the moves from this square the only one that what is said may fit.
pub fn candidate(side: Colour, said: &San, from: Square) -> Move
    ensures { result ≡ candidate side said.now from }
{
    match said {
        San::Short => Move {
            from,
            to: target(short_of(side)).0,
            promo: None,
        },
        San::Long => Move {
            from,
            to: target(long_of(side)).0,
            promo: None,
        },
        San::Goes(going) => Move {
            from,
            to: going.to,
            promo: going.promo,
        },
    }
}
