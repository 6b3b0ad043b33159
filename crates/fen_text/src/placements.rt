ghost use Rattle.std.specs.Prelude.{◌≡◌, ◌+◌, ◌*◌, ◌<◌, ◌++◌, take, drop, length, MatchResult};
ghost use Rattle.fen_text.specs.Fen.{ranks, placement};
ghost use Rattle.fen_text.specs.Faults.{IsFault, ReadsPart};
ghost use Rattle.fen_text.specs.Placed.{IsPlaced};

use crate::parts::split_part;
use crate::ranks::read_rank;
use board_base::{Board, Man, Square};

/// Puts the places of a rank on the board. No other square changes.
fn put_rank(board: &mut Board, rank: u8, places: &[Option<Man>; 8])
    requires in_range { rank < 8 }
    requires size { length board.old ≡ 64 }
    requires width { length places.now ≡ 8 }
    ensures { board.new ≡ take (8 * rank) board.old ++ places.now ++ drop (8 * rank + 8) board.old }
{
    for file in 0..8u8 {
        board.put(Square::known(8 * rank + file), places[file as usize]);
    }
}

/// Puts the men of a rank and of all below it on the board, or says how many bytes begin such a text.
fn read_ranks(board: &mut Board, rank: u8, text: &[u8]) -> Result<(), usize>
    requires in_range { rank < 8 }
    requires size { length board.old ≡ 64 }
    ensures { MatchResult result (λ u. IsPlaced rank text.now board.old board.new) (λ n. IsFault (ranks rank) text.now n) }
{
    if rank == 0 {
        let places = read_rank(text)?;
        put_rank(board, rank, &places);
        return Ok(());
    }
    let (part, rest) = split_part(text, b'/');
    let places = read_rank(part)?;
    let Some(rest) = rest else {
        return Err(part.len());
    };
    put_rank(board, rank, &places);
    match read_ranks(board, rank - 1, rest) {
        Ok(()) => Ok(()),
        Err(at) => Err(part.len() + 1 + at),
    }
}

/// The board of a placement, or how many bytes begin one.
#[tactic(auto, unfolding(crate::specs::Fen::placement))]
pub(crate) fn read_placement(text: &[u8]) -> Result<Board, usize>
    ensures { ReadsPart placement text.now result }
{
    let mut board = Board::empty();
    read_ranks(&mut board, 7, text)?;
    Ok(board)
}
