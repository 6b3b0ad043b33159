ghost use Rattle.std.specs.Prelude.{◌≡◌, ◌≤◌, ◌+◌, length, vec_len, IfOk, IfErr};
ghost use Rattle.game_text.specs.Words.{is_blank, words, AreTextsOf, IsFaultOf};

use board_base::{Move, read_move};
use std::alloc::Global;
use thiserror::Error;

/// Why a text has no list of moves.
#[derive(Clone, Copy, PartialEq, Eq, Debug, Error)]
pub enum GameFault {
    /// A word is no move's text: the first such, counted from 1.
    #[error("word {word} is no move")]
    BadText { word: u32 },
    /// Want of memory.
    #[error("out of memory")]
    Memory,
}

fn is_blank(byte: u8) -> bool
    ensures { result ≡ is_blank byte }
{
    byte == b' ' || byte == b'\n' || byte == b'\r'
}

/// The moves of a game's text, of at most 67,108,864 bytes, in order. Its words are separated by
/// spaces, line feeds and carriage returns, any number of them, at both ends too. `BadText` comes
/// if and only if some word is no move's text. Want of memory is a free answer: `Memory` may take
/// the place of both.
pub fn read_game(alloc: Global, bytes: &[u8]) -> Result<Vec<Move>, GameFault>
    requires { length bytes.now ≤ 67_108_864 }
    ensures ok { IfOk result (λ v. AreTextsOf (words bytes.now) v.items) }
    ensures few { IfOk result (λ v. vec_len v ≤ length bytes.now + 1) }
    ensures fault { IfErr result (λ e. IsFaultOf e bytes.now) }
{
    let mut moves = Vec::new(alloc);
    let pieces = bytes.split(|byte| is_blank(*byte));
    for word in pieces.filter(|piece| !piece.is_empty()) {
        let Some(m) = read_move(word) else {
            return Err(GameFault::BadText {
                word: moves.len() as u32 + 1,
            });
        };
        if moves.push(m).is_err() {
            return Err(GameFault::Memory);
        }
    }
    Ok(moves)
}
