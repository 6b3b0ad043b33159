//! Games that are read from words and replayed.

use board_base::{Colour, Move};
use game_text::{GameFault, IllegalAt, read_game, replay};
use std::alloc::Global;

/// The moves that are read of words, if there aren't too many bytes.
fn read(alloc: Global, words: &[u8]) -> Result<Vec<Move>, GameFault> {
    if words.len() > 1_000 {
        return Err(GameFault::Memory);
    }
    read_game(alloc, words)
}

/// How many moves words tell, and whose turn it is after them, or the first that is illegal.
fn replayed(alloc: Global, words: &[u8]) -> Result<(usize, Result<Colour, IllegalAt>), GameFault> {
    let moves = read(alloc, words)?;
    if moves.len() > 1_000 {
        return Err(GameFault::Memory);
    }
    let turn = match replay(&moves) {
        Ok(state) => Ok(state.turn()),
        Err(fault) => Err(fault),
    };
    Ok((moves.len(), turn))
}

#[test]
fn replays_the_words_of_a_game(rt: HostRuntime) {
    let answer = replayed(rt.alloc(), b"\r\n e2e4 e7e5\r\ng1f3 ");
    assert_eq!(rt; answer, Ok((3, Ok(Colour::Black))));
}

/// What the fault of words is called.
fn fault_text(alloc: Global, words: &[u8]) -> Option<String> {
    let fault = read(alloc, words).err()?;
    fault.to_string(alloc).ok()
}

#[test]
fn names_the_first_fault(rt: HostRuntime) {
    let bad = b"e2e4 e9e5 e2e4k";
    assert_eq!(rt;
        replayed(rt.alloc(), bad),
        Err(GameFault::BadText { word: 2 })
    );
    assert_eq!(rt;
        fault_text(rt.alloc(), bad).as_deref(),
        Some("word 2 is no move")
    );
    let answer = replayed(rt.alloc(), b"e2e4 e7e5 e4e5");
    assert_eq!(rt; answer, Ok((3, Err(IllegalAt { ply: 3 }))));
}
