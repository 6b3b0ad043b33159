ghost use Rattle.std.specs.Prelude.{ℕ, ◌≡◌, ◌<◌, ◌+◌, ◌/◌, ◌∷◌, ◌++◌, ◌^◌, Bool, List, [], length, codes, decimal, IfOk, IsTrue, MatchResult, OnOk};
ghost use Rattle.board_base.specs.Game.{IsGame};
ghost use Rattle.board_base.specs.declared.moves.Move.{Move as AMove};
ghost use Rattle.play_rules.specs.States.{StandsFor, legal_at};
ghost use Rattle.san_text.specs.Games.{IsGameText};
ghost use Rattle.san_text.specs.Pieces.{added, added_all};
ghost use Rattle.san_text.specs.Spelling.{spelling};
ghost use Rattle.san_text.specs.SpelledGames.{AreLegal, IsGameSpellFault, IsSpellFault, game_spelling, numbered};

use crate::playing::after;
use crate::writing::write_san;
use arrayvec::ArrayVec;
use board_base::{Colour, Move};
use itoa::Buffer;
use play_rules::{State, is_legal};
use std::alloc::{AllocError, Global};
use thiserror::Error;

/// Why a list of moves has no text as a game.
#[derive(Clone, Copy, PartialEq, Eq, Debug, Error)]
pub enum SpellFault {
    /// A move isn't legal after those before it: the first such, counted from 1.
    #[error("move {ply} isn't legal")]
    Illegal { ply: u32 },
    /// Want of memory.
    #[error("out of memory")]
    Memory,
}

/// Adds a word, after a space unless it is the first.
fn push_word(text: &mut Vec<u8>, word: &[u8]) -> Result<(), AllocError>
    ensures { OnOk result (text.new.items ≡ added text.old.items word.now) }
{
    if !text.is_empty() {
        text.push(b' ')?;
    }
    text.extend_from_slice(word)?;
    Ok(())
}

/// Adds the number of White's move.
fn push_number(text: &mut Vec<u8>, number: u64) -> Result<(), AllocError>
    ensures { OnOk result (text.new.items ≡ added text.old.items (decimal number ++ codes ".")) }
{
    let mut buffer = Buffer::new();
    push_word(text, buffer.format(number).as_bytes())?;
    text.push(b'.')?;
    Ok(())
}

/// Adds the words of a legal move, in a game of which so many moves went before.
fn push_ply(text: &mut Vec<u8>, state: &State, m: &Move, count: u64) -> Result<(), AllocError>
    requires { IsTrue (legal_at state.now m.now) }
    ensures { OnOk result (text.new.items ≡ added_all text.old.items (numbered state.now.turn (count / 2 + 1) (spelling state.now m.now))) }
{
    if state.turn() == Colour::White {
        push_number(text, count / 2 + 1)?;
    }
    let mut word = ArrayVec::new();
    write_san(state, m, &mut word);
    push_word(text, word.as_slice())
}

/// The one text of a game that is played from this state on, which `read_san_game` reads as these moves: the spellings of the moves
/// as `write_san` gives them, separated by single spaces, and before White's k-th move `k.` and a space. Of no moves it is the empty
/// text. `Illegal` comes if and only if a move isn't legal after those before it, and names the first. There is room for fewer than
/// 2^32 moves. Want of memory is a free answer: `Memory` may take the place of both.
pub fn write_san_game(alloc: Global, start: State, moves: &[Move]) -> Result<Vec<u8>, SpellFault>
    requires { length moves.now < 2 ^ 32 }
    ensures here { MatchResult result (λ v. AreLegal start moves.now × (v.items ≡ game_spelling start moves.now)) (λ e. IsSpellFault e start moves.now) }
    ensures read { IfOk result (λ v. IsGameText start v.items moves.now) }
    ensures in_games { (o : List Bool) → StandsFor start o [] → MatchResult result (λ _. IsGame o moves.now) (λ e. IsGameSpellFault e o moves.now) }
{
    start.board().is_whole();
    let mut state = start;
    let mut text = Vec::new(alloc);
    for (i, m) in moves.iter().enumerate() {
        if !is_legal(&state, m) {
            return Err(SpellFault::Illegal { ply: i as u32 + 1 });
        }
        if push_ply(&mut text, &state, m, i as u64).is_err() {
            return Err(SpellFault::Memory);
        }
        state = after(&state, m);
    }
    Ok(text)
}
