ghost use Rattle.std.specs.Prelude.{ℕ, ◌≡◌, ◌≤◌, ◌+◌, ◌++◌, Bool, List, length, vec_len, IfOk, IfErr, MatchResult};
ghost use Rattle.board_base.specs.Game.{IsGame};
ghost use Rattle.board_base.specs.declared.moves.Move.{Move as AMove};
ghost use Rattle.play_rules.specs.States.{Follows, Position, StandsFor};
ghost use Rattle.game_text.specs.Words.{is_blank};
ghost use Rattle.san_text.specs.Words.{Say, moves_said};
ghost use Rattle.san_text.specs.Games.{game_words, IsGameText, IsGameFault};
ghost use Rattle.san_text.specs.Plies.{IsWordFault};
ghost use Rattle.san_text.specs.FromArray.{Tells, TellsNone};
ghost use Rattle.san_text.specs.Spelling.{next};
ghost use Rattle.san_text.specs.declared.games.SanGameFault.{SanGameFault as AFault};
ghost use Rattle.san_text.specs.declared.games.SanGameFault.TheVariants.{Memory};

use crate::grammar::San;
use crate::playing::played;
use crate::words::{Word, is_result, read_word};
use board_base::Move;
use play_rules::State;
use std::alloc::Global;
use thiserror::Error;

/// Why a text has no game in algebraic notation.
#[derive(Clone, Copy, PartialEq, Eq, Debug, Error)]
pub enum SanGameFault {
    /// A word is none of such a game: the first such, counted from 1.
    #[error("word {word} is no move")]
    BadText { word: u32 },
    /// The text of a ply fits no legal move: the first such, counted from 1, before which each text names one move.
    #[error("no legal move is that of ply {ply}")]
    NoMove { ply: u32 },
    /// The text of a ply fits two legal moves, or more: the first such, counted from 1, before which each text names one move.
    #[error("several legal moves are that of ply {ply}")]
    Many { ply: u32 },
    /// Want of memory.
    #[error("out of memory")]
    Memory,
}

fn is_blank(byte: u8) -> bool
    ensures { result ≡ is_blank byte }
{
    byte == b' ' || byte == b'\n' || byte == b'\r'
}

fn add_said(said: &mut Vec<San>, word: Word) -> Result<(), SanGameFault>
    ensures ok { IfOk result (λ _. said.new.items ≡ said.old.items ++ moves_said word) }
    ensures fault { IfErr result (λ e. e ≡ Memory) }
{
    if let Word::Move(one) = word {
        if said.push(one).is_err() {
            return Err(SanGameFault::Memory);
        }
    }
    Ok(())
}

/// What the words of a text say of moves, in order; a result as the last word says nothing.
fn read_words(alloc: Global, bytes: &[u8]) -> Result<Vec<San>, SanGameFault>
    requires { length bytes.now ≤ 67_108_864 }
    ensures ok { IfOk result (λ v. Say (game_words bytes.now) v.items) }
    ensures few { IfOk result (λ v. vec_len v ≤ length bytes.now + 1) }
    ensures fault { IfErr result (λ e. IsWordFault e (game_words bytes.now)) }
{
    let mut said = Vec::new(alloc);
    let mut count: u32 = 0;
    let mut ended = false;
    let pieces = bytes.split(|byte| is_blank(*byte));
    for word in pieces.filter(|piece| !piece.is_empty()) {
        if ended {
            return Err(SanGameFault::BadText { word: count });
        }
        count += 1;
        if is_result(word) {
            ended = true;
            continue;
        }
        let Some(told) = read_word(word) else {
            return Err(SanGameFault::BadText { word: count });
        };
        add_said(&mut said, told)?;
    }
    Ok(said)
}

/// The moves of a game's text in algebraic notation, of at most 67,108,864 bytes, played from this state on. Its words are separated by
/// spaces, line feeds and carriage returns, any number of them, at both ends too. A word is a move's number, one or more digits with
/// one dot or three, then a move's text or nothing; or a move's text alone; and the last word may be a result, `1-0`, `0-1`,
/// `1/2-1/2` or `*`. Each text names the only legal move that fits it in the state after those before it. `BadText` comes if and only if
/// some word is none of these, and names the first; else `NoMove` or `Many` if and only if no legal move or several fit a text,
/// and names the first such ply. Want of memory is a free answer: `Memory` may take the place of all.
pub fn read_san_game(alloc: Global, start: State, bytes: &[u8]) -> Result<Vec<Move>, SanGameFault>
    requires { length bytes.now ≤ 67_108_864 }
    ensures here { MatchResult result (λ v. IsGameText start bytes.now v.items) (λ e. IsGameFault e start bytes.now) }
    ensures few { IfOk result (λ v. vec_len v ≤ length bytes.now + 1) }
    ensures in_games { (o : List Bool) (g : List AMove) → IsGame o g → StandsFor start o g → IfOk result (λ v. IsGame o (g ++ v.items)) }
{
    let said = read_words(alloc, bytes)?;
    played(alloc, start, &said)
}

/// From the array on a text tells one list of moves at most, and none if it has a fault. So `read_san_game` reads what
/// `write_san_game` wrote of some moves as these moves, whatever want of memory allows.

pub fn one_game_each()
    ensures one { (o : List Bool) (text : List ℕ) (g h : List AMove) → Tells o text g → Tells o text h → g ≡ h }
    ensures sound { (o : List Bool) (text : List ℕ) (g : List AMove) (fault : AFault) → Tells o text g → TellsNone o text fault → fault ≡ Memory }
{}

/// The state after a move, in which spellings and games go on, is the one that `step` gives: it follows by the move, and no other does.
#[tactic(auto, using(crate::proofs::Onward::next_follows))]
pub fn one_state_follows()
    ensures follows { (p : Position) (m : AMove) → Follows p m (next p m) }
    ensures alone { (p q : Position) (m : AMove) → Follows p m q → q ≡ next p m }
{}
