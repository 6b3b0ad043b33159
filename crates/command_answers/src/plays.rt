ghost use Rattle.std.specs.Prelude.{◌≡◌, ◌≤◌, ◌<◌, ◌^◌, IfOk, codes, length};
ghost use Rattle.board_base.specs.Game.{last_move};
ghost use Rattle.command_answers.specs.Limits.{most_bytes};
ghost use Rattle.command_answers.specs.Plays.{AnswersPlay, AnswersGame, AnswersMoves, number_line};

use crate::questions::write_fault;
use crate::statuses::Status;
use board_base::Move;
use game_text::{GameFault, read_game, replay_from};
use query_base::{Query, matches_end};
use question_text::read_question;
use std::alloc::{AllocError, Global};

/// The line that names the first word that isn't one of a game.
pub fn write_word(alloc: Global, word: u32) -> Result<Vec<u8>, AllocError>
    ensures { IfOk result (λ v. v.items ≡ number_line (codes "refused word ") word) }
{
    Ok(format!(in alloc; "refused word {word}\n")?.into_bytes())
}

/// The line that names the first ply that isn't legal.
pub fn write_ply(alloc: Global, ply: u32) -> Result<Vec<u8>, AllocError>
    ensures { IfOk result (λ v. v.items ≡ number_line (codes "refused ply ") ply) }
{
    Ok(format!(in alloc; "refused ply {ply}\n")?.into_bytes())
}

fn last_of(moves: &[Move]) -> Option<Move>
    ensures { result ≡ last_move moves.now }
{
    moves.last().copied()
}

/// What is said of these moves as a game that is to reach the query.
pub fn answer_moves(
    alloc: Global,
    query: &Query,
    moves: &[Move],
) -> Result<(Status, Vec<u8>), AllocError>
    requires { length moves.now < 2 ^ 32 }
    ensures { IfOk result (λ a. AnswersMoves query.now moves.now a.0 a.1.items) }
{
    let state = match replay_from(query.odds, moves) {
        Ok(state) => state,
        Err(illegal) => return Ok((Status::Refused, write_ply(alloc, illegal.ply)?)),
    };
    if matches_end(&state, last_of(moves), query) {
        Ok((Status::Done, Vec::from_slice(alloc, b"legal\n")?))
    } else {
        Ok((Status::Refused, Vec::from_slice(alloc, b"refused end\n")?))
    }
}

/// What is said of the words of a game that is to reach the query.
fn answer_game(alloc: Global, query: &Query, bytes: &[u8]) -> Result<(Status, Vec<u8>), AllocError>
    requires { length bytes.now ≤ most_bytes }
    ensures { IfOk result (λ a. AnswersGame query.now bytes.now a.0 a.1.items) }
{
    match read_game(alloc, bytes) {
        Ok(moves) => answer_moves(alloc, query, &moves),
        Err(GameFault::BadText { word }) => Ok((Status::Refused, write_word(alloc, word)?)),
        Err(GameFault::Memory) => Err(AllocError),
    }
}

/// The status and the line with which `play` answers these bytes.
pub fn answer_play(alloc: Global, input: &[u8]) -> Result<(Status, Vec<u8>), AllocError>
    requires { length input.now ≤ most_bytes }
    ensures { IfOk result (λ a. AnswersPlay input.now a.0 a.1.items) }
{
    match read_question(input) {
        Ok(question) => answer_game(alloc, &question.query, question.rest),
        Err(why) => Ok((Status::BadInput, write_fault(alloc, why)?)),
    }
}
