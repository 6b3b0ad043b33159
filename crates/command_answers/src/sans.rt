ghost use Rattle.std.specs.Prelude.{◌≡◌, ◌≤◌, ◌<◌, ◌^◌, ◌++◌, IfOk, codes, decimal, length};
ghost use Rattle.board_base.specs.Game.{IsGame};
ghost use Rattle.cert_text.specs.Lines.{ended};
ghost use Rattle.command_answers.specs.Limits.{most_bytes};
ghost use Rattle.command_answers.specs.Plays.{AnswersEnd};
ghost use Rattle.command_answers.specs.Sans.{AnswersSan, AnswersSanGame};

use crate::plays::{answer_moves, write_word};
use crate::questions::write_fault;
use crate::statuses::Status;
use board_base::Move;
use play_rules::State;
use query_base::Query;
use question_text::read_question;
use san_text::{SanGameFault, read_san_game};
use std::alloc::{AllocError, Global};

fn write_none(alloc: Global, ply: u32) -> Result<Vec<u8>, AllocError>
    ensures { IfOk result (λ v. v.items ≡ ended (codes "refused ply " ++ decimal ply ++ codes " none")) }
{
    Ok(format!(in alloc; "refused ply {ply} none\n")?.into_bytes())
}

fn write_many(alloc: Global, ply: u32) -> Result<Vec<u8>, AllocError>
    ensures { IfOk result (λ v. v.items ≡ ended (codes "refused ply " ++ decimal ply ++ codes " many")) }
{
    Ok(format!(in alloc; "refused ply {ply} many\n")?.into_bytes())
}

/// What is said of the moves of a game that is to reach the query.
#[tactic(auto, using(crate::proofs::LegalGames::game_ends))]
fn answer_told(
    alloc: Global,
    query: &Query,
    moves: &[Move],
) -> Result<(Status, Vec<u8>), AllocError>
    requires few { length moves.now < 2 ^ 32 }
    requires game { IsGame query.now.odds moves.now }
    ensures { IfOk result (λ a. AnswersEnd query.now moves.now a.0 a.1.items) }
{
    answer_moves(alloc, query, moves)
}

/// What is said of the words of a game in algebraic notation that is to reach the query.
fn answer_notation(
    alloc: Global,
    query: &Query,
    bytes: &[u8],
) -> Result<(Status, Vec<u8>), AllocError>
    requires { length bytes.now ≤ most_bytes }
    ensures { IfOk result (λ a. AnswersSanGame query.now bytes.now a.0 a.1.items) }
{
    match read_san_game(alloc, State::start_of(query.odds), bytes) {
        Ok(moves) => answer_told(alloc, query, &moves),
        Err(SanGameFault::BadText { word }) => Ok((Status::Refused, write_word(alloc, word)?)),
        Err(SanGameFault::NoMove { ply }) => Ok((Status::Refused, write_none(alloc, ply)?)),
        Err(SanGameFault::Many { ply }) => Ok((Status::Refused, write_many(alloc, ply)?)),
        Err(SanGameFault::Memory) => Err(AllocError),
    }
}

/// The status and the line with which `san` answers these bytes.
pub fn answer_san(alloc: Global, input: &[u8]) -> Result<(Status, Vec<u8>), AllocError>
    requires { length input.now ≤ most_bytes }
    ensures { IfOk result (λ a. AnswersSan input.now a.0 a.1.items) }
{
    match read_question(input) {
        Ok(question) => answer_notation(alloc, &question.query, question.rest),
        Err(why) => Ok((Status::BadInput, write_fault(alloc, why)?)),
    }
}
