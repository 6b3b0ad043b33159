ghost use Rattle.std.specs.Prelude.{◌≡◌, ◌≤◌, ◌<◌, ◌^◌, IfOk, length};
ghost use Rattle.command_answers.specs.Limits.{most_bytes};
ghost use Rattle.command_answers.specs.Spells.{AnswersSpell, AnswersSpelling};

use crate::plays::{write_ply, write_word};
use crate::statuses::Status;
use board_base::Move;
use game_text::{GameFault, read_game};
use play_rules::State;
use san_text::{SpellFault, write_san_game};
use std::alloc::{AllocError, Global};

/// What is said of these moves, which are to be a legal game from the full array.
fn answer_spelling(alloc: Global, moves: &[Move]) -> Result<(Status, Vec<u8>), AllocError>
    requires { length moves.now < 2 ^ 32 }
    ensures { IfOk result (λ a. AnswersSpelling moves.now a.0 a.1.items) }
{
    match write_san_game(alloc, State::start(), moves) {
        Ok(mut line) => {
            line.push(b'\n')?;
            Ok((Status::Done, line))
        }
        Err(SpellFault::Illegal { ply }) => Ok((Status::Refused, write_ply(alloc, ply)?)),
        Err(SpellFault::Memory) => Err(AllocError),
    }
}

/// The status and the line with which `spell` answers these bytes.
pub fn answer_spell(alloc: Global, input: &[u8]) -> Result<(Status, Vec<u8>), AllocError>
    requires { length input.now ≤ most_bytes }
    ensures { IfOk result (λ a. AnswersSpell input.now a.0 a.1.items) }
{
    match read_game(alloc, input) {
        Ok(moves) => answer_spelling(alloc, &moves),
        Err(GameFault::BadText { word }) => Ok((Status::Refused, write_word(alloc, word)?)),
        Err(GameFault::Memory) => Err(AllocError),
    }
}
