ghost use Rattle.std.specs.Prelude.{◌≤◌, IfErr, IfOk, length};
ghost use Rattle.question_text.specs.Positions.{IsLonePosition, IsNoLonePosition};

use crate::faults::InputFault;
use crate::questions::{Position, read_position, take_odds};

/// The query of an input that is a line which names odds, or none, and a line with a FEN of four or six fields, and no more. It demands
/// no clock: a line that begins with `clock ` isn't FEN. `BadLine` comes if the line that begins with `odds ` is no such line, if
/// there is no line to be read as a FEN, and if another line follows it; `BadFen` if that line isn't FEN.
pub fn read_lone_position(input: &[u8]) -> Result<Position, InputFault>
    requires { length input.now ≤ 67_108_864 }
    ensures asked { IfOk result (λ position. IsLonePosition input.now position.query) }
    ensures no_position { IfErr result (IsNoLonePosition input.now) }
{
    let Some((odds, lines, behind)) = take_odds(input) else {
        return Err(InputFault::BadLine { line: 1 });
    };
    match read_position(odds, None, lines, behind) {
        Ok(question) => {
            if question.rest.is_empty() {
                Ok(Position {
                    query: question.query,
                })
            } else {
                Err(InputFault::BadLine { line: lines + 2 })
            }
        }
        Err(why) => Err(why),
    }
}
