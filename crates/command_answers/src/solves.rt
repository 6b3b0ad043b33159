ghost use Rattle.std.specs.Prelude.{◌≡◌, ◌≤◌, ◌∷◌, ◌++◌, IfOk, IsTrue, OnOk, length};
ghost use Rattle.std.specs.List.{All};
ghost use Rattle.board_base.specs.Texts.{can_promote, move_text, unmove_text};
ghost use Rattle.cert_text.specs.Certificate.{HasText};
ghost use Rattle.cert_text.specs.SeenCert.{cert_of};
ghost use Rattle.position_report.specs.Answers.{IfCountered, IfProved, IfUndecided};
ghost use Rattle.command_answers.specs.Limits.{most_bytes};
ghost use Rattle.command_answers.specs.Solves.{AnswersSolve, countered_line, spent_line, undecided_line};
ghost use Rattle.command_answers.specs.Told.{IsSpelled, TellsFound};

use crate::questions::write_fault;
use crate::statements::read_statement;
use crate::statuses::Status;
use crate::texts::Text;
use arrayvec::ArrayVec;
use board_base::{Move, MoveList, Unmove, UnmoveList, write_move, write_unmove};
use position_report::{Found, Limits, solve};
use std::alloc::{AllocError, Global};
use unmove_gen::unmoves_have_texts;

/// Adds a space and the unmove.
fn push_unmove(text: &mut Vec<u8>, u: &Unmove) -> Result<(), AllocError>
    requires { IsSpelled u.now }
    ensures { OnOk result (text.new.items ≡ text.old.items ++ 32 ∷ unmove_text u.now) }
{
    let mut name: ArrayVec<u8, 8> = ArrayVec::new();
    write_unmove(u, &mut name);
    text.push(b' ')?;
    text.extend_from_slice(name.as_slice())
}

/// Adds a space and the move.
fn push_move(text: &mut Vec<u8>, m: &Move) -> Result<(), AllocError>
    requires { IsTrue (can_promote m.now.promo) }
    ensures { OnOk result (text.new.items ≡ text.old.items ++ 32 ∷ move_text m.now) }
{
    let mut name: ArrayVec<u8, 8> = ArrayVec::new();
    write_move(m, &mut name);
    text.push(b' ')?;
    text.extend_from_slice(name.as_slice())
}

/// The line `undecided`, with the unmoves behind it.
fn write_undecided(alloc: Global, line: &UnmoveList) -> Result<Vec<u8>, AllocError>
    requires { All IsSpelled line.now }
    ensures { IfOk result (λ v. v.items ≡ undecided_line line.now) }
{
    let mut text = Vec::from_slice(alloc, b"undecided")?;
    for i in 0..line.len() {
        push_unmove(&mut text, &line.get(i).unwrap())?;
    }
    text.push(b'\n')?;
    Ok(text)
}

/// The line `countered`, with the moves behind it.
fn write_countered(alloc: Global, game: &MoveList) -> Result<Vec<u8>, AllocError>
    requires { All (λ m. IsTrue (can_promote m.promo)) game.now }
    ensures { IfOk result (λ v. v.items ≡ countered_line game.now) }
{
    let mut text = Vec::from_slice(alloc, b"countered")?;
    for i in 0..game.len() {
        push_move(&mut text, &game.get(i).unwrap())?;
    }
    text.push(b'\n')?;
    Ok(text)
}

/// The line that says that so many nodes were spent.
pub(crate) fn write_spent(alloc: Global, nodes: u32) -> Result<Vec<u8>, AllocError>
    ensures { IfOk result (λ v. v.items ≡ spent_line nodes) }
{
    Ok(format!(in alloc; "spent {nodes}\n")?.into_bytes())
}

/// The status and the text that tell what a search found.
pub(crate) fn write_found(alloc: Global, found: Found) -> Result<(Status, Text), AllocError>
    requires proved { IfProved found (λ cert. HasText (cert_of cert)) }
    requires undecided { IfUndecided found (λ line. All IsSpelled line) }
    requires countered { IfCountered found (λ game. All (λ m. IsTrue (can_promote m.promo)) game) }
    ensures { IfOk result (λ a. TellsFound found a.0 a.1) }
{
    match found {
        Found::Proved(cert) => Ok((Status::Done, Text::of_certificate(cert))),
        Found::Undecided(line) => Ok((
            Status::Undecided,
            Text::of_lines(write_undecided(alloc, &line)?),
        )),
        Found::Countered(game) => Ok((
            Status::Countered,
            Text::of_lines(write_countered(alloc, &game)?),
        )),
        Found::Spent { visited } => Ok((
            Status::Spent,
            Text::of_lines(write_spent(alloc, visited)?),
        )),
    }
}

/// The status and the text with which `solve` answers these bytes, by a search within these limits.
pub fn answer_solve(
    alloc: Global,
    limits: Limits,
    input: &[u8],
) -> Result<(Status, Text), AllocError>
    requires { length input.now ≤ most_bytes }
    ensures { IfOk result (λ a. AnswersSolve limits.depth limits.nodes input.now a.0 a.1) }
{
    let statement = match read_statement(input) {
        Ok(statement) => statement,
        Err(why) => return Ok((Status::BadInput, Text::of_lines(write_fault(alloc, why)?))),
    };
    unmoves_have_texts();
    match solve(
        alloc,
        &statement.query,
        &statement.claim,
        limits.depth,
        limits.nodes,
    ) {
        Ok(found) => write_found(alloc, found),
        Err(_) => Err(AllocError),
    }
}
