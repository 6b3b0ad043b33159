//! What `--help` writes, made of the table of commands.

ghost use Rattle.std.specs.Prelude.{◌≡◌, IfOk, string_bytes};
ghost use Rattle.std.specs.List.{list_all};
ghost use Rattle.front_door.specs.Usage.{HasRows, IsUsage, is_one_row, row_of};
ghost use Rattle.retro_top.specs.Rows.{names_of};

use retro_top::{Number, ROWS, Row, USUAL_SETTLE, USUAL_STUDY};
use std::alloc::{AllocError, Global};

/// What stands behind the rows in the usage.
fn further(alloc: Global) -> Result<String, AllocError> {
    let (least_depth, most_depth) = Number::Depth.range();
    let (least_nodes, most_nodes) = Number::Nodes.range();
    let (least_games, most_games) = Number::Games.range();
    let (least_plies, most_plies) = Number::Plies.range();
    let (settle_depth, settle_nodes) = (USUAL_SETTLE.depth, USUAL_SETTLE.nodes);
    let (study_depth, study_nodes) = (USUAL_STUDY.depth, USUAL_STUDY.nodes);
    format!(in alloc;
        "  retractor --help | --version

DEPTH: how many moves are taken back at most, from {least_depth} to {most_depth}. NODES: how many positions a search visits, or how many lines
a tree has, at most, from {least_nodes} to {most_nodes}. START: any number. GAMES: from {least_games} to {most_games}. PLIES: from {least_plies} to {most_plies}.
`settle` alone is `settle {settle_depth} {settle_nodes}`, `study` alone is `study {study_depth} {study_nodes}`, and `report` likewise.

Statuses: 0 done, 1 refused, 2 undecided, 3 nodes spent, 4 a game against the claim, 5 bad words, 6 bad input, 7 reading
failed, 8 writing failed, 9 not enough memory, 10 the input has more than 67108864 bytes.

docs/COMMANDS.md has every command, its input and its answers, docs/TUTORIAL.md solved problems.
"
    )
}

/// The row of a command in the usage: how it is called, and in a column behind that what it answers.
fn row(alloc: Global, command: &Row) -> Result<String, AllocError>
    ensures { IfOk result (λ text. string_bytes text ≡ row_of command.now) }
{
    let line = command.line;
    let answer = command.answer;
    format!(in alloc; "  retractor {line:<36} {answer}\n")
}

/// The head of the usage, and the rows of these commands.
fn rows(alloc: Global, commands: &[Row]) -> Result<String, AllocError>
    ensures { IfOk result (λ text. HasRows (string_bytes text) (names_of commands.now) (list_all is_one_row commands.now)) }
{
    let mut text = String::from_str(alloc, "usage:\n")?;
    for command in commands {
        text.push_str(row(alloc, command)?.as_str())?;
    }
    Ok(text)
}

/// How each command is called, what it reads, and what it answers, a row each; the numbers and the statuses.
pub fn usage(alloc: Global) -> Result<String, AllocError>
    ensures { IfOk result (λ text. IsUsage (string_bytes text)) }
{
    let mut text = rows(alloc, &ROWS)?;
    text.push_str(further(alloc)?.as_str())?;
    Ok(text)
}
