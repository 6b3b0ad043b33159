//! What is said before a search that may last.

use retro_top::{Command, parse_words};

/// From so many nodes on, a user may wait for a search.
const MANY_NODES: u32 = 20_000;

/// How many positions each search of the command looks at, if it searches.
fn nodes_of(command: Command) -> Option<u32> {
    match command {
        Command::Solve { nodes, .. }
        | Command::Settle { nodes, .. }
        | Command::Verdict { nodes, .. }
        | Command::Study { nodes, .. }
        | Command::Report { nodes, .. }
        | Command::Dossier { nodes, .. } => Some(nodes),
        Command::Check
        | Command::Explain
        | Command::Play
        | Command::San
        | Command::Spell
        | Command::Unmoves
        | Command::Tree { .. }
        | Command::Length
        | Command::AtLeast
        | Command::Line
        | Command::Sample { .. } => None,
    }
}

/// How many positions a search looks at that these words ask for, if a user may wait for it.
pub(crate) fn many_nodes(words: &[String]) -> Option<u32> {
    match parse_words(words) {
        Ok(command) => nodes_of(command).filter(|nodes| *nodes >= MANY_NODES),
        Err(_) => None,
    }
}
