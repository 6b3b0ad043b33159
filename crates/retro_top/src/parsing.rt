//! From the words of the command line to the command that they call.

ghost use Rattle.std.specs.Prelude.{◌∷◌, [], IfErr, IfOk, MatchOption, MatchResult, map, string_bytes};
ghost use Rattle.retro_top.specs.Commands.{Call, CallSome};
ghost use Rattle.retro_top.specs.Names.{IsFaultOf};
ghost use Rattle.retro_top.specs.Rows.{IsMade, IsSample, IsSearch};
ghost use Rattle.retro_top.specs.declared.commands.Command.{Command as ACommand};

use crate::commands::Command;
use crate::numbers::Number;
use crate::rows::{Calls, Row, Search, Usual, look_up};

/// Why words call no command.
#[derive(Clone, Copy, Debug)]
pub enum WordFault {
    /// There are none, or the first is no command's name.
    Name,
    /// Those behind the name of this command are wrong.
    Rest(Row, RestFault),
}

/// What is wrong with the words behind a command's name.
#[derive(Clone, Copy, PartialEq, Eq, Debug)]
pub enum RestFault {
    /// There are too many or too few.
    Count,
    /// One is due as this number, and is none that may stand there.
    Number(Number),
}

/// The search with the depth and the nodes that two words say.
fn read_limits(search: Search, depth: &String, nodes: &String) -> Result<Command, RestFault>
    ensures { MatchResult result (IsSearch search (string_bytes depth.now ∷ string_bytes nodes.now ∷ [])) (λ why. (made : ACommand) → IsSearch search (string_bytes depth.now ∷ string_bytes nodes.now ∷ []) made → ⊥) }
{
    let Some(depth) = Number::Depth.read(depth) else {
        return Err(RestFault::Number(Number::Depth));
    };
    let Some(nodes) = Number::Nodes.read(nodes) else {
        return Err(RestFault::Number(Number::Nodes));
    };
    Ok(search.command(depth as u8, nodes as u32))
}

/// The sample whose start, games and plies three words say.
fn read_sample(start: &String, games: &String, plies: &String) -> Result<Command, RestFault>
    ensures { MatchResult result (IsSample (string_bytes start.now ∷ string_bytes games.now ∷ string_bytes plies.now ∷ [])) (λ why. (made : ACommand) → IsSample (string_bytes start.now ∷ string_bytes games.now ∷ string_bytes plies.now ∷ []) made → ⊥) }
{
    let Some(start) = Number::Start.read(start) else {
        return Err(RestFault::Number(Number::Start));
    };
    let Some(games) = Number::Games.read(games) else {
        return Err(RestFault::Number(Number::Games));
    };
    let Some(plies) = Number::Plies.read(plies) else {
        return Err(RestFault::Number(Number::Plies));
    };
    Ok(Command::Sample {
        start,
        games: games as u32,
        plies: plies as u32,
    })
}

/// The search with its usual numbers, if it has any.
fn usually(search: Search, usual: Option<Usual>) -> Result<Command, RestFault>
    ensures { MatchResult result (IsMade (Calls.Search search usual) [])
        (λ why. (made : ACommand) → IsMade (Calls.Search search usual) [] made → ⊥) }
{
    match usual {
        Some(usual) => Ok(search.command(usual.depth, usual.nodes)),
        None => Err(RestFault::Count),
    }
}

/// The command that the words behind a name make.
fn make(calls: Calls, words: &[String]) -> Result<Command, RestFault>
    ensures { MatchResult result (IsMade calls (map string_bytes words.now))
        (λ why. (made : ACommand) → IsMade calls (map string_bytes words.now) made → ⊥) }
{
    match calls {
        Calls::Plain(command) => match words {
            [] => Ok(command),
            _ => Err(RestFault::Count),
        },
        Calls::Search(search, usual) => match words {
            [] => usually(search, usual),
            [depth, nodes] => read_limits(search, depth, nodes),
            _ => Err(RestFault::Count),
        },
        Calls::Sample => match words {
            [start, games, plies] => read_sample(start, games, plies),
            _ => Err(RestFault::Count),
        },
    }
}

/// The command that the words call, or why they call none.
pub fn parse_words(words: &[String]) -> Result<Command, WordFault>
    ensures called { IfOk result (Call words.now) }
    ensures uncalled { IfErr result (λ fault. CallSome words.now → ⊥) }
    ensures fault { IfErr result (λ fault. IsFaultOf fault words.now) }
{
    let Some((name, rest)) = words.split_first() else {
        return Err(WordFault::Name);
    };
    let Some(row) = look_up(name.as_bytes()) else {
        return Err(WordFault::Name);
    };
    match make(row.calls, rest) {
        Ok(command) => Ok(command),
        Err(why) => Err(WordFault::Rest(row, why)),
    }
}

/// The command that the words call.
pub fn read_words(words: &[String]) -> Option<Command>
    ensures { MatchOption result (CallSome words.now → ⊥) (Call words.now) }
{
    match parse_words(words) {
        Ok(command) => Some(command),
        Err(_) => None,
    }
}
