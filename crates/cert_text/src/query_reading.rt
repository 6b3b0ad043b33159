ghost use Rattle.std.specs.Prelude.{◌≡◌, ◌≤◌, ◌+◌, MatchOption, None, Some, length};
ghost use Rattle.board_base.specs.Board.{no_odds};
ghost use Rattle.fen_text.specs.OddsLines.{odds_line};
ghost use Rattle.cert_text.specs.Certificate.{clock_demand};
ghost use Rattle.cert_text.specs.Lines.{cut};
ghost use Rattle.cert_text.specs.QueryReading.{fen_first, query_first, said_first};

use crate::clocks::{Clock, moves_of};
use crate::heads::{read_clock_line, read_fen_line, read_odds_line};
use crate::lines::first_line;
use board_base::Odds;
use fen_text::at_demands;
use query_base::Query;

/// The query of the lines that come first.
#[derive(Clone, Copy)]
pub struct FirstQuery<'a> {
    pub query: Query,
    /// What follows its lines.
    pub rest: &'a [u8],
}

/// The odds that the first line names, if it names odds, how many lines that takes, and what is left.
pub fn take_odds(bytes: &[u8]) -> (Odds, u32, &[u8])
    ensures odds { said_first odds_line no_odds (cut bytes.now) ≡ (result.0, cut result.2.now) }
    ensures lines { result.1 + length (cut result.2.now) ≡ length (cut bytes.now) }
    ensures few { result.1 ≤ 1 }
{
    let Some((line, rest)) = first_line(bytes) else {
        return (Odds::none(), 0, bytes);
    };
    match read_odds_line(line) {
        Some(odds) => (odds, 1, rest),
        None => (Odds::none(), 0, bytes),
    }
}

/// The clock that the first line demands, if it demands one, and what is left.
fn take_clock(bytes: &[u8]) -> (Option<Clock>, &[u8])
    ensures { said_first clock_demand None (cut bytes.now) ≡ (result.0, cut result.1.now) }
{
    let Some((line, rest)) = first_line(bytes) else {
        return (None, bytes);
    };
    match read_clock_line(line) {
        Some(clock) => (Some(clock), rest),
        None => (None, bytes),
    }
}

/// The query of the first line, `fen`, a space and a FEN of four fields, at these odds and with this clock, if there is one. None
/// comes if and only if the first line is no such.
pub fn take_fen(odds: Odds, clock: Option<Clock>, bytes: &[u8]) -> Option<FirstQuery<'_>>
    ensures { MatchOption result (fen_first odds clock (cut bytes.now) ≡ None) (λ first. fen_first odds clock (cut bytes.now) ≡ Some (first.query, cut first.rest.now)) }
{
    let Some((line, rest)) = first_line(bytes) else {
        return None;
    };
    match read_fen_line(line) {
        Some(query) => Some(FirstQuery {
            query: at_demands(query, odds, moves_of(clock)),
            rest,
        }),
        None => None,
    }
}

/// The query of the lines of the odds and of the clock, each if there is one, and of the FEN. None comes if and only if these lines
/// don't come first.
pub fn take_query(bytes: &[u8]) -> Option<FirstQuery<'_>>
    ensures { MatchOption result (query_first (cut bytes.now) ≡ None) (λ first. query_first (cut bytes.now) ≡ Some (first.query, cut first.rest.now)) }
{
    let (odds, _, rest) = take_odds(bytes);
    let (clock, rest) = take_clock(rest);
    take_fen(odds, clock, rest)
}
