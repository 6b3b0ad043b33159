ghost use Rattle.std.specs.Prelude.{◌≡◌, None, Some, length};
ghost use Rattle.std.specs.Option.{option_map};
ghost use Rattle.cert_text.specs.Lines.{said};
ghost use Rattle.cert_text.specs.Certificate.{clock_demand, format_of, lines_of_clock, lines_of_odds, query_of, root_at};
ghost use Rattle.cert_text.specs.Heads.{after_claim, clock_step, fen_step, head_step};
ghost use Rattle.cert_text.specs.declared.heads.Head.TheVariants.{ClockOrFenDue, DemandDue};
ghost use Rattle.fen_text.specs.ClockLines.{clock_line};
ghost use Rattle.fen_text.specs.OddsLines.{odds_line};

use crate::claims::read_claim;
use crate::clocks::{Clock, moves_of};
use crate::lines::{is_text, without_end};
use board_base::Odds;
use fen_text::{at_demands, read_clock, read_four_fields, read_odds};
use query_base::{Claim, Query};

/// The format of a certificate's text, which its first line names.
#[derive(Clone, Copy, PartialEq, Eq, Debug)]
pub enum Format {
    /// `retro 1`: the line of the FEN follows that of the claim. The games begin from the whole array, and no clock is demanded.
    One,
    /// `retro 2`: between the lines of the claim and the FEN stands one that names odds, or one that demands a clock, or the
    /// first and then the second.
    Two,
}

/// Which line of a certificate's head comes next, with what the lines before it say.
#[derive(Clone, Copy, PartialEq, Eq, Debug)]
pub enum Head {
    /// The first, which names the format.
    FormatDue,
    /// The claim's, in this format.
    ClaimDue(Format),
    /// That of the odds or of the clock.
    DemandDue(Claim),
    /// That of the clock or of the FEN, of a query at these odds.
    ClockOrFenDue(Claim, Odds),
    /// The FEN's, of a query at these odds that demands this clock, if any.
    FenDue(Claim, Odds, Option<Clock>),
    /// The root's: the head is read, and says this claim about this query.
    RootDue(Claim, Query),
}

#[tactic(auto, unfolding(crate::specs::Certificate::format_of))]
fn read_format(text: &[u8]) -> Option<Format>
    ensures { result ≡ format_of text.now }
{
    if is_text(text, b"retro 1") {
        Some(Format::One)
    } else if is_text(text, b"retro 2") {
        Some(Format::Two)
    } else {
        None
    }
}

/// Reads a line of odds, with its end. None comes if and only if the line is none.
#[tactic(auto, unfolding(crate::specs::Lines::said))]
pub(crate) fn read_odds_line(line: &[u8]) -> Option<Odds>
    ensures { result ≡ said odds_line line.now }
{
    read_odds(without_end(line)?)
}

fn read_clock_text(text: &[u8]) -> Option<Clock>
    ensures { result ≡ clock_line text.now }
{
    Some(Clock::known(read_clock(text)?))
}

#[tactic(auto, unfolding(crate::specs::Lines::said))]
pub(crate) fn read_clock_line(line: &[u8]) -> Option<Clock>
    ensures clock { result ≡ said clock_line line.now }
    ensures demand { option_map (λ n. Some n) result ≡ said clock_demand line.now }
{
    read_clock_text(without_end(line)?)
}

#[tactic(auto, unfolding(crate::specs::Certificate::query_of))]
fn read_query(text: &[u8]) -> Option<Query>
    ensures { result ≡ query_of text.now }
{
    if text.starts_with(b"fen ") {
        read_four_fields(&text[4..])
    } else {
        None
    }
}

/// Reads a line of a FEN, with its end: `fen`, a space and a FEN of four fields. None comes if and only if the line is none.
#[tactic(auto, unfolding(crate::specs::Lines::said))]
pub(crate) fn read_fen_line(line: &[u8]) -> Option<Query>
    ensures { result ≡ said query_of line.now }
{
    read_query(without_end(line)?)
}

/// The line that follows the claim's.
fn after_claim(format: Format, claim: Claim) -> Head
    ensures { result ≡ after_claim format claim }
{
    match format {
        Format::One => Head::FenDue(claim, Odds::none(), None),
        Format::Two => Head::DemandDue(claim),
    }
}

fn read_fen_due(claim: Claim, odds: Odds, clock: Option<Clock>, line: &[u8]) -> Option<Head>
    ensures { result ≡ fen_step claim odds clock line.now }
{
    let query = read_fen_line(line)?;
    Some(Head::RootDue(claim, at_demands(query, odds, moves_of(clock))))
}

fn read_clock_due(claim: Claim, odds: Odds, line: &[u8]) -> Option<Head>
    ensures { result ≡ clock_step claim odds line.now }
{
    let clock = read_clock_line(line)?;
    Some(Head::FenDue(claim, odds, Some(clock)))
}

fn read_demand(claim: Claim, line: &[u8]) -> Option<Head>
    ensures { result ≡ head_step (DemandDue claim) line.now }
{
    match read_odds_line(line) {
        Some(odds) => Some(Head::ClockOrFenDue(claim, odds)),
        None => read_clock_due(claim, Odds::none(), line),
    }
}

fn read_clock_or_fen(claim: Claim, odds: Odds, line: &[u8]) -> Option<Head>
    ensures { result ≡ head_step (ClockOrFenDue claim odds) line.now }
{
    let Some(clock) = read_clock_line(line) else {
        return read_fen_due(claim, odds, None, line);
    };
    Some(Head::FenDue(claim, odds, Some(clock)))
}

/// Reads the line of a head that comes next, with its end: `retro 1` or `retro 2`; the claim's, as `read_claim` reads it; in format
/// 2 that of the odds, as `read_odds` reads it, or of the clock, as `read_clock` reads it, or both in this order; `fen`, a space and
/// a FEN of four fields. What comes next after it is given, and None if and only if the line isn't one that is due, or the head is
/// read.
#[tactic(auto, unfolding(crate::specs::Lines::said))]
pub fn read_head_line(due: &Head, line: &[u8]) -> Option<Head>
    ensures { result ≡ head_step due.now line.now }
{
    let due = *due;
    match due {
        Head::FormatDue => Some(Head::ClaimDue(read_format(without_end(line)?)?)),
        Head::ClaimDue(format) => Some(after_claim(format, read_claim(without_end(line)?)?)),
        Head::DemandDue(claim) => read_demand(claim, line),
        Head::ClockOrFenDue(claim, odds) => read_clock_or_fen(claim, odds, line),
        Head::FenDue(claim, odds, clock) => read_fen_due(claim, odds, clock, line),
        Head::RootDue(_, _) => None,
    }
}

/// How many lines name the odds.
fn odds_lines(odds: Odds) -> u32
    ensures { result ≡ length (lines_of_odds odds) }
{
    if odds.is_none() { 0 } else { 1 }
}

/// How many lines demand the clock.
fn clock_lines(clock: Option<u16>) -> u32
    ensures { result ≡ length (lines_of_clock clock) }
{
    if clock.is_none() { 0 } else { 1 }
}

/// The number of the root's line in a certificate about this query, counted from 1: 4, and one more at odds, and one more if a
/// clock is demanded.
pub fn root_line_of(query: &Query) -> u32
    ensures { result ≡ root_at query.now }
{
    4 + odds_lines(query.odds) + clock_lines(query.clock)
}
