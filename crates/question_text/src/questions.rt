ghost use Rattle.std.specs.Prelude.{◌≡◌, ◌+◌, ◌≤◌, ◌↔◌, cond, IfOk, IfErr, IfSome, IsTrue, MatchOption, None, Some, codes, length, nat_eq};
ghost use Rattle.std.specs.List.{starts_with};
ghost use Rattle.query_base.specs.Asked.{IsShortClock};
ghost use Rattle.question_text.specs.Heads.{IsNoPosition, IsPosition};
ghost use Rattle.question_text.specs.InputLines.{after_first};
ghost use Rattle.question_text.specs.Questions.{Agree, Asks, AsksAlone, IsNoLoneQuestion, IsNoQuestion, after_clock, after_odds, after_question, before_clock, before_fen, clock_named, names_clock, odds_named};

use crate::faults::InputFault;
use crate::input_lines::split_first_line;
use board_base::Odds;
use fen_text::{at_demands, read_clock, read_fen, read_odds};
use query_base::Query;

/// The query of an input's first lines, and what follows them. It bars no move of its own.
#[derive(Clone, Copy)]
pub struct Question<'a> {
    pub query: Query,
    /// How many lines it has: that of the FEN, and those of odds and clock if they are there.
    pub lines: u32,
    /// What follows these lines.
    pub rest: &'a [u8],
    pub ghost plain: { query.barred ≡ None },
}

/// The query of an input that has its lines and no more. It bars no move of its own.
#[derive(Clone, Copy)]
pub struct Position {
    pub query: Query,
    pub ghost plain: { query.barred ≡ None },
}

fn begins_as_odds(line: &[u8]) -> bool
    ensures { result ≡ starts_with nat_eq line.now (codes "odds ") }
{
    line.starts_with(b"odds ")
}

fn begins_as_clock(line: &[u8]) -> bool
    ensures { result ≡ starts_with nat_eq line.now (codes "clock ") }
{
    line.starts_with(b"clock ")
}

/// The odds that the input's first line names, how many lines that takes, and what follows; None if the line that begins with
/// `odds ` is no odds line.
pub(crate) fn take_odds(input: &[u8]) -> Option<(Odds, u32, &[u8])>
    ensures odds { MatchOption result (odds_named input.now ≡ None) (λ front. odds_named input.now ≡ Some front.0) }
    ensures lines { IfSome result (λ front. front.1 ≡ before_clock input.now) }
    ensures rest { IfSome result (λ front. front.2.now ≡ after_odds input.now) }
    ensures short { IfSome result (λ front. length front.2.now ≤ length input.now) }
{
    let (first, after) = split_first_line(input);
    if !begins_as_odds(first) {
        return Some((Odds::none(), 0, input));
    }
    match read_odds(first) {
        Some(odds) => Some((odds, 1, after)),
        None => None,
    }
}

/// The clock that the first of these lines demands, or that none is; how many lines that takes, and what follows. None if the line
/// that begins with `clock ` is no clock line.
fn take_clock(input: &[u8]) -> Option<(Option<u16>, u32, &[u8])>
    ensures clock { MatchOption result (clock_named input.now ≡ None) (λ front. clock_named input.now ≡ Some front.0) }
    ensures four_digits { IfSome result (λ front. IsShortClock front.0) }
    ensures lines { IfSome result (λ front. front.1 ≡ cond (names_clock input.now) 1 0) }
    ensures rest { IfSome result (λ front. front.2.now ≡ after_clock input.now) }
    ensures short { IfSome result (λ front. length front.2.now ≤ length input.now) }
{
    let (first, after) = split_first_line(input);
    if !begins_as_clock(first) {
        return Some((None, 0, input));
    }
    match read_clock(first) {
        Some(n) => Some((Some(n), 1, after)),
        None => None,
    }
}

/// Where a clock is demanded and the FEN has numbers, its half-move clock is this one.
fn agree(clock: Option<u16>, numbers: &Option<(u32, u32)>) -> bool
    ensures { IsTrue result ↔ Agree clock numbers.now }
{
    match (clock, numbers) {
        (Some(n), Some((half, _))) => *half == u32::from(n),
        _ => true,
    }
}

/// The query of the input's first line, a FEN of four or six fields, at these odds and with this clock, and what follows it. So many
/// lines stand before it.
pub(crate) fn read_position(
    odds: Odds,
    clock: Option<u16>,
    before: u32,
    input: &[u8],
) -> Result<Question<'_>, InputFault>
    requires size { length input.now ≤ 67_108_864 }
    requires four_digits { IsShortClock clock }
    requires few { before ≤ 2 }
    ensures asked { IfOk result (λ question. IsPosition odds clock input.now question.query) }
    ensures rest { IfOk result (λ question. question.rest.now ≡ after_first input.now) }
    ensures short { IfOk result (λ question. length question.rest.now ≤ length input.now) }
    ensures lines { IfOk result (λ question. question.lines ≡ before + 1) }
    ensures none { IfErr result (IsNoPosition odds clock before input.now) }
{
    if input.is_empty() {
        return Err(InputFault::BadLine { line: before + 1 });
    }
    let (first, rest) = split_first_line(input);
    let (position, numbers) = match read_fen(first) {
        Ok(position) => position,
        Err(fault) => return Err(InputFault::BadFen(fault)),
    };
    if !agree(clock, &numbers) {
        return Err(InputFault::BadLine { line: before });
    }
    Ok(Question {
        query: at_demands(position, odds, clock),
        lines: before + 1,
        rest,
    })
}

/// The query of the input's first lines, and what follows them. The first line may name odds, as `odds` and sixteen hexadecimal digits,
/// and the next a half-move clock, as `clock` and a number from 0 to 9999; then comes a FEN of four or six fields. `BadLine` comes if
/// a line that begins with `odds ` or `clock ` in its place is no such line, if there is none to be read as a FEN, and, with the
/// number of the clock line, if the FEN has another half-move clock; `BadFen` if that line isn't FEN.
pub fn read_question(input: &[u8]) -> Result<Question<'_>, InputFault>
    requires { length input.now ≤ 67_108_864 }
    ensures asked { IfOk result (λ question. Asks input.now question.query) }
    ensures rest { IfOk result (λ question. question.rest.now ≡ after_question input.now) }
    ensures short { IfOk result (λ question. length question.rest.now ≤ length input.now) }
    ensures lines { IfOk result (λ question. question.lines ≡ before_fen input.now + 1) }
    ensures no_question { IfErr result (IsNoQuestion input.now) }
{
    let Some((odds, odds_lines, behind)) = take_odds(input) else {
        return Err(InputFault::BadLine { line: 1 });
    };
    let Some((clock, lines, rest)) = take_clock(behind) else {
        return Err(InputFault::BadLine {
            line: odds_lines + 1,
        });
    };
    read_position(odds, clock, odds_lines + lines, rest)
}

/// The query of an input that has its lines and no more. `BadLine` and `BadFen` come as from `read_question`, and `BadLine` if
/// another line follows.
pub fn read_lone_question(input: &[u8]) -> Result<Position, InputFault>
    requires { length input.now ≤ 67_108_864 }
    ensures asked { IfOk result (λ position. AsksAlone input.now position.query) }
    ensures no_question { IfErr result (IsNoLoneQuestion input.now) }
{
    match read_question(input) {
        Ok(question) => {
            if question.rest.is_empty() {
                Ok(Position {
                    query: question.query,
                })
            } else {
                Err(InputFault::BadLine {
                    line: question.lines + 1,
                })
            }
        }
        Err(why) => Err(why),
    }
}
