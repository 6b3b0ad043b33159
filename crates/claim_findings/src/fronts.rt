ghost use Rattle.std.specs.Prelude.{ℕ, ◌≡◌, ◌≤◌, IfOk, length, take};
ghost use Rattle.line_claims.specs.Listing.{AreListed};
ghost use Rattle.unmove_gen.specs.Listed.{resets};
ghost use Rattle.claim_findings.specs.Ends.{IsCut, is_telling};

use board_base::{Board, Kind, Memory, Unmove, UnmoveList, is_a};
use castle_history::castle_of;
use query_base::Query;
use std::alloc::Global;
use unmove_gen::pred;

/// The most retractions of an open line that are told.
const MOST_TOLD: usize = 8;

/// The move that is taken back sets the clock to 0: a pawn made it, or it captured.
fn resets(board: &Board, u: &Unmove) -> bool
    ensures { result ≡ resets board.now u.now }
{
    is_a(Kind::Pawn, board.at(u.mv.to)) || u.mv.promo.is_some() || u.captured.is_some() || u.ep
}

/// The move that is taken back was a pawn's, a capture or a castling.
fn is_telling(query: &Query, u: &Unmove) -> bool
    ensures { result ≡ is_telling query.now u.now }
{
    resets(&query.board, u) || castle_of(u, &query.board).is_some()
}

/// How many retractions of the line are told.
fn number_told(query: &Query, line: &UnmoveList) -> usize
    requires { AreListed query.now line.now }
    ensures { IsCut query.now line.now result }
{
    let mut here = *query;
    let mut number = 0;
    for i in 0..line.len().min(MOST_TOLD) {
        let u = line.get(i).unwrap();
        if is_telling(&here, &u) {
            number = i + 1;
        }
        here = pred(&here, &u);
    }
    number
}

/// So many of the line's first retractions.
fn first_of(alloc: Global, line: &UnmoveList, number: usize) -> Result<UnmoveList, Memory>
    requires { number ≤ length line.now }
    ensures { IfOk result (λ l. l ≡ take number line.now) }
{
    let mut front = UnmoveList::new(alloc);
    for i in 0..number {
        front.push(line.get(i).unwrap())?;
    }
    Ok(front)
}

/// The retractions of the line that are told.
pub(crate) fn front_of(
    alloc: Global,
    query: &Query,
    line: &UnmoveList,
) -> Result<UnmoveList, Memory>
    requires { AreListed query.now line.now }
    ensures { IfOk result (λ l. (number : ℕ) × IsCut query.now line.now number
        × (l ≡ take number line.now)) }
{
    let number = number_told(query, line);
    first_of(alloc, line, number)
}
