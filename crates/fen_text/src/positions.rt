ghost use Rattle.std.specs.Prelude.{◌≡◌, ◌+◌, ◌<◌, ◌≤◌, ◌^◌, length, IfErr, IfOk, IfSome, IsTrue, None, Some};
ghost use Rattle.board_base.specs.Board.{no_odds};
ghost use Rattle.query_base.specs.Asked.{is_of_other_side};
ghost use Rattle.fen_text.specs.Fen.{asked, from_numbers, from_en_passant, from_rights, from_turn, fen, unnumbered, fen_of_four};
ghost use Rattle.fen_text.specs.FenFaults.{Reads};

use crate::faults::FenFault;
use crate::fields::{read_decimal, read_en_passant, read_rights, read_turn};
use crate::parts::split_part;
use crate::placements::read_placement;
use board_base::{Board, CastleSet, Colour, Move, Odds};
use query_base::Query;

/// A fault in the first field of a text.
fn here(at: usize) -> FenFault
    requires { at < 2 ^ 32 }
    ensures field { result.field ≡ 1 }
    ensures at { result.at ≡ at }
{
    FenFault {
        field: 1,
        at: at as u32,
    }
}

/// A fault in what follows a first field of so many bytes.
fn behind(len: usize, fault: FenFault) -> FenFault
    requires at { len + 1 + fault.at < 2 ^ 32 }
    requires field { fault.field < 255 }
    ensures field { result.field ≡ fault.field + 1 }
    ensures at { result.at ≡ len + 1 + fault.at }
{
    FenFault {
        field: fault.field + 1,
        at: (len + 1) as u32 + fault.at,
    }
}

/// Fields five and six, after the query of those before.
fn read_from_numbers(query: &Query, text: &[u8]) -> Result<(Query, Option<(u32, u32)>), FenFault>
    requires short { length text.now < 2 ^ 32 }
    requires plain { query.now.barred ≡ None }
    requires whole { query.now.odds ≡ no_odds }
    requires free { query.now.clock ≡ None }
    ensures read { Reads (from_numbers query.now) text.now result }
    ensures field { IfErr result (λ f. f.field ≤ 2) }
    ensures plain { IfOk result (λ p. p.0.barred ≡ None) }
    ensures whole { IfOk result (λ p. p.0.odds ≡ no_odds) }
    ensures free { IfOk result (λ p. p.0.clock ≡ None) }
{
    let (part, rest) = split_part(text, b' ');
    let half = match read_decimal(part) {
        Ok(half) => half,
        Err(at) => return Err(here(at)),
    };
    let Some(rest) = rest else {
        return Err(here(part.len()));
    };
    match read_decimal(rest) {
        Ok(full) => Ok((*query, Some((half, full)))),
        Err(at) => Err(behind(part.len(), here(at))),
    }
}

/// What four fields ask for.
fn asked(board: &Board, turn: Colour, held: CastleSet, only: Option<Move>) -> Query
    requires { IsTrue (is_of_other_side turn only) }
    ensures { result ≡ asked board.now turn held only }
{
    Query {
        board: *board,
        turn,
        odds: Odds::none(),
        held,
        only,
        barred: None,
        clock: None,
    }
}

/// Fields four to six, or field four alone.
fn read_from_en_passant(
    board: &Board,
    turn: Colour,
    held: CastleSet,
    text: &[u8],
) -> Result<(Query, Option<(u32, u32)>), FenFault>
    requires { length text.now < 2 ^ 32 }
    ensures read { Reads (from_en_passant board.now turn held) text.now result }
    ensures field { IfErr result (λ f. f.field ≤ 3) }
    ensures plain { IfOk result (λ p. p.0.barred ≡ None) }
    ensures whole { IfOk result (λ p. p.0.odds ≡ no_odds) }
    ensures free { IfOk result (λ p. p.0.clock ≡ None) }
{
    let (part, rest) = split_part(text, b' ');
    let only = match read_en_passant(turn, part) {
        Ok(only) => only,
        Err(at) => return Err(here(at)),
    };
    let query = asked(board, turn, held, only);
    let Some(rest) = rest else {
        return Ok((query, None));
    };
    match read_from_numbers(&query, rest) {
        Ok(position) => Ok(position),
        Err(fault) => Err(behind(part.len(), fault)),
    }
}

/// The fields from the third on.
fn read_from_rights(
    board: &Board,
    turn: Colour,
    text: &[u8],
) -> Result<(Query, Option<(u32, u32)>), FenFault>
    requires { length text.now < 2 ^ 32 }
    ensures read { Reads (from_rights board.now turn) text.now result }
    ensures field { IfErr result (λ f. f.field ≤ 4) }
    ensures plain { IfOk result (λ p. p.0.barred ≡ None) }
    ensures whole { IfOk result (λ p. p.0.odds ≡ no_odds) }
    ensures free { IfOk result (λ p. p.0.clock ≡ None) }
{
    let (part, rest) = split_part(text, b' ');
    let held = match read_rights(part) {
        Ok(held) => held,
        Err(at) => return Err(here(at)),
    };
    let Some(rest) = rest else {
        return Err(here(part.len()));
    };
    match read_from_en_passant(board, turn, held, rest) {
        Ok(position) => Ok(position),
        Err(fault) => Err(behind(part.len(), fault)),
    }
}

/// The fields from the second on.
fn read_from_turn(board: &Board, text: &[u8]) -> Result<(Query, Option<(u32, u32)>), FenFault>
    requires { length text.now < 2 ^ 32 }
    ensures read { Reads (from_turn board.now) text.now result }
    ensures field { IfErr result (λ f. f.field ≤ 5) }
    ensures plain { IfOk result (λ p. p.0.barred ≡ None) }
    ensures whole { IfOk result (λ p. p.0.odds ≡ no_odds) }
    ensures free { IfOk result (λ p. p.0.clock ≡ None) }
{
    let (part, rest) = split_part(text, b' ');
    let turn = match read_turn(part) {
        Ok(turn) => turn,
        Err(at) => return Err(here(at)),
    };
    let Some(rest) = rest else {
        return Err(here(part.len()));
    };
    match read_from_rights(board, turn, rest) {
        Ok(position) => Ok(position),
        Err(fault) => Err(behind(part.len(), fault)),
    }
}

/// Reads Forsyth-Edwards Notation, which section 16.1 of the PGN standard describes. Four fields or six are given, with one space
/// between two, and no line end:
///
/// 1. The ranks from 8 to 1, with `/` between two. A rank is read from file a to file h: the letters `PNBRQK` are White's men and
///    `pnbrqk` Black's, and a digit from 1 to 8 is so many empty squares. No digit follows a digit, and each rank has eight
///    squares. Any number of men may stand anywhere.
/// 2. The side to move, `w` or `b`.
/// 3. `-`, or one or more of `K`, `Q`, `k` and `q` in this order, each at most once: the castlings whose right is demanded, `held`
///    of the query. Of the others nothing is demanded.
/// 4. `-`, or the square that a double step of the side not to move has just crossed: a file letter, and `6` if White is to
///    move or `3` if Black is. It demands that this double step was the last move, `only` of the query: `d7d5` for `d6`, `e2e4`
///    for `e3`. With `-` no last move is demanded.
/// 5. One to nine decimal digits: the plies since the last capture or move of a pawn.
/// 6. One to nine decimal digits: the number of the move, which rises after Black's.
///
/// `Ok` comes if and only if the text is so: the query, in which no move is barred and no odds are named, and the two numbers, from
/// 0 to 999,999,999, if they are given. `Err` comes in all other cases, and says how far the text can be read. The text is
/// shorter than 2^32 bytes.
pub fn read_fen(text: &[u8]) -> Result<(Query, Option<(u32, u32)>), FenFault>
    requires { length text.now < 2 ^ 32 }
    ensures read { Reads fen text.now result }
    ensures field { IfErr result (λ f. f.field ≤ 6) }
    ensures plain { IfOk result (λ p. p.0.barred ≡ None) }
    ensures whole { IfOk result (λ p. p.0.odds ≡ no_odds) }
    ensures free { IfOk result (λ p. p.0.clock ≡ None) }
{
    let (part, rest) = split_part(text, b' ');
    let board = match read_placement(part) {
        Ok(board) => board,
        Err(at) => return Err(here(at)),
    };
    let Some(rest) = rest else {
        return Err(here(part.len()));
    };
    match read_from_turn(&board, rest) {
        Ok(position) => Ok(position),
        Err(fault) => Err(behind(part.len(), fault)),
    }
}

/// The longest text of four fields: 64 men, seven slashes, three spaces, one letter, four letters, and a square's two.
const LONGEST: usize = 81;

/// The query, if no numbers come with it.
fn without_numbers(query: Query, numbers: Option<(u32, u32)>) -> Option<Query>
    requires plain { query.barred ≡ None }
    requires whole { query.odds ≡ no_odds }
    requires free { query.clock ≡ None }
    ensures read { result ≡ unnumbered (Some (query, numbers)) }
    ensures plain { IfSome result (λ q. q.barred ≡ None) }
    ensures whole { IfSome result (λ q. q.odds ≡ no_odds) }
    ensures free { IfSome result (λ q. q.clock ≡ None) }
{
    match numbers {
        None => Some(query),
        Some(_) => None,
    }
}

/// Reads the FEN of exactly four fields, as `read_fen` does. `Some` comes if and only if the text is one; no move is barred then,
/// and no odds are named. The text may have any length.
pub fn read_four_fields(text: &[u8]) -> Option<Query>
    ensures read { result ≡ fen_of_four text.now }
    ensures plain { IfSome result (λ q. q.barred ≡ None) }
    ensures whole { IfSome result (λ q. q.odds ≡ no_odds) }
    ensures free { IfSome result (λ q. q.clock ≡ None) }
{
    if text.len() > LONGEST {
        return None;
    }
    match read_fen(text) {
        Ok((query, numbers)) => without_numbers(query, numbers),
        Err(_) => None,
    }
}
