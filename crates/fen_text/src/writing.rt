ghost use Rattle.std.specs.Prelude.{◌≡◌, ◌+◌, ◌*◌, ◌<◌, ◌≤◌, ◌++◌, ◌∷◌, [], length, slice_index_or, None, Some};
ghost use Rattle.board_base.specs.Board.{at, no_odds};
ghost use Rattle.fen_text.specs.Spelling.{symbol, run_text, rank_text, turn_letter, rights_text, en_passant_text, spelling};
ghost use Rattle.fen_text.specs.WrittenParts.{letter_if, rank_of, ranks_text};
ghost use Rattle.fen_text.specs.Fen.{castle_letter, fen};

use crate::fields::digit_of;
use arrayvec::ArrayVec;
use board_base::{Board, Castle, CastleSet, Colour, Kind, Man, Move, Square};
use query_base::Query;

/// A capital for White, a small letter for Black.
fn letter_of(man: Man) -> u8
    ensures { result ≡ symbol man.colour man.kind }
{
    match (man.colour, man.kind) {
        (Colour::White, Kind::Pawn) => b'P',
        (Colour::White, Kind::Knight) => b'N',
        (Colour::White, Kind::Bishop) => b'B',
        (Colour::White, Kind::Rook) => b'R',
        (Colour::White, Kind::Queen) => b'Q',
        (Colour::White, Kind::King) => b'K',
        (Colour::Black, Kind::Pawn) => b'p',
        (Colour::Black, Kind::Knight) => b'n',
        (Colour::Black, Kind::Bishop) => b'b',
        (Colour::Black, Kind::Rook) => b'r',
        (Colour::Black, Kind::Queen) => b'q',
        (Colour::Black, Kind::King) => b'k',
    }
}

/// The letter of a castling in claims and FEN: `K`, `Q`, `k` or `q`.
pub fn castle_letter(castle: Castle) -> u8
    ensures { result ≡ castle_letter castle }
{
    match castle {
        Castle::WhiteShort => b'K',
        Castle::WhiteLong => b'Q',
        Castle::BlackShort => b'k',
        Castle::BlackLong => b'q',
    }
}

/// The man on the square of this rank and file, both from 0.
fn place_on(board: &Board, rank: u8, file: u8) -> Option<Man>
    requires rank { rank < 8 }
    requires file { file < 8 }
    ensures place { result ≡ at board.now (8 * rank + file) }
{
    board.at(Square::known(8 * rank + file))
}

/// The digit of a run of empty squares, if there is one.
fn push_run(run: u8, out: &mut ArrayVec<u8, 128>)
    requires few { run ≤ 8 }
    requires room { length out.old.items < 128 }
    ensures { out.new.items ≡ out.old.items ++ run_text run }
{
    if run > 0 {
        out.push(b'0' + run);
    }
}

/// The rank with this number, from 0.
fn write_rank(board: &Board, rank: u8, out: &mut ArrayVec<u8, 128>)
    requires rank { rank < 8 }
    requires size { length board.now ≡ 64 }
    requires room { length out.old.items + 8 < 128 }
    ensures text { out.new.items ≡ out.old.items ++ rank_text 0 (rank_of rank board.now) }
    ensures short { length out.new.items ≤ length out.old.items + 8 }
{
    let mut run = 0;
    for file in 0..8u8 {
        match place_on(board, rank, file) {
            None => run += 1,
            Some(man) => {
                push_run(run, out);
                out.push(letter_of(man));
                run = 0;
            }
        }
    }
    push_run(run, out);
}

/// All ranks, the highest first.
fn write_ranks(board: &Board, out: &mut ArrayVec<u8, 128>)
    requires size { length board.now ≡ 64 }
    requires empty { out.old.items ≡ [] }
    ensures text { out.new.items ≡ ranks_text 7 board.now }
    ensures short { length out.new.items ≤ 71 }
{
    let mut rank = 7;
    write_rank(board, rank, out);
    while rank > 0 {
        rank -= 1;
        out.push(b'/');
        write_rank(board, rank, out);
    }
}

fn push_if(given: bool, letter: u8, out: &mut ArrayVec<u8, 128>)
    requires room { length out.old.items < 128 }
    ensures text { out.new.items ≡ out.old.items ++ letter_if given letter }
    ensures short { length out.new.items ≤ length out.old.items + 1 }
{
    if given {
        out.push(letter);
    }
}

/// The letters of the castlings, or a dash.
#[tactic(auto, using(crate::proofs::Spelled::rights_written))]
fn write_rights(held: CastleSet, out: &mut ArrayVec<u8, 128>)
    requires room { length out.old.items + 4 < 128 }
    ensures text { out.new.items ≡ out.old.items ++ rights_text held }
    ensures short { length out.new.items ≤ length out.old.items + 4 }
{
    let white_short = held.has(Castle::WhiteShort);
    let white_long = held.has(Castle::WhiteLong);
    let black_short = held.has(Castle::BlackShort);
    let black_long = held.has(Castle::BlackLong);
    if white_short || white_long || black_short || black_long {
        push_if(white_short, b'K', out);
        push_if(white_long, b'Q', out);
        push_if(black_short, b'k', out);
        push_if(black_long, b'q', out);
    } else {
        out.push(b'-');
    }
}

/// The letter of a side in FEN: `w` or `b`.
pub fn turn_letter(turn: Colour) -> u8
    ensures { result ≡ turn_letter turn }
{
    match turn {
        Colour::White => b'w',
        Colour::Black => b'b',
    }
}

/// The square that the double step crossed, or a dash.
#[tactic(auto, using(crate::proofs::Spelled::passed))]
fn write_en_passant(turn: Colour, only: Option<Move>, out: &mut ArrayVec<u8, 128>)
    requires room { length out.old.items + 2 < 128 }
    ensures text { out.new.items ≡ out.old.items ++ en_passant_text turn only }
    ensures short { length out.new.items ≤ length out.old.items + 2 }
{
    match only {
        None => out.push(b'-'),
        Some(step) => {
            out.push(b'a' + step.to.file());
            out.push(digit_of(turn));
        }
    }
}

/// Writes the board, the side to move, the rights and the last move that are demanded: the one text of the query that has four
/// fields, at most 81 bytes. `read_fen` reads it as this query with no odds, for which FEN has no word, and so does
/// `read_four_fields`. `out` is empty before, and no move is barred in the query, for which FEN has no word either.
pub fn write_fen(query: &Query, out: &mut ArrayVec<u8, 128>)
    requires empty { out.old.items ≡ [] }
    requires plain { query.now.barred ≡ None }
    ensures text { out.new.items ≡ spelling query.now }
    ensures short { length out.new.items ≤ 81 }
    ensures read { fen out.new.items ≡ Some (record query.now { odds = no_odds; clock = None }, None) }
{
    query.board.is_whole();
    write_ranks(&query.board, out);
    out.push(b' ');
    out.push(turn_letter(query.turn));
    out.push(b' ');
    write_rights(query.held, out);
    out.push(b' ');
    write_en_passant(query.turn, query.only, out);
}
