ghost use Rattle.std.specs.Prelude.{◌≡◌, ◌≢◌, ◌-◌, ◌+◌, ◌<◌, ◌≤◌, ◌&&◌, ◌||◌, nat_le, true, false, IfOk, IsTrue, Some};
ghost use Rattle.board_base.specs.Rights.{holds};
ghost use Rattle.board_base.specs.declared.castles.Castle.{Castle as AnyCastle};
ghost use Rattle.board_base.specs.Texts.{is_digit};
ghost use Rattle.query_base.specs.Asked.{is_of_other_side};
ghost use Rattle.fen_text.specs.Fen.{turn, mark, rights, rights_of, en_passant, en_passant_digit, crossed_on, double_on, number};
ghost use Rattle.fen_text.specs.Faults.{ReadsPart};

use board_base::{Castle, CastleSet, Colour, Move, Square};
use ep_history::double_over;

/// Reads a side, `w` or `b`, or says how many bytes begin one.
pub fn read_turn(text: &[u8]) -> Result<Colour, usize>
    ensures { ReadsPart turn text.now result }
{
    if text.is_empty() {
        return Err(0);
    }
    let colour = match text[0] {
        b'w' => Colour::White,
        b'b' => Colour::Black,
        _ => return Err(0),
    };
    if text.len() == 1 { Ok(colour) } else { Err(1) }
}

/// Whether the text begins with the letter, and what follows it.
fn take_letter(text: &[u8], letter: u8) -> (bool, &[u8])
    ensures { (result.0, result.1.now) ≡ mark letter text.now }
{
    if text.is_empty() {
        return (false, text);
    }
    if text[0] == letter {
        (true, &text[1..])
    } else {
        (false, text)
    }
}

/// The set, with this castling if it is given.
#[tactic(auto, using(board_base::proofs::Rights::holds_added, board_base::proofs::Rights::holds_others))]
fn with_given(set: CastleSet, castle: Castle, given: bool) -> CastleSet
    ensures here { holds result castle ≡ (holds set castle || given) }
    ensures others { (c : AnyCastle) → c ≢ castle → holds result c ≡ holds set c }
{
    if given { set.with(castle) } else { set }
}

/// The castling rights, or how many bytes begin such a field.
pub(crate) fn read_rights(text: &[u8]) -> Result<CastleSet, usize>
    ensures { ReadsPart rights text.now result }
{
    if text.is_empty() {
        return Err(0);
    }
    if text[0] == b'-' {
        return if text.len() == 1 {
            Ok(CastleSet::none())
        } else {
            Err(1)
        };
    }
    let (white_short, after_white_short) = take_letter(text, b'K');
    let (white_long, after_white_long) = take_letter(after_white_short, b'Q');
    let (black_short, after_black_short) = take_letter(after_white_long, b'k');
    let (black_long, rest) = take_letter(after_black_short, b'q');
    if !rest.is_empty() {
        return Err(text.len() - rest.len());
    }
    let set = with_given(CastleSet::none(), Castle::WhiteShort, white_short);
    let set = with_given(set, Castle::WhiteLong, white_long);
    let set = with_given(set, Castle::BlackShort, black_short);
    Ok(with_given(set, Castle::BlackLong, black_long))
}

fn is_file(byte: u8) -> bool
    ensures { result ≡ (nat_le 97 byte && nat_le byte 104) }
{
    b'a' <= byte && byte <= b'h'
}

/// The rank on which this colour takes en passant, as its digit.
pub(crate) fn digit_of(turn: Colour) -> u8
    ensures { result ≡ en_passant_digit turn }
{
    match turn {
        Colour::White => b'6',
        Colour::Black => b'3',
    }
}

/// The square of this file, from 0 for a, that a double step of the other side crosses.
fn crossed_on(turn: Colour, file: u8) -> Square
    requires { file < 8 }
    ensures square { result ≡ crossed_on turn file }
    ensures low { 8 ≤ result }
    ensures high { result < 56 }
{
    match turn {
        Colour::White => Square::known(40 + file),
        Colour::Black => Square::known(16 + file),
    }
}

/// The double step of the other side on this file, from 0 for a.
fn double_step(turn: Colour, file: u8) -> Move
    requires { file < 8 }
    ensures step { result ≡ double_on turn file }
    ensures fits { IsTrue (is_of_other_side turn (Some result)) }
{
    double_over(crossed_on(turn, file), turn)
}

/// The double step just made, or how many bytes begin such a field.
pub(crate) fn read_en_passant(turn: Colour, text: &[u8]) -> Result<Option<Move>, usize>
    ensures read { ReadsPart (en_passant turn) text.now result }
    ensures fits { IfOk result (λ e. IsTrue (is_of_other_side turn e)) }
{
    if text.is_empty() {
        return Err(0);
    }
    if text[0] == b'-' {
        return if text.len() == 1 { Ok(None) } else { Err(1) };
    }
    if !is_file(text[0]) {
        return Err(0);
    }
    if text.len() == 1 {
        return Err(1);
    }
    if text[1] != digit_of(turn) {
        return Err(1);
    }
    if text.len() > 2 {
        return Err(2);
    }
    Ok(Some(double_step(turn, text[0] - b'a')))
}

fn is_decimal(byte: u8) -> bool
    ensures { result ≡ is_digit byte }
{
    b'0' <= byte && byte <= b'9'
}

/// A number has at most so many digits, so that it is below 2^32.
const MOST_DIGITS: usize = 9;

/// Reads a number of one to nine decimal digits, or says how many bytes begin one.
pub fn read_decimal(text: &[u8]) -> Result<u32, usize>
    ensures { ReadsPart number text.now result }
{
    let mut value: u32 = 0;
    for (i, byte) in text.iter().enumerate() {
        if i >= MOST_DIGITS {
            return Err(i);
        }
        if !is_decimal(*byte) {
            return Err(i);
        }
        value = 10 * value + (*byte - b'0') as u32;
    }
    if text.is_empty() {
        return Err(0);
    }
    Ok(value)
}
