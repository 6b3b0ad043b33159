ghost use Rattle.std.specs.Prelude.{◌≡◌, ◌<◌, IsTrue, Some};
ghost use Rattle.fen_text.specs.Sets.{hex_value, is_hex, set_of, set_text};
ghost use Rattle.fen_text.specs.WrittenDigits.{hex_digit};

use board_base::SquareSet;

fn is_hex(byte: u8) -> bool
    ensures { result ≡ is_hex byte }
{
    (b'0' <= byte && byte <= b'9') || (b'a' <= byte && byte <= b'f')
}

fn hex_value(byte: u8) -> u8
    requires { IsTrue (is_hex byte) }
    ensures value { result ≡ hex_value byte }
    ensures small { result < 16 }
{
    if b'0' <= byte && byte <= b'9' {
        byte - b'0'
    } else {
        byte - 87
    }
}

/// Reads a set of squares: sixteen hexadecimal digits, with letters in lower case, of the number whose bit s is 1 for each square s
/// of the set. None comes if and only if the text is no such.
pub fn read_set(text: &[u8]) -> Option<SquareSet>
    ensures { result ≡ set_of text.now }
{
    if text.len() != 16 {
        return None;
    }
    let mut bits: u64 = 0;
    for (i, byte) in text.iter().enumerate() {
        if !is_hex(*byte) {
            return None;
        }
        bits = 16 * bits + hex_value(*byte) as u64;
    }
    Some(SquareSet::from_bits(bits))
}

fn hex_digit(digit: u8) -> u8
    requires { digit < 16 }
    ensures { result ≡ hex_digit digit }
{
    if digit < 10 { b'0' + digit } else { digit + 87 }
}

/// The one text of a set: its number in sixteen hexadecimal digits, which `read_set` reads as this set.
pub fn set_text(set: SquareSet) -> [u8; 16]
    ensures text { result ≡ set_text set }
    ensures read { set_of result ≡ Some set }
{
    let mut text = [0; 16];
    let mut bits = set.bits();
    for place in (0..16usize).rev() {
        text[place] = hex_digit((bits % 16) as u8);
        bits = bits / 16;
    }
    text
}
