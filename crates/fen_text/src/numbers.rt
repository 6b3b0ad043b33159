ghost use Rattle.std.specs.Prelude.{◌≡◌, ◌≤◌, length};
ghost use Rattle.fen_text.specs.Fen.{number as digits};
ghost use Rattle.fen_text.specs.Numbers.{is_plain, number};

use crate::fields::read_decimal;

/// The value of one to nine digits.
fn read_digits(text: &[u8]) -> Option<u32>
    ensures { result ≡ digits text.now }
{
    read_decimal(text).ok()
}

fn is_plain(text: &[u8]) -> bool
    requires { 1 ≤ length text.now }
    ensures { result ≡ is_plain text.now }
{
    text.len() == 1 || text[0] != b'0'
}

/// Reads a number of one to six decimal digits, the first of which is 0 only if there is no other. None comes if and only if the
/// text is no such.
pub fn read_number(text: &[u8]) -> Option<u32>
    ensures { result ≡ number text.now }
{
    if text.is_empty() {
        return None;
    }
    if text.len() > 6 {
        return None;
    }
    if !is_plain(text) {
        return None;
    }
    read_digits(text)
}
