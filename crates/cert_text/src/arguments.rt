ghost use Rattle.std.specs.Prelude.{◌≡◌, ◌≤◌, ◌<◌, MatchOption, None, Some};
ghost use Rattle.fen_text.specs.Numbers.{number};
ghost use Rattle.board_base.specs.Potentials.{ArePotentials, duals};
ghost use Rattle.cert_text.specs.Arguments.{columns_of, duals_of, negative, positive, potentials_of, signed};
ghost use Rattle.price_text.specs.Words.{words};
ghost use Rattle.fen_text.specs.Sets.{is_whole};
ghost use Rattle.cert_text.specs.Writable.{are_near};

use arrayvec::ArrayVec;
use board_base::{Potentials, Square, SquareSet};
use fen_text::{read_number, split_part};
use price_text::is_slash;

fn positive(number: u32) -> Option<i8>
    ensures { result ≡ positive number }
{
    if number <= 64 {
        Some(number as i8)
    } else {
        None
    }
}

fn negative(number: u32) -> Option<i8>
    ensures { result ≡ negative number }
{
    if 1 <= number && number <= 64 {
        Some(-(number as i8))
    } else {
        None
    }
}

/// Reads a number from -64 to 64.
#[tactic(auto, unfolding(crate::specs::Arguments::signed))]
fn read_signed(text: &[u8]) -> Option<i8>
    ensures { result ≡ signed text.now }
{
    if text.starts_with(b"-") {
        return match read_number(&text[1..]) {
            Some(number) => negative(number),
            None => None,
        };
    }
    match read_number(text) {
        Some(number) => positive(number),
        None => None,
    }
}

/// Reads so many numbers with a space between two.
fn read_columns<const W: usize>(text: &[u8]) -> Option<[i8; W]>
    ensures { result ≡ columns_of W (words text.now) }
{
    let mut v = [0; W];
    let mut rest = Some(text);
    for i in 0..W {
        let Some(left) = rest else {
            return None;
        };
        let (word, after) = split_part(left, b' ');
        let Some(x) = read_signed(word) else {
            return None;
        };
        v[i] = x;
        rest = after;
    }
    if rest.is_some() {
        return None;
    }
    Some(v)
}

/// Reads potentials, those of rows and those of columns: at most so many numbers, a `/`, and so many numbers, from -64 to 64, with a
/// space between two. A number has no leading zero, and one below 0 has a `-`. None comes if and only if the text is none of these.
pub fn read_duals<const W: usize>(text: &[u8]) -> Option<(ArrayVec<i8, W>, [i8; W])>
    requires some { 1 ≤ W }
    requires few { W < 256 }
    ensures { MatchOption result (duals_of W text.now ≡ None) (λ d. duals_of W text.now ≡ Some (duals d.0.items d.1)) }
{
    let mut u = ArrayVec::new();
    let mut rest = text;
    for n in 0..W + 1 {
        let (word, after) = split_part(rest, b' ');
        let Some(more) = after else {
            return None;
        };
        if is_slash(word) {
            return match read_columns(more) {
                Some(v) => Some((u, v)),
                None => None,
            };
        }
        if n == W {
            return None;
        }
        let Some(x) = read_signed(word) else {
            return None;
        };
        u.push(x);
        rest = more;
    }
    None
}

/// These potentials, which are known to be in range.
fn potentials_with(d: &(ArrayVec<i8, 8>, [i8; 8])) -> Potentials
    requires { ArePotentials (duals d.now.0.items d.now.1) }
    ensures { result ≡ duals d.now.0.items d.now.1 }
{
    Potentials::known(d.0.as_slice(), &d.1)
}

/// Reads potentials of at most eight pawns and of the eight files.
pub(crate) fn read_potentials(text: &[u8]) -> Option<Potentials>
    ensures { result ≡ potentials_of text.now }
{
    match read_duals::<8>(text) {
        Some(d) => Some(potentials_with(&d)),
        None => None,
    }
}

/// Whether the set has 64 truth values, as each has.
pub(crate) fn is_whole(set: SquareSet) -> bool
    ensures { result ≡ is_whole set }
{
    let _ = set.has(Square::known(0));
    true
}

/// Whether the potentials are at most eight and exactly eight, and from -64 to 64, as all are.
pub(crate) fn are_near(p: &Potentials) -> bool
    ensures { result ≡ are_near 8 p.now }
{
    let _ = p.v();
    true
}
