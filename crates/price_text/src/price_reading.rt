ghost use Rattle.std.specs.Prelude.{◌≡◌, ◌<◌, [], IfSome, MatchOption, None, Some};
ghost use Rattle.capture_prices.specs.Prices.{are_prices};
ghost use Rattle.price_text.specs.Words.{is_slash, words};
ghost use Rattle.price_text.specs.PriceTexts.{from_least, gate_at, gate_of, gates_from, low, price_of, prices_of, square_of, takes_from};

use crate::words::is_slash;
use arrayvec::ArrayVec;
use capture_prices::{Gate, Prices};
use fen_text::{read_number, split_part};

fn low(number: u32) -> Option<u8>
    ensures { result ≡ low number }
{
    if number <= 96 {
        Some(number as u8)
    } else {
        None
    }
}

/// Reads a price, a number from 0 to 96.
#[tactic(auto, unfolding(crate::specs::PriceTexts::price_of))]
fn read_price(word: &[u8]) -> Option<u8>
    ensures { result ≡ price_of word.now }
{
    match read_number(word) {
        Some(number) => low(number),
        None => None,
    }
}

/// Reads sixteen prices and the `/` behind them, with a space between two. What follows comes with them.
fn read_takes(text: &[u8]) -> Option<([u8; 16], Option<&[u8]>)>
    ensures { MatchOption result (takes_from 16 (words text.now) ≡ None) (λ r. MatchOption r.1 (takes_from 16 (words text.now) ≡ Some (r.0, [])) (λ rest. takes_from 16 (words text.now) ≡ Some (r.0, words rest.now))) }
{
    let mut takes = [0; 16];
    let mut rest = text;
    for i in 0..16 {
        let (word, after) = split_part(rest, b' ');
        let Some(more) = after else {
            return None;
        };
        let Some(price) = read_price(word) else {
            return None;
        };
        takes[i] = price;
        rest = more;
    }
    let (word, after) = split_part(rest, b' ');
    if is_slash(word) {
        Some((takes, after))
    } else {
        None
    }
}

/// Reads a square, a file letter and a rank digit.
fn read_square(word: &[u8]) -> Option<u8>
    ensures value { result ≡ square_of word.now }
    ensures on_board { IfSome result (λ s. s < 64) }
{
    match word {
        [file, rank] => {
            if b'a' <= *file && *file <= b'h' && b'1' <= *rank && *rank <= b'8' {
                Some(8 * (*rank - b'1') + (*file - b'a'))
            } else {
                None
            }
        }
        _ => None,
    }
}

fn from_least(least: u8, square: u8) -> Option<u8>
    ensures { result ≡ from_least least square }
{
    if least <= square { Some(square) } else { None }
}

fn gate_at(square: u8, toll: u32) -> Option<Gate>
    ensures { result ≡ gate_at square toll }
{
    if 1 <= toll && toll <= 96 {
        Some(Gate {
            square,
            toll: toll as u8,
        })
    } else {
        None
    }
}

/// Reads a gate on a square from this one on: the square, and a number from 1 to 96.
#[tactic(auto, unfolding(crate::specs::PriceTexts::gate_of))]
fn read_gate(least: u8, square: &[u8], toll: &[u8]) -> Option<Gate>
    ensures value { result ≡ gate_of least square.now toll.now }
    ensures on_board { IfSome result (λ g. g.square < 64) }
{
    let Some(number) = read_square(square) else {
        return None;
    };
    let Some(place) = from_least(least, number) else {
        return None;
    };
    match read_number(toll) {
        Some(toll) => gate_at(place, toll),
        None => None,
    }
}

/// Reads at most sixteen gates on ascending squares, with a space between two words.
fn read_gates(text: &[u8]) -> Option<ArrayVec<Gate, 16>>
    ensures { MatchOption result (gates_from 16 0 (words text.now) ≡ None) (λ gates. gates_from 16 0 (words text.now) ≡ Some gates.items) }
{
    let mut gates = ArrayVec::new();
    let mut least = 0;
    let mut rest = Some(text);
    for n in 0..16_usize {
        let Some(pair) = rest else {
            return Some(gates);
        };
        let (square, behind) = split_part(pair, b' ');
        let Some(behind) = behind else {
            return None;
        };
        let (toll, after) = split_part(behind, b' ');
        let Some(gate) = read_gate(least, square, toll) else {
            return None;
        };
        gates.push(gate);
        least = gate.square + 1;
        rest = after;
    }
    if rest.is_some() {
        return None;
    }
    Some(gates)
}

/// Reads the gates behind the prices, if anything stands there.
fn read_gates_behind(text: Option<&[u8]>) -> Option<ArrayVec<Gate, 16>>
    ensures { MatchOption text.entry (MatchOption result ⊥ (λ gates. gates.items ≡ [])) (λ t. MatchOption result (gates_from 16 0 (words t.now) ≡ None) (λ gates. gates_from 16 0 (words t.now) ≡ Some gates.items)) }
{
    match text {
        Some(text) => read_gates(text),
        None => Some(ArrayVec::new()),
    }
}

/// Reads prices and gates: sixteen numbers, `/`, sixteen numbers, `/`, and at most sixteen squares in ascending order, each with a number. One
/// space parts two words. The numbers are decimal, with no leading zero other than `0` itself, from 0 to 96, and behind a square from 1. None
/// comes if and only if the text is no such.
pub fn read_prices(text: &[u8]) -> Option<Prices>
    ensures { result ≡ prices_of text.now }
{
    let Some(white) = read_takes(text) else {
        return None;
    };
    let Some(rest) = white.1 else {
        return None;
    };
    let Some(black) = read_takes(rest) else {
        return None;
    };
    match read_gates_behind(black.1) {
        Some(gates) => Some(Prices::known(&white.0, &black.0, gates.as_slice())),
        None => None,
    }
}

/// Whether these are prices, as all are.
pub fn are_priced(prices: &Prices) -> bool
    ensures { result ≡ are_prices prices.now }
{
    let _ = prices.gates();
    true
}
