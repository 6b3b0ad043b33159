//! What captures cost, in words.

ghost use Rattle.std.specs.Prelude.{◌≡◌, ◌++◌, ◌<◌, IfOk, slice_index};
ghost use Rattle.std.specs.List.{All, flat_map};
ghost use Rattle.capture_prices.specs.Prices.{all_gates};
ghost use Rattle.balance_prose.specs.Pricing.{file_if, files_words, gate_words, gates_end, gates_words, item_words, light_front, price_words, priced_words, prices_words, shade_words, shades_words};

use crate::words::{push_around, rest_of};
use balance_rule::{begun_with, most_cost};
use board_base::{Colour, Odds, Square};
use capture_prices::{Gate, Prices};
use prose_words::{push_number, push_square, say};
use std::alloc::{AllocError, Global};

/// A file after a space, if a capture on its squares of this shade has this price; the dark shade is 0, the light one 1.
fn push_file_if(
    prices: &[u8; 16],
    shade: u8,
    price: u8,
    file: u8,
    list: &mut Vec<u8>,
) -> Result<(), AllocError>
    requires shade { shade < 2 }
    requires file { file < 8 }
    ensures { IfOk result (λ _. list.new.items ≡ list.old.items ++ file_if prices.now shade price file) }
{
    if prices[(2 * file + shade) as usize] == price {
        list.push(b' ')?;
        list.push(b'a' + file)?;
    }
    Ok(())
}

/// The files with this price.
fn files_of(alloc: Global, prices: &[u8; 16], shade: u8, price: u8) -> Result<Vec<u8>, AllocError>
    requires { shade < 2 }
    ensures { IfOk result (λ v. v.items ≡ files_words prices.now shade price) }
{
    let mut list = Vec::new(alloc);
    for file in 0..8 {
        push_file_if(prices, shade, price, file, &mut list)?;
    }
    Ok(list)
}

/// What stands before the files with a price.
fn price_front(alloc: Global, price: u8) -> Result<Vec<u8>, AllocError>
    ensures { IfOk result (λ v. v.items ≡ price_words price) }
{
    let mut front = Vec::new(alloc);
    say(b", ", &mut front)?;
    push_number(price as usize, &mut front)?;
    say(b" on", &mut front)?;
    Ok(front)
}

/// After a comma, a price that isn't the usual one, with its files.
fn push_item(
    alloc: Global,
    prices: &[u8; 16],
    shade: u8,
    usual: u8,
    price: u8,
    list: &mut Vec<u8>,
) -> Result<(), AllocError>
    requires { shade < 2 }
    ensures { IfOk result (λ _. list.new.items ≡ list.old.items ++ item_words usual prices.now shade price) }
{
    if price == usual {
        return Ok(());
    }
    let front = price_front(alloc, price)?;
    let files = files_of(alloc, prices, shade, price)?;
    push_around(front.as_slice(), files.as_slice(), b"", list)
}

/// The prices on the squares of a shade that aren't the usual one, ascending.
fn shade_prices(
    alloc: Global,
    prices: &[u8; 16],
    shade: u8,
    usual: u8,
) -> Result<Vec<u8>, AllocError>
    requires { shade < 2 }
    ensures { IfOk result (λ v. v.items ≡ shade_words usual prices.now shade) }
{
    let mut list = Vec::new(alloc);
    for price in 0..97 {
        push_item(alloc, prices, shade, usual, price, &mut list)?;
    }
    Ok(list)
}

/// What stands before the prices on light squares, behind those on dark ones.
fn light_front(dark: &[u8]) -> &'static [u8]
    ensures { result.now ≡ light_front dark.now }
{
    if dark.len() == 0 {
        b"on light squares"
    } else {
        b"; on light squares"
    }
}

/// The prices on squares of both shades.
fn both_shades(alloc: Global, dark: &[u8], light: &[u8]) -> Result<Vec<u8>, AllocError>
    ensures { IfOk result (λ v. v.items ≡ shades_words dark.now light.now) }
{
    let mut list = Vec::new(alloc);
    push_around(b"on dark squares", rest_of(dark), b"", &mut list)?;
    push_around(light_front(dark), rest_of(light), b"", &mut list)?;
    Ok(list)
}

/// The prices that aren't the usual one.
fn unusual_prices(alloc: Global, prices: &[u8; 16], usual: u8) -> Result<Vec<u8>, AllocError>
    ensures { IfOk result (λ v. v.items ≡ shades_words (shade_words usual prices.now 0) (shade_words usual prices.now 1)) }
{
    let dark = shade_prices(alloc, prices, 0, usual)?;
    let light = shade_prices(alloc, prices, 1, usual)?;
    both_shades(alloc, dark.as_slice(), light.as_slice())
}

/// What a side's pawns pay for a capture.
fn push_prices(alloc: Global, prices: &[u8; 16], out: &mut Vec<u8>) -> Result<(), AllocError>
    ensures { IfOk result (λ _. out.new.items ≡ out.old.items ++ prices_words (slice_index prices.now 15) prices.now) }
{
    let usual = prices[15];
    let list = unusual_prices(alloc, prices, usual)?;
    say(b" ", out)?;
    push_number(usual as usize, out)?;
    push_around(b" (", list.as_slice(), b")", out)
}

/// After a comma, the toll of a gate and its square.
fn push_gate(gate: &Gate, out: &mut Vec<u8>) -> Result<(), AllocError>
    requires { gate.now.square < 64 }
    ensures { IfOk result (λ _. out.new.items ≡ out.old.items ++ gate_words gate.now) }
{
    say(b", ", out)?;
    push_number(gate.toll as usize, out)?;
    say(b" on ", out)?;
    push_square(Square::known(gate.square), out)
}

/// The tolls of all gates.
fn tolls_of(alloc: Global, gates: &[Gate]) -> Result<Vec<u8>, AllocError>
    requires { All (λ g. g.square < 64) gates.now }
    ensures { IfOk result (λ v. v.items ≡ flat_map gate_words gates.now) }
{
    let mut list = Vec::new(alloc);
    for gate in gates {
        push_gate(gate, &mut list)?;
    }
    Ok(list)
}

/// What is paid at all gates at most: what true homes cost at most, but for 96 a man.
pub fn all_gates(prices: &Prices) -> u32
    ensures { result ≡ all_gates prices.now }
{
    let odds = Odds::none();
    let men = u32::from(begun_with(Colour::White, odds))
        + u32::from(begun_with(Colour::Black, odds));
    most_cost(odds, prices) - 96 * men
}

/// What is paid at gates with these tolls at most, as a text of its own.
fn gates_end(alloc: Global, most: u32) -> Result<Vec<u8>, AllocError>
    ensures { IfOk result (λ v. v.items ≡ gates_end most) }
{
    let mut end = Vec::new(alloc);
    say(
        b". Of the two pawns that began on a file at most one paid for a square, or they would have passed each other: all pay at most ",
        &mut end,
    )?;
    push_number(most as usize, &mut end)?;
    say(b" for squares. ", &mut end)?;
    Ok(end)
}

/// What a pawn that neither captured nor was taken as a pawn pays for squares.
fn push_gates(alloc: Global, prices: &Prices, out: &mut Vec<u8>) -> Result<(), AllocError>
    ensures { IfOk result (λ _. out.new.items ≡ out.old.items ++ gates_words prices.now.gates (all_gates prices.now)) }
{
    let list = tolls_of(alloc, prices.gates())?;
    let end = gates_end(alloc, all_gates(prices))?;
    push_around(
        b"A pawn that neither captured nor was taken as a pawn pays for each of these squares that it stood on or crossed:",
        rest_of(list.as_slice()),
        end.as_slice(),
        out,
    )
}

/// What captures cost.
pub fn push_priced(alloc: Global, prices: &Prices, out: &mut Vec<u8>) -> Result<(), AllocError>
    ensures { IfOk result (λ _. out.new.items ≡ out.old.items ++ priced_words prices.now) }
{
    say(b"Let a capture by a white pawn cost", out)?;
    push_prices(alloc, prices.takes(Colour::White), out)?;
    say(b", and one by a black pawn", out)?;
    push_prices(alloc, prices.takes(Colour::Black), out)?;
    say(
        b": the side that captures pays it, and the man who is taken earns it. ",
        out,
    )?;
    push_gates(alloc, prices, out)
}
