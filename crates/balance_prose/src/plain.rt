//! Prices that are told by what is counted.

ghost use Rattle.std.specs.Prelude.{◌≡◌, ◌<◌, cond, map, nat_lt};
ghost use Rattle.std.specs.List.{list_all};
ghost use Rattle.balance_prose.specs.Counted.{are_flat, is_counted, is_file_plain, is_flat, is_plain, is_shade_counted, is_side_plain, lowered, once, price_on, times_on};

use board_base::Colour;
use capture_prices::Prices;

/// What a capture costs on the squares of a file of one shade: of the dark ones, 0, or the light ones, 1.
fn price_on(takes: &[u8; 16], shade: u8, file: u8) -> u8
    requires shade { shade < 2 }
    requires file { file < 8 }
    ensures { result ≡ price_on takes.now shade file }
{
    takes[(2 * file + shade) as usize]
}

/// Whether captures on the squares of a file of one shade cost something.
fn is_paid(takes: &[u8; 16], shade: u8, file: u8) -> bool
    requires shade { shade < 2 }
    requires file { file < 8 }
    ensures { result ≡ nat_lt 0 (price_on takes.now shade file) }
{
    price_on(takes, shade, file) > 0
}

/// Whether captures on some squares of the shade cost something.
pub(crate) fn is_shade_counted(takes: &[u8; 16], shade: u8) -> bool
    requires { shade < 2 }
    ensures { result ≡ is_shade_counted takes.now shade }
{
    for file in 0..8 {
        if is_paid(takes, shade, file) {
            return true;
        }
    }
    false
}

/// Whether captures on some squares cost something.
pub(crate) fn is_counted(takes: &[u8; 16]) -> bool
    ensures { result ≡ is_counted takes.now }
{
    is_shade_counted(takes, 0) || is_shade_counted(takes, 1)
}

/// How often a capture on a file counts, on the shade on which it counts more often.
pub(crate) fn times_on(takes: &[u8; 16], file: u8) -> u8
    requires { file < 8 }
    ensures { result ≡ times_on takes.now file }
{
    price_on(takes, 0, file).max(price_on(takes, 1, file))
}

/// The number, if captures on the shade count.
fn if_counted(takes: &[u8; 16], shade: u8, times: u8) -> u8
    requires { shade < 2 }
    ensures { result ≡ cond (is_shade_counted takes.now shade) times 0 }
{
    if is_shade_counted(takes, shade) {
        times
    } else {
        0
    }
}

/// Whether captures on a file count not at all, once or twice, and on each shade that counts alike.
fn is_file_plain(takes: &[u8; 16], file: u8) -> bool
    requires { file < 8 }
    ensures { result ≡ is_file_plain takes.now file }
{
    let times = times_on(takes, file);
    times <= 2
        && price_on(takes, 0, file) == if_counted(takes, 0, times)
        && price_on(takes, 1, file) == if_counted(takes, 1, times)
}

/// The same of each file.
fn is_side_plain(takes: &[u8; 16]) -> bool
    ensures { result ≡ is_side_plain takes.now }
{
    for file in 0..8 {
        if !is_file_plain(takes, file) {
            return false;
        }
    }
    true
}

/// Whether captures count not at all, once or twice, by whole files of one shade or of both, and those of some side count.
pub fn is_plain(prices: &Prices) -> bool
    ensures { result ≡ is_plain prices.now }
{
    let white = prices.takes(Colour::White);
    let black = prices.takes(Colour::Black);
    is_side_plain(white) && is_side_plain(black) && (is_counted(white) || is_counted(black))
}

/// Whether the price is nothing, or the one that flat prices have.
fn is_flat(price: u8) -> bool
    ensures { result ≡ is_flat price }
{
    price == 0 || price == 24
}

/// The same of each price of a side.
fn are_all_flat(takes: &[u8; 16]) -> bool
    ensures { result ≡ list_all is_flat takes.now }
{
    takes.iter().all(|price| is_flat(*price))
}

/// Whether each capture that costs something costs the same, without gates.
fn are_flat(prices: &Prices) -> bool
    ensures { result ≡ are_flat prices.now }
{
    are_all_flat(prices.takes(Colour::White))
        && are_all_flat(prices.takes(Colour::Black))
        && prices.gates().len() == 0
}

/// 1 in the place of a price that is something.
fn once(price: u8) -> u8
    ensures { result ≡ once price }
{
    if price == 0 { 0 } else { 1 }
}

/// 1 in the place of each price.
fn once_each(takes: &[u8; 16]) -> [u8; 16]
    ensures { result ≡ map once takes.now }
{
    let mut each = [0; 16];
    for i in 0..16 {
        each[i] = once(takes[i]);
    }
    each
}

/// The prices at which a balance is told: 1 in the place of a price that is all that there is.
pub fn lowered(prices: &Prices) -> Prices
    ensures { result ≡ lowered prices.now }
{
    if !are_flat(prices) {
        return *prices;
    }
    let white = once_each(prices.takes(Colour::White));
    let black = once_each(prices.takes(Colour::Black));
    Prices::known(&white, &black, &[])
}
