ghost use Rattle.std.specs.Prelude.{◌≡◌, ◌≤◌, ◌<◌, ◌*◌, ℕ, IsTrue, SomeIff, cond, slice_index};
ghost use Rattle.capture_prices.specs.Prices.{are_prices, takes as takes_of};
ghost use Rattle.ledger_facts.specs.Accounts.{charge, dearer, earned_over, list_for, paid_over, raised};
ghost use Rattle.ledger_facts.specs.Supposed.{has_class};

use board_base::Colour;
use capture_prices::Prices;
use ledger_facts::{Squares, Supposition};

/// By how much captures are dearer where they are counted.
const CHARGE: u8 = 24;

/// Whether a class of squares is among these.
fn has_class(squares: Squares, class: u8) -> bool
    ensures { result ≡ has_class squares class }
{
    match squares {
        Squares::All => true,
        Squares::Dark => class % 2 == 0,
        Squares::Light => class % 2 == 1,
        Squares::Class(n) => class == n,
    }
}

/// What a capture on a class costs more.
fn charge_on(squares: Squares, class: u8) -> u8
    ensures value { result ≡ cond (has_class squares class) charge 0 }
    ensures small { result ≤ 24 }
{
    if has_class(squares, class) { CHARGE } else { 0 }
}

/// Prices of classes, dearer on some of them.
fn dearer(squares: Squares, takes: &[u8; 16]) -> [u8; 16]
    requires { (k : ℕ) → slice_index takes.now k ≤ 96 }
    ensures { result ≡ dearer squares takes.now }
{
    let mut dear = [0; 16];
    for k in 0..16 {
        dear[k as usize] = takes[k as usize] + charge_on(squares, k);
    }
    dear
}

/// What a side's pawns pay, dearer on some classes.
fn dearer_takes(prices: &Prices, side: Colour, squares: Squares) -> [u8; 16]
    ensures { result ≡ dearer squares (takes_of prices.now side) }
{
    dearer(squares, prices.takes(side))
}

/// The prices with those of a side's captures on these squares dearer; None if and only if one is above 96 then.
pub(crate) fn raised(side: Colour, squares: Squares, prices: &Prices) -> Option<Prices>
    ensures { SomeIff result (IsTrue (are_prices (raised side squares prices.now))) (raised side squares prices.now) }
{
    let dear = dearer_takes(prices, side, squares);
    let other = prices.takes(side.other());
    match side {
        Colour::White => Prices::new(&dear, other, prices.gates()),
        Colour::Black => Prices::new(other, &dear, prices.gates()),
    }
}

/// The same prices.
fn same(prices: &Prices) -> Option<Prices>
    ensures { SomeIff result (IsTrue (are_prices prices.now)) prices.now }
{
    let _ = prices.gates();
    Some(*prices)
}

/// The prices, dearer if this side is the one whose men pay or earn more; None if and only if one is above 96 then.
fn dearer_if(here: bool, side: Colour, squares: Squares, prices: &Prices) -> Option<Prices>
    ensures { SomeIff result (IsTrue (are_prices (cond here (raised side squares prices.now) prices.now))) (cond here (raised side squares prices.now) prices.now) }
{
    if here {
        raised(side, squares, prices)
    } else {
        same(prices)
    }
}

/// The prices by which a side's men are counted; None if and only if one is above 96.
pub(crate) fn list_for(supposition: &Supposition, prices: &Prices, side: Colour) -> Option<Prices>
    ensures { SomeIff result (IsTrue (are_prices (list_for supposition.now prices.now side))) (list_for supposition.now prices.now side) }
{
    match *supposition {
        Supposition::Began(_, _) => same(prices),
        Supposition::Went(_, _) => same(prices),
        Supposition::Stands(_, _) => same(prices),
        Supposition::Gone(_, _, _) => same(prices),
        Supposition::AtMost(payer, squares, _) => {
            dearer_if(payer == side, payer, squares, prices)
        }
        Supposition::AtLeast(payer, squares, _) => {
            dearer_if(payer.other() == side, payer, squares, prices)
        }
    }
}

/// So many times the charge.
fn charges(number: u8) -> u32
    ensures value { result ≡ charge * number }
    ensures small { result ≤ 6_120 }
{
    u32::from(CHARGE) * u32::from(number)
}

/// How much more is paid than earned, at most.
pub(crate) fn paid_over(supposition: &Supposition) -> u32
    ensures value { result ≡ paid_over supposition.now }
    ensures small { result ≤ 6_120 }
{
    match *supposition {
        Supposition::Began(_, _) => 0,
        Supposition::Went(_, _) => 0,
        Supposition::Stands(_, _) => 0,
        Supposition::Gone(_, _, _) => 0,
        Supposition::AtMost(_, _, number) => charges(number),
        Supposition::AtLeast(_, _, _) => 0,
    }
}

/// How much more is earned than paid, at least.
pub(crate) fn earned_over(supposition: &Supposition) -> u32
    ensures value { result ≡ earned_over supposition.now }
    ensures small { result ≤ 6_120 }
{
    match *supposition {
        Supposition::Began(_, _) => 0,
        Supposition::Went(_, _) => 0,
        Supposition::Stands(_, _) => 0,
        Supposition::Gone(_, _, _) => 0,
        Supposition::AtMost(_, _, _) => 0,
        Supposition::AtLeast(_, _, number) => charges(number),
    }
}
