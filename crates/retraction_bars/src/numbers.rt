ghost use Rattle.std.specs.Prelude.{◌≡◌, ◌<◌};
ghost use Rattle.retraction_bars.specs.Numbers.{bar_at, given_at, narrow_at, rest_at, wide_at};

use crate::bars::Bar;
use board_base::{Castle, Colour, Square};

/// What the query itself demands, by number: that the last move was a double step, then each right that is held.
fn given_at(n: u8) -> Bar
    ensures { result ≡ given_at n }
{
    match n {
        0 => Bar::Only,
        1 => Bar::Held(Castle::WhiteShort),
        2 => Bar::Held(Castle::WhiteLong),
        3 => Bar::Held(Castle::BlackShort),
        _ => Bar::Held(Castle::BlackLong),
    }
}

/// What may bar all of a man's ways at once, by number: the demands, then check from each square.
fn wide_at(n: u8) -> Bar
    requires { n < 69 }
    ensures { result ≡ wide_at n }
{
    if n < 5 {
        given_at(n)
    } else {
        Bar::Check(Square::known(n - 5))
    }
}

/// What is tried last of one origin, by number.
fn rest_at(n: u8) -> Bar
    ensures { result ≡ rest_at n }
{
    match n {
        0 => Bar::Barred,
        1 => Bar::Account(Colour::White),
        2 => Bar::Account(Colour::Black),
        3 => Bar::Clock,
        4 => Bar::Passed,
        _ => Bar::Otherwise,
    }
}

/// What may bar the ways from one origin, by number: the origin itself, checks, demands, and then the rest.
fn narrow_at(n: u8) -> Bar
    ensures { result ≡ narrow_at n }
{
    if n == 0 {
        Bar::Occupied
    } else if n == 1 {
        Bar::Itself
    } else if n < 66 {
        Bar::Check(Square::known(n - 2))
    } else if n < 71 {
        given_at(n - 66)
    } else {
        rest_at(n - 71)
    }
}

/// The bar with this number, in the order in which they are tried: first those that may bar all of a man's ways at once, from 0, then
/// those of one origin, from 69; so demands and checks from other squares stand twice. The last, 145, bars whatever isn't listed.
#[tactic(auto, unfolding(crate::specs::Numbers::bar_at))]
pub fn bar_at(n: u8) -> Bar
    ensures { result ≡ bar_at n }
{
    if n < 69 {
        wide_at(n)
    } else {
        narrow_at(n - 69)
    }
}
