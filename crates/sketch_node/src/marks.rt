ghost use Rattle.std.specs.Prelude.{◌≡◌, ◌↔◌, ◌+◌, ◌<◌, ◌==◌, Bool, IfSome, IsTrue, List, SomeIff, cond, true};
ghost use Rattle.std.specs.List.{All, list_any};
ghost use Rattle.capture_prices.specs.Prices.{are_prices};
ghost use Rattle.sketch_node.specs.Nodes.{HasTree, IsMarkable, IsMarkableOn, marked_with};

use board_base::{CastleSet, Kind, Odds};
use capture_prices::Prices;
use figures::{Figure, Sketch};
use sketch_account::Scales;

/// Tells the caller that prices are what is known of all prices.
fn are_known(prices: &Prices)
    ensures { IsTrue (are_prices prices.now) }
{
    let _ = prices.gates();
}

/// Whether the figure with this number, counted from 1, bears no mark and is no king, and the account forces his mark.
fn is_markable(scales: &Scales, sketch: &Sketch, number: u8) -> bool
    ensures { IsTrue result ↔ IsMarkableOn scales.now sketch.now number }
{
    if number == 0 {
        return false;
    }
    let i = number as usize - 1;
    let Some(figure) = sketch.get(i) else {
        return false;
    };
    if figure.marked || figure.may_be(Kind::King) {
        return false;
    }
    scales.weigh(sketch, Some(i))
}

/// Whether all of these figures are so.
fn are_markable(scales: &Scales, sketch: &Sketch, numbers: &[u8]) -> bool
    ensures { IsTrue result ↔ All (λ n. IsMarkableOn scales.now sketch.now n) numbers.now }
{
    for number in numbers {
        if !is_markable(scales, sketch, *number) {
            return false;
        }
    }
    true
}

/// Whether the number of the figure that is counted as `i` from 0 is among these, counted from 1.
fn is_named(numbers: &[u8], i: usize) -> bool
    requires { i < 32 }
    ensures { result ≡ list_any (λ n. n == i + 1) numbers.now }
{
    numbers.iter().any(|n| *n as usize == i + 1)
}

/// The figure, with a mark if `more` says so.
fn marked_if(figure: &Figure, more: bool) -> Figure
    ensures { result ≡ cond more (record figure.now { marked = true }) figure.now }
{
    let mut result = *figure;
    if more {
        result.marked = true;
    }
    result
}

/// The sketch, with marks for the figures with these numbers, counted from 1.
fn with_marks(sketch: &Sketch, numbers: &[u8]) -> Sketch
    ensures { result ≡ marked_with numbers.now sketch.now }
{
    let mut made = Sketch::new();
    for (i, figure) in sketch.figures().iter().enumerate() {
        made.push(marked_if(figure, is_named(numbers, i)));
    }
    made
}

/// The sketch with marks for the figures with these numbers, counted from 1, if at these prices the account forces each of these marks in
/// the sketch as it is. None comes if and only if a number is no figure's, or its figure is a king, is marked already or isn't forced. What
/// refutes the marked sketch refutes the sketch.
pub fn marked(
    sketch: &Sketch,
    held: CastleSet,
    odds: Odds,
    prices: &Prices,
    numbers: &[u8],
) -> Option<Sketch>
    ensures exact { SomeIff result (All (λ n. IsMarkable odds held prices.now sketch.now n) numbers.now) (marked_with numbers.now sketch.now) }
    ensures sound { IfSome result (λ more. (exact : List Bool) → HasTree odds held exact more → HasTree odds held exact sketch.now) }
{
    are_known(prices);
    let scales = Scales::of(sketch, held, odds, *prices);
    if are_markable(&scales, sketch, numbers) {
        Some(with_marks(sketch, numbers))
    } else {
        None
    }
}
