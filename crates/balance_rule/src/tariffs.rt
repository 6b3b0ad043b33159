ghost use Rattle.std.specs.Prelude.{◌≡◌, ◌≤◌, ◌<◌, ℕ, Bool, IsTrue, List, cond, length, slice_index};
ghost use Rattle.board_base.specs.Board.{is_in};
ghost use Rattle.cage_rules.specs.Sets.{squares_that};
ghost use Rattle.men_fates.specs.Fates.{may_fall};
ghost use Rattle.capture_prices.specs.Prices.{are_ascending, class_of, toll_at};
ghost use Rattle.balance_rule.specs.LeastWays.{seen_by};
ghost use Rattle.balance_rule.specs.Tariffs.{IsTariff};

use crate::views::{number_of, seen_by};
use board_base::{Colour, Square, SquareSet};
use capture_prices::{Gate, Prices};

/// What a side's pawns pay on each square, as the side sees the board, and what its men earn there.
#[derive(Clone, Copy)]
pub struct Tariff {
    /// For a capture there.
    pub take: [u16; 64],
    /// For treading it, where they never capture.
    pub gate: [u16; 64],
    /// What a man of the side who is taken there earns.
    pub earned: [u16; 64],
}

/// The class of a square, by its file and its shade.
pub fn class_of(s: Square) -> u8
    ensures value { result ≡ class_of s }
    ensures few { result < 16 }
{
    2 * s.file() + (s.file() + s.rank()) % 2
}

/// The number of a square's class among these.
fn take_at(takes: &[u8; 16], s: Square) -> u16
    ensures { result ≡ slice_index takes.now (class_of s) }
{
    takes[class_of(s) as usize] as u16
}

/// The numbers of the squares' classes among these, by the squares as a side sees them.
fn takes_seen(side: Colour, takes: &[u8; 16]) -> [u16; 64]
    ensures { (i : ℕ) → i < 64 → slice_index result i ≡ slice_index takes.now (class_of (seen_by side i)) }
{
    let mut seen = [0; 64];
    for i in 0..64 {
        seen[i as usize] = take_at(takes, seen_by(side, i));
    }
    seen
}

/// What a man of the side who is taken on a square earns.
fn earned_at(exposed: SquareSet, takes: &[u8; 16], s: Square) -> u16
    ensures { result ≡ cond (is_in exposed s) (slice_index takes.now (class_of s)) 0 }
{
    if exposed.has(s) { take_at(takes, s) } else { 0 }
}

/// The same of those squares of a set, and 0 elsewhere.
fn earned_seen(side: Colour, exposed: SquareSet, takes: &[u8; 16]) -> [u16; 64]
    ensures { (i : ℕ) → i < 64 → slice_index result i ≡ cond (is_in exposed (seen_by side i)) (slice_index takes.now (class_of (seen_by side i))) 0 }
{
    let mut seen = [0; 64];
    for i in 0..64 {
        seen[i as usize] = earned_at(exposed, takes, seen_by(side, i));
    }
    seen
}

/// The gates, by the squares as a side sees them.
fn gates_seen(side: Colour, gates: &[Gate]) -> [u16; 64]
    requires few { length gates.now ≤ 16 }
    requires ascending { IsTrue (are_ascending 0 gates.now) }
    ensures { (i : ℕ) → i < 64 → slice_index result i ≡ toll_at gates.now (seen_by side i) }
{
    let mut seen = [0; 64];
    let n = gates.len();
    for k in 0..n {
        let gate = gates[n - 1 - k];
        seen[number_of(side, Square::known(gate.square)) as usize] = gate.toll as u16;
    }
    seen
}

/// What a side's pawns pay on each square, and what its men earn there, if they are exposed on a set of squares.
pub(crate) fn tariff_of(side: Colour, exposed: SquareSet, prices: &Prices) -> Tariff
    ensures { (frozen : List Bool) → exposed ≡ squares_that (may_fall frozen side) → IsTariff prices.now frozen side result }
{
    Tariff {
        take: takes_seen(side, prices.takes(side)),
        gate: gates_seen(side, prices.gates()),
        earned: earned_seen(side, exposed, prices.takes(side.other())),
    }
}
