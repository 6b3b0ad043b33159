ghost use Rattle.std.specs.Prelude.{◌<◌, ℕ, slice_index};
ghost use Rattle.ledger_facts.specs.declared.suppositions.Squares.TheVariants.{Class};
ghost use Rattle.ledger_rule.specs.Kept.{IsAccount};
ghost use Rattle.ledger_search.specs.Learning.{CountsOn, Lowers, Narrows, Raises};

use board_base::Colour;
use ledger_facts::Squares;
use ledger_rule::{Account, least_count, most_count};
use query_base::Query;

/// How many captures a side's pawns made on some squares, from 0 to 16: at least 0 and at most 16 if nothing is known.
#[derive(Clone, Copy, PartialEq, Eq, Debug)]
pub struct Range {
    pub least: u8,
    pub most: u8,
}

/// How many captures a side's pawns made.
#[derive(Clone, Copy, PartialEq, Eq, Debug)]
pub struct Counts {
    pub all: Range,
    pub dark: Range,
    pub light: Range,
    /// At least so many on each class of squares, by file and shade: twice the file, from 0 for a, and one more if they are light.
    pub least_on: [u8; 16],
}

/// Nothing is known.
const ANY: Range = Range { least: 0, most: 16 };

/// Nothing is known of any squares.
pub(crate) const ANY_COUNTS: Counts = Counts {
    all: ANY,
    dark: ANY,
    light: ANY,
    least_on: [0; 16],
};

/// The least number that is known, with what the account's prices refute.
fn raised(query: &Query, account: &Account, side: Colour, squares: Squares, least: u8) -> u8
    requires { IsAccount query.now account.now }
    ensures { Raises side squares query.now account.now.set account.now.prices least result }
{
    least.max(least_count(query, account, side, squares))
}

/// The same of the greatest.
fn lowered(query: &Query, account: &Account, side: Colour, squares: Squares, most: u8) -> u8
    requires { IsAccount query.now account.now }
    ensures { Lowers side squares query.now account.now.set account.now.prices most result }
{
    most.min(most_count(query, account, side, squares))
}

/// Both of these.
fn narrowed(query: &Query, account: &Account, side: Colour, squares: Squares, range: Range) -> Range
    requires { IsAccount query.now account.now }
    ensures { Narrows side squares query.now account.now.set account.now.prices range result }
{
    Range {
        least: raised(query, account, side, squares, range.least),
        most: lowered(query, account, side, squares, range.most),
    }
}

/// The least numbers of captures on each class of squares, with what they refute.
fn raised_on(query: &Query, account: &Account, side: Colour, least_on: [u8; 16]) -> [u8; 16]
    requires { IsAccount query.now account.now }
    ensures { (k : ℕ) → k < 16 → Raises side (Class k) query.now account.now.set account.now.prices (slice_index least_on k) (slice_index result k) }
{
    let mut numbers = [0; 16];
    for k in 0..16 {
        let least = least_on[k as usize];
        numbers[k as usize] = raised(query, account, side, Squares::Class(k), least);
    }
    numbers
}

/// How many captures a side's pawns made, with what they refute.
pub(crate) fn narrowed_counts(
    query: &Query,
    account: &Account,
    side: Colour,
    counts: &Counts,
) -> Counts
    requires { IsAccount query.now account.now }
    ensures { CountsOn side query.now account.now.set account.now.prices counts.now result }
{
    Counts {
        all: narrowed(query, account, side, Squares::All, counts.all),
        dark: narrowed(query, account, side, Squares::Dark, counts.dark),
        light: narrowed(query, account, side, Squares::Light, counts.light),
        least_on: raised_on(query, account, side, counts.least_on),
    }
}
