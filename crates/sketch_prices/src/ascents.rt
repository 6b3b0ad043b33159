use crate::both::{Books, BothAccounts, row_on};
use crate::kept::BothFees;
use board_base::Colour;
use price_ascent::{PriceRow, Tally, Weighing};
use sketch_costs::Deeds;

/// How often prices are tried.
const ROUNDS: u32 = 100;

/// The greatest shortfall that is told.
const MOST_SHORT: i32 = 100_000;

/// The figure whose mark is to be forced: its side, and the number of its row.
#[derive(Clone, Copy)]
pub struct Target {
    /// The side that has the figure.
    pub side: Colour,
    /// The number of its row among those of the side, from 0.
    pub row: usize,
}

/// How often each price is paid and earned by the men of both sides.
#[derive(Clone, Copy)]
struct BothTallies {
    white: Tally,
    black: Tally,
}

/// By how much the figures fall short of the bound.
fn shortfall(above: i32) -> u32 {
    if above >= 0 {
        0
    } else if above < -MOST_SHORT {
        100_000
    } else {
        (0 - above) as u32
    }
}

/// What the men of a side did.
fn deeds(books: Books<'_>, accounts: &BothAccounts, target: Option<Target>, side: Colour) -> Deeds {
    Deeds::new(
        books.terrain.of(side),
        books.fees.of(side),
        books.rows.of(side),
        accounts.of(side),
        row_on(target, side),
    )
}

/// How often each price is paid and earned, if so much is owed on the places of captures.
fn tallies(
    books: Books<'_>,
    accounts: &BothAccounts,
    target: Option<Target>,
    owed: &[i32; 32],
) -> BothTallies {
    let white = deeds(books, accounts, target, Colour::White);
    let black = deeds(books, accounts, target, Colour::Black);
    BothTallies {
        white: white.with_fallen(&black.needs(owed)),
        black: black.with_fallen(&white.needs(owed)),
    }
}

/// Prices at which the figures cost more than their true homes can, or do so if what a mark of the target would say is false, if the ascent
/// from equal prices finds some. The fees of the books are those at equal prices, and so are the accounts, with the target forced. It ends where
/// the tallies on its way show that there are none.
pub(crate) fn seek(
    books: Books<'_>,
    flat: BothAccounts,
    target: Option<Target>,
) -> Option<PriceRow> {
    let mut prices = PriceRow::flat();
    let mut fees = *books.fees;
    let mut accounts = flat;
    let mut weighing = Weighing::new();
    for _ in 0..ROUNDS {
        if accounts.above() > 0 {
            return Some(prices);
        }
        let now = Books {
            fees: &fees,
            ..books
        };
        let BothTallies { white, black } = tallies(now, &accounts, target, &weighing.needs());
        weighing.add(&white, &black);
        if weighing.weigh() {
            return None;
        }
        prices.climb(&white, &black, shortfall(accounts.above()));
        fees = BothFees::new(books.terrain, &prices);
        accounts = accounts.next(
            Books {
                fees: &fees,
                ..books
            },
            target,
        );
    }
    None
}
