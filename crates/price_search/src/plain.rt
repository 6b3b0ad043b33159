ghost use Rattle.std.specs.Prelude.{◌<◌, ◌≤◌};

use crate::ascent::{most_at, prices_at};
use crate::outcomes::{Men, Outcome, outcome_of, slopes};
use crate::payers::Payers;
use crate::places::place_of_gate;
use crate::tallies::Tally;
use arrayvec::ArrayVec;
use board_base::{Colour, Square, SquareSet};
use capture_prices::Prices;

/// The most changes of a base.
const MOST_CHANGES: u8 = 3;

/// How many prices are looked at from each base with each number of changes.
const MOST_LOOKS: u32 = 400;

/// How often prices are tried on the men.
const MOST_TRIALS: u32 = 24;

/// A change of prices: those on some places, at even steps, become this price.
#[derive(Clone, Copy, Default)]
struct Change {
    first: u8,
    step: u8,
    count: u8,
    price: u8,
    /// The file of a gate, as a bit; none if captures have the price.
    gated: u8,
}

/// Changes that aren't to be made, by their numbers.
#[derive(Clone, Copy)]
struct Banned {
    each: [bool; 160],
}

/// So much was looked at that the search ends.
#[derive(Drop)]
struct Spent;

/// A search for plain prices. What the men of each side did at prices that were tried bounds what they cost at all others.
#[derive(Drop)]
struct PlainSearch {
    men: Men,
    /// What the true homes of all men cost at most without gates.
    base: u32,
    white_tallies: ArrayVec<Tally, 24>,
    black_tallies: ArrayVec<Tally, 24>,
    changes: ArrayVec<Change, 160>,
    looks: u32,
    trials: u32,
}

/// What these slopes come to at prices.
fn worth(slopes: &[i32; 96], prices: &[u8; 96]) -> i32 {
    let mut sum = 0i32;
    for (slope, price) in slopes.iter().zip(prices) {
        sum = sum.wrapping_add(slope.wrapping_mul(i32::from(*price)));
    }
    sum
}

/// What a tally comes to at prices.
fn paid(tally: &Tally, prices: &[u8; 96]) -> i32 {
    let mut sum = 0i32;
    for (times, price) in tally.times.iter().zip(prices) {
        sum = sum.wrapping_add(i32::from(*times).wrapping_mul(i32::from(*price)));
    }
    sum
}

/// The first of the tallies that come to the least at prices.
fn cheapest(tallies: &[Tally], prices: &[u8; 96]) -> Option<Tally> {
    let mut best = None;
    let mut least = i32::MAX;
    for tally in tallies {
        let sum = paid(tally, prices);
        if sum < least {
            best = Some(*tally);
            least = sum;
        }
    }
    best
}

impl Change {
    /// A gate on a square.
    fn gate(s: Square, toll: u8) -> Change {
        Change {
            first: place_of_gate(s) as u8,
            step: 1,
            count: 1,
            price: toll,
            gated: 1 << (s.file() % 8),
        }
    }

    /// The price of a side's captures on the squares of one shade; 0 is dark.
    fn shade(side: Colour, shade: u8, price: u8) -> Change {
        Change {
            first: first_of(side).wrapping_add(shade),
            step: 2,
            count: 8,
            price,
            gated: 0,
        }
    }

    /// The price of a side's captures on a file.
    fn file(side: Colour, file: u8, price: u8) -> Change {
        Change {
            first: first_of(side).wrapping_add(file.wrapping_mul(2)),
            step: 1,
            count: 2,
            price,
            gated: 0,
        }
    }

    /// The places of the prices that it changes.
    fn place(&self, n: u8) -> usize {
        self.first.wrapping_add(self.step.wrapping_mul(n)) as usize
    }

    /// By how much more the slopes come to with it.
    fn gain(&self, slopes: &[i32; 96], prices: &[u8; 96]) -> i32 {
        let mut sum = 0i32;
        for n in 0..self.count {
            let k = self.place(n);
            if k < 96 {
                let more = i32::from(self.price).wrapping_sub(i32::from(prices[k]));
                sum = sum.wrapping_add(slopes[k].wrapping_mul(more));
            }
        }
        sum
    }

    /// The prices with it.
    fn made(&self, prices: &[u8; 96]) -> [u8; 96] {
        let mut all = *prices;
        for n in 0..self.count {
            if let Some(price) = all.get_mut(self.place(n)) {
                *price = self.price;
            }
        }
        all
    }

    /// Whether it changes the price of this side's captures.
    fn is_of(&self, side: Colour) -> bool {
        let first = first_of(side);
        self.gated == 0 && first <= self.first && self.first < first + 16
    }
}

/// The first place of a side's prices for captures.
fn first_of(side: Colour) -> u8
    ensures { result ≤ 16 }
{
    match side {
        Colour::White => 0,
        Colour::Black => 16,
    }
}

/// Whether both pawns of a file began outside the set.
fn is_open_file(set: SquareSet, file: u8) -> bool
    requires { file < 8 }
{
    !set.has(Square::known(8 + file)) && !set.has(Square::known(48 + file))
}

/// All changes: gates on the squares that two pawns may tread, then captures on a shade or a file that are free, then those that count
/// twice.
fn all_changes(set: SquareSet) -> ArrayVec<Change, 160> {
    let mut changes = ArrayVec::new();
    add_gates(set, &mut changes);
    for side in [Colour::White, Colour::Black] {
        for shade in 0..2 {
            let _ = changes.try_push(Change::shade(side, shade, 0));
        }
    }
    add_files(0, &mut changes);
    add_files(2, &mut changes);
    changes
}

/// Adds the gates, by squares.
fn add_gates(set: SquareSet, changes: &mut ArrayVec<Change, 160>) {
    for i in 8..56 {
        let s = Square::known(i);
        if is_open_file(set, i % 8) && !set.has(s) {
            let _ = changes.try_push(Change::gate(s, 1));
            let _ = changes.try_push(Change::gate(s, 2));
        }
    }
}

/// Adds this price for the captures of each side on each file.
fn add_files(price: u8, changes: &mut ArrayVec<Change, 160>) {
    for side in [Colour::White, Colour::Black] {
        for file in 0..8 {
            let _ = changes.try_push(Change::file(side, file, price));
        }
    }
}

/// The prices from which changes are made: 1 for each capture of those who pay.
fn base_of(payers: Payers) -> [u8; 96] {
    let mut prices = [0; 96];
    for k in 0..32 {
        prices[k] = match payers {
            Payers::Both => 1,
            Payers::WhiteAlone => (k < 16) as u8,
            Payers::BlackAlone => (k >= 16) as u8,
        };
    }
    prices
}

impl PlainSearch {
    /// Nothing has been tried of these men beside a set.
    fn new(men: &Men, set: SquareSet, base: u32) -> PlainSearch {
        PlainSearch {
            changes: all_changes(set),
            men: *men,
            base,
            white_tallies: ArrayVec::new(),
            black_tallies: ArrayVec::new(),
            looks: 0,
            trials: 0,
        }
    }

    /// The slopes of the cheapest account that was seen, if these prices don't do by it.
    fn seen(&self, prices: &[u8; 96]) -> Option<[i32; 96]> {
        let white = cheapest(self.white_tallies.as_slice(), prices)?;
        let black = cheapest(self.black_tallies.as_slice(), prices)?;
        let all = slopes(&white, &black);
        if worth(&all, prices) < 1 {
            Some(all)
        } else {
            None
        }
    }

    /// What the men cost and did at these prices.
    fn tried(&mut self, prices: &[u8; 96]) -> Result<Outcome, Spent> {
        if self.trials >= MOST_TRIALS {
            return Err(Spent);
        }
        self.trials += 1;
        Ok(outcome_of(&self.men, prices, &[0; 32]))
    }

    /// The slopes of an account at which these prices don't do; None if they do.
    fn account_against(&mut self, prices: &[u8; 96]) -> Result<Option<[i32; 96]>, Spent> {
        if let Some(all) = self.seen(prices) {
            return Ok(Some(all));
        }
        let outcome = self.tried(prices)?;
        if most_at(self.base, prices) < outcome.cost {
            return Ok(None);
        }
        let _ = self.white_tallies.try_push(outcome.white);
        let _ = self.black_tallies.try_push(outcome.black);
        Ok(Some(slopes(&outcome.white, &outcome.black)))
    }

    /// Prices that do and differ from these by at most so many changes: none that is banned, and at most one gate on a file.
    fn look(
        &mut self,
        prices: &[u8; 96],
        left: u8,
        banned: &Banned,
        gated: u8,
    ) -> Result<Option<[u8; 96]>, Spent> {
        if self.looks >= MOST_LOOKS {
            return Err(Spent);
        }
        self.looks += 1;
        let Some(slopes) = self.account_against(prices)? else {
            return Ok(Some(*prices));
        };
        if left == 0 {
            return Ok(None);
        }
        let lacking = 1i32.wrapping_sub(worth(&slopes, prices));
        let mut banned = *banned;
        for number in 0..160 {
            let Some(change) = self.changes.as_slice().get(number) else {
                break;
            };
            let change = *change;
            let gain = change.gain(&slopes, prices);
            let useless = gain <= 0 || (left == 1 && gain < lacking);
            if useless || banned.each[number] || change.gated & gated != 0 {
                continue;
            }
            let with = change.made(prices);
            let found = self.look(&with, left - 1, &banned, gated | change.gated)?;
            if found.is_some() {
                return Ok(found);
            }
            banned.each[number] = true;
        }
        Ok(None)
    }

    /// The changes of captures that aren't paid for if these pay.
    fn unpaid(&self, payers: Payers) -> Banned {
        let mut banned = Banned { each: [false; 160] };
        for (is_banned, change) in banned.each.iter_mut().zip(self.changes.as_slice()) {
            *is_banned = match payers {
                Payers::Both => false,
                Payers::WhiteAlone => change.is_of(Colour::Black),
                Payers::BlackAlone => change.is_of(Colour::White),
            };
        }
        banned
    }

    /// Prices that do and differ from a base by so many changes at most, if they are found.
    fn look_from(&mut self, payers: Payers, most: u8) -> Option<Prices> {
        self.looks = 0;
        let banned = self.unpaid(payers);
        match self.look(&base_of(payers), most, &banned, 0) {
            Ok(Some(prices)) => prices_at(&prices),
            _ => None,
        }
    }
}

/// Plain prices at which the men cost more than their true homes can, with as few changes of a base as are found: each capture by a pawn
/// of one side or of both counts once, but for at most three changes. Captures on a shade or a file are free or count twice, or there is a gate
/// of one or two. So much is what the true homes cost at most without gates.
pub(crate) fn seek_plain(men: &Men, set: SquareSet, base: u32) -> Option<Prices> {
    let mut search = PlainSearch::new(men, set, base);
    for most in 0..=MOST_CHANGES {
        for payers in [Payers::BlackAlone, Payers::WhiteAlone, Payers::Both] {
            let found = search.look_from(payers, most);
            if found.is_some() {
                return found;
            }
        }
    }
    None
}
