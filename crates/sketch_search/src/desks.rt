use board_base::{Memory, Odds};
use byte_hash::ByteHasher;
use indexmap::IndexMap;
use price_ascent::PriceRow;
use sketch_trees::{Fingerprint, Limits, Search};
use std::alloc::Global;
use std::hash::BuildHasherDefault;

/// How many lines of prices are kept from one search to the next.
const MOST_KEPT: usize = 8;

/// Of how many closed sketches it is kept that nothing was found.
const MOST_FAILED: usize = 16_384;

/// How many sketches that aren't closed at once may have been looked at in vain until thrifty searches look at none.
const MOST_STATES: u64 = 400;

/// How often prices may have been sought in vain until then.
const MOST_ASCENTS: u64 = 400;

/// How many sketches a search might look at that found nothing from the closed one.
type Failures = IndexMap<Fingerprint, u32, BuildHasherDefault<ByteHasher>>;

/// What is kept from one search to the next: prices that closed something lately, from which closed sketches nothing was found, and how much
/// was looked at.
#[derive(Drop)]
pub struct SketchDesk {
    alloc: Global,
    prices: Vec<PriceRow>,
    failures: Failures,
    /// The men who were left out of the array when these failed.
    odds: Odds,
    states: u64,
    /// How many of these were looked at by searches that found nothing, and how often those sought prices.
    vain_states: u64,
    vain_ascents: u64,
}

/// What is left of so many, at most 1,000, if so many are gone.
fn left(most: u64, gone: u64) -> u32 {
    most.saturating_sub(gone).min(1_000) as u32
}

impl SketchDesk {
    /// Nothing is kept.
    pub fn new(alloc: Global) -> SketchDesk {
        SketchDesk {
            alloc,
            prices: Vec::new(alloc),
            failures: IndexMap::with_hasher(alloc, BuildHasherDefault::new()),
            odds: Odds::none(),
            states: 0,
            vain_states: 0,
            vain_ascents: 0,
        }
    }

    /// How many sketches all searches have looked at that weren't closed at once.
    pub fn states(&self) -> u64 {
        self.states
    }

    /// The limits, or for thrifty searches what is left of them.
    pub(crate) fn left_of(&self, limits: Limits) -> Limits {
        let mut rest = limits;
        if limits.thrifty {
            rest.states = limits.states.min(left(MOST_STATES, self.vain_states));
            rest.ascents = limits.ascents.min(left(MOST_ASCENTS, self.vain_ascents));
        }
        rest
    }

    /// Whether searches within these limits look at no sketch any more.
    pub(crate) fn is_spent(&self, limits: Limits) -> bool {
        let rest = self.left_of(limits);
        limits.thrifty && (rest.states == 0 || rest.ascents == 0)
    }

    /// Whether nothing was found from a closed sketch at these odds within limits as wide.
    pub(crate) fn has_failed(&self, wide: Fingerprint, odds: Odds, limits: Limits) -> bool {
        let states = match self.failures.get(&wide) {
            Some(states) => *states,
            None => 0,
        };
        limits.thrifty && self.odds.is_same(odds) && limits.states <= states
    }

    /// Notes that nothing was found from a closed sketch at these odds within these limits.
    pub(crate) fn note_failed(
        &mut self,
        wide: Fingerprint,
        odds: Odds,
        limits: Limits,
    ) -> Result<(), Memory> {
        if !self.odds.is_same(odds) || self.failures.len() >= MOST_FAILED {
            self.failures = IndexMap::with_hasher(self.alloc, BuildHasherDefault::new());
            self.odds = odds;
        }
        match self.failures.insert(wide, limits.states) {
            Ok(_) => Ok(()),
            Err(_) => Err(Memory),
        }
    }

    /// Counts what a search looked at that found something or not.
    pub(crate) fn count(&mut self, search: &Search, found: bool) {
        let states = u64::from(search.states);
        self.states = self.states.saturating_add(states);
        if !found {
            self.vain_states = self.vain_states.saturating_add(states);
            self.vain_ascents = self.vain_ascents.saturating_add(u64::from(search.ascents));
        }
    }

    /// Keeps the prices that a search used last.
    pub(crate) fn keep(&mut self, search: &Search) -> Result<(), Memory> {
        self.prices.clear();
        let lines = search.pool_lines();
        for line in lines.iter() {
            if let Some(prices) = search.accounts.line(*line) {
                if self.prices.len() < MOST_KEPT {
                    self.prices.push(prices).map_err(|_| Memory)?;
                }
            }
        }
        Ok(())
    }

    /// Gives a search the prices that are kept, those that were used last first.
    pub(crate) fn lend(&self, search: &mut Search) -> Result<(), Memory> {
        for prices in self.prices.iter().rev() {
            search.add_line(*prices)?;
        }
        Ok(())
    }
}
