use crate::children::Setting;
use crate::fingerprints::{Fingerprint, fingerprint_of};
use crate::limits::Limits;
use crate::marking::Marking;
use arrayvec::ArrayVec;
use board_base::{Memory, Square};
use byte_hash::ByteHasher;
use figures::Sketch;
use indexmap::IndexMap;
use price_ascent::PriceRow;
use sketch_prices::AccountDesk;
use std::alloc::Global;
use std::hash::BuildHasherDefault;

/// The most sketches of which it is noted what was found.
const MOST_NOTED: usize = 262_144;

/// How a node ends that is refuted.
#[derive(Clone, Copy)]
pub enum Close {
    /// A man who never moved isn't the array's.
    Void,
    /// By this line of prices.
    Priced(u32),
    /// Each of its steps is refuted.
    Steps,
    /// So is each case of the man on a square.
    Split(Square),
}

/// Why no game comes to a sketch: the lines that mark figures, and how the node ends with these marks.
#[derive(Clone, Copy)]
pub struct Reason {
    /// The lines that mark figures, one after another.
    pub marking: Marking,
    /// How the node ends with these marks.
    pub close: Close,
}

/// What was found of sketches; None if they weren't refuted.
type Found = IndexMap<Fingerprint, Option<Reason>, BuildHasherDefault<ByteHasher>>;

/// A search for a tree: what it has found, and how much it has looked at.
#[derive(Drop)]
pub struct Search {
    pub(crate) alloc: Global,
    /// What steps depend on.
    pub setting: Setting,
    /// How far it goes.
    pub limits: Limits,
    /// The lines of prices, and what they close and force.
    pub accounts: AccountDesk,
    /// The lines of prices that closed something lately, the last one first.
    pool: ArrayVec<u32, 12>,
    found: Found,
    /// How many sketches were looked at that weren't closed at once.
    pub states: u32,
    /// How often prices were sought.
    pub ascents: u32,
}

impl Search {
    /// A search that has found nothing yet.
    pub fn new(alloc: Global, setting: Setting, limits: Limits) -> Search {
        Search {
            alloc,
            setting,
            limits,
            accounts: AccountDesk::new(alloc, setting.odds, setting.held),
            pool: ArrayVec::new(),
            found: IndexMap::with_hasher(alloc, BuildHasherDefault::new()),
            states: 0,
            ascents: 0,
        }
    }

    /// Puts a line to the front of the pool.
    pub(crate) fn put_first(&mut self, line: u32) {
        let mut pool = ArrayVec::new();
        let _ = pool.try_push(line);
        for other in self.pool.iter() {
            if *other != line {
                let _ = pool.try_push(*other);
            }
        }
        self.pool = pool;
    }

    /// Adds a line of prices, which stands at the front of the pool.
    pub fn add_line(&mut self, prices: PriceRow) -> Result<u32, Memory> {
        let line = self.accounts.add_line(prices)?;
        self.put_first(line);
        Ok(line)
    }

    /// The lines of the pool: those that closed something lately, the last one first.
    pub fn pool_lines(&self) -> ArrayVec<u32, 12> {
        let mut lines = ArrayVec::new();
        for line in self.pool.iter() {
            let _ = lines.try_push(*line);
        }
        lines
    }

    /// Notes what was found of a sketch: how its node ends with the marks of these lines, if it is refuted.
    fn note(
        &mut self,
        sketch: &Sketch,
        marking: Marking,
        close: Option<Close>,
    ) -> Result<(), Memory> {
        if self.found.len() >= MOST_NOTED {
            return Ok(());
        }
        let reason = match close {
            Some(close) => Some(Reason { marking, close }),
            None => None,
        };
        match self.found.insert(fingerprint_of(sketch), reason) {
            Ok(_) => Ok(()),
            Err(_) => Err(Memory),
        }
    }

    /// Notes that a sketch is refuted.
    pub(crate) fn note_refuted(
        &mut self,
        sketch: &Sketch,
        marking: Marking,
        close: Close,
    ) -> Result<(), Memory> {
        self.note(sketch, marking, Some(close))
    }

    /// Notes that a sketch wasn't refuted.
    pub(crate) fn note_failed(&mut self, sketch: &Sketch) -> Result<(), Memory> {
        self.note(sketch, Marking::new(), None)
    }

    /// Whether a sketch is known, and then whether it is refuted.
    pub(crate) fn known(&self, sketch: &Sketch) -> Option<bool> {
        let reason = self.found.get(&fingerprint_of(sketch))?;
        Some(reason.is_some())
    }

    /// Why no game comes to a sketch, as far as that was found.
    pub fn reason_of(&self, sketch: &Sketch) -> Option<Reason> {
        match self.found.get(&fingerprint_of(sketch)) {
            Some(reason) => *reason,
            None => None,
        }
    }
}
