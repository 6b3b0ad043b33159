use crate::ascents::{Target, seek};
use crate::both::{Books, BothAccounts};
use crate::kept::KeptTerrain;
use arrayvec::ArrayVec;
use board_base::{CastleSet, Colour, Memory, Odds, SquareSet};
use figures::Sketch;
use price_ascent::PriceRow;
use sketch_costs::{Rows, Terrain, Zones, are_begun, greatest_frozen, rows_of, zones_of};
use std::alloc::Global;

/// The most terrains that are kept.
const MOST_TERRAINS: usize = 256;

/// The number of a line is no higher.
const MOST_LINES: usize = 1_000_000;

/// From here on the men cost so little at equal prices that few marks are forced: four captures fewer than there may be.
const FAR_BELOW: i32 = -96;

/// How many lines behind one are tried in its place.
const MOST_BEHIND: u32 = 64;

/// What is kept while sketches are weighed that have the same odds and held rights: lines of prices, numbered from 0, and what was made of
/// walls, zones and lines.
#[derive(Drop)]
pub struct AccountDesk {
    alloc: Global,
    odds: Odds,
    held: CastleSet,
    lines: Vec<PriceRow>,
    terrains: Vec<KeptTerrain>,
}

/// What the account of a sketch stands on: the place of its terrain, the rows of its figures, and what these cost at equal prices, if that
/// was asked.
#[derive(Drop)]
pub struct Basis {
    terrain: usize,
    rows: Rows,
    flat: Option<BothAccounts>,
}

/// What is known of a sketch before it is weighed.
#[derive(Drop)]
pub enum Survey {
    /// A man who never moved isn't the array's.
    Void,
    /// Nothing can be said.
    Unknown,
    /// It can be weighed.
    Known(Basis),
}

impl Basis {
    /// The target for the mark of the figure with this number, counted from 0, if it can be sought: of an officer of this side without one,
    /// or of a pawn if pawns may be sought too.
    pub fn target_of(&self, side: Colour, figure: u8, pawns: bool) -> Option<Target> {
        let rows = self.rows.of(side);
        let row = rows.iter().position(|row| row.figure == figure)?;
        let found = rows.get(row)?;
        if !found.marked && (pawns || !found.is_pawn) {
            Some(Target { side, row })
        } else {
            None
        }
    }
}

impl AccountDesk {
    /// Nothing is kept.
    pub fn new(alloc: Global, odds: Odds, held: CastleSet) -> AccountDesk {
        AccountDesk {
            alloc,
            odds,
            held,
            lines: Vec::new(alloc),
            terrains: Vec::new(alloc),
        }
    }

    /// Adds a line of prices, and gives its number.
    pub fn add_line(&mut self, prices: PriceRow) -> Result<u32, Memory> {
        let number = self.lines.len().min(MOST_LINES) as u32;
        self.lines.push(prices).map_err(|_| Memory)?;
        Ok(number)
    }

    /// The prices of a line.
    pub fn line(&self, number: u32) -> Option<PriceRow> {
        self.lines.get(number as usize).copied()
    }

    /// The place of the terrain beside a wall and zones, which is kept from now on.
    fn place_of(&mut self, wall: SquareSet, zones: Zones) -> Result<usize, Memory> {
        let known = self
            .terrains
            .iter()
            .position(|kept| kept.is_beside(wall, &zones));
        if let Some(place) = known {
            return Ok(place);
        }
        if self.terrains.len() >= MOST_TERRAINS {
            self.terrains.clear();
        }
        let terrain = Terrain::new(self.odds, wall, &zones);
        let kept = KeptTerrain::new(wall, zones, terrain, self.alloc);
        self.terrains.push(kept).map_err(|_| Memory)?;
        Ok(self.terrains.len().saturating_sub(1))
    }

    /// What is known of a sketch before it is weighed.
    pub fn survey(&mut self, sketch: &Sketch) -> Result<Survey, Memory> {
        let wall = greatest_frozen(sketch, self.held);
        if !are_begun(sketch, wall, self.odds) {
            return Ok(Survey::Void);
        }
        let terrain = self.place_of(wall, zones_of(sketch, wall))?;
        let Some(kept) = self.terrains.get(terrain) else {
            return Ok(Survey::Unknown);
        };
        match rows_of(&kept.terrain, sketch, wall) {
            Some(rows) => Ok(Survey::Known(Basis {
                terrain,
                rows,
                flat: None,
            })),
            None => Ok(Survey::Unknown),
        }
    }

    /// The place of the fees at a line of prices among those of the terrain; None if there is no such line or terrain.
    fn fees_place(&mut self, basis: &Basis, line: u32) -> Result<Option<usize>, Memory> {
        let Some(prices) = self.line(line) else {
            return Ok(None);
        };
        match self.terrains.get_mut(basis.terrain) {
            Some(kept) => Ok(Some(kept.place_of(line, &prices)?)),
            None => Ok(None),
        }
    }

    /// What the accounts of both sides are made of at the fees in this place.
    fn books<'a>(&'a self, basis: &'a Basis, place: usize) -> Option<Books<'a>> {
        let kept = self.terrains.get(basis.terrain)?;
        let fees = kept.fees_at(place)?;
        Some(Books {
            terrain: &kept.terrain,
            fees,
            rows: &basis.rows,
        })
    }

    /// Whether the account at a line of prices is above 0.
    pub fn closes(&mut self, basis: &Basis, line: u32) -> Result<bool, Memory> {
        let Some(place) = self.fees_place(basis, line)? else {
            return Ok(false);
        };
        match self.books(basis, place) {
            Some(books) => Ok(BothAccounts::new(books).above() > 0),
            None => Ok(false),
        }
    }

    /// The last line that closes a sketch, as this one does, of up to 64 behind it.
    pub fn last_closing(&mut self, basis: &Basis, line: u32) -> Result<u32, Memory> {
        for more in (1..=MOST_BEHIND).rev() {
            let other = line.saturating_add(more);
            if self.closes(basis, other)? {
                return Ok(other);
            }
        }
        Ok(line)
    }

    /// The numbers, counted from 1 and ascending, of the figures whose marks the account at a line of prices forces.
    pub fn marks(&mut self, basis: &Basis, line: u32) -> Result<ArrayVec<u8, 32>, Memory> {
        let Some(place) = self.fees_place(basis, line)? else {
            return Ok(ArrayVec::new());
        };
        match self.books(basis, place) {
            Some(books) => Ok(BothAccounts::new(books).marks(books)),
            None => Ok(ArrayVec::new()),
        }
    }

    /// What the men cost at equal prices, which is kept.
    fn flat_accounts(&mut self, basis: &mut Basis) -> Option<BothAccounts> {
        if basis.flat.is_none() {
            let kept = self.terrains.get_mut(basis.terrain)?;
            let fees = kept.flat_fees();
            let books = Books {
                terrain: &kept.terrain,
                fees: &fees,
                rows: &basis.rows,
            };
            basis.flat = Some(BothAccounts::new(books));
        }
        basis.flat
    }

    /// By how much the men of a sketch cost more at equal prices than their true homes can.
    pub fn flat_above(&mut self, basis: &mut Basis) -> Option<i32> {
        let flat = self.flat_accounts(basis)?;
        Some(flat.above())
    }

    /// Prices at which the account is above 0, or forces the target's mark, if some are found. What the men cost at equal prices is kept; a
    /// target that costs no more then if its mark is false is given up if they cost far too little.
    pub fn seek(&mut self, basis: &mut Basis, target: Option<Target>) -> Option<PriceRow> {
        let flat = self.flat_accounts(basis)?;
        let kept = self.terrains.get_mut(basis.terrain)?;
        let fees = kept.flat_fees();
        let books = Books {
            terrain: &kept.terrain,
            fees: &fees,
            rows: &basis.rows,
        };
        let accounts = flat.forced(books, target);
        if target.is_some() && flat.above() < FAR_BELOW && accounts.above() <= flat.above() {
            return None;
        }
        seek(books, accounts, target)
    }
}
