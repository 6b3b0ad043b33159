use board_base::{Colour, Memory, SquareSet};
use price_ascent::PriceRow;
use sketch_costs::{Fees, Terrain, Zones};
use std::alloc::Global;

/// For how many lines of prices the fees are kept of each terrain.
const MOST_FEES: usize = 16;

/// What the men of both sides cost at some prices.
#[derive(Clone, Copy)]
pub(crate) struct BothFees {
    pub(crate) white: Fees,
    pub(crate) black: Fees,
    /// The sum of the gates.
    pub(crate) gates: i32,
}

/// The same at a line of prices.
#[derive(Clone, Copy)]
struct KeptFees {
    line: u32,
    fees: BothFees,
}

/// A terrain, with the fees at some lines of prices.
#[derive(Drop)]
pub(crate) struct KeptTerrain {
    wall: SquareSet,
    zones: Zones,
    pub(crate) terrain: Terrain,
    fees: Vec<KeptFees>,
    /// Those at equal prices, with which each ascent begins.
    flat: Option<BothFees>,
}

impl BothFees {
    /// What they cost at these prices.
    pub(crate) fn new(terrain: &Terrain, prices: &PriceRow) -> BothFees {
        BothFees {
            white: Fees::new(&terrain.white, prices),
            black: Fees::new(&terrain.black, prices),
            gates: prices.gate_sum(),
        }
    }

    /// Those of a side.
    pub(crate) fn of(&self, side: Colour) -> &Fees {
        match side {
            Colour::White => &self.white,
            Colour::Black => &self.black,
        }
    }
}

impl KeptTerrain {
    /// A terrain beside a wall and zones, with no fees yet.
    pub(crate) fn new(
        wall: SquareSet,
        zones: Zones,
        terrain: Terrain,
        alloc: Global,
    ) -> KeptTerrain {
        KeptTerrain {
            wall,
            zones,
            terrain,
            fees: Vec::new(alloc),
            flat: None,
        }
    }

    /// Whether it is the terrain beside this wall and these zones.
    pub(crate) fn is_beside(&self, wall: SquareSet, zones: &Zones) -> bool {
        self.wall.bits() == wall.bits() && self.zones.is_same(zones)
    }

    /// The fees in this place.
    pub(crate) fn fees_at(&self, place: usize) -> Option<&BothFees> {
        match self.fees.get(place) {
            Some(kept) => Some(&kept.fees),
            None => None,
        }
    }

    /// The place of the fees at a line of prices, which are kept from now on.
    pub(crate) fn place_of(&mut self, line: u32, prices: &PriceRow) -> Result<usize, Memory> {
        if let Some(place) = self.fees.iter().position(|fees| fees.line == line) {
            return Ok(place);
        }
        if self.fees.len() >= MOST_FEES {
            self.fees.clear();
        }
        let fees = BothFees::new(&self.terrain, prices);
        self.fees.push(KeptFees { line, fees }).map_err(|_| Memory)?;
        Ok(self.fees.len().saturating_sub(1))
    }

    /// The fees at equal prices, which are kept from now on.
    pub(crate) fn flat_fees(&mut self) -> BothFees {
        match self.flat {
            Some(fees) => fees,
            None => {
                let fees = BothFees::new(&self.terrain, &PriceRow::flat());
                self.flat = Some(fees);
                fees
            }
        }
    }
}
