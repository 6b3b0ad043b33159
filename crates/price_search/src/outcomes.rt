use crate::costs::{SideMen, cost_rows};
use crate::flat_grounds::Homes;
use crate::homes::least_homes;
use crate::lands::{Land, Lands};
use crate::places::free_on;
use crate::tallies::{Deeds, Tally, deeds_of};
use crate::ways::{AllWays, Rates};
use board_base::Colour;

/// The men of both sides, and what is known beside the set.
#[derive(Clone, Copy)]
pub(crate) struct Men {
    pub(crate) lands: Lands,
    pub(crate) white: SideMen,
    pub(crate) black: SideMen,
}

/// What prices came to: how much the men cost, how often each price is paid and earned at that cost, and their homes.
#[derive(Clone, Copy)]
pub(crate) struct Outcome {
    pub(crate) cost: u32,
    pub(crate) white: Tally,
    pub(crate) black: Tally,
    pub(crate) homes: Homes,
}

/// What the men of a side cost and did at the least cost, and their homes.
#[derive(Clone, Copy)]
struct SideOutcome {
    cost: u32,
    deeds: Deeds,
    homes: [u8; 16],
    /// The enemy's prices by classes.
    enemy: [u8; 16],
}

/// By how much each price is paid more often than it is earned and is free.
pub(crate) fn slopes(white: &Tally, black: &Tally) -> [i32; 96] {
    let mut all = [0; 96];
    for k in 0..96 {
        all[k] = i32::from(white.times[k])
            .wrapping_add(i32::from(black.times[k]))
            .wrapping_sub(free_on(k));
    }
    all
}

/// The places of homes in ascending order of their squares, by their numbers.
fn places_of(side: Colour, numbers: &[u8; 16]) -> [u8; 16] {
    let mut places = *numbers;
    if side == Colour::Black {
        for place in &mut places {
            *place = 15u8.wrapping_sub(*place);
        }
    }
    places
}

/// What the men of one side cost and did at these prices.
fn side_outcome(land: &Land, men: &SideMen, prices: &[u8; 96]) -> SideOutcome {
    let rates = Rates::of(land, prices);
    let ways = AllWays::of(land, &rates, prices);
    let rows = cost_rows(land, men, &rates, &ways);
    let numbers = least_homes(&rows, men.begun, land.side);
    let mut cost = 0u32;
    for i in 0..16 {
        if i < men.begun {
            cost = cost.wrapping_add(u32::from(rows[i][numbers[i] as usize % 16]));
        }
    }
    SideOutcome {
        cost,
        deeds: deeds_of(land, men, &rates, &ways, &numbers),
        homes: places_of(land.side, &numbers),
        enemy: rates.enemy,
    }
}

/// What the men of both sides cost and did at these prices, if so much is owed on the places of captures.
pub(crate) fn outcome_of(men: &Men, prices: &[u8; 96], owed: &[i32; 32]) -> Outcome {
    let white = side_outcome(&men.lands.white, &men.white, prices);
    let black = side_outcome(&men.lands.black, &men.black, prices);
    let black_needs = black.deeds.needs(Colour::Black, owed);
    let white_needs = white.deeds.needs(Colour::White, owed);
    Outcome {
        cost: white.cost.wrapping_add(black.cost),
        white: white
            .deeds
            .with_fallen(Colour::Black, &white.enemy, &black_needs),
        black: black
            .deeds
            .with_fallen(Colour::White, &black.enemy, &white_needs),
        homes: Homes {
            white: white.homes,
            black: black.homes,
        },
    }
}
