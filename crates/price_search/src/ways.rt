ghost use Rattle.std.specs.Prelude.{◌<◌};

use crate::lands::{Classes, Home, Land, NOWHERE, Rank};
use crate::places::place_of;
use board_base::Colour;

/// What is added to each cost.
pub(crate) const BASE: u16 = 96;

/// What a side pays and earns at some prices. Ranks and files are counted as the side sees the board.
#[derive(Drop)]
pub(crate) struct Rates {
    /// What a capture costs on the even ranks, and what it costs on the odd ones.
    take: [Rank; 2],
    /// What a man earns who is taken on each rank.
    earned: [Rank; 8],
    /// What a man earns at most who was promoted on each file.
    pub(crate) after: Rank,
    /// The enemy's prices by classes.
    pub(crate) enemy: [u8; 16],
}

/// What the ways of a pawn cost at least at some prices, by the ranks and files on which they end.
#[derive(Clone, Copy)]
pub(crate) struct Ways {
    /// The gates of the way on which he captures nowhere, by ranks.
    pub(crate) straight: Rank,
    /// The fees of those on which he captures somewhere.
    pub(crate) aside: [Rank; 8],
    /// What it costs that he is gone.
    pub(crate) gone: u16,
}

/// The ways of each pawn that began outside the set, by his file.
#[derive(Drop)]
pub(crate) struct AllWays {
    pub(crate) each: [Ways; 8],
    /// What each pawn's least way to the last rank costs, by the file on which it ends and then by his own.
    pub(crate) promoted: [Rank; 8],
}

/// The class of the squares of a file on even or on odd ranks, as a side sees the board.
pub(crate) fn class_at(side: Colour, rank: usize, file: usize) -> usize
    requires rank { rank < 8 }
    requires file { file < 8 }
    ensures { result < 16 }
{
    let shade = (rank + file) % 2;
    match side {
        Colour::White => 2 * file + shade,
        Colour::Black => 2 * (7 - file) + shade,
    }
}

/// The prices of a side's captures on a rank, as another side sees it.
fn rank_prices(prices: &[u8; 96], payer: Colour, side: Colour, rank: usize) -> Rank
    requires { rank < 8 }
{
    let mut all = [0; 8];
    for g in 0..8 {
        all[g] = u16::from(prices[place_of(payer, class_at(side, rank, g))]);
    }
    all
}

/// These numbers, with the bits alone that others have.
fn masked(numbers: &Rank, bits: &Rank) -> Rank {
    let mut all = *numbers;
    for g in 0..8 {
        all[g] &= bits[g];
    }
    all
}

/// The greatest of these numbers of classes.
pub(crate) fn greatest_on(numbers: &[u8; 16], classes: &Classes) -> u16 {
    let mut most = 0;
    for class in 0..16 {
        most = most.max(numbers[class] & classes[class]);
    }
    u16::from(most)
}

/// The prices of a side's captures by classes.
pub(crate) fn prices_of(prices: &[u8; 96], side: Colour) -> [u8; 16] {
    let mut all = [0; 16];
    for class in 0..16 {
        all[class] = prices[place_of(side, class)];
    }
    all
}

impl Rates {
    /// What the side pays and earns at these prices.
    pub(crate) fn of(land: &Land, prices: &[u8; 96]) -> Rates {
        let side = land.side;
        let other = side.other();
        let enemy = prices_of(prices, other);
        let mut after = [0; 8];
        let mut earned = [[0; 8]; 8];
        let shades = [
            rank_prices(prices, other, side, 0),
            rank_prices(prices, other, side, 1),
        ];
        for i in 0..8 {
            after[i] = greatest_on(&enemy, &land.promoted[i]);
            earned[i] = masked(&shades[i % 2], &land.exposed[i]);
        }
        Rates {
            take: [
                rank_prices(prices, side, side, 0),
                rank_prices(prices, side, side, 1),
            ],
            earned,
            after,
            enemy,
        }
    }

    /// What a capture costs on a rank, by files.
    pub(crate) fn take_on(&self, rank: usize) -> &Rank {
        &self.take[rank % 2]
    }

    /// What a man earns who is taken on a rank, by files.
    pub(crate) fn earned_on(&self, rank: usize) -> &Rank {
        &self.earned[rank % 8]
    }
}

/// The fees of the ways to a rank on which a pawn captures somewhere, from those of all ways to the rank behind it, and from its own
/// there.
fn next_aside(fees: &Rank, behind: &Rank, take: &Rank, walls: &Rank) -> Rank {
    let mut all = [NOWHERE; 8];
    for g in 0..8 {
        let left = if g > 0 { fees[g - 1] } else { NOWHERE };
        let right = if g < 7 { fees[g + 1] } else { NOWHERE };
        let aside = left.min(right).wrapping_add(take[g]);
        all[g] = aside.min(behind[g]).min(NOWHERE).max(walls[g]);
    }
    all
}

/// Lowers these costs of men who are gone to what it costs with ways that end on another rank.
fn lower(costs: &mut Rank, ways: &Rank, earned: &Rank) {
    for g in 0..8 {
        costs[g] = costs[g].min(ways[g].wrapping_add(BASE).wrapping_sub(earned[g]));
    }
}

/// The least of these numbers, at most `NOWHERE`.
fn least_of(numbers: &Rank) -> u16 {
    let mut least = NOWHERE;
    for x in numbers {
        least = least.min(*x);
    }
    least
}

impl Ways {
    /// There are no ways.
    fn none() -> Ways {
        Ways {
            straight: [NOWHERE; 8],
            aside: [[NOWHERE; 8]; 8],
            gone: NOWHERE,
        }
    }

    /// The least fees of all ways of the pawn of a file to a rank: nothing if he needs no capture.
    pub(crate) fn fees(&self, file: usize, rank: usize) -> Rank
        requires file { file < 8 }
        requires rank { rank < 8 }
    {
        let mut fees = self.aside[rank];
        if self.straight[rank] < NOWHERE {
            fees[file] = 0;
        }
        fees
    }

    /// What all ways of the pawn of a file to a rank cost at least.
    pub(crate) fn tolls(&self, file: usize, rank: usize) -> Rank
        requires file { file < 8 }
        requires rank { rank < 8 }
    {
        let mut tolls = self.aside[rank];
        tolls[file] = tolls[file].min(self.straight[rank]);
        tolls
    }

    /// The least fee of all ways of the pawn of a file to a square.
    pub(crate) fn fee(&self, own: usize, rank: usize, file: usize) -> u16
        requires rank { rank < 8 }
        requires file { file < 8 }
    {
        if file == own && self.straight[rank] < NOWHERE {
            0
        } else {
            self.aside[rank][file]
        }
    }

    /// What all ways of the pawn of a file to a square cost at least.
    pub(crate) fn toll(&self, own: usize, rank: usize, file: usize) -> u16
        requires rank { rank < 8 }
        requires file { file < 8 }
    {
        if file == own {
            self.straight[rank].min(self.aside[rank][file])
        } else {
            self.aside[rank][file]
        }
    }

    /// Adds the ways of the pawn of a file to a rank, from those to the rank behind it.
    fn add_rank(&mut self, land: &Land, rates: &Rates, file: usize, rank: usize, gate: u16)
        requires file { file < 8 }
        requires behind { 0 < rank }
        requires rank { rank < 8 }
    {
        let walls = &land.walls[rank];
        let fees = self.fees(file, rank - 1);
        self.aside[rank] = next_aside(&fees, &self.aside[rank - 1], rates.take_on(rank), walls);
        let straight = self.straight[rank - 1].wrapping_add(gate);
        self.straight[rank] = straight.max(walls[file]).min(NOWHERE);
    }

    /// The ways of the pawn of a file.
    fn of(land: &Land, rates: &Rates, prices: &[u8; 96], file: usize) -> Ways
        requires { file < 8 }
    {
        let mut ways = Ways::none();
        let mut costs = [NOWHERE; 8];
        ways.straight[1] = gate_at(land, prices, 1, file);
        for rank in 2..8 {
            lower(
                &mut costs,
                &ways.fees(file, rank - 1),
                rates.earned_on(rank - 1),
            );
            ways.add_rank(land, rates, file, rank, gate_at(land, prices, rank, file));
        }
        lower(&mut costs, &ways.tolls(file, 7), &rates.after);
        ways.gone = least_of(&costs);
        ways
    }
}

/// The gate of the square on a rank and a file.
fn gate_at(land: &Land, prices: &[u8; 96], rank: usize, file: usize) -> u16
    requires rank { rank < 8 }
    requires file { file < 8 }
{
    u16::from(prices[32 + land.square(rank, file)])
}

impl AllWays {
    /// The ways of each pawn of the side at these prices.
    pub(crate) fn of(land: &Land, rates: &Rates, prices: &[u8; 96]) -> AllWays {
        let mut each = [Ways::none(); 8];
        let mut promoted = [[NOWHERE; 8]; 8];
        for f in 0..8 {
            if matches!(land.homes[8 + f], Home::Pawn) {
                let ways = Ways::of(land, rates, prices, f);
                each[f] = ways;
                let tolls = ways.tolls(f, 7);
                for g in 0..8 {
                    promoted[g][f] = tolls[g];
                }
            }
        }
        AllWays { each, promoted }
    }
}
