use crate::classes::most_of;
use crate::terrains::SideTerrain;
use crate::views::square_at;
use balance_rule::class_of;
use board_base::Colour;
use home_ways::has;
use price_ascent::PriceRow;

/// What a way costs that there isn't.
pub(crate) const NEVER: i32 = 8_000;

/// A number for each square, by ranks and files as the side sees them.
type Each = [[i32; 8]; 8];

/// Where a pawn went who is gone, by the number of the square, and what he pays less what he earns.
#[derive(Clone, Copy)]
struct Loss {
    number: usize,
    toll: i32,
}

/// What the pawn of a file pays.
#[derive(Clone, Copy)]
struct Ways {
    /// Who comes to each square with a capture.
    aside: Each,
    /// Who goes straight up to this rank.
    straight: [i32; 8],
    /// Who is gone.
    lost: Loss,
}

/// There is no way.
const NOWHERE: Ways = Ways {
    aside: [[NEVER; 8]; 8],
    straight: [NEVER; 8],
    lost: Loss {
        number: 8,
        toll: NEVER,
    },
};

/// What a side's men cost at prices, by numbers of squares as the side sees them.
#[derive(Clone, Copy)]
pub struct Fees {
    /// For a capture there.
    take: Each,
    /// For treading it without ever capturing.
    gate: Each,
    /// What a man of the side who is taken there earns.
    earned: Each,
    /// NEVER for the squares of the wall, and 0 for others.
    blocked: Each,
    /// What the enemy pays on each class.
    pub(crate) enemy: [i32; 16],
    /// What a man earns at most who was promoted on this file of the last rank.
    after: [i32; 8],
    /// What pawns pay, by files of homes.
    ways: [Ways; 8],
    /// What the man of each home costs who is gone.
    pub(crate) gone: [i32; 16],
}

/// What a side's pawns pay for a capture on each class.
fn takes_of(side: Colour, prices: &PriceRow) -> [i32; 16] {
    let mut takes = [0; 16];
    for class in 0..16usize {
        takes[class] = i32::from(prices.take(side, class));
    }
    takes
}

/// The number of the class of the square that has this number as the side sees it.
pub(crate) fn class_at(side: Colour, number: usize) -> usize {
    class_of(square_at(side, number)) as usize
}

/// Of numbers of classes those of the squares of a rank; they are the same on every other rank.
fn on_rank(side: Colour, numbers: &[i32; 16], rank: usize) -> [i32; 8] {
    let mut row = [0; 8];
    for file in 0..8usize {
        row[file] = numbers[class_at(side, 8 * (rank % 8) + file) % 16];
    }
    row
}

/// What is paid on each square; nothing is known of ways.
fn fees_of_squares(terrain: &SideTerrain, prices: &PriceRow) -> Fees {
    let side = terrain.side;
    let own = takes_of(side, prices);
    let takes = [on_rank(side, &own, 0), on_rank(side, &own, 1)];
    let enemy = takes_of(side.other(), prices);
    let mut fees = Fees {
        take: [[0; 8]; 8],
        gate: [[0; 8]; 8],
        earned: [[0; 8]; 8],
        blocked: [[0; 8]; 8],
        enemy,
        after: [0; 8],
        ways: [NOWHERE; 8],
        gone: [NEVER; 16],
    };
    for rank in 0..8usize {
        fees.take[rank] = takes[rank % 2];
    }
    for file in 0..8usize {
        fees.after[file] = most_of(&enemy, terrain.promoted_classes[file]);
    }
    fees
}

impl Fees {
    /// Adds what depends on the squares of the terrain one by one.
    fn add_squares(&mut self, terrain: &SideTerrain, prices: &PriceRow) {
        let side = terrain.side;
        let enemy = self.enemy;
        let earned = [on_rank(side, &enemy, 0), on_rank(side, &enemy, 1)];
        for number in 0..64usize {
            let rank = number / 8 % 8;
            let file = number % 8;
            self.gate[rank][file] = i32::from(prices.gate(square_at(side, number)));
            if has(terrain.exposed, number) {
                self.earned[rank][file] = earned[rank % 2][file];
            }
            if !has(terrain.free, number) {
                self.blocked[rank][file] = NEVER;
            }
        }
    }
}

/// What the pawn of a file pays who goes straight up to each rank.
fn straight_ways(blocked: &Each, gate: &Each, file: usize) -> [i32; 8] {
    let mut ways = [NEVER; 8];
    let mut toll = 0i32;
    for rank in 1..8usize {
        if blocked[rank][file % 8] > 0 {
            return ways;
        }
        toll = toll.wrapping_add(gate[rank][file % 8]);
        ways[rank] = toll;
    }
    ways
}

/// What the pawn of a file pays who comes to the squares of a rank and captures next, if he pays so much to come there with a capture, and
/// so much straight on.
fn fees_before(aside: &[i32; 8], straight: i32, file: usize) -> [i32; 8] {
    let mut fees = *aside;
    if straight < NEVER {
        fees[file % 8] = 0;
    }
    fees
}

/// What a pawn pays who comes with a capture to the squares of a rank, if he pays this on the rank behind and captures next, or stays.
fn ways_on(fees: &[i32; 8], last: &[i32; 8], take: &[i32; 8], blocked: &[i32; 8]) -> [i32; 8] {
    let mut row = [NEVER; 8];
    for file in 0..8usize {
        let left = if file > 0 { fees[file - 1] } else { NEVER };
        let right = if file < 7 { fees[file + 1] } else { NEVER };
        let capture = left.min(right).wrapping_add(take[file]);
        row[file] = capture.min(last[file]).min(NEVER).max(blocked[file]);
    }
    row
}

/// The lesser loss of this one and those on the squares of a rank, the first of such.
fn lesser_loss(least: Loss, rank: usize, losses: &[i32; 8]) -> Loss {
    let mut best = least;
    for file in 0..8usize {
        if losses[file] < best.toll {
            best = Loss {
                number: 8 * (rank % 8) + file,
                toll: losses[file],
            };
        }
    }
    best
}

/// The differences of these numbers.
fn less(paid: &[i32; 8], earned: &[i32; 8]) -> [i32; 8] {
    let mut row = [0; 8];
    for file in 0..8usize {
        row[file] = paid[file].wrapping_sub(earned[file]);
    }
    row
}

impl Fees {
    /// Adds the ways of the pawn of a file.
    fn add_ways(&mut self, file: usize) {
        let f = file % 8;
        let straight = straight_ways(&self.blocked, &self.gate, f);
        let mut aside = [[NEVER; 8]; 8];
        let mut lost = Loss {
            number: 8 + f,
            toll: 0i32.wrapping_sub(self.earned[1][f]),
        };
        let mut fees = fees_before(&aside[1], straight[1], f);
        for rank in 2..8usize {
            aside[rank] = ways_on(
                &fees,
                &aside[rank - 1],
                &self.take[rank],
                &self.blocked[rank],
            );
            fees = fees_before(&aside[rank], straight[rank], f);
            if rank < 7 {
                lost = lesser_loss(lost, rank, &less(&fees, &self.earned[rank]));
            }
        }
        let mut last = aside[7];
        last[f] = last[f].min(straight[7]);
        self.ways[f] = Ways {
            aside,
            straight,
            lost: lesser_loss(lost, 7, &less(&last, &self.after)),
        };
    }

    /// What the men of a side cost at these prices.
    pub fn new(terrain: &SideTerrain, prices: &PriceRow) -> Fees {
        let mut fees = fees_of_squares(terrain, prices);
        fees.add_squares(terrain, prices);
        for file in 0..8usize {
            if terrain.begins[8 + file] {
                fees.add_ways(file);
                fees.gone[8 + file] = fees.ways[file].lost.toll;
            }
            if terrain.begins[file] {
                fees.gone[file] = 0i32.wrapping_sub(most_of(
                    &fees.enemy,
                    terrain.room_classes[file],
                ));
            }
        }
        fees
    }

    /// What is paid for a capture on the square with this number.
    pub(crate) fn take_at(&self, number: usize) -> i32 {
        self.take[number / 8 % 8][number % 8]
    }

    /// What the pawn of a file pays who comes to a square with a capture.
    pub(crate) fn aside_at(&self, file: usize, number: usize) -> i32 {
        self.ways[file % 8].aside[number / 8 % 8][number % 8]
    }

    /// What he pays who goes straight up to this rank.
    pub(crate) fn straight_at(&self, file: usize, rank: usize) -> i32 {
        self.ways[file % 8].straight[rank % 8]
    }

    /// What he pays who comes to a square and captures next.
    pub(crate) fn fee_at(&self, file: usize, number: usize) -> i32 {
        if self.is_open(file, number) {
            0
        } else {
            self.aside_at(file, number)
        }
    }

    /// Whether he can come straight to a square.
    pub(crate) fn is_open(&self, file: usize, number: usize) -> bool {
        number % 8 == file && self.straight_at(file, number / 8) < NEVER
    }

    /// Whether he comes there without a capture, and pays no more so.
    pub(crate) fn is_straight(&self, file: usize, number: usize) -> bool {
        let straight = self.straight_at(file, number / 8);
        self.is_open(file, number) && straight <= self.aside_at(file, number)
    }

    /// What he pays who comes to a square and stays.
    pub(crate) fn toll_at(&self, file: usize, number: usize) -> i32 {
        if self.is_straight(file, number) {
            self.straight_at(file, number / 8)
        } else {
            self.aside_at(file, number)
        }
    }

    /// Where he went who is gone, by the number of the square.
    pub(crate) fn least_loss(&self, file: usize) -> usize {
        self.ways[file % 8].lost.number
    }
}
