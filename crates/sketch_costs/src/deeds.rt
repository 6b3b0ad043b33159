ghost use Rattle.std.specs.Prelude.{◌≤◌};

use crate::accounts::{Coming, SideAccount, coming_as};
use crate::classes::neediest_class;
use crate::fees::{Fees, NEVER, class_at};
use crate::rows::Row;
use crate::terrains::SideTerrain;
use crate::views::square_at;
use board_base::Colour;
use home_ways::has;
use price_ascent::{Tally, WHOLE, place_of};

/// What the men of a side did at the least cost. Where those who are gone were taken is counted when it is known where the enemy captured.
#[derive(Clone, Copy)]
pub struct Deeds {
    side: Colour,
    /// What the enemy pays for a capture on each class.
    enemy: [i32; 16],
    tally: Tally,
    /// By homes, the classes on one of which the man who is gone was taken.
    fallen: [u16; 16],
}

/// Counts the squares from a home up to the one with this number, file ahead, of a pawn who never captured.
fn count_straight(tally: &mut Tally, side: Colour, number: usize) {
    for rank in 1..8usize {
        if rank <= number / 8 {
            tally.count_trodden(square_at(side, 8 * rank + number % 8));
        }
    }
}

/// The square from which the last capture came of the way to a square with the least toll.
fn captured_from(fees: &Fees, file: usize, number: usize) -> usize
    requires { 16 ≤ number }
{
    let sum = fees.aside_at(file, number);
    let take = fees.take_at(number);
    let left = fees.fee_at(file, number - 9);
    let is_left = number % 8 == 7 || left.wrapping_add(take) == sum;
    if number % 8 > 0 && is_left {
        number - 9
    } else {
        number - 7
    }
}

/// Counts the captures of the pawn of a file who came aside to the square with this number.
fn count_aside(tally: &mut Tally, side: Colour, fees: &Fees, file: usize, number: usize) {
    let mut at = number % 64;
    for _ in 0..7 {
        if at < 16 {
            return;
        }
        if fees.aside_at(file, at - 8) == fees.aside_at(file, at) {
            at -= 8;
        } else {
            tally.count_capture(side, class_at(side, at) % 16);
            at = captured_from(fees, file, at);
            if fees.is_open(file, at) {
                return;
            }
        }
    }
}

/// Counts what the pawn of a file did who came so.
fn count_coming(tally: &mut Tally, side: Colour, fees: &Fees, file: usize, way: &Coming) {
    if way.toll >= NEVER {
        return;
    }
    if way.is_straight {
        count_straight(tally, side, way.number);
    } else {
        count_aside(tally, side, fees, file, way.number);
    }
}

/// Counts what the pawn of a file did who is gone, and was taken on the square with this number, or promoted there.
fn count_lost(tally: &mut Tally, side: Colour, fees: &Fees, file: usize, number: usize) {
    if number >= 56 && fees.is_straight(file, number) {
        count_straight(tally, side, number);
    } else if number >= 56 || !fees.is_open(file, number) {
        count_aside(tally, side, fees, file, number);
    }
}

/// The classes on one of which the pawn was taken who is gone, and went to the square with this number.
fn fallen_classes(terrain: &SideTerrain, number: usize) -> u16 {
    if number >= 56 {
        terrain.promoted_classes[number % 8]
    } else if has(terrain.exposed, number) {
        1 << (class_at(terrain.side, number) % 16)
    } else {
        0
    }
}

impl Deeds {
    /// Counts what the man of a home did who came as the figure of this row, which may be forced.
    fn count_come(&mut self, fees: &Fees, row: &Row, forced: bool, home: usize) {
        if home >= 8 {
            let way = coming_as(fees, row, home % 8, forced);
            count_coming(&mut self.tally, self.side, fees, home % 8, &way);
        }
    }

    /// Counts what the man of a home did who is gone.
    fn count_gone(&mut self, terrain: &SideTerrain, fees: &Fees, home: usize) {
        let file = home % 8;
        if home < 8 {
            self.fallen[home % 16] = terrain.room_classes[file];
            return;
        }
        let number = fees.least_loss(file);
        count_lost(&mut self.tally, self.side, fees, file, number);
        self.fallen[home % 16] = fallen_classes(terrain, number);
    }

    /// What the men of a side did at the least cost; the figure of one row may be forced.
    pub fn new(
        terrain: &SideTerrain,
        fees: &Fees,
        rows: &[Row],
        account: &SideAccount,
        forced: Option<usize>,
    ) -> Deeds {
        let mut deeds = Deeds {
            side: terrain.side,
            enemy: fees.enemy,
            tally: Tally::default(),
            fallen: [0; 16],
        };
        for home in 0..16usize {
            if terrain.begins[home] {
                let i = account.assigned.row_in(home);
                match rows.get(i) {
                    Some(row) => deeds.count_come(fees, row, forced == Some(i), home),
                    None => deeds.count_gone(terrain, fees, home),
                }
            }
        }
        deeds
    }

    /// All that the men of this side did, with the classes on which they were taken, if so much is needed on each of them. Each earns the
    /// most that he can, pawns come first, and of equal classes that is taken where the need is greatest.
    pub fn with_fallen(&self, needs: &[i32; 16]) -> Tally {
        let mut tally = self.tally;
        let mut left = *needs;
        for home in (0..16usize).rev() {
            if let Some(class) = neediest_class(&self.enemy, &left, self.fallen[home]) {
                tally.count_taken(self.side.other(), class);
                left[class] = left[class].wrapping_sub(WHOLE);
            }
        }
        tally
    }

    /// What is needed on the classes where this side's pawns captured, if so much is owed on all places of captures.
    pub fn needs(&self, owed: &[i32; 32]) -> [i32; 16] {
        let mut all = [0; 16];
        for class in 0..16usize {
            let k = place_of(self.side, class);
            all[class] = owed[k].wrapping_add(WHOLE.wrapping_mul(i32::from(self.tally.times[k])));
        }
        all
    }
}
