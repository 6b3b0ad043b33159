ghost use Rattle.std.specs.Prelude.{◌≤◌, ◌≡◌};

use home_ways::{is_dark, squares_of};

/// What one side has of pawns, and what it lacks, seen from its own side of the board.
#[derive(Clone, Copy, PartialEq, Eq)]
pub struct Camp {
    /// Its pawns, as if they went up the board.
    pub pawns: u64,
    /// The files on which it began with pawns, one bit each.
    pub files: u8,
    /// Whether it lacks the bishop of its dark squares.
    pub dark_bishops: u8,
    /// And that of its light squares.
    pub light_bishops: u8,
    /// How many other officers it lacks whom pawns can have taken.
    pub officers: u8,
    /// How many pawns it lacks that weren't promoted into men who are on the board.
    pub pawns_lost: u8,
    /// How many of its men on the board were promoted.
    pub promoted: u8,
}

/// Who fell to a pawn's capture.
#[derive(Clone, Copy, PartialEq, Eq)]
pub enum Victim {
    Officer,
    Promoted,
}

impl Camp {
    /// How many officers it lacks.
    pub fn officers_lost(&self) -> u8 {
        self.dark_bishops
            .saturating_add(self.light_bishops)
            .saturating_add(self.officers)
    }

    /// How many men it lacks.
    pub fn lost(&self) -> u8 {
        self.officers_lost().saturating_add(self.pawns_lost)
    }

    /// Puts a man back who fell on a square of this colour, as the side sees it: an officer, or else a pawn that was promoted.
    pub fn put_back(&mut self, square: usize) -> Option<Victim> {
        let bishops = if is_dark(square) {
            &mut self.dark_bishops
        } else {
            &mut self.light_bishops
        };
        if *bishops > 0 {
            *bishops -= 1;
            return Some(Victim::Officer);
        }
        if self.officers > 0 {
            self.officers -= 1;
            return Some(Victim::Officer);
        }
        if self.pawns_lost > 0 {
            self.pawns_lost -= 1;
            self.promoted = self.promoted.saturating_add(1);
            return Some(Victim::Promoted);
        }
        None
    }
}

/// Both sides' camps.
#[derive(Clone, Copy, PartialEq, Eq)]
pub struct Camps {
    pub own: Camp,
    pub other: Camp,
}

impl Camps {
    /// The same from the other side.
    pub fn turned(&self) -> Camps {
        Camps {
            own: self.other,
            other: self.own,
        }
    }

    /// The squares of all pawns, as the own side sees them.
    pub fn pawns(&self) -> u64 {
        self.own.pawns | self.other.pawns.swap_bytes()
    }

    /// A number by which they are told from others.
    pub fn key(&self) -> u64 {
        let mut key: u64 = 0;
        for camp in [self.own, self.other] {
            for part in [
                camp.files,
                camp.dark_bishops,
                camp.light_bishops,
                camp.officers,
                camp.pawns_lost,
                camp.promoted,
            ] {
                key = key.wrapping_mul(263).wrapping_add(u64::from(part));
            }
            key = (key ^ camp.pawns).wrapping_mul(0x9e37_79b9_7f4a_7c15);
            key ^= key >> 29;
        }
        key.wrapping_mul(0xbf58_476d_1ce4_e5b9)
    }
}

/// The highest square of a set, or 0.
pub fn highest(set: u64) -> u32 {
    63u32.saturating_sub(set.leading_zeros())
}

/// The pawns of this side that stand beyond a pawn of the other on the same file.
pub fn count_crossed(camps: &Camps) -> u32 {
    let theirs = camps.other.pawns.swap_bytes();
    let mut crossed: u32 = 0;
    for file in 0..8 {
        let files = home_ways::file_set(file);
        let own = camps.own.pawns & files;
        if own != 0 && theirs & files != 0 && highest(own) > (theirs & files).trailing_zeros() {
            crossed = crossed.saturating_add(1);
        }
    }
    crossed
}

/// How many ranks the pawns have gone on, a double step as one.
pub fn count_steps(pawns: u64) -> u32 {
    let mut steps: u32 = 0;
    for s in squares_of(pawns) {
        let rank = (s / 8).min(7) as u32;
        let gone = if rank >= 3 {
            rank - 2
        } else {
            rank.saturating_sub(1)
        };
        steps = steps.saturating_add(gone);
    }
    steps
}
