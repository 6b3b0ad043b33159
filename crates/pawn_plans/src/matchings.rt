use home_ways::{count, squares_of};

/// What is dearer than any captures: there is no way.
pub const NONE: u8 = 99;

/// The least captures to each set of home files, one bit each.
#[derive(Drop)]
struct Table {
    captures: [u8; 256],
    /// How many files are taken.
    taken: u32,
}

/// The fewest captures that bring pawns home, and to which files.
#[derive(Clone, Copy, PartialEq, Eq)]
pub struct Fewest {
    pub captures: u8,
    pub files: u8,
}

const NO_WAY: Fewest = Fewest {
    captures: NONE,
    files: 0,
};

impl Table {
    /// These files are taken.
    fn new(home: u8) -> Table {
        let mut captures = [NONE; 256];
        captures[home as usize] = 0;
        Table {
            captures,
            taken: home.count_ones(),
        }
    }

    /// The next pawn takes a file; each has its price.
    fn place(&mut self, prices: &[u8; 8]) {
        for files in 0..256usize {
            if self.captures[files] < NONE && (files as u32).count_ones() == self.taken {
                self.place_after(files, prices);
            }
        }
        self.taken = self.taken.saturating_add(1);
    }

    /// The next pawn takes a file beside these.
    fn place_after(&mut self, files: usize, prices: &[u8; 8]) {
        let before = self.captures[files % 256];
        for (file, price) in prices.iter().enumerate() {
            let with = (files | 1 << (file % 8)) % 256;
            if with != files && *price < NONE {
                let captures = before.saturating_add(*price);
                if captures < self.captures[with] {
                    self.captures[with] = captures;
                }
            }
        }
    }

    /// The fewest captures, and the files that are taken so.
    fn fewest(&self) -> Fewest {
        let mut best = NO_WAY;
        for files in 0..=255u8 {
            let captures = self.captures[files as usize];
            if captures < best.captures && files.count_ones() == self.taken {
                best = Fewest { captures, files };
            }
        }
        best
    }
}

/// What each home file costs a pawn. One that has to leave its file pays two to come back to it.
fn prices_of(square: usize, files: u8, leaves: bool) -> [u8; 8] {
    let file = (square % 8) as u8;
    let room = (square / 8 % 8) as u8;
    let mut prices = [NONE; 8];
    for home in 0..8u8 {
        let away = file.abs_diff(home);
        let price = if away == 0 && leaves { 2 } else { away };
        if price < room && files >> home & 1 == 1 {
            prices[home as usize] = price;
        }
    }
    prices
}

/// What each home file costs a man who was promoted: nothing if no pawn of the other side stands on it.
fn promotion_prices(files: u8, blocked: u8) -> [u8; 8] {
    let free = !blocked;
    let beside = free | free << 1 | free >> 1;
    let mut prices = [NONE; 8];
    for home in 0..8u8 {
        if files >> home & 1 == 1 {
            prices[home as usize] = if free >> home & 1 == 1 {
                0
            } else if beside >> home & 1 == 1 {
                1
            } else {
                2
            };
        }
    }
    prices
}

/// The files on which pawns stand, one bit each.
fn files_with(pawns: u64) -> u8 {
    let mut files: u8 = 0;
    for s in squares_of(pawns) {
        files |= 1 << (s % 8);
    }
    files
}

/// The fewest captures that bring the pawns of a side, which go up the board, and its promoted men to home files of their own, where
/// some pawns have to leave their file, and the other side's pawns stand so.
pub fn fewest_captures(pawns: u64, leaving: u64, files: u8, promoted: u8, theirs: u64) -> Fewest {
    let home = (pawns >> 8 & 0xff & u64::from(files)) as u8;
    let away = pawns & !0xffff;
    let mut table = Table::new(home);
    if count(pawns) > count(away).saturating_add(home.count_ones()) || count(pawns) > 8 {
        return NO_WAY;
    }
    for s in squares_of(away) {
        table.place(&prices_of(s, files, leaving >> (s % 64) & 1 == 1));
    }
    if promoted > 0 {
        let prices = promotion_prices(files, files_with(theirs));
        for _ in 0..promoted.min(9) {
            table.place(&prices);
        }
    }
    table.fewest()
}
