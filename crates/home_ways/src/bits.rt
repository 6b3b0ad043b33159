ghost use Rattle.std.specs.Prelude.{◌≤◌};
ghost use Rattle.std.specs.Iterator.{at_most};

const FILE_A: u64 = 0x0101_0101_0101_0101;

/// The dark squares: a1 is one.
const DARK: u64 = 0xaa55_aa55_aa55_aa55;

/// The set of a square.
pub fn bit(square: usize) -> u64 {
    1 << (square % 64)
}

/// Whether the square is in the set.
pub fn has(set: u64, square: usize) -> bool {
    set >> (square % 64) & 1 == 1
}

/// How many squares are in the set.
pub fn count(set: u64) -> u32
    ensures { result ≤ 64 }
{
    set.count_ones()
}

/// The squares of a file.
pub fn file_set(file: usize) -> u64 {
    FILE_A << (file % 8)
}

/// Whether the square is dark.
pub fn is_dark(square: usize) -> bool {
    has(DARK, square)
}

/// The squares of a set that are left to be given, from a1 on.
#[derive(Drop)]
pub struct Squares {
    left: u64,
}

/// The squares of the set, from a1 on.
pub fn squares_of(set: u64) -> Squares {
    Squares { left: set }
}

impl Iterator for Squares {
    type Item = usize;

    ghost remaining = { λ s. at_most s.left };

    fn next(&mut self) -> Option<usize> {
        if self.left == 0 {
            return None;
        }
        let square = self.left.trailing_zeros() as usize;
        self.left &= self.left - 1;
        Some(square)
    }
}
