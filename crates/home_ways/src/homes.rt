/// The homes of officers, as White sees them: king, queen, rooks a and h, knights b and g, bishops c and f.
pub type Slot = usize;

/// Where each officer begins, seen from White's side.
pub const HOMES: [usize; 8] = [4, 3, 0, 7, 1, 6, 2, 5];
