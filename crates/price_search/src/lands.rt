ghost use Rattle.std.specs.Prelude.{◌<◌};

use balance_rule::{Ground, both, seen_by, squares_of_class};
use board_base::{Colour, Kind, SquareSet};

/// A number for each file, as a side sees the board.
pub(crate) type Rank = [u16; 8];

/// More than anything costs: it stands where something can't be.
pub(crate) const NOWHERE: u16 = 5000;

/// All bits of each class that has a square in a set, and none of the others.
pub(crate) type Classes = [u8; 16];

/// Who of a side began on a home outside the set.
#[derive(Clone, Copy)]
pub(crate) enum Home {
    /// Nobody.
    Closed,
    King,
    /// An officer, who may be taken on squares of these classes.
    Officer(Classes),
    Pawn,
}

/// The files of the homes outside the set on which the officers of each kind begin. A bit is a file.
#[derive(Clone, Copy)]
pub(crate) struct OfficerFiles {
    knights: u8,
    bishops: u8,
    rooks: u8,
    queens: u8,
}

/// What is known of a side beside a set, whatever the prices. Ranks and files are counted as the side sees the board.
#[derive(Clone, Copy)]
pub(crate) struct Land {
    pub(crate) side: Colour,
    /// By ranks: `NOWHERE` on the squares of the set, and 0 on others.
    pub(crate) walls: [Rank; 8],
    /// By ranks: all bits on the squares where men of the side are exposed, and none on others.
    pub(crate) exposed: [Rank; 8],
    /// Who began on the home with each number.
    pub(crate) homes: [Home; 16],
    pub(crate) officers: OfficerFiles,
    /// The classes on which a man may be taken who was promoted on each file.
    pub(crate) promoted: [Classes; 8],
}

/// The classes of the squares of a set.
fn classes_of(set: SquareSet) -> Classes {
    let mut classes = [0; 16];
    for class in 0..16 {
        if both(set, squares_of_class(class)).bits() != 0 {
            classes[class] = 255;
        }
    }
    classes
}

/// This number on the squares of a set, and 0 on others, by ranks.
fn on_squares(side: Colour, set: SquareSet, number: u16) -> [Rank; 8] {
    let mut all = [[0; 8]; 8];
    for i in 0..64u8 {
        if set.has(seen_by(side, i)) {
            all[i as usize / 8][i as usize % 8] = number;
        }
    }
    all
}

/// Who of the side began on the home with this number.
fn home_at(ground: &Ground, n: u8) -> Home
    requires { n < 16 }
{
    let home = seen_by(ground.side, n);
    let Some(man) = ground.first.at(home) else {
        return Home::Closed;
    };
    if man.colour != ground.side || ground.frozen.has(home) {
        return Home::Closed;
    }
    match man.kind {
        Kind::King => Home::King,
        Kind::Pawn => Home::Pawn,
        _ if n < 8 => Home::Officer(classes_of(both(ground.regions[n as usize], ground.exposed))),
        _ => Home::Closed,
    }
}

/// The files of the homes outside the set on which men of this kind begin.
fn files_of(ground: &Ground, kind: Kind) -> u8 {
    let mut files = 0;
    for f in 0..8u8 {
        let home = seen_by(ground.side, f);
        if let Some(man) = ground.first.at(home) {
            if man.kind == kind && man.colour == ground.side && !ground.frozen.has(home) {
                files |= 1 << f;
            }
        }
    }
    files
}

impl OfficerFiles {
    /// The files of officers of this kind; none of pawns and kings.
    pub(crate) fn of(&self, kind: Kind) -> u8 {
        match kind {
            Kind::Pawn | Kind::King => 0,
            Kind::Knight => self.knights,
            Kind::Bishop => self.bishops,
            Kind::Rook => self.rooks,
            Kind::Queen => self.queens,
        }
    }
}

impl Land {
    /// What is known of the side of this ground, whatever its prices.
    pub(crate) fn of(ground: &Ground) -> Land {
        let mut homes = [Home::Closed; 16];
        for n in 0..16u8 {
            homes[n as usize] = home_at(ground, n);
        }
        let mut promoted = [[0; 16]; 8];
        for f in 0..8 {
            promoted[f] = classes_of(both(ground.promoted[f], ground.exposed));
        }
        Land {
            side: ground.side,
            walls: on_squares(ground.side, ground.frozen, NOWHERE),
            exposed: on_squares(ground.side, ground.exposed, u16::MAX),
            homes,
            officers: OfficerFiles {
                knights: files_of(ground, Kind::Knight),
                bishops: files_of(ground, Kind::Bishop),
                rooks: files_of(ground, Kind::Rook),
                queens: files_of(ground, Kind::Queen),
            },
            promoted,
        }
    }

    /// The number of the square on a rank and a file, as White sees the board.
    pub(crate) fn square(&self, rank: usize, file: usize) -> usize
        requires rank { rank < 8 }
        requires file { file < 8 }
        ensures { result < 64 }
    {
        let number = 8 * rank + file;
        match self.side {
            Colour::White => number,
            Colour::Black => 63 - number,
        }
    }
}

/// What is known of both sides beside a set.
#[derive(Clone, Copy)]
pub(crate) struct Lands {
    pub(crate) white: Land,
    pub(crate) black: Land,
}
