ghost use Rattle.std.specs.Prelude.{◌<◌};

use board_base::{Board, Castle, Colour, Kind, Square, array_of};
use home_ways::bit;
use query_base::Query;

/// The men of a side by their squares, as the side sees them: its own first rank is rank 1.
#[derive(Clone, Copy, PartialEq, Eq)]
pub struct Force {
    pub king: u64,
    pub queens: u64,
    pub rooks: u64,
    pub knights: u64,
    pub bishops: u64,
    pub pawns: u64,
}

const NOBODY: Force = Force {
    king: 0,
    queens: 0,
    rooks: 0,
    knights: 0,
    bishops: 0,
    pawns: 0,
};

/// The men of both sides. Each is seen from its own side of the board.
#[derive(Clone, Copy, PartialEq, Eq)]
pub struct Diagram {
    pub white: Force,
    pub black: Force,
}

const EMPTY: Diagram = Diagram {
    white: NOBODY,
    black: NOBODY,
};

impl Force {
    fn add(&mut self, kind: Kind, square: usize) {
        let men = match kind {
            Kind::King => &mut self.king,
            Kind::Queen => &mut self.queens,
            Kind::Rook => &mut self.rooks,
            Kind::Knight => &mut self.knights,
            Kind::Bishop => &mut self.bishops,
            Kind::Pawn => &mut self.pawns,
        };
        *men |= bit(square);
    }

    /// The men as the other side sees them.
    pub fn turned(&self) -> Force {
        Force {
            king: self.king.swap_bytes(),
            queens: self.queens.swap_bytes(),
            rooks: self.rooks.swap_bytes(),
            knights: self.knights.swap_bytes(),
            bishops: self.bishops.swap_bytes(),
            pawns: self.pawns.swap_bytes(),
        }
    }

    /// All its men.
    pub fn all(&self) -> u64 {
        self.king | self.queens | self.rooks | self.knights | self.bishops | self.pawns
    }

    /// The files of the pawns that are at home, one bit each.
    pub fn pawns_home(&self) -> u8 {
        (self.pawns >> 8 & 0xff) as u8
    }

    fn key(&self) -> u64 {
        let mut key: u64 = 0;
        for men in [
            self.king,
            self.queens,
            self.rooks,
            self.knights,
            self.bishops,
            self.pawns,
        ] {
            key = (key ^ men).wrapping_mul(0x9e37_79b9_7f4a_7c15);
            key ^= key >> 29;
        }
        key
    }
}

/// The square as a side sees it; it is told by its number.
pub fn seen_by(side: Colour, square: Square) -> usize {
    let index = square.index() as usize;
    match side {
        Colour::White => index,
        Colour::Black => index ^ 56,
    }
}

/// The men of a board.
pub fn diagram_of(board: &Board) -> Diagram {
    let mut diagram = EMPTY;
    for i in 0..64 {
        let square = Square::known(i);
        if let Some(man) = board.at(square) {
            match man.colour {
                Colour::White => diagram.white.add(man.kind, seen_by(man.colour, square)),
                Colour::Black => diagram.black.add(man.kind, seen_by(man.colour, square)),
            }
        }
    }
    diagram
}

/// A castling, as a number of its own.
fn castle_bit(castle: Castle) -> u64 {
    match castle {
        Castle::WhiteShort => 1,
        Castle::WhiteLong => 2,
        Castle::BlackShort => 4,
        Castle::BlackLong => 8,
    }
}

pub const CASTLES: [Castle; 4] = [
    Castle::WhiteShort,
    Castle::WhiteLong,
    Castle::BlackShort,
    Castle::BlackLong,
];

fn demands_key(query: &Query) -> u64 {
    let mut key: u64 = match query.turn {
        Colour::White => 16,
        Colour::Black => 0,
    };
    for castle in CASTLES {
        if query.held.has(castle) {
            key |= castle_bit(castle);
        }
    }
    if let Some(m) = query.only {
        key |= 64 + 256 * u64::from(m.from.index());
    }
    if let Some(n) = query.clock {
        key |= 128 + 65_536 * u64::from(n);
    }
    key
}

/// A number by which queries are told from each other.
pub fn query_key(query: &Query, diagram: &Diagram) -> u64 {
    let mut key = diagram.white.key();
    for part in [diagram.black.key(), demands_key(query)] {
        key = (key.rotate_left(27) ^ part).wrapping_mul(0xbf58_476d_1ce4_e5b9);
        key ^= key >> 31;
    }
    key.wrapping_mul(0x94d0_49bb_1331_11eb)
}

/// With what a side begins: which of its officers' homes have their men, one bit a slot, and the files of its pawns.
#[derive(Clone, Copy)]
pub struct Origins {
    pub officers: u8,
    pub files: u8,
}

/// With what both sides begin.
#[derive(Clone, Copy)]
pub struct Beginning {
    pub white: Origins,
    pub black: Origins,
}

fn origins_of(force: &Force) -> Origins {
    let all = force.all();
    let mut officers: u8 = 0;
    for slot in 0..8usize {
        if home_ways::has(all, home_ways::HOMES[slot]) {
            officers |= 1 << slot;
        }
    }
    Origins {
        officers,
        files: force.pawns_home(),
    }
}

/// With what the games begin that are asked for.
pub fn beginning_of(query: &Query) -> Beginning {
    let array = diagram_of(&array_of(query.odds));
    Beginning {
        white: origins_of(&array.white),
        black: origins_of(&array.black),
    }
}
