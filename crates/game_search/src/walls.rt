use crate::diagrams::{CASTLES, Diagram, Force};
use board_base::Castle;
use home_ways::bit;
use query_base::Query;

/// The first two ranks and the last two.
const ENDS: u64 = 0xffff_0000_0000_ffff;

/// The men who stand for good, and with them those who stand in the way now, seen by one side.
#[derive(Clone, Copy)]
pub struct Ground {
    pub walls: u64,
    pub soft: u64,
}

impl Ground {
    /// The same, seen by the other side.
    pub fn turned(&self) -> Ground {
        Ground {
            walls: self.walls.swap_bytes(),
            soft: self.soft.swap_bytes(),
        }
    }
}

/// Pawns at home, and bishops at home whom two of them shut in.
fn home_walls(force: &Force) -> u64 {
    let pawns = force.pawns & 0xff00;
    let mut walls = pawns;
    if pawns & 0x0a00 == 0x0a00 {
        walls |= force.bishops & bit(2);
    }
    if pawns & 0x5000 == 0x5000 {
        walls |= force.bishops & bit(5);
    }
    walls
}

/// The homes of king and rook, as White sees them.
fn homes(castle: Castle) -> u64 {
    match castle {
        Castle::WhiteShort => bit(4) | bit(7),
        Castle::WhiteLong => bit(4) | bit(0),
        Castle::BlackShort => bit(60) | bit(63),
        Castle::BlackLong => bit(60) | bit(56),
    }
}

/// The homes of the rights that are held, as White sees them.
fn held_homes(query: &Query) -> u64 {
    let mut set: u64 = 0;
    for castle in CASTLES {
        if query.held.has(castle) {
            set |= homes(castle);
        }
    }
    set
}

/// The ground of a query as White sees it: for good stand pawns at home, bishops whom these shut in, and king and rook of each right
/// that is held. In the way stand these, all other pawns, and the men on the two outer ranks of either side.
pub fn ground_of(query: &Query, diagram: &Diagram) -> Ground {
    let walls = home_walls(&diagram.white)
        | home_walls(&diagram.black).swap_bytes()
        | held_homes(query);
    let pawns = diagram.white.pawns | diagram.black.pawns.swap_bytes();
    let men = diagram.white.all() | diagram.black.all().swap_bytes();
    Ground {
        walls,
        soft: walls | pawns | men & ENDS,
    }
}
