use crate::diagrams::{Force, Origins};
use home_ways::bit;

/// The men who begin on the first rank: the slot of each file, and the files of the pawns that shut its officer out, one bit each.
const GATES: [(u8, u8); 8] = [
    (2, 0x03),
    (4, 0),
    (6, 0x0a),
    (1, 0x1c),
    (0, 0x38),
    (7, 0x50),
    (5, 0),
    (3, 0xc0),
];

fn men_of(force: &Force, slot: u8) -> u64 {
    match slot {
        0 => force.king,
        1 => force.queens,
        2 | 3 => force.rooks,
        4 | 5 => force.knights,
        _ => force.bishops,
    }
}

/// How many pawns are at home before homes of officers who aren't.
pub fn pawns_before(force: &Force, origins: &Origins) -> u32 {
    let home = force.pawns_home();
    let mut pawns: u32 = 0;
    for (file, (slot, gate)) in GATES.iter().enumerate() {
        let is_asked = origins.officers >> (*slot % 8) & 1 == 1;
        if is_asked && men_of(force, *slot) & bit(file) == 0 {
            pawns = pawns.saturating_add((home & *gate).count_ones());
        }
    }
    pawns
}
