use crate::bits::bit;
pub use crate::floods::FAR;
use crate::floods::{flood, guarded};
use crate::homes::{HOMES, Slot};
use board_base::{Kind, Memory};
use std::alloc::Global;

/// What a way costs more that leads past men who can still move.
const DETOUR: u8 = 8;

/// Where the other side's pawns begin.
const PAWN_HOMES: u64 = 0x00ff_0000_0000_0000;

/// How many ways are kept.
const KEPT: usize = 8192;

const KINDS: [Kind; 8] = [
    Kind::King,
    Kind::Queen,
    Kind::Rook,
    Kind::Rook,
    Kind::Knight,
    Kind::Knight,
    Kind::Bishop,
    Kind::Bishop,
];

/// Whether a home is shut in: by nobody, by men who can still move, or by men who stand there for good.
#[derive(Clone, Copy, PartialEq, Eq)]
pub enum Shut {
    Open,
    Softly,
    Hard,
}

/// How far each square is from an officer's home, whether the home is shut in, and the squares to which it then is open.
#[derive(Clone, Copy)]
pub struct Way {
    pub moves: [u8; 64],
    pub shut: Shut,
    pub region: u64,
}

/// What the way home depends on: the men who stand for good, these and those who stand in the way now, and the home.
#[derive(Clone, Copy, PartialEq, Eq)]
struct Scene {
    walls: u64,
    soft: u64,
    slot: usize,
}

#[derive(Clone, Copy)]
struct Kept {
    scene: Scene,
    way: Way,
}

/// Nobody comes to the middle of the board from there.
fn is_shut(moves: &[u8; 64]) -> bool {
    moves[24..40].iter().all(|m| *m == FAR)
}

/// The squares from which there is a way.
fn region_of(moves: &[u8; 64]) -> u64 {
    let mut region: u64 = 0;
    for (s, m) in moves.iter().enumerate() {
        if *m != FAR {
            region |= bit(s);
        }
    }
    region
}

/// The way past those who can move, if there is one, else round those who can't.
fn joined(hard: u8, soft: u8) -> u8 {
    if soft != FAR {
        soft
    } else if hard != FAR {
        hard.saturating_add(DETOUR)
    } else {
        FAR
    }
}

fn way_home(scene: &Scene) -> Way {
    let kind = KINDS[scene.slot % 8];
    let home = bit(HOMES[scene.slot % 8]);
    let shunned = match kind {
        Kind::King => guarded(scene.walls & PAWN_HOMES),
        _ => 0,
    };
    let hard = flood(kind, home, scene.walls, shunned);
    let soft = flood(kind, home, scene.soft, shunned);
    let mut moves = [FAR; 64];
    for s in 0..64 {
        moves[s] = joined(hard[s], soft[s]);
    }
    let (shut, region) = if is_shut(&hard) {
        (Shut::Hard, region_of(&hard))
    } else if is_shut(&soft) {
        (Shut::Softly, region_of(&soft))
    } else {
        (Shut::Open, 0)
    };
    Way {
        moves,
        shut,
        region,
    }
}

fn place_of(scene: &Scene) -> usize {
    let mixed = scene.walls.wrapping_mul(0x9e37_79b9_7f4a_7c15)
        ^ scene
            .soft
            .rotate_left(23)
            .wrapping_mul(0xc2b2_ae3d_27d4_eb4f)
        ^ (scene.slot as u64).wrapping_mul(0x1656_67b1_9e37_79f9);
    ((mixed ^ mixed >> 29).wrapping_mul(0xbf58_476d_1ce4_e5b9) >> 51) as usize
}

/// Ways home that were found lately.
#[derive(Drop)]
pub struct Ways {
    kept: Vec<Kept>,
}

impl Ways {
    /// Room for ways, with none in it that is asked for.
    pub fn new(alloc: Global) -> Result<Ways, Memory> {
        let none = Kept {
            scene: Scene {
                walls: 0,
                soft: 0,
                slot: 8,
            },
            way: Way {
                moves: [FAR; 64],
                shut: Shut::Open,
                region: 0,
            },
        };
        match vec![in alloc; none; KEPT] {
            Ok(kept) => Ok(Ways { kept }),
            Err(_) => Err(Memory),
        }
    }

    /// How far each square is from this home, where these men stand for good, and these (with those) now.
    pub fn to(&mut self, walls: u64, soft: u64, slot: Slot) -> Way {
        let scene = Scene { walls, soft, slot };
        let place = place_of(&scene);
        if let Some(kept) = self.kept.get(place) {
            if kept.scene == scene {
                return kept.way;
            }
        }
        let way = way_home(&scene);
        if let Some(kept) = self.kept.get_mut(place) {
            *kept = Kept { scene, way };
        }
        way
    }
}
