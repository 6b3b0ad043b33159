use crate::classes::classes_of;
use crate::views::{square_at, turned_set};
use arrayvec::ArrayVec;
use board_base::{Board, Colour, Kind, Man, Odds, Square, SquareSet, array_of};
use home_ways::has;
use sketch_grounds::{Zones, room_from};

/// All squares but those of the a-file.
const NOT_A: u64 = 0xfefe_fefe_fefe_fefe;

/// All squares but those of the h-file.
const NOT_H: u64 = 0x7f7f_7f7f_7f7f_7f7f;

/// The squares of ranks 1 and 8.
const ENDS: u64 = 0xff00_0000_0000_00ff;

/// The kinds that pawns are promoted to.
pub(crate) const OFFICERS: [Kind; 4] = [Kind::Knight, Kind::Bishop, Kind::Rook, Kind::Queen];

/// What is known of a side beside a wall of men who stay, before its figures are looked at. Its homes are numbered as it sees the board:
/// the officers' from 0 to 7, the pawns' from 8 to 15.
#[derive(Clone, Copy)]
pub struct SideTerrain {
    pub(crate) side: Colour,
    /// The squares off the wall, by their numbers as the side sees them.
    pub(crate) free: u64,
    /// The squares on which its men may be taken by pawns, in the same way.
    pub(crate) exposed: u64,
    /// Whether a man begins on the home who isn't on the wall and is no king.
    pub(crate) begins: [bool; 16],
    /// The kinds of the officers of the array.
    pub(crate) kinds: [Option<Kind>; 8],
    /// Where the officers can go from home.
    pub(crate) rooms: [u64; 8],
    /// Where men of the four kinds can go from the squares of the last rank.
    pub(crate) promoted: [[u64; 8]; 4],
    /// The classes on which an officer may be taken in his room.
    pub(crate) room_classes: [u16; 8],
    /// Those on which a man may be who was promoted on a square of the last rank.
    pub(crate) promoted_classes: [u16; 8],
}

/// What is known of both sides beside a wall and zones.
#[derive(Drop)]
pub struct Terrain {
    pub white: SideTerrain,
    pub black: SideTerrain,
}

/// A wall and zones beside it.
#[derive(Clone, Copy)]
struct Bounds<'a> {
    wall: SquareSet,
    zones: &'a Zones,
}

/// Where a man of this kind can go from a square, if he is an officer.
fn room_beside(wall: SquareSet, zones: &Zones, kind: Kind, from: Square) -> u64 {
    let man = Man {
        colour: Colour::White,
        kind,
    };
    if man.kind != Kind::Pawn && man.kind != Kind::King {
        room_from(wall, zones, man, from).bits()
    } else {
        0
    }
}

impl Bounds<'_> {
    /// Where a man of this kind can go from a square, if he isn't in one of the rooms that are known. Rooms off the wall are noted.
    fn room(&self, known: &mut ArrayVec<u64, 24>, kind: Kind, from: Square) -> u64 {
        if self.wall.has(from) {
            return 0;
        }
        for room in known.iter() {
            if has(*room, from.index() as usize) {
                return *room;
            }
        }
        let room = room_beside(self.wall, self.zones, kind, from);
        let _ = known.try_push(room);
        room
    }

    /// Adds the rooms of the officers of this kind, from home and from the squares of the last rank.
    fn add_rooms(&self, place: usize, known: &mut ArrayVec<u64, 24>, terrain: &mut SideTerrain) {
        let kind = OFFICERS[place % 4];
        for file in 0..8usize {
            if terrain.begins[file] && terrain.kinds[file] == Some(kind) {
                terrain.rooms[file] = self.room(known, kind, square_at(terrain.side, file));
            }
            terrain.promoted[place % 4][file] = self.room(
                known,
                kind,
                square_at(terrain.side, 56 + file),
            );
        }
    }
}

/// The squares on which men of this side may be taken by pawns.
fn exposed_squares(side: Colour, wall: u64) -> u64 {
    let stands = !(ENDS | wall);
    let hit = match side {
        Colour::White => (stands & NOT_A) >> 9 | (stands & NOT_H) >> 7,
        Colour::Black => (stands & NOT_A) << 7 | (stands & NOT_H) << 9,
    };
    hit & !wall
}

/// What is known of a side but for the rooms.
fn side_without_rooms(side: Colour, wall: SquareSet, first: &Board) -> SideTerrain {
    let mut begins = [false; 16];
    let mut kinds = [None; 8];
    for number in 0..16usize {
        let home = square_at(side, number);
        if let Some(man) = first.at(home) {
            begins[number] = man.colour == side && man.kind != Kind::King && !wall.has(home);
            if number < 8 {
                kinds[number] = Some(man.kind);
            }
        }
    }
    SideTerrain {
        side,
        free: turned_set(side, !wall.bits()),
        exposed: turned_set(side, exposed_squares(side, wall.bits())),
        begins,
        kinds,
        rooms: [0; 8],
        promoted: [[0; 8]; 4],
        room_classes: [0; 8],
        promoted_classes: [0; 8],
    }
}

/// Adds the classes on which men may be taken in the rooms.
fn add_classes(terrain: &mut SideTerrain) {
    let exposed = turned_set(terrain.side, terrain.exposed);
    for file in 0..8usize {
        terrain.room_classes[file] = classes_of(terrain.rooms[file] & exposed);
        let mut all = 0;
        for place in 0..4usize {
            all |= terrain.promoted[place][file];
        }
        terrain.promoted_classes[file] = classes_of(all & exposed);
    }
}

impl Terrain {
    /// What is known beside this wall and these zones at the odds.
    pub fn new(odds: Odds, wall: SquareSet, zones: &Zones) -> Terrain {
        let first = array_of(odds);
        let bounds = Bounds { wall, zones };
        let mut white = side_without_rooms(Colour::White, wall, &first);
        let mut black = side_without_rooms(Colour::Black, wall, &first);
        for place in 0..4usize {
            let mut known = ArrayVec::new();
            bounds.add_rooms(place, &mut known, &mut white);
            bounds.add_rooms(place, &mut known, &mut black);
        }
        add_classes(&mut white);
        add_classes(&mut black);
        Terrain { white, black }
    }

    /// What is known of a side.
    pub fn of(&self, side: Colour) -> &SideTerrain {
        match side {
            Colour::White => &self.white,
            Colour::Black => &self.black,
        }
    }
}
