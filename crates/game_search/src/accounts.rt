use crate::assigning::{Assigned, Home, assign};
use crate::diagrams::{Force, Origins};
use crate::settings::{NEVER, SHUT_HARD, SHUT_SOFTLY, Setting};
use crate::walls::Ground;
use crate::wants::{Kinds, Wants};
use home_ways::{FAR, HOMES, Shut, Ways, bit, squares_of};
use pawn_plans::Camp;

/// The dark squares.
const DARK: u64 = 0xaa55_aa55_aa55_aa55;

/// What one side's men cost to bring home, who of them is missing, and who was promoted.
#[derive(Clone, Copy)]
pub struct Account {
    pub cost: u32,
    /// How many moves its king is from home.
    pub king_moves: u32,
    /// Its officers' homes to which nobody goes, one bit each.
    pub missing: u8,
    /// The homes that are shut in.
    pub closed: Closed,
    pub promoted: u8,
    pub pawns_lost: u8,
    pub wants: Wants,
    pub pawns: u64,
    pub files: u8,
}

impl Account {
    /// The pawns, with the officers who are missing from these homes.
    fn camp_of(&self, missing: u8) -> Camp {
        Camp {
            pawns: self.pawns,
            files: self.files,
            dark_bishops: missing >> 6 & 1,
            light_bishops: missing >> 7 & 1,
            officers: (missing & 0x3e).count_ones() as u8,
            pawns_lost: self.pawns_lost,
            promoted: self.promoted,
        }
    }

    /// The pawns, with all officers who are missing.
    pub fn camp(&self) -> Camp {
        self.camp_of(self.missing)
    }

    /// The pawns, with the officers whom pawns can have captured: those whose homes aren't shut in.
    pub fn open_camp(&self) -> Camp {
        self.camp_of(self.missing & !self.closed.hard)
    }
}

/// Which homes are shut in.
#[derive(Clone, Copy)]
pub struct Closed {
    /// Those that are for good, one bit each.
    pub hard: u8,
    /// Of each home the squares to which it is open, if it is shut in, or none.
    pub regions: [u64; 8],
}

const NONE_CLOSED: Closed = Closed {
    hard: 0,
    regions: [0; 8],
};

/// What an account is made of.
#[derive(Drop)]
pub struct Books<'a> {
    pub ways: &'a mut Ways,
    pub setting: &'a Setting,
    pub ground: Ground,
    pub origins: Origins,
}

/// How many moves a king is from home; None if there is no way.
fn king_moves(books: &mut Books, king: u64) -> Option<u32> {
    if king == bit(HOMES[0]) {
        return Some(0);
    }
    let way = books.ways.to(books.ground.walls, books.ground.soft, 0);
    let mut most: u8 = 0;
    for square in squares_of(king) {
        most = most.max(way.moves[square % 64]);
    }
    if most == FAR {
        None
    } else {
        Some(u32::from(most))
    }
}

/// The home of a slot. If it is shut in, that is noted.
fn home_of(books: &mut Books, slot: usize, closed: &mut Closed) -> Home {
    let mark = 1 << (slot % 8);
    if books.origins.officers & mark == 0 {
        return NO_HOME;
    }
    let way = books.ways.to(books.ground.walls, books.ground.soft, slot);
    let more = match way.shut {
        Shut::Open => 0,
        Shut::Softly => SHUT_SOFTLY,
        Shut::Hard => {
            closed.hard |= mark;
            SHUT_HARD
        }
    };
    closed.regions[slot % 8] = way.region;
    Home {
        way: Some(way),
        missing: books.setting.missing.saturating_add(more),
        mark,
    }
}

const NO_HOME: Home = Home {
    way: None,
    missing: 0,
    mark: 0,
};

/// The homes, as squares, that have their men in the array.
fn homes_asked(origins: &Origins, slots: &[usize]) -> u64 {
    let mut set: u64 = 0;
    for slot in slots {
        if origins.officers >> (*slot % 8) & 1 == 1 {
            set |= bit(HOMES[*slot % 8]);
        }
    }
    set
}

/// These men go to these homes.
fn assign_kind(books: &mut Books, men: u64, slots: &[usize], closed: &mut Closed) -> Assigned {
    if men == homes_asked(&books.origins, slots) {
        return Assigned {
            cost: 0,
            promoted: 0,
            missing: 0,
        };
    }
    let first = match slots.first() {
        Some(slot) => home_of(books, *slot, closed),
        None => NO_HOME,
    };
    let second = match slots.get(1) {
        Some(slot) => home_of(books, *slot, closed),
        None => NO_HOME,
    };
    assign(men, &first, &second)
}

/// All officers of a side.
#[derive(Clone, Copy)]
struct Officers {
    queens: Assigned,
    rooks: Assigned,
    knights: Assigned,
    dark_bishops: Assigned,
    light_bishops: Assigned,
}

impl Officers {
    /// What they cost together, who of all was promoted, and which homes nobody goes to.
    fn together(&self) -> Assigned {
        let mut sum = Assigned {
            cost: 0,
            promoted: 0,
            missing: 0,
        };
        for part in [
            self.queens,
            self.rooks,
            self.knights,
            self.dark_bishops,
            self.light_bishops,
        ] {
            sum.cost = sum.cost.saturating_add(part.cost);
            sum.promoted = sum.promoted.saturating_add(part.promoted);
            sum.missing |= part.missing;
        }
        sum
    }

    /// What may come back.
    fn wants(&self, has_room: bool) -> Wants {
        Wants {
            missing: self.kinds(has_room, Test::AreMissing),
            promoted: self.kinds(false, Test::WerePromoted),
            victims: false,
            has_room,
        }
    }

    /// The kinds that pass a test.
    fn kinds(&self, pawn: bool, passes: Test) -> Kinds {
        Kinds {
            pawn,
            queen: passes.holds(&self.queens),
            rook: passes.holds(&self.rooks),
            knight: passes.holds(&self.knights),
            dark_bishop: passes.holds(&self.dark_bishops),
            light_bishop: passes.holds(&self.light_bishops),
        }
    }
}

/// What may be asked of men of a kind.
#[derive(Clone, Copy)]
enum Test {
    AreMissing,
    WerePromoted,
}

impl Test {
    fn holds(self, assigned: &Assigned) -> bool {
        match self {
            Test::AreMissing => assigned.missing != 0,
            Test::WerePromoted => assigned.promoted != 0,
        }
    }
}

/// Who of a side's officers goes where.
fn officers_of(books: &mut Books, force: &Force, closed: &mut Closed) -> Officers {
    Officers {
        queens: assign_kind(books, force.queens, &[1], closed),
        rooks: assign_kind(books, force.rooks, &[2, 3], closed),
        knights: assign_kind(books, force.knights, &[4, 5], closed),
        dark_bishops: assign_kind(books, force.bishops & DARK, &[6], closed),
        light_bishops: assign_kind(books, force.bishops & !DARK, &[7], closed),
    }
}

/// The account of a side; None if it has too many men, or one of them can't come home.
pub fn account_of(books: &mut Books, force: &Force) -> Option<Account> {
    let mut closed = NONE_CLOSED;
    let officers = officers_of(books, force, &mut closed);
    let all = officers.together();
    let king_moves = king_moves(books, force.king)?;
    let files = books.origins.files;
    let used = u32::from(all.promoted).saturating_add(force.pawns.count_ones());
    let room = files.count_ones();
    let moved = books.setting.king_move.saturating_mul(king_moves);
    let cost = all.cost.saturating_add(moved);
    if cost >= NEVER || used > room {
        return None;
    }
    let pawns_lost = (room - used).min(8) as u8;
    let lost_cost = books
        .setting
        .missing_pawn
        .saturating_mul(u32::from(pawns_lost));
    Some(Account {
        cost: cost.saturating_add(lost_cost),
        king_moves,
        missing: all.missing,
        closed,
        promoted: all.promoted,
        pawns_lost,
        wants: officers.wants(pawns_lost > 0),
        pawns: force.pawns,
        files,
    })
}
