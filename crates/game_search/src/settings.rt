/// What is dearer than any way: there is none.
pub const NEVER: u32 = 1 << 28;

/// The price of a capture by a pawn.
pub const CAPTURE: u32 = 20;

/// The price of a man who was promoted.
pub const PROMOTED: u32 = 80;

/// The price of a move of an officer.
pub const OFFICER_MOVE: u32 = 4;

/// What a missing officer costs more whose home is shut in for good, and by men who can move.
pub const SHUT_HARD: u32 = 16;

pub const SHUT_SOFTLY: u32 = 8;

/// What it costs that no plan of the pawns was found, though there may be one.
pub const NO_PLAN_YET: u32 = 60;

/// The price of a move of the officer who is to capture a man.
pub const HUNT: u32 = 6;

/// What a move costs that a king makes because of men who bar his way, and what it costs that they bar every way.
pub const KING_DETOUR: u32 = 2;

pub const KING_BARRED: u32 = 10;

/// From how many buckets one is drawn.
pub const SPAN: usize = 96;

/// Of how many shares the attempts have theirs.
pub const SHARES: u32 = 20;

/// The prices of an attempt, and how it goes about.
#[derive(Clone, Copy)]
pub struct Setting {
    /// A move of a king.
    pub king_move: u32,
    /// A step of a pawn.
    pub pawn_step: u32,
    /// A capture by a pawn that has to take a pawn.
    pub short: u32,
    /// A missing officer, and a missing pawn.
    pub missing: u32,
    pub missing_pawn: u32,
    /// A pawn at home before an officer who isn't.
    pub order: u32,
    /// Two retractions.
    pub depth: u32,
    /// Whether it counts who bars the kings' ways.
    pub king_ways: bool,
    /// Whether plans of the pawns are made.
    pub plans: bool,
    /// Which query each time is drawn at random: each second or third one; 0 for none.
    pub explores: u32,
    /// What the numbers begin with that are drawn.
    pub seed: u64,
    /// How many shares of all queries the attempt may look at.
    pub share: u32,
}

const BASE: Setting = Setting {
    king_move: 8,
    pawn_step: 3,
    short: 40,
    missing: 14,
    missing_pawn: 12,
    order: 4,
    depth: 1,
    king_ways: true,
    plans: true,
    explores: 0,
    seed: 1,
    share: 1,
};

/// The attempts, one after another.
pub const ATTEMPTS: [Setting; 8] = [
    BASE,
    Setting {
        explores: 2,
        share: 3,
        ..BASE
    },
    Setting {
        missing: 20,
        missing_pawn: 20,
        explores: 2,
        seed: 2,
        share: 3,
        ..BASE
    },
    Setting {
        missing: 6,
        missing_pawn: 4,
        explores: 2,
        seed: 3,
        share: 3,
        ..BASE
    },
    Setting {
        king_move: 20,
        king_ways: false,
        explores: 3,
        seed: 4,
        share: 3,
        ..BASE
    },
    Setting {
        plans: false,
        short: 120,
        explores: 2,
        seed: 5,
        share: 2,
        ..BASE
    },
    Setting {
        pawn_step: 5,
        order: 8,
        explores: 3,
        seed: 6,
        share: 3,
        ..BASE
    },
    Setting {
        depth: 0,
        explores: 2,
        seed: 7,
        share: 2,
        ..BASE
    },
];
