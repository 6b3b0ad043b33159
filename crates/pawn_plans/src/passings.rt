use crate::camps::{Camp, Camps, count_crossed, count_steps, highest};
use crate::matchings::{Fewest, NONE, fewest_captures};
use home_ways::{file_set, has};

/// What brings the pawns of both sides home.
#[derive(Clone, Copy, PartialEq, Eq)]
pub struct PawnCount {
    /// The least captures by pawns of the own side.
    pub own: u8,
    /// And of the other.
    pub other: u8,
    /// The home files to which no man of the own side comes so, one bit each.
    pub own_free: u8,
    /// And of the other.
    pub other_free: u8,
    /// How many steps both make.
    pub steps: u8,
}

/// On how many files pawns that must pass each other are told apart.
const MOST_CROSSED: usize = 6;

/// The pawns that have to leave their files, of both sides as each sees its own.
#[derive(Clone, Copy)]
struct Leaving {
    own: u64,
    other: u64,
}

/// On each file where pawns have to pass each other those of one side leave, as the choice has it.
fn who_leaves(camps: &Camps, choice: u32) -> Leaving {
    let theirs = camps.other.pawns.swap_bytes();
    let mut place: usize = 0;
    let mut own: u64 = 0;
    let mut other: u64 = 0;
    for file in 0..8 {
        let files = file_set(file);
        let (ours, foes) = (camps.own.pawns & files, theirs & files);
        if ours == 0
            || foes == 0
            || highest(ours) <= foes.trailing_zeros()
            || place >= MOST_CROSSED
        {
            continue;
        }
        if has(u64::from(choice), place) {
            own |= ours & (u64::MAX << (foes.trailing_zeros() % 64));
        } else {
            other |= foes & !(u64::MAX << (highest(ours) % 64));
        }
        place = place.saturating_add(1);
    }
    Leaving {
        own,
        other: other.swap_bytes(),
    }
}

/// The captures that this side's pawns need, if they aren't more than the men whom the other side lacks.
fn captures_of(camp: &Camp, leaving: u64, foe: &Camp) -> Option<Fewest> {
    let fewest = fewest_captures(
        camp.pawns,
        leaving,
        camp.files,
        camp.promoted,
        foe.pawns.swap_bytes(),
    );
    if fewest.captures < NONE && fewest.captures <= foe.lost() {
        Some(fewest)
    } else {
        None
    }
}

/// What these captures cost, if each one beyond the officers who are lacking is short of them.
fn price(camps: &Camps, own: u8, other: u8, capture: u32, short: u32) -> u32 {
    let shortage = own
        .saturating_sub(camps.other.officers_lost())
        .saturating_add(other.saturating_sub(camps.own.officers_lost()));
    u32::from(own.saturating_add(other))
        .saturating_mul(capture)
        .saturating_add(u32::from(shortage).saturating_mul(short))
}

/// The cheapest captures that bring the pawns of both sides home, each at this price, and at this one more if it has to take a
/// pawn. None if there aren't enough men.
pub fn passing(camps: &Camps, capture: u32, short: u32) -> Option<PawnCount> {
    let crossed = count_crossed(camps).min(MOST_CROSSED as u32);
    let steps = count_steps(camps.own.pawns)
        .saturating_add(count_steps(camps.other.pawns))
        .min(255) as u8;
    let mut best = None;
    let mut least = u32::MAX;
    for choice in 0..1u32 << crossed {
        let leaving = who_leaves(camps, choice);
        let Some(own) = captures_of(&camps.own, leaving.own, &camps.other) else {
            continue;
        };
        let Some(other) = captures_of(&camps.other, leaving.other, &camps.own) else {
            continue;
        };
        let cost = price(camps, own.captures, other.captures, capture, short);
        if cost < least {
            least = cost;
            best = Some(PawnCount {
                own: own.captures,
                other: other.captures,
                own_free: camps.own.files & !own.files,
                other_free: camps.other.files & !other.files,
                steps,
            });
        }
    }
    best
}
