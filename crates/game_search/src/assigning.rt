use crate::settings::{NEVER, OFFICER_MOVE, PROMOTED};
use home_ways::{FAR, Way, bit, count, squares_of};

/// A home that men may go to: how far they are from it, what it costs if nobody goes, and its bit among the homes. A home that isn't
/// asked for has no way, and costs nothing if nobody goes.
#[derive(Clone, Copy)]
pub struct Home {
    pub way: Option<Way>,
    pub missing: u32,
    pub mark: u8,
}

/// Who goes to which home: what it costs, who of them was promoted, and which homes nobody goes to, one bit each.
#[derive(Clone, Copy)]
pub struct Assigned {
    pub cost: u32,
    pub promoted: u8,
    pub missing: u8,
}

/// What the way home costs from a square.
fn price(home: &Home, square: usize) -> u32 {
    match home.way {
        Some(way) => {
            let moves = way.moves[square % 64];
            if moves == FAR {
                NEVER
            } else {
                OFFICER_MOVE.saturating_mul(u32::from(moves))
            }
        }
        None => NEVER,
    }
}

/// The cheaper of two.
fn better(best: Assigned, cost: u32, promoted: u32, missing: u8) -> Assigned {
    if cost < best.cost {
        Assigned {
            cost,
            promoted: promoted.min(16) as u8,
            missing,
        }
    } else {
        best
    }
}

/// What so many promoted men cost.
fn promotions(number: u32) -> u32 {
    PROMOTED.saturating_mul(number)
}

/// The best with this man going to the first or the second home, alone.
fn with_one(best: Assigned, number: u32, first: &Home, second: &Home, man: usize) -> Assigned {
    let others = number.saturating_sub(1);
    let one = promotions(others)
        .saturating_add(price(first, man))
        .saturating_add(second.missing);
    let best = better(best, one, others, second.mark);
    let other = promotions(others)
        .saturating_add(price(second, man))
        .saturating_add(first.missing);
    better(best, other, others, first.mark)
}

/// Men of one kind go to at most two homes, at the least cost; who goes to none was promoted.
pub fn assign(men: u64, first: &Home, second: &Home) -> Assigned {
    let number = count(men);
    let mut best = Assigned {
        cost: promotions(number)
            .saturating_add(first.missing)
            .saturating_add(second.missing),
        promoted: number.min(16) as u8,
        missing: first.mark | second.mark,
    };
    for man in squares_of(men) {
        best = with_one(best, number, first, second, man);
        let others = number.saturating_sub(2);
        let begun = promotions(others).saturating_add(price(first, man));
        if begun < best.cost {
            for other in squares_of(men & !bit(man)) {
                let cost = begun.saturating_add(price(second, other));
                best = better(best, cost, others, 0);
            }
        }
    }
    best
}
