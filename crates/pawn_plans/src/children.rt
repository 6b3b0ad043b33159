use crate::camps::{Camp, Camps, Victim};
use board_base::Memory;
use home_ways::{bit, has, squares_of};

/// A step of a plan on the way back: where it has come, what it has cost, and how many captures by pawns it has, of pawns and of promoted
/// men among them.
#[derive(Clone, Copy)]
pub struct Step {
    pub camps: Camps,
    pub cost: u32,
    pub captures: u8,
    pub pawns_taken: u8,
    pub promoted_taken: u8,
}

/// The pawn goes back from one square to another.
fn moved(camps: &Camps, from: usize, to: usize) -> Camps {
    let own = Camp {
        pawns: camps.own.pawns & !bit(from) | bit(to),
        ..camps.own
    };
    Camps {
        own,
        other: camps.other,
    }
}

/// The square as the other side sees it.
fn turned(square: usize) -> usize {
    square ^ 56
}

/// An officer, or a promoted man, comes back on the square of a capture.
fn with_officer(step: &Step, camps: &Camps, square: usize, cost: u32) -> Option<Step> {
    let mut camps = *camps;
    let victim = camps.other.put_back(turned(square))?;
    let (more, taken) = match victim {
        Victim::Officer => (0, 0),
        Victim::Promoted => (8, 1),
    };
    Some(Step {
        camps,
        cost: step.cost.saturating_add(cost).saturating_add(more),
        captures: step.captures.saturating_add(1),
        pawns_taken: step.pawns_taken,
        promoted_taken: step.promoted_taken.saturating_add(taken),
    })
}

/// A pawn comes back on the square of a capture.
fn with_pawn(step: &Step, camps: &Camps, square: usize, cost: u32) -> Option<Step> {
    if camps.other.pawns_lost == 0 || square < 8 || square >= 56 {
        return None;
    }
    let other = Camp {
        pawns: camps.other.pawns | bit(turned(square)),
        pawns_lost: camps.other.pawns_lost - 1,
        ..camps.other
    };
    Some(Step {
        camps: Camps {
            own: camps.own,
            other,
        },
        cost: step.cost.saturating_add(cost).saturating_add(2),
        captures: step.captures.saturating_add(1),
        pawns_taken: step.pawns_taken.saturating_add(1),
        promoted_taken: step.promoted_taken,
    })
}

/// The squares diagonally behind a square, seen from the side that goes up the board.
fn behind(square: usize) -> u64 {
    let set = bit(square);
    set >> 9 & 0x7f7f_7f7f_7f7f_7f7f | set >> 7 & 0xfefe_fefe_fefe_fefe
}

fn add(found: Option<Step>, out: &mut Vec<Step>) -> Result<(), Memory> {
    match found {
        Some(step) => out.push(step).map_err(|_| Memory),
        None => Ok(()),
    }
}

/// The pawn on a square, come to another straight, captured there.
fn add_captures(
    step: &Step,
    from: usize,
    on: usize,
    cost: u32,
    out: &mut Vec<Step>,
) -> Result<(), Memory> {
    for to in squares_of(behind(on) & !step.camps.pawns()) {
        let camps = moved(&step.camps, from, to);
        add(with_officer(step, &camps, on, cost), out)?;
        add(with_pawn(step, &camps, on, cost), out)?;
    }
    Ok(())
}

/// The pawn on a square goes back, and captures on its way.
fn add_ways(step: &Step, from: usize, out: &mut Vec<Step>) -> Result<(), Memory> {
    let all = step.camps.pawns();
    let mut on = from;
    let mut cost = 1;
    for _ in 0..6 {
        if on < 16 {
            break;
        }
        add_captures(step, from, on, cost, out)?;
        if has(all, on - 8) {
            break;
        }
        on -= 8;
        cost = 2;
        if on >= 16 || from < 24 {
            let walked = Step {
                camps: moved(&step.camps, from, on),
                cost: step.cost.saturating_add(2),
                ..*step
            };
            add(Some(walked), out)?;
        }
    }
    Ok(())
}

/// A promoted man becomes a pawn on the last rank but one.
fn demoted(step: &Step, to: usize) -> Camps {
    let own = Camp {
        pawns: step.camps.own.pawns | bit(to),
        promoted: step.camps.own.promoted.saturating_sub(1),
        ..step.camps.own
    };
    Camps {
        own,
        other: step.camps.other,
    }
}

/// A promoted man takes his promotion back on a file, straight or by a capture.
fn add_demotions(step: &Step, to: usize, out: &mut Vec<Step>) -> Result<(), Memory> {
    let camps = demoted(step, to);
    let straight = Step {
        camps,
        cost: step.cost.saturating_add(2),
        ..*step
    };
    add(Some(straight), out)?;
    let ahead = (bit(to) << 9 & 0xfefe_fefe_fefe_fefe) | (bit(to) << 7 & 0x7f7f_7f7f_7f7f_7f7f);
    for on in squares_of(ahead) {
        match with_officer(step, &camps, on, 4) {
            Some(found) if found.promoted_taken == step.promoted_taken => add(Some(found), out)?,
            _ => {}
        }
    }
    Ok(())
}

/// What the own side's pawns and promoted men can do next on the way back.
pub fn add_children(step: &Step, out: &mut Vec<Step>) -> Result<(), Memory> {
    for from in squares_of(step.camps.own.pawns) {
        add_ways(step, from, out)?;
    }
    if step.camps.own.promoted > 0 {
        for to in 48..56 {
            if !has(step.camps.pawns(), to) {
                add_demotions(step, to, out)?;
            }
        }
    }
    Ok(())
}
