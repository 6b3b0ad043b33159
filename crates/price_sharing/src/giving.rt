ghost use Rattle.price_sharing.specs.Children.{AreProvedBelow};

use crate::serving::{Giver, Served, all_served, givers_among};
use board_base::Memory;
use cert_text::Kids;
use query_base::Query;
use std::alloc::Global;

impl Served {
    /// Whether the child is given no line so far, and the line of this giver, counted from 0, serves it.
    fn waits_for(&self, giver: usize) -> bool {
        self.giver.is_none() && self.by.get(giver) == Some(&true)
    }
}

/// How many children wait for the line of this giver, counted from 0.
fn waiting_for(served: &[Served], giver: usize) -> usize {
    served.iter().filter(|child| child.waits_for(giver)).count()
}

/// The giver, counted from 0, for whose line most children wait, if at least two do; of equal ones the first.
fn best_giver(served: &[Served], givers: usize) -> Option<usize> {
    let mut best = None;
    let mut most = 1;
    for giver in 0..givers {
        let waiting = waiting_for(served, giver);
        if most < waiting {
            most = waiting;
            best = Some(giver);
        }
    }
    best
}

/// Gives the line of this giver, counted from 0, who stands at this place, to all children that wait for it.
fn give(served: &mut [Served], giver: usize, place: usize) {
    for child in served.iter_mut() {
        if child.waits_for(giver) {
            child.giver = Some(place);
        }
    }
}

/// Gives one line after the other to the children that wait for it, first the one for which most do, until no two wait for the same.
fn give_all(served: &mut [Served], givers: &[Giver]) {
    for _ in 0..givers.len() {
        let Some(best) = best_giver(served, givers.len()) else {
            return;
        };
        if let Some(giver) = givers.get(best) {
            give(served, best, giver.place);
        }
    }
}

/// Which lines the children are given, in their order; none if they have one line or none among them.
pub(crate) fn given(
    alloc: Global,
    query: &Query,
    kids: &Kids,
    tries: &mut u32,
) -> Result<Vec<Served>, Memory>
    requires { AreProvedBelow kids.now query.now }
{
    let givers = givers_among(alloc, kids)?;
    if givers.len() < 2 {
        return Ok(Vec::new(alloc));
    }
    let mut served = all_served(alloc, query, kids, &givers, tries)?;
    give_all(&mut served, &givers);
    Ok(served)
}
