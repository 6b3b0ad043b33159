ghost use Rattle.std.specs.Prelude.{◌≡◌, ℕ, ◌+◌, ◌-◌, ◌<◌, ◌≤◌, List, length, slice_index};
ghost use Rattle.assignment.specs.Tables.{IsTable};
ghost use Rattle.assignment.specs.Pairings.{IsHanding, IsLink, IsMatched, IsTree, Meets};

use crate::nearest::{Link, nearest};
use crate::pairing::{Pairing, raise};

/// A free column and the way to it: the row in place `from` meets the column in place `to`, and each place of the tree was reached
/// from its parent.
#[derive(Clone, Copy)]
pub(crate) struct Path<const W: usize> {
    pub(crate) parents: [u8; W],
    pub(crate) from: usize,
    pub(crate) to: usize,
}

/// Lets the potentials of the rows of the tree rise, and the prices of its columns, until one row meets one more column.
fn widen<const W: usize>(
    costs: &[[u16; W]],
    p: &mut Pairing<W>,
    k: usize,
    n: usize,
    parents: &[u8; W],
) -> Link
    requires table { IsTable costs.now W 32767 }
    requires row { n < length costs.now }
    requires tree { IsTree costs.now W p.old n k parents.now }
    ensures tree { IsTree costs.now W p.new n k parents.now }
    ensures link { IsLink costs.now W p.old k result.from result.to result.slack }
    ensures met { Meets costs.now W p.new result.from result.to }
{
    let link = nearest(costs, p, k);
    raise(&mut p.u, 0, k, link.slack);
    raise(&mut p.prices, 1, k, link.slack);
    link
}

/// Puts row `n` in place 0 and lets a tree grow from there until it meets a free column.
pub(crate) fn grow<const W: usize>(costs: &[[u16; W]], p: &mut Pairing<W>, n: usize) -> Path<W>
    requires table { IsTable costs.now W 32767 }
    requires row { n < length costs.now }
    requires matched { IsMatched costs.now W p.old n }
    ensures { IsHanding costs.now W p.new n result.from result.to result.parents }
{
    p.swap_places(0, n);
    let mut parents = [0; W];
    let mut k = 1;
    'growth: loop {
        let link = widen(costs, p, k, n, &parents);
        if link.to == 0 || n < link.to {
            return Path {
                parents,
                from: link.from,
                to: link.to,
            };
        }
        p.swap_places(k, link.to);
        parents[k] = link.from as u8;
        k += 1;
    }
}
