ghost use Rattle.std.specs.Prelude.{◌≤◌, IfSome};
ghost use Rattle.cert_text.specs.Seen.{tree_of};
ghost use Rattle.price_sharing.specs.Children.{AreProvedBelow};
ghost use Rattle.price_sharing.specs.Repriced.{HasPrices, IsLineOf};

use board_base::Memory;
use cert_checker::reason_supports;
use cert_text::{Body, Kids, Node, Reason};
use query_base::Query;
use std::alloc::Global;
use unmove_gen::pred;

/// The most lines of siblings that are tried.
const MOST_GIVERS: usize = 16;

/// A child with a line of prices, the first of its siblings that has this line.
#[derive(Clone, Copy)]
pub(crate) struct Giver {
    /// Its place among the children, counted from 0.
    pub place: usize,
    /// Its line.
    pub line: Reason,
}

/// Which of the givers' lines support a child's query, and the line that the child is given.
#[derive(Clone, Copy)]
pub(crate) struct Served {
    /// For each giver, in order, whether its line supports the query, as far as was tried.
    pub by: [bool; MOST_GIVERS],
    /// The place of the giver whose line the child is given.
    pub giver: Option<usize>,
}

/// The node's line, if it has prices.
pub(crate) fn priced_line(node: &Node) -> Option<Reason>
    ensures { IfSome result (λ line. HasPrices (tree_of node.now) line) }
{
    match &node.body {
        Body::Rule(Reason::Balance(set, prices)) => Some(Reason::Balance(*set, *prices)),
        _ => None,
    }
}

/// The line of the child at this place, if it has prices.
pub(crate) fn line_at(kids: &Kids, place: usize) -> Option<Reason>
    ensures { IfSome result (IsLineOf kids.now) }
{
    let kid = kids.get(place)?;
    let line = priced_line(&kid.node)?;
    Some(line)
}

/// The first children with prices of whom no two have the same line, at most 16.
pub(crate) fn givers_among(alloc: Global, kids: &Kids) -> Result<Vec<Giver>, Memory> {
    let mut givers: Vec<Giver> = Vec::new(alloc);
    for place in 0..kids.len() {
        if let Some(line) = line_at(kids, place) {
            let is_new = givers.iter().all(|giver| giver.line != line);
            if is_new && givers.len() < MOST_GIVERS {
                match givers.push(Giver { place, line }) {
                    Ok(()) => {}
                    Err(_) => return Err(Memory),
                }
            }
        }
    }
    Ok(givers)
}

/// Whether the giver's line supports the query of the child with this line of its own. Each try is counted; if none is left, it isn't
/// tried.
fn serves(giver: &Giver, own: &Reason, child: &Query, tries: &mut u32) -> bool {
    if giver.line == *own {
        return true;
    }
    if *tries == 0 {
        return false;
    }
    *tries -= 1;
    reason_supports(child, &giver.line)
}

/// Which of the givers serve the child with this line of its own.
fn served_by(givers: &[Giver], own: &Reason, child: &Query, tries: &mut u32) -> Served {
    let mut by = [false; MOST_GIVERS];
    for (flag, giver) in by.iter_mut().zip(givers) {
        *flag = serves(giver, own, child, tries);
    }
    Served { by, giver: None }
}

/// Which of the givers serve each child, in the order of the children.
pub(crate) fn all_served(
    alloc: Global,
    query: &Query,
    kids: &Kids,
    givers: &[Giver],
    tries: &mut u32,
) -> Result<Vec<Served>, Memory>
    requires { AreProvedBelow kids.now query.now }
{
    let mut all = Vec::new(alloc);
    for i in 0..kids.len() {
        let kid = kids.get(i).unwrap();
        let served = match priced_line(&kid.node) {
            Some(own) => served_by(givers, &own, &pred(query, &kid.label), tries),
            None => Served {
                by: [false; MOST_GIVERS],
                giver: None,
            },
        };
        match all.push(served) {
            Ok(()) => {}
            Err(_) => return Err(Memory),
        }
    }
    Ok(all)
}
