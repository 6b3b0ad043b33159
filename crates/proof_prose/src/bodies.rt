//! What is said of nodes. Children of one node of which the same is said by numbers that are enough, and not by exact ones, are told by those,
//! so that they can share a paragraph; every other node is told by exact numbers.

ghost use Rattle.std.specs.Prelude.{◌≡◌, ◌<◌, IfOk, length, map};
ghost use Rattle.std.specs.List.{All};
ghost use Rattle.proof_prose.specs.Bodies.{AreSpoken, IsSpoken};
ghost use Rattle.proof_prose.specs.Standing.{IsPhrased, Stands};

use crate::nodes::Told;
use crate::phrases::{Phrased, phrased_of};
use proof_story::{Letters, are_same};
use std::alloc::{AllocError, Global};

/// A node of a certificate's tree, and what is said of it.
#[derive(Drop)]
pub struct Spoken {
    /// The node.
    pub node: Told,
    /// What is said of it.
    pub body: Letters,
}

/// Whether both nodes are children of one, and told alike by numbers that are enough, but not by exact ones.
fn are_joined(a: &Phrased, b: &Phrased) -> bool {
    match (&a.enough, &b.enough) {
        (Some(x), Some(y)) => {
            are_same(a.node.prefix.text(), b.node.prefix.text())
                && are_same(x.text(), y.text())
                && !are_same(a.exact.text(), b.exact.text())
        }
        _ => false,
    }
}

/// Marks a place, if it is there.
fn mark(joined: &mut Vec<bool>, i: usize) {
    if let Some(mark) = joined.get_mut(i) {
        *mark = true;
    }
}

/// Marks the node at a place and those of its later siblings with which it is joined. All that comes behind the last of these has a shorter
/// number.
fn mark_joined(all: &[Phrased], i: usize, joined: &mut Vec<bool>)
    requires { i < length all.now }
{
    let prefix = all[i].node.prefix.text().len();
    for j in i + 1..all.len() {
        if all[j].node.prefix.text().len() < prefix {
            return;
        }
        if are_joined(&all[i], &all[j]) {
            mark(joined, i);
            mark(joined, j);
        }
    }
}

/// Which of the nodes are joined with a sibling.
fn joined_ones(alloc: Global, all: &[Phrased]) -> Result<Vec<bool>, AllocError> {
    let mut joined = vec![in alloc; false; all.len()]?;
    for i in 0..all.len() {
        if all[i].enough.is_some() {
            mark_joined(all, i, &mut joined);
        }
    }
    Ok(joined)
}

/// What is said of a node: by numbers that are enough if it is joined with another, and if there are any.
fn spoken_as(phrased: Phrased, is_joined: bool) -> Spoken
    requires { IsPhrased phrased }
    ensures node { result.node ≡ phrased.node }
    ensures said { IsSpoken result }
{
    let Phrased {
        node,
        exact,
        enough,
    } = phrased;
    match enough {
        Some(body) => {
            if is_joined {
                Spoken { node, body }
            } else {
                Spoken { node, body: exact }
            }
        }
        None => Spoken { node, body: exact },
    }
}

/// Whether there is a mark at this place.
fn is_marked(joined: &[bool], i: usize) -> bool {
    match joined.get(i) {
        Some(mark) => *mark,
        None => false,
    }
}

/// The nodes, each with what is said of it.
fn chosen(alloc: Global, all: Vec<Phrased>, joined: &[bool]) -> Result<Vec<Spoken>, AllocError>
    requires { All IsPhrased all.items }
    ensures { IfOk result (λ spoken. AreSpoken (map (λ p. p.node) all.items) spoken.items) }
{
    let mut told = Vec::new(alloc);
    for phrased in all {
        let own = spoken_as(phrased, is_marked(joined, told.len()));
        told.push(own)?;
    }
    Ok(told)
}

/// The nodes, each with what is said of it.
pub(crate) fn spoken_of(alloc: Global, nodes: Vec<Told>) -> Result<Vec<Spoken>, AllocError>
    requires { All Stands nodes.items }
    ensures { IfOk result (λ spoken. AreSpoken nodes.items spoken.items) }
{
    let all = phrased_of(alloc, nodes)?;
    let joined = joined_ones(alloc, all.as_slice())?;
    chosen(alloc, all, joined.as_slice())
}
