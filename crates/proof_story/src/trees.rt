//! The nodes as a tree, and which of them are told alike.

use crate::letters::Letters;
use crate::stories::Point;
use board_base::{Colour, Kind, Unmove};
use std::alloc::{AllocError, Global};
use std::collections::HashMap;

/// A node of the tree.
#[derive(Clone, Copy)]
pub(crate) struct Node {
    /// The place behind the nodes below it.
    pub end: usize,
    /// The retractions that lead to it.
    pub depth: usize,
    /// Which text it has: nodes with the same number say the same.
    pub words: usize,
    /// How it is told, with all below: nodes with the same number are told alike.
    pub class: usize,
    /// About how many letters that takes.
    pub size: usize,
}

/// The tree of some nodes in preorder.
#[derive(Drop)]
pub(crate) struct Tree {
    nodes: Vec<Node>,
}

const NO_NODE: Node = Node {
    end: 0,
    depth: 0,
    words: 0,
    class: 0,
    size: 0,
};

impl Tree {
    /// The node at this place, or one without anything.
    pub(crate) fn at(&self, i: usize) -> Node {
        match self.nodes.get(i) {
            None => NO_NODE,
            Some(node) => *node,
        }
    }

    /// The children of a node, in order.
    pub(crate) fn kids(&self, alloc: Global, i: usize) -> Result<Vec<usize>, AllocError> {
        let mut kids = Vec::new(alloc);
        let end = self.at(i).end;
        let mut k = i.saturating_add(1);
        for _ in i..end {
            if k >= end {
                break;
            }
            kids.push(k)?;
            k = self.at(k).end.max(k.saturating_add(1));
        }
        Ok(kids)
    }
}

/// The last retraction that leads to a node.
pub(crate) fn last_of(points: &[Point], i: usize) -> Option<Unmove> {
    match points.get(i) {
        None => None,
        Some(point) => point.path.get(point.path.len().saturating_sub(1)),
    }
}

/// How many retractions lead to a node.
fn depth_of(points: &[Point], i: usize) -> usize {
    match points.get(i) {
        None => 0,
        Some(point) => point.path.len(),
    }
}

/// The place behind the nodes below the one at a place: the first that is no deeper.
fn ends(alloc: Global, points: &[Point]) -> Result<Vec<usize>, AllocError> {
    let mut ends = Vec::new(alloc);
    let mut open: Vec<usize> = Vec::new(alloc);
    for i in 0..points.len() {
        ends.push(points.len())?;
        close(points, i, &mut open, &mut ends)?;
        open.push(i)?;
    }
    Ok(ends)
}

/// Ends the nodes that are no higher than the one at this place.
fn close(
    points: &[Point],
    i: usize,
    open: &mut Vec<usize>,
    ends: &mut Vec<usize>,
) -> Result<(), AllocError> {
    let depth = depth_of(points, i);
    for _ in 0..points.len() {
        match open.pop() {
            None => break,
            Some(k) => {
                if depth_of(points, k) < depth {
                    open.push(k)?;
                    break;
                }
                if let Some(end) = ends.get_mut(k) {
                    *end = i;
                }
            }
        }
    }
    Ok(())
}

/// The number of a text, the same for the same text.
fn number_of(texts: &mut HashMap<Vec<u8>, usize>, text: Vec<u8>) -> Result<usize, AllocError> {
    if let Some(number) = texts.get(&text) {
        return Ok(*number);
    }
    let number = texts.len();
    texts.insert(text, number)?;
    Ok(number)
}

/// A number, in the eight bytes that a machine word has.
fn push_count(n: usize, out: &mut Vec<u8>) -> Result<(), AllocError> {
    for byte in n.to_le_bytes() {
        out.push(byte)?;
    }
    Ok(())
}

/// A byte for a kind, and 0 for none.
fn code_of(kind: Option<Kind>) -> u8 {
    match kind {
        None => 0,
        Some(Kind::Pawn) => 1,
        Some(Kind::Knight) => 2,
        Some(Kind::Bishop) => 3,
        Some(Kind::Rook) => 4,
        Some(Kind::Queen) => 5,
        Some(Kind::King) => 6,
    }
}

/// A retraction, in a few bytes of its own.
fn push_retraction(u: &Unmove, out: &mut Vec<u8>) -> Result<(), AllocError> {
    out.push(u.mv.from.index())?;
    out.push(u.mv.to.index())?;
    out.push(code_of(u.mv.promo))?;
    out.push(code_of(u.captured))?;
    out.push(u8::from(u.ep))?;
    Ok(())
}

/// The man who made the move that the retraction takes back, in a few bytes of its own.
fn push_mover(points: &[Point], i: usize, u: &Unmove, out: &mut Vec<u8>) -> Result<(), AllocError> {
    if let Some(point) = points.get(i) {
        if let Some(man) = point.whence.board.at(u.mv.to) {
            out.push(code_of(Some(man.kind)))?;
            out.push(u8::from(man.colour == Colour::White))?;
        }
    }
    Ok(())
}

/// What tells how a node is told: its own words, and of each child the retraction and how that child is told.
fn key_of(alloc: Global, points: &[Point], tree: &Tree, i: usize) -> Result<Vec<u8>, AllocError> {
    let mut key = Vec::new(alloc);
    push_count(tree.at(i).words, &mut key)?;
    let kids = tree.kids(alloc, i)?;
    for kid in kids.as_slice() {
        push_count(tree.at(*kid).class, &mut key)?;
        if let Some(u) = last_of(points, *kid) {
            push_retraction(&u, &mut key)?;
            push_mover(points, *kid, &u, &mut key)?;
        }
    }
    Ok(key)
}

/// About how many letters a node takes, with all below it.
fn size_of(alloc: Global, points: &[Point], tree: &Tree, i: usize) -> Result<usize, AllocError> {
    let mut size = match points.get(i) {
        None => 0,
        Some(point) => point.body.text().len(),
    };
    let kids = tree.kids(alloc, i)?;
    for kid in kids.as_slice() {
        size = size.saturating_add(tree.at(*kid).size.saturating_add(20));
    }
    Ok(size)
}

/// The nodes, without how they are told.
fn plain_nodes(alloc: Global, points: &[Point]) -> Result<Vec<Node>, AllocError> {
    let ends = ends(alloc, points)?;
    let mut texts = HashMap::new(alloc);
    let mut nodes = Vec::new(alloc);
    for i in 0..points.len() {
        let text = copied_bytes(alloc, points[i].body.text())?;
        let words = number_of(&mut texts, text)?;
        let end = match ends.get(i) {
            None => points.len(),
            Some(end) => *end,
        };
        let depth = points[i].path.len();
        nodes.push(Node {
            end,
            depth,
            words,
            class: 0,
            size: 0,
        })?;
    }
    Ok(nodes)
}

/// The tree of the nodes.
pub(crate) fn tree_of(alloc: Global, points: &[Point]) -> Result<Tree, AllocError> {
    let mut tree = Tree {
        nodes: plain_nodes(alloc, points)?,
    };
    let mut classes = HashMap::new(alloc);
    for back in 0..points.len() {
        let i = points.len() - 1 - back;
        let key = key_of(alloc, points, &tree, i)?;
        let class = number_of(&mut classes, key)?;
        let size = size_of(alloc, points, &tree, i)?;
        if let Some(node) = tree.nodes.get_mut(i) {
            node.class = class;
            node.size = size;
        }
    }
    Ok(tree)
}

/// A copy of these bytes.
fn copied_bytes(alloc: Global, text: &[u8]) -> Result<Vec<u8>, AllocError> {
    let mut own = Vec::new(alloc);
    for byte in text {
        own.push(*byte)?;
    }
    Ok(own)
}
