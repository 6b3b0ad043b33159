ghost use Rattle.std.specs.Prelude.{◌≡◌, ◌≤◌, ◌↔◌, OnOk, OnErr, IsNone, MatchOption, None, Some};
ghost use Rattle.cert_text.specs.Tree.{none, kid_at, with_last, count};

use crate::reasons::Reason;
use board_base::{Memory, Unmove};
use sketch_body::SketchBody;
use std::alloc::Global;
use std::marker::Model;

/// A node of a certificate's tree. It speaks of a query: that of the root is the target of the claim, and that of a child the
/// query before its unmove. Contracts see it as a tree of the specification.
#[derive(Drop)]
#[cycle(node)]
pub struct Node {
    /// Why no game reaches the node's query.
    pub body: Body,
}

/// Why no game reaches a node's query.
#[derive(Drop)]
#[cycle(node)]
pub enum Body {
    /// This reason supports it.
    Rule(Reason),
    /// The ancestor so many steps up covers it; the parent is one step up.
    Back(u8),
    /// The array isn't its board, and no game reaches any of the queries before it.
    Expand(Kids),
    /// No game comes to the sketch of its board, as these lines say.
    Sketch(SketchBody),
}

/// A child of a node.
#[derive(Drop)]
#[cycle(node)]
pub struct Kid {
    /// The unmove that leads from the parent's query to the child's.
    pub label: Unmove,
    /// The child itself.
    pub node: Node,
}

/// The children of a node, in order. Contracts see them as a list of pairs, of a label and a tree.
#[derive(Drop)]
#[cycle(node)]
pub struct Kids {
    items: Vec<Kid>,
}

impl Model for Kids {
    ghost use Rattle.cert_text.specs.Tree.{Forest};
    ghost use Rattle.cert_text.specs.Sizes.{size_all};
    ghost use Rattle.cert_text.specs.TreeCode.{forest_code};

    ghost Value = { Forest };

    ghost coded = { forest_code };

    ghost use Rattle.cert_text.specs.SeenKids.{forest_of};

    ghost view = { λ k. forest_of k.items.items };

    ghost size = { size_all };

    ghost use Rattle.std.proofs.Common.{arith};
    ghost use Rattle.cert_text.specs.Falls.{kids_fall};

    ghost size_decreases = { λ a h. Prim.omega (arith, kids_fall a.items.items) };
}

impl Kids {
    ghost use Rattle.cert_text.specs.Seen.{tree_of};

    /// No children. This takes no memory; `push` takes what it needs from `alloc`.
    pub fn new(alloc: Global) -> Kids
        ensures { result ≡ none }
    {
        Kids {
            items: Vec::new(alloc),
        }
    }

    /// How many children there are.
    pub fn len(&self) -> usize
        ensures { result ≡ count self.now }
    {
        self.items.len()
    }

    /// The child at this place, counted from 0. None if and only if the place isn't below `len`.
    pub fn get(&self, i: usize) -> Option<&Kid>
        ensures kid { MatchOption result (kid_at self.now i ≡ None) (λ kid. kid_at self.now i ≡ Some (kid.now.label, tree_of kid.now.node)) }
        ensures none { IsNone result ↔ (count self.now ≤ i) }
    {
        if i < self.items.len() {
            Some(&self.items[i])
        } else {
            None
        }
    }

    /// Puts the child after the others. After `Memory` the list is unchanged, and the child is dropped.
    pub fn push(&mut self, kid: Kid) -> Result<(), Memory>
        ensures ok { OnOk result (self.new ≡ with_last self.old kid.label (tree_of kid.node)) }
        ensures err { OnErr result (self.new ≡ self.old) }
    {
        match self.items.push(kid) {
            Ok(()) => {}
            Err(_) => return Err(Memory),
        }
        Ok(())
    }
}
