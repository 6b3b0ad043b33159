ghost use Rattle.std.specs.Prelude.{◌≡◌, ◌+◌, ◌-◌, ◌<◌, ◌≤◌, IfErr, OnOk, max};
ghost use Rattle.cert_text.specs.Tree.{none, with_last, expand};
ghost use Rattle.cert_text.specs.Seen.{tree_of};
ghost use Rattle.retro_search.specs.Unrefuted.{IfOpen, IfSpent, IfTooLarge};

use crate::unrefuted::Unrefuted;
use board_base::Unmove;
use cert_text::{Body, Kid, Kids, Node};
use std::alloc::Global;

/// The most lines that a certificate may have, of which those with prices count twice.
pub const MOST_NODES: u32 = 500_000;

/// A tree that refutes a query.
#[derive(Drop)]
pub struct Refutation {
    /// Its root.
    pub node: Node,
    /// How many ancestors above the query the tree leans on, counted from the parent up.
    pub lean: u8,
    /// How many unmoves it goes back at most, the last of them included that has no unmove before it.
    pub height: u8,
    /// How many lines it fills: one for each node, two if prices are listed, and two more for each unit of a sketch.
    pub lines: u32,
}

/// The children so far of a query that is expanded.
#[derive(Drop)]
pub struct Children {
    /// The children.
    pub kids: Kids,
    /// How many ancestors above the query they lean on, counted from its parent up.
    pub lean: u8,
    /// The height of the highest.
    pub highest: u8,
    /// How many lines they fill together.
    pub lines: u32,
}

impl Children {
    /// No children.
    pub(crate) fn new(alloc: Global) -> Children
        ensures kids { result.kids ≡ none }
        ensures numbers { (result.lean ≡ 0) × (result.highest ≡ 0) × (result.lines ≡ 0) }
    {
        Children {
            kids: Kids::new(alloc),
            lean: 0,
            highest: 0,
            lines: 0,
        }
    }

    /// Puts a child after the others, if the tree then fills at most 500,000 lines.
    pub(crate) fn add(&mut self, label: Unmove, kid: Refutation) -> Result<(), Unrefuted>
        requires few { self.old.lines < MOST_NODES }
        requires kid { kid.lines ≤ MOST_NODES }
        ensures kids { OnOk result (self.new.kids ≡ with_last self.old.kids label (tree_of kid.node)) }
        ensures lean { OnOk result (self.new.lean ≡ max self.old.lean (kid.lean - 1)) }
        ensures highest { OnOk result (self.new.highest ≡ max self.old.highest kid.height) }
        ensures lines { OnOk result (self.new.lines ≡ self.old.lines + kid.lines) }
        ensures room { OnOk result (self.new.lines < MOST_NODES) }
        ensures closed { IfErr result (λ stop. IfOpen stop (λ line. ⊥)) }
        ensures unspent { IfErr result (λ stop. IfSpent stop ⊥) }
        ensures too_large { IfErr result (λ stop. IfTooLarge stop (MOST_NODES ≤ self.old.lines + kid.lines)) }
    {
        if self.lines + kid.lines >= MOST_NODES {
            return Err(Unrefuted::TooLarge);
        }
        self.lines += kid.lines;
        self.highest = self.highest.max(kid.height);
        self.lean = self.lean.max(kid.lean.saturating_sub(1));
        match self.kids.push(Kid {
            label,
            node: kid.node,
        }) {
            Ok(()) => Ok(()),
            Err(_) => Err(Unrefuted::Memory),
        }
    }

    /// The refutation by these children.
    pub(crate) fn finish(self) -> Refutation
        requires low { self.highest < 255 }
        requires few { self.lines < MOST_NODES }
        ensures tree { tree_of result.node ≡ expand self.kids }
        ensures lean { result.lean ≡ self.lean }
        ensures height { result.height ≡ self.highest + 1 }
        ensures lines { result.lines ≡ self.lines + 1 }
    {
        Refutation {
            lean: self.lean,
            height: self.highest + 1,
            lines: self.lines + 1,
            node: Node {
                body: Body::Expand(self.kids),
            },
        }
    }
}
