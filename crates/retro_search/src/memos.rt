ghost use Rattle.std.specs.Prelude.{◌≡◌, ◌≤◌, ◌↔◌, IfSome, IsSome, IsTrue, OnOk, false, true};
ghost use Rattle.cert_text.specs.Seen.{tree_of};
ghost use Rattle.std.specs.List.{Contains};
ghost use Rattle.indexmap.specs.IndexMap.{values};
ghost use Rattle.retro_search.specs.Kept.{IsSound, KeepsRuleLines, StandsAlone};
ghost use Rattle.retro_search.specs.RuleLines.{IsByRuleLines};
ghost use Rattle.retro_search.specs.Tidy.{HasRoomFor, IsFresh, IsKeptLow, Keeps};

use crate::copying::copied;
use crate::refutations::Refutation;
use board_base::Memory;
use byte_hash::ByteHasher;
use cert_text::Node;
use indexmap::IndexMap;
use query_base::Query;
use std::alloc::Global;
use std::hash::BuildHasherDefault;

/// The most trees that are kept.
const MOST_TREES: usize = 65_536;

/// The most lines that the trees that are kept have together.
const MOST_LINES: u32 = 2_000_000;

/// A refutation that leans on no ancestor.
#[derive(Drop)]
pub struct Kept {
    /// What is refuted.
    pub query: Query,
    /// The root of the tree.
    pub node: Node,
    /// The height of the tree.
    pub height: u8,
    /// How many lines it fills, of which those with prices count twice.
    pub lines: u32,
}

/// The refutations that a search keeps.
#[derive(Drop)]
pub struct Memo {
    /// The trees, by their queries.
    pub trees: IndexMap<Query, Kept, BuildHasherDefault<ByteHasher>>,
    /// A number that the lines of all trees together don't pass.
    pub lines: u32,
    /// Whether any are kept.
    pub on: bool,
}

/// Whether the queries are the same: they have the same board, side to move and odds, and demand the same.
fn is_same(a: &Query, b: &Query) -> bool
    ensures { IsTrue result ↔ (a.now ≡ b.now) }
{
    a == b
}

impl Memo {
    /// A memo that has kept nothing so far.
    pub(crate) fn new(alloc: Global) -> Memo
        ensures sound { IsSound result }
        ensures lined { KeepsRuleLines result }
        ensures fresh { IsFresh result }
    {
        Memo {
            trees: IndexMap::with_hasher(alloc, BuildHasherDefault::new()),
            lines: 0,
            on: true,
        }
    }

    /// A memo that keeps nothing.
    pub(crate) fn off(alloc: Global) -> Memo
        ensures sound { IsSound result }
        ensures lined { KeepsRuleLines result }
        ensures off { result.on ≡ false }
    {
        Memo {
            trees: IndexMap::with_hasher(alloc, BuildHasherDefault::new()),
            lines: 0,
            on: false,
        }
    }

    /// The tree that is kept for the query, if there is one, and it isn't higher than the depth.
    pub(crate) fn find(&self, query: &Query, depth: u8) -> Option<&Kept>
        ensures found { IsSound self.now → IfSome result (λ kept. StandsAlone (tree_of kept.now.node) query.now kept.now.height kept.now.lines) }
        ensures low { IfSome result (λ kept. kept.now.height ≤ depth) }
        ensures on { IfSome result (λ kept. self.now.on ≡ true) }
        ensures among { IfSome result (λ kept. (kept.now.query ≡ query.now) × Contains (values self.now.trees) kept.now) }
        ensures complete { IsKeptLow self.now query.now depth → IsSome result }
    {
        if !self.on {
            return None;
        }
        match self.trees.get(query) {
            Some(kept) => {
                if kept.height <= depth && is_same(&kept.query, query) {
                    Some(kept)
                } else {
                    None
                }
            }
            None => None,
        }
    }

    /// Keeps a copy of the tree, which leans on no ancestor, if there is room.
    pub(crate) fn keep(
        &mut self,
        alloc: Global,
        query: &Query,
        found: &Refutation,
    ) -> Result<(), Memory>
        requires sound { IsSound self.old }
        requires alone { StandsAlone (tree_of found.now.node) query.now found.now.height found.now.lines }
        ensures sound { IsSound self.new }
        ensures on { self.new.on ≡ self.old.on }
        ensures lined { KeepsRuleLines self.old → IsByRuleLines (tree_of found.now.node) → KeepsRuleLines self.new }
        ensures kept { OnOk result (HasRoomFor self.old query.now found.now.lines → Keeps self.old query.now found.now self.new) }
    {
        if !self.on || self.trees.len() >= MOST_TREES || MOST_LINES - self.lines < found.lines {
            return Ok(());
        }
        let kept = Kept {
            query: *query,
            node: copied(alloc, &found.node)?,
            height: found.height,
            lines: found.lines,
        };
        match self.trees.insert(*query, kept) {
            Ok(_) => {}
            Err(_) => return Err(Memory),
        }
        self.lines += found.lines;
        Ok(())
    }
}
