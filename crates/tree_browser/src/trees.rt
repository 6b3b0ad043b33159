ghost use Rattle.std.specs.Prelude.{ℕ, ◌≡◌, ◌+◌, ◌++◌, ◌≤◌, ◌<◌, ◌↔◌, [], IfErr, IfOk, IsTrue, List, MatchResult, OnOk, None, length, reverse, suc};
ghost use Rattle.board_base.specs.Texts.{can_capture, can_promote, unmove_text};
ghost use Rattle.tree_browser.specs.Trees.{HasMoreLines, IsTree, IsTreeText};
ghost use Rattle.tree_browser.specs.Pages.{AreTrees};
ghost use Rattle.query_base.specs.Asked.{Asked};
ghost use Rattle.unmove_gen.specs.Listed.{unmoves};
ghost use Rattle.tree_browser.specs.Pages.{Writes, WritesAll};

use crate::lines::write_line;
use crate::notes::{expands, note_of};
use arrayvec::ArrayVec;
use board_base::write_unmove;
use query_base::Query;
use std::alloc::Global;
use thiserror::Error;
use unmove_gen::{Unmoves, pred, unmoves_have_texts};

/// Why no text was written.
#[derive(Clone, Copy, PartialEq, Eq, Debug, Error)]
pub enum TreeFault {
    /// The text has more lines than were allowed.
    #[error("the tree has more lines than were allowed")]
    Spent,
    /// Want of memory.
    #[error("out of memory")]
    Memory,
}

/// The text so far, and how many lines may follow.
#[derive(Drop)]
pub struct Page {
    pub text: Vec<u8>,
    pub left: u32,
}

/// Writes the tree of the query, with so many levels left, below these ancestors, of which the parent comes last.
#[cycle(writing)]
fn write_tree(
    alloc: Global,
    query: &Query,
    left: u8,
    label: &[u8],
    ancestors: &mut Vec<Query>,
    page: &mut Page,
) -> Result<(), TreeFault>
    requires { length ancestors.old.items + left ≤ 64 }
    ensures written { OnOk result (Writes query.now left (reverse ancestors.old.items) label.now page.old page.new) }
    ensures spent { IfErr result (λ fault. fault ≡ TreeFault.Spent → (n : ℕ) (text : List ℕ) → IsTree left query.now (reverse ancestors.old.items) label.now n text → page.old.left < n) }
    ensures kept { OnOk result (ancestors.new.items ≡ ancestors.old.items) }
{
    if page.left == 0 {
        return Err(TreeFault::Spent);
    }
    page.left -= 1;
    let note = note_of(query, ancestors, left);
    match write_line(alloc, ancestors.len(), label, note, &mut page.text) {
        Ok(()) => {}
        Err(_) => return Err(TreeFault::Memory),
    }
    if expands(note) {
        match write_children(alloc, query, left - 1, ancestors, page) {
            Ok(()) => return Ok(()),
            Err(fault) => return Err(fault),
        }
    }
    Ok(())
}

/// Writes the trees of the query's predecessors.
#[cycle(writing)]
fn write_children(
    alloc: Global,
    query: &Query,
    left: u8,
    ancestors: &mut Vec<Query>,
    page: &mut Page,
) -> Result<(), TreeFault>
    requires { length ancestors.old.items + left < 64 }
    ensures written { OnOk result (WritesAll query.now left (reverse ancestors.old.items) (unmoves query.now) page.old page.new) }
    ensures spent { IfErr result (λ fault. fault ≡ TreeFault.Spent → (n : ℕ) (text : List ℕ) → AreTrees left query.now (reverse ancestors.old.items) (unmoves query.now) n text → page.old.left < n) }
    ensures kept { OnOk result (ancestors.new.items ≡ ancestors.old.items) }
{
    unmoves_have_texts();
    match ancestors.push(*query) {
        Ok(()) => {}
        Err(_) => return Err(TreeFault::Memory),
    }
    let mut unmoves = Unmoves::new(query);
    while let Some(unmove) = unmoves.next() {
        let mut name: ArrayVec<u8, 8> = ArrayVec::new();
        write_unmove(&unmove, &mut name);
        let before = pred(query, &unmove);
        match write_tree(alloc, &before, left, name.as_slice(), ancestors, page) {
            Ok(()) => {}
            Err(fault) => return Err(fault),
        }
    }
    let _ = ancestors.pop();
    Ok(())
}

/// The text of the tree of the query's retractions to this depth, of at most so many lines.
///
/// A line for each node, in preorder, with two spaces for each level before it: `root`, or the node's unmove; a space; and the first
/// that is so of these: `closed`, if some rule line supports the node's query; `back k`, if an ancestor covers it, with the
/// least such k; `array`, if the game of no moves reaches it; `end`, if the node stands at the last depth; `expand n`, if n
/// is the number of its unmoves, whose nodes follow in their order. Each query has exactly one such text: it comes only if it has at
/// most so many lines, and `Spent` only if it has more.
pub fn tree_text(alloc: Global, query: &Query, depth: u8, nodes: u32) -> Result<Vec<u8>, TreeFault>
    requires barred { query.now.barred ≡ None }
    requires depth { depth ≤ 64 }
    requires nodes { (1 ≤ nodes) × (nodes ≤ 500_000) }
    ensures text { IfOk result (λ v. (n : ℕ) × IsTreeText query.now depth n v.items × (n ≤ nodes)) }
    ensures spent { IfErr result (λ fault. fault ≡ TreeFault.Spent → HasMoreLines query.now depth nodes) }
{
    let mut page = Page {
        text: Vec::new(alloc),
        left: nodes,
    };
    let mut ancestors = Vec::new(alloc);
    match write_tree(alloc, query, depth, b"root", &mut ancestors, &mut page) {
        Ok(()) => Ok(page.text),
        Err(fault) => Err(fault),
    }
}

/// The law that each query has exactly one tree text at each depth, of one number of lines. This does nothing when it runs.
pub fn one_text_each()
    ensures some { (q : Asked) (depth : ℕ) → (n : ℕ) × (text : List ℕ) × IsTreeText q depth n text }
    ensures one { (q : Asked) (depth m n : ℕ) (s t : List ℕ) → IsTreeText q depth m s → IsTreeText q depth n t → (m ≡ n) × (s ≡ t) }
{}
