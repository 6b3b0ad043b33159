ghost use Rattle.std.specs.Prelude.{◌≡◌, ◌+◌, ◌^◌, ◌<◌, Some, IfErr, IfOk, OnOk, reverse};
ghost use Rattle.std.specs.declared.cmp.Ordering.TheVariants.{Equal};
ghost use Rattle.board_base.specs.Texts.{unmove_order};
ghost use Rattle.unmove_gen.specs.Listed.{unmoves};
ghost use Rattle.cert_text.specs.Seen.{tree_of};
ghost use Rattle.cert_checker.specs.Walk.{Walks, WalksEach};
ghost use Rattle.cert_checker.specs.Walking.{HasSketches, HaveSketches, IsFault, IsLabelFault, IsWalked, lines_in, lines_in_all};

use crate::reasons::reason_supports;
use crate::refusals::{Refused, Why};
use crate::sketch_walking::check_sketch;
use board_base::{Unmove, cmp_unmove};
use cert_text::{Body, Kids, Node};
use query_base::{Query, is_array, is_covered};
use std::cmp::Ordering;
use unmove_gen::{Unmoves, pred};

/// The first unmove that no child before has, if it is the label of the child on this line; else the child's fault.
fn check_label(label: &Unmove, first: Option<Unmove>, line: u32) -> Result<Unmove, Refused>
    ensures ok { IfOk result (λ u. (first ≡ Some u) × (unmove_order label.now u ≡ Equal)) }
    ensures fault { IfErr result (λ f. IsFault f (IsLabelFault first label.now line)) }
{
    let stray = Refused::Unsupported {
        line,
        why: Why::Stray,
    };
    match first {
        None => Err(stray),
        Some(unmove) => match cmp_unmove(label, &unmove) {
            Ordering::Less => Err(stray),
            Ordering::Equal => Ok(unmove),
            Ordering::Greater => Err(Refused::Unlisted { line, unmove }),
        },
    }
}

/// What the walk of the node on this line comes to: its first fault, or the line after its tree's.
#[cycle(walking)]
pub fn check_node(
    query: &Query,
    node: &Node,
    ancestors: &mut Vec<Query>,
    line: u32,
) -> Result<u32, Refused>
    requires room { line + lines_in (tree_of node.now) < 2 ^ 32 }
    requires sketches { HasSketches (tree_of node.now) }
    ensures walk { IsWalked result (Walks (tree_of node.now) query.now (reverse ancestors.old.items) line) }
    ensures kept { OnOk result (ancestors.new.items ≡ ancestors.old.items) }
    ensures next { IfOk result (λ n. n ≡ line + lines_in (tree_of node.now)) }
{
    match &node.body {
        Body::Rule(reason) => {
            if reason_supports(query, reason) {
                Ok(line + 1)
            } else {
                Err(Refused::Unsupported {
                    line,
                    why: Why::Rule,
                })
            }
        }
        Body::Back(steps) => {
            if is_covered(ancestors, *steps, query) {
                Ok(line + 1)
            } else {
                Err(Refused::Unsupported {
                    line,
                    why: Why::Back,
                })
            }
        }
        Body::Expand(kids) => {
            if is_array(query) {
                return Err(Refused::Unsupported {
                    line,
                    why: Why::Array,
                });
            }
            check_kids(query, kids, ancestors, line)
        }
        Body::Sketch(body) => check_sketch(query, body, line),
    }
}

/// What the walk of the children of the node on this line comes to: their first fault, or the line after them.
#[cycle(walking)]
fn check_kids(
    query: &Query,
    kids: &Kids,
    ancestors: &mut Vec<Query>,
    top: u32,
) -> Result<u32, Refused>
    requires room { top + 1 + lines_in_all kids.now < 2 ^ 32 }
    requires sketches { HaveSketches kids.now }
    ensures walk { IsWalked result (WalksEach kids.now query.now (unmoves query.now) (reverse ancestors.old.items) top (top + 1)) }
    ensures kept { OnOk result (ancestors.new.items ≡ ancestors.old.items) }
    ensures next { IfOk result (λ n. n ≡ top + 1 + lines_in_all kids.now) }
{
    match ancestors.push(*query) {
        Ok(()) => {}
        Err(_) => return Err(Refused::Memory),
    }
    let mut unmoves = Unmoves::new(query);
    let mut next = top + 1;
    for i in 0..kids.len() {
        let kid = kids.get(i).unwrap();
        let unmove = match check_label(&kid.label, unmoves.next(), next) {
            Ok(unmove) => unmove,
            Err(fault) => return Err(fault),
        };
        match check_node(&pred(query, &unmove), &kid.node, ancestors, next) {
            Ok(after) => next = after,
            Err(fault) => return Err(fault),
        }
    }
    let _ = ancestors.pop();
    match unmoves.next() {
        Some(unmove) => Err(Refused::Unlisted { line: top, unmove }),
        None => Ok(next),
    }
}
