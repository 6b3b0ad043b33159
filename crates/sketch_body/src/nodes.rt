ghost use Rattle.std.specs.Prelude.{◌≡◌, ◌∷◌, true, None, Some, length, nat_lt};
ghost use Rattle.std.specs.Bool.{OnFalse, OnTrue};
ghost use Rattle.sketch_body.specs.Bodies.{is_now};
ghost use Rattle.sketch_body.specs.Due.{after_node, announced, fits_depth, fits_label, if_any, settled};

use crate::charges::announced;
use crate::counts::{Counts, settle};
use sketch_text::{Label, SketchNode};

fn is_now(label: &Label) -> bool
    ensures { result ≡ is_now label.now }
{
    match label {
        Label::Now => true,
        Label::Step(_) | Label::Case(_) => false,
    }
}

fn fits_label(depth: usize, label: &Label) -> bool
    ensures { result ≡ fits_label depth label.now }
{
    if depth == 0 {
        is_now(label)
    } else {
        !is_now(label)
    }
}

fn if_any(count: u16, so: bool) -> bool
    ensures { result ≡ if_any count so }
{
    count == 0 || so
}

/// Whether the node may stand at this depth of a sketch with so many lines of prices.
fn fits_depth(prices: u8, depth: usize, node: &SketchNode) -> bool
    ensures { result ≡ fits_depth prices depth node.now }
{
    fits_label(depth, &node.label)
        && (if_any(announced(&node.end), depth < 64) && if_any(u16::from(node.marks), prices > 0))
}

/// Goes below a node with so many nodes below it.
fn go_below(nodes: &mut Counts, count: u16)
    requires { if_any count (nat_lt (length nodes.old) 65) ≡ true }
    ensures { nodes.new ≡ settled (count ∷ nodes.old) }
{
    if count > 0 {
        nodes.push(count);
    } else {
        settle(nodes);
    }
}

/// Takes a node of those that are due, if one is and it may stand there. Nothing changes otherwise.
pub(crate) fn take_node(prices: u8, nodes: &mut Counts, node: &SketchNode) -> bool
    ensures taken { OnTrue result (after_node prices nodes.old node.now ≡ Some (record { prices = prices; wanted = 0; marks = node.now.marks; nodes = nodes.new })) }
    ensures refused { OnFalse result (after_node prices nodes.old node.now ≡ None) }
    ensures kept { OnFalse result (nodes.new ≡ nodes.old) }
{
    let _ = nodes.len();
    let Some(count) = nodes.pop() else {
        return false;
    };
    if count == 0 || !fits_depth(prices, nodes.len(), node) {
        nodes.push(count);
        return false;
    }
    nodes.push(count - 1);
    go_below(nodes, announced(&node.end));
    true
}
