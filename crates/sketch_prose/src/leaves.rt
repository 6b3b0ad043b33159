ghost use Rattle.std.specs.Prelude.{◌≡◌};
ghost use Rattle.sketch_body.specs.Bodies.{is_now};
ghost use Rattle.sketch_prose.specs.Leaves.{end_leaf, leaf_of};

use sketch_text::{End, Label, SketchNode};

/// How a node is told among its siblings.
#[derive(Clone, Copy)]
pub enum Leaf {
    /// In a line with them: the line of prices with this number closes it.
    Shut(u8),
    /// In a line of its own: it is void.
    Astray,
    /// By itself, with what is below it.
    Open,
}

/// Whether the label is that of the first node, to which no step leads.
fn is_now(label: &Label) -> bool
    ensures { result ≡ is_now label.now }
{
    match label {
        Label::Now => true,
        Label::Step(_) | Label::Case(_) => false,
    }
}

/// How a node without marks is told among its siblings, by how it ends.
fn end_leaf(end: End) -> Leaf
    ensures { result ≡ end_leaf end }
{
    match end {
        End::Void => Leaf::Astray,
        End::Closed(number) => Leaf::Shut(number),
        End::Steps(_) | End::Split(_) => Leaf::Open,
    }
}

/// How a node with this line is told.
pub(crate) fn leaf_of(node: &SketchNode) -> Leaf
    ensures { result ≡ leaf_of node.now }
{
    if node.marks == 0 && !is_now(&node.label) {
        end_leaf(node.end)
    } else {
        Leaf::Open
    }
}
