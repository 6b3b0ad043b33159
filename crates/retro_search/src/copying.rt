ghost use Rattle.std.specs.Prelude.{◌≡◌, IfOk};
ghost use Rattle.cert_text.specs.Seen.{tree_of};

use board_base::Memory;
use cert_text::{Body, Kid, Kids, Node};
use std::alloc::Global;

/// A copy of the node and of all that is below it.
#[cycle(copying)]
pub(crate) fn copied(alloc: Global, node: &Node) -> Result<Node, Memory>
    ensures { IfOk result (λ copy. tree_of copy ≡ tree_of node.now) }
{
    match &node.body {
        Body::Rule(rule) => Ok(Node {
            body: Body::Rule(*rule),
        }),
        Body::Back(steps) => Ok(Node {
            body: Body::Back(*steps),
        }),
        Body::Expand(kids) => Ok(Node {
            body: Body::Expand(copied_all(alloc, kids)?),
        }),
        Body::Sketch(sketch) => Ok(Node {
            body: Body::Sketch(sketch.copied(alloc)?),
        }),
    }
}

/// Copies of the children and of all that is below them.
#[cycle(copying)]
fn copied_all(alloc: Global, kids: &Kids) -> Result<Kids, Memory>
    ensures { IfOk result (λ copies. copies ≡ kids.now) }
{
    let mut copies = Kids::new(alloc);
    for i in 0..kids.len() {
        let kid = kids.get(i).unwrap();
        copies.push(Kid {
            label: kid.label,
            node: copied(alloc, &kid.node)?,
        })?;
    }
    Ok(copies)
}
