ghost use Rattle.std.specs.Prelude.{List, IfOk, IfSome};
ghost use Rattle.query_base.specs.Asked.{Asked};
ghost use Rattle.cert_text.specs.Seen.{tree_of};
ghost use Rattle.cert_checker.specs.Proving.{Proves};
ghost use Rattle.price_sharing.specs.Children.{AreProvedBelow, IsGiven};
ghost use Rattle.price_sharing.specs.Proved.{IsProvedBelow};
ghost use Rattle.price_sharing.specs.Repriced.{AreRepriced, IsRepriced, IsServed};

use crate::giving::given;
use crate::serving::{Served, line_at, priced_line};
use board_base::Memory;
use cert_checker::reason_supports;
use cert_text::{Body, Kid, Kids, Node, Reason};
use query_base::Query;
use std::alloc::Global;
use unmove_gen::pred;

/// How many times a line is tried with the query of a sibling, at most.
const MOST_TRIES: u32 = 20_000;

/// The line that the child is given, if it isn't its own and supports its query.
fn given_line(kids: &Kids, child: &Query, node: &Node, served: Option<&Served>) -> Option<Reason>
    ensures { IfSome result (λ line. IsServed (tree_of node.now) line child.now kids.now) }
{
    let own = priced_line(node)?;
    let line = line_at(kids, served?.giver?)?;
    if line != own && reason_supports(child, &line) {
        Some(line)
    } else {
        None
    }
}

/// A copy of the child, which is expanded to this query, with the line that it is given.
#[cycle(sharing)]
fn shared_kid(
    alloc: Global,
    kids: &Kids,
    child: &Query,
    node: &Node,
    served: Option<&Served>,
    tries: &mut u32,
) -> Result<Node, Memory>
    requires { IsProvedBelow (tree_of node.now) child.now }
    ensures { IfOk result (λ copy. IsGiven (tree_of node.now) (tree_of copy) child.now kids.now) }
{
    match given_line(kids, child, node, served) {
        Some(line) => Ok(Node {
            body: Body::Rule(line),
        }),
        None => shared(alloc, child, node, tries),
    }
}

/// Copies of the children of a node of this query, and of all that is below them.
#[cycle(sharing)]
fn shared_all(alloc: Global, query: &Query, kids: &Kids, tries: &mut u32) -> Result<Kids, Memory>
    requires { AreProvedBelow kids.now query.now }
    ensures { IfOk result (λ copies. AreRepriced kids.now copies query.now kids.now) }
{
    let given = given(alloc, query, kids, tries)?;
    let mut copies = Kids::new(alloc);
    for i in 0..kids.len() {
        let kid = kids.get(i).unwrap();
        let child = pred(query, &kid.label);
        copies.push(Kid {
            label: kid.label,
            node: shared_kid(alloc, kids, &child, &kid.node, given.get(i), tries)?,
        })?;
    }
    Ok(copies)
}

/// A copy of the node, of this query, and of all that is below it.
#[cycle(sharing)]
fn shared(alloc: Global, query: &Query, node: &Node, tries: &mut u32) -> Result<Node, Memory>
    requires { IsProvedBelow (tree_of node.now) query.now }
    ensures { IfOk result (λ copy. IsRepriced (tree_of node.now) (tree_of copy) query.now) }
{
    match &node.body {
        Body::Rule(rule) => Ok(Node {
            body: Body::Rule(*rule),
        }),
        Body::Back(steps) => Ok(Node {
            body: Body::Back(*steps),
        }),
        Body::Expand(kids) => Ok(Node {
            body: Body::Expand(shared_all(alloc, query, kids, tries)?),
        }),
        Body::Sketch(sketch) => Ok(Node {
            body: Body::Sketch(sketch.copied(alloc)?),
        }),
    }
}

/// A copy of the tree with this root, which proves the query, in which siblings that are closed by the balance of captures have the same
/// set and prices as often as one line serves several of them: of the lines of some siblings, the first 16 at most, the one that supports
/// most of their queries is given to these, then the one that supports most of the others, and so on. Where lines were tried 20,000 times,
/// what is left is as in the tree. Which lines are shared is in no clause.
///
/// The copy is the tree but for such lines: each is its child's own, or one of a sibling's that supports the child's query. So it
/// proves the query as the tree does, below any ancestors.
pub fn with_shared_lines(alloc: Global, query: &Query, root: &Node) -> Result<Node, Memory>
    requires { IsProvedBelow (tree_of root.now) query.now }
    ensures repriced { IfOk result (λ copy. IsRepriced (tree_of root.now) (tree_of copy) query.now) }
    ensures proves { IfOk result (λ copy. (ancestors : List Asked) → Proves (tree_of root.now) query.now ancestors → Proves (tree_of copy) query.now ancestors) }
{
    let mut tries = MOST_TRIES;
    let copy = shared(alloc, query, root, &mut tries)?;
    Ok(copy)
}
