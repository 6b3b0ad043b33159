//! The nodes of a certificate's tree, one after another.

ghost use Rattle.std.specs.Prelude.{List, [], ◌≡◌, ◌++◌, ◌∷◌, IfOk, reverse};
ghost use Rattle.std.specs.List.{All};
ghost use Rattle.cert_checker.specs.Proving.{Proves, ProvesClaim, ProvesEach};
ghost use Rattle.cert_text.specs.Seen.{tree_of};
ghost use Rattle.cert_text.specs.SeenCert.{cert_of};
ghost use Rattle.query_base.specs.Asked.{Asked};
ghost use Rattle.query_base.specs.Targets.{target};
ghost use Rattle.proof_prose.specs.Nodes.{below, earlier, kid_nodes, line_of, nodes_from, nodes_of, own_node, prefix_below};
ghost use Rattle.proof_prose.specs.Standing.{Stands};
ghost use Rattle.proof_prose.specs.declared.nodes.Line.TheVariants.{Sketched};
ghost use Rattle.unmove_gen.specs.Listed.{unmoves};

use board_base::{Unmove, UnmoveList};
use cert_text::{Body, Cert, Kids, Node, Reason};
use ep_history::{double_of, ep_fits};
use proof_story::{Letters, copied};
use prose_words::{push_number, say};
use query_base::{Claim, Query};
use sketch_body::SketchBody;
use std::alloc::{AllocError, Global};
use unmove_gen::pred;

/// Why no game reaches the query of a node, without its children.
#[derive(Drop)]
pub enum Line {
    /// The reason supports it.
    Because(Reason),
    /// This sketch shows it.
    Sketched(SketchBody),
    /// The query so many nodes above, which is this one, asks no more.
    Back(u8, Query),
    /// It has so many retractions.
    Moves(usize),
}

/// A node of a certificate's tree with what it takes to tell it.
#[derive(Drop)]
pub struct Told {
    /// What stands before the last part of its number, as `1.2.` of `1.2.3`.
    pub prefix: Letters,
    /// The last part of its number: its place among the children of one node, from 1 on; 0 at the root.
    pub place: usize,
    /// The retractions that lead to it, the first one first.
    pub path: UnmoveList,
    /// The retraction that leads to it, or None at the root.
    pub label: Option<Unmove>,
    /// The query from which the retraction leads; at the root its own.
    pub whence: Query,
    /// What it speaks of.
    pub query: Query,
    /// Why no game reaches that.
    pub line: Line,
}

/// A retraction behind the others, if there is one.
fn push_unmove(unmove: Option<Unmove>, out: &mut UnmoveList) -> Result<(), AllocError>
    ensures { IfOk result (λ _. out.new ≡ elim unmove [ None ↦ out.old | Some u ↦ out.old ++ u ∷ [] ]) }
{
    match unmove {
        None => Ok(()),
        Some(u) => match out.push(u) {
            Ok(()) => Ok(()),
            Err(_) => Err(AllocError),
        },
    }
}

/// The query of the ancestor so many steps above, of which the parent comes last; or this one, if there is none.
fn earlier(query: &Query, ancestors: &[Query], steps: u8) -> Query
    ensures { result ≡ earlier query.now (reverse ancestors.now) steps }
{
    let steps = usize::from(steps);
    if steps == 0 || ancestors.len() < steps {
        return *query;
    }
    ancestors[ancestors.len() - steps]
}

/// What a node says that rests on this sketch.
fn sketched(alloc: Global, body: &SketchBody) -> Result<Line, AllocError>
    ensures { IfOk result (λ line. line ≡ Sketched body.now) }
{
    match body.copied(alloc) {
        Ok(copy) => Ok(Line::Sketched(copy)),
        Err(_) => Err(AllocError),
    }
}

/// What a node says, below these ancestors, of which the parent comes last.
fn line_of(
    alloc: Global,
    query: &Query,
    ancestors: &[Query],
    node: &Node,
) -> Result<Line, AllocError>
    ensures { IfOk result (λ line. line ≡ line_of query.now (reverse ancestors.now) (tree_of node.now)) }
{
    match &node.body {
        Body::Rule(reason) => Ok(Line::Because(*reason)),
        Body::Back(steps) => Ok(Line::Back(*steps, earlier(query, ancestors, *steps))),
        Body::Sketch(body) => sketched(alloc, body),
        Body::Expand(kids) => Ok(Line::Moves(kids.len())),
    }
}

/// What stands before the numbers of the children of the node with this number.
fn prefix_below(alloc: Global, prefix: &[u8], place: usize) -> Result<Vec<u8>, AllocError>
    ensures { IfOk result (λ v. v.items ≡ prefix_below prefix.now place) }
{
    let mut own = Vec::new(alloc);
    say(prefix, &mut own)?;
    push_number(place, &mut own)?;
    say(b".", &mut own)?;
    Ok(own)
}

/// The same retractions.
pub(crate) fn copied_path(alloc: Global, path: &UnmoveList) -> Result<UnmoveList, AllocError>
    ensures { IfOk result (λ own. own ≡ path.now) }
{
    let mut own = UnmoveList::new(alloc);
    for i in 0..path.len() {
        push_unmove(path.get(i), &mut own)?;
    }
    Ok(own)
}

/// The retractions, and this one behind them.
fn longer(alloc: Global, path: &UnmoveList, label: &Unmove) -> Result<UnmoveList, AllocError>
    ensures { IfOk result (λ own. own ≡ path.now ++ label.now ∷ []) }
{
    let mut own = copied_path(alloc, path)?;
    push_unmove(Some(*label), &mut own)?;
    Ok(own)
}

/// Puts the child of a node after the others.
fn push_own(
    alloc: Global,
    whence: &Query,
    query: &Query,
    node: &Node,
    label: &Unmove,
    prefix: &[u8],
    place: usize,
    path: &UnmoveList,
    ancestors: &[Query],
    out: &mut Vec<Told>,
) -> Result<(), AllocError>
    ensures { IfOk result (λ _. out.new.items ≡ out.old.items ++ own_node prefix.now place path.now label.now whence.now query.now (reverse ancestors.now) (tree_of node.now) ∷ []) }
{
    let told = Told {
        prefix: copied(alloc, prefix)?,
        place,
        path: longer(alloc, path, label)?,
        label: Some(*label),
        whence: *whence,
        query: *query,
        line: line_of(alloc, query, ancestors, node)?,
    };
    out.push(told)?;
    Ok(())
}

/// Puts the nodes below this one after the others.
#[cycle(listing)]
fn push_below(
    alloc: Global,
    query: &Query,
    node: &Node,
    prefix: &[u8],
    path: &UnmoveList,
    ancestors: &mut Vec<Query>,
    out: &mut Vec<Told>,
) -> Result<(), AllocError>
    requires { (above : List Asked) × Proves (tree_of node.now) query.now above }
    ensures nodes { IfOk result (λ _. out.new.items ≡ out.old.items ++ below prefix.now path.now query.now (reverse ancestors.old.items) (tree_of node.now)) }
    ensures kept { IfOk result (λ _. ancestors.new.items ≡ ancestors.old.items) }
{
    match &node.body {
        Body::Rule(_) | Body::Back(_) | Body::Sketch(_) => Ok(()),
        Body::Expand(kids) => push_kids(alloc, query, kids, prefix, path, ancestors, out),
    }
}

/// Puts the children of a node, each with the nodes below it, after the others.
#[cycle(listing)]
fn push_kids(
    alloc: Global,
    query: &Query,
    kids: &Kids,
    prefix: &[u8],
    path: &UnmoveList,
    ancestors: &mut Vec<Query>,
    out: &mut Vec<Told>,
) -> Result<(), AllocError>
    requires { (above : List Asked) × ProvesEach kids.now query.now (unmoves query.now) above }
    ensures nodes { IfOk result (λ _. out.new.items ≡ out.old.items ++ kid_nodes prefix.now path.now query.now (reverse ancestors.old.items) 1 kids.now) }
    ensures kept { IfOk result (λ _. ancestors.new.items ≡ ancestors.old.items) }
{
    ancestors.push(*query)?;
    for i in 0..kids.len() {
        let kid = kids.get(i).unwrap();
        let next = pred(query, &kid.label);
        push_own(
            alloc,
            query,
            &next,
            &kid.node,
            &kid.label,
            prefix,
            i + 1,
            path,
            ancestors.as_slice(),
            out,
        )?;
        let own = prefix_below(alloc, prefix, i + 1)?;
        let further = longer(alloc, path, &kid.label)?;
        push_below(
            alloc,
            &next,
            &kid.node,
            own.as_slice(),
            &further,
            ancestors,
            out,
        )?;
    }
    let _ = ancestors.pop();
    Ok(())
}

/// What a game that contradicts the claim reaches.
fn aim_of(query: &Query, claim: &Claim) -> Query
    ensures { result ≡ target query.now claim.now }
{
    let mut aim = *query;
    match claim {
        Claim::Illegal => {}
        Claim::Last(m) => aim.barred = Some(*m),
        Claim::Lost(castle) => aim.held = query.held.with(*castle),
        Claim::Ep(m) => {
            if ep_fits(&query.board, query.turn, m) {
                aim.barred = double_of(m, query.turn);
            }
        }
    }
    aim
}

/// The root and the nodes below it.
fn listed(alloc: Global, query: &Query, root: &Node) -> Result<Vec<Told>, AllocError>
    requires { Proves (tree_of root.now) query.now [] }
    ensures { IfOk result (λ v. v.items ≡ nodes_from query.now (tree_of root.now)) }
{
    let mut nodes = Vec::new(alloc);
    let told = Told {
        prefix: copied(alloc, b"")?,
        place: 0,
        path: UnmoveList::new(alloc),
        label: None,
        whence: *query,
        query: *query,
        line: line_of(alloc, query, &[], root)?,
    };
    nodes.push(told)?;
    let mut ancestors = Vec::new(alloc);
    let path = UnmoveList::new(alloc);
    push_below(alloc, query, root, b"", &path, &mut ancestors, &mut nodes)?;
    Ok(nodes)
}

/// The nodes of a certificate's tree in preorder.
pub(crate) fn nodes_of(alloc: Global, cert: &Cert) -> Result<Vec<Told>, AllocError>
    requires { ProvesClaim (cert_of cert.now) }
    ensures nodes { IfOk result (λ v. v.items ≡ nodes_of (cert_of cert.now)) }
    ensures stand { IfOk result (λ v. All Stands v.items) }
{
    let aim = aim_of(&cert.query, &cert.claim);
    let nodes = listed(alloc, &aim, &cert.root)?;
    Ok(nodes)
}
