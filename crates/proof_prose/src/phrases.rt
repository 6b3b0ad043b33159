//! What may be said of nodes: by exact numbers, or by numbers that are enough.

ghost use Rattle.std.specs.Prelude.{◌≡◌, ◌∷◌, [], IfOk, IfSome, is_none, length, map};
ghost use Rattle.std.specs.List.{All};
ghost use Rattle.balance_prose.specs.declared.numbers.Numbers.TheVariants.{Enough};
ghost use Rattle.proof_prose.specs.Bodies.{AddsLine, moves_sentence};
ghost use Rattle.proof_prose.specs.Standing.{IsPhrased, Stands};
ghost use Rattle.proof_sentences.specs.Reasons.{Adds};
ghost use Rattle.unmove_gen.specs.Listed.{unmoves};

use crate::nodes::{Line, Told};
use balance_prose::Numbers;
use cert_text::Reason;
use proof_sentences::{Sentence, push_one, push_reason};
use proof_story::{Letters, kept};
use query_base::{Query, RuleLine};
use retraction_bars::{bars_hold, pairs_hold, ways_are_told};
use sketch_prose::push_sketch;
use std::alloc::{AllocError, Global};

/// A node of a certificate's tree, and what may be said of it.
#[derive(Drop)]
pub struct Phrased {
    /// The node.
    pub node: Told,
    /// What is said of it by exact numbers.
    pub exact: Letters,
    /// The same by numbers that are enough, if there are any.
    pub enough: Option<Letters>,
}

/// That the side that moved last has no move that can have been the last, or has so many.
fn moves_sentence(count: usize, first: bool) -> Sentence
    ensures { result ≡ moves_sentence count first }
{
    if count == 0 {
        Sentence::Still(first)
    } else {
        Sentence::Moved(first)
    }
}

/// Whether there are retractions; if there are none, what is told of each man is so.
fn push_moves(
    alloc: Global,
    query: &Query,
    count: usize,
    first: bool,
    out: &mut Vec<u8>,
) -> Result<(), AllocError>
    requires { length (unmoves query.now) ≡ count }
    ensures { IfOk result (λ _. Adds query.now (moves_sentence count first ∷ []) out.old.items out.new.items) }
{
    bars_hold();
    pairs_hold();
    ways_are_told();
    push_one(alloc, query, &moves_sentence(count, first), out)
}

/// Why no game reaches the query of a node, with these numbers.
fn push_line(
    alloc: Global,
    node: &Told,
    numbers: Numbers,
    out: &mut Vec<u8>,
) -> Result<(), AllocError>
    requires { Stands node.now }
    ensures { IfOk result (λ _. AddsLine numbers node.now.label node.now.line node.now.query out.old.items out.new.items) }
{
    let first = node.label.is_none();
    match &node.line {
        Line::Because(reason) => push_reason(alloc, &node.query, numbers, first, reason, out),
        Line::Sketched(body) => push_sketch(alloc, &node.query, body, out),
        Line::Back(steps, above) => {
            push_one(alloc, &node.query, &Sentence::Back(*steps, *above), out)
        }
        Line::Moves(count) => push_moves(alloc, &node.query, *count, first, out),
    }
}

/// What is said of a node with these numbers.
fn body_of(alloc: Global, node: &Told, numbers: Numbers) -> Result<Letters, AllocError>
    requires { Stands node.now }
    ensures { IfOk result (λ body. AddsLine numbers node.now.label node.now.line node.now.query [] body) }
{
    let mut body = Vec::new(alloc);
    push_line(alloc, node, numbers, &mut body)?;
    Ok(kept(body))
}

/// Whether numbers are told of a node that other nodes may share if they need only be enough.
fn has_numbers(line: &Line) -> bool {
    match line {
        Line::Because(Reason::Line(rule)) => matches!(rule, RuleLine::Caps(_, _, _)),
        Line::Because(Reason::Balance(_, _)) => true,
        Line::Sketched(_) | Line::Back(_, _) | Line::Moves(_) => false,
    }
}

/// What is said of a node by numbers that are enough, if there are any.
fn enough_of(alloc: Global, node: &Told) -> Result<Option<Letters>, AllocError>
    requires { Stands node.now }
    ensures { IfOk result (λ enough. IfSome enough (λ body. AddsLine Enough node.now.label node.now.line node.now.query [] body)) }
{
    if has_numbers(&node.line) {
        let body = body_of(alloc, node, Numbers::Enough)?;
        Ok(Some(body))
    } else {
        Ok(None)
    }
}

/// A node with what may be said of it.
fn with_phrases(alloc: Global, node: Told) -> Result<Phrased, AllocError>
    requires { Stands node }
    ensures node { IfOk result (λ p. p.node ≡ node) }
    ensures said { IfOk result IsPhrased }
{
    let exact = body_of(alloc, &node, Numbers::Exact)?;
    let enough = enough_of(alloc, &node)?;
    Ok(Phrased {
        node,
        exact,
        enough,
    })
}

/// The nodes, each with what may be said of it.
pub(crate) fn phrased_of(alloc: Global, nodes: Vec<Told>) -> Result<Vec<Phrased>, AllocError>
    requires { All Stands nodes.items }
    ensures nodes { IfOk result (λ all. nodes.items ≡ map (λ p. p.node) all.items) }
    ensures said { IfOk result (λ all. All IsPhrased all.items) }
{
    let mut all = Vec::new(alloc);
    for node in nodes {
        let own = with_phrases(alloc, node)?;
        all.push(own)?;
    }
    Ok(all)
}
