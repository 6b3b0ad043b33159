//! Paragraphs: each tells a node, or several that differ in the captured man alone and of which the same is said.

ghost use Rattle.std.specs.Prelude.{◌≡◌, ◌++◌, ◌∷◌, ◌<◌, ◌≤◌, [], IfOk, drop, length, slice_index_or, take};
ghost use Rattle.proof_prose.specs.Paragraphs.{are_alike, are_labels_alike, are_takings, as_in, captured_word, first_saying, heading_at, is_leaf, joins, kind_part, kinds_words, last_place, last_words, move_part, name_from, numbers_words, paragraph_text, said_of, said_or, said_words, taken_by, told_text};
ghost use Rattle.proof_prose.specs.Runs.{IsRun, run_of};

use crate::bodies::Spoken;
use crate::labels::push_label;
use crate::nodes::{Line, Told};
use board_base::{Kind, Unmove, is_move};
use proof_story::{Letters, are_same, copied, kept, push_wrapped};
use prose_words::{kind_word, push_number, say};
use query_base::Query;
use std::alloc::{AllocError, Global};

/// Whether the node has no children.
fn is_leaf(line: &Line) -> bool
    ensures { result ≡ is_leaf line.now }
{
    match line {
        Line::Because(_) | Line::Sketched(_) | Line::Back(_, _) => true,
        Line::Moves(count) => *count == 0,
    }
}

/// The man whom a retraction captured otherwise than en passant.
fn taken_by(u: &Unmove) -> Option<Kind>
    ensures { result ≡ taken_by u.now }
{
    if u.ep { None } else { u.captured }
}

/// Whether the retractions are of one move, which captured one man or another.
fn are_takings(a: &Unmove, b: &Unmove) -> bool
    ensures { result ≡ are_takings a.now b.now }
{
    taken_by(a).is_some() && taken_by(b).is_some() && is_move(&Some(a.mv), &b.mv)
}

/// Whether both are captures by the same move.
fn are_labels_alike(a: &Option<Unmove>, b: &Option<Unmove>) -> bool
    ensures { result ≡ are_labels_alike a.now b.now }
{
    match (a, b) {
        (Some(u), Some(v)) => are_takings(u, v),
        _ => false,
    }
}

/// Whether both nodes are children of one, and differ in the captured man alone.
fn are_alike(a: &Told, b: &Told) -> bool
    ensures { result ≡ are_alike a.now b.now }
{
    are_labels_alike(&a.label, &b.label) && are_same(a.prefix.text(), b.prefix.text())
}

/// Whether the second node is told with the first.
fn joins(a: &Spoken, b: &Spoken) -> bool
    ensures { result ≡ joins a.now b.now }
{
    is_leaf(&a.node.line)
        && is_leaf(&b.node.line)
        && are_alike(&a.node, &b.node)
        && are_same(a.body.text(), b.body.text())
}

/// Whether the node at a place is told with the one before.
fn joins_at(first: &Spoken, rest: &[Spoken], i: usize) -> bool
    requires { i < length rest.now }
    ensures { result ≡ joins (slice_index_or (first.now ∷ rest.now) i first.now) (slice_index_or rest.now i first.now) }
{
    if i == 0 {
        joins(first, &rest[0])
    } else {
        joins(&rest[i - 1], &rest[i])
    }
}

/// How many of the nodes are told with the first.
fn run_length(first: &Spoken, rest: &[Spoken]) -> usize
    ensures few { result ≤ length rest.now }
    ensures run { IsRun first.now (take result rest.now) (drop result rest.now) }
{
    for i in 0..rest.len() {
        if !joins_at(first, rest, i) {
            return i;
        }
    }
    rest.len()
}

/// The word for the man whom a retraction captured.
fn captured_word(label: &Option<Unmove>) -> &'static [u8]
    ensures { result.now ≡ captured_word label.now }
{
    match label {
        None => b"",
        Some(u) => match u.captured {
            None => b"",
            Some(kind) => kind_word(kind),
        },
    }
}

/// What stands before the word for a man: that he is the last, or a comma.
fn push_kind(last: bool, spoken: &Spoken, out: &mut Vec<u8>) -> Result<(), AllocError>
    ensures { IfOk result (λ _. out.new.items ≡ out.old.items ++ kind_part last spoken.now) }
{
    if last {
        say(b" or ", out)?;
    } else {
        say(b", ", out)?;
    }
    say(captured_word(&spoken.node.label), out)
}

/// The men who may have been captured in the place of the first one, as in `, bishop or rook`.
fn push_kinds(others: &[Spoken], out: &mut Vec<u8>) -> Result<(), AllocError>
    ensures { IfOk result (λ _. out.new.items ≡ out.old.items ++ kinds_words others.now) }
{
    for i in 0..others.len() {
        push_kind(others.len() - i == 1, &others[i], out)?;
    }
    Ok(())
}

/// After a hyphen, the last number of a run of several.
fn push_last(first: usize, last: usize, out: &mut Vec<u8>) -> Result<(), AllocError>
    ensures { IfOk result (λ _. out.new.items ≡ out.old.items ++ last_words first last) }
{
    if last == first {
        return Ok(());
    }
    say(b"-", out)?;
    push_number(last, out)
}

/// The first and the last number of a run, behind what both begin with.
fn push_numbers(
    prefix: &[u8],
    first: usize,
    last: usize,
    out: &mut Vec<u8>,
) -> Result<(), AllocError>
    ensures { IfOk result (λ _. out.new.items ≡ out.old.items ++ numbers_words prefix.now first last) }
{
    say(prefix, out)?;
    push_number(first, out)?;
    push_last(first, last, out)
}

/// The place of the last of these nodes.
fn last_place(first: &Spoken, others: &[Spoken]) -> usize
    ensures { result ≡ last_place first.now others.now }
{
    if others.len() == 0 {
        first.node.place
    } else {
        others[others.len() - 1].node.place
    }
}

/// The numbers of a node and of its siblings that are told with it; the root has none.
fn push_name(first: &Spoken, others: &[Spoken], out: &mut Vec<u8>) -> Result<(), AllocError>
    ensures { IfOk result (λ _. out.new.items ≡ out.old.items ++ name_from first.now others.now) }
{
    let last = last_place(first, others);
    match &first.node.label {
        None => Ok(()),
        Some(_) => push_numbers(first.node.prefix.text(), first.node.place, last, out),
    }
}

/// Which move a paragraph tells, with those who were captured by it.
fn push_move_words(
    whence: &Query,
    label: &Unmove,
    name: &[u8],
    others: &[Spoken],
    out: &mut Vec<u8>,
) -> Result<(), AllocError>
    ensures { IfOk result (λ _. out.new.items ≡ out.old.items ++ move_part label.now whence.now name.now (kinds_words others.now)) }
{
    say(name, out)?;
    say(b" ", out)?;
    push_label(whence, label, out)?;
    push_kinds(others, out)?;
    say(b". ", out)
}

/// What stands before what is said of a node and of those that are told with it.
fn push_heading(
    first: &Told,
    others: &[Spoken],
    name: &[u8],
    out: &mut Vec<u8>,
) -> Result<(), AllocError>
    ensures { IfOk result (λ _. out.new.items ≡ out.old.items ++ heading_at first.now.label first.now.whence name.now (kinds_words others.now)) }
{
    match &first.label {
        None => Ok(()),
        Some(label) => push_move_words(&first.whence, label, name, others, out),
    }
}

/// A paragraph that was told: its number, and what it says.
#[derive(Drop)]
pub struct Said {
    /// The number.
    pub name: Letters,
    /// What it says.
    pub body: Letters,
}

/// What is remembered of a paragraph.
fn said_of(alloc: Global, first: &Spoken, others: &[Spoken]) -> Result<Said, AllocError>
    ensures { IfOk result (λ said. said ≡ said_of (run_of first.now others.now)) }
{
    let mut name = Vec::new(alloc);
    push_name(first, others, &mut name)?;
    let body = copied(alloc, first.body.text())?;
    Ok(Said {
        name: kept(name),
        body,
    })
}

/// That it is as in the paragraph of this number.
fn push_as_in(name: &[u8], out: &mut Vec<u8>) -> Result<(), AllocError>
    ensures { IfOk result (λ _. out.new.items ≡ out.old.items ++ as_in name.now) }
{
    say(b"As in ", out)?;
    say(name, out)?;
    say(b".", out)
}

/// That it is as in the first of the earlier paragraphs that says so, or what is said, if none does.
fn push_first(said: &[Said], body: &[u8], out: &mut Vec<u8>) -> Result<(), AllocError>
    ensures { IfOk result (λ _. out.new.items ≡ out.old.items ++ said_or body.now (first_saying body.now said.now)) }
{
    for k in 0..said.len() {
        if are_same(said[k].body.text(), body) {
            return push_as_in(said[k].name.text(), out);
        }
    }
    say(body, out)
}

/// What is said, or that it is as in an earlier paragraph, if it is long and the same.
fn push_body(said: &[Said], body: &[u8], out: &mut Vec<u8>) -> Result<(), AllocError>
    ensures { IfOk result (λ _. out.new.items ≡ out.old.items ++ said_words body.now said.now) }
{
    if body.len() > 60 {
        push_first(said, body, out)
    } else {
        say(body, out)
    }
}

/// The rows of the paragraph of a node and of those that are told with it.
fn push_rows(
    alloc: Global,
    first: &Spoken,
    others: &[Spoken],
    said: &[Said],
    own: &Said,
    out: &mut Vec<u8>,
) -> Result<(), AllocError>
    requires { own.now ≡ said_of (run_of first.now others.now) }
    ensures { IfOk result (λ _. out.new.items ≡ out.old.items ++ paragraph_text said.now (run_of first.now others.now)) }
{
    let mut line = Vec::new(alloc);
    push_heading(&first.node, others, own.name.text(), &mut line)?;
    push_body(said, own.body.text(), &mut line)?;
    push_wrapped(line.as_slice(), out)
}

/// The paragraph that begins with the first of the nodes; the answer is how many of the others it tells.
fn push_paragraph(
    alloc: Global,
    first: &Spoken,
    rest: &[Spoken],
    said: &mut Vec<Said>,
    out: &mut Vec<u8>,
) -> Result<usize, AllocError>
    ensures few { IfOk result (λ n. n ≤ length rest.now) }
    ensures run { IfOk result (λ n. IsRun first.now (take n rest.now) (drop n rest.now)) }
    ensures text { IfOk result (λ n. out.new.items ≡ out.old.items ++ paragraph_text said.old.items (run_of first.now (take n rest.now))) }
    ensures said { IfOk result (λ n. said.new.items ≡ said.old.items ++ said_of (run_of first.now (take n rest.now)) ∷ []) }
{
    let n = run_length(first, rest);
    let others = &rest[..n];
    let own = said_of(alloc, first, others)?;
    push_rows(alloc, first, others, said.as_slice(), &own, out)?;
    said.push(own)?;
    Ok(n)
}

/// All nodes, one paragraph after another.
pub(crate) fn push_paragraphs(
    alloc: Global,
    nodes: &[Spoken],
    out: &mut Vec<u8>,
) -> Result<(), AllocError>
    ensures { IfOk result (λ _. out.new.items ≡ out.old.items ++ told_text nodes.now) }
{
    let mut said = Vec::new(alloc);
    let mut told: usize = 0;
    while told < nodes.len() {
        let n = push_paragraph(alloc, &nodes[told], &nodes[told + 1..], &mut said, out)?;
        told += 1 + n;
    }
    Ok(())
}
