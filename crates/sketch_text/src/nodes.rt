ghost use Rattle.std.specs.Prelude.{◌≡◌};
ghost use Rattle.sketch_text.specs.Nodes.{case_of, end_of, labelled_of, marked_end_of, node_of, node_with, rest_of, square_of};

use crate::cutting::halves;
use crate::labels::{Label, read_label, read_officer};
use crate::numbers::read_within;
use board_base::{Square, read_square};

/// Why no game comes to a moment that the sketch of a node fits.
#[derive(Clone, Copy, PartialEq, Eq, Debug)]
pub enum End {
    /// `void`: a man who never moved isn't the array's.
    Void,
    /// `closed` and the number of a line of prices, counted from 1, at which the men cost too much.
    Closed(u8),
    /// `steps` and how many nodes follow, 0 to 1,024, one for each step that may have been the last.
    Steps(u16),
    /// `split` and a square: three nodes follow, one for each kind that the man there may be.
    Split(Square),
}

/// What the line of a node of a sketch says.
#[derive(Clone, Copy, PartialEq, Eq, Debug)]
pub struct SketchNode {
    /// What leads to the node.
    pub label: Label,
    /// How many lines of marks follow, 0 to 8.
    pub marks: u8,
    /// Why no game comes to it.
    pub end: End,
}

fn read_square_word(text: &[u8]) -> Option<Square>
    ensures { result ≡ square_of text.now }
{
    match text {
        [file, rank] => read_square(*file, *rank),
        _ => None,
    }
}

#[tactic(auto, unfolding(crate::specs::Nodes::end_of))]
fn read_end(prices: u8, text: &[u8]) -> Option<End>
    ensures { result ≡ end_of prices text.now }
{
    if text == b"void".as_slice() {
        return Some(End::Void);
    }
    if text.starts_with(b"closed ") {
        return match read_within(1, u32::from(prices), &text[7..]) {
            Some(k) => Some(End::Closed(k as u8)),
            None => None,
        };
    }
    if text.starts_with(b"steps ") {
        return match read_within(0, 1_024, &text[6..]) {
            Some(count) => Some(End::Steps(count as u16)),
            None => None,
        };
    }
    if text.starts_with(b"split ") {
        return match read_square_word(&text[6..]) {
            Some(square) => Some(End::Split(square)),
            None => None,
        };
    }
    None
}

#[tactic(auto, using(crate::proofs::Parted::none_always), unfolding(crate::specs::Nodes::marked_end_of, fen_text::specs::Parts::parted))]
fn read_marked_end(prices: u8, text: &[u8]) -> Option<(u8, End)>
    ensures { result ≡ marked_end_of prices text.now }
{
    let Some((count, rest)) = halves(text) else {
        return None;
    };
    let Some(count) = read_within(1, 8, count) else {
        return None;
    };
    match read_end(prices, rest) {
        Some(end) => Some((count as u8, end)),
        None => None,
    }
}

#[tactic(auto, unfolding(crate::specs::Nodes::rest_of))]
fn read_rest(prices: u8, text: &[u8]) -> Option<(u8, End)>
    ensures { result ≡ rest_of prices text.now }
{
    if text.starts_with(b"marks ") {
        return read_marked_end(prices, &text[6..]);
    }
    match read_end(prices, text) {
        Some(end) => Some((0, end)),
        None => None,
    }
}

fn read_with(prices: u8, label: Label, text: &[u8]) -> Option<SketchNode>
    ensures { result ≡ node_with prices label text.now }
{
    match read_rest(prices, text) {
        Some((marks, end)) => Some(SketchNode { label, marks, end }),
        None => None,
    }
}

#[tactic(auto, using(crate::proofs::Parted::none_always), unfolding(crate::specs::Nodes::case_of, fen_text::specs::Parts::parted))]
fn read_case(prices: u8, text: &[u8]) -> Option<SketchNode>
    ensures { result ≡ case_of prices text.now }
{
    let Some((kind, rest)) = halves(text) else {
        return None;
    };
    let Some(kind) = read_officer(kind) else {
        return None;
    };
    read_with(prices, Label::Case(kind), rest)
}

#[tactic(auto, using(crate::proofs::Parted::none_always), unfolding(crate::specs::Nodes::labelled_of, fen_text::specs::Parts::parted))]
fn read_labelled(prices: u8, text: &[u8]) -> Option<SketchNode>
    ensures { result ≡ labelled_of prices text.now }
{
    let Some((label, rest)) = halves(text) else {
        return None;
    };
    let Some(label) = read_label(label) else {
        return None;
    };
    read_with(prices, label, rest)
}

/// Reads the line of a node of a sketch that has so many lines of prices, without its end: the label, as `read_label` reads it, or `case`
/// and `n`, `r` or `q`; `marks` and a number from 1 to 8, if lines of marks follow; and then `void`, `closed` and the number of a line of
/// prices, `steps` and a number from 0 to 1,024, or `split` and a square. One space stands between two words. None comes if and only if the
/// text is none of these.
#[tactic(auto, unfolding(crate::specs::Nodes::node_of))]
pub fn read_sketch_node(prices: u8, text: &[u8]) -> Option<SketchNode>
    ensures { result ≡ node_of prices text.now }
{
    if text.starts_with(b"case ") {
        read_case(prices, &text[5..])
    } else {
        read_labelled(prices, text)
    }
}
