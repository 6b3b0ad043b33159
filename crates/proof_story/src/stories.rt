//! What a story is made of.

use crate::letters::Letters;
use board_base::{Kind, Square};
use query_base::Query;

/// Moves of men of one kind to one square, from one of several.
#[derive(Drop)]
pub struct Way {
    /// Where they went.
    pub to: Square,
    /// What a pawn became.
    pub promo: Option<Kind>,
    /// Where they came from, one or more.
    pub origins: Vec<Square>,
}

/// Moves each of which captured one of the same men.
#[derive(Drop)]
pub struct Bundle {
    /// Whom each of them captured, one of these kinds; empty for moves that captured nobody.
    pub taken: Vec<Kind>,
    /// Whether they captured en passant; `taken` doesn't count then.
    pub passing: bool,
    /// The moves.
    pub ways: Vec<Way>,
}

/// What a paragraph says.
#[derive(Drop)]
pub enum Said {
    /// It says so in words.
    Words(Letters),
    /// As in the paragraph at this place of the story, but for what stands below.
    As(usize),
}

/// A paragraph, which tells each node to which one of its retractions leads.
#[derive(Drop)]
pub struct Paragraph {
    /// Its number, as 1 and 2 for `1.2`; empty for the first paragraph, which tells the root.
    pub number: Vec<usize>,
    /// The query whose retractions they are; for the first paragraph its own.
    pub whence: Query,
    /// Its retractions; empty for the first paragraph.
    pub bundles: Vec<Bundle>,
    /// Whether it tells every retraction that no paragraph beside it names.
    pub is_rest: bool,
    /// What it says.
    pub said: Said,
    /// Whether it goes on in the line of the paragraph before it.
    pub is_joined: bool,
    /// The places in the story of the paragraphs below it.
    pub below: Vec<usize>,
}

/// What is said of a node.
#[derive(Drop)]
pub struct Point {
    /// The retractions that lead to it, the first one first.
    pub path: board_base::UnmoveList,
    /// The query from which the last of them leads; at the root its own.
    pub whence: Query,
    /// What is said.
    pub body: Letters,
}
