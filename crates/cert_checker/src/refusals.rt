use board_base::Unmove;
use query_base::{Claim, Query};

/// What a certificate that was accepted claims, and of which query. No game, of any length, contradicts it.
#[derive(Clone, Copy, PartialEq, Eq, Debug)]
pub struct Accepted {
    /// The claim that the certificate proves.
    pub claim: Claim,
    /// The query that it is about.
    pub query: Query,
}

/// Why a node doesn't prove that no game reaches its query.
#[derive(Clone, Copy, PartialEq, Eq, Debug)]
pub enum Why {
    /// `rule`: what stands behind it doesn't support the query. In a sketch: what the line says isn't so, or steps are left behind its last
    /// node, or no sketch can be asked about the board.
    Rule,
    /// `back`: the ancestor doesn't cover the query.
    Back,
    /// `expand`: the game of no moves reaches the query.
    Array,
    /// The label is none of the unmoves that its parent's other children leave: it comes before the first of them, or none is left. In a
    /// sketch: it isn't that of the next step or case, or none is left.
    Stray,
}

/// Why bytes are no certificate that proves its claim. Lines are counted from 1.
#[derive(Clone, Copy, PartialEq, Eq, Debug)]
pub enum Refused {
    /// The lines before this one begin the text of a certificate. With it they begin none, or the bytes end before it where the
    /// text must go on.
    BadText { line: u32 },
    /// This unmove of a node's query is the label of none of its children. The line is that of the child whose label comes after
    /// it, or the node's own if no child's does.
    Unlisted { line: u32, unmove: Unmove },
    /// The node on this line doesn't prove its query, or it is a line of a sketch that doesn't.
    Unsupported { line: u32, why: Why },
    /// Want of memory.
    Memory,
}

/// Why bytes that came in pieces are no certificate that proves its claim. Lines are counted from 1.
#[derive(Clone, Copy, PartialEq, Eq, Debug)]
pub enum Fault {
    /// The lines before this one begin the text of a certificate. With it they begin none, or the bytes end before it where the
    /// text must go on.
    BadText { line: u32 },
    /// This unmove of a node's query is the label of none of its children. The line is that of the child whose label comes after
    /// it, or the node's own if no child's does.
    Unlisted { line: u32, unmove: Unmove },
    /// The node on this line doesn't prove its query, or it is a line of a sketch that doesn't.
    Unsupported { line: u32, why: Why },
}

/// Why the bytes of a source are no certificate that proves its claim, or weren't read to their end. Lines are counted from 1.
#[derive(Clone, Copy, PartialEq, Eq, Debug)]
pub enum StreamRefused {
    /// The lines before this one begin the text of a certificate. With it they begin none, or the bytes end before it where the
    /// text must go on.
    BadText { line: u32 },
    /// This unmove of a node's query is the label of none of its children. The line is that of the child whose label comes after
    /// it, or the node's own if no child's does.
    Unlisted { line: u32, unmove: Unmove },
    /// The node on this line doesn't prove its query, or it is a line of a sketch that doesn't.
    Unsupported { line: u32, why: Why },
    /// There are more than 67,108,864 bytes: one more was read.
    TooLong,
    /// A read failed.
    ReadFault,
}
