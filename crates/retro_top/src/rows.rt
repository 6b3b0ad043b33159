//! The table of commands: how each is called, what it reads and what it answers. A new command is a row of `ROWS`.

ghost use Rattle.std.specs.Prelude.{◌≡◌, ◌↔◌, IfSome, IsSome, map};
ghost use Rattle.std.specs.List.{Contains};
ghost use Rattle.retro_top.specs.Names.{Begin, IsCommand, IsReadBy, NameCommand};
ghost use Rattle.retro_top.specs.Rows.{facts, names_of, search_of, table};

use crate::commands::Command;

/// What a command reads.
#[derive(Clone, Copy, PartialEq, Eq, Debug)]
pub enum InputKind {
    /// Nothing.
    Nothing,
    /// A certificate.
    Certificate,
    /// A certificate, a dossier or the text of a length.
    Proof,
    /// A position, and the moves of a game.
    Game,
    /// A position, and a game in algebraic notation.
    Notation,
    /// The moves of a game.
    Moves,
    /// A position.
    Position,
    /// A position that demands no clock.
    PlainPosition,
    /// A claim and a position.
    Claim,
    /// A claim of several steps and a position.
    Steps,
    /// The text of a length.
    Length,
    /// A dossier.
    Dossier,
}

/// A command that takes a depth and nodes.
#[derive(Clone, Copy, PartialEq, Eq, Debug)]
pub(crate) enum Search {
    Solve,
    Settle,
    Verdict,
    Study,
    Report,
    Tree,
    Dossier,
}

impl Search {
    /// The command with these numbers.
    pub(crate) fn command(self, depth: u8, nodes: u32) -> Command
        ensures { result ≡ search_of self depth nodes }
    {
        match self {
            Search::Solve => Command::Solve { depth, nodes },
            Search::Settle => Command::Settle { depth, nodes },
            Search::Verdict => Command::Verdict { depth, nodes },
            Search::Study => Command::Study { depth, nodes },
            Search::Report => Command::Report { depth, nodes },
            Search::Tree => Command::Tree { depth, nodes },
            Search::Dossier => Command::Dossier { depth, nodes },
        }
    }
}

/// The depth and the nodes with which a search is called whose name stands alone.
#[derive(Clone, Copy, PartialEq, Eq, Debug)]
pub struct Usual {
    pub depth: u8,
    pub nodes: u32,
}

/// Which words stand behind a command's name, and which command they make of it.
#[derive(Clone, Copy, PartialEq, Eq, Debug)]
pub(crate) enum Calls {
    /// None.
    Plain(Command),
    /// A depth and nodes; or none, if the search has usual ones.
    Search(Search, Option<Usual>),
    /// A start, games and plies.
    Sample,
}

/// How a command is called, what it reads and what it answers.
#[derive(Clone, Copy, Debug)]
pub struct Row {
    /// Its first word.
    pub name: &'static str,
    /// What the words behind that make of it.
    pub(crate) calls: Calls,
    /// What it reads.
    pub input: InputKind,
    /// The whole call, with what the input is.
    pub line: &'static str,
    /// What it answers.
    pub answer: &'static str,
}

impl Row {
    /// The command reads standard input.
    pub fn reads(&self) -> bool {
        self.input != InputKind::Nothing
    }
}

/// What `settle` alone calls: a search as deep as it may be, and with the most nodes with which an open line tells that flat prices
/// support no query on it.
pub const USUAL_SETTLE: Usual = Usual {
    depth: 64,
    nodes: 250_000,
};

/// What `study` or `report` alone calls: as far as a search may go, but with fewer nodes each, for there are many searches.
pub const USUAL_STUDY: Usual = Usual {
    depth: 64,
    nodes: 20_000,
};

/// The commands, in the order in which the usage names them.
pub const ROWS: [Row; 17] = [
    Row {
        name: "check",
        calls: Calls::Plain(Command::Check),
        input: InputKind::Certificate,
        line: "check < CERTIFICATE",
        answer: "whether the certificate proves its claim",
    },
    Row {
        name: "explain",
        calls: Calls::Plain(Command::Explain),
        input: InputKind::Proof,
        line: "explain < PROOF",
        answer: "the proof of a certificate, a dossier or a length in plain words",
    },
    Row {
        name: "play",
        calls: Calls::Plain(Command::Play),
        input: InputKind::Game,
        line: "play < FEN-AND-MOVES",
        answer: "whether the moves are a legal game that reaches the position",
    },
    Row {
        name: "san",
        calls: Calls::Plain(Command::San),
        input: InputKind::Notation,
        line: "san < FEN-AND-GAME",
        answer: "whether the game in algebraic notation reaches the position",
    },
    Row {
        name: "spell",
        calls: Calls::Plain(Command::Spell),
        input: InputKind::Moves,
        line: "spell < MOVES",
        answer: "the game in algebraic notation",
    },
    Row {
        name: "unmoves",
        calls: Calls::Plain(Command::Unmoves),
        input: InputKind::Position,
        line: "unmoves < FEN",
        answer: "each move that may have been the last, and the position before it",
    },
    Row {
        name: "study",
        calls: Calls::Search(Search::Study, Some(USUAL_STUDY)),
        input: InputKind::Position,
        line: "study [DEPTH NODES] < FEN",
        answer: "all that is proved of the position, a fact a line",
    },
    Row {
        name: "report",
        calls: Calls::Search(Search::Report, Some(USUAL_STUDY)),
        input: InputKind::Position,
        line: "report [DEPTH NODES] < FEN",
        answer: "the same in sentences, with the ledger and the proofs",
    },
    Row {
        name: "solve",
        calls: Calls::Search(Search::Solve, None),
        input: InputKind::Claim,
        line: "solve DEPTH NODES < CLAIM-AND-FEN",
        answer: "a certificate of the claim, or a game against it",
    },
    Row {
        name: "settle",
        calls: Calls::Search(Search::Settle, Some(USUAL_SETTLE)),
        input: InputKind::Claim,
        line: "settle [DEPTH NODES] < CLAIM-AND-FEN",
        answer: "the same, with all reasons and a search for games",
    },
    Row {
        name: "verdict",
        calls: Calls::Search(Search::Verdict, None),
        input: InputKind::Position,
        line: "verdict DEPTH NODES < FEN",
        answer: "what the conventions say of castling and en passant",
    },
    Row {
        name: "tree",
        calls: Calls::Search(Search::Tree, None),
        input: InputKind::Position,
        line: "tree DEPTH NODES < FEN",
        answer: "the moves that may lead to the position, as a tree",
    },
    Row {
        name: "length",
        calls: Calls::Plain(Command::Length),
        input: InputKind::PlainPosition,
        line: "length < FEN",
        answer: "how many half-moves each game to the position has at least",
    },
    Row {
        name: "atleast",
        calls: Calls::Plain(Command::AtLeast),
        input: InputKind::Length,
        line: "atleast < LENGTH",
        answer: "whether the numbers of a length show it",
    },
    Row {
        name: "line",
        calls: Calls::Plain(Command::Line),
        input: InputKind::Dossier,
        line: "line < DOSSIER",
        answer: "whether the dossier proves its claim of several steps",
    },
    Row {
        name: "dossier",
        calls: Calls::Search(Search::Dossier, None),
        input: InputKind::Steps,
        line: "dossier DEPTH NODES < CLAIM-AND-FEN",
        answer: "a dossier of the claim of several steps",
    },
    Row {
        name: "sample",
        calls: Calls::Sample,
        input: InputKind::Nothing,
        line: "sample START GAMES PLIES",
        answer: "what is counted of games that are made from a number",
    },
];

/// The first of these rows whose command has this name.
fn find(rows: &[Row], name: &[u8]) -> Option<Row>
    ensures named { IfSome result (λ row. row.name.now ≡ name.now) }
    ensures held { IfSome result (λ row. Contains (map facts rows.now) (facts row)) }
    ensures known { IsSome result ↔ Contains (names_of rows.now) name.now }
{
    for row in rows {
        if row.name.as_bytes() == name {
            return Some(*row);
        }
    }
    None
}

/// The row of the table in which this name stands.
pub(crate) fn look_up(name: &[u8]) -> Option<Row>
    ensures named { IfSome result (λ row. row.name.now ≡ name.now) }
    ensures held { IfSome result (λ row. Contains table (facts row)) }
    ensures known { IsSome result ↔ IsCommand name.now }
{
    find(&ROWS, name)
}

/// The row of the command of this name; None if and only if no command has it.
pub fn row_of(name: &[u8]) -> Option<Row>
    ensures named { IfSome result (λ row. row.name.now ≡ name.now) }
    ensures reading { IfSome result (λ row. IsReadBy row.input name.now) }
    ensures known { IsSome result ↔ IsCommand name.now }
{
    look_up(name)
}

/// The row of the command that the first word names.
pub fn first_row(words: &[String]) -> Option<Row>
    ensures named { IfSome result (λ row. Begin words.now row.name.now) }
    ensures reading { IfSome result (λ row. IsReadBy row.input row.name.now) }
    ensures known { IsSome result ↔ NameCommand words.now }
{
    match words {
        [] => None,
        [word, ..] => row_of(word.as_bytes()),
    }
}
