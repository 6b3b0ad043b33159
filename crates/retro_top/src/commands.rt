ghost use Rattle.std.specs.Prelude.{◌↔◌, IsTrue};
ghost use Rattle.retro_top.specs.Commands.{Reads, TakesMemory};

/// What the words of the command line can ask for.
#[derive(Clone, Copy, PartialEq, Eq, Debug)]
pub enum Command {
    /// Whether a certificate proves its claim.
    Check,
    /// The proof of a certificate, a dossier or a length in plain words.
    Explain,
    /// Whether words are a legal game that reaches a position.
    Play,
    /// Whether words of algebraic notation are a legal game that reaches a position.
    San,
    /// The text of a legal game in algebraic notation.
    Spell,
    /// Which moves may have been the last before a position, and what stood before each.
    Unmoves,
    /// A certificate that proves a claim, or a game that contradicts it.
    Solve {
        /// How many moves are taken back at most, from 0 to 64.
        depth: u8,
        /// How many queries are visited at most, from 1 to 500,000.
        nodes: u32,
    },
    /// A certificate that proves a claim by rule lines and the balance of captures, or a game that contradicts it.
    Settle {
        /// How many moves are taken back at most, from 0 to 64.
        depth: u8,
        /// How many queries are visited at most, from 1 to 500,000.
        nodes: u32,
    },
    /// What the conventions of chess problems say of each right that a position seems to give.
    Verdict {
        /// How many moves are taken back at most, from 0 to 64.
        depth: u8,
        /// How many queries are visited at most for each right, from 1 to 500,000.
        nodes: u32,
    },
    /// Everything that can be proved of a position.
    Study {
        /// How many moves are taken back at most, from 0 to 64.
        depth: u8,
        /// How many queries each search visits at most, from 1 to 500,000.
        nodes: u32,
    },
    /// What a study proves of a position, told in sentences, with proofs.
    Report {
        /// How many moves are taken back at most, from 0 to 64.
        depth: u8,
        /// How many queries each search visits at most, from 1 to 500,000.
        nodes: u32,
    },
    /// The retractions of a position as a tree.
    Tree {
        /// How many moves are taken back at most, from 0 to 64.
        depth: u8,
        /// How many lines the tree has at most, from 1 to 500,000.
        nodes: u32,
    },
    /// How many half-moves each game that leads to a position has at least, and potentials that show it.
    Length,
    /// Whether the potentials of a length show it.
    AtLeast,
    /// Whether a dossier proves its claim of several steps.
    Line,
    /// A dossier of a claim of several steps.
    Dossier {
        /// How many moves are taken back at most for each part, from 0 to 64.
        depth: u8,
        /// How many queries are visited at most for each part, from 1 to 500,000.
        nodes: u32,
    },
    /// What is counted of games that are made from a number.
    Sample {
        /// The number from which the moves are drawn.
        start: u64,
        /// How many games there are, from 1 to 1,000.
        games: u32,
        /// How many moves each game has at most, from 1 to 200.
        plies: u32,
    },
}

/// The command reads its input: each but `sample` does.
pub(crate) fn reads(command: Command) -> bool
    ensures { IsTrue result ↔ Reads command }
{
    !matches!(command, Command::Sample { .. })
}

/// The command takes memory: each but `check`, `atleast` and `line` does.
pub(crate) fn takes_memory(command: Command) -> bool
    ensures { IsTrue result ↔ TakesMemory command }
{
    !matches!(command, Command::Check | Command::AtLeast | Command::Line)
}
