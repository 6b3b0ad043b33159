//! What is said on standard error, case by case.

use front_door::{
    Advice, FenAdvice, LineAdvice, MoveAdvice, Status, TextAdvice, WordAdvice, advise, run,
};
use retro_ports::{MemSink, MemSource};
use std::alloc::{AllocError, Global};

/// Words that call no command, what is said of them, and how the command that is meant is called.
const WORDS: [(&[&str], WordAdvice, &str); 46] = [
    (&[], WordAdvice::Usage, ""),
    (&["help"], WordAdvice::Usage, ""),
    (&["-h"], WordAdvice::Usage, ""),
    (&["--help", "check"], WordAdvice::StandsAlone, ""),
    (
        &["check", "mate.cert"],
        WordAdvice::FileAsWord,
        "check < CERTIFICATE",
    ),
    (
        &["report", "examples/diagrams.fen"],
        WordAdvice::FileAsWord,
        "report [DEPTH NODES] < FEN",
    ),
    (
        &["verdict", "2", "1000", "8/8/8/8/8/8/8/8 w - -"],
        WordAdvice::PositionAsWord,
        "verdict DEPTH NODES < FEN",
    ),
    (
        &["report", "4k3/8/8/8/8/8/8/4K3", "w", "-", "-"],
        WordAdvice::PositionAsWord,
        "report [DEPTH NODES] < FEN",
    ),
    (
        &["settle", "4k3/8/8/8/8/8/8/4K3 w - -"],
        WordAdvice::ClaimAsWord,
        "settle [DEPTH NODES] < CLAIM-AND-FEN",
    ),
    (
        &["settle", "claim", "lost", "K"],
        WordAdvice::ClaimAsWord,
        "settle [DEPTH NODES] < CLAIM-AND-FEN",
    ),
    (
        &["check", "4k3/8/8/8/8/8/8/4K3 w - -"],
        WordAdvice::ComesByInput,
        "check < CERTIFICATE",
    ),
    (
        &["sample", "1.", "1"],
        WordAdvice::Count,
        "sample START GAMES PLIES",
    ),
    (
        &["8/8/8/8/8/8/8/8", "w", "-", "-"],
        WordAdvice::CommandFirst,
        "",
    ),
    (&["claim illegal"], WordAdvice::CommandFirst, ""),
    (&["loyd.claim"], WordAdvice::CommandFirst, ""),
    (
        &["sovle", "1", "100"],
        WordAdvice::NearestCommand,
        "solve DEPTH NODES < CLAIM-AND-FEN",
    ),
    (
        &["Solve", "1", "100"],
        WordAdvice::NearestCommand,
        "solve DEPTH NODES < CLAIM-AND-FEN",
    ),
    (&["chek"], WordAdvice::NearestCommand, "check < CERTIFICATE"),
    (&["lenght"], WordAdvice::NearestCommand, "length < FEN"),
    (&["explian"], WordAdvice::NearestCommand, "explain < PROOF"),
    (&["mate"], WordAdvice::NoCommand, ""),
    (&["xyz"], WordAdvice::NoCommand, ""),
    (&[""], WordAdvice::NoCommand, ""),
    (
        &["a-word-that-is-longer-than-any-name"],
        WordAdvice::NoCommand,
        "",
    ),
    (
        &["solve"],
        WordAdvice::NoNumbers,
        "solve DEPTH NODES < CLAIM-AND-FEN",
    ),
    (
        &["solve", "1"],
        WordAdvice::NoNodes,
        "solve DEPTH NODES < CLAIM-AND-FEN",
    ),
    (
        &["report", "8"],
        WordAdvice::BothNumbers,
        "report [DEPTH NODES] < FEN",
    ),
    (
        &["report", "deep"],
        WordAdvice::Count,
        "report [DEPTH NODES] < FEN",
    ),
    (
        &["solve", "1", "100", "1"],
        WordAdvice::Count,
        "solve DEPTH NODES < CLAIM-AND-FEN",
    ),
    (
        &["check", "check"],
        WordAdvice::Count,
        "check < CERTIFICATE",
    ),
    (
        &["sample", "1", "1"],
        WordAdvice::Count,
        "sample START GAMES PLIES",
    ),
    (
        &["solve", "65", "100"],
        WordAdvice::Depth,
        "solve DEPTH NODES < CLAIM-AND-FEN",
    ),
    (
        &["solve", "-1", "100"],
        WordAdvice::Depth,
        "solve DEPTH NODES < CLAIM-AND-FEN",
    ),
    (
        &["solve", "+1", "100"],
        WordAdvice::Depth,
        "solve DEPTH NODES < CLAIM-AND-FEN",
    ),
    (
        &["solve", "01", "100"],
        WordAdvice::Depth,
        "solve DEPTH NODES < CLAIM-AND-FEN",
    ),
    (
        &["solve", "", "100"],
        WordAdvice::Depth,
        "solve DEPTH NODES < CLAIM-AND-FEN",
    ),
    (
        &["verdict", "two", "100"],
        WordAdvice::Depth,
        "verdict DEPTH NODES < FEN",
    ),
    (
        &["solve", "1", "0"],
        WordAdvice::Nodes,
        "solve DEPTH NODES < CLAIM-AND-FEN",
    ),
    (
        &["solve", "64", "500001"],
        WordAdvice::Nodes,
        "solve DEPTH NODES < CLAIM-AND-FEN",
    ),
    (
        &["solve", "0", "0"],
        WordAdvice::Nodes,
        "solve DEPTH NODES < CLAIM-AND-FEN",
    ),
    (
        &["tree", "1", "500001"],
        WordAdvice::Nodes,
        "tree DEPTH NODES < FEN",
    ),
    (
        &["dossier", "1", "1e3"],
        WordAdvice::Nodes,
        "dossier DEPTH NODES < CLAIM-AND-FEN",
    ),
    (
        &["settle", "1", "99999999999999999999"],
        WordAdvice::Nodes,
        "settle [DEPTH NODES] < CLAIM-AND-FEN",
    ),
    (
        &["sample", "18446744073709551616", "1", "1"],
        WordAdvice::Start,
        "sample START GAMES PLIES",
    ),
    (
        &["sample", "0", "1001", "1"],
        WordAdvice::Games,
        "sample START GAMES PLIES",
    ),
    (
        &["sample", "0", "1", "201"],
        WordAdvice::Plies,
        "sample START GAMES PLIES",
    ),
];

/// The words of commands that read a position, and how each is called.
const READING: [(&[&str], &str); 5] = [
    (&["solve", "1", "100"], "solve DEPTH NODES < CLAIM-AND-FEN"),
    (&["settle"], "settle [DEPTH NODES] < CLAIM-AND-FEN"),
    (&["unmoves"], "unmoves < FEN"),
    (&["study"], "study [DEPTH NODES] < FEN"),
    (&["report"], "report [DEPTH NODES] < FEN"),
];

/// The words of a command with a claim and of one without, and inputs of theirs with a bad line.
const LINES: [(&[&str], &[u8], LineAdvice); 28] = [
    (
        &["settle"],
        b"\xEF\xBB\xBFclaim illegal\n4k3/8/8/8/8/8/8/4K3 w - -\n",
        LineAdvice::ByteOrderMark,
    ),
    (
        &["settle"],
        b"4k3/8/8/8/8/8/8/4K3 w - -\n",
        LineAdvice::Claim,
    ),
    (
        &["solve", "1", "100"],
        b"4k3/8/8/8/8/8/8/4K3 w - -\n",
        LineAdvice::Claim,
    ),
    (
        &["solve", "1", "100"],
        b"claim Illegal\n4k3/8/8/8/8/8/8/4K3 w - -",
        LineAdvice::Claim,
    ),
    (
        &["solve", "1", "100"],
        b"Claim illegal\n4k3/8/8/8/8/8/8/4K3 w - -",
        LineAdvice::Claim,
    ),
    (
        &["solve", "1", "100"],
        b"illegal\n4k3/8/8/8/8/8/8/4K3 w - -",
        LineAdvice::Claim,
    ),
    (
        &["solve", "1", "100"],
        b"claim notboth K Q\n4k3/8/8/8/8/8/8/4K3 w - -",
        LineAdvice::ClaimOfSteps,
    ),
    (
        &["solve", "1", "100"],
        b"claim line e1e2\n4k3/8/8/8/8/8/8/4K3 w - -",
        LineAdvice::ClaimOfSteps,
    ),
    (
        &["solve", "1", "100"],
        b"claim last Kf3-g3\n4k3/8/8/8/8/8/8/4K3 w - -",
        LineAdvice::MoveOfClaim,
    ),
    (
        &["solve", "1", "100"],
        b"claim ep exd6\n4k3/8/8/8/8/8/8/4K3 w - -",
        LineAdvice::MoveOfClaim,
    ),
    (
        &["solve", "1", "100"],
        b"claim lost w\n4k3/8/8/8/8/8/8/4K3 w - -",
        LineAdvice::RightOfClaim,
    ),
    (
        &["settle"],
        b"claim lost K \n4k3/8/8/8/8/8/8/4K3 w - -",
        LineAdvice::BlankAtEnd,
    ),
    (
        &["dossier", "1", "100"],
        b"claim notboth K Q \n4k3/8/8/8/8/8/8/4K3 w - -",
        LineAdvice::BlankAtEnd,
    ),
    (
        &["unmoves"],
        b"odds 0000000000000002 \n4k3/8/8/8/8/8/8/4K3 w - -",
        LineAdvice::BlankAtEnd,
    ),
    (
        &["settle"],
        b"4k3/8/8/8/8/8/8/4K3 w - - \n",
        LineAdvice::Claim,
    ),
    (
        &["settle"],
        b"claim legal\n4k3/8/8/8/8/8/8/4K3 w - -",
        LineAdvice::LegalClaim,
    ),
    (
        &["dossier", "1", "100"],
        b"claim illegal\n4k3/8/8/8/8/8/8/4K3 w - -",
        LineAdvice::ClaimOfOne,
    ),
    (
        &["dossier", "1", "100"],
        b"claim lost K\n4k3/8/8/8/8/8/8/4K3 w - -",
        LineAdvice::ClaimOfOne,
    ),
    (
        &["dossier", "1", "100"],
        b"claim both K Q\n4k3/8/8/8/8/8/8/4K3 w - -",
        LineAdvice::Steps,
    ),
    (
        &["dossier", "1", "100"],
        b"claim notboth KQ\n4k3/8/8/8/8/8/8/4K3 w - -",
        LineAdvice::Steps,
    ),
    (
        &["solve", "1", "100"],
        b"claim illegal\n",
        LineAdvice::NoFen,
    ),
    (&["unmoves"], b"odds 0000000000000002\n", LineAdvice::NoFen),
    (
        &["unmoves"],
        b"odds b1\n4k3/8/8/8/8/8/8/4K3 w - -",
        LineAdvice::Odds,
    ),
    (
        &["solve", "1", "100"],
        b"claim illegal\nodds 0000000000000010\n4k3/8/8/8/8/8/8/4K3 w - -",
        LineAdvice::Odds,
    ),
    (
        &["unmoves"],
        b"clock 01\n4k3/8/8/8/8/8/8/4K3 w - -",
        LineAdvice::Clock,
    ),
    (
        &["unmoves"],
        b"clock 2\n4k3/8/8/8/8/8/8/4K3 w - - 3 40\n",
        LineAdvice::ClockAgainstFen,
    ),
    (
        &["unmoves"],
        b"4k3/8/8/8/8/8/8/4K3 w - -\n\n",
        LineAdvice::EmptyBehindFen,
    ),
    (
        &["verdict", "1", "100"],
        b"4k3/8/8/8/8/8/8/4K3 w - -\ne1e2\n",
        LineAdvice::LineTooMany,
    ),
];

/// Inputs whose line that is due as a FEN isn't one.
const FENS: [(&[u8], FenAdvice); 41] = [
    (
        b"\xEF\xBB\xBF4k3/8/8/8/8/8/8/4K3 w - -",
        FenAdvice::ByteOrderMark,
    ),
    (b"\n", FenAdvice::EmptyLine),
    (
        b"claim illegal\n4k3/8/8/8/8/8/8/4K3 w - -",
        FenAdvice::ClaimLine,
    ),
    (
        b"clock 1\nodds 0000000000000002\n4k3/8/8/8/8/8/8/4K3 w - -",
        FenAdvice::Demand,
    ),
    (
        b"retro 1\nclaim illegal\nfen 4k3/8/8/8/8/8/8/4K3 w - -",
        FenAdvice::OtherText,
    ),
    (b"'4k3/8/8/8/8/8/8/4K3 w - -'", FenAdvice::Quotes),
    (
        b"\xE2\x80\x9C4k3/8/8/8/8/8/8/4K3 w - -\xE2\x80\x9D",
        FenAdvice::Quotes,
    ),
    (b"4k3/8/8/8/8/8/8/4K3 w - -\xE2\x80\x99", FenAdvice::Quotes),
    (
        b"4k3/8/8/8/8/8/8/4K3 w \xE2\x80\x93 \xE2\x80\x93",
        FenAdvice::Dash,
    ),
    (b"4k3/8/8/8/8/8/8/4K3 w - \xE2\x80\x94", FenAdvice::Dash),
    (b"4k3/8/8/8/8/8/8/4K3\tw - -", FenAdvice::Tab),
    (b" 4k3/8/8/8/8/8/8/4K3 w - -", FenAdvice::Blanks),
    (b"4k3/8/8/8/8/8/8/4K3  w - -", FenAdvice::Blanks),
    (b"4k3/8/8/8/8/8/8/4K3 w  - -", FenAdvice::Blanks),
    (b"4k3/8/8/8/8/8/8/4K3 w - - ", FenAdvice::BlankAtEnd),
    (b"4k3/8/8/8/8/8/8/4K3 w - -   ", FenAdvice::BlankAtEnd),
    (b"4k3/8/8/8/8/8/8/4K3 w - - 0 1 ", FenAdvice::BlankAtEnd),
    (b"4k3/8/8/8/8/8/8/4KS2 w - -", FenAdvice::Knight),
    (b"4ks2/8/8/8/8/8/8/4K3 w - -", FenAdvice::Knight),
    (b"44/8/8/8/8/8/8/8 w - -", FenAdvice::Digits),
    (b"4k3/8/8/8/8/8/8/4K4 w - -", FenAdvice::LongRank(1)),
    (b"4k3/8/8/ppppppppp/8/8/8/4K3 w - -", FenAdvice::LongRank(5)),
    (b"4k3/8/8/8/8/8/8 w - -", FenAdvice::FewRanks),
    (b"4k3/8/8/8/8/8/8/8/4K3 w - -", FenAdvice::ManyRanks),
    (b"4k3/ppppppp/8/8/8/8/8/4K3 w - -", FenAdvice::ShortRank(7)),
    (b"4k3/8/8/8/8/8/8/4K", FenAdvice::ShortRank(1)),
    (b"hello", FenAdvice::Placement),
    (b"4k3/8/8/8/8/8/8/4K3", FenAdvice::NoSide),
    (b"4k3/8/8/8/8/8/8/4K3 ", FenAdvice::NoSide),
    (b"4k3/8/8/8/8/8/8/4K3 W - -", FenAdvice::Side),
    (b"4k3/8/8/8/8/8/8/4K3 white - -", FenAdvice::Side),
    (b"4k3/8/8/8/8/8/8/4K3 w", FenAdvice::Fields),
    (b"4k3/8/8/8/8/8/8/4K3 w -", FenAdvice::Fields),
    (b"4k3/8/8/8/8/8/8/4K3 w kqKQ -", FenAdvice::Rights),
    (b"4k3/8/8/8/8/8/8/4K3 w KQkq e3", FenAdvice::Passant),
    (b"4k3/8/8/8/8/8/8/4K3 b - e6", FenAdvice::Passant),
    (b"4k3/8/8/8/8/8/8/4K3 w - e", FenAdvice::Fields),
    (
        b"4k3/8/8/8/8/8/8/4K3 w - - claim illegal",
        FenAdvice::Fields,
    ),
    (b"4k3/8/8/8/8/8/8/4K3 w - - 0", FenAdvice::Fields),
    (b"4k3/8/8/8/8/8/8/4K3 w - - 0 x", FenAdvice::Numbers),
    (
        b"4k3/8/8/8/8/8/8/4K3 w - - 1234567890 1",
        FenAdvice::Numbers,
    ),
];

/// Games with a word that is none.
const GAMES: [(&str, &[u8], MoveAdvice); 19] = [
    (
        "play",
        b"rnbqkbnr/pppppppp/8/8/8/8/PPPPPPPP/RNBQKBNR w KQkq -\nNf3",
        MoveAdvice::UseSan,
    ),
    (
        "play",
        b"rnbqkbnr/pppppppp/8/8/8/8/PPPPPPPP/RNBQKBNR w KQkq -\ne2e4 e5",
        MoveAdvice::UseSan,
    ),
    (
        "play",
        b"rnbqkbnr/pppppppp/8/8/8/8/PPPPPPPP/RNBQKBNR w KQkq -\ne2e4 O-O",
        MoveAdvice::UseSan,
    ),
    (
        "play",
        b"rnbqkbnr/pppppppp/8/8/8/8/PPPPPPPP/RNBQKBNR w KQkq -\nA game that leads here: e2e4",
        MoveAdvice::Label,
    ),
    (
        "san",
        b"rnbqkbnr/pppppppp/8/8/8/8/PPPPPPPP/RNBQKBNR w KQkq -\nA game that leads here: 1. e4 e5 2. Nf3",
        MoveAdvice::Label,
    ),
    (
        "san",
        b"rnbqkbnr/pppppppp/8/8/8/8/PPPPPPPP/RNBQKBNR w KQkq -\n[Date: 1891]",
        MoveAdvice::Marks,
    ),
    ("spell", b"1. e4", MoveAdvice::UseSan),
    ("spell", b"g1f3 Nf6", MoveAdvice::UseSan),
    (
        "play",
        b"rnbqkbnr/pppppppp/8/8/8/8/PPPPPPPP/RNBQKBNR w KQkq -\ne7e8Q",
        MoveAdvice::Move,
    ),
    ("spell", b"e2-e4", MoveAdvice::Move),
    (
        "san",
        b"rnbqkbnr/pppppppp/8/8/8/8/PPPPPPPP/RNBQKBNR w KQkq -\ng1f3",
        MoveAdvice::UsePlay,
    ),
    (
        "san",
        b"rnbqkbnr/pppppppp/8/8/8/8/PPPPPPPP/RNBQKBNR w KQkq -\n1. g1f3 g8f6",
        MoveAdvice::UsePlay,
    ),
    (
        "san",
        b"rnbqkbnr/pppppppp/8/8/8/8/PPPPPPPP/RNBQKBNR w KQkq -\n0-0",
        MoveAdvice::CastlingLetters,
    ),
    (
        "san",
        b"rnbqkbnr/pppppppp/8/8/8/8/PPPPPPPP/RNBQKBNR w KQkq -\n1. e4 o-o",
        MoveAdvice::CastlingLetters,
    ),
    (
        "san",
        b"rnbqkbnr/pppppppp/8/8/8/8/PPPPPPPP/RNBQKBNR w KQkq -\ne4!",
        MoveAdvice::Marks,
    ),
    (
        "san",
        b"rnbqkbnr/pppppppp/8/8/8/8/PPPPPPPP/RNBQKBNR w KQkq -\nexd6 e.p.",
        MoveAdvice::Marks,
    ),
    (
        "san",
        b"rnbqkbnr/pppppppp/8/8/8/8/PPPPPPPP/RNBQKBNR w KQkq -\n[Event]",
        MoveAdvice::Marks,
    ),
    (
        "san",
        b"rnbqkbnr/pppppppp/8/8/8/8/PPPPPPPP/RNBQKBNR w KQkq -\nmate",
        MoveAdvice::San,
    ),
    (
        "san",
        b"odds 0000000000000002\nrnbqkbnr/pppppppp/8/8/8/8/PPPPPPPP/RNBQKBNR w KQkq -\ng1f3",
        MoveAdvice::UsePlay,
    ),
];

/// What isn't a certificate, and what `check` and `explain` say of it.
const TEXTS: [(&[u8], TextAdvice, TextAdvice); 10] = [
    (
        b"\xEF\xBB\xBFretro 1\nclaim illegal\n",
        TextAdvice::ByteOrderMark,
        TextAdvice::ByteOrderMark,
    ),
    (
        b"retro line 1\r\nclaim notboth K Q\r\n",
        TextAdvice::Dossier,
        TextAdvice::ReturnsToExplain,
    ),
    (
        b"retro length 1\r\n",
        TextAdvice::Length,
        TextAdvice::ReturnsToExplain,
    ),
    (
        b"claim illegal\n4k3/8/8/8/8/8/8/4K3 w - -",
        TextAdvice::Claim,
        TextAdvice::ClaimToExplain,
    ),
    (
        b"countered f3g1 h8g8\n",
        TextAdvice::NoProof,
        TextAdvice::NoProof,
    ),
    (b"undecided\n", TextAdvice::NoProof, TextAdvice::NoProof),
    (
        b"retro 1\r\nclaim illegal\r\n",
        TextAdvice::CarriageReturns,
        TextAdvice::ReturnsToExplain,
    ),
    (
        b"  a b c d e f g h\n8 . . . . k . . .\n",
        TextAdvice::Report,
        TextAdvice::Report,
    ),
    (
        b"4k3/8/8/8/8/8/8/4K3 w - -",
        TextAdvice::PositionToCheck,
        TextAdvice::PositionToExplain,
    ),
    (
        b"odds 0000000000000002\nclock 1\n4k3/8/8/8/8/8/8/4K3 w - -\n",
        TextAdvice::PositionToCheck,
        TextAdvice::PositionToExplain,
    ),
];

/// Runs after which nothing is said.
const SILENT: [(&[&str], &[u8], Status); 15] = [
    (
        &["check"],
        b"retro 1\nclaim illegal\nfen 8/8/8/8/8/8/8/8 w - -\nroot rule kings\n",
        Status::Done,
    ),
    (&["check"], b"retro 3\n", Status::Refused),
    (
        &["explain"],
        b"retro 1\nclaim illegal\nfen 8/8/8/8/8/8/8/8 w - -\nroot rule kings\n",
        Status::Done,
    ),
    (&["explain"], b"retro 3\n", Status::Refused),
    (&["explain"], b"retro 1\nclaim illegal\r\n", Status::Refused),
    (&["check"], b"retro 1\nclaim illegal\r\n", Status::Refused),
    (
        &["play"],
        b"rnbqkbnr/pppppppp/8/8/8/8/PPPPPPPP/RNBQKBNR w KQkq -\ne2e5",
        Status::Refused,
    ),
    (
        &["play"],
        b"rnbqkbnr/pppppppp/8/8/8/8/PPPPPPPP/RNBQKBNR w KQkq -\ne2e4",
        Status::Refused,
    ),
    (
        &["san"],
        b"rnbqkbnr/pppppppp/8/8/8/8/PPPPPPPP/RNBQKBNR w KQkq -\nNf4",
        Status::Refused,
    ),
    (&["line"], b"retro 1\n", Status::Refused),
    (&["atleast"], b"retro 1\n", Status::Refused),
    (
        &["solve", "0", "1"],
        b"claim illegal\n4k3/8/8/8/8/8/8/4K3 w - -",
        Status::Undecided,
    ),
    (
        &["tree", "1", "1"],
        b"4k3/8/8/8/8/8/8/4K3 w - -",
        Status::Spent,
    ),
    (
        &["solve", "0", "1"],
        b"claim illegal\nrnbqkbnr/pppppppp/8/8/8/8/PPPPPPPP/RNBQKBNR w KQkq -\n",
        Status::Countered,
    ),
    (&["sample", "0", "1", "1"], b"", Status::Done),
];

/// What is said after a run: its status, the advice, and how the command that is meant is called.
type Told = (Status, Option<Advice>, &'static str);

fn told(alloc: Global, words: &[&str], input: &[u8]) -> Result<Told, AllocError> {
    let mut all = Vec::new(alloc);
    for word in words {
        all.push(String::from_str(alloc, word)?)?;
    }
    let bytes = Vec::from_slice(alloc, input)?;
    let mut source = MemSource::new(bytes, Vec::new(alloc), 65_536);
    let Ok(mut sink) = MemSink::new(alloc, 4_096, Vec::new(alloc), 65_536) else {
        return Err(AllocError);
    };
    let status = run(alloc, &all, &mut source, &mut sink);
    match advise(alloc, &all, input, status, sink.taken()) {
        Some(hint) => Ok((
            status,
            Some(hint.advice),
            hint.call.map_or("", |call| call.line),
        )),
        None => Ok((status, None, "")),
    }
}

#[test]
fn tells_what_is_wrong_with_words(rt: HostRuntime) {
    for (words, advice, call) in WORDS {
        let told = told(rt.alloc(), words, b"");
        assert!(rt;
            told == Ok((Status::BadWords, Some(Advice::Words(advice)), call)),
            "{words:?}"
        );
    }
}

#[test]
fn tells_how_to_give_an_input(rt: HostRuntime) {
    for (words, call) in READING {
        let told = told(rt.alloc(), words, b"");
        let empty = Some(Advice::Lines(LineAdvice::Empty));
        assert!(rt; told == Ok((Status::BadInput, empty, call)), "{words:?}");
    }
}

#[test]
fn tells_what_is_wrong_with_lines(rt: HostRuntime) {
    for (words, input, advice) in LINES {
        let told = told(rt.alloc(), words, input);
        assert!(rt;
            told == Ok((Status::BadInput, Some(Advice::Lines(advice)), "")),
            "{input:?}"
        );
    }
}

#[test]
fn tells_what_is_wrong_with_a_fen(rt: HostRuntime) {
    for (input, advice) in FENS {
        let told = told(rt.alloc(), &["unmoves"], input);
        assert!(rt;
            told == Ok((Status::BadInput, Some(Advice::Fen(advice)), "")),
            "{input:?}"
        );
    }
}

#[test]
fn tells_what_is_wrong_with_a_word_of_a_game(rt: HostRuntime) {
    for (name, input, advice) in GAMES {
        let told = told(rt.alloc(), &[name], input);
        assert!(rt;
            told == Ok((Status::Refused, Some(Advice::Moves(advice)), "")),
            "{input:?}"
        );
    }
}

#[test]
fn tells_what_is_no_certificate(rt: HostRuntime) {
    for (input, checked, explained) in TEXTS {
        let told_check = told(rt.alloc(), &["check"], input);
        let checked = Some(Advice::Texts(checked));
        assert!(rt;
            told_check == Ok((Status::Refused, checked, "")),
            "{input:?}"
        );
        let told_explain = told(rt.alloc(), &["explain"], input);
        let explained = Some(Advice::Texts(explained));
        assert!(rt;
            told_explain == Ok((Status::Refused, explained, "")),
            "{input:?}"
        );
    }
}

#[test]
fn tells_nothing_else(rt: HostRuntime) {
    for (words, input, status) in SILENT {
        let told = told(rt.alloc(), words, input);
        assert!(rt; told == Ok((status, None, "")), "{words:?}");
    }
}
