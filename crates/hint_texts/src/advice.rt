//! What a user is told whose words or whose input aren't what a command takes: the table of all texts.

ghost use Rattle.std.specs.Prelude.{IsTrue};
ghost use Rattle.hint_texts.specs.OneLine.{is_one_line};

const BYTE_ORDER_MARK: &str =
    "the input begins with a byte-order mark (the bytes EF BB BF): save the file as UTF-8 without it";

/// What is wrong with the words of the command line.
#[derive(Clone, Copy, PartialEq, Eq, Debug)]
pub enum WordAdvice {
    NotUtf8,
    StandsAlone,
    CommandFirst,
    ComesByInput,
    FileAsWord,
    PositionAsWord,
    ClaimAsWord,
    NoCommand,
    NearestCommand,
    Count,
    NoNumbers,
    NoNodes,
    BothNumbers,
    Depth,
    Nodes,
    Start,
    Games,
    Plies,
    Usage,
}

impl WordAdvice {
    pub fn text(self) -> &'static str
        ensures { IsTrue (is_one_line result.now) }
    {
        match self {
            WordAdvice::NotUtf8 => "a word isn't UTF-8",
            WordAdvice::StandsAlone => "`--help` and `--version` stand alone",
            WordAdvice::CommandFirst => {
                "a command comes first, and a position or a file isn't a word: `echo 'FEN' | retractor report`, or `retractor report < FILE`"
            }
            WordAdvice::ComesByInput => {
                "a position, a claim or a file isn't given as a word: the input comes by `<` or a pipe"
            }
            WordAdvice::FileAsWord => "a file isn't given as a word: put `<` before its name",
            WordAdvice::PositionAsWord => {
                "a position isn't given as a word, but through a pipe: echo 'FEN'"
            }
            WordAdvice::ClaimAsWord => {
                "a claim and a position aren't given as words, but through a pipe, each as a line: printf '%s\\n' 'CLAIM' 'FEN'"
            }
            WordAdvice::NoCommand => "there is no such command; `retractor --help` lists them",
            WordAdvice::NearestCommand => "there is no such command; the nearest is",
            WordAdvice::Count => "there are too many or too few words",
            WordAdvice::NoNumbers => {
                "DEPTH and NODES are missing: the numbers 64 and 20000 serve as a rule"
            }
            WordAdvice::NoNodes => "NODES is missing behind DEPTH: 20000 serves as a rule",
            WordAdvice::BothNumbers => {
                "NODES is missing behind DEPTH: give both numbers, or none"
            }
            WordAdvice::Depth => "DEPTH is a number from 0 to 64",
            WordAdvice::Nodes => "NODES is a number from 1 to 500000",
            WordAdvice::Start => "START is a number from 0 to 18446744073709551615",
            WordAdvice::Games => "GAMES is a number from 1 to 1000",
            WordAdvice::Plies => "PLIES is a number from 1 to 200",
            WordAdvice::Usage => "`retractor --help` says how each command is called",
        }
    }
}

/// What is wrong with the lines of an input: with the claim, the odds and the clock, or with their number.
#[derive(Clone, Copy, PartialEq, Eq, Debug)]
pub enum LineAdvice {
    Empty,
    ByteOrderMark,
    BlankAtEnd,
    Claim,
    LegalClaim,
    ClaimOfSteps,
    Steps,
    ClaimOfOne,
    MoveOfClaim,
    RightOfClaim,
    Odds,
    Clock,
    ClockAgainstFen,
    NoFen,
    EmptyBehindFen,
    LineTooMany,
    Lines,
}

impl LineAdvice {
    pub fn text(self) -> &'static str
        ensures { IsTrue (is_one_line result.now) }
    {
        match self {
            LineAdvice::Empty => "the input is empty; it comes by `<` or a pipe",
            LineAdvice::ByteOrderMark => BYTE_ORDER_MARK,
            LineAdvice::BlankAtEnd => "a blank stands at the end of the line: leave it out",
            LineAdvice::Claim => {
                "line 1 must be a claim, before the FEN: `claim illegal`, `claim last f3g3`, `claim lost K` (or Q, k, q) or `claim ep e5d6`"
            }
            LineAdvice::LegalClaim => {
                "`claim legal` is no claim; ask for `claim illegal`: a game that answers it shows that the position is legal"
            }
            LineAdvice::ClaimOfSteps => {
                "`claim line` and `claim notboth` belong to `dossier DEPTH NODES`"
            }
            LineAdvice::Steps => {
                "line 1 must be a claim of several steps: `claim notboth K Q`, or `claim line` and retractions, the last move first, as `claim line f3g3xp f4g3ep`"
            }
            LineAdvice::ClaimOfOne => {
                "`claim illegal`, `claim last`, `claim lost` and `claim ep` belong to `settle` and `solve DEPTH NODES`"
            }
            LineAdvice::MoveOfClaim => {
                "a claim's move is its origin and its target, and n, b, r or q if a pawn promotes: `claim last f3g3`, `claim last b7b8q`, `claim ep e5d6`"
            }
            LineAdvice::RightOfClaim => {
                "`claim lost` names one right: K or Q of White's, k or q of Black's"
            }
            LineAdvice::Odds => {
                "the line is `odds` and a number of 16 hexadecimal digits, the sum of 1 for a1, 2 for b1, 4 for c1 .. 80 for h1, 100 for a2 ..; only men of ranks 1, 2, 7 and 8 may be left out, and no king: `odds 0000000000000002` is the knight of b1"
            }
            LineAdvice::Clock => {
                "the line is `clock` and a number from 0 to 9999, as `clock 12`"
            }
            LineAdvice::ClockAgainstFen => {
                "the clock line and the fifth field of the FEN say different numbers; leave the line out, or let them agree"
            }
            LineAdvice::NoFen => {
                "the FEN line is missing; it is the last line of a position, behind the lines of claim, odds and clock"
            }
            LineAdvice::EmptyBehindFen => "an empty line stands behind the FEN line: leave it out",
            LineAdvice::LineTooMany => {
                "nothing may follow the FEN line: one position is read at a time, and only `play` and `san` read moves behind it"
            }
            LineAdvice::Lines => {
                "the lines are, in this order: the claim if one is asked for, `odds ..` and `clock ..` if they are wanted, and the FEN"
            }
        }
    }
}

/// That the rank of this number has too many squares.
fn long_rank(rank: u8) -> &'static str
    ensures { IsTrue (is_one_line result.now) }
{
    match rank {
        1 => "rank 1, the last one of field 1, has more than eight squares",
        2 => "rank 2, the seventh of field 1, has more than eight squares",
        3 => "rank 3, the sixth of field 1, has more than eight squares",
        4 => "rank 4, the fifth of field 1, has more than eight squares",
        5 => "rank 5, the fourth of field 1, has more than eight squares",
        6 => "rank 6, the third of field 1, has more than eight squares",
        7 => "rank 7, the second of field 1, has more than eight squares",
        _ => "rank 8, the first of field 1, has more than eight squares",
    }
}

/// That the rank of this number has too few squares.
fn short_rank(rank: u8) -> &'static str
    ensures { IsTrue (is_one_line result.now) }
{
    match rank {
        1 => "rank 1, the last one of field 1, has fewer than eight squares",
        2 => "rank 2, the seventh of field 1, has fewer than eight squares",
        3 => "rank 3, the sixth of field 1, has fewer than eight squares",
        4 => "rank 4, the fifth of field 1, has fewer than eight squares",
        5 => "rank 5, the fourth of field 1, has fewer than eight squares",
        6 => "rank 6, the third of field 1, has fewer than eight squares",
        7 => "rank 7, the second of field 1, has fewer than eight squares",
        _ => "rank 8, the first of field 1, has fewer than eight squares",
    }
}

/// What is wrong with the line that is due as a FEN.
#[derive(Clone, Copy, PartialEq, Eq, Debug)]
pub enum FenAdvice {
    ByteOrderMark,
    EmptyLine,
    ClaimLine,
    Demand,
    OtherText,
    Quotes,
    Dash,
    Tab,
    Blanks,
    BlankAtEnd,
    Knight,
    Digits,
    FewRanks,
    ManyRanks,
    /// The rank of this number.
    LongRank(u8),
    /// The rank of this number.
    ShortRank(u8),
    Placement,
    NoSide,
    Side,
    Rights,
    Passant,
    Fields,
    Numbers,
}

impl FenAdvice {
    pub fn text(self) -> &'static str
        ensures { IsTrue (is_one_line result.now) }
    {
        match self {
            FenAdvice::ByteOrderMark => BYTE_ORDER_MARK,
            FenAdvice::EmptyLine => "the line that is due as a FEN is empty",
            FenAdvice::ClaimLine => {
                "a claim line is read by `solve`, `settle` and `dossier` alone, as line 1"
            }
            FenAdvice::Demand => {
                "before the FEN may stand one `odds ..` line and behind that one `clock ..` line; `length` knows no clock"
            }
            FenAdvice::OtherText => {
                "a FEN is due, and this is a certificate, a length or a dossier, which `check`, `atleast` and `line` read"
            }
            FenAdvice::Quotes => {
                "quotation marks are no part of a FEN; only a shell wants them round it, and straight ones: 'FEN'"
            }
            FenAdvice::Dash => {
                "a long dash stands where a hyphen is due: type -, the sign between two words"
            }
            FenAdvice::Tab => "one space stands between two fields, and no tab",
            FenAdvice::Blanks => "one space stands between two fields, and none before the first",
            FenAdvice::BlankAtEnd => "a blank stands at the end of the FEN",
            FenAdvice::Knight => "the knight is N for White and n for Black, not S",
            FenAdvice::Digits =>
                "no digit follows a digit: write their sum, as 8 for an empty rank",
            FenAdvice::FewRanks => {
                "field 1 has fewer than eight ranks: they go from 8 down to 1, separated by /, and 8 is an empty one"
            }
            FenAdvice::ManyRanks => {
                "field 1 has more than eight ranks: after the eighth a space and the side to move follow"
            }
            FenAdvice::LongRank(rank) => long_rank(rank),
            FenAdvice::ShortRank(rank) => short_rank(rank),
            FenAdvice::Placement => {
                "field 1 is eight ranks from 8 down to 1, separated by /, each of eight squares: PNBRQK for White's men, pnbrqk for Black's, a digit for so many empty squares"
            }
            FenAdvice::NoSide => {
                "side, rights and en passant square are missing: write ` w - -` or ` b - -` behind the men"
            }
            FenAdvice::Side => "field 2 is the side to move, w or b",
            FenAdvice::Rights => {
                "field 3 is -, or the rights that are still held, in the order KQkq"
            }
            FenAdvice::Passant => {
                "field 4 is -, or the square that a double step has just crossed: a file, and 6 if White is to move or 3 if Black is"
            }
            FenAdvice::Fields => {
                "a FEN has four fields or six: men, side, rights, en passant square, and two numbers or none"
            }
            FenAdvice::Numbers =>
                "fields 5 and 6 are numbers of one to nine digits; both may be left out",
        }
    }
}

/// What is wrong with a word of a game.
#[derive(Clone, Copy, PartialEq, Eq, Debug)]
pub enum MoveAdvice {
    Label,
    UseSan,
    UsePlay,
    CastlingLetters,
    Marks,
    Move,
    San,
}

impl MoveAdvice {
    pub fn text(self) -> &'static str
        ensures { IsTrue (is_one_line result.now) }
    {
        match self {
            MoveAdvice::Label => "leave out the words before the first move, up to the colon",
            MoveAdvice::UseSan => {
                "a move is its origin and its target here, as g1f3; use `san` for Nf3"
            }
            MoveAdvice::UsePlay => "a move is written as Nf3 here; use `play` for g1f3",
            MoveAdvice::CastlingLetters => "castling is O-O or O-O-O, with the letter O",
            MoveAdvice::Marks => "no e.p., ! or ?, no comment, variation or tag is read",
            MoveAdvice::Move => {
                "a move is its origin and its target, and n, b, r or q if a pawn promotes: e2e4, e1g1, e7e8q"
            }
            MoveAdvice::San => {
                "a word is a number (12.), a move (Nf3, exd5, O-O, e8=Q) or, as the last, a result (1-0, 0-1, 1/2-1/2, *)"
            }
        }
    }
}

/// What was given to `check` or `explain` that is no certificate.
#[derive(Clone, Copy, PartialEq, Eq, Debug)]
pub enum TextAdvice {
    ByteOrderMark,
    Dossier,
    Length,
    Claim,
    NoProof,
    Report,
    CarriageReturns,
    PositionToCheck,
    ClaimToExplain,
    PositionToExplain,
    ReturnsToExplain,
}

impl TextAdvice {
    pub fn text(self) -> &'static str
        ensures { IsTrue (is_one_line result.now) }
    {
        match self {
            TextAdvice::ByteOrderMark => BYTE_ORDER_MARK,
            TextAdvice::Dossier => "this is a dossier, which `retractor line` checks",
            TextAdvice::Length => "this is the text of a length, which `retractor atleast` checks",
            TextAdvice::Claim => {
                "this is a claim and a position; `retractor settle` searches for a certificate of it, or for a game against it"
            }
            TextAdvice::NoProof => {
                "this is no proof: `countered` and a game that contradicts the claim, or how far a search came that found neither"
            }
            TextAdvice::Report => {
                "this is a text to be read; `check` and `explain` take a certificate, which `retractor settle` writes"
            }
            TextAdvice::CarriageReturns => {
                "the lines end with \\r\\n, those of a certificate with \\n alone: `tr -d '\\r' < FILE | retractor check`"
            }
            TextAdvice::PositionToCheck => {
                "this is a position; with a claim before it, as `claim illegal`, `retractor settle` writes a certificate to check"
            }
            TextAdvice::ClaimToExplain => {
                "this is a claim and a position; `retractor settle` writes a certificate of it: `retractor settle < FILE | retractor explain`"
            }
            TextAdvice::PositionToExplain => {
                "this is a position; with a claim before it, as `claim illegal`, `retractor settle` writes a certificate to explain"
            }
            TextAdvice::ReturnsToExplain => {
                "the lines end with \\r\\n, those of a proof with \\n alone: `tr -d '\\r' < FILE | retractor explain`"
            }
        }
    }
}

/// What a user is told.
#[derive(Clone, Copy, PartialEq, Eq, Debug)]
pub enum Advice {
    /// At bad words.
    Words(WordAdvice),
    /// At bad input.
    Lines(LineAdvice),
    /// At bad input.
    Fen(FenAdvice),
    /// Where a word of a game is refused.
    Moves(MoveAdvice),
    /// Where `check` or `explain` refuses the first line.
    Texts(TextAdvice),
}

impl Advice {
    /// The text of the advice, without the line's end.
    pub fn text(self) -> &'static str
        ensures { IsTrue (is_one_line result.now) }
    {
        match self {
            Advice::Words(advice) => advice.text(),
            Advice::Lines(advice) => advice.text(),
            Advice::Fen(advice) => advice.text(),
            Advice::Moves(advice) => advice.text(),
            Advice::Texts(advice) => advice.text(),
        }
    }
}
