use board_base::Unmove;
use cert_checker::Why;
use line_claims::LineClaim;
use query_base::Query;

/// What a dossier that was accepted claims, and of which query. No game, of any length, contradicts it.
#[derive(Drop, Debug)]
pub struct AcceptedLine {
    /// The claim that the dossier proves.
    pub claim: LineClaim,
    /// The query that it is about.
    pub query: Query,
}

/// Why the bytes of a source are no dossier that proves its claim, or weren't read to their end. Steps, parts and lines are counted
/// from 1, lines from the first of their part's certificate.
#[derive(Clone, Copy, PartialEq, Eq, Debug)]
pub enum DossierRefused {
    /// No front of the bytes is a head.
    Head,
    /// This step of the claim is its first that isn't among the unmoves of what the steps before it leave.
    UnlistedStep {
        step: u8,
    },
    /// Where this part is due the bytes don't begin with a part; or none is due any more, and bytes follow.
    NoPart {
        part: u32,
    },
    /// In this part the lines before this one begin the text of a certificate. With it they begin none, or the part ends before it
    /// where the text must go on.
    BadText {
        part: u32,
        line: u32,
    },
    /// In this part this unmove of a node's query is the label of none of its children. The line is that of the child whose label
    /// comes after it, or the node's own if no child's does.
    Unlisted {
        part: u32,
        line: u32,
        unmove: Unmove,
    },
    /// In this part the node on this line doesn't prove its query.
    Unsupported {
        part: u32,
        line: u32,
        why: Why,
    },
    /// This part proves another claim than the one that is due, or one about another query.
    Other {
        part: u32,
    },
    /// There are more than 67,108,864 bytes: one more was read.
    TooLong,
    /// A read failed.
    ReadFault,
}
