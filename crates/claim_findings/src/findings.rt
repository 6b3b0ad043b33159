ghost use Rattle.std.specs.Prelude.{◌≡◌};
ghost use Rattle.claim_findings.specs.Findings.{is_proved};
ghost use Rattle.claim_findings.specs.Joined.{joined};

/// What the searches for a proof of a claim come to.
#[derive(Clone, Copy, PartialEq, Eq, Debug)]
pub enum Finding {
    /// The claim is proved by taking back so many moves, the fewest by which the search proves it.
    Proved(u8),
    /// A game contradicts the claim.
    Countered,
    /// A line of moves taken back stays open.
    Open,
    /// All the nodes that were allowed were visited.
    Spent,
}

impl Finding {
    /// A proof was found.
    pub fn is_proved(self) -> bool
        ensures { result ≡ is_proved self }
    {
        matches!(self, Finding::Proved(_))
    }

    /// What is found of two claims together: the greater depth if both are proved, else the first that isn't.
    pub fn joined(self, other: Finding) -> Finding
        ensures { result ≡ joined self other }
    {
        match self {
            Finding::Proved(depth) => other.at_least(depth),
            Finding::Countered | Finding::Open | Finding::Spent => self,
        }
    }

    /// The same, but that what is proved is so at this depth at least.
    fn at_least(self, depth: u8) -> Finding
        ensures { result ≡ joined (Finding.Proved depth) self }
    {
        match self {
            Finding::Proved(other) => Finding::Proved(depth.max(other)),
            Finding::Countered | Finding::Open | Finding::Spent => self,
        }
    }
}
