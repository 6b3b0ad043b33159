ghost use Rattle.std.specs.Prelude.{◌≡◌};

/// How far a search for a sketch goes.
#[derive(Clone, Copy)]
pub struct Limits {
    /// The most steps of a sketch that is followed, up to 1,024.
    pub steps: usize,
    /// How many sketches it looks at that aren't closed at once.
    pub states: u32,
    /// How often prices are sought.
    pub ascents: u32,
    /// Whether pawns' moves on one file are taken back one by one if nothing else is found.
    pub files: bool,
    /// Whether it gives up at the first sketch if this can be the array, before prices are sought.
    pub hasty: bool,
    /// Whether prices aren't sought, nor many steps followed, if the men cost so little at equal prices that this seldom leads to anything.
    pub thrifty: bool,
}

impl Limits {
    /// What is spent on each file that is taken to be exact: an eighth, but no less than a search needs that is worth while.
    pub fn for_file(self) -> Limits
        ensures { result.steps ≡ self.steps }
    {
        Limits {
            steps: self.steps,
            states: (self.states / 8).max(20),
            ascents: (self.ascents / 8).max(40),
            files: false,
            hasty: self.hasty,
            thrifty: self.thrifty,
        }
    }
}

/// Enough for most trees that close at all.
pub const SMALL: Limits = Limits {
    steps: 100,
    states: 20,
    ascents: 40,
    files: false,
    hasty: false,
    thrifty: false,
};

/// The same for positions of which there are many: little is spent on those that seldom close.
pub const QUICK: Limits = Limits {
    steps: 100,
    states: 20,
    ascents: 40,
    files: false,
    hasty: true,
    thrifty: true,
};

/// For the positions that matter most.
pub const LARGE: Limits = Limits {
    steps: 250,
    states: 1_500,
    ascents: 1_500,
    files: true,
    hasty: false,
    thrifty: false,
};
