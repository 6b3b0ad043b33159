/// Which number of captures is told.
#[derive(Clone, Copy, PartialEq, Eq, Debug)]
pub enum Numbers {
    /// The least with which the men can have come to where they stand, with a way to it.
    Exact,
    /// One that is at most that, and too many already: positions that differ in the least one alone have the same words then.
    Enough,
}
