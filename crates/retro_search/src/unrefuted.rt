ghost use Rattle.retro_search.specs.Unrefuted.{IsLengthened};

use board_base::Unmove;

/// The first open line of a query that isn't refutable.
#[derive(Drop)]
pub struct OpenLine {
    /// Its unmoves, the last first.
    pub back: Vec<Unmove>,
    /// Whether the game of no moves reaches the query before them all.
    pub at_array: bool,
}

/// Why a query wasn't refuted.
#[derive(Drop)]
pub enum Unrefuted {
    /// It isn't refutable.
    Open(OpenLine),
    /// The nodes that were left didn't suffice.
    Spent,
    /// The tree would fill more than 500,000 lines.
    TooLarge,
    /// Want of memory.
    Memory,
}

/// What stops the search of a query if this stops that of its predecessor by the unmove: the open line is longer by it. Memory may
/// be wanting.
pub(crate) fn lengthened(stop: Unrefuted, u: Unmove) -> Unrefuted
    ensures { IsLengthened stop u result }
{
    match stop {
        Unrefuted::Open(mut line) => match line.back.push(u) {
            Ok(()) => Unrefuted::Open(line),
            Err(_) => Unrefuted::Memory,
        },
        Unrefuted::Spent => Unrefuted::Spent,
        Unrefuted::TooLarge => Unrefuted::TooLarge,
        Unrefuted::Memory => Unrefuted::Memory,
    }
}
