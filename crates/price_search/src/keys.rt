ghost use Rattle.std.specs.Prelude.{◌<◌};

use crate::lands::OfficerFiles;
use balance_rule::{Ground, number_of};
use board_base::{Board, Kind, Man, Odds, Square, SquareSet};

/// What tells on which homes a man may have begun, and how he came from there. Men of one side for whom it is the same cost the same at
/// any prices.
#[derive(Clone, Copy, PartialEq, Eq, Hash)]
pub(crate) enum Trace {
    /// There is no man.
    Nobody,
    /// He stands on the set, on the square with this number.
    Caged(u8),
    King,
    /// A pawn, on the square with this number as the side sees the board.
    Pawn(u8),
    /// An officer: the files of the homes in whose regions he stands, and those of the squares of the last rank. A bit of each number
    /// is a file as the side sees the board.
    Officer(u8, u8),
}

/// The men of a side in order of their traces: of each the place among them in ascending order of their squares. Places with no man
/// stand for themselves.
#[derive(Clone, Copy)]
pub(crate) struct Order {
    places: [u8; 16],
}

/// What the costs of a position depend on at any prices, but for the order of the men.
#[derive(Clone, Copy, PartialEq, Eq, Hash)]
pub(crate) struct Key {
    pub(crate) set: SquareSet,
    pub(crate) odds: Odds,
    pub(crate) white: [Trace; 16],
    pub(crate) black: [Trace; 16],
}

/// The regions of officers of this kind from the squares of the side's last rank; None for pawns and kings.
fn promoted_regions(ground: &Ground, kind: Kind) -> Option<&[SquareSet; 8]> {
    match kind {
        Kind::Pawn | Kind::King => None,
        Kind::Knight => Some(&ground.knights),
        Kind::Bishop => Some(&ground.bishops),
        Kind::Rook => Some(&ground.rooks),
        Kind::Queen => Some(&ground.queens),
    }
}

/// The files in whose region of these a square is.
fn files_with(regions: &[SquareSet; 8], s: Square) -> u8 {
    let mut files = 0;
    for f in 0..8u8 {
        if regions[f as usize].has(s) {
            files |= 1 << f;
        }
    }
    files
}

/// The trace of a man on a square.
fn trace_of(ground: &Ground, officers: &OfficerFiles, man: Man, s: Square) -> Trace {
    if ground.frozen.has(s) {
        return Trace::Caged(s.index());
    }
    match promoted_regions(ground, man.kind) {
        Some(promoted) => Trace::Officer(
            files_with(&ground.regions, s) & officers.of(man.kind),
            files_with(promoted, s),
        ),
        None if man.kind == Kind::King => Trace::King,
        None => Trace::Pawn(number_of(ground.side, s)),
    }
}

/// The traces of the men on these squares of the side, at most sixteen.
pub(crate) fn traces_on(
    ground: &Ground,
    officers: &OfficerFiles,
    board: &Board,
    squares: &[u8],
) -> [Trace; 16] {
    let mut traces = [Trace::Nobody; 16];
    for (trace, i) in traces.iter_mut().zip(squares) {
        if let Some(s) = Square::new(*i) {
            if let Some(man) = board.at(s) {
                *trace = trace_of(ground, officers, man, s);
            }
        }
    }
    traces
}

/// A number by which traces are put in order.
fn rank_of(trace: Trace) -> u32 {
    match trace {
        Trace::Nobody => u32::MAX,
        Trace::Caged(square) => u32::from(square),
        Trace::King => 0x100,
        Trace::Pawn(number) => 0x200 + u32::from(number),
        Trace::Officer(homes, promoted) => {
            0x1_0000 + 0x100 * u32::from(homes) + u32::from(promoted)
        }
    }
}

/// Moves the last of the first numbers down to its place, if the others are in order, with what stands beside each.
fn sink(ranks: &mut [u32; 16], places: &mut [u8; 16], last: usize)
    requires { last < 16 }
{
    for i in (0..last).rev() {
        if ranks[i] <= ranks[i + 1] {
            return;
        }
        ranks.swap(i, i + 1);
        places.swap(i, i + 1);
    }
}

/// The men with these traces in order.
pub(crate) fn placed_men(traces: &[Trace; 16]) -> Order {
    let mut ranks = [0; 16];
    let mut places = [0; 16];
    for i in 0..16u8 {
        let last = i as usize;
        ranks[last] = rank_of(traces[last]);
        places[last] = i;
        sink(&mut ranks, &mut places, last);
    }
    Order { places }
}

impl Order {
    /// These traces in order.
    pub(crate) fn traces(&self, traces: &[Trace; 16]) -> [Trace; 16] {
        let mut all = *traces;
        for i in 0..16 {
            all[i] = traces[self.places[i] as usize % 16];
        }
        all
    }

    /// These homes in order of the men's traces, with those of the men who are gone behind.
    pub(crate) fn by_traces(&self, homes: &[u8; 16]) -> [u8; 16] {
        let mut all = *homes;
        for i in 0..16 {
            all[i] = homes[self.places[i] as usize % 16];
        }
        all
    }

    /// These homes, which are in order of the men's traces, in ascending order of the men's squares.
    pub(crate) fn by_squares(&self, homes: &[u8; 16]) -> [u8; 16] {
        let mut all = *homes;
        for i in 0..16 {
            all[self.places[i] as usize % 16] = homes[i];
        }
        all
    }
}
