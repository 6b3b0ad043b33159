ghost use Rattle.std.specs.Prelude.{◌<◌, ◌≤◌, IfSome};

use crate::classes::neediest_class;
use crate::costs::SideMen;
use crate::keys::Trace;
use crate::lands::{Classes, Home, Land, NOWHERE, Rank};
use crate::places::place_of;
use crate::ways::{AllWays, BASE, Rates, Ways, class_at};
use crate::weighing::WHOLE;
use board_base::Colour;

/// How often each price is paid, less how often it is earned: by the places of prices, the captures by pawns, the men who were taken by
/// pawns, and the pawns who never captured and trod a square.
#[derive(Clone, Copy, PartialEq, Eq)]
pub(crate) struct Tally {
    pub(crate) times: [i8; 96],
}

impl Default for Tally {
    fn default() -> Tally {
        Tally { times: [0; 96] }
    }
}

/// What the men of a side did who have homes at the least cost. Where those who are gone were taken is counted when it is known where
/// the enemy captured.
#[derive(Clone, Copy)]
pub(crate) struct Deeds {
    tally: Tally,
    /// Whether the man of the home with each number is gone, and the classes on one of which he was then taken.
    gone: [bool; 16],
    fallen: [Classes; 16],
}

impl Tally {
    /// Counts a capture by a pawn of a side on a class.
    fn count_capture(&mut self, side: Colour, class: usize)
        requires { class < 16 }
    {
        let k = place_of(side, class);
        self.times[k] = self.times[k].wrapping_add(1);
    }

    /// Counts that a man was taken by a pawn of a side on a square of this class.
    fn count_taken(&mut self, enemy: Colour, class: usize)
        requires { class < 16 }
    {
        let k = place_of(enemy, class);
        self.times[k] = self.times[k].wrapping_sub(1);
    }

    /// Counts that a pawn trod the squares of a file from its home on, up to a rank, who never captured.
    fn count_trodden(&mut self, land: &Land, file: usize, last: usize)
        requires { file < 8 }
    {
        for rank in 1..8 {
            if rank <= last {
                let k = 32 + land.square(rank, file);
                self.times[k] = self.times[k].wrapping_add(1);
            }
        }
    }
}

/// The square from which the last capture came of the way of the pawn of a file to a square with the least fee. Squares are told by
/// their numbers as the side sees the board.
fn captured_from(rates: &Rates, ways: &Ways, own: usize, end: usize) -> usize
    requires inside { end < 64 }
    requires ahead { 16 ≤ end }
    ensures { result < 64 }
{
    let rank = end / 8;
    let file = end % 8;
    let take = rates.take_on(rank)[file];
    if file > 0 {
        let fee = ways.fee(own, rank - 1, file - 1).wrapping_add(take);
        if fee.min(NOWHERE) == ways.aside[rank][file] {
            return end - 9;
        }
    }
    end - 7
}

/// Counts the captures of the way to a square on which the pawn of a file captures at the least fee.
fn count_captures(
    tally: &mut Tally,
    side: Colour,
    rates: &Rates,
    ways: &Ways,
    own: usize,
    end: usize,
)
    requires { end < 64 }
{
    let mut i = end;
    for _ in 0..7 {
        if i < 16 {
            return;
        }
        let rank = i / 8;
        let file = i % 8;
        if ways.aside[rank - 1][file] == ways.aside[rank][file] {
            i -= 8;
        } else {
            tally.count_capture(side, class_at(side, rank, file));
            i = captured_from(rates, ways, own, i);
            if i % 8 == own && ways.straight[i / 8] < NOWHERE {
                return;
            }
        }
    }
}

/// Counts what the pawn of a file did who came to a square at the least toll.
fn count_toll(tally: &mut Tally, land: &Land, rates: &Rates, ways: &Ways, own: usize, end: usize)
    requires own { own < 8 }
    requires end { end < 64 }
{
    let rank = end / 8;
    let file = end % 8;
    if file == own && ways.straight[rank] <= ways.aside[rank][file] {
        tally.count_trodden(land, own, rank);
    } else {
        count_captures(tally, land.side, rates, ways, own, end);
    }
}

/// The square of the last rank with the least toll among those on these files. A bit is a file.
fn best_promotion(ways: &Ways, own: usize, files: u8) -> usize
    ensures { result < 64 }
{
    let mut best = 56;
    let mut least = NOWHERE;
    for g in 0..8 {
        let toll = ways.toll(own, 7, g);
        if files >> g & 1 == 1 && toll < least {
            best = 56 + g;
            least = toll;
        }
    }
    best
}

/// The first file on which a way costs as much as it costs that the pawn is gone, if these are earned.
fn lost_among(ways: &Rank, earned: &Rank, gone: u16) -> Option<usize>
    ensures { IfSome result (λ file. file < 8) }
{
    for g in 0..8 {
        if ways[g].wrapping_add(BASE).wrapping_sub(earned[g]) == gone {
            return Some(g);
        }
    }
    None
}

/// Where the pawn of a file went who is gone.
fn best_loss(rates: &Rates, ways: &Ways, own: usize) -> usize
    requires { own < 8 }
    ensures { result < 64 }
{
    for rank in 1..7 {
        let fees = ways.fees(own, rank);
        if let Some(file) = lost_among(&fees, rates.earned_on(rank), ways.gone) {
            return 8 * rank + file;
        }
    }
    match lost_among(&ways.tolls(own, 7), &rates.after, ways.gone) {
        Some(file) => 56 + file,
        None => 8 + own,
    }
}

/// The class of a square, if men are exposed there.
fn exposed_class(land: &Land, end: usize) -> Classes
    requires { end < 64 }
{
    let mut classes = [0; 16];
    if land.exposed[end / 8][end % 8] != 0 {
        classes[class_at(land.side, end / 8, end % 8)] = 255;
    }
    classes
}

/// Counts what the pawn of a file did who is gone, and tells the classes on which he was taken.
fn count_lost(tally: &mut Tally, land: &Land, rates: &Rates, ways: &Ways, own: usize) -> Classes
    requires { own < 8 }
{
    let end = best_loss(rates, ways, own);
    if end >= 56 {
        count_toll(tally, land, rates, ways, own, end);
        return land.promoted[end - 56];
    }
    if end % 8 != own || ways.straight[end / 8] == NOWHERE {
        count_captures(tally, land.side, rates, ways, own, end);
    }
    exposed_class(land, end)
}

impl Deeds {
    /// Counts what the pawn of a file did who stands somewhere.
    fn count_standing(&mut self, land: &Land, rates: &Rates, ways: &Ways, own: usize, trace: Trace)
        requires { own < 8 }
    {
        let end = match trace {
            Trace::Pawn(number) => number as usize % 64,
            Trace::Officer(_, promoted) => best_promotion(ways, own, promoted),
            _ => return,
        };
        count_toll(&mut self.tally, land, rates, ways, own, end);
    }

    /// Counts what the man did who began on this number and is gone.
    fn count_gone(&mut self, land: &Land, rates: &Rates, ways: &AllWays, n: usize)
        requires { n < 16 }
    {
        self.gone[n] = true;
        match &land.homes[n] {
            Home::Officer(classes) => self.fallen[n] = *classes,
            Home::Pawn => {
                let own = n % 8;
                self.fallen[n] = count_lost(&mut self.tally, land, rates, &ways.each[own], own);
            }
            _ => {}
        }
    }

    /// All that the men of this side did, with the classes on which they were taken, if the enemy has these prices and so much is
    /// needed on each class. Each earns the most that he can, pawns come first, and of equal classes that is taken where the need is
    /// greatest.
    pub(crate) fn with_fallen(&self, enemy: Colour, takes: &[u8; 16], needs: &[i32; 16]) -> Tally {
        let mut tally = self.tally;
        let mut left = *needs;
        for n in (0..16).rev() {
            if self.gone[n] {
                if let Some(class) = neediest_class(takes, &left, &self.fallen[n]) {
                    tally.count_taken(enemy, class);
                    left[class] = left[class].wrapping_sub(WHOLE);
                }
            }
        }
        tally
    }

    /// What is needed on the classes if this side's pawns captured, and so much is owed on all places of captures.
    pub(crate) fn needs(&self, side: Colour, owed: &[i32; 32]) -> [i32; 16] {
        let mut all = [0; 16];
        for class in 0..16 {
            let k = place_of(side, class);
            all[class] = owed[k].wrapping_add(WHOLE.wrapping_mul(i32::from(self.tally.times[k])));
        }
        all
    }
}

/// What the men of a side did who have the homes with these numbers: first those on the board, then those who are gone.
pub(crate) fn deeds_of(
    land: &Land,
    men: &SideMen,
    rates: &Rates,
    ways: &AllWays,
    homes: &[u8; 16],
) -> Deeds {
    let mut deeds = Deeds {
        tally: Tally { times: [0; 96] },
        gone: [false; 16],
        fallen: [[0; 16]; 16],
    };
    for i in 0..16 {
        let n = homes[i] as usize % 16;
        if i >= men.begun {
            break;
        }
        if i >= men.standing {
            deeds.count_gone(land, rates, ways, n);
        } else if matches!(land.homes[n], Home::Pawn) {
            let own = n % 8;
            deeds.count_standing(land, rates, &ways.each[own], own, men.traces[i]);
        }
    }
    deeds
}
