ghost use Rattle.std.specs.Prelude.{◌≡◌, ◌-◌, ◌≤◌, ◌<◌};
ghost use Rattle.men_account.specs.Account.{counts_of, excess_of, is_light};
ghost use Rattle.men_account.specs.Tallies.{AreBelow, with_man, with_place};

use crate::tallies::{Allowance, Counts};
use board_base::{Board, Colour, Kind, Man, Square};

/// Whether the square is light (article 2.1): its file and its rank, both counted from 0, have an odd sum.
pub fn is_light(s: Square) -> bool
    ensures { result ≡ is_light s }
{
    (s.file() + s.rank()) % 2 == 1
}

/// The counts with one man more, of this kind and on this square.
fn with_man(so_far: Counts, kind: Kind, s: Square) -> Counts
    requires { AreBelow 64 so_far }
    ensures { result ≡ with_man so_far kind s }
{
    let mut counts = so_far;
    match kind {
        Kind::Pawn => counts.pawns += 1,
        Kind::Knight => counts.knights += 1,
        Kind::Bishop => {
            if is_light(s) {
                counts.light_bishops += 1;
            } else {
                counts.dark_bishops += 1;
            }
        }
        Kind::Rook => counts.rooks += 1,
        Kind::Queen => counts.queens += 1,
        Kind::King => counts.kings += 1,
    }
    counts
}

/// The counts with what stands on this square, if it is a man of this side.
fn with_place(so_far: Counts, side: Colour, place: Option<Man>, s: Square) -> Counts
    requires { AreBelow 64 so_far }
    ensures { result ≡ with_place so_far side place s }
{
    match place {
        Some(man) => {
            if side == man.colour {
                with_man(so_far, man.kind, s)
            } else {
                so_far
            }
        }
        None => so_far,
    }
}

/// The men that a side has on the board.
pub fn counts(board: &Board, side: Colour) -> Counts
    ensures { result ≡ counts_of side board.now }
{
    let mut total = Counts::none();
    for i in 0..64 {
        let s = Square::known(i);
        total = with_place(total, side, board.at(s), s);
    }
    total
}

/// What a count is above its allowance, and 0 if it isn't above.
fn surplus(count: u8, allowed: u8) -> u16
    ensures value { result ≡ count - allowed }
    ensures small { result < 256 }
{
    count.saturating_sub(allowed) as u16
}

/// The pawns, and for each kind with an allowance what its count is above it, never less than 0 for a kind: the pawns, and those
/// men that must have been promoted if no more than the allowance began as officers (article 3.7).
pub fn excess(c: &Counts, a: &Allowance) -> u16
    ensures { result ≡ excess_of c.now a.now }
{
    c.pawns as u16
        + surplus(c.queens, a.queens)
        + surplus(c.rooks, a.rooks)
        + surplus(c.knights, a.knights)
        + surplus(c.light_bishops, a.light_bishops)
        + surplus(c.dark_bishops, a.dark_bishops)
}
