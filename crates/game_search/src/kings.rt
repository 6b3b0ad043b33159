use crate::accounts::Account;
use crate::diagrams::Force;
use crate::settings::{KING_BARRED, KING_DETOUR};
use board_base::Kind;
use home_ways::{HOMES, bit, guarded, steps};

/// The first rank and the last.
const ENDS: u64 = 0xff00_0000_0000_00ff;

/// The squares that these men attack, who come down the board, with this king out of their way.
fn attacked(men: &Force, all: u64) -> u64 {
    let empty = !all;
    guarded(men.pawns)
        | steps(Kind::Knight, men.knights, empty)
        | steps(Kind::King, men.king, empty)
        | steps(Kind::Bishop, men.bishops | men.queens, empty)
        | steps(Kind::Rook, men.rooks | men.queens, empty)
}

/// How many moves bring the king home, past squares that are attacked, pawns, and his own men on the first rank and the last; None if
/// there is no such way.
fn moves_home(own: &Force, other: &Force) -> Option<u32> {
    let foes = other.turned();
    let home = bit(HOMES[0]);
    let all = (own.all() | foes.all()) & !own.king;
    let barred = attacked(&foes, all) | own.pawns | foes.pawns | own.all() & ENDS & !home;
    let mut seen = own.king;
    let mut front = own.king;
    for moves in 0..64u32 {
        if front & home != 0 {
            return Some(moves);
        }
        let next = steps(Kind::King, front, u64::MAX) & !seen;
        front = next & (!barred | home);
        seen |= front;
        if front == 0 {
            break;
        }
    }
    None
}

/// What it costs that men bar the king's way home.
pub fn bar_cost(account: &Account, own: &Force, other: &Force) -> u32 {
    if own.king == bit(HOMES[0]) {
        return 0;
    }
    match moves_home(own, other) {
        None => KING_BARRED,
        Some(moves) => KING_DETOUR.saturating_mul(moves.saturating_sub(account.king_moves)),
    }
}
