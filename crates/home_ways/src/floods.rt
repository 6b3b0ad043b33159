ghost use Rattle.std.specs.Prelude.{◌≤◌};

use crate::bits::squares_of;
use board_base::Kind;

/// From where there is no way.
pub const FAR: u8 = 200;

/// All squares but those of the a-file, where a step to the right ends.
const NOT_A: u64 = 0xfefe_fefe_fefe_fefe;
/// All squares but those of the h-file, where a step to the left ends.
const NOT_H: u64 = 0x7f7f_7f7f_7f7f_7f7f;

const NOT_AB: u64 = 0xfcfc_fcfc_fcfc_fcfc;

const NOT_GH: u64 = 0x3f3f_3f3f_3f3f_3f3f;

const EVERY: u64 = u64::MAX;

/// The squares that a line man reaches by steps of so many squares on, past empty ones.
fn slide_on(from: u64, empty: u64, by: u32, ends: u64) -> u64
    requires { by ≤ 9 }
{
    let one = empty & ends;
    let mut filled = from | one & from << by;
    let two = one & one << by;
    filled |= two & filled << (2 * by);
    let four = two & two << (2 * by);
    filled |= four & filled << (4 * by);
    filled << by & ends
}

/// The squares that a line man reaches by steps of so many squares back, past empty ones.
fn slide_back(from: u64, empty: u64, by: u32, ends: u64) -> u64
    requires { by ≤ 9 }
{
    let one = empty & ends;
    let mut filled = from | one & from >> by;
    let two = one & one >> by;
    filled |= two & filled >> (2 * by);
    let four = two & two >> (2 * by);
    filled |= four & filled >> (4 * by);
    filled >> by & ends
}

fn rook_steps(from: u64, empty: u64) -> u64 {
    slide_on(from, empty, 1, NOT_A)
        | slide_back(from, empty, 1, NOT_H)
        | slide_on(from, empty, 8, EVERY)
        | slide_back(from, empty, 8, EVERY)
}

fn bishop_steps(from: u64, empty: u64) -> u64 {
    slide_on(from, empty, 9, NOT_A)
        | slide_back(from, empty, 9, NOT_H)
        | slide_on(from, empty, 7, NOT_H)
        | slide_back(from, empty, 7, NOT_A)
}

fn knight_steps(from: u64) -> u64 {
    from << 17 & NOT_A
        | from << 15 & NOT_H
        | from << 10 & NOT_AB
        | from << 6 & NOT_GH
        | from >> 17 & NOT_H
        | from >> 15 & NOT_A
        | from >> 10 & NOT_GH
        | from >> 6 & NOT_AB
}

fn king_steps(from: u64) -> u64 {
    let beside = from << 1 & NOT_A | from >> 1 & NOT_H;
    let row = from | beside;
    beside | row << 8 | row >> 8
}

/// The squares that pawns guard who come down the board.
pub fn guarded(pawns: u64) -> u64 {
    pawns >> 9 & NOT_H | pawns >> 7 & NOT_A
}

/// The squares that men of this kind on these squares reach by one move, past empty ones.
pub fn steps(kind: Kind, from: u64, empty: u64) -> u64 {
    match kind {
        Kind::Knight => knight_steps(from),
        Kind::Bishop => bishop_steps(from, empty),
        Kind::Rook => rook_steps(from, empty),
        Kind::Queen => rook_steps(from, empty) | bishop_steps(from, empty),
        _ => king_steps(from),
    }
}

/// From each square the moves of a man of this kind to his home round walls, on which a way may begin, never by way of a shunned
/// square; `FAR` if there is no way.
pub fn flood(kind: Kind, home: u64, walls: u64, shunned: u64) -> [u8; 64] {
    let mut moves = [FAR; 64];
    let mut seen: u64 = 0;
    let mut layer = home;
    for depth in 0..64u8 {
        if layer == 0 {
            break;
        }
        seen |= layer;
        for s in squares_of(layer) {
            moves[s % 64] = depth;
        }
        let front = if depth == 0 { layer } else { layer & !walls };
        layer = steps(kind, front, !walls) & !seen & !shunned;
    }
    moves
}
