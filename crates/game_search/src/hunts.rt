use crate::accounts::Account;
use crate::diagrams::Force;
use board_base::Kind;
use home_ways::{bit, has, squares_of, steps};

/// How far off anybody is at most.
const MOST_MOVES: u32 = 5;

/// How many moves a line man of this kind needs to one of the squares, if there is any: one or more.
fn line_moves(kind: Kind, men: u64, empty: u64, targets: u64) -> u32 {
    let reached = steps(kind, men, empty) & empty;
    if reached & targets != 0 {
        1
    } else if reached != 0 {
        2
    } else if men != 0 {
        4
    } else {
        MOST_MOVES
    }
}

/// How many moves the nearest knight needs to one of the squares, past those where other men stand.
fn knight_moves(knights: u64, empty: u64, targets: u64) -> u32 {
    let mut reached = targets;
    for moves in 1..MOST_MOVES {
        let next = steps(Kind::Knight, reached, empty);
        if next & knights != 0 {
            return moves;
        }
        reached |= next & empty;
    }
    MOST_MOVES
}

/// How many moves the king needs to one of the squares on an empty board.
fn king_moves(king: u64, targets: u64) -> u32 {
    let mut reached = king;
    for moves in 0..MOST_MOVES {
        if reached & targets != 0 {
            return moves;
        }
        reached |= steps(Kind::King, reached, u64::MAX);
    }
    MOST_MOVES
}

/// How many moves the nearest hunter needs to one of the squares; `all` are the squares of all men.
fn nearest(hunters: &Force, all: u64, targets: u64) -> u32 {
    if targets == 0 {
        return 4;
    }
    let officers = hunters.queens | hunters.rooks | hunters.bishops | hunters.knights;
    if officers & targets != 0 {
        return 0;
    }
    let empty = !all;
    line_moves(Kind::Bishop, hunters.bishops, empty, targets)
        .min(line_moves(Kind::Rook, hunters.rooks, empty, targets))
        .min(line_moves(Kind::Queen, hunters.queens, empty, targets))
        .min(knight_moves(hunters.knights, empty | hunters.knights, targets))
        .min(king_moves(hunters.king, targets))
}

/// The squares on which a missing pawn may come back: on these files, from its home to the fifth rank, up to the first man who bars it.
fn pawn_squares(free: u8, bars: u64) -> u64 {
    let mut set: u64 = 0;
    for file in squares_of(u64::from(free)) {
        for rank in 1..5 {
            let square = (file % 8) + 8 * rank;
            if has(bars, square) {
                break;
            }
            set |= bit(square);
        }
    }
    set
}

/// How far the other side's men are from where they may have captured those who are missing: a pawn on these files, and each officer
/// whose home is shut in.
pub fn hunt_moves(account: &Account, own: &Force, other: &Force, free: u8) -> u32 {
    let hunters = other.turned();
    let all = own.all() | hunters.all();
    let mut moves: u32 = 0;
    if account.pawns_lost > 0 {
        let squares = pawn_squares(free, own.all() | hunters.pawns);
        moves = nearest(&hunters, all, squares);
    }
    for slot in squares_of(u64::from(account.missing)) {
        let region = account.closed.regions[slot % 8];
        if region != 0 {
            moves = moves.saturating_add(nearest(&hunters, all, region & !own.all()));
        }
    }
    moves
}
