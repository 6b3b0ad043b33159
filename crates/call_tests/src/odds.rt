//! Games that begin from the array without some of its men.

use board_base::{Board, Castle, CastleSet, Colour, Odds, SquareSet, array_of};
use fen_text::read_four_fields;
use game_text::{IllegalAt, read_game, replay, replay_from};
use men_account::{Allowance, account_ok, allowance};
use play_rules::State;
use std::alloc::Global;

fn odds(bits: u64) -> Option<Odds> {
    Odds::new(SquareSet::from_bits(bits))
}

/// Men may be left out on a1, d8 and the pawns' homes, but not on e1, on e8, or where nobody begins.
#[test]
fn leaves_out_homes(rt: HostRuntime) {
    assert!(rt; odds(1 | 1 << 59 | 0xff << 8 | 0xff << 48).is_some());
    for square in [4, 60, 16, 23, 40, 47] {
        let refused = (odds(1 << square), odds(1 << square | 1));
        assert_eq!(rt; (square, refused), (square, (None, None)));
    }
    assert_eq!(rt;
        (odds(0), Odds::none().set().bits()),
        (Some(Odds::none()), 0)
    );
}

/// Whether the array at these odds is the board of a FEN.
fn is_array_at(bits: u64, fen: &str) -> Option<bool> {
    let query = read_four_fields(fen.as_bytes())?;
    let array = array_of(odds(bits)?);
    Some(array.is_same(&query.board))
}

/// Without the knight of b1 and the pawn of f7 the array has the other men.
#[test]
fn begins_without_men(rt: HostRuntime) {
    let fen = "rnbqkbnr/ppppp1pp/8/8/8/8/PPPPPPPP/R1BQKBNR w - -";
    assert_eq!(rt; is_array_at(1 << 1 | 1 << 53, fen), Some(true));
    assert!(rt; array_of(Odds::none()).is_same(&Board::array()));
}

/// The rights and the side to move where a game at these odds begins.
fn start_of(bits: u64) -> Option<(CastleSet, Colour)> {
    let start = State::start_of(odds(bits)?);
    Some((start.rights(), start.turn()))
}

/// Of a castling whose rook is left out there is no right, and of the others there is.
#[test]
fn keeps_the_other_rights(rt: HostRuntime) {
    for (castle, rook) in [
        (Castle::WhiteShort, 7),
        (Castle::WhiteLong, 0),
        (Castle::BlackShort, 63),
        (Castle::BlackLong, 56),
    ] {
        let want = (CastleSet::all().without(castle), Colour::White);
        assert_eq!(rt; (rook, start_of(1 << rook)), (rook, Some(want)));
    }
    let want = (CastleSet::all(), Colour::White);
    assert_eq!(rt; start_of(1 << 3 | 1 << 1 | 0xff << 8), Some(want));
}

/// Where a game breaks the rules, if anywhere: without odds, at odds of the queen's knight, and at odds of the queen's rook.
fn faults(alloc: Global, game: &str) -> Option<[Option<IllegalAt>; 3]> {
    if game.len() > 100 {
        return None;
    }
    let moves = read_game(alloc, game.as_bytes()).ok()?;
    Some([
        replay(&moves).err(),
        replay_from(odds(1 << 1)?, &moves).err(),
        replay_from(odds(1)?, &moves).err(),
    ])
}

/// At odds of the queen's knight he doesn't move, and the rook of a1 castles past his home at once.
#[test]
fn replays_at_odds(rt: HostRuntime) {
    let first = Some(IllegalAt { ply: 1 });
    assert_eq!(rt; faults(rt.alloc(), "b1c3"), Some([None, first, None]));
    let castled = "d2d4 d7d5 c1f4 c8f5 d1d3 d8d6 e1c1";
    let last = Some(IllegalAt { ply: 7 });
    assert_eq!(rt; faults(rt.alloc(), castled), Some([last, None, last]));
}

/// Whether the men of a side may all have begun at these odds, if eight white pawns are left and none stands on a2.
fn is_accounted(side: Colour, bits: u64) -> Option<bool> {
    let board = read_four_fields(b"4k3/8/8/8/8/1P6/1PPPPPPP/4K3 w - -")?.board;
    Some(account_ok(&board, side, odds(bits)?))
}

/// What White begins with at these odds.
fn began(bits: u64) -> Option<Allowance> {
    Some(allowance(Colour::White, odds(bits)?))
}

/// Seven white pawns stand at home, and one on b3 that began on a2, unless nobody did.
#[test]
fn counts_what_a_side_began_with(rt: HostRuntime) {
    for (side, bits, want) in [
        (Colour::White, 0, true),
        (Colour::White, 1 << 8, false),
        (Colour::Black, 1 << 8, true),
    ] {
        assert_eq!(rt;
            (side, bits, is_accounted(side, bits)),
            (side, bits, Some(want))
        );
    }
    let want = Allowance {
        pawns: 7,
        knights: 2,
        light_bishops: 1,
        dark_bishops: 0,
        rooks: 1,
        queens: 1,
    };
    assert_eq!(rt; began(1 << 8 | 1 << 2 | 1 << 7), Some(want));
}
