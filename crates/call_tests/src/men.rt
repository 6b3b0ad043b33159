//! What is said of the men of a side, of the homes of a castling, and of double steps.

use board_base::{Board, Castle, CastleSet, Colour, Move, Odds, Square, Unmove};
use castle_history::{castle_of, held_fits, home, touches};
use ep_history::double_of;
use men_account::{Allowance, Counts, account_ok, counts, excess};
use play_rules::{has_no_pawn_on_ends, has_one_king_each, in_check};

fn step(from: Square, to: Square) -> Move {
    Move {
        from,
        to,
        promo: None,
    }
}

/// Each side begins with the men of article 2.2, and no pawn can have been promoted yet.
#[test]
fn counts_men(rt: HostRuntime) {
    let array = Board::array();
    let men = counts(&array, Colour::White);
    let want = Counts {
        pawns: 8,
        knights: 2,
        light_bishops: 1,
        dark_bishops: 1,
        rooks: 2,
        queens: 1,
        kings: 1,
    };
    assert_eq!(rt; men, want);
    assert_eq!(rt; excess(&men, &Allowance::full()), 8);
    assert!(rt; account_ok(&array, Colour::Black, Odds::none()));
}

/// The initial array keeps the laws of boards.
#[test]
fn tests_boards(rt: HostRuntime) {
    let array = Board::array();
    assert!(rt; has_one_king_each(&array));
    assert!(rt; !has_one_king_each(&Board::empty()));
    assert!(rt; has_no_pawn_on_ends(&array));
    assert!(rt; !in_check(&array, Colour::White));
}

/// The castling that a king's step from e1 to g1 was, on a board where he stands on g1, and on one where nobody stands.
fn castlings() -> (Option<Castle>, Option<Castle>) {
    let short = Unmove {
        mv: step(Square::known(4), Square::known(6)),
        captured: None,
        ep: false,
    };
    let mut castled = Board::empty();
    castled.put(Square::known(6), Board::array().at(Square::known(4)));
    (
        castle_of(&short, &castled),
        castle_of(&short, &Board::empty()),
    )
}

/// White's king and rook stand on e1 and h1, and a short castling goes to g1.
#[test]
fn tells_castlings(rt: HostRuntime) {
    let (king, rook) = home(Castle::WhiteShort);
    assert_eq!(rt; (king.index(), rook.index()), (4, 7));
    assert!(rt; held_fits(&Board::array(), CastleSet::all()));
    assert!(rt; !held_fits(&Board::empty(), CastleSet::all()));
    assert!(rt; touches(&step(Square::known(4), Square::known(6)), Castle::WhiteLong));
    assert_eq!(rt; castlings(), (Some(Castle::WhiteShort), None));
}

/// The double steps that White's e5d6 and e4d5 answer.
fn double_steps() -> (Option<Move>, Option<Move>) {
    let capture = step(Square::known(36), Square::known(43));
    let other = step(Square::known(28), Square::known(35));
    (
        double_of(&capture, Colour::White),
        double_of(&other, Colour::White),
    )
}

/// e5d6 by White answers d7d5, and e4d5 answers no double step.
#[test]
fn tells_double_steps(rt: HostRuntime) {
    let d7d5 = step(Square::known(51), Square::known(35));
    assert_eq!(rt; double_steps(), (Some(d7d5), None));
}
