ghost use Rattle.std.specs.Prelude.{◌≡◌, slice_set};
ghost use Rattle.board_base.specs.Legal.{in_check};
ghost use Rattle.play_rules.specs.KingSets.{kings_on};

use crate::sets::marked;
use board_base::{Board, Colour, Kind, Man, Square, SquareSet, is_a, is_king_attacked};
use std::marker::Model;

/// A board, seen as such, that knows where its kings stand.
#[derive(Clone, Copy)]
pub struct KingBoard {
    board: Board,
    kings: SquareSet,
}

impl Model for KingBoard {
    ghost use Rattle.std.specs.Prelude.{◌≡◌};
    ghost use Rattle.board_base.specs.Board.{Places};
    ghost use Rattle.play_rules.specs.KingSets.{kings_on};

    ghost Value = { Places };

    ghost view = { λ b. b.board };

    ghost invariant = { λ b. kings_on b.board ≡ b.kings };

    ghost inverse = { λ places. record { board = places; kings = kings_on places } };

    ghost inverse_ok = { λ b same i. record { board = b.board; kings = same i } };
}

/// The squares where kings stand.
fn kings_on(board: &Board) -> SquareSet
    ensures { kings_on board.now ≡ result }
{
    board.is_whole();
    let mut kings = SquareSet::from_bits(0);
    for i in 0..64 {
        let s = Square::known(i);
        if is_a(Kind::King, board.at(s)) {
            kings = kings.with(s);
        }
    }
    kings
}

/// Some king of this side, among all kings on the board, is attacked.
#[tactic(auto, unfolding(board_base::specs::Legal::in_check))]
fn is_one_attacked(board: &Board, kings: SquareSet, side: Colour) -> bool
    requires { kings_on board.now ≡ kings }
    ensures { result ≡ in_check board.now side }
{
    let mut s = kings.next_from(0);
    while s < 64 {
        if is_king_attacked(board, side, Square::known(s)) {
            return true;
        }
        s = kings.next_from(s + 1);
    }
    false
}

impl KingBoard {
    /// This board, with its kings looked up.
    pub fn of(board: Board) -> KingBoard
        ensures { result ≡ board }
    {
        KingBoard {
            board,
            kings: kings_on(&board),
        }
    }

    /// The board alone.
    pub fn board(&self) -> &Board
        ensures { result.now ≡ self.now }
    {
        &self.board
    }

    /// Puts a man on this square, or empties it; whatever stood there is gone.
    pub fn put(&mut self, s: Square, man: Option<Man>)
        ensures { self.new ≡ slice_set self.old s man }
    {
        self.board.put(s, man);
        self.kings = marked(self.kings, s, is_a(Kind::King, man));
    }

    /// Whether some king of this side stands on a square that the other side attacks (article 3.9).
    pub fn in_check(&self, side: Colour) -> bool
        ensures { result ≡ in_check self.now side }
    {
        is_one_attacked(&self.board, self.kings, side)
    }
}
