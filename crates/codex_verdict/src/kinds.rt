ghost use Rattle.std.specs.Prelude.{◌≡◌};
ghost use Rattle.board_base.specs.declared.castles.Castle.TheVariants.{WhiteShort};
ghost use Rattle.codex_verdict.specs.Rights.{claim_of};
ghost use Rattle.codex_verdict.specs.declared.kinds.Right.TheVariants.{Castling};

use board_base::{Castle, Move};
use query_base::Claim;

/// A right that a position seems to give, seen from its board and its side to move alone.
#[derive(Clone, Copy, PartialEq, Eq, Debug)]
pub enum Right {
    /// The right to this castling (article 3.8.2).
    Castling(Castle),
    /// The right to this capture en passant (article 3.7.3).
    EnPassant(Move),
}

impl Default for Right {
    /// What stands in the unused places of an array of rights.
    fn default() -> Right
        ensures { result ≡ Castling WhiteShort }
    {
        Right::Castling(Castle::WhiteShort)
    }
}

/// The claim whose proof decides the right: that the castling is lost, or that the capture en passant is legal after each game.
pub fn claim_of(right: &Right) -> Claim
    ensures { result ≡ claim_of right.now }
{
    match right {
        Right::Castling(castle) => Claim::Lost(*castle),
        Right::EnPassant(m) => Claim::Ep(*m),
    }
}
