ghost use Rattle.std.specs.Prelude.{◌≡◌};
ghost use Rattle.board_base.specs.Legal.{last_rank, pawn_rank};

use crate::men::Colour;

/// The rank on which pawns of this colour begin (article 2.3), counted from 0: 1 for White, 6 for Black.
pub fn pawn_rank(colour: Colour) -> u8
    ensures { result ≡ pawn_rank colour }
{
    match colour {
        Colour::White => 1,
        Colour::Black => 6,
    }
}

/// The rank on which pawns of this colour are promoted (article 3.7.3.3), counted from 0: 7 for White, 0 for Black.
pub fn last_rank(colour: Colour) -> u8
    ensures { result ≡ last_rank colour }
{
    match colour {
        Colour::White => 7,
        Colour::Black => 0,
    }
}
