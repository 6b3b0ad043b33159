ghost use Rattle.std.specs.Prelude.{◌≡◌, ◌==◌, ◌&&◌};
ghost use Rattle.board_base.specs.Attacks.{distance};
ghost use Rattle.board_base.specs.Legal.{last_rank};
ghost use Rattle.sketch_walk.specs.Goings.{goes_as, is_passing_rank, may_go};

use crate::listed::Listed;
use board_base::{Colour, Square, files_between, last_rank};
use figures::Figure;
use sketch_list::Victim;

/// Whether pawns of this colour take en passant from the square's rank, three short of the last.
#[tactic(auto, unfolding(board_base::specs::Attacks::distance))]
fn is_passing_rank(colour: Colour, from: Square) -> bool
    ensures { result ≡ is_passing_rank colour from }
{
    from.rank().abs_diff(last_rank(colour)) == 3
}

/// Whether a pawn of this colour goes so to take such a man, or to be promoted.
fn goes_as(colour: Colour, from: Square, to: Square, victim: Victim) -> bool
    ensures { result ≡ goes_as colour from to victim }
{
    let aside = files_between(from, to) == 1;
    match victim {
        Victim::Nobody => (from.file() == to.file()) & (to.rank() == last_rank(colour)),
        Victim::TakenPawn | Victim::TakenBishop | Victim::TakenOther => aside,
        Victim::PassedPawn => aside & is_passing_rank(colour, from),
    }
}

/// Whether the figure may have gone as the step says, whatever else stands on the board. He may if the file is exact.
pub(crate) fn may_go(exact: &[bool; 8], figure: &Figure, step: &Listed) -> bool
    ensures { result ≡ may_go exact.now figure.now step.now }
{
    if exact[step.from.file() as usize] {
        return true;
    }
    if figure.marked {
        return false;
    }
    goes_as(figure.colour, step.from, step.to, step.victim)
}
