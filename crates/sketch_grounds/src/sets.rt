ghost use Rattle.std.specs.Prelude.{◌≡◌};
ghost use Rattle.board_base.specs.Squares.{squares_of};
ghost use Rattle.cage_rules.specs.SetSteps.{both, outside};

use board_base::SquareSet;

/// The set of no square.
pub(crate) fn none() -> SquareSet
    ensures { result ≡ squares_of 0 }
{
    SquareSet::from_bits(0)
}

/// The squares of both sets.
#[tactic(auto, unfolding(cage_rules::specs::SetSteps::both))]
pub(crate) fn both(a: SquareSet, b: SquareSet) -> SquareSet
    ensures { result ≡ both a b }
{
    figures::both(a, b)
}

/// The squares that are not in the set.
#[tactic(auto, unfolding(cage_rules::specs::SetSteps::outside))]
pub(crate) fn outside(set: SquareSet) -> SquareSet
    ensures { result ≡ outside set }
{
    figures::outside(set)
}
