ghost use Rattle.std.specs.Prelude.{◌≡◌, ℕ, ◌≤◌, List, length, pos, ◌+ℤ◌, ◌≤ℤ◌, SomeIff, IfSome};
ghost use Rattle.assignment.specs.Assignments.{IsBounded, IsInjection, assignment_cost, least_cost, total};

use crate::answers::Least;
use crate::table::Costs;
use assignment::solve;
use board_base::Potentials;

/// The least sum of costs, with each pawn on a file of its own, and potentials that show that no sum is less.
pub fn least(c: &Costs) -> Least
    ensures injection { IsInjection 8 (length c.now) result.files.items }
    ensures cost { result.cost ≡ assignment_cost c.now result.files.items }
    ensures none_less { (files : List ℕ) → IsInjection 8 (length c.now) files → result.cost ≤ assignment_cost c.now files }
    ensures least { result.cost ≡ least_cost 8 c.now }
    ensures bounded { IsBounded 8 c.now result.potentials.u result.potentials.v }
    ensures reached { (total result.potentials.u +ℤ total result.potentials.v) ≡ pos result.cost }
{
    let solution = solve(c.table());
    Least {
        cost: solution.cost,
        potentials: Potentials::known(solution.u.as_slice(), &solution.v),
        files: solution.columns,
    }
}

/// The sum of the potentials, if they bound the costs of these pawns; None if and only if they don't. No way in which the pawns
/// can have begun costs less than that sum.
pub fn bound(c: &Costs, p: &Potentials) -> Option<i32>
    ensures bound { SomeIff result (IsBounded 8 c.now p.now.u p.now.v) (total p.now.u +ℤ total p.now.v) }
    ensures none_less { IfSome result (λ sum. (files : List ℕ) → IsInjection 8 (length c.now) files → sum ≤ℤ pos (assignment_cost c.now files)) }
{
    assignment::bound(c.table(), p.u(), p.v())
}
