ghost use Rattle.std.specs.Prelude.{◌≡◌, ◌<◌, ◌≤◌, ℕ, List, IfSome, false, length, slice_index_or, IsTrue, ◌+◌};
ghost use Rattle.assignment.specs.Assignments.{IsInjection, assignment_cost};

use pawn_assign::{Costs, least};

/// The file that costs the pawn of this row the least of those that aren't taken; None if each costs 64.
fn nearest_free(costs: &Costs, row: u8, taken: &[bool; 8]) -> Option<u8>
    requires { row < length costs.now }
    ensures { IfSome result (λ file. (file < 8) × (slice_index_or taken.now file false ≡ false)) }
{
    let mut best = None;
    let mut least = 64;
    for file in 0..8 {
        let cost = costs.cost(row, file);
        if cost < least && !taken[file as usize] {
            best = Some(file);
            least = cost;
        }
    }
    best
}

/// What the pawns cost if one after another is given the nearest file that is free; None if some pawn finds none.
fn greedy_cost(costs: &Costs) -> Option<u16>
    ensures { IfSome result (λ cost. (files : List ℕ) × IsInjection 8 (length costs.now) files × (cost ≡ assignment_cost costs.now files)) }
{
    let mut taken = [false; 8];
    let mut cost = 0;
    for row in 0..costs.rows() {
        let file = nearest_free(costs, row, &taken)?;
        taken[file as usize] = true;
        cost += u16::from(costs.cost(row, file));
    }
    Some(cost)
}

/// What the pawns cost with some files of their own: the first that are tried, if they cost no more than this, else those that cost
/// the least.
pub(crate) fn low_cost(costs: &Costs, enough: u16) -> u16
    ensures { (files : List ℕ) × IsInjection 8 (length costs.now) files × (result ≡ assignment_cost costs.now files) }
{
    match greedy_cost(costs) {
        Some(cost) if cost <= enough => cost,
        _ => least(costs).cost,
    }
}

/// Whether the pawns cost so little with some files of their own, the first that are tried, that so many men are enough beside the others.
pub(crate) fn are_cheap(costs: &Costs, others: u16, men: u16) -> bool
    ensures { IsTrue result → (files : List ℕ) × IsInjection 8 (length costs.now) files × (assignment_cost costs.now files + others ≤ men) }
{
    match greedy_cost(costs) {
        Some(cost) => cost as u32 + others as u32 <= men as u32,
        None => false,
    }
}
