ghost use Rattle.std.specs.Prelude.{◌≡◌, ℕ, ◌+◌, ◌<◌, ◌≤◌, List, slice_index};
ghost use Rattle.assignment.specs.Pairings.{IsHanding, IsMatched};

use crate::pairing::Pairing;

/// Gives the free column in place `to` to the row in place `from`, the column that this row had to the row of its parent, and so on,
/// until the row in place 0 has a column.
pub(crate) fn hand_on<const W: usize>(p: &mut Pairing<W>, parents: &[u8; W], from: usize, to: usize)
    requires from { from < W }
    requires to { to < W }
    requires earlier { (m : ℕ) → 1 ≤ m → m ≤ from → slice_index parents.now m < m }
    ensures { (table : List (List ℕ)) (n : ℕ) → IsHanding table W p.old n from to parents.now → IsMatched table W p.new (n + 1) }
{
    let mut m = from;
    while m > 0 {
        p.swap_columns(m, to);
        m = parents[m] as usize;
    }
    p.swap_columns(0, to);
}
