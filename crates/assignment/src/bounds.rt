ghost use Rattle.std.specs.Prelude.{◌≡◌, ℕ, ◌+◌, ◌<◌, ◌≤◌, ◌↔◌, IsTrue, SomeIff, List, length, slice_index, slice_index_or, pos, neg_ℤ, ◌+ℤ◌, ◌≤ℤ◌};
ghost use Rattle.std.specs.List.{All};
ghost use Rattle.assignment.specs.Tables.{IsTable, cost_at};
ghost use Rattle.assignment.specs.Assignments.{IsBounded, total};

/// Whether the potential of one row and that of each column have no sum above the cost.
fn row_is_bounded<const W: usize>(row: &[u8; W], u: i8, v: &[i8; W]) -> bool
    ensures { IsTrue result ↔ ((j : ℕ) → j < W → (u +ℤ slice_index_or v.now j (pos 0)) ≤ℤ pos (slice_index row.now j)) }
{
    for j in 0..W {
        if u as i16 + v[j] as i16 > row[j] as i16 {
            return false;
        }
    }
    true
}

/// Whether for each row and each column the potentials have no sum above the cost.
fn rows_are_bounded<const W: usize>(costs: &[[u8; W]], u: &[i8], v: &[i8; W]) -> bool
    requires { length u.now ≡ length costs.now }
    ensures { IsTrue result ↔ ((i j : ℕ) → i < length costs.now → j < W → (slice_index_or u.now i (pos 0) +ℤ slice_index_or v.now j (pos 0)) ≤ℤ pos (cost_at costs.now i j)) }
{
    for i in 0..costs.len() {
        if !row_is_bounded(&costs[i], u[i], v) {
            return false;
        }
    }
    true
}

fn none_above_zero(numbers: &[i8]) -> bool
    ensures { IsTrue result ↔ All (λ x. x ≤ℤ pos 0) numbers.now }
{
    numbers.iter().all(|&x| x <= 0)
}

fn total(numbers: &[i8]) -> i32
    requires { length numbers.now ≤ 64 }
    ensures value { result ≡ total numbers.now }
    ensures low { neg_ℤ (pos 8192) ≤ℤ result }
    ensures high { result ≤ℤ pos 8192 }
{
    let mut sum = 0;
    for x in numbers {
        sum += i32::from(*x);
    }
    sum
}

/// The sum of the potentials, if they bound the cost; None if and only if they don't.
pub fn bound<const W: usize>(costs: &[[u8; W]], u: &[i8], v: &[i8; W]) -> Option<i32>
    requires { IsTable costs.now W 64 }
    ensures { SomeIff result (IsBounded W costs.now u.now v.now) (total u.now +ℤ total v.now) }
{
    if u.len() == costs.len() && none_above_zero(v) && rows_are_bounded(costs, u, v) {
        Some(total(u) + total(v))
    } else {
        None
    }
}
