ghost use Rattle.std.specs.Prelude.{◌≡◌, ◌+◌, ◌<◌, ◌≤◌, ℕ, List, slice_index};
ghost use Rattle.assignment.specs.Assignments.{least_cost};
ghost use Rattle.ledger_pairings.specs.Rests.{AreRests, IsColumnChanged, IsRowChanged};

/// What the rows cost at least if this one costs so much in each column. The rests are theirs.
pub fn cost_with_row(
    rows: &[[u16; 16]; 16],
    rests: &[[u32; 16]; 16],
    i: usize,
    row: &[u16; 16],
) -> u32
    requires row { i < 16 }
    requires rests { AreRests rows.now rests.now }
    ensures { (changed : List (List ℕ)) → IsRowChanged i row.now rows.now changed → result ≡ least_cost 16 changed }
{
    let mut least = rests[i][0] + u32::from(row[0]);
    for c in 0..16 {
        least = least.min(rests[i][c] + u32::from(row[c]));
    }
    least
}

/// What the rows cost at least if each costs so much in this column.
pub fn cost_with_column(
    rows: &[[u16; 16]; 16],
    rests: &[[u32; 16]; 16],
    j: usize,
    column: &[u16; 16],
) -> u32
    requires column { j < 16 }
    requires rests { AreRests rows.now rests.now }
    ensures { (changed : List (List ℕ)) → IsColumnChanged j column.now rows.now changed → result ≡ least_cost 16 changed }
{
    let mut least = rests[0][j] + u32::from(column[0]);
    for r in 0..16 {
        least = least.min(rests[r][j] + u32::from(column[r]));
    }
    least
}
