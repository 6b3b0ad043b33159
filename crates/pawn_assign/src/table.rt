ghost use Rattle.std.specs.Prelude.{◌≡◌, ◌+◌, ◌<◌, ◌≤◌, [], ◌∷◌, ◌++◌, length};
ghost use Rattle.std.specs.List.{All};
ghost use Rattle.assignment.specs.Tables.{IsTable, cost_at};

use std::marker::Model;

/// The costs of a side's pawns, seen as a list of rows of eight numbers: a row for each pawn, in ascending order of the pawns'
/// squares, with the cost from each file, from a to h.
#[derive(Drop)]
pub struct Costs {
    table: [[u8; 8]; 8],
    count: u8,
}

impl Model for Costs {
    ghost use Rattle.std.specs.Prelude.{List, ℕ};

    ghost Value = { List (List ℕ) };

    ghost use Rattle.pawn_assign.specs.Rows.{rows_seen, IsStored};

    ghost view = { rows_seen };

    ghost invariant = { IsStored };
}

impl Costs {
    /// No row.
    pub(crate) fn new() -> Costs
        ensures { result ≡ [] }
    {
        Costs {
            table: [[0; 8]; 8],
            count: 0,
        }
    }

    /// Adds a row at the end.
    pub(crate) fn push(&mut self, row: [u8; 8])
        requires room { length self.old < 8 }
        requires small { All (λ cost. cost ≤ 64) row }
        ensures { self.new ≡ self.old ++ row ∷ [] }
    {
        self.table[self.count as usize] = row;
        self.count += 1;
    }

    /// How many pawns there are.
    pub fn rows(&self) -> u8
        ensures value { result ≡ length self.now }
        ensures table { IsTable self.now 8 64 }
    {
        self.count
    }

    /// What the pawn of this row costs from this file, both counted from 0.
    pub fn cost(&self, row: u8, file: u8) -> u8
        requires row { row < length self.now }
        requires file { file < 8 }
        ensures value { result ≡ cost_at self.now row file }
        ensures small { result ≤ 64 }
    {
        self.table[row as usize][file as usize]
    }

    /// The rows.
    pub(crate) fn table(&self) -> &[[u8; 8]]
        ensures value { result.now ≡ self.now }
        ensures table { IsTable self.now 8 64 }
    {
        &self.table[..self.count as usize]
    }
}
