use crate::ascents::Target;
use crate::kept::BothFees;
use arrayvec::ArrayVec;
use board_base::Colour;
use sketch_costs::{Row, Rows, SideAccount, Terrain};

/// The accounts of both sides at some fees.
#[derive(Clone, Copy)]
pub(crate) struct BothAccounts {
    pub(crate) white: SideAccount,
    pub(crate) black: SideAccount,
    /// The sum of the gates.
    gates: i32,
}

/// What accounts were made of.
#[derive(Clone, Copy)]
pub(crate) struct Books<'a> {
    pub(crate) terrain: &'a Terrain,
    pub(crate) fees: &'a BothFees,
    pub(crate) rows: &'a Rows,
}

/// The numbers, counted from 1, of the figures that are so.
fn numbers_of(are_so: &[bool; 32]) -> ArrayVec<u8, 32> {
    let mut numbers = ArrayVec::new();
    for i in 0..32u8 {
        if are_so[i as usize] {
            let _ = numbers.try_push(i + 1);
        }
    }
    numbers
}

impl Books<'_> {
    /// What the men of a side cost; the assignment is found sooner from good numbers of columns.
    fn account(&self, side: Colour, target: Option<Target>, columns: [i32; 16]) -> SideAccount {
        SideAccount::new(
            self.terrain.of(side),
            self.fees.of(side),
            self.rows.of(side),
            row_on(target, side),
            columns,
        )
    }
}

/// The row of the target, if it is of this side.
pub(crate) fn row_on(target: Option<Target>, side: Colour) -> Option<usize> {
    match target {
        Some(target) if target.side == side => Some(target.row),
        _ => None,
    }
}

impl BothAccounts {
    /// The accounts with nobody forced.
    pub(crate) fn new(books: Books<'_>) -> BothAccounts {
        BothAccounts {
            white: books.account(Colour::White, None, [0; 16]),
            black: books.account(Colour::Black, None, [0; 16]),
            gates: books.fees.gates,
        }
    }

    /// The accounts with the target forced, at fees that differ a little from those of these accounts.
    pub(crate) fn next(&self, books: Books<'_>, target: Option<Target>) -> BothAccounts {
        BothAccounts {
            white: books.account(Colour::White, target, self.white.columns()),
            black: books.account(Colour::Black, target, self.black.columns()),
            gates: books.fees.gates,
        }
    }

    /// The account of a side.
    pub(crate) fn of(&self, side: Colour) -> &SideAccount {
        match side {
            Colour::White => &self.white,
            Colour::Black => &self.black,
        }
    }

    /// The account of a side with the target forced.
    fn side_forced(&self, books: Books<'_>, side: Colour, target: Option<Target>) -> SideAccount {
        let account = self.of(side);
        match row_on(target, side) {
            Some(row) => account.forced(
                books.terrain.of(side),
                books.fees.of(side),
                books.rows.of(side),
                row,
            ),
            None => *account,
        }
    }

    /// The accounts with the target forced, if nobody is in these.
    pub(crate) fn forced(&self, books: Books<'_>, target: Option<Target>) -> BothAccounts {
        BothAccounts {
            white: self.side_forced(books, Colour::White, target),
            black: self.side_forced(books, Colour::Black, target),
            gates: self.gates,
        }
    }

    /// By how much the figures cost more than all gates.
    pub(crate) fn above(&self) -> i32 {
        self.white
            .sum
            .wrapping_add(self.black.sum)
            .wrapping_sub(self.gates)
    }

    /// Adds the figures of a side whose marks are forced.
    fn add_forced(&self, books: Books<'_>, side: Colour, forced: &mut [bool; 32]) {
        let account = self.of(side);
        let rows: &[Row] = books.rows.of(side);
        let others = self.above().wrapping_sub(account.sum);
        for i in 0..16usize {
            if let Some(row) = rows.get(i) {
                let sum = account.sum_against(books.terrain.of(side), books.fees.of(side), rows, i);
                if !row.marked && others.wrapping_add(sum) > 0 {
                    forced[row.figure as usize % 32] = true;
                }
            }
        }
    }

    /// The numbers, counted from 1, of the figures whose marks are forced, if nobody is forced in these accounts.
    pub(crate) fn marks(&self, books: Books<'_>) -> ArrayVec<u8, 32> {
        let mut forced = [false; 32];
        self.add_forced(books, Colour::White, &mut forced);
        self.add_forced(books, Colour::Black, &mut forced);
        numbers_of(&forced)
    }
}
