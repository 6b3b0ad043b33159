ghost use Rattle.std.specs.Prelude.{◌<◌};

use crate::costs::CostRow;
use board_base::Colour;

/// More than any slack with its places.
const TAKEN: i32 = 0x2000_0000;

/// Rows and columns in places: the row in a place is paired with the column in the same place. Rows are men, and columns are the homes
/// of their side by their numbers. Potentials, prices and costs are told 256 times.
#[derive(Drop)]
struct Pairing {
    rows: [u8; 16],
    columns: [u8; 16],
    /// The place of each column.
    places: [i32; 16],
    /// The potential of each row.
    potentials: [i32; 16],
    /// The potential of each column, with the sign turned.
    prices: [i32; 16],
}

/// For each column the least slack of the rows of the tree, as it would be had their potentials not risen, 256 times. Below it stand the
/// place of that row, 16 times, and the place of the column: so of equal slacks the least is that of the first row, and then that of
/// the first column.
#[derive(Drop)]
struct Slacks {
    each: [i32; 16],
    /// The price of each column and its place, and `TAKEN` besides for those of the tree.
    base: [i32; 16],
}

/// A free column and the way to it: the row in place `from` meets the column in place `to`, and each place of the tree was reached
/// from its parent.
#[derive(Drop)]
struct Path {
    parents: [usize; 16],
    from: usize,
    to: usize,
}

impl Slacks {
    /// No row is in the tree.
    fn none(pairing: &Pairing) -> Slacks {
        let mut base = [0; 16];
        for c in 0..16 {
            base[c] = pairing.prices[c].wrapping_add(pairing.places[c]);
        }
        Slacks {
            each: [TAKEN; 16],
            base,
        }
    }

    /// Adds a row to the tree, whose slacks are its costs and so much beside the columns' own, and tells the least of all.
    fn add_row(&mut self, row: &[i32; 16], beside: i32) -> i32 {
        let mut least = TAKEN;
        for c in 0..16 {
            let slack = row[c].wrapping_add(self.base[c]).wrapping_add(beside);
            let here = self.each[c].min(slack);
            self.each[c] = here;
            least = least.min(here);
        }
        least
    }

    /// Takes a column into the tree.
    fn take(&mut self, column: usize) {
        self.base[column % 16] = self.base[column % 16].wrapping_add(TAKEN);
        self.each[column % 16] = TAKEN;
    }

    /// Notes that a column has moved so many places up.
    fn moved(&mut self, column: usize, by: i32) {
        self.base[column % 16] = self.base[column % 16].wrapping_add(by);
        self.each[column % 16] = self.each[column % 16].wrapping_add(by);
    }
}

impl Pairing {
    /// Each row in the place of its number, and each column in the order of the squares.
    fn new(side: Colour) -> Pairing {
        let mut pairing = Pairing {
            rows: [0; 16],
            columns: [0; 16],
            places: [0; 16],
            potentials: [0; 16],
            prices: [0; 16],
        };
        for m in 0..16u8 {
            let place = m as usize;
            let column = match side {
                Colour::White => m,
                Colour::Black => 15 - m,
            };
            pairing.rows[place] = m;
            pairing.columns[place] = column;
            pairing.places[place] = i32::from(column);
        }
        pairing
    }

    /// The row in a place.
    fn row_in(&self, place: usize) -> usize
        ensures { result < 16 }
    {
        self.rows[place % 16] as usize % 16
    }

    /// The column in a place.
    fn column_in(&self, place: usize) -> usize
        ensures { result < 16 }
    {
        self.columns[place % 16] as usize % 16
    }

    /// Lets the columns in two places change places.
    fn swap_columns(&mut self, a: usize, b: usize) {
        self.columns.swap(a % 16, b % 16);
        let first = self.column_in(a);
        let second = self.column_in(b);
        self.places[first] = (a % 16) as i32;
        self.places[second] = (b % 16) as i32;
    }

    /// Lets what stands in two places change places.
    fn swap_places(&mut self, a: usize, b: usize) {
        self.rows.swap(a % 16, b % 16);
        self.swap_columns(a, b);
    }

    /// Lets the potentials of the first rows rise, and the prices of their columns but for that in the first place: each by how much further
    /// the tree has come since it joined.
    fn raise(&mut self, count: usize, joined: &[i32; 16], reached: i32) {
        for m in 0..count.min(16) {
            let by = reached.wrapping_sub(joined[m]);
            let row = self.row_in(m);
            self.potentials[row] = self.potentials[row].wrapping_add(by);
            let column = self.column_in(m);
            if m > 0 {
                self.prices[column] = self.prices[column].wrapping_add(by);
            }
        }
    }

    /// Puts row `n` in place 0 and lets a tree grow from there until it meets a free column.
    fn grow(&mut self, rows: &[[i32; 16]; 16], n: usize) -> Path {
        self.swap_places(0, n);
        let mut parents = [0; 16];
        let mut joined = [0; 16];
        let mut slacks = Slacks::none(self);
        let first = self.row_in(0);
        let beside = 0i32.wrapping_sub(self.potentials[first]);
        let mut least = slacks.add_row(&rows[first], beside);
        for k in 1..17 {
            let places = least.unsigned_abs() % 256;
            let reached = least.wrapping_sub(places as i32);
            let from = (places / 16) as usize;
            let to = (places % 16) as usize;
            if to == 0 || n < to {
                self.raise(k, &joined, reached);
                return Path { parents, from, to };
            }
            slacks.moved(self.column_in(k), (to as i32).wrapping_sub(k as i32));
            slacks.take(self.column_in(to));
            self.swap_places(k, to);
            parents[k % 16] = from;
            joined[k % 16] = reached;
            let row = self.row_in(k);
            let beside = reached.wrapping_sub(self.potentials[row]);
            least = slacks.add_row(&rows[row], beside.wrapping_add(16 * k as i32));
        }
        Path {
            parents,
            from: 15,
            to: 0,
        }
    }

    /// Gives the free column at the end of the path to the row that met it, the column that this row had to the row of its parent, and so
    /// on, until the row in place 0 has a column.
    fn hand_on(&mut self, path: &Path) {
        let mut m = path.from;
        for _ in 0..16 {
            self.swap_columns(m, path.to);
            if m == 0 {
                return;
            }
            m = path.parents[m % 16];
        }
    }
}

/// These costs, 256 times.
fn scaled(rows: &[CostRow; 16]) -> [[i32; 16]; 16] {
    let mut all = [[0; 16]; 16];
    for i in 0..16 {
        for c in 0..16 {
            all[i][c] = i32::from(rows[i][c]).wrapping_mul(256);
        }
    }
    all
}

/// The homes of the men at the least cost, by their numbers, for as many rows as there are. Of equal ones it finds those that
/// `solve_large` finds.
pub(crate) fn least_homes(rows: &[CostRow; 16], count: usize, side: Colour) -> [u8; 16] {
    let rows = scaled(rows);
    let mut pairing = Pairing::new(side);
    for n in 0..count.min(16) {
        let path = pairing.grow(&rows, n);
        pairing.hand_on(&path);
    }
    let mut homes = [0; 16];
    for m in 0..16 {
        homes[pairing.row_in(m)] = pairing.column_in(m) as u8;
    }
    homes
}
