/// What each row costs in each column.
pub(crate) type Costs = [[i32; 16]; 16];

/// No row, or no column.
const NONE: usize = 16;

/// Rows in columns of their own at the least cost, with what shows that it is the least: no row costs less than its number and its
/// column's together.
#[derive(Clone, Copy)]
pub(crate) struct Assigned {
    rows: [i32; 16],
    pub(crate) columns: [i32; 16],
    /// The row in each column.
    row_of: [usize; 16],
}

/// A column, and what a row costs there beyond the column's number.
#[derive(Clone, Copy)]
struct Place {
    column: usize,
    least: i32,
}

/// The way by which columns change rows so that one more row finds place.
#[derive(Clone, Copy)]
struct Path {
    least: [i32; 16],
    /// The column before each on the way to it.
    before: [usize; 16],
    used: [bool; 16],
    /// The free column at its end.
    end: usize,
    length: i32,
}

/// Takes the next column of those that aren't used, the nearest one, and a free one before another.
fn nearest(path: &Path, row_of: &[usize; 16]) -> usize {
    let mut best = NONE;
    let mut least = i32::MAX;
    for j in 0..16usize {
        let is_nearer = path.least[j] < least;
        let is_freer = path.least[j] == least && row_of[j] == NONE;
        if !path.used[j] && (is_nearer || is_freer) {
            best = j;
            least = path.least[j];
        }
    }
    best
}

impl Assigned {
    /// No row has a column.
    fn new(columns: [i32; 16]) -> Assigned {
        Assigned {
            rows: [0; 16],
            columns,
            row_of: [NONE; 16],
        }
    }

    /// The way from a row to the nearest free column.
    fn path_from(&self, costs: &Costs, row: usize) -> Path {
        let mut path = Path {
            least: [i32::MAX; 16],
            before: [NONE; 16],
            used: [false; 16],
            end: NONE,
            length: 0,
        };
        let mut at = row;
        let mut before = NONE;
        for _ in 0..17 {
            let base = path.length.wrapping_sub(self.rows[at % 16]);
            let cost = &costs[at % 16];
            for j in 0..16usize {
                let reached = base.wrapping_add(cost[j]).wrapping_sub(self.columns[j]);
                if !path.used[j] && reached < path.least[j] {
                    path.least[j] = reached;
                    path.before[j] = before;
                }
            }
            let next = nearest(&path, &self.row_of);
            if next == NONE {
                return path;
            }
            path.length = path.least[next % 16];
            if self.row_of[next % 16] == NONE {
                path.end = next;
                return path;
            }
            path.used[next % 16] = true;
            before = next;
            at = self.row_of[next % 16];
        }
        path
    }

    /// Raises the numbers of rows and columns along a way.
    fn raise(&mut self, path: &Path, row: usize) {
        self.rows[row % 16] = self.rows[row % 16].wrapping_add(path.length);
        for j in 0..16usize {
            if path.used[j] {
                let by = path.length.wrapping_sub(path.least[j]);
                let other = self.row_of[j] % 16;
                self.rows[other] = self.rows[other].wrapping_add(by);
                self.columns[j] = self.columns[j].wrapping_sub(by);
            }
        }
    }

    /// The column in which a row costs the least, a free one before another.
    fn cheapest(&self, cost: &[i32; 16]) -> Place {
        let mut best = Place {
            column: 0,
            least: i32::MAX,
        };
        for j in 0..16usize {
            let reached = cost[j].wrapping_sub(self.columns[j]);
            let is_freer = reached == best.least && self.row_of[j] == NONE;
            if reached < best.least || is_freer {
                best = Place {
                    column: j,
                    least: reached,
                };
            }
        }
        best
    }

    /// Gives a row a column: the cheapest one if that is free.
    fn insert(&mut self, costs: &Costs, row: usize) {
        let place = self.cheapest(&costs[row % 16]);
        if self.row_of[place.column % 16] == NONE {
            self.rows[row % 16] = place.least;
            self.row_of[place.column % 16] = row;
        } else {
            self.make_room(costs, row);
        }
    }

    /// Gives a row a column, and others other ones if need be.
    fn make_room(&mut self, costs: &Costs, row: usize) {
        self.rows[row % 16] = 0;
        let path = self.path_from(costs, row);
        self.raise(&path, row);
        let mut at = path.end;
        for _ in 0..17 {
            if at >= NONE {
                return;
            }
            let before = path.before[at % 16];
            if before >= NONE {
                self.row_of[at % 16] = row;
                return;
            }
            self.row_of[at % 16] = self.row_of[before % 16];
            at = before;
        }
    }

    /// The row in a column.
    pub(crate) fn row_in(&self, column: usize) -> usize {
        self.row_of[column % 16]
    }

    /// What the rows cost in their columns.
    pub(crate) fn sum(&self, costs: &Costs) -> i32 {
        let mut sum = 0i32;
        for j in 0..16usize {
            sum = sum.wrapping_add(costs[self.row_of[j] % 16][j]);
        }
        sum
    }

    /// Gives a row a column anew whose costs have changed to these.
    pub(crate) fn moved(&self, costs: &Costs, row: usize) -> Assigned {
        let mut other = *self;
        for j in 0..16usize {
            if other.row_of[j] == row {
                other.row_of[j] = NONE;
            }
        }
        other.insert(costs, row);
        other
    }
}

/// All rows in columns of their own at the least cost; it is found sooner from good numbers of columns.
pub(crate) fn assign(costs: &Costs, columns: [i32; 16]) -> Assigned {
    let mut assigned = Assigned::new(columns);
    for row in 0..16usize {
        assigned.insert(costs, row);
    }
    assigned
}
