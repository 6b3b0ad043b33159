ghost use Rattle.std.specs.Prelude.{◌≡◌, ◌<◌, ℕ, length, slice_index};
ghost use Rattle.assignment.specs.Assignments.{IsInjection};

use assignment::LargeSolution;

/// An assignment of sixteen rows to sixteen columns, with potentials. No clause rests on the potentials.
#[derive(Clone, Copy)]
pub(crate) struct Pairs {
    /// For each row its column.
    pub(crate) columns: [u8; 16],
    /// For each column its row.
    pub(crate) owners: [u8; 16],
    /// For each row its potential.
    pub(crate) dues: [u32; 16],
    /// For each column its potential with the sign turned.
    pub(crate) prices: [u32; 16],
}

/// How columns are given up until one that is free is taken.
#[derive(Clone, Copy)]
pub(crate) struct Exchanges {
    /// For each column, up to a number that is the same for all, what it costs at least that its row takes another one.
    pub(crate) prices: [u32; 16],
    /// Which one it takes then.
    pub(crate) next: [u8; 16],
}

/// The number of a row or a column.
pub(crate) fn index(number: u8) -> usize
    ensures { result < 16 }
{
    (number % 16) as usize
}

/// How far each column is from the free one, and which are done with.
#[derive(Clone, Copy)]
struct Search {
    distances: [u32; 16],
    next: [u8; 16],
    is_done: [bool; 16],
}

/// The column nearest to the free one that isn't done with.
fn nearest(search: &Search) -> usize
    ensures { result < 16 }
{
    let mut best = 0;
    let mut least = u32::MAX;
    for c in 0..16 {
        if !search.is_done[c] && search.distances[c] < least {
            least = search.distances[c];
            best = c;
        }
    }
    best
}

/// Lets the rows of the columns that aren't done with take this one.
fn relax(rows: &[[u16; 16]; 16], pairs: &Pairs, search: &mut Search, to: usize)
    requires { to < 16 }
{
    let beyond = search.distances[to];
    let price = pairs.prices[to];
    for c in 0..16 {
        if !search.is_done[c] {
            let row = index(pairs.owners[c]);
            let cost = price.saturating_add(u32::from(rows[row][to]));
            let distance = beyond.saturating_add(cost.saturating_sub(pairs.dues[row]));
            if distance < search.distances[c] {
                search.distances[c] = distance;
                search.next[c] = to as u8;
            }
        }
    }
}

/// The least of these numbers.
fn least_of(numbers: &[u32; 16]) -> u32 {
    let mut least = u32::MAX;
    for c in 0..16 {
        least = least.min(numbers[c]);
    }
    least
}

/// By how much each column's distance with its price is above the least one.
fn prices_by(distances: &[u32; 16], pairs: &Pairs) -> [u32; 16]
    ensures { length result ≡ 16 }
{
    let mut sums = *distances;
    for c in 0..16 {
        sums[c] = sums[c].saturating_add(pairs.prices[c]);
    }
    let least = least_of(&sums);
    let mut prices = [0; 16];
    for c in 0..16 {
        prices[c] = sums[c].saturating_sub(least);
    }
    prices
}

/// What it costs that columns are given up, if this one is free.
pub(crate) fn exchanges_from(rows: &[[u16; 16]; 16], pairs: &Pairs, free: usize) -> Exchanges
    requires { free < 16 }
    ensures { length result.prices ≡ 16 }
{
    let mut search = Search {
        distances: [u32::MAX; 16],
        next: [0; 16],
        is_done: [false; 16],
    };
    search.distances[free] = 0;
    for _ in 0..16 {
        let to = nearest(&search);
        search.is_done[to] = true;
        relax(rows, pairs, &mut search, to);
    }
    Exchanges {
        prices: prices_by(&search.distances, pairs),
        next: search.next,
    }
}

/// The assignment after a row took a column, its row the next one, and so on, up to the free one.
pub(crate) fn handed_on(pairs: &Pairs, next: &[u8; 16], row: usize, column: usize) -> [u8; 16]
    requires row { row < 16 }
    requires column { column < 16 }
    requires injection { IsInjection 16 16 pairs.now.columns }
    ensures { IsInjection 16 16 result }
{
    let mut columns = pairs.columns;
    let free = columns[row];
    let mut at = row;
    let mut taken = column as u8;
    for _ in 0..16 {
        if taken != free {
            let holder = index(pairs.owners[index(taken)]);
            columns.swap(at, holder);
            at = holder;
            taken = next[index(taken)];
        }
    }
    columns
}

/// The rows of columns.
fn owners_of(columns: &[u8; 16]) -> [u8; 16] {
    let mut owners = [0; 16];
    for r in 0..16 {
        owners[index(columns[r])] = r as u8;
    }
    owners
}

/// These sixteen numbers.
fn filled(numbers: &[u8]) -> [u8; 16]
    requires { length numbers.now ≡ 16 }
    ensures size { length result ≡ 16 }
    ensures same { (k : ℕ) → k < 16 → slice_index result k ≡ slice_index numbers.now k }
{
    let mut filled = [0; 16];
    for r in 0..16 {
        filled[r] = numbers[r];
    }
    filled
}

/// How far numbers are from 0.
fn sizes(numbers: &[i16]) -> [u32; 16] {
    let mut sizes = [0; 16];
    for r in 0..16 {
        if r < numbers.len() {
            sizes[r] = u32::from(numbers[r].unsigned_abs());
        }
    }
    sizes
}

/// A least assignment as pairs.
pub(crate) fn pairs_of(solution: &LargeSolution<16>) -> Pairs
    requires { IsInjection 16 16 solution.now.columns.items }
    ensures { IsInjection 16 16 result.columns }
{
    let columns = filled(solution.columns.as_slice());
    Pairs {
        columns,
        owners: owners_of(&columns),
        dues: sizes(solution.u.as_slice()),
        prices: sizes(&solution.v),
    }
}
