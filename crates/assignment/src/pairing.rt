ghost use Rattle.std.specs.Prelude.{◌≡◌, ℕ, ◌+◌, ◌<◌, ◌≤◌, List, length, slice_index};
ghost use Rattle.assignment.specs.Pairings.{IsRaised};

/// The rows and the columns in places: the row in a place is paired with the column in the same place. Beside each row stands its
/// potential, and beside each column its price, which is the column's potential with the sign turned.
#[derive(Clone, Copy)]
pub(crate) struct Pairing<const W: usize> {
    pub(crate) rows: [u8; W],
    pub(crate) u: [u16; W],
    pub(crate) columns: [u8; W],
    pub(crate) prices: [u16; W],
}

/// Adds to the numbers at the places from `from` up to `to`.
pub(crate) fn raise<const W: usize>(numbers: &mut [u16; W], from: usize, to: usize, by: u16)
    requires order { from ≤ to }
    requires within { to ≤ W }
    requires small { (m : ℕ) → from ≤ m → m < to → slice_index numbers.old m + by < 65536 }
    ensures { IsRaised from to by numbers.old numbers.new }
{
    for i in from..to {
        numbers[i] += by;
    }
}

/// The numbers from 0 up, in order.
fn in_order<const W: usize>() -> [u8; W]
    requires { W ≤ 64 }
    ensures { (m : ℕ) → m < W → slice_index result m ≡ m }
{
    let mut numbers = [0; W];
    for i in 0..W {
        numbers[i] = i as u8;
    }
    numbers
}

impl<const W: usize> Pairing<W> {
    ghost use Rattle.assignment.specs.Pairings.{IsColumnSwap, IsPlaceSwap, IsMatched};

    /// Each row and each column in the place of its number, with potentials and prices of 0.
    pub(crate) fn new() -> Pairing<W>
        requires { W ≤ 64 }
        ensures { (table : List (List ℕ)) → IsMatched table W result 0 }
    {
        Pairing {
            rows: in_order(),
            u: [0; W],
            columns: in_order(),
            prices: [0; W],
        }
    }

    /// Lets the columns in two places change places, each with its price.
    pub(crate) fn swap_columns(&mut self, a: usize, b: usize)
        requires first { a < W }
        requires second { b < W }
        ensures { IsColumnSwap a b W self.old self.new }
    {
        self.columns.swap(a, b);
        self.prices.swap(a, b);
    }

    /// Lets what stands in two places change places.
    pub(crate) fn swap_places(&mut self, a: usize, b: usize)
        requires first { a < W }
        requires second { b < W }
        ensures { IsPlaceSwap a b W self.old self.new }
    {
        self.rows.swap(a, b);
        self.u.swap(a, b);
        self.swap_columns(a, b);
    }
}
