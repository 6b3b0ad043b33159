ghost use Rattle.std.specs.Prelude.{◌≡◌, ℕ, ◌+◌, ◌<◌, ◌≤◌, List, length, slice_index, slice_index_or, map, pos, neg_ℤ};
ghost use Rattle.std.specs.List.{All};
ghost use Rattle.arrayvec.specs.ArrayVec.{array_vec_len};
ghost use Rattle.assignment.specs.Pairings.{ArePlaces};

use arrayvec::ArrayVec;

/// The first place of this number.
fn place_of<const W: usize>(numbers: &[u8; W], number: u8) -> usize
    requires { (m : ℕ) × (m < W) × (slice_index numbers.now m ≡ number) }
    ensures within { result < W }
    ensures is { slice_index numbers.now result ≡ number }
{
    for m in 0..W {
        if numbers[m] == number {
            return m;
        }
    }
    unreachable!()
}

/// For each number below the count, a place where it is.
pub(crate) fn places_of<const W: usize>(numbers: &[u8; W], count: usize) -> ArrayVec<u8, W>
    requires count { count ≤ W }
    requires few { W ≤ 64 }
    requires reached { (i : ℕ) → i < W → (m : ℕ) × (m < W) × (slice_index numbers.now m ≡ i) }
    ensures { ArePlaces W count numbers.now result.items }
{
    let mut places = ArrayVec::new();
    for i in 0..count {
        places.push(place_of(numbers, i as u8) as u8);
    }
    places
}

/// The numbers in these places.
pub(crate) fn read_off<const W: usize>(
    numbers: &[u8; W],
    places: &ArrayVec<u8, W>,
) -> ArrayVec<u8, W>
    requires { All (λ m. m < W) places.now.items }
    ensures { result.items ≡ map (slice_index numbers.now) places.now.items }
{
    let mut read = ArrayVec::new();
    for m in places.as_slice() {
        read.push(numbers[*m as usize]);
    }
    read
}

/// The numbers in these places, as signed ones.
pub(crate) fn signed<const W: usize>(
    numbers: &[u16; W],
    places: &ArrayVec<u8, W>,
) -> ArrayVec<i16, W>
    requires within { All (λ m. m < W) places.now.items }
    requires small { (m : ℕ) → m < W → slice_index numbers.now m ≤ 32767 }
    ensures { result.items ≡ map pos (map (slice_index numbers.now) places.now.items) }
{
    let mut signed = ArrayVec::new();
    for m in places.as_slice() {
        signed.push(numbers[*m as usize] as i16);
    }
    signed
}

/// The numbers in these places, with the sign turned.
pub(crate) fn turned<const W: usize>(numbers: &[u16; W], places: &ArrayVec<u8, W>) -> [i16; W]
    requires size { array_vec_len places.now ≡ W }
    requires within { All (λ m. m < W) places.now.items }
    requires small { (m : ℕ) → m < W → slice_index numbers.now m ≤ 32767 }
    ensures size { length result ≡ W }
    ensures turned { (j : ℕ) → j < W → slice_index_or result j (pos 0) ≡ neg_ℤ (pos (slice_index numbers.now (slice_index places.now.items j))) }
{
    let mut turned = [0; W];
    let places = places.as_slice();
    for j in 0..W {
        turned[j] = -(numbers[places[j] as usize] as i16);
    }
    turned
}
