use board_base::{Castle, CastleSet, Colour, Kind};
use figures::{Figure, Sketch};

/// A number for the figures of a sketch, in whatever order: sketches with other figures have another one, but for a chance.
#[derive(Clone, Copy, PartialEq, Eq, Hash)]
pub struct Fingerprint {
    digits: [Digit; 16],
}

/// A digit of a fingerprint, which is hashed by itself.
#[derive(Clone, Copy, PartialEq, Eq, Hash)]
struct Digit {
    value: u8,
}

/// Spreads what differs in a number over all of its bits.
fn stirred(number: u64) -> u64 {
    let once = (number ^ number >> 30).wrapping_mul(0xbf58_476d_1ce4_e5b9);
    let twice = (once ^ once >> 27).wrapping_mul(0x94d0_49bb_1331_11eb);
    twice ^ twice >> 31
}

/// The file of a pawn, by its lowest square.
fn file_of(figure: &Figure) -> u32 {
    figure.squares.bits().trailing_zeros() % 8
}

/// Whether the other figure is a pawn of the figure's file with a lower place.
fn is_lower(figure: &Figure, other: &Figure) -> bool {
    other.place < figure.place && other.may_be(Kind::Pawn) && file_of(other) == file_of(figure)
}

/// How many pawns of the figure's file have a lower place, if he is a pawn. No more of a place is said: men who stand elsewhere have places
/// that depend on the steps by which the sketch came.
fn place_on_file(sketch: &Sketch, figure: &Figure) -> u64 {
    if !figure.may_be(Kind::Pawn) {
        return 0;
    }
    let mut place = 0u64;
    for other in sketch.figures() {
        if is_lower(figure, other) {
            place = place.wrapping_add(1);
        }
    }
    place
}

/// A number for the figure but for its squares.
fn tag_of(sketch: &Sketch, figure: &Figure) -> u64 {
    let mut tag = place_on_file(sketch, figure) << 8;
    if figure.colour == Colour::White {
        tag |= 1;
    }
    if figure.marked {
        tag |= 2;
    }
    let kinds = [
        Kind::Pawn,
        Kind::Knight,
        Kind::Bishop,
        Kind::Rook,
        Kind::Queen,
        Kind::King,
    ];
    for k in 0..6usize {
        if figure.may_be(kinds[k]) {
            tag |= 4 << k;
        }
    }
    tag
}

/// A fingerprint from two numbers.
fn digits_of(first: u64, second: u64) -> Fingerprint {
    let mut digits = [Digit { value: 0 }; 16];
    for k in 0..8usize {
        digits[k].value = (first >> (8 * k) & 255) as u8;
        digits[8 + k].value = (second >> (8 * k) & 255) as u8;
    }
    Fingerprint { digits }
}

/// The fingerprint of a sketch, counted from this number.
fn fingerprint_from(sketch: &Sketch, start: u64) -> Fingerprint {
    let mut first = start;
    let mut second = stirred(start);
    for figure in sketch.figures() {
        let number = stirred(figure.squares.bits()).wrapping_add(tag_of(sketch, figure));
        let once = stirred(number);
        first = first.wrapping_add(once);
        second = second.wrapping_add(stirred(once ^ 0x9e37_79b9_7f4a_7c15));
    }
    digits_of(first, second)
}

/// The fingerprint of a sketch.
pub(crate) fn fingerprint_of(sketch: &Sketch) -> Fingerprint {
    fingerprint_from(sketch, 0)
}

/// The fingerprint of a sketch with these held rights: another one if they are others, but for a chance.
pub fn fingerprint_beside(sketch: &Sketch, held: CastleSet) -> Fingerprint {
    let castles = [
        Castle::WhiteShort,
        Castle::WhiteLong,
        Castle::BlackShort,
        Castle::BlackLong,
    ];
    let mut rights = 0u64;
    for k in 0..4usize {
        if held.has(castles[k]) {
            rights |= 1 << k;
        }
    }
    fingerprint_from(sketch, stirred(rights))
}
