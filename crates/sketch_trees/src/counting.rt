use board_base::{Colour, Kind, Odds};
use figures::{Figure, Sketch, fixed_squares};
use sketch_sets::{figures_of, men_begun};

/// All squares but those of the a-file.
const NOT_A: u64 = 0xfefe_fefe_fefe_fefe;

/// All squares but those of the h-file.
const NOT_H: u64 = 0x7f7f_7f7f_7f7f_7f7f;

/// The squares of ranks 1 and 8.
const ENDS: u64 = 0xff00_0000_0000_00ff;

/// Where pawns may have come from that are now on some squares.
#[derive(Clone, Copy)]
struct Origins {
    /// How many ways there are straight on, and by a capture.
    straight: u32,
    aside: u32,
}

/// How many ways pawns of this colour have to these squares from squares of the others.
fn origins_of(colour: Colour, to: u64, from: u64) -> Origins {
    let (back, left, right) = match colour {
        Colour::White => (to >> 8, (to & NOT_A) >> 9, (to & NOT_H) >> 7),
        Colour::Black => (to << 8, (to & NOT_A) << 7, (to & NOT_H) << 9),
    };
    Origins {
        straight: (back & from).count_ones(),
        aside: (left & from)
            .count_ones()
            .wrapping_add((right & from).count_ones()),
    }
}

/// The squares of the last rank of this colour's pawns.
fn last_squares(colour: Colour) -> u64 {
    match colour {
        Colour::White => 0xff00_0000_0000_0000,
        Colour::Black => 0xff,
    }
}

/// About how many captures and promotions this figure may have made, coming from these squares. The victim of a pawn's capture may have been
/// of three kinds, and that of a promotion of two.
fn ways_of(figure: &Figure, from: u64, takes: bool) -> u32 {
    let squares = figure.squares.bits();
    if figure.may_be(Kind::Pawn) {
        let origins = origins_of(figure.colour, squares, from);
        return if takes {
            origins.aside.wrapping_mul(3)
        } else {
            0
        };
    }
    if figure.may_be(Kind::King) {
        return 0;
    }
    let origins = origins_of(figure.colour, squares & last_squares(figure.colour), from);
    if takes {
        origins.straight.wrapping_add(origins.aside.wrapping_mul(2))
    } else {
        origins.straight
    }
}

/// Whether a man of this colour may have been taken.
fn is_short(odds: Odds, sketch: &Sketch, colour: Colour) -> bool {
    figures_of(sketch, colour) < men_begun(odds, colour)
}

/// About how many captures by pawns and promotions a closed sketch may have come by. It is soon counted, since it isn't asked what was before
/// them: whether pawns stand in order, nobody clashes, and nobody gives check.
pub(crate) fn about_steps(odds: Odds, sketch: &Sketch) -> u32 {
    let from = !(fixed_squares(sketch).bits() | ENDS);
    let white_takes = is_short(odds, sketch, Colour::Black);
    let black_takes = is_short(odds, sketch, Colour::White);
    let mut ways = 0u32;
    for figure in sketch.figures() {
        if !figure.marked {
            let takes = match figure.colour {
                Colour::White => white_takes,
                Colour::Black => black_takes,
            };
            ways = ways.wrapping_add(ways_of(figure, from, takes));
        }
    }
    ways
}
