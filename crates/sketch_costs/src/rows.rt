use crate::terrains::{OFFICERS, SideTerrain, Terrain};
use crate::views::turned_set;
use arrayvec::ArrayVec;
use board_base::{Colour, Kind, SquareSet};
use figures::{Figure, Sketch};
use home_ways::count;

/// What the cost of a figure depends on beside its side's terrain.
#[derive(Clone, Copy, Default)]
pub struct Row {
    /// The number of the figure, from 0.
    pub figure: u8,
    /// Whether it is a pawn.
    pub is_pawn: bool,
    /// Whether it is marked.
    pub marked: bool,
    /// The squares of a pawn off the wall, by their numbers as the side sees them.
    pub(crate) squares: u64,
    /// The homes on which an officer may have begun, a bit for each file.
    homes: u8,
    /// The files on which he may have been promoted.
    promotions: u8,
}

/// The rows of each side's figures, but for kings and men on the wall.
#[derive(Drop)]
pub struct Rows {
    white: ArrayVec<Row, 16>,
    black: ArrayVec<Row, 16>,
}

/// The files for which the test holds.
fn files_that<F: Fn(usize) -> bool>(test: F) -> u8
    requires { F.IsAlwaysCallable test }
{
    let mut files = 0u8;
    for file in 0..8usize {
        if test(file) {
            files |= 1 << file;
        }
    }
    files
}

/// Whether the officer may have begun on the home of this file.
fn begins_on(terrain: &SideTerrain, figure: &Figure, file: usize) -> bool {
    let set = figure.squares.bits();
    match terrain.kinds[file % 8] {
        Some(kind) => {
            terrain.begins[file % 8] && figure.may_be(kind) && terrain.rooms[file % 8] & set != 0
        }
        None => false,
    }
}

/// Whether he may have been promoted on this file.
fn is_promoted_on(terrain: &SideTerrain, figure: &Figure, file: usize) -> bool {
    let set = figure.squares.bits();
    for place in 0..4usize {
        if figure.may_be(OFFICERS[place]) && terrain.promoted[place][file % 8] & set != 0 {
            return true;
        }
    }
    false
}

/// The row of a figure with this number.
fn row_of(terrain: &SideTerrain, figure: &Figure, number: u8) -> Row {
    let mut row = Row {
        figure: number,
        is_pawn: figure.may_be(Kind::Pawn),
        marked: figure.marked,
        squares: 0,
        homes: 0,
        promotions: 0,
    };
    if row.is_pawn {
        row.squares = turned_set(terrain.side, figure.squares.bits()) & terrain.free;
        return row;
    }
    row.homes = files_that(|file| begins_on(terrain, figure, file));
    if !figure.marked {
        row.promotions = files_that(|file| is_promoted_on(terrain, figure, file));
    }
    row
}

/// Whether the figure is a king, or stands on the wall.
fn is_settled(figure: &Figure, wall: SquareSet) -> bool {
    let set = figure.squares.bits();
    figure.may_be(Kind::King) || (count(set) == 1 && wall.bits() & set != 0)
}

/// How many men of the side begin off the wall, but for the king.
fn count_begun(terrain: &SideTerrain) -> usize {
    terrain.begins.iter().filter(|begins| **begins).count()
}

/// The rows of a sketch's figures beside the wall; None if a side has more figures than men.
pub fn rows_of(terrain: &Terrain, sketch: &Sketch, wall: SquareSet) -> Option<Rows> {
    let mut rows = Rows {
        white: ArrayVec::new(),
        black: ArrayVec::new(),
    };
    let mut number = 0u8;
    for figure in sketch.figures() {
        if !is_settled(figure, wall) {
            let side = terrain.of(figure.colour);
            let row = row_of(side, figure, number);
            if !rows.push(side, row) {
                return None;
            }
        }
        number = number.wrapping_add(1);
    }
    Some(rows)
}

/// Puts a row behind those of its side; false if there are as many as men.
fn push_row(rows: &mut ArrayVec<Row, 16>, row: Row, most: usize) -> bool {
    rows.len() < most && rows.try_push(row).is_ok()
}

impl Rows {
    /// Puts a row behind those of its side; false if there are as many as men.
    fn push(&mut self, side: &SideTerrain, row: Row) -> bool {
        let most = count_begun(side);
        match side.side {
            Colour::White => push_row(&mut self.white, row, most),
            Colour::Black => push_row(&mut self.black, row, most),
        }
    }

    /// Those of a side.
    pub fn of(&self, side: Colour) -> &[Row] {
        match side {
            Colour::White => self.white.as_slice(),
            Colour::Black => self.black.as_slice(),
        }
    }
}

impl Row {
    /// Whether the officer may have begun on the home of this file.
    pub(crate) fn has_home(&self, file: usize) -> bool {
        self.homes >> (file % 8) & 1 == 1
    }

    /// Whether he may have been promoted on this file.
    pub(crate) fn has_promotion(&self, file: usize) -> bool {
        self.promotions >> (file % 8) & 1 == 1
    }
}
