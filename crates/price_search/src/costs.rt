use crate::keys::Trace;
use crate::lands::{Home, Land, NOWHERE};
use crate::ways::{AllWays, BASE, Rates, greatest_on};
use balance_rule::number_of;
use board_base::{Colour, Square};

/// What each of at most sixteen men costs from each of the side's homes, by their numbers as the side sees the board.
pub(crate) type CostRow = [u16; 16];

/// The men of a side by their traces, in ascending order of their squares, and how many men it began with.
#[derive(Clone, Copy)]
pub(crate) struct SideMen {
    pub(crate) traces: [Trace; 16],
    pub(crate) standing: usize,
    pub(crate) begun: usize,
}

/// The number of a man's home who stands on the set; None if it is no home of the side.
fn own_home(side: Colour, square: u8) -> Option<u8> {
    let number = number_of(side, Square::new(square)?);
    if number < 16 { Some(number) } else { None }
}

/// What the man of a trace costs from each home.
fn stand_row(land: &Land, ways: &AllWays, trace: Trace) -> CostRow {
    match trace {
        Trace::Nobody => [NOWHERE; 16],
        Trace::Caged(square) => caged_row(land, square),
        Trace::King => king_row(land),
        Trace::Pawn(number) => pawn_row(ways, number),
        Trace::Officer(homes, promoted) => officer_row(ways, homes, promoted),
    }
}

/// The same of one who stands on the set, on a square.
fn caged_row(land: &Land, square: u8) -> CostRow {
    let mut row = [NOWHERE; 16];
    if let Some(home) = own_home(land.side, square) {
        row[home as usize % 16] = BASE;
    }
    row
}

/// The same of a king.
fn king_row(land: &Land) -> CostRow {
    let mut row = [NOWHERE; 16];
    for n in 0..16 {
        if matches!(land.homes[n], Home::King) {
            row[n] = BASE;
        }
    }
    row
}

/// The same of a pawn on the square with a number.
fn pawn_row(ways: &AllWays, number: u8) -> CostRow {
    let mut row = [NOWHERE; 16];
    let rank = number as usize / 8 % 8;
    let file = number as usize % 8;
    if rank < 7 {
        for f in 0..8 {
            let toll = ways.each[f].toll(f, rank, file);
            row[8 + f] = toll.wrapping_add(BASE).min(NOWHERE);
        }
    }
    row
}

/// The same of an officer with these homes of his kind and these files on which he may have been promoted. A bit is a file.
fn officer_row(ways: &AllWays, homes: u8, promoted: u8) -> CostRow {
    let mut row = [NOWHERE; 16];
    let mut tolls = [NOWHERE; 8];
    for g in 0..8 {
        if homes >> g & 1 == 1 {
            row[g] = BASE;
        }
        if promoted >> g & 1 == 1 {
            for f in 0..8 {
                tolls[f] = tolls[f].min(ways.promoted[g][f]);
            }
        }
    }
    for f in 0..8 {
        row[8 + f] = tolls[f].wrapping_add(BASE).min(NOWHERE);
    }
    row
}

/// What it costs that the man of each home is gone.
fn gone_row(land: &Land, rates: &Rates, ways: &AllWays) -> CostRow {
    let mut row = [NOWHERE; 16];
    for n in 0..16 {
        match &land.homes[n] {
            Home::Officer(classes) => {
                row[n] = BASE.saturating_sub(greatest_on(&rates.enemy, classes));
            }
            Home::Pawn => row[n] = ways.each[n % 8].gone,
            _ => {}
        }
    }
    row
}

/// What each man costs from each home: first come those on the board, then those who are gone.
pub(crate) fn cost_rows(
    land: &Land,
    men: &SideMen,
    rates: &Rates,
    ways: &AllWays,
) -> [CostRow; 16] {
    let mut rows = [gone_row(land, rates, ways); 16];
    for i in 0..16 {
        if i < men.standing {
            rows[i] = stand_row(land, ways, men.traces[i]);
        }
    }
    rows
}
