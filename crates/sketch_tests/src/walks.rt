//! Walks over the lines of a proof, as they are written or changed.

use crate::price_lines::prices;
use fen_text::read_four_fields;
use figures::sketch_of;
use sketch_checker::{SketchFault, SketchLine, SketchSetting, SketchWalk};
use sketch_text::{read_marks, read_sketch_node};

/// No file.
pub(crate) const NO_FILES: [bool; 8] = [false; 8];

/// File a.
pub(crate) const FILE_A: [bool; 8] = [true, false, false, false, false, false, false, false];

/// How a walk ends: it is done, or goes on, or the line with this number, counted from 1, is refused or can't be read.
#[derive(Clone, Copy, PartialEq, Eq, Debug)]
pub(crate) enum End {
    Done,
    Open,
    Refused(usize, SketchFault),
    Unread(usize),
}

/// A diagram, its exact files, lines of prices as text, the lines of a proof, and how the walk over them is to end.
#[derive(Clone, Copy)]
pub(crate) struct Proof {
    pub(crate) name: &'static str,
    pub(crate) fen: &'static str,
    pub(crate) files: [bool; 8],
    pub(crate) prices: &'static [&'static str],
    pub(crate) lines: &'static [&'static str],
    pub(crate) end: End,
}

/// What is changed in lines, which are counted from 0.
#[derive(Clone, Copy)]
pub(crate) enum Edit {
    Nothing,
    Dropped(usize),
    Doubled(usize),
    Swapped(usize),
    Put(usize, &'static str),
}

/// The line with this number after the edit.
fn edited(lines: &[&'static str], edit: Edit, i: usize) -> Option<&'static str> {
    let from = match edit {
        Edit::Nothing => i,
        Edit::Dropped(at) => { if i < at { i } else { i.checked_add(1)? } }
        Edit::Doubled(at) => { if i > at { i.checked_sub(1)? } else { i } }
        Edit::Swapped(at) => {
            if i == at {
                at.checked_add(1)?
            } else if Some(i) == at.checked_add(1) {
                at
            } else {
                i
            }
        }
        Edit::Put(at, text) => {
            if i == at {
                return Some(text);
            }
            i
        }
    };
    lines.get(from).copied()
}

/// The walk before the first line.
fn begun(proof: &Proof) -> Option<SketchWalk> {
    let query = read_four_fields(proof.fen.as_bytes())?;
    let mut setting = SketchSetting::new(query.odds, query.held, proof.files);
    for line in proof.prices {
        setting.add_prices(&prices(line)?);
    }
    SketchWalk::new(setting, sketch_of(&query.board)?)
}

/// What a line says behind so many lines of prices.
fn read_line(lines: usize, text: &str) -> Option<SketchLine> {
    let prices = u8::try_from(lines).ok()?;
    match read_marks(prices, text.as_bytes()) {
        Some(marks) => Some(SketchLine::Marks(marks)),
        None => Some(SketchLine::Node(read_sketch_node(prices, text.as_bytes())?)),
    }
}

/// How the walk over the edited lines ends. None if it can't begin.
pub(crate) fn walked(proof: &Proof, edit: Edit) -> Option<End> {
    let mut walk = begun(proof)?;
    let mut number: u32 = 0;
    for i in 0..2_000_usize {
        let Some(text) = edited(proof.lines, edit, i) else {
            return Some(if walk.is_done() { End::Done } else { End::Open });
        };
        let Some(line) = read_line(proof.prices.len(), text) else {
            return Some(End::Unread(i));
        };
        number = number.wrapping_add(1);
        if let Err(fault) = walk.take(number, &line) {
            return Some(End::Refused(i, fault));
        }
    }
    None
}
