ghost use Rattle.std.specs.Prelude.{◌≡◌, ◌<◌, ◌≤◌, MatchOption, None, Some, length};
ghost use Rattle.sketch_text.specs.Marks.{figures_from, mark_line, marks_of, words};

use crate::cutting::halves;
use crate::numbers::read_within;
use arrayvec::ArrayVec;
use fen_text::split_part;
use std::marker::Model;

/// What a line of marks says: at a line of prices, counted from 1, each of some figures is forced. They are numbered from 1. Contracts see
/// it as these numbers.
#[derive(Drop)]
pub struct MarkLine {
    by: u8,
    figures: ArrayVec<u8, 32>,
}

impl Model for MarkLine {
    ghost use Rattle.sketch_text.specs.Marks.{Marks};

    ghost Value = { Marks };

    ghost view = { λ m. record { by = m.by; figures = m.figures.items } };
}

impl MarkLine {
    /// A line of marks by this line of prices. None comes if and only if there are more than 32 figures.
    pub fn new(by: u8, figures: &[u8]) -> Option<MarkLine>
        ensures { MatchOption result (32 < length figures.now) (λ m. (m.by ≡ by) × (m.figures ≡ figures.now)) }
    {
        match ArrayVec::try_from(figures) {
            Ok(figures) => Some(MarkLine { by, figures }),
            Err(_) => None,
        }
    }

    /// The number of the line of prices, from 1.
    pub fn by(&self) -> u8
        ensures { result ≡ self.now.by }
    {
        self.by
    }

    /// The numbers of the figures.
    pub fn figures(&self) -> &[u8]
        ensures value { result.now ≡ self.now.figures }
        ensures few { length self.now.figures ≤ 32 }
    {
        self.figures.as_slice()
    }
}

/// Reads the numbers of figures, ascending, with a space between two.
fn read_figures(text: &[u8]) -> Option<ArrayVec<u8, 32>>
    ensures { MatchOption result (figures_from 32 1 (words text.now) ≡ None) (λ figures. figures_from 32 1 (words text.now) ≡ Some figures.items) }
{
    let mut figures = ArrayVec::new();
    let mut least = 1;
    let mut rest = Some(text);
    for n in 0..32_usize {
        let Some(left) = rest else {
            return Some(figures);
        };
        let (word, after) = split_part(left, b' ');
        let Some(number) = read_within(least, 32, word) else {
            return None;
        };
        figures.push(number as u8);
        least = number + 1;
        rest = after;
    }
    if rest.is_some() {
        return None;
    }
    Some(figures)
}

#[tactic(auto, using(crate::proofs::Parted::none_always), unfolding(crate::specs::Marks::marks_of, fen_text::specs::Parts::parted))]
fn read_behind_mark(prices: u8, text: &[u8]) -> Option<MarkLine>
    ensures { MatchOption result (marks_of prices text.now ≡ None) (λ m. marks_of prices text.now ≡ Some m) }
{
    let Some((number, rest)) = halves(text) else {
        return None;
    };
    let Some(by) = read_within(1, u32::from(prices), number) else {
        return None;
    };
    match read_figures(rest) {
        Some(figures) => Some(MarkLine {
            by: by as u8,
            figures,
        }),
        None => None,
    }
}

/// Reads a line of marks of a sketch that has so many lines of prices, without its end: `mark`, the number of a line of prices, and the
/// numbers of figures, at least one, from 1 to 32, ascending. One space stands between two words. None comes if and only if the text is no
/// such.
#[tactic(auto, unfolding(crate::specs::Marks::mark_line))]
pub fn read_marks(prices: u8, text: &[u8]) -> Option<MarkLine>
    ensures { MatchOption result (mark_line prices text.now ≡ None) (λ m. mark_line prices text.now ≡ Some m) }
{
    if text.starts_with(b"mark ") {
        read_behind_mark(prices, &text[5..])
    } else {
        None
    }
}
