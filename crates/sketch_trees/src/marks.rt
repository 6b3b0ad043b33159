use crate::marking::{Marking, with_marks};
use crate::search::{Close, Search};
use board_base::{Colour, Memory};
use figures::Sketch;
use sketch_prices::{Basis, Survey};

/// With fewer nodes above, marks are sought by ascents of their own.
const MOST_MARKED: u8 = 2;

/// Below this, what the men cost at equal prices beyond their true homes, marks are seldom forced: four captures fewer than there may be.
pub(crate) const SELDOM_MARKED: i32 = -96;

/// A sketch with the marks so far, the lines that gave them, and what its account stands on.
#[derive(Drop)]
pub(crate) struct Marked {
    pub(crate) sketch: Sketch,
    pub(crate) marking: Marking,
    basis: Basis,
}

impl Marked {
    /// The sketch with no new mark.
    pub(crate) fn new(sketch: &Sketch, basis: Basis) -> Marked {
        Marked {
            sketch: sketch.copied(),
            marking: Marking::new(),
            basis,
        }
    }
}

impl Search {
    /// Marks whom a line of prices forces, if there is room for one more line, and says how the node ends if the marked sketch is void or
    /// closed.
    fn try_line(&mut self, marked: &mut Marked, line: u32) -> Result<Option<Close>, Memory> {
        if marked.marking.is_full() {
            return Ok(None);
        }
        let numbers = self.accounts.marks(&marked.basis, line)?;
        if numbers.is_empty() {
            return Ok(None);
        }
        marked.sketch = with_marks(&marked.sketch, numbers.as_slice());
        marked.marking.push(line);
        let survey = self.accounts.survey(&marked.sketch)?;
        let close = self.close_at_once(&survey)?;
        if let Survey::Known(basis) = survey {
            marked.basis = basis;
        }
        Ok(close)
    }

    /// Marks whom the lines of the pool force.
    fn mark_by_pool(&mut self, marked: &mut Marked) -> Result<Option<Close>, Memory> {
        let pool = self.pool_lines();
        for line in pool.iter() {
            let close = self.try_line(marked, *line)?;
            if close.is_some() {
                return Ok(close);
            }
        }
        Ok(None)
    }

    /// Seeks prices that force the mark of the figure with this number, if it is of this side, and marks whom they force.
    fn mark_one(
        &mut self,
        marked: &mut Marked,
        side: Colour,
        figure: u8,
        pawns: bool,
    ) -> Result<Option<Close>, Memory> {
        if marked.marking.is_full() {
            return Ok(None);
        }
        let Some(target) = marked.basis.target_of(side, figure, pawns) else {
            return Ok(None);
        };
        match self.climb(&mut marked.basis, Some(target))? {
            Some(line) => self.try_line(marked, line),
            None => Ok(None),
        }
    }

    /// The same for each officer of a side, and for each pawn if pawns are to be marked too.
    fn mark_side(
        &mut self,
        marked: &mut Marked,
        side: Colour,
        pawns: bool,
    ) -> Result<Option<Close>, Memory> {
        for figure in 0..32u8 {
            let close = self.mark_one(marked, side, figure, pawns)?;
            if close.is_some() {
                return Ok(close);
            }
        }
        Ok(None)
    }

    /// Marks figures of a sketch that has so many above it and whose men cost so much at equal prices, and says how the node ends if the
    /// marked sketch is void or closed. Near the top marks are sought by ascents of their own, and those of pawns at the top alone: with
    /// little to spend not if they are seldom forced.
    pub(crate) fn mark(
        &mut self,
        marked: &mut Marked,
        above: u8,
        flat: i32,
    ) -> Result<Option<Close>, Memory> {
        let close = self.mark_by_pool(marked)?;
        let seldom = self.limits.thrifty && flat < SELDOM_MARKED;
        if close.is_some() || above >= MOST_MARKED || seldom {
            return Ok(close);
        }
        let close = self.mark_side(marked, Colour::White, above == 0)?;
        if close.is_some() {
            return Ok(close);
        }
        self.mark_side(marked, Colour::Black, above == 0)
    }

    /// The sketch with the marks of these lines; None if one of them gives none.
    fn with_lines(&mut self, sketch: &Sketch, marking: &Marking) -> Result<Option<Sketch>, Memory> {
        let mut marked = sketch.copied();
        for place in 0..8usize {
            if let Some(line) = marking.get(place) {
                let Survey::Known(basis) = self.accounts.survey(&marked)? else {
                    return Ok(None);
                };
                let numbers = self.accounts.marks(&basis, line)?;
                if numbers.is_empty() {
                    return Ok(None);
                }
                marked = with_marks(&marked, numbers.as_slice());
            }
        }
        Ok(Some(marked))
    }

    /// Whether the node of a sketch ends so with the marks of these lines, if it is void or closed.
    fn holds(&mut self, sketch: &Sketch, marking: &Marking, close: &Close) -> Result<bool, Memory> {
        let Some(marked) = self.with_lines(sketch, marking)? else {
            return Ok(false);
        };
        match self.accounts.survey(&marked)? {
            Survey::Void => Ok(matches!(close, Close::Void)),
            Survey::Unknown => Ok(false),
            Survey::Known(basis) => match close {
                Close::Priced(line) => self.accounts.closes(&basis, *line),
                Close::Void | Close::Steps | Close::Split(_) => Ok(false),
            },
        }
    }

    /// Notes how the node of a sketch ends, by no more lines of marks than are needed.
    pub(crate) fn note_leaf(
        &mut self,
        sketch: &Sketch,
        marking: Marking,
        close: Close,
    ) -> Result<(), Memory> {
        let mut least = marking;
        for place in (0..8usize).rev() {
            if place < least.len() {
                let less = least.without(place);
                if self.holds(sketch, &less, &close)? {
                    least = less;
                }
            }
        }
        self.note_refuted(sketch, least, close)
    }
}
