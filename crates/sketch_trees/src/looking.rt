use crate::children::{Child, closed_above, steps_of};
use crate::counting::about_steps;
use crate::marking::{Marking, with_marks_of};
use crate::marks::{Marked, SELDOM_MARKED};
use crate::search::{Close, Search};
use board_base::Memory;
use figures::Sketch;
use sketch_prices::{Basis, Survey, Target};

/// Below this, what the men cost at equal prices beyond their true homes, prices seldom close a sketch: eight captures fewer than there may
/// be.
const SELDOM_CLOSED: i32 = -192;

/// So many steps are followed even if marks are seldom forced.
const FEW_STEPS: u32 = 24;

/// What a look at a sketch came to.
#[derive(Drop)]
pub(crate) enum Look {
    Refuted,
    Failed,
    /// It is refuted with these marks if what is before each of its steps is.
    Open(Marking, Vec<Child>),
}

impl Search {
    /// Whether the search has gone as far as it may.
    fn is_spent(&self) -> bool {
        self.states >= self.limits.states || self.ascents >= self.limits.ascents
    }

    /// A line by which prices that are sought now close the sketch or force the target's mark.
    pub(crate) fn climb(
        &mut self,
        basis: &mut Basis,
        target: Option<Target>,
    ) -> Result<Option<u32>, Memory> {
        if self.ascents >= self.limits.ascents {
            return Ok(None);
        }
        self.ascents = self.ascents.saturating_add(1);
        match self.accounts.seek(basis, target) {
            Some(prices) => Ok(Some(self.add_line(prices)?)),
            None => Ok(None),
        }
    }

    /// The line of the pool that closes the sketch.
    fn closing_line(&mut self, basis: &Basis) -> Result<Option<u32>, Memory> {
        let pool = self.pool_lines();
        for line in pool.iter() {
            if self.accounts.closes(basis, *line)? {
                self.put_first(*line);
                return Ok(Some(*line));
            }
        }
        Ok(None)
    }

    /// How the node of a sketch ends that was surveyed, if it is void or a line of the pool closes it.
    pub(crate) fn close_at_once(&mut self, survey: &Survey) -> Result<Option<Close>, Memory> {
        match survey {
            Survey::Void => Ok(Some(Close::Void)),
            Survey::Unknown => Ok(None),
            Survey::Known(basis) => match self.closing_line(basis)? {
                Some(line) => Ok(Some(Close::Priced(line))),
                None => Ok(None),
            },
        }
    }

    /// Notes that a sketch wasn't refuted.
    fn fail(&mut self, sketch: &Sketch) -> Result<Look, Memory> {
        self.note_failed(sketch)?;
        Ok(Look::Failed)
    }

    /// Looks at a sketch that has so many above it at least.
    pub(crate) fn look(&mut self, sketch: &Sketch, above: u8) -> Result<Look, Memory> {
        match self.known(sketch) {
            Some(true) => return Ok(Look::Refuted),
            Some(false) => return Ok(Look::Failed),
            None => {}
        }
        let survey = self.accounts.survey(sketch)?;
        if let Some(close) = self.close_at_once(&survey)? {
            self.note_refuted(sketch, Marking::new(), close)?;
            return Ok(Look::Refuted);
        }
        if self.is_spent() {
            return Ok(Look::Failed);
        }
        self.states = self.states.saturating_add(1);
        match survey {
            Survey::Known(basis) => self.look_closer(sketch, basis, above),
            Survey::Void | Survey::Unknown => Ok(Look::Failed),
        }
    }

    /// The line of prices that closes a sketch, if some are sought and found: not with little to spend if the men cost far too little.
    fn line_above(&mut self, basis: &mut Basis, flat: i32) -> Result<Option<u32>, Memory> {
        if self.limits.thrifty && flat < SELDOM_CLOSED {
            return Ok(None);
        }
        self.climb(basis, None)
    }

    /// Whether so many steps are followed with little to spend, before marks are sought.
    fn follows(&self, wide: &Sketch, flat: i32) -> bool {
        let many = about_steps(self.setting.odds, wide) > FEW_STEPS;
        !self.limits.thrifty || flat >= SELDOM_MARKED || !many
    }

    /// What comes before the steps of a closed sketch; None if there are too many.
    fn children_of(&self, wide: &Sketch) -> Result<Option<Vec<Child>>, Memory> {
        let most = self.limits.steps;
        if self.limits.thrifty && about_steps(self.setting.odds, wide) as usize > most {
            return Ok(None);
        }
        steps_of(self.alloc, wide, &self.setting, most)
    }

    /// The same if the sketch isn't void, and no line of the pool closes it. A sketch is given up that no prices close, and that can be the
    /// array: marks would seldom help.
    fn look_closer(
        &mut self,
        sketch: &Sketch,
        mut basis: Basis,
        above: u8,
    ) -> Result<Look, Memory> {
        let Some(flat) = self.accounts.flat_above(&mut basis) else {
            return self.fail(sketch);
        };
        if let Some(line) = self.line_above(&mut basis, flat)? {
            self.note_refuted(sketch, Marking::new(), Close::Priced(line))?;
            return Ok(Look::Refuted);
        }
        let Some(wide) = closed_above(sketch, &self.setting) else {
            return self.fail(sketch);
        };
        if !self.follows(&with_marks_of(&wide, sketch), flat) {
            return self.fail(sketch);
        }
        let mut marked = Marked::new(sketch, basis);
        if let Some(close) = self.mark(&mut marked, above, flat)? {
            self.note_leaf(sketch, marked.marking, close)?;
            return Ok(Look::Refuted);
        }
        match self.children_of(&with_marks_of(&wide, &marked.sketch))? {
            Some(children) => Ok(Look::Open(marked.marking, children)),
            None => self.fail(sketch),
        }
    }
}
