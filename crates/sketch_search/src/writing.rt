use arrayvec::ArrayVec;
use board_base::Memory;
use capture_prices::Prices;
use figures::Sketch;
use sketch_found::{FoundSketch, SketchLine};
use sketch_text::{End, Label, MarkLine, SketchNode};
use sketch_trees::{
    Basis, Child, Close, MOST_BELOW, Marking, Search, Survey, cases_of, closed_above, steps_of,
    with_marks, with_marks_of,
};
use std::alloc::Global;

/// The most steps of a node.
const MOST_STEPS: usize = 1_024;

/// How much a node counts that has children.
const WIDE_NODE: u32 = 32;

/// How much all lines may count: a line of prices, a node and a figure that is marked 1, and a node that has children `WIDE_NODE`.
const MOST_UNITS: u32 = 262_144;

/// The lines of a tree that was found, as far as they are written.
#[derive(Drop)]
struct Writer {
    alloc: Global,
    lines: Vec<SketchLine>,
    /// The lines of prices that are used, in the order of their numbers.
    prices: ArrayVec<u32, 64>,
    units: u32,
}

/// A node that is to be written: how it ends, and its children.
#[derive(Drop)]
struct Ending {
    end: End,
    children: Vec<Child>,
}

/// A sketch with the marks of some lines, and these lines.
#[derive(Drop)]
struct MarkedSketch {
    sketch: Sketch,
    lines: Vec<SketchLine>,
}

impl Writer {
    /// Nothing is written.
    fn new(alloc: Global) -> Writer {
        Writer {
            alloc,
            lines: Vec::new(alloc),
            prices: ArrayVec::new(),
            units: 0,
        }
    }

    /// The number of a line of prices, counted from 1, which is used from now on; None if there are too many.
    fn number_of(&mut self, line: u32) -> Option<u8> {
        let mut number = 1u8;
        for other in self.prices.iter() {
            if *other == line {
                return Some(number);
            }
            number = number.saturating_add(1);
        }
        if self.prices.try_push(line).is_err() {
            return None;
        }
        self.units = self.units.saturating_add(1);
        Some(number)
    }

    /// The first line that is used already and closes a sketch.
    fn used_line(&self, search: &mut Search, basis: &Basis) -> Result<Option<u32>, Memory> {
        for line in self.prices.iter() {
            if search.accounts.closes(basis, *line)? {
                return Ok(Some(*line));
            }
        }
        Ok(None)
    }

    /// The number of a line of prices that closes a sketch, as this one does: one that is used already, if there is one, or that was found
    /// last.
    fn closing_number(
        &mut self,
        search: &mut Search,
        sketch: &Sketch,
        line: u32,
    ) -> Result<Option<u8>, Memory> {
        if self.prices.iter().any(|other| *other == line) {
            return Ok(self.number_of(line));
        }
        let Survey::Known(basis) = search.accounts.survey(sketch)? else {
            return Ok(None);
        };
        let best = match self.used_line(search, &basis)? {
            Some(used) => used,
            None => search.accounts.last_closing(&basis, line)?,
        };
        Ok(self.number_of(best))
    }

    /// The marks of a line in a sketch; None if there are none.
    fn marks_by(
        &mut self,
        search: &mut Search,
        sketch: &Sketch,
        line: u32,
    ) -> Result<Option<MarkLine>, Memory> {
        let Survey::Known(basis) = search.accounts.survey(sketch)? else {
            return Ok(None);
        };
        let numbers = search.accounts.marks(&basis, line)?;
        let Some(by) = self.number_of(line) else {
            return Ok(None);
        };
        if numbers.is_empty() {
            return Ok(None);
        }
        self.units = self.units.saturating_add(numbers.len().min(32) as u32);
        Ok(MarkLine::new(by, numbers.as_slice()))
    }

    /// The sketch with the marks of all these lines; None if one of them has none.
    fn marked(
        &mut self,
        search: &mut Search,
        sketch: &Sketch,
        marking: &Marking,
    ) -> Result<Option<MarkedSketch>, Memory> {
        let mut marked = MarkedSketch {
            sketch: sketch.copied(),
            lines: Vec::new(self.alloc),
        };
        for place in 0..8usize {
            if let Some(line) = marking.get(place) {
                let Some(marks) = self.marks_by(search, &marked.sketch, line)? else {
                    return Ok(None);
                };
                marked.sketch = with_marks(&marked.sketch, marks.figures());
                marked
                    .lines
                    .push(SketchLine::Marks(marks))
                    .map_err(|_| Memory)?;
            }
        }
        Ok(Some(marked))
    }

    /// The end of a node without children.
    fn leaf(&self, end: End) -> Ending {
        Ending {
            end,
            children: Vec::new(self.alloc),
        }
    }

    /// What is before each step of the marked sketch.
    fn steps_end(&self, search: &Search, marked: &Sketch) -> Result<Option<Ending>, Memory> {
        let Some(wide) = closed_above(marked, &search.setting) else {
            return Ok(None);
        };
        let wide = with_marks_of(&wide, marked);
        let most = search.limits.steps.min(MOST_STEPS);
        match steps_of(self.alloc, &wide, &search.setting, most)? {
            Some(children) => {
                let end = End::Steps(children.len().min(MOST_STEPS) as u16);
                Ok(Some(Ending { end, children }))
            }
            None => Ok(None),
        }
    }

    /// How the node of a marked sketch ends.
    fn ending(
        &mut self,
        search: &mut Search,
        marked: &Sketch,
        close: Close,
    ) -> Result<Option<Ending>, Memory> {
        match close {
            Close::Void => Ok(Some(self.leaf(End::Void))),
            Close::Priced(line) => match self.closing_number(search, marked, line)? {
                Some(number) => Ok(Some(self.leaf(End::Closed(number)))),
                None => Ok(None),
            },
            Close::Steps => self.steps_end(search, marked),
            Close::Split(square) => Ok(Some(Ending {
                end: End::Split(square),
                children: cases_of(self.alloc, marked, square)?,
            })),
        }
    }

    /// Writes the line of a node and those of its marks; false if there is no room.
    fn put(&mut self, label: Label, end: End, marks: Vec<SketchLine>) -> Result<bool, Memory> {
        let more = match end {
            End::Void | End::Closed(_) => 1,
            End::Steps(_) | End::Split(_) => WIDE_NODE,
        };
        self.units = self.units.saturating_add(more);
        if self.units > MOST_UNITS {
            return Ok(false);
        }
        let node = SketchNode {
            label,
            marks: marks.len().min(8) as u8,
            end,
        };
        self.lines.push(SketchLine::Node(node)).map_err(|_| Memory)?;
        for line in marks {
            self.lines.push(line).map_err(|_| Memory)?;
        }
        Ok(true)
    }

    /// Writes these nodes, each with those below it; false if that can't be done.
    #[cycle(writing)]
    fn write_all(
        &mut self,
        search: &mut Search,
        children: &[Child],
        room: u8,
    ) -> Result<bool, Memory> {
        for child in children {
            if !self.write(search, child, room)? {
                return Ok(false);
            }
        }
        Ok(true)
    }

    /// Writes a node with those below it; false if that can't be done.
    #[cycle(writing)]
    fn write(&mut self, search: &mut Search, child: &Child, room: u8) -> Result<bool, Memory> {
        let Some(reason) = search.reason_of(&child.sketch) else {
            return Ok(false);
        };
        let marked = self.marked(search, &child.sketch, &reason.marking)?;
        let Some(MarkedSketch { sketch, lines }) = marked else {
            return Ok(false);
        };
        let Some(ending) = self.ending(search, &sketch, reason.close)? else {
            return Ok(false);
        };
        if !self.put(child.label, ending.end, lines)? {
            return Ok(false);
        }
        if ending.children.is_empty() {
            return Ok(true);
        }
        if room == 0 {
            return Ok(false);
        }
        self.write_all(search, ending.children.as_slice(), room - 1)
    }
}

/// The prices of these lines; None if one of them can't be written.
fn prices_of(alloc: Global, search: &Search, lines: &[u32]) -> Result<Option<Vec<Prices>>, Memory> {
    let mut found = Vec::new(alloc);
    for line in lines {
        let Some(row) = search.accounts.line(*line) else {
            return Ok(None);
        };
        let Some(prices) = row.prices() else {
            return Ok(None);
        };
        found.push(prices).map_err(|_| Memory)?;
    }
    Ok(Some(found))
}

/// The tree that a search has found for this root, as lines; None if it has too many.
pub(crate) fn written(
    alloc: Global,
    search: &mut Search,
    root: &Child,
) -> Result<Option<FoundSketch>, Memory> {
    let mut writer = Writer::new(alloc);
    if !writer.write(search, root, MOST_BELOW)? {
        return Ok(None);
    }
    let Writer { lines, prices, .. } = writer;
    match prices_of(alloc, search, prices.as_slice())? {
        Some(prices) => Ok(Some(FoundSketch {
            exact: search.setting.exact,
            prices,
            lines,
        })),
        None => Ok(None),
    }
}
