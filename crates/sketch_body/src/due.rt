ghost use Rattle.std.specs.Prelude.{◌≡◌, ◌∷◌, [], MatchOption, None, Some, map};
ghost use Rattle.std.specs.Bool.{OnFalse, OnTrue};
ghost use Rattle.std.specs.Option.{option_map};
ghost use Rattle.sketch_body.specs.Bodies.{of_line};
ghost use Rattle.sketch_body.specs.Due.{gone_on, is_over, next, start, step};
ghost use Rattle.sketch_body.specs.Seen.{item_of, line_of};
ghost use Rattle.sketch_body.specs.Taken.{takes_each};

use crate::charges::charge;
use crate::counts::Counts;
use crate::lines::{SketchItem, SketchLine, read_item};
use crate::nodes::take_node;
use crate::wholes::is_known;
use sketch_text::SketchHead;
use std::marker::Model;

/// All sketches of a certificate together have at most so many units.
const MOST_UNITS: u64 = 262_144;

/// What is due of a sketch whose lines are read one after another, and the units that are charged so far. It stands on the stack.
#[derive(Drop)]
pub struct SketchDue {
    prices: u8,
    wanted: u8,
    marks: u8,
    nodes: Counts,
    units: u32,
}

impl Model for SketchDue {
    ghost use Rattle.sketch_body.specs.Due.{Reading};

    ghost Value = { Reading };

    ghost view = { λ d. record { due = record { prices = d.prices; wanted = d.wanted; marks = d.marks; nodes = d.nodes }; units = d.units } };
}

impl SketchDue {
    /// What is due below the first line of a sketch, if the sketches before it have so many units. None comes if and only if its lines of
    /// prices and its first node make them more than 262,144.
    pub fn start(head: &SketchHead, units: u32) -> Option<SketchDue>
        ensures { result ≡ start units head.now }
    {
        let prices = head.prices();
        let all = u64::from(units) + (u64::from(prices) + 1);
        if all > MOST_UNITS {
            return None;
        }
        Some(SketchDue {
            prices,
            wanted: prices,
            marks: 0,
            nodes: Counts::one(),
            units: all as u32,
        })
    }

    /// The units that are charged: those of the sketches before, of the lines that were read, and of the least that must follow them.
    pub fn units(&self) -> u32
        ensures { result ≡ self.now.units }
    {
        self.units
    }

    /// Whether no line is due.
    pub fn is_done(&self) -> bool
        ensures { result ≡ is_over self.now.due }
    {
        self.wanted == 0 && self.marks == 0 && self.nodes.len() == 0
    }

    /// Goes on with this line, if it is one that is due. Nothing changes otherwise.
    fn take(&mut self, item: &SketchItem) -> bool
        ensures taken { OnTrue result (next self.old.due (item_of item.now) ≡ Some self.new.due) }
        ensures refused { OnFalse result (next self.old.due (item_of item.now) ≡ None) }
        ensures kept { OnFalse result (self.new ≡ self.old) }
        ensures units { self.new.units ≡ self.old.units }
    {
        match item {
            SketchItem::Prices(_) => {
                if self.wanted == 0 {
                    return false;
                }
                self.wanted -= 1;
                true
            }
            SketchItem::Line(line) => {
                if self.wanted > 0 {
                    return false;
                }
                self.take_line(line)
            }
        }
    }

    /// Goes on with this line, if it is one of a node or of marks that is due, behind all lines of prices. Nothing changes otherwise.
    fn take_line(&mut self, line: &SketchLine) -> bool
        requires { self.old.due.wanted ≡ 0 }
        ensures taken { OnTrue result (next self.old.due (of_line (line_of line.now)) ≡ Some self.new.due) }
        ensures refused { OnFalse result (next self.old.due (of_line (line_of line.now)) ≡ None) }
        ensures kept { OnFalse result (self.new ≡ self.old) }
        ensures units { self.new.units ≡ self.old.units }
    {
        match line {
            SketchLine::Marks(_) => {
                if self.marks == 0 {
                    return false;
                }
                self.marks -= 1;
                true
            }
            SketchLine::Node(node) => {
                if self.marks > 0 {
                    return false;
                }
                if !take_node(self.prices, &mut self.nodes, node) {
                    return false;
                }
                self.marks = node.marks;
                true
            }
        }
    }

    /// Goes on with this line, if it is one that is due and the units don't become too many. Nothing changes otherwise.
    fn go_on(&mut self, item: &SketchItem) -> bool
        ensures taken { OnTrue result (gone_on self.old (item_of item.now) ≡ Some self.new) }
        ensures refused { OnFalse result (gone_on self.old (item_of item.now) ≡ None) }
        ensures kept { OnFalse result (self.new ≡ self.old) }
    {
        let units = u64::from(self.units) + u64::from(charge(item));
        if units > MOST_UNITS {
            return false;
        }
        if !self.take(item) {
            return false;
        }
        self.units = units as u32;
        true
    }

    /// Reads the next line, without its end: one of prices, as `read_prices` reads it, for each that the first line named; then that of the
    /// first node, as `read_sketch_node` reads it, the lines of its marks, as `read_marks` reads them, and after them all that is below it,
    /// each node in the same way. The first node, and no other, is labelled `now`, and a node below 64 others has none below it. What the
    /// line says is given, and None if and only if it isn't one that is due, or the units become more than 262,144. Nothing changes then.
    pub fn read(&mut self, text: &[u8]) -> Option<SketchItem>
        ensures read { option_map (λ i. (item_of i, self.new)) result ≡ step self.old text.now }
        ensures kept { MatchOption result (self.new ≡ self.old) (λ i. Unit {0}) }
    {
        let Some(item) = read_item(self.prices, self.wanted, self.marks, text) else {
            return None;
        };
        if self.go_on(&item) { Some(item) } else { None }
    }

    /// What is due of a sketch behind so many lines of prices.
    pub(crate) fn behind_prices(prices: u8) -> SketchDue
        ensures { result.due ≡ record { prices = prices; wanted = 0; marks = 0; nodes = 1 ∷ [] } }
    {
        SketchDue {
            prices,
            wanted: 0,
            marks: 0,
            nodes: Counts::one(),
            units: 0,
        }
    }

    /// Whether these lines are all that is due, behind all lines of prices, and have a text each.
    pub(crate) fn takes_all(self, lines: &[SketchLine]) -> bool
        requires { self.due.wanted ≡ 0 }
        ensures { result ≡ takes_each self.due.prices self.due (map line_of lines.now) }
    {
        let mut due = self;
        for line in lines {
            if !is_known(due.prices, line) {
                return false;
            }
            if !due.take_line(line) {
                return false;
            }
        }
        due.is_done()
    }
}
