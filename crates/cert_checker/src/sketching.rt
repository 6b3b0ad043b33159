ghost use Rattle.std.specs.Prelude.{◌≡◌, ◌≢◌, ◌≤◌, IfSome, IsSome, IsTrue, MatchBool, MatchOption, None, Some, false, true};
ghost use Rattle.std.specs.Bool.{OnFalse, OnTrue};
ghost use Rattle.std.specs.List.{Contains};
ghost use Rattle.capture_prices.specs.Prices.{PriceList, are_prices};
ghost use Rattle.sketch_body.specs.Bodies.{Item as AnItem};
ghost use Rattle.sketch_body.specs.Due.{is_over, start, step};
ghost use Rattle.sketch_body.specs.Seen.{line_of};
ghost use Rattle.sketch_checker.specs.Placed.{may_come};
ghost use Rattle.sketch_checker.specs.Roots.{IsRoot};
ghost use Rattle.sketch_checker.specs.Supports.{setting_of};
ghost use Rattle.cert_text.specs.Lines.{said};
ghost use Rattle.cert_checker.specs.Frames.{first_sketched};
ghost use Rattle.cert_checker.specs.Sketching.{HasBegun, IsReading, Takes, TakesNode, frames_in, opened_in};

use crate::frames::{FirstFault, no_query};
use crate::refusals::Why;
use crate::sketch_lines::{exact_files, take_sketch_line};
use cert_text::read_sketch_line;
use figures::sketch_of;
use query_base::Query;
use sketch_body::{SketchDue, SketchItem, SketchLine};
use sketch_checker::{SketchWalk, is_root};
use sketch_text::SketchHead;
use std::marker::Model;

/// What is due before any sketch was read.
fn nothing_due() -> SketchDue {
    let Some(head) = SketchHead::new(0, &[]) else {
        unreachable!()
    };
    let Some(due) = SketchDue::start(&head, 0) else {
        unreachable!()
    };
    due
}

/// The sketch whose lines are read, if there is one, and the units of those before it. It stays in its place, and is used for one sketch
/// after another.
#[derive(Drop)]
pub struct Sketching {
    walk: SketchWalk,
    query: Query,
    /// The first node has come.
    begun: bool,
    due: SketchDue,
    units: u32,
}

impl Model for Sketching {
    ghost use Rattle.cert_checker.specs.Sketching.{SketchState, nodes_at};

    ghost Value = { SketchState };

    ghost view = { λ s. record {
      units = s.units;
      reading = s.due;
      sketched = record { query = s.query; exact = s.walk.setting.exact; prices = s.walk.setting.prices; wanted = s.due.due.wanted; nodes = nodes_at s.begun s.walk.opened s.walk.frames };
      setting = s.walk.setting;
    } };
}

impl Sketching {
    /// No sketch was read yet.
    pub(crate) fn idle() -> Sketching
        ensures { result.units ≡ 0 }
    {
        Sketching {
            walk: SketchWalk::idle(),
            query: no_query(),
            begun: false,
            due: nothing_due(),
            units: 0,
        }
    }

    /// Begins to read the sketch with this first line. False comes if and only if its units are too many.
    pub(crate) fn count_from(&mut self, head: &SketchHead) -> bool
        ensures start { MatchBool result (start self.old.units head.now ≡ Some self.new.reading) (start self.old.units head.now ≡ None) }
        ensures units { self.new.units ≡ self.old.units }
    {
        match SketchDue::start(head, self.units) {
            Some(due) => {
                self.due = due;
                true
            }
            None => false,
        }
    }

    /// Begins to read the sketch with this first line, and to walk over it, at this query. False comes if and only if its units are too
    /// many.
    // It is long, and most lines begin no sketch.
    #[inline(never)]
    pub(crate) fn begin(&mut self, head: &SketchHead, query: &Query) -> bool
        ensures start { MatchBool result (start self.old.units head.now ≡ Some self.new.reading) (start self.old.units head.now ≡ None) }
        ensures units { self.new.units ≡ self.old.units }
        ensures sketched { OnTrue result (self.new.sketched ≡ first_sketched query.now head.now) }
        ensures reading { OnTrue result (head.now.prices ≤ 64 → IsReading self.new) }
    {
        if !self.count_from(head) {
            return false;
        }
        self.walk
            .reset(query.odds, query.held, exact_files(head.files()));
        self.query = *query;
        self.begun = false;
        true
    }

    /// Begins the walk over the nodes, if none has come. False comes if and only if sketches may not be asked about the board.
    fn begin_nodes(&mut self) -> bool
        requires { self.old.setting ≡ setting_of self.old.sketched.query self.old.sketched.exact self.old.sketched.prices }
        ensures begun { OnTrue result (HasBegun self.old self.new) }
        ensures refused { OnFalse result ((self.old.sketched.nodes ≡ None) × (IsRoot self.old.sketched.query.odds self.old.sketched.query.board → ⊥)) }
        ensures kept { OnFalse result (self.new ≡ self.old) }
    {
        if self.begun {
            return true;
        }
        if !is_root(&self.query.board, self.query.odds) {
            return false;
        }
        let Some(sketch) = sketch_of(&self.query.board) else {
            unreachable!()
        };
        self.walk.begin(sketch);
        self.begun = true;
        true
    }

    /// Walks over a line of a node or of marks, which may come next.
    fn take_node(&mut self, number: u32, line: &SketchLine) -> Option<FirstFault>
        requires setting { self.old.setting ≡ setting_of self.old.sketched.query self.old.sketched.exact self.old.sketched.prices }
        requires known { (p : PriceList) → Contains self.old.sketched.prices p → IsTrue (are_prices p) }
        requires placed { may_come (opened_in self.old.sketched.nodes) (frames_in self.old.sketched self.old.sketched.nodes) (line_of line.now) ≡ true }
        ensures takes { TakesNode result self.old self.new number (line_of line.now) }
        ensures reading { self.new.reading ≡ self.old.reading }
        ensures setting { self.new.setting ≡ self.old.setting }
        ensures units { self.new.units ≡ self.old.units }
    {
        if !self.begin_nodes() {
            return Some(FirstFault::Unsupported {
                line: number,
                why: Why::Rule,
            });
        }
        match take_sketch_line(&mut self.walk, number, line) {
            Ok(()) => None,
            Err(fault) => Some(FirstFault::Unsupported {
                line: fault.line,
                why: fault.why,
            }),
        }
    }

    /// Takes a line of the sketch, with its end. None comes if it goes bad; else the first fault of the walk, if this line has it.
    #[inline(never)]
    pub(crate) fn take(&mut self, number: u32, line: &[u8]) -> Option<Option<FirstFault>>
        requires { IsReading self.old }
        ensures takes { Takes result self.old self.new number line.now }
        ensures units { self.new.units ≡ self.old.units }
        ensures few { IsSome result → self.new.reading.due.prices ≤ 64 }
        ensures reading { result ≡ Some None → is_over self.new.reading.due ≡ false → IsReading self.new }
    {
        let Some(item) = read_sketch_line(&mut self.due, line) else {
            return None;
        };
        match item {
            SketchItem::Prices(prices) => {
                let _ = prices.gates();
                let _ = self.walk.add_prices(&prices);
                Some(None)
            }
            SketchItem::Line(node) => Some(self.take_node(number, &node)),
        }
    }

    /// Takes a line of the sketch, with its end, if the walk has met a fault, and answers whether it is one that is due.
    #[inline(never)]
    pub(crate) fn count(&mut self, line: &[u8]) -> bool
        requires { self.old.reading.due.prices ≤ 64 }
        ensures step { MatchBool result ((i : AnItem) × (said (step self.old.reading) line.now ≡ Some (i, self.new.reading))) (said (step self.old.reading) line.now ≡ None) }
        ensures units { self.new.units ≡ self.old.units }
        ensures few { self.new.reading.due.prices ≤ 64 }
    {
        match read_sketch_line(&mut self.due, line) {
            Some(_) => true,
            None => false,
        }
    }

    /// No line of the sketch is due.
    pub(crate) fn is_over(&self) -> bool
        ensures { result ≡ is_over self.now.reading.due }
    {
        self.due.is_done()
    }

    /// Keeps the units up to the end of the sketch.
    pub(crate) fn close(&mut self)
        ensures { self.new.units ≡ self.old.reading.units }
    {
        self.units = self.due.units();
    }
}
