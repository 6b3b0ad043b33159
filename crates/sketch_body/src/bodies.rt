ghost use Rattle.std.specs.Prelude.{◌≡◌, ◌≤◌, [], IfOk, OnErr, OnOk, length, map};
ghost use Rattle.sketch_body.specs.Bodies.{head_of, units_of};
ghost use Rattle.sketch_body.specs.Whole.{is_body, left_of};
ghost use Rattle.sketch_body.specs.Seen.{item_of, line_of, with_item};

use crate::charges::lines_left;
use crate::due::SketchDue;
use crate::lines::{SketchItem, SketchLine};
use crate::wholes::{are_all_priced, are_files};
use arrayvec::ArrayVec;
use board_base::Memory;
use capture_prices::Prices;
use sketch_text::{MarkLine, SketchHead};
use std::alloc::{AllocError, Global};
use std::marker::Model;

fn copied_line(line: &SketchLine) -> SketchLine
    ensures { line_of result ≡ line_of line.now }
{
    match line {
        SketchLine::Node(node) => SketchLine::Node(*node),
        SketchLine::Marks(marks) => {
            let Some(copy) = MarkLine::new(marks.by(), marks.figures()) else {
                unreachable!()
            };
            SketchLine::Marks(copy)
        }
    }
}

/// Copies of the lines.
fn copied_lines(alloc: Global, lines: &[SketchLine]) -> Result<Vec<SketchLine>, AllocError>
    ensures { IfOk result (λ copies. map line_of copies.items ≡ map line_of lines.now) }
{
    let mut copies = Vec::new(alloc);
    for line in lines {
        copies.push(copied_line(line))?;
    }
    Ok(copies)
}

/// What a sketch says, in memory: the exact files, the lines of prices, and those of nodes and of marks.
#[derive(Drop)]
pub struct SketchBody {
    files: ArrayVec<u8, 8>,
    prices: Vec<Prices>,
    lines: Vec<SketchLine>,
}

impl Model for SketchBody {
    ghost use Rattle.sketch_body.specs.Bodies.{Body};

    ghost Value = { Body };

    ghost use Rattle.std.specs.Prelude.{map};
    ghost use Rattle.sketch_body.specs.Seen.{line_of};

    ghost view = { λ b. record { files = b.files.items; prices = b.prices.items; lines = map line_of b.lines.items } };
}

impl SketchBody {
    /// A sketch with the exact files of this first line, and no other line yet. This takes no memory; `push` takes what it needs from
    /// `alloc`.
    pub fn new(alloc: Global, head: &SketchHead) -> SketchBody
        ensures { result ≡ record { files = head.now.files; prices = []; lines = [] } }
    {
        let Ok(files) = ArrayVec::try_from(head.files()) else {
            unreachable!()
        };
        SketchBody {
            files,
            prices: Vec::new(alloc),
            lines: Vec::new(alloc),
        }
    }

    /// The numbers of the exact files, from 0 for a to 7 for h.
    pub fn files(&self) -> &[u8]
        ensures { result.now ≡ self.now.files }
    {
        self.files.as_slice()
    }

    /// The lines of prices.
    pub fn prices(&self) -> &[Prices]
        ensures { result.now ≡ self.now.prices }
    {
        self.prices.as_slice()
    }

    /// The lines of nodes and of marks.
    pub fn lines(&self) -> &[SketchLine]
        ensures { map line_of result.now ≡ self.now.lines }
    {
        self.lines.as_slice()
    }

    /// Puts a line after the others. After `Memory` the sketch is unchanged, and the line is dropped.
    pub fn push(&mut self, item: SketchItem) -> Result<(), Memory>
        ensures ok { OnOk result (self.new ≡ with_item self.old (item_of item)) }
        ensures err { OnErr result (self.new ≡ self.old) }
    {
        match item {
            SketchItem::Prices(prices) => match self.prices.push(prices) {
                Ok(()) => Ok(()),
                Err(_) => Err(Memory),
            },
            SketchItem::Line(line) => match self.lines.push(line) {
                Ok(()) => Ok(()),
                Err(_) => Err(Memory),
            },
        }
    }

    /// A copy of the sketch.
    pub fn copied(&self, alloc: Global) -> Result<SketchBody, Memory>
        ensures { IfOk result (λ copy. copy ≡ self.now) }
    {
        let Ok(files) = ArrayVec::try_from(self.files.as_slice()) else {
            unreachable!()
        };
        match (
            Vec::from_slice(alloc, self.prices.as_slice()),
            copied_lines(alloc, self.lines.as_slice()),
        ) {
            (Ok(prices), Ok(lines)) => Ok(SketchBody {
                files,
                prices,
                lines,
            }),
            _ => Err(Memory),
        }
    }

    /// What the first line says, if there are at most 64 lines of prices.
    pub fn head(&self) -> SketchHead
        requires { length self.now.prices ≤ 64 }
        ensures { result ≡ head_of self.now }
    {
        let Some(head) = SketchHead::new(self.prices.len() as u8, self.files.as_slice()) else {
            unreachable!()
        };
        head
    }

    /// Whether the sketch has texts: there are at most 64 lines of prices, the files ascend, and the lines of nodes and of marks are those
    /// of a tree, with the first node, and no other, labelled `now`, at most 64 nodes one below another under it, and numbers in range.
    pub fn has_text(&self) -> bool
        ensures { result ≡ is_body self.now }
    {
        let prices = self.prices.as_slice();
        if prices.len() > 64 {
            return false;
        }
        if !are_files(self.files.as_slice()) {
            return false;
        }
        if !are_all_priced(prices) {
            return false;
        }
        SketchDue::behind_prices(prices.len() as u8).takes_all(self.lines.as_slice())
    }

    /// How many of so many units are left behind those of this sketch. None comes if and only if it has more.
    pub fn units_left(&self, left: u32) -> Option<u32>
        ensures { result ≡ left_of left (units_of self.now) }
    {
        let prices = self.prices.len();
        if prices > left as usize {
            return None;
        }
        lines_left(self.lines.as_slice(), left - prices as u32)
    }
}
