ghost use Rattle.std.specs.Prelude.{◌≡◌, ◌≤◌, map};
ghost use Rattle.std.specs.List.{sum_by};
ghost use Rattle.sketch_body.specs.Bodies.{dearness, units_of_line};
ghost use Rattle.sketch_body.specs.Due.{announced, charge};
ghost use Rattle.sketch_body.specs.Seen.{item_of, line_of};
ghost use Rattle.sketch_body.specs.Whole.{left_of};

use crate::lines::{SketchItem, SketchLine};
use sketch_text::{End, SketchNode};

/// How many nodes a node has below it.
pub(crate) fn announced(end: &End) -> u16
    ensures { result ≡ announced end.now }
{
    match end {
        End::Void | End::Closed(_) => 0,
        End::Steps(count) => *count,
        End::Split(_) => 3,
    }
}

fn dearness(end: &End) -> u32
    ensures { result ≡ dearness end.now }
{
    match end {
        End::Void | End::Closed(_) => 0,
        End::Steps(_) | End::Split(_) => 32,
    }
}

fn charge_of_node(node: &SketchNode) -> u32
    ensures value { result ≡ charge (item_of (SketchItem.Line (SketchLine.Node node.now))) }
    ensures low { result ≤ 65_822 }
{
    u32::from(node.marks) + (dearness(&node.end) + u32::from(announced(&node.end)))
}

/// The units that become certain with this line.
pub(crate) fn charge(item: &SketchItem) -> u32
    ensures value { result ≡ charge (item_of item.now) }
    ensures low { result ≤ 65_822 }
{
    match item {
        SketchItem::Prices(_) => 0,
        SketchItem::Line(SketchLine::Node(node)) => charge_of_node(node),
        SketchItem::Line(SketchLine::Marks(marks)) => {
            (marks.figures().len() as u32).saturating_sub(1)
        }
    }
}

fn units_of(line: &SketchLine) -> u32
    ensures value { result ≡ units_of_line (line_of line.now) }
    ensures low { result ≤ 33 }
{
    match line {
        SketchLine::Node(node) => 1 + dearness(&node.end),
        SketchLine::Marks(marks) => marks.figures().len() as u32,
    }
}

/// How many of so many units are left behind those of these lines, if they have no more.
pub(crate) fn lines_left(lines: &[SketchLine], left: u32) -> Option<u32>
    ensures { result ≡ left_of left (sum_by units_of_line (map line_of lines.now)) }
{
    let mut rest = left;
    for line in lines {
        let units = units_of(line);
        if units > rest {
            return None;
        }
        rest -= units;
    }
    Some(rest)
}
