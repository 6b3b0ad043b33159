ghost use Rattle.std.specs.Prelude.{◌≡◌};
ghost use Rattle.std.specs.Option.{option_map};
ghost use Rattle.sketch_body.specs.Due.{read_as};
ghost use Rattle.sketch_body.specs.Seen.{item_of};

use capture_prices::Prices;
use price_text::read_prices;
use sketch_text::{MarkLine, SketchNode, read_marks, read_sketch_node};

/// A line of a sketch behind its prices.
#[derive(Drop)]
pub enum SketchLine {
    /// That of a node.
    Node(SketchNode),
    /// A line of marks.
    Marks(MarkLine),
}

/// A line of a sketch below its first.
#[derive(Drop)]
pub enum SketchItem {
    /// Prices.
    Prices(Prices),
    /// A line of a node, or of marks.
    Line(SketchLine),
}

/// Reads the next line of a sketch with so many lines of prices, if so many of them are due before nodes and marks, and so many lines of
/// marks before nodes.
pub(crate) fn read_item(prices: u8, wanted: u8, marks: u8, text: &[u8]) -> Option<SketchItem>
    ensures { option_map item_of result ≡ read_as prices wanted marks text.now }
{
    if wanted > 0 {
        return match read_prices(text) {
            Some(prices) => Some(SketchItem::Prices(prices)),
            None => None,
        };
    }
    if marks > 0 {
        return match read_marks(prices, text) {
            Some(marks) => Some(SketchItem::Line(SketchLine::Marks(marks))),
            None => None,
        };
    }
    match read_sketch_node(prices, text) {
        Some(node) => Some(SketchItem::Line(SketchLine::Node(node))),
        None => None,
    }
}
