ghost use Rattle.std.specs.Prelude.{◌≡◌, ◌≤◌, [], IsTrue, length};
ghost use Rattle.sketch_body.specs.Bodies.{Says, of_line, of_prices};
ghost use Rattle.sketch_body.specs.Seen.{line_of};
ghost use Rattle.sketch_body.specs.Texts.{is_item, item_text};

use crate::lines::SketchLine;
use arrayvec::ArrayVec;
use capture_prices::Prices;
use price_text::push_prices;
use sketch_text::{write_marks, write_sketch_node};

/// Writes the one text of a line of prices, without its end, of at most 195 bytes. `out` is empty before. What is written is read as these
/// prices in a sketch with any number of lines of prices.
pub fn write_prices(prices: &Prices, out: &mut ArrayVec<u8, 256>)
    requires { out.old.items ≡ [] }
    ensures text { out.new.items ≡ item_text (of_prices prices.now) }
    ensures short { length out.new.items ≤ 195 }
{
    push_prices(prices, out);
}

/// Writes the one text of a line of a node or of marks, without its end, of at most 103 bytes. `out` is empty before, and the line is one of
/// a sketch that has so many lines of prices, at most 64. What is written is read as this line there.
pub fn write_line(prices: u8, line: &SketchLine, out: &mut ArrayVec<u8, 256>)
    requires empty { out.old.items ≡ [] }
    requires prices { prices ≤ 64 }
    requires known { IsTrue (is_item prices (of_line (line_of line.now))) }
    ensures text { out.new.items ≡ item_text (of_line (line_of line.now)) }
    ensures short { length out.new.items ≤ 103 }
    ensures read { Says prices out.new.items (of_line (line_of line.now)) }
{
    match line {
        SketchLine::Node(node) => write_sketch_node(node, out),
        SketchLine::Marks(marks) => write_marks(prices, marks, out),
    }
}
