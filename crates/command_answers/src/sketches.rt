//! The lines of a sketch, written one by one in no memory.

ghost use Rattle.std.specs.Prelude.{◌≡◌, ◌≤◌, OnErr, OnOk, map, true};
ghost use Rattle.std.specs.Io.KnownBytes.{Appends};
ghost use Rattle.std.specs.List.{concat, list_all};
ghost use Rattle.cert_text.specs.Lines.{ended};
ghost use Rattle.cert_text.specs.Written.{line_texts, price_texts};
ghost use Rattle.price_text.specs.PriceTexts.{prices_text};
ghost use Rattle.sketch_body.specs.Bodies.{items_of, of_line};
ghost use Rattle.sketch_body.specs.Seen.{line_of};
ghost use Rattle.sketch_body.specs.Taken.{is_line};
ghost use Rattle.sketch_body.specs.Texts.{item_text};
ghost use Rattle.sketch_body.specs.Whole.{is_body};
ghost use Rattle.retro_ports.specs.Causes.{HasCause};
ghost use Rattle.retro_ports.specs.Ends.{TakesPrefix};

use arrayvec::ArrayVec;
use capture_prices::Prices;
use retro_ports::{Failed, Sink, write_all};
use sketch_body::{SketchBody, SketchLine, write_line, write_prices};

/// The line of prices.
fn price_line(prices: &Prices) -> ArrayVec<u8, 256>
    ensures { result.items ≡ ended (prices_text prices.now) }
{
    let mut text: ArrayVec<u8, 256> = ArrayVec::new();
    write_prices(prices, &mut text);
    text.push(b'\n');
    text
}

/// The line of a node or of marks.
fn node_line(prices: u8, line: &SketchLine) -> ArrayVec<u8, 256>
    requires few { prices ≤ 64 }
    requires known { is_line prices (line_of line.now) ≡ true }
    ensures { result.items ≡ ended (item_text (of_line (line_of line.now))) }
{
    let mut text: ArrayVec<u8, 256> = ArrayVec::new();
    write_line(prices, line, &mut text);
    text.push(b'\n');
    text
}

/// Writes the lines of prices.
fn write_price_lines<K: Sink>(sink: &mut K, prices: &[Prices]) -> Result<(), Failed>
    ensures ok { OnOk result (Appends (K.taken sink.old) (K.taken sink.new) (concat (price_texts prices.now))) }
    ensures failed { OnErr result (TakesPrefix (K.taken sink.old) (K.taken sink.new) (concat (price_texts prices.now))) }
    ensures cause { HasCause (K.faults sink.old) (K.faults sink.new) result }
{
    for price in prices {
        write_all(sink, price_line(price).as_slice())?;
    }
    Ok(())
}

/// Writes the lines of nodes and of marks.
fn write_node_lines<K: Sink>(sink: &mut K, prices: u8, lines: &[SketchLine]) -> Result<(), Failed>
    requires few { prices ≤ 64 }
    requires known { list_all (is_line prices) (map line_of lines.now) ≡ true }
    ensures ok { OnOk result (Appends (K.taken sink.old) (K.taken sink.new) (concat (line_texts lines.now))) }
    ensures failed { OnErr result (TakesPrefix (K.taken sink.old) (K.taken sink.new) (concat (line_texts lines.now))) }
    ensures cause { HasCause (K.faults sink.old) (K.faults sink.new) result }
{
    for line in lines {
        write_all(sink, node_line(prices, line).as_slice())?;
    }
    Ok(())
}

/// Writes the lines below the first of a sketch, which has a text.
pub(crate) fn write_sketch<K: Sink>(sink: &mut K, sketch: &SketchBody) -> Result<(), Failed>
    requires { is_body sketch.now ≡ true }
    ensures ok { OnOk result (Appends (K.taken sink.old) (K.taken sink.new) (concat (map ended (map item_text (items_of sketch.now))))) }
    ensures failed { OnErr result (TakesPrefix (K.taken sink.old) (K.taken sink.new) (concat (map ended (map item_text (items_of sketch.now))))) }
    ensures cause { HasCause (K.faults sink.old) (K.faults sink.new) result }
{
    let prices = sketch.prices();
    let lines = sketch.lines();
    write_price_lines(sink, prices)?;
    write_node_lines(sink, prices.len() as u8, lines)
}
