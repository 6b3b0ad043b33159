ghost use Rattle.std.specs.Prelude.{◌≡◌, ◌≤◌, ◌++◌, OnOk, map, true};
ghost use Rattle.std.specs.List.{concat, list_all};
ghost use Rattle.sketch_body.specs.Bodies.{items_of};
ghost use Rattle.sketch_body.specs.Seen.{line_of};
ghost use Rattle.sketch_body.specs.Texts.{item_text};
ghost use Rattle.sketch_body.specs.Whole.{is_body};
ghost use Rattle.sketch_body.specs.Taken.{is_line};
ghost use Rattle.cert_text.specs.Lines.{ended};
ghost use Rattle.cert_text.specs.Written.{line_texts, price_texts};

use crate::cert_writing::push_ended;
use arrayvec::ArrayVec;
use capture_prices::Prices;
use sketch_body::{SketchBody, SketchLine, write_line, write_prices};
use std::alloc::AllocError;

/// Puts lines of prices after the others.
fn push_all_prices(prices: &[Prices], out: &mut Vec<u8>) -> Result<(), AllocError>
    ensures { OnOk result (out.new.items ≡ out.old.items ++ concat (price_texts prices.now)) }
{
    for price in prices {
        let mut text: ArrayVec<u8, 256> = ArrayVec::new();
        write_prices(price, &mut text);
        push_ended(text.as_slice(), out)?;
    }
    Ok(())
}

/// Puts lines of nodes and of marks after the others.
fn push_lines(prices: u8, lines: &[SketchLine], out: &mut Vec<u8>) -> Result<(), AllocError>
    requires few { prices ≤ 64 }
    requires known { list_all (is_line prices) (map line_of lines.now) ≡ true }
    ensures { OnOk result (out.new.items ≡ out.old.items ++ concat (line_texts lines.now)) }
{
    for line in lines {
        let mut text: ArrayVec<u8, 256> = ArrayVec::new();
        write_line(prices, line, &mut text);
        push_ended(text.as_slice(), out)?;
    }
    Ok(())
}

/// Puts the lines below the first of a sketch after the others.
#[inline(never)]
pub(crate) fn push_sketch(body: &SketchBody, out: &mut Vec<u8>) -> Result<(), AllocError>
    requires { is_body body.now ≡ true }
    ensures { OnOk result (out.new.items ≡ out.old.items ++ concat (map ended (map item_text (items_of body.now)))) }
{
    let prices = body.prices();
    push_all_prices(prices, out)?;
    push_lines(prices.len() as u8, body.lines(), out)?;
    Ok(())
}
