ghost use Rattle.std.specs.Prelude.{◌≡◌, ◌+◌, ◌≤◌, ◌++◌, IsTrue, length, map};
ghost use Rattle.std.specs.Fmt.{decimal};
ghost use Rattle.std.specs.List.{list_all};
ghost use Rattle.capture_prices.specs.Prices.{are_ascending, is_low};
ghost use Rattle.price_text.specs.PriceTexts.{gate_words, prices_text};
ghost use Rattle.price_text.specs.Spaced.{with_spaces_before, with_spaces_behind};

use arrayvec::ArrayVec;
use board_base::Colour;
use capture_prices::{Gate, Prices};
use fen_text::push_text;
use itoa::Buffer;

/// Puts the text of a number of at most 96 after the others.
fn push_price(number: u8, out: &mut ArrayVec<u8, 256>)
    requires room { length out.old.items + 2 ≤ 256 }
    requires low { number ≤ 96 }
    ensures text { out.new.items ≡ out.old.items ++ decimal number }
    ensures short { length out.new.items ≤ length out.old.items + 2 }
{
    let mut buffer = Buffer::new();
    push_text(buffer.format(number).as_bytes(), out);
}

/// Puts the texts of a side's prices after the others, with a space behind each.
fn push_takes(takes: &[u8; 16], out: &mut ArrayVec<u8, 256>)
    requires room { length out.old.items + 48 ≤ 256 }
    requires low { IsTrue (list_all is_low takes.now) }
    ensures text { out.new.items ≡ out.old.items ++ with_spaces_behind (map decimal takes.now) }
    ensures short { length out.new.items ≤ length out.old.items + 48 }
{
    for take in takes {
        push_price(*take, out);
        out.push(b' ');
    }
}

/// Puts the texts of gates after the others, with a space before each word.
fn push_gates(gates: &[Gate], out: &mut ArrayVec<u8, 256>)
    requires room { length out.old.items + 96 ≤ 256 }
    requires few { length gates.now ≤ 16 }
    requires ascending { IsTrue (are_ascending 0 gates.now) }
    ensures text { out.new.items ≡ out.old.items ++ with_spaces_before (gate_words gates.now) }
    ensures short { length out.new.items ≤ length out.old.items + 96 }
{
    for gate in gates {
        out.push(b' ');
        out.push(b'a' + gate.square % 8);
        out.push(b'1' + gate.square / 8);
        out.push(b' ');
        push_price(gate.toll, out);
    }
}

/// Puts the one text of prices and gates, of at most 195 bytes, after what stands in `out`.
pub fn push_prices(prices: &Prices, out: &mut ArrayVec<u8, 256>)
    requires { length out.old.items + 195 ≤ 256 }
    ensures text { out.new.items ≡ out.old.items ++ prices_text prices.now }
    ensures short { length out.new.items ≤ length out.old.items + 195 }
{
    push_takes(prices.takes(Colour::White), out);
    out.push(b'/');
    out.push(b' ');
    push_takes(prices.takes(Colour::Black), out);
    out.push(b'/');
    push_gates(prices.gates(), out);
}
