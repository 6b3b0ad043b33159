ghost use Rattle.std.specs.Prelude.{◌≡◌, ◌≤◌, [], Some, length};
ghost use Rattle.query_base.specs.Asked.{IsShortClock};
ghost use Rattle.fen_text.specs.ClockLines.{clock_line, clock_of, clock_text};

use crate::numbers::read_number;
use arrayvec::ArrayVec;
use itoa::Buffer;

fn clock_of(number: u32) -> Option<u16>
    ensures clock { result ≡ clock_of number }
    ensures short { IsShortClock result }
{
    if number <= 9_999 {
        Some(number as u16)
    } else {
        None
    }
}

/// Reads a clock line, without its end: `clock`, a space and a number from 0 to 9999 with no leading zero. None comes if and only if
/// the line is no such. It takes no memory.
#[tactic(auto, unfolding(crate::specs::ClockLines::clock_line))]
pub fn read_clock(line: &[u8]) -> Option<u16>
    ensures clock { result ≡ clock_line line.now }
    ensures short { IsShortClock result }
{
    if !line.starts_with(b"clock ") {
        return None;
    }
    match read_number(&line[6..]) {
        Some(number) => clock_of(number),
        None => None,
    }
}

/// Writes the one line of the clock, without its end, which `read_clock` reads as this clock. `out` is empty before, and the clock is
/// at most 9999. It takes no memory.
pub fn write_clock(n: u16, out: &mut ArrayVec<u8, 32>)
    requires empty { out.old.items ≡ [] }
    requires short { n ≤ 9_999 }
    ensures text { out.new.items ≡ clock_text n }
    ensures size { length out.new.items ≤ 10 }
    ensures read { clock_line out.new.items ≡ Some n }
{
    let mut buffer = Buffer::new();
    let _ = out.try_extend_from_slice(b"clock ");
    let _ = out.try_extend_from_slice(buffer.format(n).as_bytes());
}
