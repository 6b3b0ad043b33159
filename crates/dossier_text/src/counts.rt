ghost use Rattle.std.specs.Prelude.{ℕ, ◌≡◌, ◌≤◌, [], MatchOption};
ghost use Rattle.cert_text.specs.Lines.{said};
ghost use Rattle.dossier_text.specs.Dossiers.{count_line};
ghost use Rattle.dossier_text.specs.HeadReading.{count_of, size_of, up_to_64_mi};

use arrayvec::ArrayVec;
use cert_text::without_end;
use fen_text::{push_text, read_decimal};
use itoa::Buffer;

fn up_to_64_mi(number: u32) -> Option<u32>
    ensures { result ≡ up_to_64_mi number }
{
    if number <= 67_108_864 {
        Some(number)
    } else {
        None
    }
}

#[tactic(auto, unfolding(crate::specs::HeadReading::size_of))]
fn read_size(text: &[u8]) -> Option<u32>
    ensures { result ≡ size_of text.now }
{
    if text.starts_with(b"0") {
        return None;
    }
    match read_decimal(text) {
        Ok(number) => up_to_64_mi(number),
        Err(_) => None,
    }
}

#[tactic(auto, unfolding(crate::specs::HeadReading::count_of))]
fn read_count(text: &[u8]) -> Option<u32>
    ensures { result ≡ count_of text.now }
{
    if text.starts_with(b"part ") {
        read_size(&text[5..])
    } else {
        None
    }
}

#[tactic(auto, unfolding(cert_text::specs::Lines::said))]
fn read_ended_count(line: &[u8]) -> Option<u32>
    ensures { result ≡ said count_of line.now }
{
    read_count(without_end(line)?)
}

/// Reads the line that says how many bytes the part below it has, with its end: `part`, a space and a number from 1 to 67108864,
/// which is 64 Mi, with no leading zero. None comes if and only if the line is no such. It takes no memory.
pub fn read_count_line(line: &[u8]) -> Option<u32>
    ensures { MatchOption result ((n : ℕ) → 1 ≤ n → n ≤ 67108864 → line.now ≡ count_line n → ⊥) (λ n. (line.now ≡ count_line n) × (1 ≤ n) × (n ≤ 67108864)) }
{
    read_ended_count(line)
}

/// Writes the one line that says that a part has so many bytes, with its end, which `read_count_line` reads as this number. `out` is
/// empty before, and the number is from 1 to 67108864, which is 64 Mi. It takes no memory.
pub fn write_count_line(n: u32, out: &mut ArrayVec<u8, 16>)
    requires empty { out.old.items ≡ [] }
    requires some { 1 ≤ n }
    requires few { n ≤ 67_108_864 }
    ensures { out.new.items ≡ count_line n }
{
    let mut buffer = Buffer::new();
    push_text(b"part ", out);
    push_text(buffer.format(n).as_bytes(), out);
    out.push(b'\n');
}
