ghost use Rattle.std.specs.Prelude.{◌≡◌, ◌≤◌, IfSome};
ghost use Rattle.sketch_text.specs.Nodes.{number_within, within};

use fen_text::read_number;

fn within(least: u32, most: u32, number: u32) -> Option<u32>
    ensures value { result ≡ within least most number }
    ensures range { IfSome result (λ n. (least ≤ n) × (n ≤ most)) }
{
    if least <= number && number <= most {
        Some(number)
    } else {
        None
    }
}

/// Reads a number from the least to the most, in decimal digits, the first of which is 0 only if there is no other.
#[tactic(auto, unfolding(crate::specs::Nodes::number_within))]
pub(crate) fn read_within(least: u32, most: u32, text: &[u8]) -> Option<u32>
    ensures value { result ≡ number_within least most text.now }
    ensures range { IfSome result (λ n. (least ≤ n) × (n ≤ most)) }
{
    match read_number(text) {
        Some(number) => within(least, most, number),
        None => None,
    }
}
