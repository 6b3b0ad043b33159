ghost use Rattle.std.specs.Prelude.{◌≡◌, ◌<◌, ◌==◌, ◌&&◌, ◌||◌, ℕ, Bool, List, [], slice_index, slice_index_or};
ghost use Rattle.board_base.specs.Board.{is_in, opponent};
ghost use Rattle.board_base.specs.declared.men.Colour.{Colour as AColour};
ghost use Rattle.cage_rules.specs.Sets.{squares_that};
ghost use Rattle.men_fates.specs.Fates.{may_fall};
ghost use Rattle.capture_prices.specs.Prices.{PriceList, class_of, takes as takes_of};
ghost use Rattle.balance_rule.specs.Costs.{greatest_on, most_earned};

use board_base::SquareSet;

/// The squares of each class.
const CLASSES: [u64; 16] = [
    0x0001_0001_0001_0001,
    0x0100_0100_0100_0100,
    0x0200_0200_0200_0200,
    0x0002_0002_0002_0002,
    0x0004_0004_0004_0004,
    0x0400_0400_0400_0400,
    0x0800_0800_0800_0800,
    0x0008_0008_0008_0008,
    0x0010_0010_0010_0010,
    0x1000_1000_1000_1000,
    0x2000_2000_2000_2000,
    0x0020_0020_0020_0020,
    0x0040_0040_0040_0040,
    0x4000_4000_4000_4000,
    0x8000_8000_8000_8000,
    0x0080_0080_0080_0080,
];

/// The squares of both sets.
pub fn both(a: SquareSet, b: SquareSet) -> SquareSet
    ensures { (s : ℕ) → s < 64 → is_in result s ≡ (is_in a s && is_in b s) }
{
    SquareSet::from_bits(a.bits() & b.bits())
}

/// The squares of either set.
pub(crate) fn either(a: SquareSet, b: SquareSet) -> SquareSet
    ensures { (s : ℕ) → s < 64 → is_in result s ≡ (is_in a s || is_in b s) }
{
    SquareSet::from_bits(a.bits() | b.bits())
}

/// The squares of a class.
pub fn squares_of_class(class: usize) -> SquareSet
    requires { class < 16 }
    ensures { (s : ℕ) → s < 64 → is_in result s ≡ (class_of s == class) }
{
    SquareSet::from_bits(CLASSES[class])
}

/// The greatest of these numbers of classes that have a square in the set, and 0 if it has none.
pub(crate) fn most_on(takes: &[u8; 16], within: SquareSet) -> u16
    ensures { result ≡ greatest_on (is_in within) (λ s. slice_index takes.now (class_of s)) }
{
    let mut most = 0;
    for class in 0..16 {
        if both(within, squares_of_class(class)).next_from(0) < 64 {
            most = takes[class].max(most);
        }
    }
    most as u16
}

/// What a man who is taken within a set earns at most, if he is exposed on another and these are the enemy's prices.
fn earned_within(exposed: SquareSet, takes: &[u8; 16], within: SquareSet) -> u16
    ensures { (p : PriceList) (frozen : List Bool) (c : AColour) → exposed ≡ squares_that (may_fall frozen c) → takes.now ≡ takes_of p (opponent c) → result ≡ most_earned p frozen c (is_in within) }
{
    most_on(takes, both(within, exposed))
}

/// What a man who is taken within each of eight sets earns at most, if he is exposed on another and these are the enemy's prices.
pub fn earned_in_each(exposed: SquareSet, takes: &[u8; 16], sets: &[SquareSet; 8]) -> [u16; 8]
    ensures { (p : PriceList) (frozen : List Bool) (c : AColour) → exposed ≡ squares_that (may_fall frozen c) → takes.now ≡ takes_of p (opponent c) → (f : ℕ) → f < 8 → slice_index result f ≡ most_earned p frozen c (is_in (slice_index_or sets.now f [])) }
{
    let mut earned = [0; 8];
    for f in 0..8 {
        earned[f] = earned_within(exposed, takes, sets[f]);
    }
    earned
}
