//! Ways of pawns who go to another file with each step.

ghost use Rattle.std.specs.Prelude.{◌≡◌, ◌==◌, ◌||◌, ◌<◌, ◌≤◌, ◌+◌, ◌++◌, [], IfOk, IsTrue, cond};
ghost use Rattle.board_base.specs.Attacks.{files_apart, on_the_way, toward};
ghost use Rattle.board_base.specs.Texts.{square_text};
ghost use Rattle.capture_prices.specs.Prices.{class_of};
ghost use Rattle.ledger_lines.specs.Slants.{has_slant, has_slant_on, is_slant, is_slant_from, is_slant_from_on, is_slant_on, slant_words, tells_class, tells_way, way_words};

use crate::among::number_in;
use board_base::{Square, SquareSet, files_between, ranks_between};
use ledger_facts::class_of;
use prose_words::{push_square, say};
use std::alloc::AllocError;

fn either(first: bool, second: bool) -> bool
    ensures { result ≡ (first || second) }
{
    first || second
}

/// Whether a pawn goes to another file with each step from the first square to the second.
fn is_slant(h: Square, s: Square) -> bool
    ensures { result ≡ is_slant h s }
{
    let files = files_between(h, s);
    files > 0 && files == ranks_between(h, s)
}

/// Whether a pawn goes so to the second square from the first, which is one of the set.
fn is_slant_from(homes: SquareSet, s: Square, h: Square) -> bool
    ensures { result ≡ is_slant_from homes s h }
{
    homes.has(h) && is_slant(h, s)
}

/// Whether it goes so from some square of the set.
fn has_slant(homes: SquareSet, s: Square) -> bool
    ensures { result ≡ has_slant homes s }
{
    let mut found = false;
    for i in 0..64 {
        let here = is_slant_from(homes, s, Square::known(i));
        found = either(found, here);
    }
    found
}

/// Whether the set has one square, and a pawn goes from there to another file with each step to the other square.
pub fn tells_way(homes: SquareSet, s: Square) -> bool
    ensures { result ≡ tells_way homes s }
{
    number_in(homes) == 1 && has_slant(homes, s)
}

/// The number `k` steps on the way from `a` to `b`.
#[tactic(auto, unfolding(board_base::specs::Attacks::toward))]
fn step_toward(a: u8, b: u8, k: u8) -> u8
    requires few { a + k < 256 }
    ensures value { result ≡ toward a b k }
    ensures bound { result ≤ a + k }
{
    if a < b {
        a + k
    } else if b < a {
        a.saturating_sub(k)
    } else {
        a
    }
}

/// The square `k` steps on the way from `h` to `s`.
#[tactic(auto, unfolding(board_base::specs::Attacks::on_the_way, board_base::specs::Attacks::toward, board_base::specs::Attacks::distance))]
fn on_the_way(h: Square, s: Square, k: u8) -> Square
    requires slant { IsTrue (is_slant h s) }
    requires few { k ≤ files_apart h s }
    ensures { result ≡ on_the_way h s k }
{
    let rank = step_toward(h.rank(), s.rank(), k);
    let file = step_toward(h.file(), s.file(), k);
    Square::known(8 * rank + file)
}

/// Whether the square `k + 1` steps on this way is of the class.
fn is_step_on(class: u8, h: Square, s: Square, k: u8) -> bool
    requires slant { IsTrue (is_slant h s) }
    requires few { k < files_apart h s }
    requires small { k < 8 }
    ensures { result ≡ (class_of (on_the_way h s (k + 1)) == class) }
{
    class_of(on_the_way(h, s, k + 1)) == class
}

/// Whether one of them is.
fn is_slant_on(class: u8, h: Square, s: Square) -> bool
    requires { IsTrue (is_slant h s) }
    ensures { result ≡ is_slant_on class h s }
{
    let mut found = false;
    for k in 0..files_between(h, s) {
        let here = is_step_on(class, h, s, k);
        found = either(found, here);
    }
    found
}

/// Whether a pawn goes so to the second square from the first, which is one of the set, over a square of the class.
fn is_slant_from_on(class: u8, homes: SquareSet, s: Square, h: Square) -> bool
    ensures { result ≡ is_slant_from_on class homes s h }
{
    is_slant_from(homes, s, h) && is_slant_on(class, h, s)
}

/// Whether it goes so from some square of the set.
fn has_slant_on(class: u8, homes: SquareSet, s: Square) -> bool
    ensures { result ≡ has_slant_on class homes s }
{
    let mut found = false;
    for i in 0..64 {
        let here = is_slant_from_on(class, homes, s, Square::known(i));
        found = either(found, here);
    }
    found
}

/// Whether the set has one square, and a pawn goes from there to another file with each step to the other square, over a square of this
/// class: twice the file, from 0 for a, and one more if it is light.
pub fn tells_class(class: u8, homes: SquareSet, s: Square) -> bool
    ensures { result ≡ tells_class class homes s }
{
    number_in(homes) == 1 && has_slant_on(class, homes, s)
}

/// Adds one square of the way behind some letters.
fn push_step(
    before: &[u8],
    h: Square,
    s: Square,
    k: u8,
    out: &mut Vec<u8>,
) -> Result<(), AllocError>
    requires slant { IsTrue (is_slant h s) }
    requires few { k < files_apart h s }
    requires small { k < 8 }
    ensures { IfOk result (λ _. out.new.items ≡ out.old.items ++ (before.now ++ square_text (on_the_way h s (k + 1)))) }
{
    say(before, out)?;
    push_square(on_the_way(h, s, k + 1), out)
}

/// Adds each.
fn push_slant(before: &[u8], h: Square, s: Square, out: &mut Vec<u8>) -> Result<(), AllocError>
    requires { IsTrue (is_slant h s) }
    ensures { IfOk result (λ _. out.new.items ≡ out.old.items ++ slant_words before.now h s) }
{
    for k in 0..files_between(h, s) {
        push_step(before, h, s, k, out)?;
    }
    Ok(())
}

/// Adds them if the first square is one of the set, and a pawn goes from there so.
fn push_slant_from(
    before: &[u8],
    homes: SquareSet,
    h: Square,
    s: Square,
    out: &mut Vec<u8>,
) -> Result<(), AllocError>
    ensures { IfOk result (λ _. out.new.items ≡ out.old.items ++ cond (is_slant_from homes s h) (slant_words before.now h s) []) }
{
    if !is_slant_from(homes, s, h) {
        return Ok(());
    }
    push_slant(before, h, s, out)
}

/// Adds the squares, each behind some letters, on which a pawn captures who goes to another file with each step from a square of the set
/// to the other square.
pub fn push_way(
    before: &[u8],
    homes: SquareSet,
    s: Square,
    out: &mut Vec<u8>,
) -> Result<(), AllocError>
    ensures { IfOk result (λ _. out.new.items ≡ out.old.items ++ way_words before.now homes s) }
{
    for i in 0..64 {
        push_slant_from(before, homes, Square::known(i), s, out)?;
    }
    Ok(())
}
