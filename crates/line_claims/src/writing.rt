ghost use Rattle.std.specs.Prelude.{◌≡◌, ◌≤◌, ◌+◌, ◌*◌, ◌++◌, ◌∷◌, [], length, IsTrue, Some};
ghost use Rattle.std.specs.List.{All, list_all};
ghost use Rattle.board_base.specs.Texts.{unmove_text};
ghost use Rattle.line_claims.specs.Lines.{HasLine, has_text, line_claim_of, line_claim_text, steps_text};
ghost use Rattle.line_claims.specs.Readable.{IsReadable};

use crate::claims::LineClaim;
use arrayvec::ArrayVec;
use board_base::{Unmove, write_unmove};
use fen_text::{castle_letter, push_text};

fn push_step(step: &Unmove, out: &mut ArrayVec<u8, 160>)
    requires room { length out.old.items + 8 ≤ 160 }
    requires text { IsTrue (has_text step.now) }
    ensures text { out.new.items ≡ out.old.items ++ unmove_text step.now }
    ensures short { length out.new.items ≤ length out.old.items + 8 }
    ensures read { IsReadable step.now }
{
    let mut text: ArrayVec<u8, 8> = ArrayVec::new();
    write_unmove(step, &mut text);
    push_text(text.as_slice(), out);
}

/// Writes a space and the step.
fn push_next(step: &Unmove, out: &mut ArrayVec<u8, 160>)
    requires room { length out.old.items + 9 ≤ 160 }
    requires text { IsTrue (has_text step.now) }
    ensures text { out.new.items ≡ out.old.items ++ 32 ∷ unmove_text step.now }
    ensures short { length out.new.items ≤ length out.old.items + 9 }
    ensures read { IsReadable step.now }
{
    out.push(b' ');
    push_step(step, out);
}

/// Writes the steps, with a space between two.
fn push_steps(steps: &[Unmove], out: &mut ArrayVec<u8, 160>)
    requires some { 1 ≤ length steps.now }
    requires room { length out.old.items + 9 * length steps.now ≤ 160 }
    requires texts { IsTrue (list_all has_text steps.now) }
    ensures text { out.new.items ≡ out.old.items ++ steps_text steps.now }
    ensures read { All IsReadable steps.now }
{
    push_step(&steps[0], out);
    for step in &steps[1..] {
        push_next(step, out);
    }
}

/// Writes the one line of the claim, without its end, which `read_line_claim` reads as this claim. `out` is empty before. Two
/// castlings stand in the order `K`, `Q`, `k`, `q`, and each step has a text, as each has that some query lists.
pub fn write_line_claim(claim: &LineClaim, out: &mut ArrayVec<u8, 160>)
    requires empty { out.old.items ≡ [] }
    requires grammar { HasLine claim.now }
    ensures text { out.new.items ≡ line_claim_text claim.now }
    ensures read { line_claim_of out.new.items ≡ Some claim.now }
{
    match claim {
        LineClaim::NotBoth(first, second) => {
            push_text(b"claim notboth ", out);
            out.push(castle_letter(*first));
            out.push(b' ');
            out.push(castle_letter(*second));
        }
        LineClaim::Line(steps) => {
            push_text(b"claim line ", out);
            push_steps(steps.items(), out);
        }
    }
}
