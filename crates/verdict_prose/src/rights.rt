//! Rights to castle in words.

ghost use Rattle.std.specs.Prelude.{◌≡◌, ◌++◌, IfOk};
ghost use Rattle.board_base.specs.Board.{same_colour};
ghost use Rattle.board_base.specs.Play.{side};
ghost use Rattle.prose_words.specs.Words.{side_word};
ghost use Rattle.verdict_prose.specs.Sentences.{either_words, keeps_words, lost_words, may_both_words, not_both_words, owner_words, right_words, unsettled_both_words};

use board_base::Castle;
use prose_words::{say, side_word, wing_word};
use std::alloc::AllocError;

/// Adds on which side of the board the castling is.
#[tactic(auto, unfolding(crate::specs::Sentences::right_words))]
fn push_right(castle: Castle, out: &mut Vec<u8>) -> Result<(), AllocError>
    ensures { IfOk result (λ _. out.new.items ≡ out.old.items ++ right_words castle) }
{
    say(b" the right to castle on the ", out)?;
    say(wing_word(castle), out)?;
    say(b" side", out)
}

/// Adds that a right to castle is lost.
#[tactic(auto, unfolding(crate::specs::Sentences::lost_words))]
pub(crate) fn push_lost(castle: Castle, out: &mut Vec<u8>) -> Result<(), AllocError>
    ensures { IfOk result (λ _. out.new.items ≡ out.old.items ++ lost_words castle) }
{
    say(side_word(castle.side()), out)?;
    say(b" has lost", out)?;
    push_right(castle, out)
}

/// Adds that a right to castle is kept.
#[tactic(auto, unfolding(crate::specs::Sentences::keeps_words))]
pub(crate) fn push_keeps(castle: Castle, out: &mut Vec<u8>) -> Result<(), AllocError>
    ensures { IfOk result (λ _. out.new.items ≡ out.old.items ++ keeps_words castle) }
{
    say(side_word(castle.side()), out)?;
    say(b" keeps", out)?;
    push_right(castle, out)
}

/// Adds whose right it is, and on which side of the board.
#[tactic(auto, unfolding(crate::specs::Sentences::owner_words))]
fn push_owner(castle: Castle, out: &mut Vec<u8>) -> Result<(), AllocError>
    ensures { IfOk result (λ _. out.new.items ≡ out.old.items ++ owner_words castle) }
{
    say(side_word(castle.side()), out)?;
    say(b"'s on the ", out)?;
    say(wing_word(castle), out)?;
    say(b" side", out)
}

/// Adds two rights, with this between them.
#[tactic(auto, unfolding(crate::specs::Sentences::either_words))]
fn push_either(
    between: &[u8],
    first: Castle,
    second: Castle,
    out: &mut Vec<u8>,
) -> Result<(), AllocError>
    ensures { IfOk result (λ _. out.new.items ≡ out.old.items ++ either_words between.now first second) }
{
    push_owner(first, out)?;
    say(between, out)?;
    push_owner(second, out)
}

/// Whether both are castlings of one side.
fn is_one_side(first: Castle, second: Castle) -> bool
    ensures { result ≡ same_colour (side first) (side second) }
{
    first.side() == second.side()
}

/// Adds two rights behind these words, with this between them.
fn push_with_either(
    words: &[u8],
    between: &[u8],
    first: Castle,
    second: Castle,
    out: &mut Vec<u8>,
) -> Result<(), AllocError>
    ensures { IfOk result (λ _. out.new.items ≡ out.old.items ++ (words.now ++ either_words between.now first second)) }
{
    say(words, out)?;
    push_either(between, first, second, out)
}

/// Adds two rights between these words, with this between them.
fn push_around_either(
    before: &[u8],
    between: &[u8],
    behind: &[u8],
    first: Castle,
    second: Castle,
    out: &mut Vec<u8>,
) -> Result<(), AllocError>
    ensures { IfOk result (λ _. out.new.items ≡ out.old.items ++ (before.now ++ either_words between.now first second ++ behind.now)) }
{
    say(before, out)?;
    push_either(between, first, second, out)?;
    say(behind, out)
}

/// Adds the side whose castling it is before these words.
fn push_side(castle: Castle, words: &[u8], out: &mut Vec<u8>) -> Result<(), AllocError>
    ensures { IfOk result (λ _. out.new.items ≡ out.old.items ++ (side_word (side castle) ++ words.now)) }
{
    say(side_word(castle.side()), out)?;
    say(words, out)
}

/// Adds that at least one of two rights is lost.
#[tactic(auto, unfolding(crate::specs::Sentences::not_both_words))]
pub(crate) fn push_not_both(
    first: Castle,
    second: Castle,
    out: &mut Vec<u8>,
) -> Result<(), AllocError>
    ensures { IfOk result (λ _. out.new.items ≡ out.old.items ++ not_both_words first second) }
{
    if is_one_side(first, second) {
        push_side(
            first,
            b" may castle on one side at most: at least one of the two rights is lost",
            out,
        )
    } else {
        push_around_either(
            b"At least one of two rights to castle is lost: ",
            b" or ",
            b"; so whoever castles first shows that the other has lost the right",
            first,
            second,
            out,
        )
    }
}

/// Adds that two rights can both be kept.
#[tactic(auto, unfolding(crate::specs::Sentences::may_both_words))]
fn push_may_both(first: Castle, second: Castle, out: &mut Vec<u8>) -> Result<(), AllocError>
    ensures { IfOk result (λ _. out.new.items ≡ out.old.items ++ may_both_words first second) }
{
    if is_one_side(first, second) {
        push_side(first, b" can have kept both rights to castle", out)
    } else {
        push_with_either(
            b"two rights to castle can both be kept, ",
            b" and ",
            first,
            second,
            out,
        )
    }
}

/// Adds that it isn't settled whether they can.
pub(crate) fn push_unsettled_both(
    first: Castle,
    second: Castle,
    out: &mut Vec<u8>,
) -> Result<(), AllocError>
    ensures { IfOk result (λ _. out.new.items ≡ out.old.items ++ unsettled_both_words first second) }
{
    say(b"Not settled: whether ", out)?;
    push_may_both(first, second, out)
}
