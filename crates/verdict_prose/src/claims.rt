//! Claims in words.

ghost use Rattle.std.specs.Prelude.{◌≡◌, ◌++◌, IfOk, codes};
ghost use Rattle.verdict_prose.specs.Sentences.{capture_words, countered_words, given_words, keeps_words, move_words, shown_words, whether_words};

use crate::rights::{push_keeps, push_lost};
use board_base::{Castle, Move};
use proof_story::push_became;
use prose_words::{push_square, say};
use query_base::Claim;
use std::alloc::AllocError;

/// Adds whence and where a move went. Whether it captured isn't told.
#[tactic(auto, unfolding(crate::specs::Sentences::move_words))]
fn push_move(m: &Move, out: &mut Vec<u8>) -> Result<(), AllocError>
    ensures { IfOk result (λ _. out.new.items ≡ out.old.items ++ move_words m.now) }
{
    say(b"from ", out)?;
    push_square(m.from, out)?;
    say(b" to ", out)?;
    push_square(m.to, out)?;
    push_became(m.promo, out)
}

/// Adds a capture en passant.
#[tactic(auto, unfolding(crate::specs::Sentences::capture_words))]
fn push_capture(m: &Move, out: &mut Vec<u8>) -> Result<(), AllocError>
    ensures { IfOk result (λ _. out.new.items ≡ out.old.items ++ capture_words m.now) }
{
    push_square(m.from, out)?;
    say(b"x", out)?;
    push_square(m.to, out)?;
    say(b" en passant", out)
}

/// Adds a move behind these words.
fn push_with_move(words: &[u8], m: &Move, out: &mut Vec<u8>) -> Result<(), AllocError>
    ensures { IfOk result (λ _. out.new.items ≡ out.old.items ++ (words.now ++ move_words m.now)) }
{
    say(words, out)?;
    push_move(m, out)
}

/// Adds a capture en passant between these words.
fn push_with_capture(
    before: &[u8],
    m: &Move,
    behind: &[u8],
    out: &mut Vec<u8>,
) -> Result<(), AllocError>
    ensures { IfOk result (λ _. out.new.items ≡ out.old.items ++ (before.now ++ capture_words m.now ++ behind.now)) }
{
    say(before, out)?;
    push_capture(m, out)?;
    say(behind, out)
}

/// Adds that a right to castle is kept, behind these words.
fn push_with_right(words: &[u8], castle: Castle, out: &mut Vec<u8>) -> Result<(), AllocError>
    ensures { IfOk result (λ _. out.new.items ≡ out.old.items ++ (words.now ++ keeps_words castle)) }
{
    say(words, out)?;
    push_keeps(castle, out)
}

/// Adds that the claim holds.
pub(crate) fn push_shown(claim: &Claim, out: &mut Vec<u8>) -> Result<(), AllocError>
    ensures { IfOk result (λ _. out.new.items ≡ out.old.items ++ shown_words claim.now) }
{
    match claim {
        Claim::Illegal => say(b"No game leads to this position", out),
        Claim::Last(m) => push_with_move(b"The last move went ", m, out),
        Claim::Lost(castle) => push_lost(*castle, out),
        Claim::Ep(m) => push_with_capture(b"The capture ", m, b" is legal", out),
    }
}

/// Adds that a capture en passant is legal after the double step that is given.
#[tactic(auto, unfolding(crate::specs::Sentences::given_words))]
pub(crate) fn push_given(m: &Move, out: &mut Vec<u8>) -> Result<(), AllocError>
    ensures { IfOk result (λ _. out.new.items ≡ out.old.items ++ given_words m.now) }
{
    push_with_capture(
        b"The capture ",
        m,
        b" is legal, since the last move is given",
        out,
    )
}

/// Adds that a game contradicts it.
pub(crate) fn push_countered(claim: &Claim, out: &mut Vec<u8>) -> Result<(), AllocError>
    ensures { IfOk result (λ _. out.new.items ≡ out.old.items ++ countered_words claim.now) }
{
    match claim {
        Claim::Illegal => say(b"A game leads to this position", out),
        Claim::Last(m) => {
            push_with_move(b"A game leads here that doesn't end with the move ", m, out)
        }
        Claim::Lost(castle) => push_with_right(b"A game leads here in which ", *castle, out),
        Claim::Ep(m) => push_with_capture(
            b"The capture ",
            m,
            b" need not be legal: a game leads here after which it isn't",
            out,
        ),
    }
}

/// Adds what is claimed.
fn push_whether(claim: &Claim, out: &mut Vec<u8>) -> Result<(), AllocError>
    ensures { IfOk result (λ _. out.new.items ≡ out.old.items ++ whether_words claim.now) }
{
    match claim {
        Claim::Illegal => say(b"a game leads to this position", out),
        Claim::Last(m) => push_with_move(b"the last move went ", m, out),
        Claim::Lost(castle) => push_lost(*castle, out),
        Claim::Ep(m) => push_with_capture(b"the capture ", m, b" is legal", out),
    }
}

/// Adds that it isn't settled.
pub(crate) fn push_unsettled(claim: &Claim, out: &mut Vec<u8>) -> Result<(), AllocError>
    ensures { IfOk result (λ _. out.new.items ≡ out.old.items ++ (codes "Not settled: whether " ++ whether_words claim.now)) }
{
    say(b"Not settled: whether ", out)?;
    push_whether(claim, out)
}
