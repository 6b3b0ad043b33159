//! Words for steps.

ghost use Rattle.std.specs.Prelude.{◌≡◌, ◌++◌, IfOk, codes};
ghost use Rattle.std.specs.Fmt.{decimal};
ghost use Rattle.sketch_words.specs.Words.{above_words, bare_step, bare_way, bare_words, case_words, is_same_move, lead_word, name_words, shown_words, sign_of, squares_of, step_words, taken_words, victim_words, way_words};

use prose_words::{push_number, push_square, say};
use sketch_text::{Label, Officer, StepLabel, Taken, Victim, Way};
use std::alloc::AllocError;

/// The sign between the squares of a step: a cross for a capture, a hyphen for any other step.
fn sign_of(way: Way) -> u8
    ensures { result ≡ sign_of way }
{
    match way {
        Way::Straight | Way::Promotion => b'-',
        Way::Capture(_, _) | Way::CapturePromotion(_) => b'x',
    }
}

/// What a pawn captured without promotion.
fn victim_words(victim: Victim) -> &'static [u8]
    ensures { result.now ≡ victim_words victim }
{
    match victim {
        Victim::Pawn => b" (a pawn fell)",
        Victim::Bishop => b" (a bishop fell)",
        Victim::Officer => b" (a knight, rook or queen fell)",
        Victim::EnPassant => b" en passant",
    }
}

/// What a pawn captured when it promoted.
fn taken_words(taken: Taken) -> &'static [u8]
    ensures { result.now ≡ taken_words taken }
{
    match taken {
        Taken::Bishop => b" with promotion (a bishop fell)",
        Taken::Officer => b" with promotion (a knight, rook or queen fell)",
    }
}

/// What an officer was, if this is the case.
fn case_words(officer: Officer) -> &'static [u8]
    ensures { result.now ≡ case_words officer }
{
    match officer {
        Officer::Knight => b"a knight",
        Officer::Rook => b"a rook",
        Officer::Queen => b"a queen",
    }
}

/// What stands before the name of a step or of a case, when it heads what follows from it.
fn lead_word(label: &Label) -> &'static [u8]
    ensures { result.now ≡ lead_word label.now }
{
    match label {
        Label::Now => b"",
        Label::Step(_) => b"Before ",
        Label::Case(_) => b"If it was ",
    }
}

/// How many other pawns stood above it, if they were several.
fn push_pawns_above(above: u8, out: &mut Vec<u8>) -> Result<(), AllocError>
    ensures { IfOk result (λ _. out.new.items ≡ out.old.items ++ (codes " with " ++ decimal above ++ codes " other pawns above it on its file")) }
{
    say(b" with ", out)?;
    push_number(usize::from(above), out)?;
    say(b" other pawns above it on its file", out)
}

/// How many other pawns of the file that a pawn left stood above it, if any did.
fn push_above(above: u8, out: &mut Vec<u8>) -> Result<(), AllocError>
    ensures { IfOk result (λ _. out.new.items ≡ out.old.items ++ above_words above) }
{
    if above == 0 {
        return Ok(());
    }
    if above == 1 {
        return say(b" with another pawn above it on its file", out);
    }
    push_pawns_above(above, out)
}

/// Who fell by a capture without promotion, and how many other pawns stood above the one that captured.
fn push_capture(victim: Victim, above: u8, out: &mut Vec<u8>) -> Result<(), AllocError>
    ensures { IfOk result (λ _. out.new.items ≡ out.old.items ++ (victim_words victim ++ above_words above)) }
{
    say(victim_words(victim), out)?;
    push_above(above, out)
}

/// What a step was besides a move: who fell, and whether the pawn was promoted.
fn push_way(way: Way, out: &mut Vec<u8>) -> Result<(), AllocError>
    ensures { IfOk result (λ _. out.new.items ≡ out.old.items ++ way_words way) }
{
    match way {
        Way::Straight => Ok(()),
        Way::Capture(victim, above) => push_capture(victim, above, out),
        Way::Promotion => say(b" with promotion", out),
        Way::CapturePromotion(taken) => say(taken_words(taken), out),
    }
}

/// The squares of a step with its sign, as in `h3xg4`.
fn push_between(step: &StepLabel, out: &mut Vec<u8>) -> Result<(), AllocError>
    ensures { IfOk result (λ _. out.new.items ≡ out.old.items ++ squares_of step.now) }
{
    push_square(step.from, out)?;
    out.push(sign_of(step.way))?;
    push_square(step.to, out)
}

/// A step with who fell.
fn push_step(step: &StepLabel, out: &mut Vec<u8>) -> Result<(), AllocError>
    ensures { IfOk result (λ _. out.new.items ≡ out.old.items ++ step_words step.now) }
{
    push_between(step, out)?;
    push_way(step.way, out)
}

/// What leads to a node, as in `h3xg4 (a bishop fell)`.
pub(crate) fn push_name(label: &Label, out: &mut Vec<u8>) -> Result<(), AllocError>
    ensures { IfOk result (λ _. out.new.items ≡ out.old.items ++ name_words label.now) }
{
    match label {
        Label::Now => Ok(()),
        Label::Step(step) => push_step(step, out),
        Label::Case(officer) => say(case_words(*officer), out),
    }
}

/// Whether the pawn was promoted by a step, whoever fell.
fn push_bare_way(way: Way, out: &mut Vec<u8>) -> Result<(), AllocError>
    ensures { IfOk result (λ _. out.new.items ≡ out.old.items ++ bare_way way) }
{
    match way {
        Way::Straight | Way::Capture(_, _) => Ok(()),
        Way::Promotion | Way::CapturePromotion(_) => say(b" with promotion", out),
    }
}

/// A step, whoever fell.
fn push_bare_step(step: &StepLabel, out: &mut Vec<u8>) -> Result<(), AllocError>
    ensures { IfOk result (λ _. out.new.items ≡ out.old.items ++ bare_step step.now) }
{
    push_between(step, out)?;
    push_bare_way(step.way, out)
}

/// What leads to a node, whoever fell.
fn push_bare(label: &Label, out: &mut Vec<u8>) -> Result<(), AllocError>
    ensures { IfOk result (λ _. out.new.items ≡ out.old.items ++ bare_words label.now) }
{
    match label {
        Label::Now => Ok(()),
        Label::Step(step) => push_bare_step(step, out),
        Label::Case(officer) => say(case_words(*officer), out),
    }
}

/// What leads to a node, whoever fell, or with who fell.
pub(crate) fn push_shown(whole: bool, label: &Label, out: &mut Vec<u8>) -> Result<(), AllocError>
    ensures { IfOk result (λ _. out.new.items ≡ out.old.items ++ shown_words whole label.now) }
{
    if whole {
        push_bare(label, out)
    } else {
        push_name(label, out)
    }
}

/// Whether both are steps from one square to another.
pub(crate) fn is_same_move(a: &Label, b: &Label) -> bool
    ensures { result ≡ is_same_move a.now b.now }
{
    match (a, b) {
        (Label::Step(x), Label::Step(y)) => x.from == y.from && x.to == y.to,
        _ => false,
    }
}

/// How what follows from it begins.
pub(crate) fn push_lead(label: &Label, out: &mut Vec<u8>) -> Result<(), AllocError>
    ensures { IfOk result (λ _. out.new.items ≡ out.old.items ++ lead_word label.now) }
{
    say(lead_word(label), out)
}
