//! Steps and cases that can't have been, in words, by what they meet.

ghost use Rattle.std.specs.Prelude.{◌≡◌, ◌++◌, IfOk, []};
ghost use Rattle.sketch_words.specs.Denials.{cause_words, denied_each, denied_words, denials_words, first_denied, has_flaw, is_named, is_same_flaw, is_told, is_whole, one_denied, shown_once};
ghost use Rattle.sketch_words.specs.declared.spots.Flaw.TheVariants.{Foreign, Unbalanced};

use crate::sets::push_either;
use crate::spots::{Child, Flaw, Spot};
use crate::steps::{is_same_move, push_shown};
use board_base::{Odds, Square, array_of};
use prose_words::{push_man, push_square, say};
use std::alloc::AllocError;

/// Whether the flaw is that somebody else began on the square of a man who never moved.
fn is_foreign_on(flaw: &Flaw, s: Square) -> bool
    ensures { result ≡ is_same_flaw flaw.now (Foreign s) }
{
    match flaw {
        Flaw::Unbalanced => false,
        Flaw::Foreign(t) => *t == s,
    }
}

/// Whether the flaw is that the captures by pawns wouldn't balance.
fn is_unbalanced(flaw: &Flaw) -> bool
    ensures { result ≡ is_same_flaw flaw.now Unbalanced }
{
    match flaw {
        Flaw::Unbalanced => true,
        Flaw::Foreign(_) => false,
    }
}

/// Whether both are the same flaw, of the same square if they are of one.
fn is_same_flaw(a: &Flaw, b: &Flaw) -> bool
    ensures { result ≡ is_same_flaw a.now b.now }
{
    match b {
        Flaw::Unbalanced => is_unbalanced(a),
        Flaw::Foreign(s) => is_foreign_on(a, *s),
    }
}

/// Whether it can't have been, for this.
fn has_flaw(flaw: &Flaw, child: &Child) -> bool
    ensures { result ≡ has_flaw flaw.now child.now }
{
    match &child.flaw {
        None => false,
        Some(own) => is_same_flaw(flaw, own),
    }
}

/// Whether all to which the same move leads can't have been, for this.
fn is_whole(children: &[Child], flaw: &Flaw, child: &Child) -> bool
    ensures { result ≡ is_whole children.now flaw.now child.now }
{
    children.iter().all(|other| !is_same_move(&other.label, &child.label) || has_flaw(flaw, other))
}

/// Whether one of these to which the same move leads can't have been, for this.
fn is_named(before: &[Child], flaw: &Flaw, child: &Child) -> bool
    ensures { result ≡ is_named before.now flaw.now child.now }
{
    before.iter().any(|other| has_flaw(flaw, other) && is_same_move(&other.label, &child.label))
}

/// Whether one of these can't have been, for this.
fn is_told(before: &[Child], flaw: &Flaw) -> bool
    ensures { result ≡ is_told before.now flaw.now }
{
    before.iter().any(|other| has_flaw(flaw, other))
}

/// A child that can't have been, after "nor" if it follows another.
fn push_shown_behind(
    follows: bool,
    whole: bool,
    child: &Child,
    out: &mut Vec<u8>,
) -> Result<(), AllocError>
    ensures { IfOk result (λ _. out.new.items ≡ out.old.items ++ shown_once follows whole child.now) }
{
    push_either(follows, b", nor ", b"", out)?;
    push_shown(whole, &child.label, out)
}

/// A child behind these, if it can't have been for this, and isn't named already.
fn push_one_denied(
    all: &[Child],
    flaw: &Flaw,
    before: &[Child],
    child: &Child,
    out: &mut Vec<u8>,
) -> Result<(), AllocError>
    ensures { IfOk result (λ _. out.new.items ≡ out.old.items ++ one_denied all.now flaw.now before.now child.now) }
{
    let whole = is_whole(all, flaw, child);
    let named = whole && is_named(before, flaw, child);
    if named || !has_flaw(flaw, child) {
        return Ok(());
    }
    push_shown_behind(is_told(before, flaw), whole, child, out)
}

/// All of them who can't have been for this.
fn push_denied_each(all: &[Child], flaw: &Flaw, out: &mut Vec<u8>) -> Result<(), AllocError>
    ensures { IfOk result (λ _. out.new.items ≡ out.old.items ++ denied_each all.now flaw.now [] all.now) }
{
    for i in 0..all.len() {
        push_one_denied(all, flaw, &all[..i], &all[i], out)?;
    }
    Ok(())
}

/// That the man on the square would never have moved, though another began there.
fn push_foreign_cause(odds: Odds, s: Square, out: &mut Vec<u8>) -> Result<(), AllocError>
    ensures { IfOk result (λ _. out.new.items ≡ out.old.items ++ cause_words odds (Foreign s)) }
{
    say(b": then the man on ", out)?;
    push_square(s, out)?;
    say(b" never moved, but ", out)?;
    push_man(array_of(odds).at(s), out)?;
    say(b" began there.", out)
}

/// Why they can't have been.
fn push_cause(odds: Odds, flaw: &Flaw, out: &mut Vec<u8>) -> Result<(), AllocError>
    ensures { IfOk result (λ _. out.new.items ≡ out.old.items ++ cause_words odds flaw.now) }
{
    match flaw {
        Flaw::Unbalanced => say(b": the captures by pawns wouldn't balance.", out),
        Flaw::Foreign(s) => push_foreign_cause(odds, *s, out),
    }
}

/// The line of those that can't have been for this: which they are, and why.
fn push_denied(
    odds: Odds,
    spot: &Spot,
    all: &[Child],
    flaw: &Flaw,
    out: &mut Vec<u8>,
) -> Result<(), AllocError>
    ensures { IfOk result (λ _. out.new.items ≡ out.old.items ++ denied_words odds spot.now all.now flaw.now) }
{
    say(spot.lead.as_slice(), out)?;
    say(b"It wasn't ", out)?;
    push_denied_each(all, flaw, out)?;
    push_cause(odds, flaw, out)
}

/// All children with the flaw of one, if none of these behind which it stands has it.
fn push_first_denied(
    odds: Odds,
    spot: &Spot,
    all: &[Child],
    before: &[Child],
    child: &Child,
    out: &mut Vec<u8>,
) -> Result<(), AllocError>
    ensures { IfOk result (λ _. out.new.items ≡ out.old.items ++ first_denied odds spot.now all.now before.now child.now.flaw) }
{
    match &child.flaw {
        None => Ok(()),
        Some(flaw) => {
            if is_told(before, flaw) {
                Ok(())
            } else {
                push_denied(odds, spot, all, flaw, out)
            }
        }
    }
}

/// The children that can't have been, those with one flaw in one line.
pub fn push_denials(
    odds: Odds,
    spot: &Spot,
    all: &[Child],
    out: &mut Vec<u8>,
) -> Result<(), AllocError>
    ensures { IfOk result (λ _. out.new.items ≡ out.old.items ++ denials_words odds spot.now all.now [] all.now) }
{
    for i in 0..all.len() {
        push_first_denied(odds, spot, all, &all[..i], &all[i], out)?;
    }
    Ok(())
}
