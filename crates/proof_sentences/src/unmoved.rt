//! Words for men who never moved.

ghost use Rattle.std.specs.Prelude.{◌≡◌, ◌++◌, IfOk};
ghost use Rattle.proof_sentences.specs.Sentences.{by_right, caged_words, is_kept, many_shut, one_shut, settled_words, shut_words, unmoved_men};
ghost use Rattle.prose_words.specs.Words.{squares_words};

use crate::phrases::set_squares;
use crate::rights::is_held_home;
use balance_prose::push_around;
use board_base::{Square, SquareSet};
use prose_words::{push_square_if, say};
use query_base::Query;
use std::alloc::{AllocError, Global};

/// A square of the set is a home of a right that is held.
fn is_kept(query: &Query, set: SquareSet, s: Square) -> bool
    ensures { result ≡ is_kept query.now set s }
{
    set.has(s) && is_held_home(query.held, s)
}

/// The squares of the set that are homes of rights that are held.
fn kept_squares(alloc: Global, query: &Query, set: SquareSet) -> Result<Vec<u8>, AllocError>
    ensures { IfOk result (λ v. v.items ≡ squares_words (is_kept query.now set)) }
{
    let mut list = Vec::new(alloc);
    for i in 0..64 {
        let s = Square::known(i);
        push_square_if(is_kept(query, set, s), s, &mut list)?;
    }
    Ok(list)
}

/// Of whom it is so since a right to castle is held.
fn push_by_right(kept: &[u8], out: &mut Vec<u8>) -> Result<(), AllocError>
    ensures { IfOk result (λ _. out.new.items ≡ out.old.items ++ by_right kept.now) }
{
    push_around(b" (by the right to castle:", kept, b")", out)
}

/// That the man on one square is shut in.
fn push_one_shut(list: &[u8], kept: &[u8], out: &mut Vec<u8>) -> Result<(), AllocError>
    ensures { IfOk result (λ _. out.new.items ≡ out.old.items ++ one_shut list.now kept.now) }
{
    say(b"The man on", out)?;
    say(list, out)?;
    say(b" can't have come there", out)?;
    push_by_right(kept, out)?;
    say(b". So he stood there from the beginning. ", out)
}

/// That the men on several squares shut each other in.
fn push_many_shut(list: &[u8], kept: &[u8], out: &mut Vec<u8>) -> Result<(), AllocError>
    ensures { IfOk result (λ _. out.new.items ≡ out.old.items ++ many_shut list.now kept.now) }
{
    say(b"The men on", out)?;
    say(list, out)?;
    say(
        b" shut each other in: none of them can have come to his square while the others stood",
        out,
    )?;
    push_by_right(kept, out)?;
    say(b". So they stood there from the beginning. ", out)
}

/// That these men shut each other in, or the one is shut in, and for which of them this is by a right to castle.
fn push_shut(list: &[u8], kept: &[u8], out: &mut Vec<u8>) -> Result<(), AllocError>
    ensures { IfOk result (λ _. out.new.items ≡ out.old.items ++ shut_words list.now kept.now) }
{
    if list.len() == 3 {
        push_one_shut(list, kept, out)
    } else if list.len() == 0 {
        Ok(())
    } else {
        push_many_shut(list, kept, out)
    }
}

/// That the men on the set shut each other in.
pub(crate) fn push_caged(
    alloc: Global,
    query: &Query,
    set: SquareSet,
    out: &mut Vec<u8>,
) -> Result<(), AllocError>
    ensures { IfOk result (λ _. out.new.items ≡ out.old.items ++ caged_words query.now set) }
{
    let list = set_squares(alloc, set)?;
    let kept = kept_squares(alloc, query, set)?;
    push_shut(list.as_slice(), kept.as_slice(), out)
}

/// That these men never moved.
fn push_never_moved(list: &[u8], out: &mut Vec<u8>) -> Result<(), AllocError>
    ensures { IfOk result (λ _. out.new.items ≡ out.old.items ++ unmoved_men list.now) }
{
    if list.len() == 3 {
        push_around(b"The man on", list, b" never moved. ", out)
    } else {
        push_around(b"The men on", list, b" never moved. ", out)
    }
}

/// That the men on the set never moved.
pub(crate) fn push_settled(
    alloc: Global,
    set: SquareSet,
    out: &mut Vec<u8>,
) -> Result<(), AllocError>
    ensures { IfOk result (λ _. out.new.items ≡ out.old.items ++ settled_words set) }
{
    let list = set_squares(alloc, set)?;
    push_never_moved(list.as_slice(), out)
}
