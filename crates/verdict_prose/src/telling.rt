//! The sentences of verdicts.

ghost use Rattle.std.specs.Prelude.{◌≡◌, ◌++◌, [], IfOk, codes, cond};
ghost use Rattle.verdict_prose.specs.Sentences.{is_question, turned_words, verdict_text, words_of};

use crate::claims::{push_countered, push_given, push_shown, push_unsettled};
use crate::lengths::push_length;
use crate::rights::{push_not_both, push_unsettled_both};
use crate::verdicts::Verdict;
use proof_story::push_wrapped;
use prose_words::{say, side_word};
use query_base::Query;
use std::alloc::{AllocError, Global};

/// Adds what is said of the position with the other side to move.
fn push_other(query: &Query, said: &[u8], out: &mut Vec<u8>) -> Result<(), AllocError>
    ensures { IfOk result (λ _. out.new.items ≡ out.old.items ++ turned_words query.now said.now) }
{
    say(b"With ", out)?;
    say(side_word(query.turn.other()), out)?;
    say(b" to move ", out)?;
    say(said, out)
}

/// Adds the words of a verdict.
fn push_words(query: &Query, verdict: &Verdict, out: &mut Vec<u8>) -> Result<(), AllocError>
    ensures { IfOk result (λ _. out.new.items ≡ out.old.items ++ words_of query.now verdict.now) }
{
    match verdict {
        Verdict::Shown(claim) => push_shown(claim, out),
        Verdict::Countered(claim) => push_countered(claim, out),
        Verdict::GivenPassing(m) => push_given(m, out),
        Verdict::Unsettled(claim) => push_unsettled(claim, out),
        Verdict::NotBoth(first, second) => push_not_both(*first, *second, out),
        Verdict::UnsettledBoth(first, second) => push_unsettled_both(*first, *second, out),
        Verdict::OtherShown => push_other(query, b"no game leads here either", out),
        Verdict::OtherCountered => {
            push_other(query, b"a game leads here: was the wrong side typed?", out)
        }
        Verdict::OtherUnsettled => push_other(
            query,
            b"the position isn't known to be illegal: was the wrong side typed?",
            out,
        ),
        Verdict::GivenShown => say(
            b"No game leads to this position with what is given below it",
            out,
        ),
        Verdict::PlainShown => say(b"Without that no game leads here either", out),
        Verdict::PlainCountered => say(b"Without that a game leads here", out),
        Verdict::AtLeast(n) => push_length(*n, out),
    }
}

/// Whether the sentence ends by itself.
fn is_question(verdict: &Verdict) -> bool
    ensures { result ≡ is_question verdict.now }
{
    matches!(verdict, Verdict::OtherCountered | Verdict::OtherUnsettled)
}

/// The sentence of a verdict, in one line.
fn sentence_of(alloc: Global, query: &Query, verdict: &Verdict) -> Result<Vec<u8>, AllocError>
    ensures { IfOk result (λ text. text.items ≡ words_of query.now verdict.now ++ cond (is_question verdict.now) [] (codes ".")) }
{
    let mut text = Vec::new(alloc);
    push_words(query, verdict, &mut text)?;
    if !is_question(verdict) {
        say(b".", &mut text)?;
    }
    Ok(text)
}

/// Adds the sentence of a verdict, in rows of at most a hundred letters. It is true if the verdict is so.
pub fn tell_verdict(
    alloc: Global,
    query: &Query,
    verdict: &Verdict,
    out: &mut Vec<u8>,
) -> Result<(), AllocError>
    ensures { IfOk result (λ _. out.new.items ≡ out.old.items ++ verdict_text query.now verdict.now) }
{
    let text = sentence_of(alloc, query, verdict)?;
    push_wrapped(text.as_slice(), out)
}
