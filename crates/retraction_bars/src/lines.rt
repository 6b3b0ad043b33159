ghost use Rattle.std.specs.Prelude.{◌≡◌, ◌++◌, IfOk};
ghost use Rattle.retraction_bars.specs.Clauses.{clauses};
ghost use Rattle.retraction_bars.specs.Exceptions.{main_of, told_clauses};
ghost use Rattle.retraction_bars.specs.Lines.{bars_text, firsts_phrase, firsts_words, has_first, has_rest, is_first, labels_words, main_words, pair_words, rest_start, rest_words, sentences_of, some_firsts};
ghost use Rattle.retraction_bars.specs.Phrases.{phrase};
ghost use Rattle.retraction_bars.specs.Sentences.{label_words, text_if};

use crate::bars::Bar;
use crate::exceptions::{exceptions, main_of};
use crate::gathering::{Clause, clauses};
use crate::pairs::{Pair, pair_of};
use crate::phrases::{Phrase, say_phrase};
use crate::sentences::{push_bar, push_label, push_sentences};
use board_base::{Kind, Square, is_the, pawn_rank};
use prose_words::say;
use query_base::Query;
use std::alloc::{AllocError, Global};

/// A pawn of the side that moved stands there, on its first square.
fn is_first(query: &Query, t: Square) -> bool
    ensures { result ≡ is_first query.now t }
{
    let mover = query.turn.other();
    is_the(mover, Kind::Pawn, query.board.at(t)) && t.rank() == pawn_rank(mover)
}

/// Whether some pawn of the side that moved stands on its first square.
fn has_first(query: &Query) -> bool
    ensures { result ≡ has_first query.now }
{
    for i in 0..64 {
        if is_first(query, Square::known(i)) {
            return true;
        }
    }
    false
}

/// A man by his letter and his square, if he is to be named.
fn push_label_if(given: bool, query: &Query, t: Square, out: &mut Vec<u8>) -> Result<(), AllocError>
    ensures { IfOk result (λ _. out.new.items ≡ out.old.items ++ text_if given (label_words query.now t)) }
{
    if given {
        push_label(query, t, out)?;
    }
    Ok(())
}

/// The pawns of the side that moved that stand on their first squares, by squares ascending.
fn push_firsts(query: &Query, out: &mut Vec<u8>) -> Result<(), AllocError>
    ensures { IfOk result (λ _. out.new.items ≡ out.old.items ++ labels_words query.now (is_first query.now)) }
{
    for i in 0..64 {
        let t = Square::known(i);
        push_label_if(is_first(query, t), query, t, out)?;
    }
    Ok(())
}

/// The pawns on their first squares, as a list of their own.
fn firsts_of(alloc: Global, query: &Query) -> Result<Vec<u8>, AllocError>
    ensures { IfOk result (λ v. v.items ≡ labels_words query.now (is_first query.now)) }
{
    let mut labels = Vec::new(alloc);
    push_firsts(query, &mut labels)?;
    Ok(labels)
}

/// How the sentence of these pawns ends, for one pawn or for several: a name alone has three letters.
fn firsts_phrase(labels: &[u8]) -> Phrase
    ensures { result ≡ firsts_phrase labels.now }
{
    if labels.len() == 3 {
        Phrase::OnOwnFirst
    } else {
        Phrase::OnFirst
    }
}

/// The pawns that are named, and that they stand on their first squares.
fn push_some_firsts(labels: &[u8], out: &mut Vec<u8>) -> Result<(), AllocError>
    ensures { IfOk result (λ _. out.new.items ≡ out.old.items ++ some_firsts labels.now) }
{
    say(labels, out)?;
    say_phrase(firsts_phrase(labels), out)
}

/// The sentence of the pawns on their first squares.
fn push_firsts_sentence(alloc: Global, query: &Query, out: &mut Vec<u8>) -> Result<(), AllocError>
    ensures { IfOk result (λ _. out.new.items ≡ out.old.items ++ firsts_words query.now) }
{
    if has_first(query) {
        let labels = firsts_of(alloc, query)?;
        push_some_firsts(labels.as_slice(), out)?;
    }
    Ok(())
}

/// Whether some clauses aren't told by themselves.
fn has_rest(cs: &[Clause], told: &[Clause]) -> bool
    ensures { result ≡ has_rest cs.now told.now }
{
    told.len() < cs.len()
}

/// How the sentence on the rest begins: it says "otherwise" if some clauses were told before it.
fn rest_start(told: &[Clause]) -> Phrase
    ensures { result ≡ rest_start told.now }
{
    if told.len() == 0 {
        Phrase::Each
    } else {
        Phrase::ElseEach
    }
}

/// That the main man gave check already, as the alternative to an occupied square; nothing if nobody gives check.
fn push_main(query: &Query, main: &Option<Square>, out: &mut Vec<u8>) -> Result<(), AllocError>
    ensures { IfOk result (λ _. out.new.items ≡ out.old.items ++ main_words query.now main.now) }
{
    if let Some(s) = main {
        say_phrase(Phrase::Or, out)?;
        push_bar(query, Bar::Check(*s), out)?;
    }
    Ok(())
}

/// The sentence of what isn't told by itself: each square to come from is occupied, or the main man gave check already.
fn push_rest(
    query: &Query,
    main: &Option<Square>,
    told: &[Clause],
    out: &mut Vec<u8>,
) -> Result<(), AllocError>
    ensures { IfOk result (λ _. out.new.items ≡ out.old.items ++ rest_words query.now main.now told.now) }
{
    say_phrase(rest_start(told), out)?;
    say_phrase(Phrase::ToComeFrom, out)?;
    push_main(query, main, out)?;
    say_phrase(Phrase::Stop, out)
}

/// The sentence on the rest, if there is a rest.
fn push_rest_if(
    given: bool,
    query: &Query,
    main: &Option<Square>,
    told: &[Clause],
    out: &mut Vec<u8>,
) -> Result<(), AllocError>
    ensures { IfOk result (λ _. out.new.items ≡ out.old.items ++ text_if given (rest_words query.now main.now told.now)) }
{
    if given {
        push_rest(query, main, told, out)?;
    }
    Ok(())
}

/// The sentence of the pawns on their first squares, if no sentence on the rest covers them.
fn push_firsts_if(
    given: bool,
    alloc: Global,
    query: &Query,
    out: &mut Vec<u8>,
) -> Result<(), AllocError>
    ensures { IfOk result (λ _. out.new.items ≡ out.old.items ++ text_if given (firsts_words query.now)) }
{
    if given {
        push_firsts_sentence(alloc, query, out)?;
    }
    Ok(())
}

/// All sentences if no two men give check at once: the clauses told by themselves, and then the rest in one sentence.
fn push_told(
    alloc: Global,
    query: &Query,
    main: &Option<Square>,
    cs: &[Clause],
    told: &[Clause],
    out: &mut Vec<u8>,
) -> Result<(), AllocError>
    ensures { IfOk result (λ _. out.new.items ≡ out.old.items ++ sentences_of query.now main.now cs.now told.now) }
{
    let rest = has_rest(cs, told);
    push_firsts_if(!rest, alloc, query, out)?;
    push_sentences(alloc, query, told, out)?;
    push_rest_if(rest, query, main, told, out)
}

/// The sentence of two men who give check at once.
fn push_pair(query: &Query, pair: &Pair, out: &mut Vec<u8>) -> Result<(), AllocError>
    ensures { IfOk result (λ _. out.new.items ≡ out.old.items ++ pair_words query.now pair.now) }
{
    push_label(query, pair.first, out)?;
    say_phrase(Phrase::Also, out)?;
    push_label(query, pair.second, out)?;
    say_phrase(Phrase::AtOnce, out)
}

/// The same for the query, of which the clauses are first found.
fn push_all(alloc: Global, query: &Query, out: &mut Vec<u8>) -> Result<(), AllocError>
    ensures { IfOk result (λ _. out.new.items ≡ out.old.items ++ sentences_of query.now (main_of query.now) (clauses query.now) (told_clauses query.now)) }
{
    let main = main_of(query);
    let cs = clauses(alloc, query)?;
    let told = exceptions(alloc, query, &main, cs.as_slice())?;
    push_told(alloc, query, &main, cs.as_slice(), told.as_slice(), out)
}

/// Why nobody can have moved last, in sentences, each after a space: that two men give check at once, if no move gives both checks;
/// else, bar by bar, the men all of whose ways it bars, and the men of whom it bars some ways; and last, for all ways that aren't told
/// so, that each square to come from is occupied, or a man who gives check gave it already. Only want of memory stops it.
#[tactic(auto, unfolding(crate::specs::Lines::bars_text))]
pub fn push_bars(alloc: Global, query: &Query, out: &mut Vec<u8>) -> Result<(), AllocError>
    ensures { IfOk result (λ _. out.new.items ≡ out.old.items ++ bars_text query.now) }
{
    match pair_of(alloc, query)? {
        Some(pair) => push_pair(query, &pair, out),
        None => push_all(alloc, query, out),
    }
}
