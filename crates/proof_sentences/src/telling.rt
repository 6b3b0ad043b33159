//! The words of sentences.

ghost use Rattle.std.specs.Prelude.{◌≡◌, ◌++◌, IfOk};
ghost use Rattle.proof_sentences.specs.Sentences.{Says, back_words, barred_words, check_words, end_words, moved_words, rights_words, still_words, stood_words, words_of};

use crate::balance_facts::push_balance_fact;
use crate::pawn_facts::push_pawn_fact;
use crate::phrases::{push_counted, push_either, push_unmoved};
use crate::sentences::Sentence;
use crate::unmoved::{push_caged, push_settled};
use board_base::{Castle, Colour, Odds, Square, array_of};
use play_rules::lacks_home;
use prose_words::{push_man, push_square, say, side_word};
use query_base::Query;
use retraction_bars::push_bars;
use std::alloc::{AllocError, Global};

/// Who stood on a square at the beginning.
fn push_stood(odds: Odds, s: Square, out: &mut Vec<u8>) -> Result<(), AllocError>
    ensures { IfOk result (λ _. out.new.items ≡ out.old.items ++ stood_words odds s) }
{
    say(b"But at the beginning ", out)?;
    push_man(array_of(odds).at(s), out)?;
    say(b" stood on ", out)?;
    push_square(s, out)?;
    say(b".", out)
}

/// On which square of rank 1 or 8 a pawn stands.
fn push_end(s: Square, out: &mut Vec<u8>) -> Result<(), AllocError>
    ensures { IfOk result (λ _. out.new.items ≡ out.old.items ++ end_words s) }
{
    say(b"A pawn stands on ", out)?;
    push_square(s, out)?;
    say(b".", out)
}

/// That the side's king stands in check on a square, with the other side to move.
fn push_check(side: Colour, s: Square, out: &mut Vec<u8>) -> Result<(), AllocError>
    ensures { IfOk result (λ _. out.new.items ≡ out.old.items ++ check_words side s) }
{
    say(side_word(side), out)?;
    say(b"'s king on ", out)?;
    push_square(s, out)?;
    say(b" stands in check with ", out)?;
    say(side_word(side.other()), out)?;
    say(b" to move.", out)
}

/// Why the king and the rook of a castling can't have stayed.
fn push_astray(odds: Odds, castle: Castle, out: &mut Vec<u8>) -> Result<(), AllocError>
    ensures { IfOk result (λ _. out.new.items ≡ out.old.items ++ rights_words odds castle) }
{
    say(b"It can't be that ", out)?;
    push_unmoved(castle, out)?;
    push_either(
        lacks_home(odds, castle),
        b": the game began without the rook.",
        b": they don't both stand there.",
        out,
    )
}

/// That the position stands so many half-moves later again.
fn push_back(steps: u8, out: &mut Vec<u8>) -> Result<(), AllocError>
    ensures { IfOk result (λ _. out.new.items ≡ out.old.items ++ back_words steps) }
{
    say(b"The same position stands ", out)?;
    push_counted(steps as usize, b" half-move", b" half-moves", out)?;
    say(
        b" later, with no more demands; a shortest game doesn't come to it twice.",
        out,
    )
}

/// That nobody of this side can have moved last.
fn push_still(side: Colour, first: bool, out: &mut Vec<u8>) -> Result<(), AllocError>
    ensures { IfOk result (λ _. out.new.items ≡ out.old.items ++ still_words side first) }
{
    say(side_word(side), out)?;
    push_either(
        first,
        b" moved last, but no man can have.",
        b" has no move before it.",
        out,
    )
}

/// That nobody can have moved last, and why.
fn push_barred(
    alloc: Global,
    query: &Query,
    first: bool,
    out: &mut Vec<u8>,
) -> Result<(), AllocError>
    ensures { IfOk result (λ _. out.new.items ≡ out.old.items ++ barred_words query.now first) }
{
    push_still(query.turn.other(), first, out)?;
    push_bars(alloc, query, out)
}

/// That the moves with which this side can have moved last follow.
fn push_moved(side: Colour, first: bool, out: &mut Vec<u8>) -> Result<(), AllocError>
    ensures { IfOk result (λ _. out.new.items ≡ out.old.items ++ moved_words side first) }
{
    say(side_word(side), out)?;
    push_either(
        first,
        b"'s last move was one of these:",
        b"'s move before it was one of these:",
        out,
    )
}

/// The words of a sentence that holds of a query.
#[tactic(auto, unfolding(crate::specs::Sentences::words_of))]
pub(crate) fn push_sentence(
    alloc: Global,
    query: &Query,
    sentence: &Sentence,
    out: &mut Vec<u8>,
) -> Result<(), AllocError>
    requires { Says sentence.now query.now }
    ensures { IfOk result (λ _. out.new.items ≡ out.old.items ++ words_of sentence.now query.now) }
{
    match sentence {
        Sentence::Kings => say(b"A side has no king, or more than one.", out),
        Sentence::Ranks(s) => push_end(*s, out),
        Sentence::Check(side, s) => push_check(*side, *s, out),
        Sentence::Rights(castle) => push_astray(query.odds, *castle, out),
        Sentence::Caged(set) => push_caged(alloc, query, *set, out),
        Sentence::Changed(_, odd) => push_stood(query.odds, *odd, out),
        Sentence::Settled(set) => push_settled(alloc, *set, out),
        Sentence::OnPawns(fact) => push_pawn_fact(alloc, query, fact, out),
        Sentence::OnBalance(fact) => push_balance_fact(alloc, query, fact, out),
        Sentence::Back(steps, _) => push_back(*steps, out),
        Sentence::Still(first) => push_barred(alloc, query, *first, out),
        Sentence::Moved(first) => push_moved(query.turn.other(), *first, out),
    }
}
