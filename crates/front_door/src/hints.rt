//! Which advice a user gets, by the words, the front of the input, the status, and the front of what was written.

ghost use Rattle.std.specs.Prelude.{◌≡◌, ◌↔◌, ◌⊎◌, IfSome, IsSome, IsTrue, List, Some, None, String, codes};
ghost use Rattle.std.specs.Global.{Global as AGlobal};
ghost use Rattle.retro_top.specs.Status.TheVariants.{BadInput, BadWords, Refused};
ghost use Rattle.retro_top.specs.Names.{Begin, NameCommand};
ghost use Rattle.front_door.specs.Hints.{AskForCertificate, AskForGame, Concerns, GoesWith, IsOfFen, Says, status_of};
ghost use Rattle.front_door.specs.Kinds.{IsCertificate, IsGame};
ghost use Rattle.hint_texts.specs.declared.advice.Advice.TheVariants.{Lines, Words};
ghost use Rattle.hint_texts.specs.declared.advice.LineAdvice.TheVariants.{Empty};
ghost use Rattle.hint_texts.specs.declared.advice.WordAdvice.TheVariants.{NearestCommand};

use crate::certificates::advise_text;
use crate::fens::advise_fen;
use crate::games::{advise_ply, advise_word};
use crate::inputs::{after_fen, fen_line};
use crate::lines::advise_line;
use crate::refusals::{Refusal, refusal_of};
use crate::words::advise_words;
use hint_texts::{Advice, LineAdvice, MoveAdvice, WordAdvice};
use retro_top::{Command, InputKind, Row, Status, first_row, parse_words};
use std::alloc::Global;

/// What a user is told, and how the command that is meant is called.
#[derive(Clone, Copy, Debug)]
pub struct Hint {
    pub advice: Advice,
    pub call: Option<Row>,
}

impl Hint {
    pub(crate) fn plain(advice: Advice) -> Hint
        ensures advice { result.advice ≡ advice }
        ensures call { result.call ≡ None }
    {
        Hint { advice, call: None }
    }

    pub(crate) fn of_call(advice: Advice, call: Row) -> Hint
        ensures advice { result.advice ≡ advice }
        ensures call { result.call ≡ Some call }
    {
        Hint {
            advice,
            call: Some(call),
        }
    }

    /// The text ends with a command whose output the call reads.
    pub(crate) fn is_piped(&self) -> bool {
        matches!(
            self.advice,
            Advice::Words(WordAdvice::PositionAsWord | WordAdvice::ClaimAsWord)
        )
    }
}

/// The first word is this name.
pub(crate) fn begin(words: &[String], name: &[u8]) -> bool
    ensures { IsTrue result ↔ Begin words.now name.now }
{
    match words {
        [] => false,
        [word, ..] => word.as_bytes() == name,
    }
}

/// What the command that the words name reads; nothing if they name none.
fn kind_of(words: &[String]) -> InputKind {
    first_row(words).map_or(InputKind::Nothing, |row| row.input)
}

/// It has the moves of a game, or a game in algebraic notation.
fn is_game(kind: InputKind) -> bool
    ensures { IsTrue result → IsGame kind }
{
    matches!(
        kind,
        InputKind::Game | InputKind::Notation | InputKind::Moves
    )
}

/// The words ask for a command that reads a game.
fn ask_for_game(words: &[String]) -> bool
    ensures { IsTrue result → AskForGame words.now }
{
    match first_row(words) {
        Some(row) => is_game(row.input),
        None => false,
    }
}

/// It is a certificate, or may be one.
fn is_certificate(kind: InputKind) -> bool
    ensures { IsTrue result → IsCertificate kind }
{
    matches!(kind, InputKind::Certificate | InputKind::Proof)
}

/// The words ask for a command that reads a certificate.
fn ask_for_certificate(words: &[String]) -> bool
    ensures { IsTrue result → AskForCertificate words.now }
{
    match first_row(words) {
        Some(row) => is_certificate(row.input),
        None => false,
    }
}

/// The words ask for the explanation of a certificate.
fn ask_to_explain(words: &[String]) -> bool {
    matches!(parse_words(words), Ok(Command::Explain))
}

/// What is wrong with an input that isn't of the command's form, by the line that says where.
fn advise_input(kind: InputKind, input: &[u8], answer: &[u8]) -> Advice
    ensures status { status_of result ≡ BadInput }
    ensures told { (words : List (String AGlobal)) → Concerns result words input.now answer.now }
    ensures fen { Says answer.now (codes "bad fen field ") → IsOfFen result }
{
    match refusal_of(answer) {
        Some(Refusal::Fen { field, at }) => {
            Advice::Fen(advise_fen(fen_line(kind, input), field, at))
        }
        Some(Refusal::Line(number)) => Advice::Lines(advise_line(kind, input, number)),
        _ => Advice::Lines(LineAdvice::Lines),
    }
}

/// What is wrong with a game that is refused, by the line that says so; None if it is a game's text.
fn advise_game(kind: InputKind, input: &[u8], answer: &[u8]) -> Option<MoveAdvice>
    ensures { IsSome result →
        Says answer.now (codes "refused word ") ⊎ Says answer.now (codes "refused ply ") }
{
    let game = if kind == InputKind::Moves {
        input
    } else {
        after_fen(kind, input)
    };
    match refusal_of(answer) {
        Some(Refusal::Word(number)) => Some(advise_word(kind, game, number)),
        Some(Refusal::Ply(number)) => advise_ply(game, number),
        _ => None,
    }
}

/// The answer refuses the first line of a certificate, as text.
fn refuses_first_line(answer: &[u8]) -> bool
    ensures { IsTrue result → Says answer.now (codes "refused line 1 text") }
{
    matches!(refusal_of(answer), Some(Refusal::FirstLine))
}

/// What is wrong with an input that is refused; None if it is of the command's form, or isn't known.
fn advise_refused(words: &[String], input: &[u8], answer: &[u8]) -> Option<Advice>
    ensures { IfSome result (λ advice. GoesWith advice words.now input.now Refused answer.now) }
{
    if ask_for_certificate(words) && refuses_first_line(answer) {
        match advise_text(ask_to_explain(words), input) {
            Some(advice) => Some(Advice::Texts(advice)),
            None => None,
        }
    } else if ask_for_game(words) {
        match advise_game(kind_of(words), input, answer) {
            Some(advice) => Some(Advice::Moves(advice)),
            None => None,
        }
    } else {
        None
    }
}

/// The advice with the call of the command, if the input is empty.
fn with_call(words: &[String], advice: Advice) -> Hint
    ensures advice { result.advice ≡ advice }
    ensures called { IfSome result.call (λ call. Begin words.now call.name.now) }
    ensures shown { advice ≡ Lines Empty → IsSome result.call ↔ NameCommand words.now }
{
    let call = match advice {
        Advice::Lines(LineAdvice::Empty) => first_row(words),
        _ => None,
    };
    Hint { advice, call }
}

/// What a user is told after a run with these words, by the front of its input, its status, and the front of what it wrote. It comes
/// at each bad words and each bad input; else only if a text was refused that is of another kind than a certificate or a game's.
pub fn advise(
    alloc: Global,
    words: &[String],
    input: &[u8],
    status: Status,
    answer: &[u8],
) -> Option<Hint>
    // A hint goes with the run's status and with the words, the input or the answer that it takes the run for. What its text tells of
    // them is so of three kinds of advice on words, and of an empty input; of the other kinds this says nothing.
    ensures fits { IfSome result
        (λ hint. GoesWith hint.advice words.now input.now status answer.now) }

    // One comes at all bad words and all bad input, and is one on the FEN line if and only if the answer names a field of this.
    ensures bad_words { status ≡ BadWords → IsSome result }
    ensures bad_input { status ≡ BadInput → IsSome result }
    ensures fen { status ≡ BadInput → Says answer.now (codes "bad fen field ") →
        IfSome result (λ hint. IsOfFen hint.advice) }

    // The call that it shows is that of the first word, or one that it tells as the nearest; an empty input is told with it.
    ensures called { IfSome result
        (λ hint. IfSome hint.call
        (λ call. (hint.advice ≡ Words NearestCommand) ⊎ Begin words.now call.name.now)) }
    ensures shown { IfSome result
        (λ hint. hint.advice ≡ Lines Empty → IsSome hint.call ↔ NameCommand words.now) }
{
    match status {
        Status::BadWords => Some(advise_words(alloc, words)),
        Status::BadInput => {
            let advice = advise_input(kind_of(words), input, answer);
            Some(with_call(words, advice))
        }
        Status::Refused => match advise_refused(words, input, answer) {
            Some(advice) => Some(Hint::plain(advice)),
            None => None,
        },
        _ => None,
    }
}
