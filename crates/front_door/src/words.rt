//! What is wrong with words that call no command.

ghost use Rattle.std.specs.Prelude.{◌≡◌, IfSome, List, Some, None, String};
ghost use Rattle.std.specs.Global.{Global as AGlobal};
ghost use Rattle.retro_top.specs.Names.{NameCommand};
ghost use Rattle.front_door.specs.Hints.{TellsWords};
ghost use Rattle.front_door.specs.WordHints.{IsOfWords, ShowsCall};
ghost use Rattle.hint_texts.specs.declared.advice.Advice.TheVariants.{Words};
ghost use Rattle.hint_texts.specs.declared.advice.WordAdvice.TheVariants.{NearestCommand};

use crate::fens::fills;
use crate::hints::{Hint, begin};
use hint_texts::{Advice, WordAdvice};
use retro_top::{InputKind, Number, ROWS, RestFault, Row, WordFault, parse_words};
use std::alloc::{AllocError, Global};
use strsim::osa_distance;

/// The most bytes of a word that is taken for a misspelt name.
const MOST_NAME: usize = 16;

/// The most steps from a misspelt word to the name that is meant.
const MOST_STEPS: usize = 2;

fn plain(advice: WordAdvice) -> Hint
    ensures advice { result.advice ≡ Words advice }
    ensures call { result.call ≡ None }
{
    Hint::plain(Advice::Words(advice))
}

fn about(advice: WordAdvice, row: Row) -> Hint
    ensures advice { result.advice ≡ Words advice }
    ensures call { result.call ≡ Some row }
{
    Hint::of_call(Advice::Words(advice), row)
}

/// The word asks for the usage or the version.
pub(crate) fn is_option(word: &str) -> bool {
    matches!(word, "--help" | "--version")
}

/// The word asks so in another way.
fn is_plea(word: &str) -> bool {
    matches!(
        word,
        "help" | "-h" | "-help" | "-?" | "?" | "version" | "-v" | "-V"
    )
}

/// The word looks like a file name, a position or a claim.
fn is_input(word: &str) -> bool {
    let text = word.as_bytes();
    text.starts_with(b"claim")
        || text
            .iter()
            .any(|byte| matches!(*byte, b'/' | b'.' | b' ' | b'<'))
}

/// The word begins as a position does: with men and numbers of empty squares, rank by rank.
fn is_position(word: &str) -> bool {
    let text = word.as_bytes();
    let men = text.split(|byte| *byte == b' ').next().unwrap_or(b"");
    men.contains(&b'/')
        && men
            .iter()
            .all(|byte| fills(*byte) || matches!(*byte, b'/' | b'S' | b's'))
}

/// The word begins as a claim does.
fn is_claim(word: &str) -> bool {
    word == "claim" || word.as_bytes().starts_with(b"claim ")
}

/// The word is a number, as far as its signs go.
fn is_number(word: &str) -> bool {
    word.as_bytes().iter().all(|byte| byte.is_ascii_digit())
}

/// The command whose name is nearest to the word, if one is near.
fn nearest(alloc: Global, word: &str) -> Result<Option<Row>, AllocError> {
    if word.len() > MOST_NAME {
        return Ok(None);
    }
    let mut found = None;
    let mut least = MOST_STEPS + 1;
    for row in ROWS {
        let steps = osa_distance(alloc, word, row.name)?;
        if steps < least && steps < row.name.len() {
            least = steps;
            found = Some(row);
        }
    }
    Ok(found)
}

/// What is said of words whose first is no command's name.
fn advise_name(alloc: Global, words: &[String]) -> Hint
    ensures told { (NameCommand words.now → ⊥) → IsOfWords result words.now }
    ensures called { IfSome result.call (λ call. result.advice ≡ Words NearestCommand) }
{
    let [first, ..] = words else {
        return plain(WordAdvice::Usage);
    };
    let first = first.as_str();
    if begin(words, b"--help") || begin(words, b"--version") {
        return plain(WordAdvice::StandsAlone);
    }
    if is_plea(first) {
        return plain(WordAdvice::Usage);
    }
    if is_input(first) {
        return plain(WordAdvice::CommandFirst);
    }
    match nearest(alloc, first) {
        Ok(Some(row)) => about(WordAdvice::NearestCommand, row),
        _ => plain(WordAdvice::NoCommand),
    }
}

fn advice_on(number: Number) -> WordAdvice
    ensures { (words : List (String AGlobal)) → TellsWords result words }
{
    match number {
        Number::Depth => WordAdvice::Depth,
        Number::Nodes => WordAdvice::Nodes,
        Number::Start => WordAdvice::Start,
        Number::Games => WordAdvice::Games,
        Number::Plies => WordAdvice::Plies,
    }
}

/// The second word of the line that says how the command is called is this one.
fn takes(row: &Row, word: &str) -> bool {
    row.line.split(' ').nth(1) == Some(word)
}

/// What is said of too many or too few words behind a command's name.
fn advice_on_count(row: &Row, words: &[String]) -> WordAdvice
    ensures { (all : List (String AGlobal)) → TellsWords result all }
{
    match words {
        [_] if takes(row, "DEPTH") => WordAdvice::NoNumbers,
        [_, depth] if is_number(depth.as_str()) && takes(row, "DEPTH") => WordAdvice::NoNodes,
        [_, depth] if is_number(depth.as_str()) && takes(row, "[DEPTH") => WordAdvice::BothNumbers,
        _ => WordAdvice::Count,
    }
}

/// What is said of an input among the words of a command that reads this; `typed` if it is a position or a claim and no file.
fn advice_on_input(kind: InputKind, typed: bool) -> WordAdvice
    ensures { (all : List (String AGlobal)) → TellsWords result all }
{
    match kind {
        _ if !typed => WordAdvice::FileAsWord,
        InputKind::Position | InputKind::PlainPosition => WordAdvice::PositionAsWord,
        InputKind::Claim | InputKind::Steps => WordAdvice::ClaimAsWord,
        _ => WordAdvice::ComesByInput,
    }
}

/// What is said of the words behind a command's name.
fn advise_rest(row: Row, words: &[String], why: RestFault) -> Hint
    ensures told { (words : List (String AGlobal)) → IsOfWords result words }
    ensures called { result.call ≡ Some row }
{
    if row.reads() && words.iter().skip(1).any(|word| is_input(word.as_str())) {
        let typed = words.iter().skip(1).any(|word| is_position(word.as_str())
            || is_claim(word.as_str()));
        return about(advice_on_input(row.input, typed), row);
    }
    match why {
        RestFault::Count => about(advice_on_count(&row, words), row),
        RestFault::Number(number) => about(advice_on(number), row),
    }
}

/// What is wrong with words that call no command.
pub(crate) fn advise_words(alloc: Global, words: &[String]) -> Hint
    ensures told { IsOfWords result words.now }
    ensures called { ShowsCall result words.now }
{
    match parse_words(words) {
        Ok(_) => plain(WordAdvice::Usage),
        Err(WordFault::Name) => advise_name(alloc, words),
        Err(WordFault::Rest(row, why)) => advise_rest(row, words, why),
    }
}
