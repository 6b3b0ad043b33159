ghost use Rattle.std.specs.Prelude.{◌≡◌, Some, None, MatchOption};
ghost use Rattle.board_base.specs.Texts.{is_digit};
ghost use Rattle.san_text.specs.Words.{is_result, after_digits, after_dots, rest_of, said_of, word_of};

use crate::grammar::{San, read_grammar};

/// What a word of a game tells, if it isn't a result.
#[derive(Clone, Copy)]
pub enum Word {
    /// A move's number alone.
    Number,
    /// A move, with its number or without.
    Move(San),
}

fn is_digit(byte: u8) -> bool
    ensures { result ≡ is_digit byte }
{
    b'0' <= byte && byte <= b'9'
}

/// The word is a game's result: `1-0`, `0-1`, `1/2-1/2` or `*`.
pub fn is_result(word: &[u8]) -> bool
    ensures { result ≡ is_result word.now }
{
    match word {
        [a] => *a == b'*',
        [a, b, c] => {
            (*a == b'1' && *b == b'-' && *c == b'0') || (*a == b'0' && *b == b'-' && *c == b'1')
        }
        [a, b, c, d, e, f, g] => {
            *a == b'1'
                && *b == b'/'
                && *c == b'2'
                && *d == b'-'
                && *e == b'1'
                && *f == b'/'
                && *g == b'2'
        }
        _ => false,
    }
}

/// What follows the digits with which a text begins.
fn after_digits(text: &[u8]) -> &[u8]
    ensures { result.now ≡ after_digits text.now }
{
    for i in 0..text.len() {
        if !is_digit(text[i]) {
            return &text[i..];
        }
    }
    &text[text.len()..]
}

fn after_dots(text: &[u8]) -> Option<&[u8]>
    ensures { MatchOption result (after_dots text.now ≡ None) (λ rest. after_dots text.now ≡ Some rest.now) }
{
    match text {
        [a, b, c, rest @ ..] if *a == b'.' && *b == b'.' && *c == b'.' => Some(rest),
        [a, rest @ ..] if *a == b'.' => Some(rest),
        _ => None,
    }
}

/// What follows a move's number, and else the word; None if a word begins with a digit and has no number.
fn rest_of(word: &[u8]) -> Option<&[u8]>
    ensures { MatchOption result (rest_of word.now ≡ None) (λ rest. rest_of word.now ≡ Some rest.now) }
{
    match word {
        [] => None,
        [byte, rest @ ..] => {
            if is_digit(*byte) {
                after_dots(after_digits(rest))
            } else {
                Some(word)
            }
        }
    }
}

fn read_rest(rest: &[u8]) -> Option<Word>
    ensures { result ≡ said_of rest.now }
{
    match rest {
        [] => Some(Word::Number),
        [_, ..] => match read_grammar(rest) {
            Some(said) => Some(Word::Move(said)),
            None => None,
        },
    }
}

/// What a word of a game tells: a move's number, one or more digits with one dot or three, then a move's text or nothing; or a
/// move's text alone. None if and only if the word is neither.
pub fn read_word(word: &[u8]) -> Option<Word>
    ensures { result ≡ word_of word.now }
{
    match rest_of(word) {
        Some(rest) => read_rest(rest),
        None => None,
    }
}
