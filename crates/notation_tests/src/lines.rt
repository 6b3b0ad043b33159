//! Inputs that begin with the lines of a position. What isn't one stands among the rows of `rows_run`.

use question_text::read_question;

/// Odds, clock, how many lines, and what follows them, of an input.
type Asked = (u64, Option<u16>, u32, &'static [u8]);

/// What an input asks, if it isn't too long.
fn asked(input: &'static [u8]) -> Option<Asked> {
    if input.len() > 1_000 {
        return None;
    }
    match read_question(input) {
        Ok(question) => Some((
            question.query.odds.set().bits(),
            question.query.clock,
            question.lines,
            question.rest,
        )),
        Err(_) => None,
    }
}

/// Inputs, and what they ask.
const QUESTIONS: [(&str, Asked); 8] = [
    ("8/8/8/8/8/8/8/8 w - -", (0, None, 1, b"")),
    ("8/8/8/8/8/8/8/8 w - - 3 40\ne2e4", (0, None, 1, b"e2e4")),
    (
        "odds 0000000000000002\n8/8/8/8/8/8/8/8 w - -\n\n",
        (2, None, 2, b"\n"),
    ),
    ("clock 7\r\n8/8/8/8/8/8/8/8 w - -\r\n", (0, Some(7), 2, b"")),
    (
        "clock 7\n8/8/8/8/8/8/8/8 w - - 007 1\nclock 7\n",
        (0, Some(7), 2, b"clock 7\n"),
    ),
    (
        "odds 0000000000000080\nclock 0\n8/8/8/8/8/8/8/8 w - - 0 1\n",
        (128, Some(0), 3, b""),
    ),
    (
        "odds 0000000000000080\r\nclock 9999\r\n8/8/8/8/8/8/8/8 w - -\r\n\r\n",
        (128, Some(9_999), 3, b"\r\n"),
    ),
    (
        "clock 9999\n8/8/8/8/8/8/8/8 w - - 000009999 0",
        (0, Some(9_999), 2, b""),
    ),
];

/// The first input that doesn't ask what it should, and what it asks.
fn first_otherwise() -> Option<(&'static str, Option<Asked>)> {
    for (input, question) in QUESTIONS {
        let answer = asked(input.as_bytes());
        if answer != Some(question) {
            return Some((input, answer));
        }
    }
    None
}

#[test]
fn reads_positions(rt: HostRuntime) {
    assert_eq!(rt; first_otherwise(), None);
}
