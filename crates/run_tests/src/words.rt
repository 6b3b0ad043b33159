//! Words that call no command, since a blank is in one, or nothing. Others stand among the rows of `rows_run`.

use run_driver::{Row, Status, WHOLE, is_answered};
use std::test::Fail;

const NO_COMMANDS: [&[&str]; 6] = [
    &[""],
    &["play "],
    &["check", ""],
    &["solve", "2 ", "10"],
    &["solve", "", "10"],
    &["solve 2 10"],
];

#[test]
fn refuses_other_words(rt: HostRuntime) -> Result<(), Fail> {
    for words in NO_COMMANDS {
        let row = Row {
            words,
            input: b"claim illegal\n8/8/8/8/8/8/8/8 w - -\n",
            status: Status::BadWords,
            text: b"",
        };
        assert!(rt; is_answered(rt.alloc(), &row, WHOLE)?);
    }
    Ok(())
}
