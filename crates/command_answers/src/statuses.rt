ghost use Rattle.std.specs.Prelude.{◌≡◌};
ghost use Rattle.std.specs.Process.{exit_status};
ghost use Rattle.command_answers.specs.Statuses.{code_of};

use std::process::ExitCode;

/// How a run of the program ended.
#[derive(Clone, Copy, PartialEq, Eq, Debug)]
pub enum Status {
    /// The command did what it was asked to.
    Done,
    /// What was read is refused, and the line that was written says why.
    Refused,
    /// Nothing is decided: `solve` or `settle` found neither a proof nor a game against the claim, `dossier` no proof of a part, or
    /// both sides have more than the sixteen men of whom `length` tells.
    Undecided,
    /// The search visited as many queries as it was allowed to, or the tree has more lines.
    Spent,
    /// The search found a game against the claim.
    Countered,
    /// The words call no command.
    BadWords,
    /// The input isn't of the command's form.
    BadInput,
    /// A read failed.
    ReadFault,
    /// A write failed.
    WriteFault,
    /// Out of memory.
    Memory,
    /// The input has more bytes than a command reads.
    TooLong,
}

impl Status {
    /// The number with which the program ends, from 0 to 10 in the order of the variants.
    pub fn code(self) -> u8
        ensures { result ≡ code_of self }
    {
        self as u8
    }

    /// What the process ends with: this number.
    pub fn exit_code(self) -> ExitCode
        ensures { exit_status result ≡ code_of self }
    {
        ExitCode::from(self.code())
    }
}
