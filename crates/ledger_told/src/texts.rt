ghost use Rattle.std.specs.Prelude.{◌≡◌, ◌++◌, OnOk};
ghost use Rattle.ledger_told.specs.Told.{lines_text, whole_text};

use ledger_lines::{Line, write_line};
use prose_words::say;
use std::alloc::AllocError;

/// Adds the line with its end.
pub fn push_line(line: &Line, out: &mut Vec<u8>) -> Result<(), AllocError>
    ensures { OnOk result (out.new.items ≡ out.old.items ++ whole_text line.now) }
{
    write_line(line, out)?;
    say(b"\n", out)
}

/// Adds the text of these lines, in order and each with its end.
pub fn write_lines(lines: &[Line], out: &mut Vec<u8>) -> Result<(), AllocError>
    ensures { OnOk result (out.new.items ≡ out.old.items ++ lines_text lines.now) }
{
    for line in lines {
        push_line(line, out)?;
    }
    Ok(())
}
