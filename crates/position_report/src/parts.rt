//! Parts of a report.

ghost use Rattle.std.specs.Prelude.{◌≡◌, ◌++◌, IfOk};
ghost use Rattle.position_report.specs.Parts.{part_text};

use prose_words::say;
use std::alloc::AllocError;

/// Adds a part behind an empty line, if it has text.
pub(crate) fn push_part(part: &[u8], out: &mut Vec<u8>) -> Result<(), AllocError>
    ensures { IfOk result (λ _. out.new.items ≡ out.old.items ++ part_text part.now) }
{
    if part.len() == 0 {
        return Ok(());
    }
    say(b"\n", out)?;
    say(part, out)
}
