ghost use Rattle.std.specs.Prelude.{◌≡◌, ◌++◌, ◌*◌, ◌≤◌, IfOk, replicate};
ghost use Rattle.tree_browser.specs.Trees.{line, note_text};

use crate::notes::Note;
use std::alloc::{AllocError, Global};

fn write_spaces(count: usize, text: &mut Vec<u8>) -> Result<(), AllocError>
    ensures { IfOk result (λ _. text.new.items ≡ text.old.items ++ replicate count 32) }
{
    for _ in 0..count {
        text.push(b' ')?;
    }
    Ok(())
}

fn write_note(alloc: Global, note: Note, text: &mut Vec<u8>) -> Result<(), AllocError>
    ensures { IfOk result (λ _. text.new.items ≡ text.old.items ++ note_text note) }
{
    match note {
        Note::Closed => text.extend_from_slice(b"closed")?,
        Note::Back(steps) => {
            let words = format!(in alloc; "back {steps}")?;
            text.extend_from_slice(words.as_bytes())?;
        }
        Note::Array => text.extend_from_slice(b"array")?,
        Note::End => text.extend_from_slice(b"end")?,
        Note::Expand(number) => {
            let words = format!(in alloc; "expand {number}")?;
            text.extend_from_slice(words.as_bytes())?;
        }
    }
    Ok(())
}

/// Adds the line of a node.
#[tactic(auto, unfolding(crate::specs::Trees::line))]
pub(crate) fn write_line(
    alloc: Global,
    level: usize,
    label: &[u8],
    note: Note,
    text: &mut Vec<u8>,
) -> Result<(), AllocError>
    requires { level ≤ 64 }
    ensures { IfOk result (λ _. text.new.items ≡ text.old.items ++ line level label.now note) }
{
    write_spaces(2 * level, text)?;
    text.extend_from_slice(label)?;
    text.push(b' ')?;
    write_note(alloc, note, text)?;
    text.push(b'\n')?;
    Ok(())
}
