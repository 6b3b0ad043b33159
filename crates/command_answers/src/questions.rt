ghost use Rattle.std.specs.Prelude.{◌≡◌, IfOk};
ghost use Rattle.question_text.specs.declared.faults.InputFault.TheVariants.{BadLine, BadFen};
ghost use Rattle.command_answers.specs.Questions.{fault_line};

use fen_text::FenFault;
use question_text::InputFault;
use std::alloc::{AllocError, Global};

fn write_bad_line(alloc: Global, line: u32) -> Result<Vec<u8>, AllocError>
    ensures { IfOk result (λ v. v.items ≡ fault_line (BadLine line)) }
{
    Ok(format!(in alloc; "bad line {line}\n")?.into_bytes())
}

fn write_fen_fault(alloc: Global, fault: FenFault) -> Result<Vec<u8>, AllocError>
    ensures { IfOk result (λ v. v.items ≡ fault_line (BadFen fault)) }
{
    let field = fault.field;
    let at = fault.at;
    Ok(format!(in alloc; "bad fen field {field} byte {at}\n")?.into_bytes())
}

/// The line that says what is wrong with an input: `bad line n`, or `bad fen field f byte b`.
pub fn write_fault(alloc: Global, why: InputFault) -> Result<Vec<u8>, AllocError>
    ensures { IfOk result (λ v. v.items ≡ fault_line why) }
{
    match why {
        InputFault::BadLine { line } => write_bad_line(alloc, line),
        InputFault::BadFen(fault) => write_fen_fault(alloc, fault),
    }
}
