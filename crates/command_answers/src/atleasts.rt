ghost use Rattle.std.specs.Prelude.{◌≡◌, ◌≢◌, ◌≤◌, ◌+◌, Err, IfOk};
ghost use Rattle.retro_ports.specs.Causes.{Rose};
ghost use Rattle.retro_ports.specs.Ends.{ReadSome};
ghost use Rattle.command_answers.specs.Limits.{most_bytes};
ghost use Rattle.command_answers.specs.Inputs.{ReadsAll};
ghost use Rattle.command_answers.specs.AtLeasts.{AnswersAtLeast};

use crate::statuses::Status;
use crate::told::{bound, refusal, unsupported};
use arrayvec::ArrayVec;
use length_bound::{LengthRefused, check_length, one_length_text_each};
use retro_ports::{Source, Unread};

/// The status and the line with which `atleast` answers what the source gives, of at most 67,108,864 bytes. It takes no memory.
#[inline(never)]
pub fn answer_atleast<S: Source>(src: &mut S) -> Result<(Status, ArrayVec<u8, 512>), Unread>
    ensures answer { IfOk result
        (λ a. ReadsAll most_bytes (S.left src.old) (S.left src.new) (λ input. AnswersAtLeast input a.0 a.1.items)) }
    ensures too_long { result ≡ Err Unread.TooLong →
        ReadSome (S.left src.old) (S.left src.new) (λ n. n ≡ most_bytes + 1) }
    ensures failed { result ≡ Err Unread.Failed →
        ReadSome (S.left src.old) (S.left src.new) (λ n. n ≤ most_bytes) }
    ensures cause { result ≡ Err Unread.Failed → Rose (S.faults src.old) (S.faults src.new) }
    ensures kept { result ≢ Err Unread.Failed → S.faults src.new ≡ S.faults src.old }
    ensures later { S.faults src.old ≤ S.faults src.new }
{
    one_length_text_each();
    match check_length(src) {
        Ok(found) => Ok((Status::Done, bound(found.0, &found.1))),
        Err(LengthRefused::BadText { line }) => Ok((Status::Refused, refusal(line, b"text"))),
        Err(LengthRefused::Unsupported) => Ok((Status::Refused, unsupported())),
        Err(LengthRefused::TooLong) => Err(Unread::TooLong),
        Err(LengthRefused::ReadFault) => Err(Unread::Failed),
    }
}
