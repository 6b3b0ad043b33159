ghost use Rattle.std.specs.Prelude.{◌≡◌, ◌≢◌, ◌≤◌, ◌+◌, Err, IfOk};
ghost use Rattle.retro_ports.specs.Causes.{Rose};
ghost use Rattle.retro_ports.specs.Ends.{ReadSome};
ghost use Rattle.command_answers.specs.Limits.{most_bytes};
ghost use Rattle.command_answers.specs.Inputs.{ReadsAll};
ghost use Rattle.command_answers.specs.Lines.{AnswersLine};

use crate::checks::word;
use crate::statuses::Status;
use crate::told::{
    accepted_steps, no_head, part_line_refusal, part_refusal, refused_step, unlisted_in,
};
use arrayvec::ArrayVec;
use dossier_checker::{
    DossierRefused, accepted_lines_are_written, check_dossier, unlisted_in_parts_have_texts,
};
use retro_ports::{Source, Unread};

/// The status and the line with which `line` answers what the source gives, of at most 67,108,864 bytes. It takes no memory.
#[inline(never)]
pub fn answer_line<S: Source>(src: &mut S) -> Result<(Status, ArrayVec<u8, 512>), Unread>
    ensures answer { IfOk result
        (λ a. ReadsAll most_bytes (S.left src.old) (S.left src.new) (λ input. AnswersLine input a.0 a.1.items)) }
    ensures too_long { result ≡ Err Unread.TooLong →
        ReadSome (S.left src.old) (S.left src.new) (λ n. n ≡ most_bytes + 1) }
    ensures failed { result ≡ Err Unread.Failed →
        ReadSome (S.left src.old) (S.left src.new) (λ n. n ≤ most_bytes) }
    ensures cause { result ≡ Err Unread.Failed → Rose (S.faults src.old) (S.faults src.new) }
    ensures kept { result ≢ Err Unread.Failed → S.faults src.new ≡ S.faults src.old }
    ensures later { S.faults src.old ≤ S.faults src.new }
{
    accepted_lines_are_written();
    unlisted_in_parts_have_texts();
    match check_dossier(src) {
        Ok(found) => Ok((Status::Done, accepted_steps(&found.claim, &found.query))),
        Err(DossierRefused::Head) => Ok((Status::Refused, no_head())),
        Err(DossierRefused::UnlistedStep { step }) => Ok((Status::Refused, refused_step(step))),
        Err(DossierRefused::NoPart { part }) => Ok((Status::Refused, part_refusal(part, b"text"))),
        Err(DossierRefused::BadText { part, line }) => {
            Ok((Status::Refused, part_line_refusal(part, line, b"text")))
        }
        Err(DossierRefused::Unlisted { part, line, unmove }) => {
            Ok((Status::Refused, unlisted_in(part, line, &unmove)))
        }
        Err(DossierRefused::Unsupported { part, line, why }) => {
            Ok((Status::Refused, part_line_refusal(part, line, word(why))))
        }
        Err(DossierRefused::Other { part }) => Ok((Status::Refused, part_refusal(part, b"other"))),
        Err(DossierRefused::TooLong) => Err(Unread::TooLong),
        Err(DossierRefused::ReadFault) => Err(Unread::Failed),
    }
}
