ghost use Rattle.std.specs.Prelude.{◌≡◌, ◌≢◌, ◌≤◌, ◌++◌, ◌+◌, Err, IfOk, codes};
ghost use Rattle.retro_ports.specs.Causes.{Rose};
ghost use Rattle.retro_ports.specs.Ends.{ReadSome};
ghost use Rattle.command_answers.specs.Limits.{most_bytes};
ghost use Rattle.command_answers.specs.Inputs.{ReadsAll};
ghost use Rattle.command_answers.specs.Checks.{AnswersCheck, why_word};

use crate::statuses::Status;
use crate::told::{accepted, refusal, unlisted};
use arrayvec::ArrayVec;
use cert_checker::{
    StreamRefused, Why, accepted_bar_no_move, accepted_have_texts, check_stream,
    unlisted_have_texts,
};
use retro_ports::{Source, Unread};

pub(crate) fn word(why: Why) -> &'static [u8]
    ensures { result.now ≡ codes "unsupported " ++ why_word why }
{
    match why {
        Why::Rule => b"unsupported rule",
        Why::Back => b"unsupported back",
        Why::Array => b"unsupported array",
        Why::Stray => b"unsupported stray",
    }
}

/// The status and the line with which `check` answers what the source gives, of at most 67,108,864 bytes. It takes no memory.
#[inline(never)]
pub fn answer_check<S: Source>(src: &mut S) -> Result<(Status, ArrayVec<u8, 512>), Unread>
    ensures answer { IfOk result
        (λ a. ReadsAll most_bytes (S.left src.old) (S.left src.new) (λ input. AnswersCheck input a.0 a.1.items)) }
    ensures too_long { result ≡ Err Unread.TooLong →
        ReadSome (S.left src.old) (S.left src.new) (λ n. n ≡ most_bytes + 1) }
    ensures failed { result ≡ Err Unread.Failed →
        ReadSome (S.left src.old) (S.left src.new) (λ n. n ≤ most_bytes) }
    ensures cause { result ≡ Err Unread.Failed → Rose (S.faults src.old) (S.faults src.new) }
    ensures kept { result ≢ Err Unread.Failed → S.faults src.new ≡ S.faults src.old }
    ensures later { S.faults src.old ≤ S.faults src.new }
{
    accepted_bar_no_move();
    accepted_have_texts();
    unlisted_have_texts();
    match check_stream(src) {
        Ok(found) => Ok((Status::Done, accepted(&found.claim, &found.query))),
        Err(StreamRefused::BadText { line }) => Ok((Status::Refused, refusal(line, b"text"))),
        Err(StreamRefused::Unlisted { line, unmove }) => {
            Ok((Status::Refused, unlisted(line, &unmove)))
        }
        Err(StreamRefused::Unsupported { line, why }) => {
            Ok((Status::Refused, refusal(line, word(why))))
        }
        Err(StreamRefused::TooLong) => Err(Unread::TooLong),
        Err(StreamRefused::ReadFault) => Err(Unread::Failed),
    }
}
