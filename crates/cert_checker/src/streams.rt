ghost use Rattle.std.specs.Prelude.{◌≡◌, ◌≢◌, ◌≤◌, ◌+◌, Err, Some, IfOk, IfSome};
ghost use Rattle.retro_ports.specs.Causes.{Rose};
ghost use Rattle.retro_ports.specs.Ends.{ReadSome};
ghost use Rattle.query_base.specs.Reach.{Holds};
ghost use Rattle.cert_checker.specs.Answers.{answer_as};
ghost use Rattle.cert_checker.specs.Remains.{AnswersAll, streamed};

use crate::checkers::Checker;
use crate::refusals::{Accepted, Fault, StreamRefused};
use retro_ports::{MOST_BYTES, PIECE, Source, Unread, read_piece};

fn streamed(answer: Result<Accepted, Fault>) -> Result<Accepted, StreamRefused>
    ensures { streamed result ≡ Some (answer_as answer) }
{
    match answer {
        Ok(accepted) => Ok(accepted),
        Err(Fault::BadText { line }) => Err(StreamRefused::BadText { line }),
        Err(Fault::Unlisted { line, unmove }) => Err(StreamRefused::Unlisted { line, unmove }),
        Err(Fault::Unsupported { line, why }) => Err(StreamRefused::Unsupported { line, why }),
    }
}

/// Checks the certificate whose text the source gives, of at most 67,108,864 bytes. They are read to their end, to the first byte
/// past so many, or to a failure, whatever was seen before. `Ok` comes if and only if they are the text of a certificate that proves
/// its claim, with that claim and its query; `BadText` if and only if they are no certificate's text; `Unlisted` and `Unsupported`
/// in all other cases, with the first fault that the walk of the certificate in preorder meets. `TooLong` comes if and only if one
/// byte more was read, and `ReadFault` only if a read failed. This takes no memory.
pub fn check_stream<S: Source>(src: &mut S) -> Result<Accepted, StreamRefused>
    // The answer is that of the grammar and the walk to all bytes that were left, if they were read to their end.
    ensures answer { IfSome (streamed result) (AnswersAll MOST_BYTES (S.left src.old) (S.left src.new)) }

    // No game, of any length, contradicts a claim that is accepted.
    ensures holds { IfOk result (λ a. Holds a.claim a.query) }

    // Too long an input is answered only if one byte more than the limit was read, and a failure only if the count of
    // faults rose.
    ensures too_long { result ≡ Err StreamRefused.TooLong → ReadSome (S.left src.old) (S.left src.new) (λ n. n ≡ MOST_BYTES + 1) }
    ensures failed { result ≡ Err StreamRefused.ReadFault → ReadSome (S.left src.old) (S.left src.new) (λ n. n ≤ MOST_BYTES) }
    ensures cause { result ≡ Err StreamRefused.ReadFault → Rose (S.faults src.old) (S.faults src.new) }
    ensures kept { result ≢ Err StreamRefused.ReadFault → S.faults src.new ≡ S.faults src.old }
    ensures later { S.faults src.old ≤ S.faults src.new }
{
    let mut checker = Checker::new();
    let mut buffer = [0; PIECE];
    let chunk = buffer.as_mut_slice();
    'reads: loop {
        match read_piece(src, chunk, MOST_BYTES - checker.fed() as usize) {
            Err(Unread::Failed) => return Err(StreamRefused::ReadFault),
            Err(Unread::TooLong) => return Err(StreamRefused::TooLong),
            Ok(0) => return streamed(checker.finish()),
            Ok(n) => checker.feed(&chunk[..n]),
        }
    }
}
