ghost use Rattle.std.specs.Prelude.{◌≡◌, ◌≢◌, ◌≤◌, ◌+◌, Err, IfOk, IfSome};
ghost use Rattle.retro_ports.specs.Causes.{Rose};
ghost use Rattle.retro_ports.specs.Ends.{ReadSome};
ghost use Rattle.line_claims.specs.Holding.{HoldsLine};
ghost use Rattle.dossier_checker.specs.DossierReading.{AnswersDossierAll, dossier_answer};

use crate::refusals::{AcceptedLine, DossierRefused};
use crate::stages::{feed, finish, start};
use dossier_text::dossiers_prove;
use retro_ports::{MOST_BYTES, PIECE, Source, Unread, read_piece};

/// Checks the dossier whose text the source gives, of at most 67,108,864 bytes. They are read to their end, to the first byte past
/// so many, or to a failure, whatever was seen before. A dossier begins with a head, whose lines end with one `\n` each:
///
/// 1. `retro line 1`.
/// 2. The claim of several steps, as `read_line_claim` reads it.
/// 3. If men of the array are left out, `odds` and the set of their squares, as `read_odds` reads it; then, if a clock is
///    demanded, `clock` and its number.
/// 4. `fen` and a FEN of four fields.
///
/// Then come the parts due of the claim, in their order, and nothing else: of each a line `part` and the number of its bytes, from 1
/// to 67,108,864 and with no leading zero, and these bytes. They are the text of a certificate that proves what is due.
///
/// `Ok` comes if and only if the bytes are so, with the claim and the query. The refusals come in all other cases, with the first fault
/// in this order: `Head` if no front of the bytes is a head; `UnlistedStep` if the claim has a step that isn't
/// listed, so that no parts are due; and of the first part that is not what is due, `NoPart` if it doesn't begin there or has
/// fewer bytes than it says, `BadText`, `Unlisted` and `Unsupported` as `check_stream` answers to its bytes, and `Other` if it
/// proves another claim, or one about another query. Where all parts came and bytes follow, that is `NoPart` too. `TooLong` comes
/// if and only if one byte more was read, and `ReadFault` only if a read failed. This takes no memory.
pub fn check_dossier<S: Source>(src: &mut S) -> Result<AcceptedLine, DossierRefused>
    // The answer is that of the grammar, the parts due and their certificates' walks to all bytes that were left, if they were
    // read to their end.
    ensures answer { IfSome (dossier_answer result) (AnswersDossierAll MOST_BYTES (S.left src.old) (S.left src.new)) }

    // No game, of any length, contradicts a claim that is accepted.
    ensures holds { IfOk result (λ a. HoldsLine a.claim a.query) }

    // Too long an input is answered only if one byte more than the limit was read, and a failure only if the count of
    // faults rose.
    ensures too_long { result ≡ Err DossierRefused.TooLong → ReadSome (S.left src.old) (S.left src.new) (λ n. n ≡ MOST_BYTES + 1) }
    ensures failed { result ≡ Err DossierRefused.ReadFault → ReadSome (S.left src.old) (S.left src.new) (λ n. n ≤ MOST_BYTES) }
    ensures cause { result ≡ Err DossierRefused.ReadFault → Rose (S.faults src.old) (S.faults src.new) }
    ensures kept { result ≢ Err DossierRefused.ReadFault → S.faults src.new ≡ S.faults src.old }
    ensures later { S.faults src.old ≤ S.faults src.new }
{
    dossiers_prove();
    let mut stage = start();
    let mut fed = 0;
    let mut buffer = [0; PIECE];
    let chunk = buffer.as_mut_slice();
    'reads: loop {
        match read_piece(src, chunk, MOST_BYTES - fed) {
            Err(Unread::Failed) => return Err(DossierRefused::ReadFault),
            Err(Unread::TooLong) => return Err(DossierRefused::TooLong),
            Ok(0) => return finish(stage),
            Ok(n) => {
                feed(&mut stage, &chunk[..n]);
                fed += n;
            }
        }
    }
}
