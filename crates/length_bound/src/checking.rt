ghost use Rattle.std.specs.Prelude.{ℕ, ◌≡◌, ◌≢◌, ◌<◌, ◌≤◌, ◌+◌, ◌++◌, [], Err, IfErr, IfOk, IfSome, IsSomeAnd, List, length, take};
ghost use Rattle.retro_ports.specs.Causes.{Rose};
ghost use Rattle.retro_ports.specs.Ends.{ReadSome};
ghost use Rattle.board_base.specs.declared.moves.Move.{Move};
ghost use Rattle.query_base.specs.Reach.{Reaches};
ghost use Rattle.cert_text.specs.Lines.{cut};
ghost use Rattle.length_bound.specs.LengthAnswers.{AnswersBytes, AnswersLength, IsShown, length_answer};
ghost use Rattle.length_bound.specs.LengthFronts.{ReadsFront};
ghost use Rattle.length_bound.specs.LengthText.{AreLengthLines};

use crate::lengths::length_of;
use crate::reading::read_length;
use crate::texts::LengthText;
use arrayvec::ArrayVec;
use query_base::Query;
use retro_ports::{MOST_BYTES, PIECE, Source, Unread, read_piece};

/// Why the bytes of a source are no text of a length, or don't show it.
#[derive(Clone, Copy, PartialEq, Eq, Debug)]
pub enum LengthRefused {
    /// The lines before this one, counted from 1, begin such a text. With it they begin none, or the bytes end before it where the
    /// text must go on.
    BadText { line: u32 },
    /// The bytes are such a text, and its potentials don't show that each game has at least so many half-moves.
    Unsupported,
    /// There are more than 67,108,864 bytes: one more was read.
    TooLong,
    /// A read failed.
    ReadFault,
}

/// Puts bytes, for which there is room, after the others.
fn push_front(bytes: &[u8], front: &mut ArrayVec<u8, 512>)
    requires { length front.old.items + length bytes.now ≤ 512 }
    ensures { front.new.items ≡ front.old.items ++ bytes.now }
{
    let _ = front.try_extend_from_slice(bytes);
}

/// The first bytes, as many as there is room for, are kept.
fn keep(piece: &[u8], front: &mut ArrayVec<u8, 512>)
    ensures { front.new.items ≡ take 512 (front.old.items ++ piece.now) }
{
    let room = 512 - front.len();
    let n = room.min(piece.len());
    push_front(&piece[..n], front);
}

/// Reads to the end of the source, and keeps the first 512 bytes.
fn read_front<S: Source>(src: &mut S, front: &mut ArrayVec<u8, 512>) -> Result<(), Unread>
    requires { front.old.items ≡ [] }
    ensures ok { IfOk result (λ u. ReadsFront (S.left src.old) (S.left src.new) front.new.items) }
    ensures too_long { result ≡ Err Unread.TooLong → ReadSome (S.left src.old) (S.left src.new) (λ n. n ≡ MOST_BYTES + 1) }
    ensures failed { result ≡ Err Unread.Failed → ReadSome (S.left src.old) (S.left src.new) (λ n. n ≤ MOST_BYTES) }
    ensures cause { result ≡ Err Unread.Failed → Rose (S.faults src.old) (S.faults src.new) }
    ensures kept { result ≢ Err Unread.Failed → S.faults src.new ≡ S.faults src.old }
    ensures later { S.faults src.old ≤ S.faults src.new }
{
    let mut fed = 0;
    let mut buffer = [0; PIECE];
    let chunk = buffer.as_mut_slice();
    'reads: loop {
        match read_piece(src, chunk, MOST_BYTES - fed) {
            Err(unread) => return Err(unread),
            Ok(0) => return Ok(()),
            Ok(n) => {
                keep(&chunk[..n], front);
                fed += n;
            }
        }
    }
}

/// The answer to a text, by its potentials.
fn judge(text: &LengthText) -> Result<(u16, Query), LengthRefused>
    ensures shown { IfOk result (λ p. IsShown text.now × (p.0 ≡ text.now.at_least) × (p.1 ≡ text.now.query)) }
    ensures other { IfErr result (λ e. (e ≡ LengthRefused.Unsupported) × (IsShown text.now → ⊥)) }
    ensures least { IfOk result (λ p. (g : List Move) → Reaches g p.1 → p.0 ≤ length g) }
{
    match length_of(&text.query, text.side, &text.potentials) {
        Some(length) => {
            if text.at_least <= length {
                Ok((text.at_least, text.query))
            } else {
                Err(LengthRefused::Unsupported)
            }
        }
        None => Err(LengthRefused::Unsupported),
    }
}

/// What the text of a length says, if its potentials show its number. Otherwise the refusal with which `check_length` answers a source of
/// these bytes. It takes no memory.
pub fn read_shown_length(bytes: &[u8]) -> Result<LengthText, LengthRefused>
    ensures text { IfOk result (λ text. AreLengthLines (cut bytes.now) text) }
    ensures shown { IfOk result IsShown }
    ensures refused { IfErr result (λ why. IsSomeAnd (length_answer (Err why)) (AnswersLength (cut bytes.now))) }
    ensures least { IfOk result (λ text. (g : List Move) → Reaches g text.query → text.at_least ≤ length g) }
{
    match read_length(bytes) {
        Ok(text) => match judge(&text) {
            Ok(_) => Ok(text),
            Err(why) => Err(why),
        },
        Err(line) => Err(LengthRefused::BadText { line }),
    }
}

/// The answer to bytes of which the first 512 are these, or to these if they are fewer. A text has fewer.
fn answer_to(front: &[u8]) -> Result<(u16, Query), LengthRefused>
    ensures answer { IfSome (length_answer result) (λ a. (others : List ℕ) → (length front.now < 512 → others ≡ []) → AnswersLength (cut (front.now ++ others)) a) }
    ensures short { result ≢ Err LengthRefused.TooLong }
    ensures read { result ≢ Err LengthRefused.ReadFault }
    ensures least { IfOk result (λ p. (g : List Move) → Reaches g p.1 → p.0 ≤ length g) }
{
    match read_length(front) {
        Ok(text) => judge(&text),
        Err(line) => Err(LengthRefused::BadText { line }),
    }
}

/// Checks the text of a length that the source gives, of at most 67,108,864 bytes. They are read to their end, to the first byte past
/// so many, or to a failure. Each line ends with one `\n`, and nothing follows the last:
///
/// 1. `retro length 1`.
/// 2. Where men of the array are left out, `odds` and the set of their squares, as `read_odds` reads it.
/// 3. `fen` and a FEN of four fields.
/// 4. `atleast` and a number of half-moves from 0 to 9999.
/// 5. `moves w` or `moves b`, the potentials of that side's men in ascending order of their squares, at most sixteen, then `/` and
///    those of the side's sixteen homes: numbers from -64 to 64. No number has a leading zero, and one space stands between two words.
///
/// `Ok` comes if and only if they are so and `length_of` of these potentials is no less than the number, with the number and the query:
/// no game with fewer half-moves reaches the query. `BadText` comes if and only if they are not so, and `Unsupported` in all other cases.
/// `TooLong` comes if and only if one byte more was read, and `ReadFault` only if a read failed. It takes no memory.
pub fn check_length<S: Source>(src: &mut S) -> Result<(u16, Query), LengthRefused>
    // The answer is that of the grammar and the potentials to all bytes that were left, if they were read to their end.
    ensures answer { IfSome (length_answer result) (AnswersBytes MOST_BYTES (S.left src.old) (S.left src.new)) }

    // No game that reaches the query has fewer half-moves than is accepted.
    ensures least { IfOk result (λ p. (g : List Move) → Reaches g p.1 → p.0 ≤ length g) }

    // Too long an input is answered only if one byte more than the limit was read, and a failure only if the count of
    // faults rose.
    ensures too_long { result ≡ Err LengthRefused.TooLong → ReadSome (S.left src.old) (S.left src.new) (λ n. n ≡ MOST_BYTES + 1) }
    ensures failed { result ≡ Err LengthRefused.ReadFault → ReadSome (S.left src.old) (S.left src.new) (λ n. n ≤ MOST_BYTES) }
    ensures cause { result ≡ Err LengthRefused.ReadFault → Rose (S.faults src.old) (S.faults src.new) }
    ensures kept { result ≢ Err LengthRefused.ReadFault → S.faults src.new ≡ S.faults src.old }
    ensures later { S.faults src.old ≤ S.faults src.new }
{
    let mut front = ArrayVec::new();
    match read_front(src, &mut front) {
        Ok(()) => answer_to(front.as_slice()),
        Err(Unread::TooLong) => Err(LengthRefused::TooLong),
        Err(Unread::Failed) => Err(LengthRefused::ReadFault),
    }
}
