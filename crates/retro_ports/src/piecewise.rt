ghost use Rattle.std.specs.Prelude.{◌≡◌, ◌≢◌, ◌+◌, ◌<◌, ◌≤◌, Err, IfOk, length, take};
ghost use Rattle.std.specs.Io.{ReadsAtMost};
ghost use Rattle.std.specs.Io.KnownBytes.{Consumes, IsAtEnd, Keeps};
ghost use Rattle.retro_ports.specs.Causes.{Rose};
ghost use Rattle.retro_ports.specs.Ends.{ReadSome};

use crate::traits::Source;

/// The most bytes of one input that are read: 64 MiB.
pub const MOST_BYTES: usize = 67_108_864;

/// The bytes of a buffer on the stack into which a source is read piece by piece.
pub const PIECE: usize = 4096;

/// Why no piece of a source was read.
#[derive(Clone, Copy, PartialEq, Eq, Debug)]
pub enum Unread {
    /// There are more bytes than there is room for: one more was read.
    TooLong,
    /// The read failed.
    Failed,
}

/// Reads once into the front of the buffer, which isn't empty, and answers how many bytes: none only at the end. There is room for
/// `room` bytes, and the read asks for one more if the buffer holds it. `TooLong` comes if and only if that one was read too, and
/// `Failed` if and only if the read failed; the bytes still to come are then those before.
pub fn read_piece<S: Source>(src: &mut S, buffer: &mut [u8], room: usize) -> Result<usize, Unread>
    requires { 0 < length buffer.old }
    ensures bound { ReadsAtMost result buffer.new }
    ensures fits { IfOk result (λ n. n ≤ room) }
    ensures bytes { IfOk result (λ n. Consumes (S.left src.old) (S.left src.new) (take n buffer.new)) }
    ensures end { IfOk result (λ n. n ≡ 0 → IsAtEnd (S.left src.new)) }
    ensures too_long { result ≡ Err Unread.TooLong → ReadSome (S.left src.old) (S.left src.new) (λ n. n ≡ room + 1) }
    ensures failed { result ≡ Err Unread.Failed → Keeps (S.left src.old) (S.left src.new) }
    ensures cause { result ≡ Err Unread.Failed → Rose (S.faults src.old) (S.faults src.new) }
    ensures kept { result ≢ Err Unread.Failed → S.faults src.new ≡ S.faults src.old }
    ensures later { S.faults src.old ≤ S.faults src.new }
{
    let want = buffer.len().min(room.saturating_add(1));
    match src.read(&mut buffer[..want]) {
        Err(_) => Err(Unread::Failed),
        Ok(n) if n > room => Err(Unread::TooLong),
        Ok(n) => Ok(n),
    }
}
