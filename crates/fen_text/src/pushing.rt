ghost use Rattle.std.specs.Prelude.{◌≡◌, ◌+◌, ◌≤◌, ◌++◌, length};

use arrayvec::ArrayVec;

/// Puts a text, for which there is room, after what stands in `out`. It takes no memory.
pub fn push_text<const N: usize>(text: &[u8], out: &mut ArrayVec<u8, N>)
    requires { length out.old.items + length text.now ≤ N }
    ensures text { out.new.items ≡ out.old.items ++ text.now }
    ensures longer { length out.new.items ≡ length out.old.items + length text.now }
{
    let _ = out.try_extend_from_slice(text);
}
