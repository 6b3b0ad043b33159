ghost use Rattle.std.specs.Prelude.{[], ◌≡◌, ◌↔◌, ◌+◌, ◌≤◌, ◌++◌, IsTrue, None, length, true};
ghost use Rattle.cert_text.specs.Certificate.{AreHeadLines, demand_lines, format_for};
ghost use Rattle.cert_text.specs.ClaimLines.{claim_text, promotes_well};
ghost use Rattle.cert_text.specs.Lines.{cut, ended};
ghost use Rattle.cert_text.specs.Writable.{is_written};
ghost use Rattle.cert_text.specs.Written.{format_text};

use crate::claims::write_claim;
use crate::query_lines::{is_known, push_ended, write_query_lines};
use arrayvec::ArrayVec;
use fen_text::push_text;
use query_base::{Claim, Query};

/// Whether neither odds nor a clock are demanded.
fn is_undemanding(query: &Query) -> bool
    ensures { IsTrue result ↔ (demand_lines query.now ≡ []) }
{
    query.odds.is_none() && query.clock.is_none()
}

/// Puts the line of the format after the others: the first format if neither odds nor a clock are demanded.
fn push_format(query: &Query, out: &mut ArrayVec<u8, 512>)
    requires { length out.old.items + 8 ≤ 512 }
    ensures line { out.new.items ≡ out.old.items ++ ended (format_text (format_for (demand_lines query.now))) }
    ensures longer { length out.new.items ≡ length out.old.items + 8 }
{
    if is_undemanding(query) {
        push_text(b"retro 1\n", out);
    } else {
        push_text(b"retro 2\n", out);
    }
}

/// Puts the line of the claim after the others.
fn push_claim(claim: &Claim, out: &mut ArrayVec<u8, 512>)
    requires room { length out.old.items + 17 ≤ 512 }
    requires promotion { IsTrue (promotes_well claim.now) }
    ensures line { out.new.items ≡ out.old.items ++ ended (claim_text claim.now) }
    ensures written { is_written claim.now ≡ true }
    ensures short { length out.new.items ≤ length out.old.items + 17 }
{
    let mut text: ArrayVec<u8, 128> = ArrayVec::new();
    write_claim(claim, &mut text);
    push_ended(text.as_slice(), out);
}

/// Writes the head of a certificate with this claim about this query, at most 144 bytes: the lines of the format, of the claim and
/// of the query. `out` is empty before, a promotion is to a knight, a bishop, a rook or a queen, a claimed capture en passant
/// promotes nothing, and no move is barred in the query, for which FEN has no word. It takes no memory.
pub fn write_head(claim: &Claim, query: &Query, out: &mut ArrayVec<u8, 512>)
    requires empty { out.old.items ≡ [] }
    requires promotion { IsTrue (promotes_well claim.now) }
    requires plain { query.now.barred ≡ None }
    ensures head { AreHeadLines (cut out.new.items) claim.now query.now }
    ensures short { length out.new.items ≤ 144 }
{
    is_known(query);
    push_format(query, out);
    push_claim(claim, out);
    write_query_lines(query, out);
}
