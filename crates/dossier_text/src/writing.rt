ghost use Rattle.std.specs.Prelude.{◌≡◌, ◌+◌, ◌≤◌, ◌++◌, [], None, Some, length};
ghost use Rattle.cert_text.specs.Lines.{ended};
ghost use Rattle.line_claims.specs.Lines.{HasLine, line_claim_of, line_claim_text};
ghost use Rattle.dossier_text.specs.Dossiers.{IsHead};

use arrayvec::ArrayVec;
use cert_text::write_query_lines;
use fen_text::push_text;
use line_claims::{LineClaim, one_text_of_a_line_claim, write_line_claim};
use query_base::Query;

/// Puts the line of the claim after the others.
fn push_claim(claim: &LineClaim, out: &mut ArrayVec<u8, 512>)
    requires room { length out.old.items + 139 ≤ 512 }
    requires lined { HasLine claim.now }
    ensures line { out.new.items ≡ out.old.items ++ ended (line_claim_text claim.now) }
    ensures read { line_claim_of (line_claim_text claim.now) ≡ Some claim.now }
    ensures short { length out.new.items ≤ length out.old.items + 139 }
{
    one_text_of_a_line_claim();
    let mut text: ArrayVec<u8, 160> = ArrayVec::new();
    write_line_claim(claim, &mut text);
    push_text(text.as_slice(), out);
    out.push(b'\n');
}

/// Writes the head of a dossier with this claim about this query, at most 271 bytes, which `read_head` reads as this claim about this
/// query. `out` is empty before, the claim has a line, as each has that `read_line_claim` reads, and no move is barred in the query,
/// for which FEN has no word. It takes no memory.
pub fn write_head(claim: &LineClaim, query: &Query, out: &mut ArrayVec<u8, 512>)
    requires empty { out.old.items ≡ [] }
    requires lined { HasLine claim.now }
    requires plain { query.now.barred ≡ None }
    ensures head { IsHead out.new.items claim.now query.now }
    ensures short { length out.new.items ≤ 271 }
{
    push_text(b"retro line 1\n", out);
    push_claim(claim, out);
    write_query_lines(query, out);
}
