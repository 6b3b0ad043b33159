ghost use Rattle.std.specs.Prelude.{◌≡◌, ◌≤◌, ◌+◌, ◌++◌, [], length, IsTrue, Some};
ghost use Rattle.std.specs.Option.{option_and_then, option_map};
ghost use Rattle.board_base.specs.Texts.{can_promote, move_of, move_text};
ghost use Rattle.query_base.specs.declared.claims.Claim.TheVariants.{Last, Lost};
ghost use Rattle.cert_text.specs.ClaimLines.{capture_claimed, castling_named, claim_of, claim_text, promotes_well};

use crate::lines::is_text;
use arrayvec::ArrayVec;
use board_base::{Castle, Move, read_move, write_move};
use fen_text::{castle_letter, push_text};
use query_base::Claim;

fn read_castle(name: &[u8]) -> Option<Castle>
    ensures { result ≡ castling_named name.now }
{
    if is_text(name, b"K") {
        Some(Castle::WhiteShort)
    } else if is_text(name, b"Q") {
        Some(Castle::WhiteLong)
    } else if is_text(name, b"k") {
        Some(Castle::BlackShort)
    } else if is_text(name, b"q") {
        Some(Castle::BlackLong)
    } else {
        None
    }
}

fn read_last(text: &[u8]) -> Option<Claim>
    ensures { result ≡ option_map (λ m. Last m) (move_of text.now) }
{
    match read_move(text) {
        Some(m) => Some(Claim::Last(m)),
        None => None,
    }
}

fn read_lost(text: &[u8]) -> Option<Claim>
    ensures { result ≡ option_map (λ x. Lost x) (castling_named text.now) }
{
    match read_castle(text) {
        Some(castle) => Some(Claim::Lost(castle)),
        None => None,
    }
}

fn capture_claimed(m: Move) -> Option<Claim>
    ensures { result ≡ capture_claimed m }
{
    if m.promo.is_none() {
        Some(Claim::Ep(m))
    } else {
        None
    }
}

fn read_capture(text: &[u8]) -> Option<Claim>
    ensures { result ≡ option_and_then capture_claimed (move_of text.now) }
{
    match read_move(text) {
        Some(m) => capture_claimed(m),
        None => None,
    }
}

/// Reads the line of a claim, without its end: `claim illegal`; `claim last` and a move; `claim lost` and `K`, `Q`, `k` or `q`; `claim
/// ep` and a move without promotion. None comes if and only if the text is none of these.
#[tactic(auto, unfolding(crate::specs::ClaimLines::claim_of))]
pub fn read_claim(line: &[u8]) -> Option<Claim>
    ensures { result ≡ claim_of line.now }
{
    if line.starts_with(b"claim last ") {
        read_last(&line[11..])
    } else if line.starts_with(b"claim lost ") {
        read_lost(&line[11..])
    } else if line.starts_with(b"claim ep ") {
        read_capture(&line[9..])
    } else if is_text(line, b"claim illegal") {
        Some(Claim::Illegal)
    } else {
        None
    }
}

fn push_move(m: &Move, out: &mut ArrayVec<u8, 128>)
    requires room { length out.old.items + 8 ≤ 128 }
    requires promotion { IsTrue (can_promote m.now.promo) }
    ensures text { out.new.items ≡ out.old.items ++ move_text m.now }
    ensures read { move_of (move_text m.now) ≡ Some m.now }
{
    let mut text: ArrayVec<u8, 8> = ArrayVec::new();
    write_move(m, &mut text);
    push_text(text.as_slice(), out);
}

/// Writes the one text of the claim, which `read_claim` reads as this claim. `out` is empty before, a promotion is to a knight, a
/// bishop, a rook or a queen, and a claimed capture en passant promotes nothing.
pub fn write_claim(claim: &Claim, out: &mut ArrayVec<u8, 128>)
    requires empty { out.old.items ≡ [] }
    requires promotion { IsTrue (promotes_well claim.now) }
    ensures text { out.new.items ≡ claim_text claim.now }
    ensures read { claim_of out.new.items ≡ Some claim.now }
{
    match claim {
        Claim::Illegal => push_text(b"claim illegal", out),
        Claim::Last(m) => {
            push_text(b"claim last ", out);
            push_move(m, out);
        }
        Claim::Lost(castle) => {
            push_text(b"claim lost ", out);
            out.push(castle_letter(*castle));
        }
        Claim::Ep(m) => {
            push_text(b"claim ep ", out);
            push_move(m, out);
        }
    }
}
