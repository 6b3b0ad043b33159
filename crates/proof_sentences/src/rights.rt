//! The right to castle that can't have been kept, and the homes of rights that are held.

ghost use Rattle.std.specs.Prelude.{◌≡◌, ◌&&◌, ◌||◌, ◌==◌, IsSome};
ghost use Rattle.std.specs.List.{find};
ghost use Rattle.board_base.specs.Play.{all_castles, king_home, rook_home};
ghost use Rattle.board_base.specs.Rights.{holds};
ghost use Rattle.cage_rules.specs.Frozen.{is_held_home};
ghost use Rattle.static_rules.specs.Supports.{HasRightsHomes};
ghost use Rattle.proof_sentences.specs.Firsts.{is_astray};

use board_base::{Castle, CastleSet, Square};
use castle_history::{are_at_home, home};
use play_rules::lacks_home;
use query_base::Query;

/// Whether the right is held, and its king or its rook was left out or isn't at home.
fn is_astray(query: &Query, castle: Castle) -> bool
    ensures { result ≡ is_astray query.now castle }
{
    query.held.has(castle) && (lacks_home(query.odds, castle) || !are_at_home(&query.board, castle))
}

/// The first such right, if there is one.
pub(crate) fn astray_right(query: &Query) -> Option<Castle>
    requires { HasRightsHomes query.now → ⊥ }
    ensures some { IsSome result }
    ensures first { result ≡ find (is_astray query.now) all_castles }
{
    if is_astray(query, Castle::WhiteShort) {
        return Some(Castle::WhiteShort);
    }
    if is_astray(query, Castle::WhiteLong) {
        return Some(Castle::WhiteLong);
    }
    if is_astray(query, Castle::BlackShort) {
        return Some(Castle::BlackShort);
    }
    if is_astray(query, Castle::BlackLong) {
        return Some(Castle::BlackLong);
    }
    None
}

/// The king's or the rook's home of a castling that is held.
fn is_home_of(held: CastleSet, castle: Castle, s: Square) -> bool
    ensures { result ≡ (holds held castle && ((king_home castle == s) || (rook_home castle == s))) }
{
    let (king, rook) = home(castle);
    held.has(castle) && (king == s || rook == s)
}

/// The square is a home of some castling that is held.
pub(crate) fn is_held_home(held: CastleSet, s: Square) -> bool
    ensures { result ≡ is_held_home held s }
{
    is_home_of(held, Castle::WhiteShort, s)
        || is_home_of(held, Castle::WhiteLong, s)
        || is_home_of(held, Castle::BlackShort, s)
        || is_home_of(held, Castle::BlackLong, s)
}
