ghost use Rattle.std.specs.Prelude.{◌≡◌, ◌≢◌, ◌&&◌, not};
ghost use Rattle.board_base.specs.Game.{lacks_home};
ghost use Rattle.board_base.specs.Rights.{holds};
ghost use Rattle.board_base.specs.declared.castles.Castle.{Castle as ACastle};

use board_base::{Castle, CastleSet, Odds};
use castle_history::home;

/// Whether the king or the rook of the castling is left out.
pub fn lacks_home(odds: Odds, castle: Castle) -> bool
    ensures { result ≡ lacks_home odds castle }
{
    let (king, rook) = home(castle);
    odds.set().has(king) || odds.set().has(rook)
}

/// The rights, but without this castling if its king or its rook is left out.
fn kept_one(rights: CastleSet, odds: Odds, castle: Castle) -> CastleSet
    ensures own { holds result castle ≡ (holds rights castle && not (lacks_home odds castle)) }
    ensures others { (c : ACastle) → c ≢ castle → holds result c ≡ holds rights c }
{
    if lacks_home(odds, castle) {
        rights.without(castle)
    } else {
        rights
    }
}

/// The rights at the beginning of a game at these odds: those none of whose homes is among them (article 3.8).
pub(crate) fn rights_at(odds: Odds) -> CastleSet
    ensures { (x : ACastle) → holds result x ≡ not (lacks_home odds x) }
{
    let all = CastleSet::all();
    let a = kept_one(all, odds, Castle::WhiteShort);
    let b = kept_one(a, odds, Castle::WhiteLong);
    let c = kept_one(b, odds, Castle::BlackShort);
    kept_one(c, odds, Castle::BlackLong)
}
