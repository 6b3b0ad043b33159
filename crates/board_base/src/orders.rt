ghost use Rattle.std.specs.Prelude.{◌≡◌};
ghost use Rattle.board_base.specs.Texts.{place_of, capture_place, move_order, unmove_order};

use crate::men::Kind;
use crate::moves::Move;
use crate::unmoves::Unmove;
use std::cmp::Ordering;

fn place(kind: Option<Kind>) -> u8
    ensures { result ≡ place_of kind }
{
    match kind {
        None => 0,
        Some(Kind::Pawn) => 1,
        Some(Kind::Knight) => 2,
        Some(Kind::Bishop) => 3,
        Some(Kind::Rook) => 4,
        Some(Kind::Queen) => 5,
        Some(Kind::King) => 6,
    }
}

fn place_of_capture(unmove: &Unmove) -> u8
    ensures { result ≡ capture_place unmove.now }
{
    if unmove.ep { 7 } else { place(unmove.captured) }
}

/// The order of moves: by origin, then target, then promotion in the order none, n, b, r, q.
pub fn cmp_move(a: &Move, b: &Move) -> Ordering
    ensures { result ≡ move_order a.now b.now }
{
    let origins = a.from.index().cmp(&b.from.index());
    let targets = a.to.index().cmp(&b.to.index());
    let promotions = place(a.promo).cmp(&place(b.promo));
    origins.then(targets.then(promotions))
}

/// The order of unmoves: by target, then origin, then promotion in the order none, n, b, r, q, then the captured man in the
/// order none, p, n, b, r, q, and en passant after all of these.
pub fn cmp_unmove(a: &Unmove, b: &Unmove) -> Ordering
    ensures { result ≡ unmove_order a.now b.now }
{
    let targets = a.mv.to.index().cmp(&b.mv.to.index());
    let origins = a.mv.from.index().cmp(&b.mv.from.index());
    let promotions = place(a.mv.promo).cmp(&place(b.mv.promo));
    let captures = place_of_capture(a).cmp(&place_of_capture(b));
    targets.then(origins.then(promotions.then(captures)))
}
