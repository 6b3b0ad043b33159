ghost use Rattle.std.specs.Prelude.{◌≡◌, ◌<◌, ◌&&◌, ℕ, Bool};
ghost use Rattle.std.specs.List.{list_any};
ghost use Rattle.board_base.specs.Board.{is_in, same_kind};
ghost use Rattle.board_base.specs.declared.men.Kind.{Kind as AnyKind};
ghost use Rattle.figures.specs.Figures.{Figure as AFigure};

use board_base::{Kind, SquareSet};
use figures::{Figure, KindSet, Sketch, either};

/// The set of a kind, if it is among the kinds.
fn set_if<F: Fn(Kind) -> SquareSet>(kinds: KindSet, sets: &F, kind: Kind) -> SquareSet
    requires { F.IsAlwaysCallable sets.now }
    ensures { (e : ℕ) (p : AnyKind → Bool) → e < 64 → ((k : AnyKind) (set : _) → F.post sets.now k set → is_in set e ≡ p k) → is_in result e ≡ (list_any (λ j. same_kind j kind) kinds && p kind) }
{
    if kinds.has(kind) {
        sets(kind)
    } else {
        SquareSet::from_bits(0)
    }
}

/// The squares of the sets of some kinds.
pub(crate) fn over_kinds<F: Fn(Kind) -> SquareSet>(kinds: KindSet, sets: F) -> SquareSet
    requires { F.IsAlwaysCallable sets }
    ensures { (e : ℕ) (p : AnyKind → Bool) → e < 64 → ((k : AnyKind) (set : _) → F.post sets k set → is_in set e ≡ p k) → is_in result e ≡ list_any p kinds }
{
    let pawn = set_if(kinds, &sets, Kind::Pawn);
    let knight = set_if(kinds, &sets, Kind::Knight);
    let bishop = set_if(kinds, &sets, Kind::Bishop);
    let rook = set_if(kinds, &sets, Kind::Rook);
    let queen = set_if(kinds, &sets, Kind::Queen);
    let king = set_if(kinds, &sets, Kind::King);
    let heavy = either(rook, either(queen, king));
    either(pawn, either(either(knight, bishop), heavy))
}

/// The squares of the sets of the figures.
pub(crate) fn over_figures<F: Fn(Figure) -> SquareSet>(sketch: &Sketch, sets: F) -> SquareSet
    requires { F.IsAlwaysCallable sets }
    ensures { (e : ℕ) (p : AFigure → Bool) → e < 64 → ((f : AFigure) (set : _) → F.post sets f set → is_in set e ≡ p f) → is_in result e ≡ list_any p sketch.now }
{
    let mut squares = SquareSet::from_bits(0);
    for figure in sketch.figures() {
        squares = either(squares, sets(*figure));
    }
    squares
}
