ghost use Rattle.std.specs.Prelude.{◌≡◌, ◌↔◌, ◌==◌, ◌<◌, ℕ, IsTrue, MatchOption, [], ◌∷◌, cond};
ghost use Rattle.board_base.specs.declared.men.Kind.{Kind as AKind};
ghost use Rattle.figures.specs.Figures.{is_fixed_on, may_be};
ghost use Rattle.figures.specs.Known.{known_at};
ghost use Rattle.sketch_rule.specs.Trees.{is_heavy};
ghost use Rattle.sketch_node.specs.Nodes.{IsFirstUnknown, IsUnknownOn};

use board_base::{Kind, Square};
use figures::{Figure, KindSet, Sketch};

/// Whether the figure may be a knight, a rook or a queen, and nothing else.
fn is_unknown(figure: &Figure) -> bool
    ensures { IsTrue result ↔ ((k : AKind) → may_be figure.now k ≡ is_heavy k) }
{
    let light = figure.may_be(Kind::Pawn) | figure.may_be(Kind::Bishop) | figure.may_be(Kind::King);
    let heavy = figure.may_be(Kind::Knight)
        & figure.may_be(Kind::Rook)
        & figure.may_be(Kind::Queen);
    heavy & !light
}

/// The number, counted from 0, of the first figure fixed on `s` that may be a knight, a rook or a queen, and nothing else.
pub fn first_unknown(sketch: &Sketch, s: Square) -> Option<usize>
    ensures { MatchOption result ((i : ℕ) → IsUnknownOn sketch.now s i → ⊥) (λ i. IsFirstUnknown sketch.now s i) }
{
    for (i, figure) in sketch.figures().iter().enumerate() {
        if is_unknown(figure) && figure.is_fixed_on(s) {
            return Some(i);
        }
    }
    None
}

/// The figure, of this kind alone if `known` says so.
fn known_if(figure: &Figure, kind: Kind, known: bool) -> Figure
    ensures { result ≡ cond known (record figure.now { kinds = kind ∷ [] }) figure.now }
{
    let mut result = *figure;
    if known {
        result.kinds = KindSet::one(kind);
    }
    result
}

/// The sketch with this kind alone for the figure with the number `i`, counted from 0, if there is one.
pub fn known_at(sketch: &Sketch, i: usize, kind: Kind) -> Sketch
    ensures { result ≡ known_at i kind sketch.now }
{
    let mut made = Sketch::new();
    for (n, figure) in sketch.figures().iter().enumerate() {
        made.push(known_if(figure, kind, n == i));
    }
    made
}

/// The case of a man of whom it isn't known whether he is a knight, a rook or a queen: the sketch with this kind alone for the first such
/// figure that is fixed on `s`. None comes if and only if there is none.
pub fn case_of(sketch: &Sketch, s: Square, kind: Kind) -> Option<Sketch>
    ensures { MatchOption result ((i : ℕ) → IsUnknownOn sketch.now s i → ⊥) (λ other. (i : ℕ) × IsFirstUnknown sketch.now s i × (other ≡ known_at i kind sketch.now)) }
{
    let i = first_unknown(sketch, s)?;
    Some(known_at(sketch, i, kind))
}
