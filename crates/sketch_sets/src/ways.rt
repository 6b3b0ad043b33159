ghost use Rattle.std.specs.Prelude.{◌≡◌, ◌+◌, ◌<◌, ◌≤◌, ℕ};
ghost use Rattle.board_base.specs.Attacks.{on_the_way, toward};
ghost use Rattle.board_base.specs.Board.{is_in, same_kind};
ghost use Rattle.board_base.specs.declared.men.Kind.TheVariants.{Pawn as APawn};
ghost use Rattle.sketch_sets.specs.Files.{straight};
ghost use Rattle.sketch_sets.specs.Quiet.{goes_on, guards_on, quiet_on};
ghost use Rattle.sketch_sets.specs.Tests.{some_that};

use crate::ground::Ground;
use crate::pieces::{attackers, pawn_movers};
use crate::terrain::{kings, touched};
use board_base::{Colour, Kind, Square, SquareSet, is_ahead, pawn_rank, ranks_between};
use figures::{both, either, is_whole, outside};

/// The number `k` steps on the way from `a` to `b`.
#[tactic(auto, unfolding(board_base::specs::Attacks::toward))]
fn step_toward(a: u8, b: u8, k: u8) -> u8
    requires few { a + k < 256 }
    ensures value { result ≡ toward a b k }
    ensures bound { result ≤ a + k }
{
    if a < b {
        a + k
    } else if b < a {
        a.saturating_sub(k)
    } else {
        a
    }
}

/// Whether it is a pawn.
pub fn is_pawn(kind: Kind) -> bool
    ensures { result ≡ same_kind APawn kind }
{
    match kind {
        Kind::Pawn => true,
        _ => false,
    }
}

/// The number of the square `n` steps on the way from `e` to `s`.
pub fn on_the_way(e: Square, s: Square, n: u8) -> u8
    requires { n < 8 }
    ensures { result ≡ on_the_way e s n }
{
    8 * step_toward(e.rank(), s.rank(), n) + step_toward(e.file(), s.file(), n)
}

/// Whether a pawn of this colour goes from `e` straight on to `s`: one square, or two if it begins there.
pub fn goes_straight(colour: Colour, e: Square, s: Square) -> bool
    ensures { result ≡ straight colour e s }
{
    let two = (e.rank() == pawn_rank(colour)) & (ranks_between(e, s) == 2);
    (e.file() == s.file()) & (is_ahead(colour, e, s) | two)
}

/// The squares from which a man of this colour and kind touches the square of a fixed enemy king.
fn guards(ground: &Ground, colour: Colour, kind: Kind) -> SquareSet
    ensures { (e : ℕ) → e < 64 → is_in result e ≡ guards_on ground.now colour kind e }
{
    let kings = kings(ground, colour.other());
    attackers(colour, kind, kings, ground.fixed, 1)
}

/// The squares from which a man of this colour and kind goes to one of the set past the fixed figures, a king not to one that a fixed
/// enemy touches.
fn goers(ground: &Ground, colour: Colour, kind: Kind, to: SquareSet) -> SquareSet
    ensures { (e : ℕ) → e < 64 → is_in result e ≡ some_that to (goes_on ground.now colour kind e) }
{
    is_whole(ground.fixed);
    match kind {
        Kind::Pawn => pawn_movers(colour, to, ground.fixed),
        Kind::King => {
            let safe = both(to, outside(touched(ground, colour.other())));
            attackers(colour, kind, safe, ground.fixed, 7)
        }
        Kind::Knight | Kind::Bishop | Kind::Rook | Kind::Queen => {
            attackers(colour, kind, to, ground.fixed, 7)
        }
    }
}

/// The squares from which a man of this colour and kind goes quietly to one of the set.
pub(crate) fn quiet_origins(
    ground: &Ground,
    colour: Colour,
    kind: Kind,
    squares: SquareSet,
) -> SquareSet
    ensures { (e : ℕ) → e < 64 → is_in result e ≡ some_that squares (quiet_on ground.now colour kind e) }
{
    let loose = both(squares, outside(ground.held));
    let from = goers(ground, colour, kind, loose);
    let barred = either(ground.fixed, guards(ground, colour, kind));
    both(from, outside(barred))
}
