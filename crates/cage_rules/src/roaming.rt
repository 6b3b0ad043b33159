ghost use Rattle.std.specs.Prelude.{◌≡◌, ◌&&◌, ◌<◌, IsTrue, Some, not};
ghost use Rattle.board_base.specs.Board.{at, is_in, man, is_like};
ghost use Rattle.board_base.specs.Legal.{is_officer};
ghost use Rattle.cage_rules.specs.Regions.{IsLeastClosed, IsLeastFrom, beginner, is_dead, is_exposed, is_officer_home, is_shielded, region, region_from};
ghost use Rattle.board_base.specs.declared.men.Kind.TheVariants.{Pawn};
ghost use Rattle.cage_rules.specs.Sets.{squares_that};
ghost use Rattle.cage_rules.specs.SetSteps.{spread};

use crate::sets::{both, either, is_apart, is_same, outside};
use crate::steps::{pawn_strikes, piece_steps};
use board_base::{Board, Colour, Kind, Man, Square, SquareSet, is_the};
use play_rules::is_end;

/// The squares of ranks 1 and 8, on which no pawn stands.
const ENDS: u64 = 0xff00_0000_0000_00ff;

/// Whether a knight, a bishop, a rook or a queen begins on the square (article 2.3): those are the squares of ranks 1 and 8 other than
/// e1 and e8. Callers of `region`, `is_dead` and `is_shielded` may ask it first.
pub fn is_officer_home(home: Square) -> bool
    ensures { result ≡ is_officer_home home }
{
    is_end(home) && home.index() % 8 != 4
}

/// The man who begins on this square (article 2.3).
#[tactic(auto, unfolding(crate::specs::Regions::beginner))]
fn beginner(home: Square) -> Option<Man>
    ensures { result ≡ beginner home }
{
    Board::array().at(home)
}

/// The knight, bishop, rook or queen who begins on this square.
fn officer(home: Square) -> Man
    requires { IsTrue (is_officer_home home) }
    ensures { beginner home ≡ Some result }
{
    match beginner(home) {
        Some(man) => man,
        None => unreachable!(),
    }
}

/// These squares, and those outside `frozen` to which a piece of this kind goes from them by one step.
fn spread(kind: Kind, frozen: SquareSet, within: SquareSet) -> SquareSet
    ensures { result ≡ spread kind frozen within }
{
    either(within, both(piece_steps(kind, within), outside(frozen)))
}

/// The squares to which a knight, a bishop, a rook or a queen can have gone from a square while the men of a frozen set stood: the
/// least set that has `from`, and with each square those to which he goes from there over squares outside `frozen` (articles 3.2 to
/// 3.6). Other men don't count.
pub fn region_from(frozen: SquareSet, man: Man, from: Square) -> SquareSet
    requires { IsTrue (is_officer man.kind) }
    ensures squares { result ≡ region_from frozen (Some man) from }
    ensures least { IsLeastFrom frozen (Some man) from result }
{
    let mut within = SquareSet::from_bits(0).with(from);
    'steps: loop {
        let more = spread(man.kind, frozen, within);
        if is_same(more, within) {
            return within;
        }
        within = more;
    }
}

/// The squares to which the array's man on `home` can have gone while the men of a frozen set stood: his region from there. A knight,
/// a bishop, a rook or a queen begins on `home`.
pub fn region(frozen: SquareSet, home: Square) -> SquareSet
    requires { IsTrue (is_officer_home home) }
    ensures squares { result ≡ region frozen home }
    ensures least { IsLeastClosed frozen home result }
{
    region_from(frozen, officer(home), home)
}

/// A man of the colour and kind of the first stands on the second place.
fn is_like(man: Man, place: Option<Man>) -> bool
    ensures { result ≡ is_like (Some man) place }
{
    is_the(man.colour, man.kind, place)
}

fn is_alive(board: &Board, region: SquareSet, man: Man, index: u8) -> bool
    requires { index < 64 }
    ensures { result ≡ (is_in region index && is_like (Some man) (at board.now index)) }
{
    let s = Square::known(index);
    region.has(s) && is_like(man, board.at(s))
}

/// Whether no man of the colour and kind of the array's man on `home` stands in his region. A knight, a bishop, a rook or a queen
/// begins on `home`.
pub fn is_dead(board: &Board, frozen: SquareSet, home: Square) -> bool
    requires { IsTrue (is_officer_home home) }
    ensures { result ≡ is_dead board.now frozen home }
{
    let region = region(frozen, home);
    let man = officer(home);
    for i in 0..64 {
        if is_alive(board, region, man, i) {
            return false;
        }
    }
    true
}

/// Whether no pawn of the other side can capture in the region of the array's man on `home` (article 3.7.3): each square from which
/// it would is off the board, on rank 1 or 8, or in `frozen`. A knight, a bishop, a rook or a queen begins on `home`.
pub fn is_shielded(frozen: SquareSet, home: Square) -> bool
    requires { IsTrue (is_officer_home home) }
    ensures { result ≡ is_shielded frozen home }
{
    let enemy = officer(home).colour.other();
    let stands = outside(either(SquareSet::from_bits(ENDS), frozen));
    is_apart(region(frozen, home), pawn_strikes(enemy, stands))
}

/// The squares outside `frozen` on which some enemy pawn may capture a man of this colour, whatever he is (article 3.7.3): from a
/// square that is neither on rank 1 or 8 nor in `frozen`.
pub fn exposed(frozen: SquareSet, colour: Colour) -> SquareSet
    ensures { result ≡ squares_that (λ s. not (is_in frozen s) && is_exposed frozen (man colour Pawn) s) }
{
    let stands = outside(either(SquareSet::from_bits(ENDS), frozen));
    both(outside(frozen), pawn_strikes(colour.other(), stands))
}
