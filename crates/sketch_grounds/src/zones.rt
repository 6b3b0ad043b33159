ghost use Rattle.std.specs.Prelude.{◌≡◌, IsTrue, List, Bool, MatchOption, false, length, true};
ghost use Rattle.std.specs.List.{list_all};
ghost use Rattle.board_base.specs.Board.{same_kind};
ghost use Rattle.board_base.specs.declared.men.Kind.TheVariants.{Pawn};
ghost use Rattle.play_rules.specs.Reach.{IsWithin};
ghost use Rattle.cage_rules.specs.Sets.{squares_that};
ghost use Rattle.past_account.specs.Zones.{AreZones, IsZone};
ghost use Rattle.sketch_grounds.specs.Backed.{is_backed, is_from};
ghost use Rattle.sketch_grounds.specs.LeastZones.{has_pair, is_pair, least_zone, pair_zones};

use crate::pawn_zones::{Zone, Zones};
use crate::sets::{both, none, outside};
use arrayvec::ArrayVec;
use board_base::{Kind, SquareSet};
use cage_rules::{ahead, pawn_steps};
use figures::{Figure, Sketch, either, is_same, is_whole};

/// The squares of ranks 1 and 8, on which no pawn stands.
const ENDS: u64 = 0xff00_0000_0000_00ff;

/// The squares behind those of the set, from which the figure's pawn may have come; straight on if he is marked.
fn sources(figure: &Figure, from: SquareSet) -> SquareSet
    ensures { result ≡ squares_that (is_from figure.now from) }
{
    if figure.marked {
        ahead(figure.colour.other(), from)
    } else {
        pawn_steps(figure.colour.other(), from)
    }
}

/// These squares, and those from which the figure's pawn goes on to one of them, outside `wall`.
fn backed(figure: &Figure, wall: SquareSet, within: SquareSet) -> SquareSet
    ensures { result ≡ squares_that (is_backed wall figure.now within) }
{
    let shut = either(SquareSet::from_bits(ENDS), wall);
    either(
        within,
        both(sources(figure, both(within, outside(wall))), outside(shut)),
    )
}

/// Where the pawn of a figure can have stood beside a wall of men who stay: the least set that has his squares, and each square from which
/// he goes on to one of them.
pub fn zone_of(figure: &Figure, wall: SquareSet) -> SquareSet
    requires { IsTrue (list_all (same_kind Pawn) figure.now.kinds) }
    ensures value { result ≡ least_zone wall figure.now }
    ensures zone { IsZone wall figure.now result }
    ensures least { (zone : List Bool) → IsZone wall figure.now zone → IsWithin result zone }
    ensures size { length result ≡ 64 }
{
    is_whole(figure.squares);
    let mut within = figure.squares;
    'steps: loop {
        let more = backed(figure, wall, within);
        if is_same(more, within) {
            return within;
        }
        within = more;
    }
}

/// Whether the set has exactly two squares.
fn is_pair(zone: SquareSet) -> bool
    ensures { result ≡ is_pair zone }
{
    let first = zone.next_from(0);
    if first == 64 {
        return false;
    }
    let second = zone.next_from(first + 1);
    if second == 64 {
        return false;
    }
    zone.next_from(second + 1) == 64
}

/// The least zone of the figure, if he is a pawn and it has exactly two squares.
fn pair_zone(figure: &Figure, wall: SquareSet) -> Option<SquareSet>
    ensures { MatchOption result (has_pair wall figure.now ≡ false) (λ zone. (has_pair wall figure.now ≡ true) × (zone ≡ least_zone wall figure.now) × (length zone ≡ 64) × IsZone wall figure.now zone) }
{
    if !figure.kinds.is_only(Kind::Pawn) {
        return None;
    }
    let zone = zone_of(figure, wall);
    if is_pair(zone) { Some(zone) } else { None }
}

/// The zones of a sketch's pawns beside a wall of men who stay: of the least ones those that have exactly two squares.
pub fn zones_of(sketch: &Sketch, wall: SquareSet) -> Zones
    ensures value { result ≡ pair_zones wall sketch.now }
    ensures zones { AreZones wall sketch.now result }
{
    let mut sets: ArrayVec<Zone, 32> = ArrayVec::new();
    let mut squares = none();
    for figure in sketch.figures() {
        is_whole(squares);
        match pair_zone(figure, wall) {
            Some(zone) => {
                sets.push(Zone::new(zone));
                squares = either(squares, zone);
            }
            None => {}
        }
    }
    Zones { sets, squares }
}
