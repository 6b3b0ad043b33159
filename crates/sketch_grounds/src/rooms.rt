ghost use Rattle.std.specs.Prelude.{◌≡◌, ◌<◌, ℕ, IsTrue, Some};
ghost use Rattle.board_base.specs.Board.{is_in};
ghost use Rattle.board_base.specs.Legal.{is_officer};
ghost use Rattle.cage_rules.specs.Steps.{is_near};
ghost use Rattle.cage_rules.specs.SetSteps.{spread};
ghost use Rattle.sketch_grounds.specs.LeastZones.{is_only};
ghost use Rattle.sketch_grounds.specs.Paces.{is_barred, is_pace, paced};
ghost use Rattle.past_account.specs.Zones.{reached_from, roams_past};

use crate::entries::steps_to;
use crate::pawn_zones::{Zone, Zones};
use crate::sets::{both, none, outside};
use board_base::{Kind, Man, Square, SquareSet};
use cage_rules::piece_steps;
use figures::{either, is_same};

/// The squares that with `u` are all that the zone has.
fn partners(zone: SquareSet, u: Square) -> SquareSet
    ensures { (t : ℕ) → t < 64 → is_in result t ≡ is_only zone t u }
{
    let rest = zone.without(u);
    let first = rest.next_from(0);
    if first == 64 {
        return SquareSet::from_bits(u64::MAX);
    }
    let t = Square::known(first);
    if rest.without(t).next_from(0) == 64 {
        none().with(t)
    } else {
        none()
    }
}

/// The squares from which no step to `u` leaves each zone a square.
fn barred_from(zones: &[Zone], u: Square) -> SquareSet
    ensures { (t : ℕ) → t < 64 → is_in result t ≡ is_barred zones.now t u }
{
    let mut barred = none();
    for zone in zones {
        barred = either(barred, partners(zone.squares(), u));
    }
    barred
}

/// Whether a piece of this kind comes by one step to `u` from these squares, and leaves each zone a square.
fn comes(kind: Kind, zones: &Zones, within: SquareSet, u: Square) -> bool
    ensures { result ≡ is_near (is_pace kind zones.now) within u }
{
    let from = both(
        both(within, steps_to(kind, u)),
        outside(barred_from(zones.sets.as_slice(), u)),
    );
    from.next_from(0) < 64
}

/// These squares, and those outside `wall` to which a piece of this kind goes from them by one step.
fn spread(kind: Kind, wall: SquareSet, within: SquareSet) -> SquareSet
    ensures { result ≡ spread kind wall within }
{
    either(within, both(piece_steps(kind, within), outside(wall)))
}

/// The same of steps that leave each zone a square.
fn paced(kind: Kind, wall: SquareSet, zones: &Zones, within: SquareSet) -> SquareSet
    ensures { result ≡ paced kind wall zones.now within }
{
    let mut more = spread(kind, wall, within);
    let doubtful = both(zones.squares, both(more, outside(within)));
    let mut i = doubtful.next_from(0);
    'doubts: while i < 64 {
        let u = Square::known(i);
        if !comes(kind, zones, within, u) {
            more = more.without(u);
        }
        i = doubtful.next_from(i + 1);
    }
    more
}

/// The squares to which a knight, a bishop, a rook or a queen can have gone from a square beside a wall of men who stay, by moves that
/// leave each zone a square.
pub fn room_from(wall: SquareSet, zones: &Zones, man: Man, from: Square) -> SquareSet
    requires { IsTrue (is_officer man.kind) }
    ensures { result ≡ reached_from (roams_past wall zones.now (Some man)) from }
{
    let mut within = none().with(from);
    'steps: loop {
        let more = paced(man.kind, wall, zones, within);
        if is_same(more, within) {
            return within;
        }
        within = more;
    }
}
