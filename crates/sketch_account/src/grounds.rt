ghost use Rattle.std.specs.Prelude.{◌≡◌, ◌+◌, ◌<◌, ◌||◌, ℕ, Bool, IsTrue, List, Some, [], length, slice_index_or, true};
ghost use Rattle.board_base.specs.Board.{at, is_in, man};
ghost use Rattle.board_base.specs.Legal.{is_officer};
ghost use Rattle.board_base.specs.declared.men.Man.{Man as AMan};
ghost use Rattle.capture_prices.specs.Prices.{PriceList};
ghost use Rattle.balance_rule.specs.Grounds.{IsGround as IsOpenGround};
ghost use Rattle.balance_rule.specs.LeastWays.{seen_by};
ghost use Rattle.sketch_grounds.specs.Zones.{Room, reached_from, roams_past, room_past};
ghost use Rattle.sketch_account.specs.Grounds.{IsGround};

use balance_rule::{earned_in_each, seen_by};
use board_base::{Board, CastleSet, Colour, Kind, Man, Odds, Square, SquareSet};
use capture_prices::Prices;
use figures::either;
use query_base::Query;
use sketch_grounds::{Zones, room_from};

/// What is known of a side before its figures are looked at. Files are counted as the side sees the board.
#[derive(Clone, Copy)]
pub(crate) struct Ground {
    /// What is known if no zone bars a way.
    pub(crate) base: balance_rule::Ground,
    /// The rooms of its knights, bishops, rooks and queen from their homes.
    pub(crate) rooms: [SquareSet; 8],
    /// The rooms of knights from the squares of its last rank.
    pub(crate) knights: [SquareSet; 8],
    /// Those of bishops.
    pub(crate) bishops: [SquareSet; 8],
    /// Those of rooks.
    pub(crate) rooks: [SquareSet; 8],
    /// Those of queens.
    pub(crate) queens: [SquareSet; 8],
    /// The squares of some of these four rooms.
    pub(crate) promoted: [SquareSet; 8],
    /// What a knight, bishop, rook or queen earns at most who is taken in his room from home.
    pub(crate) most_at_home: [u16; 8],
    /// What a man earns at most who is taken after he was promoted on a square of the last rank.
    pub(crate) most_promoted: [u16; 8],
}

/// The room of a man who begins there, if he is an officer.
fn room_at(wall: SquareSet, zones: &Zones, place: Option<Man>, home: Square) -> SquareSet
    ensures { (m : AMan) → place ≡ Some m → is_officer m.kind ≡ true → result ≡ reached_from (roams_past wall zones.now (Some m)) home }
{
    match place {
        Some(man) if man.kind != Kind::Pawn && man.kind != Kind::King => room_from(
            wall, zones, man, home,
        ),
        _ => SquareSet::from_bits(0),
    }
}

/// The rooms of the side's knights, bishops, rooks and queen from their homes.
fn rooms_of(side: Colour, wall: SquareSet, zones: &Zones, first: &Board) -> [SquareSet; 8]
    ensures size { length result ≡ 8 }
    ensures rooms { (f : ℕ) (m : AMan) → f < 8 → at first.now (seen_by side f) ≡ Some m → is_officer m.kind ≡ true → slice_index_or result f [] ≡ reached_from (roams_past wall zones.now (Some m)) (seen_by side f) }
{
    let mut rooms = [SquareSet::from_bits(0); 8];
    for f in 0..8 {
        let home = seen_by(side, f);
        rooms[f as usize] = room_at(wall, zones, first.at(home), home);
    }
    rooms
}

/// The rooms of officers of this kind from the squares of the side's last rank.
fn promoted_of(side: Colour, wall: SquareSet, zones: &Zones, kind: Kind) -> [SquareSet; 8]
    requires { IsTrue (is_officer kind) }
    ensures size { length result ≡ 8 }
    ensures rooms { (f : ℕ) → f < 8 → slice_index_or result f [] ≡ reached_from (roams_past wall zones.now (man side kind)) (seen_by side (56 + f)) }
{
    let man = Man { colour: side, kind };
    let mut rooms = [SquareSet::from_bits(0); 8];
    for f in 0..8 {
        rooms[f as usize] = room_from(wall, zones, man, seen_by(side, 56 + f));
    }
    rooms
}

/// The squares of some of four sets, for each of eight places.
fn some_of(
    a: &[SquareSet; 8],
    b: &[SquareSet; 8],
    c: &[SquareSet; 8],
    d: &[SquareSet; 8],
) -> [SquareSet; 8]
    ensures { (f s : ℕ) → f < 8 → s < 64 → is_in (slice_index_or result f []) s ≡ (is_in (slice_index_or a.now f []) s || is_in (slice_index_or b.now f []) s || is_in (slice_index_or c.now f []) s || is_in (slice_index_or d.now f []) s) }
{
    let mut sets = [SquareSet::from_bits(0); 8];
    for f in 0..8 {
        sets[f] = some_in(a[f], b[f], c[f], d[f]);
    }
    sets
}

/// The squares of some of four sets.
fn some_in(a: SquareSet, b: SquareSet, c: SquareSet, d: SquareSet) -> SquareSet
    ensures { (s : ℕ) → s < 64 → is_in result s ≡ (is_in a s || is_in b s || is_in c s || is_in d s) }
{
    either(either(either(a, b), c), d)
}

/// A query at these odds, of which nothing else is looked at.
fn query_at(odds: Odds) -> Query
    ensures { result.odds ≡ odds }
{
    Query {
        board: Board::empty(),
        turn: Colour::White,
        odds,
        held: CastleSet::none(),
        only: None,
        barred: None,
        clock: None,
    }
}

/// What is known of a side if no zone bars a way: then rooms are regions.
fn open_ground(base: balance_rule::Ground) -> Ground
    ensures base { result.base ≡ base }
    ensures ground { (o : List Bool) (p : PriceList) → IsOpenGround o p base → IsGround o p (room_past base.frozen []) result }
{
    let rooms = base.regions;
    let knights = base.knights;
    let bishops = base.bishops;
    let rooks = base.rooks;
    let queens = base.queens;
    let promoted = base.promoted;
    let most_at_home = base.most_at_home;
    let most_promoted = base.most_promoted;
    Ground {
        base,
        rooms,
        knights,
        bishops,
        rooks,
        queens,
        promoted,
        most_at_home,
        most_promoted,
    }
}

/// The same past zones, at these prices.
fn zoned_ground(base: balance_rule::Ground, zones: &Zones, prices: &Prices) -> Ground
    ensures base { result.base ≡ base }
    ensures ground { (o : List Bool) → IsOpenGround o prices.now base → IsGround o prices.now (room_past base.frozen zones.now) result }
{
    let enemy = prices.takes(base.side.other());
    let rooms = rooms_of(base.side, base.frozen, zones, &base.first);
    let knights = promoted_of(base.side, base.frozen, zones, Kind::Knight);
    let bishops = promoted_of(base.side, base.frozen, zones, Kind::Bishop);
    let rooks = promoted_of(base.side, base.frozen, zones, Kind::Rook);
    let queens = promoted_of(base.side, base.frozen, zones, Kind::Queen);
    let promoted = some_of(&knights, &bishops, &rooks, &queens);
    let most_at_home = earned_in_each(base.exposed, enemy, &rooms);
    let most_promoted = earned_in_each(base.exposed, enemy, &promoted);
    Ground {
        base,
        rooms,
        knights,
        bishops,
        rooks,
        queens,
        promoted,
        most_at_home,
        most_promoted,
    }
}

/// What is known of a side beside a wall and zones, at these prices.
pub(crate) fn ground_of(
    odds: Odds,
    wall: SquareSet,
    zones: &Zones,
    prices: &Prices,
    side: Colour,
) -> Ground
    ensures side { result.base.side ≡ side }
    ensures wall { result.base.frozen ≡ wall }
    ensures ground { IsGround odds prices.now (room_past wall zones.now) result }
{
    let base = balance_rule::ground_of(&query_at(odds), wall, prices, side);
    if zones.is_empty() {
        open_ground(base)
    } else {
        zoned_ground(base, zones, prices)
    }
}

/// Reckons with other prices.
pub(crate) fn set_prices(ground: &mut Ground, prices: &Prices)
    ensures side { ground.new.base.side ≡ ground.old.base.side }
    ensures wall { ground.new.base.frozen ≡ ground.old.base.frozen }
    ensures ground { (o : List Bool) (p : PriceList) (R : Room) → IsGround o p R ground.old → IsGround o prices.now R ground.new }
{
    balance_rule::set_prices(&mut ground.base, prices);
    let enemy = prices.takes(ground.base.side.other());
    ground.most_at_home = earned_in_each(ground.base.exposed, enemy, &ground.rooms);
    ground.most_promoted = earned_in_each(ground.base.exposed, enemy, &ground.promoted);
}
