ghost use Rattle.std.specs.Prelude.{◌≡◌, ◌+◌, ◌<◌, ◌||◌, ℕ, Bool, IsTrue, List, [], slice_index_or};
ghost use Rattle.board_base.specs.Board.{is_in};
ghost use Rattle.board_base.specs.Legal.{is_officer};
ghost use Rattle.cage_rules.specs.Regions.{is_officer_home, region};
ghost use Rattle.capture_prices.specs.Prices.{PriceList};
ghost use Rattle.balance_rule.specs.Grounds.{ArePromoted, IsGround};
ghost use Rattle.balance_rule.specs.LeastWays.{seen_by};

use crate::earnings::{earned_in_each, either};
use crate::reaches::{Reach, reaches_of};
use crate::tariffs::{Tariff, tariff_of};
use crate::views::seen_by;
use board_base::{Board, Colour, Kind, Man, SquareSet, array_of};
use cage_rules::{exposed, is_officer_home, region, region_from};
use capture_prices::Prices;
use query_base::Query;

/// What is known of a side before its men are looked at. Files are counted as the side sees the board.
#[derive(Clone, Copy)]
pub struct Ground {
    pub side: Colour,
    pub frozen: SquareSet,
    /// The array at the query's odds.
    pub first: Board,
    /// The squares on which its men are exposed to enemy pawns.
    pub exposed: SquareSet,
    /// What its pawns pay on each square, and what its men earn there.
    pub tariff: Tariff,
    /// What the ways of its pawns outside the set cost at least.
    pub reaches: [Reach; 8],
    /// The regions of its knights, bishops, rooks and queen from their homes.
    pub regions: [SquareSet; 8],
    /// The regions of knights from the squares of its last rank.
    pub knights: [SquareSet; 8],
    /// Those of bishops.
    pub bishops: [SquareSet; 8],
    /// Those of rooks.
    pub rooks: [SquareSet; 8],
    /// Those of queens.
    pub queens: [SquareSet; 8],
    /// The squares of some of these four regions.
    pub promoted: [SquareSet; 8],
    /// What a knight, bishop, rook or queen earns at most who is taken in the region of his home.
    pub most_at_home: [u16; 8],
    /// What a man earns at most who is taken after he was promoted on a square of the last rank.
    pub most_promoted: [u16; 8],
}

/// The regions of the side's knights, bishops, rooks and queen from their homes.
fn regions_of(side: Colour, frozen: SquareSet) -> [SquareSet; 8]
    ensures { (f : ℕ) → f < 8 → IsTrue (is_officer_home (seen_by side f)) → slice_index_or result f [] ≡ region frozen (seen_by side f) }
{
    let mut regions = [SquareSet::from_bits(0); 8];
    for f in 0..8 {
        let home = seen_by(side, f);
        if is_officer_home(home) {
            regions[f as usize] = region(frozen, home);
        }
    }
    regions
}

/// The regions of officers of this kind from the squares of the side's last rank.
fn promoted_of(side: Colour, frozen: SquareSet, kind: Kind) -> [SquareSet; 8]
    requires { IsTrue (is_officer kind) }
    ensures { ArePromoted frozen side kind result }
{
    let man = Man { colour: side, kind };
    let mut regions = [SquareSet::from_bits(0); 8];
    for f in 0..8 {
        regions[f as usize] = region_from(frozen, man, seen_by(side, 56 + f));
    }
    regions
}

/// The squares of some of four sets, for each of eight places.
fn some_of(
    a: &[SquareSet; 8],
    b: &[SquareSet; 8],
    c: &[SquareSet; 8],
    d: &[SquareSet; 8],
) -> [SquareSet; 8]
    ensures { (f s : ℕ) → f < 8 → s < 64 → is_in (slice_index_or result f []) s ≡ (is_in (slice_index_or a.now f []) s || is_in (slice_index_or b.now f []) s || is_in (slice_index_or c.now f []) s || is_in (slice_index_or d.now f []) s) }
{
    let mut sets = [SquareSet::from_bits(0); 8];
    for f in 0..8 {
        sets[f] = either(either(either(a[f], b[f]), c[f]), d[f]);
    }
    sets
}

/// What is known of a side of the query, beside a frozen set and at these prices.
pub fn ground_of(query: &Query, frozen: SquareSet, prices: &Prices, side: Colour) -> Ground
    ensures side { result.side ≡ side }
    ensures frozen { result.frozen ≡ frozen }
    ensures ground { IsGround query.now.odds prices.now result }
{
    let exposed = exposed(frozen, side);
    let enemy = prices.takes(side.other());
    let tariff = tariff_of(side, exposed, prices);
    let regions = regions_of(side, frozen);
    let knights = promoted_of(side, frozen, Kind::Knight);
    let bishops = promoted_of(side, frozen, Kind::Bishop);
    let rooks = promoted_of(side, frozen, Kind::Rook);
    let queens = promoted_of(side, frozen, Kind::Queen);
    let promoted = some_of(&knights, &bishops, &rooks, &queens);
    Ground {
        side,
        frozen,
        first: array_of(query.odds),
        exposed,
        reaches: reaches_of(side, frozen, &tariff),
        tariff,
        regions,
        knights,
        bishops,
        rooks,
        queens,
        promoted,
        most_at_home: earned_in_each(exposed, enemy, &regions),
        most_promoted: earned_in_each(exposed, enemy, &promoted),
    }
}

/// Reckons with other prices.
pub fn set_prices(ground: &mut Ground, prices: &Prices)
    ensures side { ground.new.side ≡ ground.old.side }
    ensures frozen { ground.new.frozen ≡ ground.old.frozen }
    ensures ground { (o : List Bool) (p : PriceList) → IsGround o p ground.old → IsGround o prices.now ground.new }
{
    let enemy = prices.takes(ground.side.other());
    ground.tariff = tariff_of(ground.side, ground.exposed, prices);
    ground.reaches = reaches_of(ground.side, ground.frozen, &ground.tariff);
    ground.most_at_home = earned_in_each(ground.exposed, enemy, &ground.regions);
    ground.most_promoted = earned_in_each(ground.exposed, enemy, &ground.promoted);
}
