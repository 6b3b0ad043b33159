ghost use Rattle.std.specs.Prelude.{◌≡◌, IfSome, IsSome};
ghost use Rattle.balance_rule.specs.Balance.{BalanceSupports};
ghost use Rattle.price_search.specs.FlatPrices.{AreLow, FlatPricesSupport, flat_prices};
ghost use Rattle.price_search.specs.Standing.{AreStanding};
ghost use Rattle.price_search.specs.declared.payers.Payers.{Payers as APayers};

use crate::ascent::{Sought, seek};
use crate::costs::SideMen;
use crate::flat_grounds::{FlatGround, FlatGrounds, FlatSide, Homes, flat_fails};
use crate::keys::{Key, Order, placed_men, traces_on};
use crate::lands::Land;
use crate::outcomes::Men;
use crate::payers::{Payers, flat_prices, once_prices};
use crate::plain::seek_plain;
use crate::standing::{StandingMen, standing_men};
use balance_rule::{balances, is_whole};
use board_base::{Board, Odds, SquareSet};
use byte_hash::ByteHasher;
use cage_rules::greatest_as_array;
use capture_prices::Prices;
use indexmap::IndexMap;
use query_base::Query;
use std::alloc::Global;
use std::hash::BuildHasherDefault;

/// The most keys of which it is noted what was found.
const MOST_TRIED: usize = 65_536;

/// The most sets of which it is kept what is known at flat prices.
const MOST_SETS: usize = 32;

/// What was found for keys.
type Tried = IndexMap<Key, Sought, BuildHasherDefault<ByteHasher>>;

/// What is kept while prices are sought for one position after another.
#[derive(Drop)]
pub struct PriceDesk {
    /// What is known at flat prices of sets and odds.
    kept: Vec<FlatGrounds>,
    /// What was found for each key, with homes in order of the men's traces.
    tried: Tried,
}

/// The men of both sides in order of their traces.
#[derive(Clone, Copy)]
struct PlacedMen {
    white: Order,
    black: Order,
}

/// The men of both sides.
#[derive(Clone, Copy)]
struct Sides {
    white: SideMen,
    black: SideMen,
}

impl PriceDesk {
    /// Nothing is kept.
    pub fn new(alloc: Global) -> PriceDesk {
        PriceDesk {
            kept: Vec::new(alloc),
            tried: IndexMap::with_hasher(alloc, BuildHasherDefault::new()),
        }
    }

    /// Keeps what is known at flat prices of the query with this set, and gives its place; past the last if out of memory.
    fn add_grounds(&mut self, query: &Query, set: SquareSet) -> usize {
        if self.kept.len() >= MOST_SETS {
            self.kept.clear();
        }
        let _ = self.kept.push(FlatGrounds::new(query, set));
        let place = self.kept.iter().position(|it| it.fits(set, query.odds));
        place.unwrap_or(self.kept.len())
    }

    /// The place of what is known at flat prices of the query with this set. It is kept from now on; if out of memory, the place
    /// is past the last.
    fn place_of(&mut self, query: &Query, set: SquareSet) -> usize {
        match self.kept.iter().position(|it| it.fits(set, query.odds)) {
            Some(place) => place,
            None => self.add_grounds(query, set),
        }
    }
}

impl PlacedMen {
    /// These homes, which are in ascending order of the men's squares, in order of their traces.
    fn by_traces(&self, homes: &Homes) -> Homes {
        Homes {
            white: self.white.by_traces(&homes.white),
            black: self.black.by_traces(&homes.black),
        }
    }

    /// These homes, which are in order of the men's traces, in ascending order of their squares.
    fn by_squares(&self, homes: &Homes) -> Homes {
        Homes {
            white: self.white.by_squares(&homes.white),
            black: self.black.by_squares(&homes.black),
        }
    }
}

impl Sought {
    /// The same, with plain prices in place of others if such are found, if these are the men, the set and what the true homes cost
    /// at most without gates.
    fn plainly(self, men: &Men, set: SquareSet, base: u32) -> Sought {
        let mut sought = self;
        if self.prices.is_some() {
            if let Some(plain) = seek_plain(men, set, base) {
                sought.prices = Some(plain);
            }
        }
        sought
    }
}

/// The men of one side, by their traces; None if there are more than it began with.
fn side_men(kept: &FlatSide, land: &Land, board: &Board, squares: &[u8]) -> Option<SideMen> {
    let begun = kept.begun as usize;
    if squares.len() > begun {
        return None;
    }
    Some(SideMen {
        traces: traces_on(&kept.side, &land.officers, board, squares),
        standing: squares.len(),
        begun,
    })
}

/// The men of both sides on these squares; None if there are more of one than it began with.
fn sides_of(kept: &FlatGrounds, board: &Board, standing: &StandingMen) -> Option<Sides> {
    let both = &kept.both;
    let lands = &kept.lands;
    Some(Sides {
        white: side_men(&both.white, &lands.white, board, standing.white.as_slice())?,
        black: side_men(&both.black, &lands.black, board, standing.black.as_slice())?,
    })
}

impl Sides {
    /// The key of positions with this set and these odds.
    fn key(&self, placed: &PlacedMen, set: SquareSet, odds: Odds) -> Key {
        Key {
            set,
            odds,
            white: placed.white.traces(&self.white.traces),
            black: placed.black.traces(&self.black.traces),
        }
    }
}

/// What was found for the key of the position, whose men stand on these squares, or is found now, with the homes in ascending order of
/// the squares; None if a side has more men than it began with.
fn sought(
    kept: &FlatGrounds,
    tried: &mut Tried,
    query: &Query,
    set: SquareSet,
    standing: &StandingMen,
) -> Option<Sought>
    requires { AreStanding query.now.board standing.now }
{
    let sides = sides_of(kept, &query.board, standing)?;
    let placed = PlacedMen {
        white: placed_men(&sides.white.traces),
        black: placed_men(&sides.black.traces),
    };
    let key = sides.key(&placed, set, query.odds);
    if let Some(found) = tried.get(&key) {
        return Some(Sought {
            both: placed.by_squares(&found.both),
            white_alone: placed.by_squares(&found.white_alone),
            black_alone: placed.by_squares(&found.black_alone),
            prices: found.prices,
        });
    }
    let men = Men {
        lands: kept.lands,
        white: sides.white,
        black: sides.black,
    };
    let found = seek(query, set, kept, standing, &men).plainly(&men, set, kept.both.most);
    if tried.len() < MOST_TRIED {
        let by_traces = Sought {
            both: placed.by_traces(&found.both),
            white_alone: placed.by_traces(&found.white_alone),
            black_alone: placed.by_traces(&found.black_alone),
            prices: found.prices,
        };
        let _ = tried.insert(key, by_traces);
    }
    Some(found)
}

/// These prices, if they support the query with this set.
fn if_balanced(query: &Query, set: SquareSet, prices: Prices) -> Option<Prices>
    ensures supports { IfSome result (λ found. BalanceSupports query.now set found) }
    ensures same { IfSome result (λ found. found ≡ prices) }
    ensures all { BalanceSupports query.now set prices → IsSome result }
{
    if balances(query, set, &prices) {
        Some(prices)
    } else {
        None
    }
}

/// These flat prices, if they support the query with this set: with 1 for a capture if so they support it too, as they should. They need
/// not be tried if homes show that they don't.
fn flat_if_balanced(
    kept: &FlatGround,
    query: &Query,
    set: SquareSet,
    payers: Payers,
    standing: &Option<StandingMen>,
    homes: &Homes,
) -> Option<Prices>
    requires { IfSome standing.now (AreStanding query.now.board) }
    ensures supports { IfSome result (λ found. BalanceSupports query.now set found) }
    ensures all { BalanceSupports query.now set (flat_prices payers) → IsSome result }
    ensures low { IfSome result (AreLow query.now set) }
{
    if let Some(men) = standing {
        if flat_fails(kept, query, set, payers, men, homes) {
            return None;
        }
    }
    let flat = flat_prices(payers);
    match if_balanced(query, set, once_prices(payers)) {
        Some(prices) => Some(prices),
        None => if_balanced(query, set, flat),
    }
}

/// Flat prices that support the query with this set, if some do.
fn find_flat(
    kept: &FlatGrounds,
    query: &Query,
    set: SquareSet,
    standing: &Option<StandingMen>,
    found: &Sought,
) -> Option<Prices>
    requires { IfSome standing.now (AreStanding query.now.board) }
    ensures supports { IfSome result (λ prices. BalanceSupports query.now set prices) }
    ensures flat { (payers : APayers) → BalanceSupports query.now set (flat_prices payers) → IsSome result }
    ensures low { IfSome result (AreLow query.now set) }
{
    let both = flat_if_balanced(&kept.both, query, set, Payers::Both, standing, &found.both);
    if both.is_some() {
        return both;
    }
    let white = flat_if_balanced(
        &kept.white_alone,
        query,
        set,
        Payers::WhiteAlone,
        standing,
        &found.white_alone,
    );
    if white.is_some() {
        return white;
    }
    flat_if_balanced(
        &kept.black_alone,
        query,
        set,
        Payers::BlackAlone,
        standing,
        &found.black_alone,
    )
}

/// Prices that support the query with this set, if they are found: flat ones if some do.
fn prices_by(kept: &FlatGrounds, tried: &mut Tried, query: &Query, set: SquareSet) -> Option<Prices>
    ensures supports { IfSome result (λ prices. BalanceSupports query.now set prices) }
    ensures flat { (payers : APayers) → BalanceSupports query.now set (flat_prices payers) → IsSome result }
    ensures low { IfSome result (AreLow query.now set) }
{
    let standing = standing_men(&query.board);
    let found = match &standing {
        Some(men) => sought(kept, tried, query, set, men),
        None => None,
    };
    let found = found.unwrap_or(Sought::nothing());
    let flat = find_flat(kept, query, set, &standing, &found);
    if flat.is_some() {
        return flat;
    }
    if_balanced(query, set, found.prices?)
}

/// The same, with nothing that is kept at flat prices.
fn prices_anew(tried: &mut Tried, query: &Query, set: SquareSet) -> Option<Prices>
    ensures supports { IfSome result (λ prices. BalanceSupports query.now set prices) }
    ensures flat { (payers : APayers) → BalanceSupports query.now set (flat_prices payers) → IsSome result }
    ensures low { IfSome result (AreLow query.now set) }
{
    prices_by(&FlatGrounds::new(query, set), tried, query, set)
}

/// The same, with what is on the desk.
fn find_prices(query: &Query, set: SquareSet, desk: &mut PriceDesk) -> Option<Prices>
    ensures supports { IfSome result (λ prices. BalanceSupports query.now set prices) }
    ensures flat { (payers : APayers) → BalanceSupports query.now set (flat_prices payers) → IsSome result }
    ensures low { IfSome result (AreLow query.now set) }
{
    let place = desk.place_of(query, set);
    match desk.kept.get(place) {
        Some(kept) => prices_by(kept, &mut desk.tried, query, set),
        None => prices_anew(&mut desk.tried, query, set),
    }
}

/// A set and prices that support the query, if they are found. They are if flat prices support it; otherwise none need be, even
/// if there are some. Flat ones have 24 for a capture only if those with 1 don't support it. The set is the greatest one that is as in
/// the array. What was found or sought in vain is kept on the desk for other positions where the men cost the same.
pub fn find_balance(query: &Query, desk: &mut PriceDesk) -> Option<(SquareSet, Prices)>
    ensures supports { IfSome result (λ found. BalanceSupports query.now found.0 found.1) }
    ensures flat { FlatPricesSupport query.now → IsSome result }
    ensures low { IfSome result (λ found. AreLow query.now found.0 found.1) }
{
    let set = greatest_as_array(query);
    is_whole(set);
    match find_prices(query, set, desk) {
        Some(prices) => Some((set, prices)),
        None => None,
    }
}
