ghost use Rattle.std.specs.Prelude.{◌≡◌, ◌+◌, ◌≤◌, IfOk, IfSome, OnOk, vec_len};
ghost use Rattle.game_search.specs.Counts.{looked_at};

use crate::diagrams::{diagram_of, query_key};
use crate::settings::{SPAN, Setting};
use crate::valuing::{Valuer, Worth};
use crate::wants::BothWants;
use board_base::{Memory, Move, Unmove};
use pawn_plans::{Buckets, Seen};
use query_base::{Query, is_array};
use std::alloc::Global;
use unmove_gen::{Unmoves, is_unmove, pred};

/// How many values are told apart.
const VALUES: usize = 8192;

/// How many keys of queries there is room for.
const KEYS: usize = 1 << 19;

/// How many queries an attempt keeps at most.
const MOST_STATES: usize = 200_000;

/// With fewer retractions than this all are tried that the count of pawns allows.
const FEW: usize = 12;

/// The first state has no state after it.
const NONE: u32 = u32::MAX;

/// A query that may be looked at: the retraction that leads to it, from one that was looked at.
#[derive(Clone, Copy)]
struct State {
    /// The place of that query among those that were looked at.
    after: u32,
    unmove: Option<Unmove>,
    depth: u32,
    /// Whether its value has a plan of its pawns in it.
    is_planned: bool,
}

/// A query that was looked at.
#[derive(Clone, Copy)]
struct Visited {
    query: Query,
    state: u32,
}

/// What is asked of the last move, by which the search begins.
#[derive(Clone, Copy)]
pub struct Wish {
    pub last: Option<Move>,
}

/// What came of a state that was taken.
enum Outcome {
    /// It leads nowhere, or waits with another value.
    Passed,
    Expanded,
    Home,
}

/// A search backwards.
#[derive(Drop)]
pub struct Search {
    valuer: Valuer,
    states: Vec<State>,
    visited: Vec<Visited>,
    list: Vec<Unmove>,
    open: Buckets,
    seen: Seen,
    drawn: u64,
}

fn next_draw(drawn: u64) -> u64 {
    drawn
        .wrapping_mul(6_364_136_223_846_793_005)
        .wrapping_add(1_442_695_040_888_963_407)
}

/// The bucket of a state of this value and depth.
fn bucket(value: u32, depth: u32, setting: &Setting) -> usize {
    value.saturating_add(setting.depth.saturating_mul(depth) / 2) as usize
}

impl Search {
    /// A search that has found nothing yet.
    pub fn new(alloc: Global, query: &Query) -> Result<Search, Memory> {
        Ok(Search {
            valuer: Valuer::new(alloc, query)?,
            states: Vec::new(alloc),
            visited: Vec::new(alloc),
            list: Vec::new(alloc),
            open: Buckets::new(alloc, VALUES)?,
            seen: Seen::new(alloc, KEYS)?,
            drawn: 0,
        })
    }

    fn clear(&mut self, setting: &Setting)
        ensures { vec_len self.new.visited ≡ 0 }
    {
        self.states.clear();
        self.visited.clear();
        self.open.clear();
        self.seen.clear();
        self.drawn = setting.seed.wrapping_mul(0x9e37_79b9_7f4a_7c15) | 1;
    }

    /// Whether so many queries were looked at that the next one is drawn.
    fn is_exploring(&self, setting: &Setting) -> bool {
        let every = setting.explores as usize;
        every > 0 && self.visited.len() % every == every - 1
    }

    /// The bucket from which the next state is taken, and how many of its states above that one.
    fn choose(&mut self, setting: &Setting) -> Option<(usize, u32)>
        ensures { vec_len self.new.visited ≡ vec_len self.old.visited }
    {
        self.drawn = next_draw(self.drawn);
        let number = (self.drawn >> 33) as usize;
        let lowest = self.open.lowest()?;
        if !self.is_exploring(setting) {
            return Some((lowest, 0));
        }
        let from = lowest.saturating_add(number % SPAN);
        let end = lowest.saturating_add(2 * SPAN).min(VALUES);
        match self.open.filled_between(from, end) {
            Some(value) if value > lowest => {
                let among = self.open.count(value).max(1);
                Some((value, (number >> 8) as u32 % among))
            }
            _ => Some((lowest, 0)),
        }
    }

    /// The query of a state; the first one's is given.
    fn query_of(&self, first: &Query, state: &State) -> Option<Query> {
        let Some(u) = &state.unmove else {
            return Some(*first);
        };
        let after = self.visited.get(state.after as usize)?;
        if is_unmove(&after.query, u) {
            Some(pred(&after.query, u))
        } else {
            None
        }
    }

    /// Puts a state by, if its query is new and there is hope for it.
    fn put_by(&mut self, setting: &Setting, query: &Query, state: State) -> Result<(), Memory>
        ensures { vec_len self.new.visited ≡ vec_len self.old.visited }
    {
        let diagram = diagram_of(&query.board);
        if !self.seen.add(query_key(query, &diagram)) {
            return Ok(());
        }
        let Some(worth) = self.valuer.value(setting, query, &diagram, false)? else {
            return Ok(());
        };
        let number = self.states.len().min(NONE as usize) as u32;
        self.open
            .put(bucket(worth.value, state.depth, setting), number)?;
        self.states.push(state).map_err(|_| Memory)
    }

    /// The retractions of a query by which the search goes on.
    fn list_unmoves(
        &mut self,
        query: &Query,
        wants: &BothWants,
        wish: Option<&Wish>,
    ) -> Result<BothWants, Memory>
        ensures { vec_len self.new.visited ≡ vec_len self.old.visited }
    {
        self.list.clear();
        let mut unmoves = Unmoves::new(query);
        let mut allowed: usize = 0;
        while let Some(u) = unmoves.next() {
            if allowed < FEW && wants.allow(query, &u) {
                allowed = allowed.saturating_add(1);
            }
            self.list.push(u).map_err(|_| Memory)?;
        }
        if allowed < FEW || wish.is_some() {
            Ok(wants.relaxed())
        } else {
            Ok(*wants)
        }
    }

    /// Puts by what comes before a query.
    fn expand(
        &mut self,
        setting: &Setting,
        query: &Query,
        wants: &BothWants,
        depth: u32,
        wish: Option<&Wish>,
    ) -> Result<(), Memory>
        ensures { OnOk result (vec_len self.new.visited ≡ vec_len self.old.visited) }
    {
        let after = self.visited.len().saturating_sub(1).min(NONE as usize) as u32;
        let wants = self.list_unmoves(query, wants, wish)?;
        for k in 0..self.list.len() {
            let Some(u) = self.list.get(k).copied() else {
                break;
            };
            if !is_wished(wish, &u) || !wants.allow(query, &u) || !is_unmove(query, &u) {
                continue;
            }
            let state = State {
                after,
                unmove: Some(u),
                depth: depth.saturating_add(1),
                is_planned: false,
            };
            self.put_by(setting, &pred(query, &u), state)?;
        }
        Ok(())
    }

    /// Puts a state back whose value rose; whether it did.
    fn rises(
        &mut self,
        setting: &Setting,
        number: u32,
        state: &State,
        worth: &Worth,
        value: usize,
    ) -> Result<bool, Memory>
        ensures { vec_len self.new.visited ≡ vec_len self.old.visited }
    {
        let now = bucket(worth.value, state.depth, setting);
        if state.is_planned || now <= value {
            return Ok(false);
        }
        if let Some(kept) = self.states.get_mut(number as usize) {
            kept.is_planned = true;
        }
        self.open.put(now, number)?;
        Ok(true)
    }

    /// Looks at a state that was taken from a bucket. What is expanded counts among what was looked at.
    fn visit(
        &mut self,
        setting: &Setting,
        first: &Query,
        wish: &Wish,
        number: u32,
        value: usize,
    ) -> Result<Outcome, Memory>
        ensures { IfOk result (λ outcome. vec_len self.new.visited ≡ vec_len self.old.visited + looked_at outcome) }
    {
        let Some(state) = self.states.get(number as usize).copied() else {
            return Ok(Outcome::Passed);
        };
        let Some(query) = self.query_of(first, &state) else {
            return Ok(Outcome::Passed);
        };
        let diagram = diagram_of(&query.board);
        let Some(worth) = self.valuer.value(setting, &query, &diagram, true)? else {
            return Ok(Outcome::Passed);
        };
        if self.rises(setting, number, &state, &worth, value)? {
            return Ok(Outcome::Passed);
        }
        let visited = Visited {
            query,
            state: number,
        };
        self.visited.push(visited).map_err(|_| Memory)?;
        if is_array(&query) {
            return Ok(Outcome::Home);
        }
        let is_bound = state.unmove.is_none()
            && (wish.last.is_some() || first.only.is_some() || first.barred.is_some());
        let wish = if is_bound { Some(wish) } else { None };
        self.expand(setting, &query, &worth.wants, state.depth, wish)?;
        Ok(Outcome::Expanded)
    }

    /// The moves from the state that was looked at last.
    fn moves(&self, alloc: Global) -> Result<Vec<Move>, Memory>
        ensures { IfOk result (λ moves. vec_len moves ≤ vec_len self.now.visited) }
    {
        let mut moves = Vec::new(alloc);
        let mut place = self.visited.len().saturating_sub(1);
        'steps: while moves.len() < self.visited.len() {
            let Some(visited) = self.visited.get(place) else {
                break;
            };
            let Some(state) = self.states.get(visited.state as usize) else {
                break;
            };
            let Some(u) = &state.unmove else {
                break;
            };
            moves.push(u.mv).map_err(|_| Memory)?;
            place = state.after as usize;
        }
        Ok(moves)
    }

    /// Goes back from the first query, looking at no more than so many queries. If the array is reached, the moves from there are
    /// told.
    pub fn attempt(
        &mut self,
        alloc: Global,
        setting: &Setting,
        first: &Query,
        wish: &Wish,
        most: u32,
    ) -> Result<Option<Vec<Move>>, Memory>
        ensures few { IfOk result (λ found. vec_len self.new.visited ≤ most) }
        ensures short { IfOk result (λ found. IfSome found (λ moves. vec_len moves ≤ vec_len self.new.visited)) }
    {
        self.clear(setting);
        let root = State {
            after: NONE,
            unmove: None,
            depth: 0,
            is_planned: false,
        };
        self.put_by(setting, first, root)?;
        'visits: for _ in 0..most.saturating_mul(3) {
            if self.visited.len() >= most as usize || self.states.len() >= MOST_STATES {
                break;
            }
            let Some((value, above)) = self.choose(setting) else {
                break;
            };
            let Some(number) = self.open.take(value, above) else {
                break;
            };
            match self.visit(setting, first, wish, number, value)? {
                Outcome::Home => return Ok(Some(self.moves(alloc)?)),
                Outcome::Passed | Outcome::Expanded => {}
            }
        }
        Ok(None)
    }

    /// How many queries the attempt looked at.
    pub fn looked_at(&self) -> u32
        requires { vec_len self.now.visited ≤ 4294967295 }
        ensures { result ≡ vec_len self.now.visited }
    {
        self.visited.len() as u32
    }
}

/// Whether the search may begin by this retraction.
fn is_wished(wish: Option<&Wish>, u: &Unmove) -> bool {
    match wish {
        Some(wish) => match &wish.last {
            Some(m) => u.mv == *m,
            None => true,
        },
        None => true,
    }
}
