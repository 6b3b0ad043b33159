ghost use Rattle.std.specs.Prelude.{◌≡◌, ◌≤◌, ◌↔◌, ◌++◌, ◌∷◌, [], IfOk, IsTrue, OnOk, length, take};
ghost use Rattle.std.specs.List.{Contains};
ghost use Rattle.query_base.specs.Reach.{Reaches};
ghost use Rattle.unmove_gen.specs.Listed.{unmoves};
ghost use Rattle.claim_findings.specs.Decisions.{Grows};
ghost use Rattle.claim_findings.specs.SearchEnds.{IsEndedBy, IsReachedIn};
ghost use Rattle.claim_findings.specs.Games.{IsEndIn};

use board_base::{Memory, Move, MoveList, Unmove, is_move};
use game_search::{FEW_QUERIES, Hunt, find_game};
use play_rules::{State, step};
use query_base::{Query, matches_end};
use std::alloc::Global;
use unmove_gen::{last_moves_are_listed, listed_moves_lead_here, pred};

/// How many queries all searches for games against claims look at together.
const ALL_QUERIES: u32 = 12_000;

/// Whether so many first moves of the game reach the query.
fn reaches(game: &MoveList, number: usize, query: &Query) -> bool
    requires { number ≤ length game.now }
    ensures { IsTrue result ↔ Reaches (take number game.now) query.now }
{
    let mut state = State::start_of(query.odds);
    let mut last = None;
    for i in 0..number {
        let m = game.get(i).unwrap();
        match step(&state, &m) {
            Ok(next) => state = next,
            Err(_) => return false,
        }
        last = Some(m);
    }
    matches_end(&state, last, query)
}

/// Whether the game ends with the move, and what is before it reaches the query.
fn ends_by(game: &MoveList, m: &Move, before: &Query) -> bool
    ensures { IsTrue result ↔ IsEndedBy game.now m.now before.now }
{
    let number = game.len();
    if number == 0 || !is_move(&game.get(number - 1), m) {
        return false;
    }
    reaches(game, number - 1, before)
}

/// The games that a study found, each of which may serve many claims, and how many queries may still be looked at for more.
#[derive(Drop)]
pub struct Games {
    pub found: Vec<MoveList>,
    left: u32,
}

impl Games {
    /// No game was looked for.
    pub fn new(alloc: Global) -> Games
        ensures { result.found.items ≡ [] }
    {
        Games {
            found: Vec::new(alloc),
            left: ALL_QUERIES,
        }
    }

    /// Whether one of the games reaches the query.
    pub(crate) fn have_one(&self, query: &Query) -> bool
        ensures { IsTrue result ↔ IsReachedIn self.now.found.items query.now }
    {
        let found = self.found.as_slice();
        for game in found {
            if reaches(game, game.len(), query) {
                return true;
            }
        }
        false
    }

    /// Whether one of the games reaches the query and ends with this retraction's move.
    pub fn have_end(&self, query: &Query, u: &Unmove) -> bool
        requires listed { Contains (unmoves query.now) u.now }
        ensures { IsTrue result ↔ IsEndIn self.now.found.items query.now u.now }
    {
        listed_moves_lead_here();
        last_moves_are_listed();
        let before = pred(query, u);
        let found = self.found.as_slice();
        for game in found {
            if ends_by(game, &u.mv, &before) {
                return true;
            }
        }
        false
    }

    /// Adds a game.
    pub(crate) fn add(&mut self, game: MoveList) -> Result<(), Memory>
        ensures { OnOk result (self.new.found.items ≡ self.old.found.items ++ game ∷ []) }
    {
        match self.found.push(game) {
            Ok(()) => Ok(()),
            Err(_) => Err(Memory),
        }
    }

    /// Whether one of the games reaches the query, or one that is found by looking at so many queries at most.
    pub(crate) fn reach(&mut self, alloc: Global, query: &Query, most: u32) -> Result<bool, Memory>
        ensures found { IfOk result
            (λ found. IsTrue found → IsReachedIn self.new.found.items query.now) }
        ensures grows { IfOk result (λ found. Grows self.old.found.items self.new.found.items) }
    {
        if self.have_one(query) {
            return Ok(true);
        }
        let Hunt { game, looked_at } = find_game(
            alloc,
            query,
            None,
            most.min(FEW_QUERIES).min(self.left),
        )?;
        self.left -= looked_at;
        let Some(game) = game else {
            return Ok(false);
        };
        self.add(game)?;
        Ok(true)
    }

    /// Looks for a game that ends with this retraction's move, if there is none yet, by looking at so many queries at most. How many were
    /// looked at.
    pub fn reach_end(
        &mut self,
        alloc: Global,
        query: &Query,
        u: &Unmove,
        most: u32,
    ) -> Result<u32, Memory>
        requires listed { Contains (unmoves query.now) u.now }
        ensures few { IfOk result (λ looked_at. looked_at ≤ most) }
        ensures grows { IfOk result (λ looked_at. Grows self.old.found.items self.new.found.items) }
    {
        if self.have_end(query, u) {
            return Ok(0);
        }
        let Hunt { game, looked_at } = find_game(alloc, &pred(query, u), None, most)?;
        if let Some(mut game) = game {
            game.push(u.mv)?;
            self.add(game)?;
        }
        Ok(looked_at)
    }
}
