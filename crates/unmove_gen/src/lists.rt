ghost use Rattle.std.specs.Prelude.{◌≡◌, ◌∷◌, [], MatchOption};
ghost use Rattle.unmove_gen.specs.Listed.{unmoves};

use crate::candidates::Cursor;
use crate::facts::{QueryFacts, facts_of};
use crate::stops::{ListedMove, stop_after, stop_from};
use crate::targets::{arrivals_by, targets_of};
use board_base::{SquareSet, Unmove};
use query_base::Query;
use std::marker::Model;

/// A query, and its unmoves that are left to be given, as `Unmoves` gives them; seen as the two.
#[derive(Drop)]
pub struct QueryUnmoves {
    query: Query,
    facts: Option<QueryFacts>,
    targets: SquareSet,
    stop: ListedMove,
}

impl Model for QueryUnmoves {
    ghost use Rattle.std.specs.Prelude.{drop, IfSome};
    ghost use Rattle.std.specs.List.{filter};
    ghost use Rattle.unmove_gen.specs.Listed.{AskedUnmoves, candidates, is_listed};
    ghost use Rattle.unmove_gen.specs.Cursors.{number_of};
    ghost use Rattle.unmove_gen.specs.Plain.{AreFacts, KnowsAlone};
    ghost use Rattle.unmove_gen.specs.Ready.{AreReady, AreTargets};

    ghost Value = { AskedUnmoves };

    ghost view = { λ s. record { query = s.query; left = filter (is_listed s.query) (drop (number_of s.stop.cursor) candidates) } };

    ghost invariant = { λ s. IfSome s.facts (λ f. AreFacts s.query f) × AreTargets s.query s.targets × IfSome s.facts (λ f. KnowsAlone s.query f.king s.stop.cursor.to s.stop.alone) × AreReady s.query s.stop.cursor s.stop.listed };
}

impl QueryUnmoves {
    /// The query, and all its unmoves.
    #[tactic(auto, unfolding(crate::specs::Listed::unmoves))]
    pub fn new(query: &Query) -> QueryUnmoves
        ensures { result ≡ record { query = query.now; left = unmoves query.now } }
    {
        let facts = facts_of(query);
        let targets = targets_of(query, arrivals_by(query, &facts));
        let stop = stop_from(query, &facts, targets, Cursor::first(), 64, false);
        QueryUnmoves {
            query: *query,
            facts,
            targets,
            stop,
        }
    }

    /// The query.
    pub fn query(&self) -> Query
        ensures { result ≡ self.now.query }
    {
        self.query
    }

    /// The first unmove that is left, which then is left no more; None if and only if none is left.
    pub fn next(&mut self) -> Option<Unmove>
        ensures left { MatchOption result ((self.old.left ≡ []) × (self.new.left ≡ [])) (λ u. self.old.left ≡ u ∷ self.new.left) }
        ensures query { self.new.query ≡ self.old.query }
    {
        while self.stop.cursor.to < 64 {
            let u = self.stop.cursor.candidate();
            let is_listed = self.stop.listed[self.stop.cursor.capture as usize];
            self.stop = stop_after(&self.query, &self.facts, self.targets, &self.stop);
            if is_listed {
                return Some(u);
            }
        }
        None
    }
}

/// The unmoves of a query that are left to be given, seen as their list. An unmove is a move that the side not to move may have made
/// last in a game that reaches the query, with the kind of the man that it captured; it captured en passant only if it is so
/// marked. Its origin is empty, and a man of that side stands on its target. On the board before it, the move is legal if every
/// castling is allowed, it leads to the query's board, and that board passes tests that the board of every game passes: one king
/// each, no pawn on rank 1 or 8, no king attacked out of turn, and for each side no more pawns and men that must have been promoted
/// than it begins with pawns, seen from what it begins with at the query's odds. The move touches no home of a right that is held,
/// and is what `only`, `barred` and the clock ask of the last move: by `only` a pawn stands on its target, and if a clock is
/// demanded, the move captures or is a pawn's if and only if the clock is 0.
///
/// They ascend in the order of `cmp_unmove`: by target, then origin, then promotion, then captured man, en passant after all others.
/// There are at most 143,360.
#[derive(Drop)]
pub struct Unmoves {
    unmoves: QueryUnmoves,
}

impl Model for Unmoves {
    ghost use Rattle.std.specs.Prelude.{List};
    ghost use Rattle.board_base.specs.declared.unmoves.Unmove.{Unmove as AnUnmove};

    ghost Value = { List AnUnmove };

    ghost view = { λ s. s.unmoves.left };
}

impl Unmoves {
    /// All unmoves of the query. The last move of each game that reaches it is among them.
    pub fn new(query: &Query) -> Unmoves
        ensures { result ≡ unmoves query.now }
    {
        Unmoves {
            unmoves: QueryUnmoves::new(query),
        }
    }

    /// The first unmove that is left, which then is left no more; None if and only if none is left.
    pub fn next(&mut self) -> Option<Unmove>
        ensures { MatchOption result ((self.old ≡ []) × (self.new ≡ [])) (λ u. self.old ≡ u ∷ self.new) }
    {
        self.unmoves.next()
    }
}
