ghost use Rattle.std.specs.Prelude.{◌≡◌, ◌∷◌, [], MatchOption};
ghost use Rattle.unmove_gen.specs.Listed.{unmoves};

use crate::frames::no_query;
use board_base::Unmove;
use query_base::Query;
use std::marker::Model;
use unmove_gen::QueryUnmoves;

/// A node's query, and its unmoves that no child had, seen as the two. A frame that isn't used has none, and looks for none.
// The query stands here alone: there are many frames, and all of their bytes are cleared where a check begins.
#[derive(Drop)]
pub struct LeftUnmoves {
    unmoves: Option<QueryUnmoves>,
}

impl Model for LeftUnmoves {
    ghost use Rattle.std.specs.Prelude.{unwrap_or};
    ghost use Rattle.unmove_gen.specs.Listed.{AskedUnmoves};
    ghost use Rattle.cert_checker.specs.Unused.{no_unmoves};

    ghost Value = { AskedUnmoves };

    ghost view = { λ l. unwrap_or l.unmoves no_unmoves };
}

impl LeftUnmoves {
    /// None at all.
    pub(crate) fn none() -> LeftUnmoves
        ensures { result.left ≡ [] }
    {
        LeftUnmoves { unmoves: None }
    }

    /// All unmoves of the query.
    pub(crate) fn new(query: &Query) -> LeftUnmoves
        ensures { result ≡ record { query = query.now; left = unmoves query.now } }
    {
        LeftUnmoves {
            unmoves: Some(QueryUnmoves::new(query)),
        }
    }

    /// The query.
    pub(crate) fn query(&self) -> Query
        ensures { result ≡ self.now.query }
    {
        match &self.unmoves {
            Some(unmoves) => unmoves.query(),
            None => no_query(),
        }
    }

    /// The first unmove that is left, which then is left no more; None if and only if none is left.
    pub(crate) fn next(&mut self) -> Option<Unmove>
        ensures left { MatchOption result ((self.old.left ≡ []) × (self.new.left ≡ [])) (λ u. self.old.left ≡ u ∷ self.new.left) }
        ensures query { self.new.query ≡ self.old.query }
    {
        match &mut self.unmoves {
            Some(unmoves) => unmoves.next(),
            None => None,
        }
    }
}
