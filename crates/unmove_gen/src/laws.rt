ghost use Rattle.std.specs.Prelude.{◌≡◌, Bool, true, IsTrue, List, [], ◌∷◌, ◌++◌, ◌≤◌, length};
ghost use Rattle.std.specs.List.{Contains};
ghost use Rattle.board_base.specs.Board.{is_in};
ghost use Rattle.check_origins.specs.Near.{AreArrivals};
ghost use Rattle.board_base.specs.declared.moves.Move.{Move};
ghost use Rattle.board_base.specs.declared.unmoves.Unmove.{Unmove};
ghost use Rattle.board_base.specs.Texts.{can_capture, can_promote};
ghost use Rattle.query_base.specs.Asked.{Asked};
ghost use Rattle.query_base.specs.Reach.{Reaches};
ghost use Rattle.unmove_gen.specs.Ascending.{IsAscending};
ghost use Rattle.unmove_gen.specs.Listed.{unmoves};
ghost use Rattle.unmove_gen.specs.Predecessor.{predecessor, unmove_after};

/// The law that the last move of each game that reaches a query is in the query's list, with the kind that it captured, and marked
/// en passant if and only if it was; and that the moves before it reach its predecessor.
pub fn last_moves_are_listed()
    ensures listed { (g : List Move) (m : Move) (q : Asked) → Reaches (g ++ m ∷ []) q → Contains (unmoves q) (unmove_after q.odds g m) }
    ensures reached { (g : List Move) (m : Move) (q : Asked) → Reaches (g ++ m ∷ []) q → Reaches g (predecessor q (unmove_after q.odds g m)) }
{}

/// The law that a game that reaches the predecessor of a listed unmove reaches the query with that unmove's move added.
pub fn listed_moves_lead_here()
    ensures { (g : List Move) (u : Unmove) (q : Asked) → Contains (unmoves q) u → Reaches g (predecessor q u) → Reaches (g ++ u.mv ∷ []) q }
{}

/// The law that a query has no more unmoves than 64 targets, 64 origins, five promotions and seven captures make.
pub fn few_unmoves()
    ensures { (q : Asked) → length (unmoves q) ≤ 143360 }
{}

/// The law that the unmoves of a query ascend by target, then origin, then promotion, then captured man, so each stands there once.
pub fn unmoves_ascend()
    ensures { (q : Asked) → IsAscending (unmoves q) }
{}

/// The law that each unmove of a query has a text: what it promoted to and what it captured may be written.
pub fn unmoves_have_texts()
    ensures promotion { (q : Asked) (u : Unmove) → Contains (unmoves q) u → IsTrue (can_promote u.mv.promo) }
    ensures capture { (q : Asked) (u : Unmove) → Contains (unmoves q) u → IsTrue (can_capture u.mv.promo u.captured u.ep) }
{}

/// The law that each listed move ended on one of the squares that `origins` of its query's board gives: with a check by a knight, by
/// a pawn or from the next square it is the checker who moved.
pub fn targets_are_origins()
    ensures { (q : Asked) (u : Unmove) (set : List Bool) → length q.board ≡ 64 → AreArrivals q.board q.turn set → Contains (unmoves q) u → is_in set u.mv.to ≡ true }
{}
