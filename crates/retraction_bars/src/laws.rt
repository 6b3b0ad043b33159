ghost use Rattle.std.specs.Prelude.{◌≡◌, [], IsTrue, Some, length};
ghost use Rattle.std.specs.List.{Contains};
ghost use Rattle.board_base.specs.declared.unmoves.Unmove.{Unmove};
ghost use Rattle.query_base.specs.Asked.{Asked};
ghost use Rattle.unmove_gen.specs.Listed.{candidates, unmoves};
ghost use Rattle.retraction_bars.specs.Bars.{bars};
ghost use Rattle.retraction_bars.specs.Clauses.{clauses};
ghost use Rattle.retraction_bars.specs.Pairs.{pair_of};
ghost use Rattle.retraction_bars.specs.Told.{AreUnexplained, Holds, IsTold};
ghost use Rattle.retraction_bars.specs.Ways.{is_way};
ghost use Rattle.retraction_bars.specs.declared.bars.Bar.{Bar};
ghost use Rattle.retraction_bars.specs.declared.gathering.Clause.{Clause};
ghost use Rattle.retraction_bars.specs.declared.pairs.Pair.{Pair};

/// The law that what bars a retraction keeps it out of the query's list: no game ends with its move and reaches the query.
pub fn bars_keep_out()
    ensures { (b : Bar) (q : Asked) (u : Unmove) → length q.board ≡ 64 → IsTrue (bars b q u) → Contains (unmoves q) u → ⊥ }
{}

/// The law that each clause is true: its bar bars each way of which it tells.
pub fn bars_hold()
    ensures { (q : Asked) (c : Clause) → Contains (clauses q) c → Holds q c }
{}

/// The law that each retraction in a query's list is a way in which a man may have come to his square.
pub fn listed_are_ways()
    ensures { (q : Asked) (u : Unmove) → length q.board ≡ 64 → Contains (unmoves q) u → IsTrue (is_way q u) }
{}

/// The law that nothing is left untold if a query has no retraction: each way is among those of which some clause tells that is told by
/// itself, or a sentence on the rest is written, and it is true of the way.
pub fn ways_are_told()
    ensures { (q : Asked) (u : Unmove) → unmoves q ≡ [] → Contains candidates u → IsTrue (is_way q u) → IsTold q u }
{}

/// The law that the two men of a pair give check, and that no way explains both checks.
pub fn pairs_hold()
    ensures { (q : Asked) (p : Pair) → pair_of q ≡ Some p → AreUnexplained q p }
{}
