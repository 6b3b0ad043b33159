ghost use Rattle.std.specs.Prelude.{Bool, List, ℤ};
ghost use Rattle.board_base.specs.declared.men.Colour.{Colour as AColour};
ghost use Rattle.board_base.specs.declared.moves.Move.{Move};
ghost use Rattle.query_base.specs.Asked.{Asked};
ghost use Rattle.query_base.specs.Reach.{Reaches};
ghost use Rattle.cage_rules.specs.Frozen.{IsFrozen};
ghost use Rattle.cage_rules.specs.Reach.{LeadsTo};
ghost use Rattle.cage_rules.specs.Refuted.{HasTooMany, NeedTooMany};

/// The law that if a set is frozen, and a side has more pawns and officers above those whose homes aren't dead than it began with
/// pawns, no game leads to the query. Men who are left out count neither among the officers with homes nor among the pawns.
pub fn promotions_refute()
    ensures from_odds { (o : List Bool) (q : Asked) (set : List Bool) (c : AColour) → IsFrozen q set → HasTooMany o q set c → (g : List Move) → LeadsTo o g q → ⊥ }
    ensures reached { (q : Asked) (set : List Bool) (c : AColour) → IsFrozen q set → HasTooMany q.odds q set c → (g : List Move) → Reaches g q → ⊥ }
{}

/// The law that if a set is frozen, and bounded potentials of a side's pawns sum to more than the other side's men in the
/// beginning, less those on the board, less its homes that are dead and shielded, no game leads to the query. Homes whose men are left
/// out aren't counted.
pub fn captures_refute()
    ensures from_odds { (o : List Bool) (q : Asked) (set : List Bool) (c : AColour) (u v : List ℤ) → IsFrozen q set → NeedTooMany o q set c u v → (g : List Move) → LeadsTo o g q → ⊥ }
    ensures reached { (q : Asked) (set : List Bool) (c : AColour) (u v : List ℤ) → IsFrozen q set → NeedTooMany q.odds q set c u v → (g : List Move) → Reaches g q → ⊥ }
{}
