ghost use Rattle.std.specs.Prelude.{Bool, List, ℤ};
ghost use Rattle.board_base.specs.declared.men.Colour.{Colour as AColour};
ghost use Rattle.board_base.specs.declared.moves.Move.{Move};
ghost use Rattle.query_base.specs.Asked.{Asked};
ghost use Rattle.query_base.specs.Reach.{Reaches};
ghost use Rattle.cage_rules.specs.Reach.{LeadsTo};
ghost use Rattle.static_rules.specs.SetRules.{CapsSupports, FrozenSupports, PromoSupports};

/// The law of frozen sets: if the rule on them supports a query at some odds, no game of any length leads there at these
/// odds, and none reaches the query if they are its own.
pub fn frozen_closes()
    ensures from_odds { (o : List Bool) (q : Asked) (set : List Bool) → FrozenSupports o q set → (g : List Move) → LeadsTo o g q → ⊥ }
    ensures reached { (q : Asked) (set : List Bool) → FrozenSupports q.odds q set → (g : List Move) → Reaches g q → ⊥ }
{}

/// The law of promoted men: if the rule on them supports a query at some odds, no game of any length leads there at these
/// odds, and none reaches the query if they are its own.
pub fn promo_closes()
    ensures from_odds { (o : List Bool) (q : Asked) (side : AColour) (set : List Bool) → PromoSupports o q side set → (g : List Move) → LeadsTo o g q → ⊥ }
    ensures reached { (q : Asked) (side : AColour) (set : List Bool) → PromoSupports q.odds q side set → (g : List Move) → Reaches g q → ⊥ }
{}

/// The law of captures by pawns: if the rule on them supports a query at some odds, no game of any length leads there at these
/// odds, and none reaches the query if they are its own.
pub fn caps_closes()
    ensures from_odds { (o : List Bool) (q : Asked) (side : AColour) (set : List Bool) (u v : List ℤ) → CapsSupports o q side set u v → (g : List Move) → LeadsTo o g q → ⊥ }
    ensures reached { (q : Asked) (side : AColour) (set : List Bool) (u v : List ℤ) → CapsSupports q.odds q side set u v → (g : List Move) → Reaches g q → ⊥ }
{}
