ghost use Rattle.std.specs.Prelude.{Bool, List, length, ◌≡◌, ◌↔◌, ◌⊎◌, ℤ};
ghost use Rattle.board_base.specs.Potentials.{ArePotentials, Duals, duals};
ghost use Rattle.board_base.specs.declared.men.Colour.{Colour as AColour};
ghost use Rattle.play_rules.specs.Reach.{IsWithin};
ghost use Rattle.query_base.specs.Asked.{Asked};
ghost use Rattle.cage_rules.specs.Frozen.{IsFrozen};
ghost use Rattle.static_rules.specs.SetRules.{CapsSupports, FrozenSupports, IsSettled, PromoSupports};
ghost use Rattle.static_rules.specs.Greatest.{AreBest, IsGreatestSettled};
ghost use Rattle.static_rules.specs.Supports.{IsClosed};

/// The law that the rules on promoted men and on captures by pawns only gain as the set grows: if one supports a query with a set,
/// it does with each larger set that is frozen and as in the array. This does nothing when it runs.
pub fn larger_sets_support()
    ensures promo { (o : List Bool) (q : Asked) (side : AColour) (inner outer : List Bool) → IsWithin inner outer → IsSettled o q outer → PromoSupports o q side inner → PromoSupports o q side outer }
    ensures caps { (o : List Bool) (q : Asked) (side : AColour) (inner outer : List Bool) (u v : List ℤ) → IsWithin inner outer → IsSettled o q outer → CapsSupports o q side inner u v → CapsSupports o q side outer u v }
{}

/// The law that the rule on captures by pawns supports a query with the potentials of greatest sum, if it does with any, at any odds.
/// This does nothing when it runs.
pub fn best_potentials_support()
    ensures { (o : List Bool) (q : Asked) (side : AColour) (set : List Bool) (u v best_u best_v : List ℤ) → AreBest o side q.board best_u best_v → ArePotentials (duals best_u best_v) → CapsSupports o q side set u v → CapsSupports o q side set best_u best_v }
{}

/// The law that the greatest sets and the best potentials decide: a rule on sets supports a query with some set if and only if it does
/// with the greatest one, and with some potentials if and only if it does with the best, at any odds. This does nothing when it runs.
pub fn greatest_sets_decide()
    ensures frozen { (o : List Bool) (q : Asked) (greatest : List Bool) → length greatest ≡ 64 → IsFrozen q greatest → ((set : List Bool) → IsFrozen q set → IsWithin set greatest) → ((set : List Bool) × FrozenSupports o q set) ↔ FrozenSupports o q greatest }
    ensures promo { (o : List Bool) (q : Asked) (side : AColour) (greatest : List Bool) → IsGreatestSettled o q greatest → ((set : List Bool) × PromoSupports o q side set) ↔ PromoSupports o q side greatest }
    ensures caps { (o : List Bool) (q : Asked) (side : AColour) (greatest : List Bool) (u v : List ℤ) → IsGreatestSettled o q greatest → AreBest o side q.board u v → ArePotentials (duals u v) → ((set : List Bool) × (p : Duals) × CapsSupports o q side set p.u p.v) ↔ CapsSupports o q side greatest u v }
{}

/// The law that it is settled of each query, whatever its odds, whether some rule line supports it. This does nothing when it runs.
pub fn each_query_is_settled()
    ensures { (q : Asked) → IsClosed q ⊎ (IsClosed q → ⊥) }
{}
