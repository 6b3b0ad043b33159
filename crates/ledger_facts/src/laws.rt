ghost use Rattle.std.specs.Prelude.{Bool, List};
ghost use Rattle.board_base.specs.declared.moves.Move.{Move};
ghost use Rattle.query_base.specs.Asked.{Asked};
ghost use Rattle.query_base.specs.Reach.{Reaches};
ghost use Rattle.cage_rules.specs.Reach.{LeadsTo};
ghost use Rattle.capture_prices.specs.Prices.{PriceList};
ghost use Rattle.ledger_facts.specs.Refuted.{IsRefuted};
ghost use Rattle.ledger_facts.specs.Supposed.{IsSupposed};
ghost use Rattle.ledger_facts.specs.declared.suppositions.Supposition.{Supposition as ASupposition};

/// The law of refuted suppositions. If for some prices, beside a frozen set as in the array, the men cost more with a supposition than
/// their true homes can, it is false of every game, of any length, that leads to the query at its odds (`leads`), and of every game that
/// reaches it (`reached`).
pub fn refuted_suppositions_are_false()
    ensures leads { (x : ASupposition) (q : Asked) (set : List Bool) (p : PriceList) → IsRefuted x q set p → (g : List Move) → LeadsTo q.odds g q → IsSupposed x q.odds g → ⊥ }
    ensures reached { (x : ASupposition) (q : Asked) (set : List Bool) (p : PriceList) → IsRefuted x q set p → (g : List Move) → Reaches g q → IsSupposed x q.odds g → ⊥ }
{}
