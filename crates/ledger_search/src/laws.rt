ghost use Rattle.std.specs.Prelude.{Bool, List};
ghost use Rattle.board_base.specs.declared.moves.Move.{Move};
ghost use Rattle.query_base.specs.Asked.{Asked};
ghost use Rattle.query_base.specs.Reach.{Reaches};
ghost use Rattle.cage_rules.specs.Reach.{LeadsTo};
ghost use Rattle.ledger_facts.specs.Refuted.{IsRuledOut};
ghost use Rattle.ledger_facts.specs.declared.suppositions.Supposition.{Supposition as ASupposition};
ghost use Rattle.ledger_search.specs.Contradictions.{IsContradictory};
ghost use Rattle.ledger_search.specs.Ledgers.{IsLedgerOf};
ghost use Rattle.ledger_search.specs.Questions.{IsFlatlyRefuted};
ghost use Rattle.ledger_search.specs.declared.ledgers.Ledger.{Ledger as ALedger};

/// The law of a ledger's lines: what flat prices refute is ruled out, so that the laws of suppositions say it of every game that leads to
/// the query.
pub fn flat_prices_rule_out()
    ensures { (x : ASupposition) (q : Asked) (set : List Bool) → IsFlatlyRefuted x q set → IsRuledOut x q }
{}

/// The law of contradictions: if the ledger of a query contradicts itself, no game of any length leads to it at its odds (`leads`), so none
/// reaches it (`reached`), though the prices that refute one thing may be others than those that refute the next.
pub fn contradictions_close()
    ensures leads { (q : Asked) (l : ALedger) → IsLedgerOf q l → IsContradictory q l → (g : List Move) → LeadsTo q.odds g q → ⊥ }
    ensures reached { (q : Asked) (l : ALedger) → IsLedgerOf q l → IsContradictory q l → (g : List Move) → Reaches g q → ⊥ }
{}
