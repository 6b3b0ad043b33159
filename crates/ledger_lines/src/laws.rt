ghost use Rattle.std.specs.Prelude.{List};
ghost use Rattle.board_base.specs.declared.moves.Move.{Move};
ghost use Rattle.query_base.specs.Asked.{Asked};
ghost use Rattle.query_base.specs.Reach.{Reaches};
ghost use Rattle.cage_rules.specs.Reach.{LeadsTo};
ghost use Rattle.ledger_search.specs.Ledgers.{IsLedgerOf};
ghost use Rattle.ledger_search.specs.declared.ledgers.Ledger.{Ledger as ALedger};
ghost use Rattle.ledger_lines.specs.Facts.{Says};
ghost use Rattle.ledger_lines.specs.Known.{IsKnown, IsOnBoard};
ghost use Rattle.ledger_lines.specs.Lines.{IsLineKnown, IsLineOnBoard, LineSays};
ghost use Rattle.ledger_lines.specs.declared.facts.Fact.{Fact as AFact};
ghost use Rattle.ledger_lines.specs.declared.lines.Line.{Line as ALine};

/// The law of a ledger's facts: what the ledger of a query knows is true of every game, of any length, that leads to the query at its odds
/// (`leads`), and of every game that reaches it (`reached`).
pub fn known_facts_hold()
    ensures leads { (x : AFact) (q : Asked) (l : ALedger) → IsOnBoard x → IsLedgerOf q l → IsKnown x q l → (g : List Move) → LeadsTo q.odds g q → Says x q.odds g }
    ensures reached { (x : AFact) (q : Asked) (l : ALedger) → IsOnBoard x → IsLedgerOf q l → IsKnown x q l → (g : List Move) → Reaches g q → Says x q.odds g }
{}

/// The same law of a ledger's lines: each says no more than the facts of which it consists.
pub fn known_lines_hold()
    ensures leads { (x : ALine) (q : Asked) (l : ALedger) → IsLineOnBoard x → IsLedgerOf q l → IsLineKnown x q l → (g : List Move) → LeadsTo q.odds g q → LineSays x q.odds g }
    ensures reached { (x : ALine) (q : Asked) (l : ALedger) → IsLineOnBoard x → IsLedgerOf q l → IsLineKnown x q l → (g : List Move) → Reaches g q → LineSays x q.odds g }
{}
