ghost use Rattle.std.specs.Prelude.{List};
ghost use Rattle.std.specs.List.{All};
ghost use Rattle.query_base.specs.Asked.{Asked};
ghost use Rattle.ledger_lines.specs.declared.lines.Line.{Line as ALine};
ghost use Rattle.ledger_told.specs.Told.{IsLineTrue, TellsLines};

/// The law of what is told of a ledger: each line says what is so of every game, of any length, that reaches the query.
pub fn told_lines_hold()
    ensures { (q : Asked) (lines : List ALine) → TellsLines q lines → All (IsLineTrue q) lines }
{}
