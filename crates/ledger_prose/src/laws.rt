ghost use Rattle.std.specs.Prelude.{List, map};
ghost use Rattle.std.specs.List.{All};
ghost use Rattle.board_base.specs.declared.moves.Move.{Move};
ghost use Rattle.query_base.specs.Asked.{Asked};
ghost use Rattle.query_base.specs.Reach.{Reaches};
ghost use Rattle.ledger_lines.specs.Lines.{LineSays};
ghost use Rattle.ledger_lines.specs.declared.lines.Line.{Line as ALine};
ghost use Rattle.ledger_prose.specs.News.{news_of};
ghost use Rattle.ledger_prose.specs.Saying.{SentenceSays};
ghost use Rattle.ledger_prose.specs.Sentences.{RestsOn, sentences_of};

/// The first law of the paragraph: each line on which one of its sentences rests is one of the ledger's lines.
pub fn sentences_rest_on_lines()
    ensures { (q : Asked) (lines : List ALine) → All (RestsOn lines) (sentences_of q lines) }
{}

/// The second: of a game of which all the lines are true, all that the sentences say is true (`game`); so if the lines are true of every game
/// that reaches the query, what the sentences say is (`reached`).
pub fn sentences_hold()
    ensures game { (q : Asked) (lines : List ALine) (g : List Move) → All (λ x. LineSays x q.odds g) lines → All (SentenceSays q g) (sentences_of q lines) }
    ensures reached { (q : Asked) (lines : List ALine) → All (λ x. (g : List Move) → Reaches g q → LineSays x q.odds g) lines → (g : List Move) → Reaches g q → All (SentenceSays q g) (sentences_of q lines) }
{}

/// The third: lines that are true of every game that reaches the query are so without the men who never moved of whom others say so.
pub fn news_hold()
    ensures { (q : Asked) (known lines : List ALine) → All (λ x. (g : List Move) → Reaches g q → LineSays x q.odds g) lines → All (λ x. (g : List Move) → Reaches g q → LineSays x q.odds g) (map (news_of known) lines) }
{}
