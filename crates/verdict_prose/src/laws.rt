ghost use Rattle.std.specs.Prelude.{List, ℕ, ◌≡◌, ◌++◌, ◌∷◌, []};
ghost use Rattle.std.specs.List.{Contains};
ghost use Rattle.board_base.specs.declared.moves.Move.{Move as AMove};
ghost use Rattle.board_base.specs.declared.unmoves.Unmove.{Unmove as AnUnmove};
ghost use Rattle.query_base.specs.Asked.{Asked};
ghost use Rattle.query_base.specs.Reach.{Reaches};
ghost use Rattle.query_base.specs.declared.claims.Claim.{Claim as AClaim};
ghost use Rattle.verdict_prose.specs.LastMoves.{IsEnd, Remain, WasOneOf, WereLast};
ghost use Rattle.verdict_prose.specs.Verdicts.{IsSo};
ghost use Rattle.verdict_prose.specs.declared.verdicts.Verdict.TheVariants.{Shown, Countered, PlainShown, PlainCountered};

/// The law of the sentences: they don't gainsay one another. A claim that is shown isn't countered, nor is what is shown
/// without demands; the moves with which games end are among
/// those of which one was the last, and are the last of those that were the last ones; and if none remains, no move was made.
pub fn sentences_agree()
    ensures shown { (q : Asked) (claim : AClaim) → IsSo q (Shown claim) → IsSo q (Countered claim) → ⊥ }
    ensures plain { (q : Asked) → IsSo q PlainShown → IsSo q PlainCountered → ⊥ }
    ensures one_of { (q : Asked) (left : List AnUnmove) (u : AnUnmove) → WasOneOf q left → IsEnd q u → Contains left u }
    ensures line { (q : Asked) (u v : AnUnmove) (steps : List AnUnmove) → WereLast q (u ∷ steps) → IsEnd q v → u ≡ v }
    ensures none { (q : Asked) (left : List AnUnmove) (all : ℕ) → Remain q left 0 all → (g : List AMove) (m : AMove) → Reaches (g ++ m ∷ []) q → ⊥ }
{}
