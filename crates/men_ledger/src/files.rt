ghost use Rattle.std.specs.Prelude.{ℕ, Bool, List, IsTrue, ◌+◌, ◌≤◌, ◌≡◌, ◌≢◌};
ghost use Rattle.std.specs.List.{AllPairs, Contains, range_with_len, sum_by};
ghost use Rattle.board_base.specs.declared.men.Colour.{Colour as AColour};
ghost use Rattle.board_base.specs.declared.men.Colour.TheVariants.{White, Black};
ghost use Rattle.board_base.specs.declared.moves.Move.{Move};
ghost use Rattle.board_base.specs.Game.{IsGame};
ghost use Rattle.board_base.specs.Board.{array_of, at, is_the};
ghost use Rattle.board_base.specs.declared.men.Kind.TheVariants.{Pawn};
ghost use Rattle.men_fates.specs.Deeds.{way_of};
ghost use Rattle.men_ledger.specs.Files.{IsTakenAsPawn, gates_passed, keeps_file, trodden};
ghost use Rattle.men_fates.specs.Ways.{is_straight};

/// The law of files, in every game from the array without any of its men (article 3.7). A pawn who keeps to his file can't pass one of
/// the other side who does so too. So each square is trodden by one of them at most (`apart`); and over any different homes of each
/// side, whatever each square's gate is, the gates that they pass sum to no more than the gates of the board's squares (`gates`). A
/// pawn keeps to his file who captured nowhere and whom no move took as a pawn (`untaken`).
pub fn files_are_shared()
    ensures apart { (o : List Bool) (g : List Move) (c d : AColour) (h k s : ℕ) → IsGame o g → Contains (trodden o g c h) s → Contains (trodden o g d k) s → h ≡ k }
    ensures gates { (o : List Bool) (g : List Move) (gate : ℕ → ℕ) (white black : List ℕ) → IsGame o g → AllPairs (λ h k. h ≢ k) white → AllPairs (λ h k. h ≢ k) black → sum_by (gates_passed gate o g White) white + sum_by (gates_passed gate o g Black) black ≤ sum_by gate (range_with_len 0 64) }
    ensures untaken { (o : List Bool) (g : List Move) (c : AColour) (h : ℕ) → IsGame o g → IsTrue (is_the c Pawn (at (array_of o) h)) → IsTrue (is_straight h (way_of o g h)) → (IsTakenAsPawn o g h → ⊥) → IsTrue (keeps_file o g c h) }
{}
