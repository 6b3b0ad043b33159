ghost use Rattle.std.specs.Prelude.{ℕ, Bool, List, IsTrue, Some, ◌≡◌, ◌≢◌, ◌+◌, ◌≤◌, ◌++◌, ◌∷◌, [], length};
ghost use Rattle.std.specs.List.{All, AllPairs, Contains};
ghost use Rattle.board_base.specs.Board.{array_of, at, is_of, opponent};
ghost use Rattle.board_base.specs.declared.men.Colour.{Colour as AColour};
ghost use Rattle.board_base.specs.declared.moves.Move.{Move};
ghost use Rattle.board_base.specs.Game.{IsGame, board_after};
ghost use Rattle.assignment.specs.Assignments.{IsInjection, assignment_cost, least_cost};
ghost use Rattle.pawn_assign.specs.PawnCosts.{HaveCome, pawn_costs, pawn_squares};
ghost use Rattle.men_account.specs.Account.{is_any, men};
ghost use Rattle.men_account.specs.Captures.{BeganOnOtherFiles, IsPawnFrom, IsTakenIn, all_files_left, captured_by_pawns, taken_by_pawn};
ghost use Rattle.men_account.specs.Homes.{AreGoneOtherwise, men_of};
ghost use Rattle.men_account.specs.Labels.{HoldsOfEach, label_at, labels_after};

/// The laws of the men whom pawns of a side took, en passant too, in every game from the array without any of its men, by their
/// labels in order. A move adds the label of the man whom a pawn of the side takes by it, and else nothing. The labels differ, each
/// is the home of a man of the other side, and no man on the board has one of them. For each of them there is the move that took him.
pub fn pawns_take_men()
    ensures moved { (o : List Bool) (g : List Move) (m : Move) (c : AColour) → captured_by_pawns o (g ++ m ∷ []) c ≡ captured_by_pawns o g c ++ taken_by_pawn c (board_after o g) (labels_after o g) m }
    ensures differ { (o : List Bool) (g : List Move) (c : AColour) → IsGame o g → AllPairs (λ x y. x ≢ y) (captured_by_pawns o g c) }
    ensures enemies { (o : List Bool) (g : List Move) (c : AColour) → IsGame o g → All (λ l. IsTrue (is_of (opponent c) (at (array_of o) l))) (captured_by_pawns o g c) }
    ensures gone { (o : List Bool) (g : List Move) (c : AColour) → IsGame o g → (s l : ℕ) → label_at (labels_after o g) s ≡ Some l → Contains (captured_by_pawns o g c) l → ⊥ }
    ensures moments { (o : List Bool) (g : List Move) (c : AColour) → IsGame o g → (l : ℕ) → Contains (captured_by_pawns o g c) l → IsTakenIn o c l g }
{}

/// The laws of the files that pawns leave, in every game from the array without any of its men (article 3.7). In all, a side's pawns
/// on the board stand off the files on which they began by no more files than its pawns took men. Each pawn's label is the home of a
/// pawn of his side, and he stands off its file by no more files than he has gone ranks. Two pawns of a side began on different files.
pub fn pawns_leave_files()
    ensures in_all { (o : List Bool) (g : List Move) (c : AColour) → IsGame o g → all_files_left c (board_after o g) (labels_after o g) ≤ length (captured_by_pawns o g c) }
    ensures each { (o : List Bool) (g : List Move) (c : AColour) → IsGame o g → HoldsOfEach (board_after o g) (labels_after o g) (IsPawnFrom (array_of o) c) }
    ensures apart { (o : List Bool) (g : List Move) (c : AColour) → IsGame o g → BeganOnOtherFiles c (board_after o g) (labels_after o g) }
{}

/// The law that in every game from the array without any of its men, the pawns of a side began on different files from which they can
/// have come, at a cost of no more captures than the side's pawns made (`captures`); and so of no more than the other side had men in
/// the beginning, less its men on the board, less those of whom it is known that no pawn took them (`missing`). So no game has fewer
/// captures by the side's pawns than the least cost of an assignment of the pawns to files (`least`).
pub fn pawns_pair_with_files()
    ensures captures { (o : List Bool) (g : List Move) (c : AColour) → IsGame o g → (files : List ℕ) × IsInjection 8 (length (pawn_squares c (board_after o g))) files × HaveCome o c (pawn_squares c (board_after o g)) files × (assignment_cost (pawn_costs o c (board_after o g)) files ≤ length (captured_by_pawns o g c)) }
    ensures missing { (o : List Bool) (g : List Move) (c : AColour) (dead : ℕ → Bool) → IsGame o g → AreGoneOtherwise (array_of o) (opponent c) dead (labels_after o g) (captured_by_pawns o g c) → (files : List ℕ) × IsInjection 8 (length (pawn_squares c (board_after o g))) files × HaveCome o c (pawn_squares c (board_after o g)) files × (assignment_cost (pawn_costs o c (board_after o g)) files + men_of (opponent c) is_any (board_after o g) + men_of (opponent c) dead (array_of o) ≤ men_of (opponent c) is_any (array_of o)) }
    ensures least { (o : List Bool) (g : List Move) (c : AColour) → IsGame o g → least_cost 8 (pawn_costs o c (board_after o g)) ≤ length (captured_by_pawns o g c) }
{}
