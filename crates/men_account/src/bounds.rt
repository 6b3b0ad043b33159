ghost use Rattle.std.specs.Prelude.{ℕ, Bool, List, IsTrue, ◌+◌, ◌≤◌, length, not, ℤ, pos, ◌+ℤ◌, ◌≤ℤ◌};
ghost use Rattle.board_base.specs.Board.{array_of, opponent};
ghost use Rattle.board_base.specs.declared.men.Colour.{Colour as AColour};
ghost use Rattle.board_base.specs.declared.moves.Move.{Move};
ghost use Rattle.board_base.specs.Game.{IsGame, board_after};
ghost use Rattle.board_base.specs.declared.men.Kind.TheVariants.{Pawn};
ghost use Rattle.assignment.specs.Assignments.{IsBounded, total};
ghost use Rattle.pawn_assign.specs.PawnCosts.{pawn_costs};
ghost use Rattle.men_account.specs.Account.{counts_of, excess_of, is_any, men, allowance_of};
ghost use Rattle.men_account.specs.Captures.{captured_by_pawns};
ghost use Rattle.men_account.specs.HomeRegions.{IsOutOfReach, StandInRegions, StayInRegions, is_deserted, is_lost};
ghost use Rattle.men_account.specs.Homes.{AreGoneOtherwise, HasOfficersFrom, men_of};
ghost use Rattle.men_account.specs.Labels.{labels_after};

/// The law of promotions, in every game from the array without any of its men (article 3.7). Where each label on the board that is the
/// home of an officer of a side passes a test, the pawns of the side and its officers above those who began on homes that pass it are
/// no more than its pawns in the beginning. For a bishop the homes are those on squares of his colour.
pub fn promotions_fit_homes()
    ensures { (o : List Bool) (g : List Move) (c : AColour) (alive : ℕ → Bool) → IsGame o g → HasOfficersFrom (array_of o) c alive (labels_after o g) → excess_of (counts_of c (board_after o g)) (allowance_of c alive (array_of o)) ≤ men c Pawn is_any (array_of o) }
{}

/// The law of promotions where men stay in regions, in every game from the array without any of its men. If each man who began on
/// the home of an officer of a side stands in the home's region, the pawns of the side and its officers above those who began on homes
/// whose regions aren't deserted are no more than its pawns in the beginning.
pub fn promotions_fit_regions()
    ensures { (o : List Bool) (g : List Move) (c : AColour) (region : ℕ → ℕ → Bool) → IsGame o g → StandInRegions (array_of o) c region (labels_after o g) → excess_of (counts_of c (board_after o g)) (allowance_of c (λ h. not (is_deserted (array_of o) (board_after o g) region h)) (array_of o)) ≤ men c Pawn is_any (array_of o) }
{}

/// The law of missing men, in every game from the array without any of its men. The men whom a side's pawns took, those of the other
/// side on the board, and those of whom it is known that they are neither, are no more than the other side had in the beginning.
pub fn captures_fit_missing()
    ensures { (o : List Bool) (g : List Move) (c : AColour) (dead : ℕ → Bool) → IsGame o g → AreGoneOtherwise (array_of o) (opponent c) dead (labels_after o g) (captured_by_pawns o g c) → length (captured_by_pawns o g c) + men_of (opponent c) is_any (board_after o g) + men_of (opponent c) dead (array_of o) ≤ men_of (opponent c) is_any (array_of o) }
{}

/// The law of dual potentials, in every game from the array without any of its men. Where they bound what it costs a side's pawns to
/// have begun on each file, they sum to no more than the men whom the side's pawns took (`captures`); and so to no more than the other
/// side had in the beginning, less its men on the board, less those of whom it is known that no pawn took them (`missing`).
pub fn potentials_bound_captures()
    ensures captures { (o : List Bool) (g : List Move) (c : AColour) (u v : List ℤ) → IsGame o g → IsBounded 8 (pawn_costs o c (board_after o g)) u v → (total u +ℤ total v) ≤ℤ pos (length (captured_by_pawns o g c)) }
    ensures missing { (o : List Bool) (g : List Move) (c : AColour) (dead : ℕ → Bool) (u v : List ℤ) → IsGame o g → IsBounded 8 (pawn_costs o c (board_after o g)) u v → AreGoneOtherwise (array_of o) (opponent c) dead (labels_after o g) (captured_by_pawns o g c) → ((total u +ℤ total v) +ℤ pos (men_of (opponent c) is_any (board_after o g) + men_of (opponent c) dead (array_of o))) ≤ℤ pos (men_of (opponent c) is_any (array_of o)) }
{}

/// The law of dual potentials where men stay in regions, in every game from the array without any of its men. If the men who
/// began on the homes of officers of the other side stay in the homes' regions, and no pawn of the side goes aside into those that
/// pass a test, potentials that bound the costs sum to no more than the other side had in the beginning, less its men on the board,
/// less the homes whose regions are deserted and pass the test.
pub fn potentials_fit_regions()
    ensures { (o : List Bool) (g : List Move) (c : AColour) (region : ℕ → ℕ → Bool) (shielded : ℕ → Bool) (u v : List ℤ) → IsGame o g → StayInRegions o g (opponent c) region → ((h : ℕ) → IsTrue (shielded h) → IsOutOfReach o g c region h) → IsBounded 8 (pawn_costs o c (board_after o g)) u v → ((total u +ℤ total v) +ℤ pos (men_of (opponent c) is_any (board_after o g) + men_of (opponent c) (is_lost (array_of o) (board_after o g) (opponent c) region shielded) (array_of o))) ≤ℤ pos (men_of (opponent c) is_any (array_of o)) }
{}
