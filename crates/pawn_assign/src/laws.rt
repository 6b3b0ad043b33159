ghost use Rattle.std.specs.Prelude.{◌≡◌, ◌<◌, ◌≤◌, ◌↔◌, Bool, ℕ, List, Some, length, slice_index, ℤ, pos, ◌+ℤ◌, ◌≤ℤ◌, ◌<ℤ◌};
ghost use Rattle.std.specs.List.{Contains};
ghost use Rattle.std.specs.List.Sorted.{IsStrictlyIncreasing};
ghost use Rattle.board_base.specs.Board.{Places, at, man};
ghost use Rattle.board_base.specs.Potentials.{ArePotentials, Duals};
ghost use Rattle.board_base.specs.declared.men.Colour.{Colour as AColour};
ghost use Rattle.board_base.specs.declared.men.Kind.TheVariants.{Pawn};
ghost use Rattle.assignment.specs.Tables.{IsTable, cost_at};
ghost use Rattle.assignment.specs.Assignments.{IsBounded, IsInjection, assignment_cost, least_cost, total};
ghost use Rattle.pawn_assign.specs.PawnCosts.{HaveCome, files_aside, pawn_cost, pawn_costs, pawn_squares};

/// The law that the squares of a side's pawns ascend and are those on which its pawns stand, and that the costs have a row for each of
/// them; at most eight are a table of the assignment problem.
pub fn rows_are_of_the_pawns()
    ensures ascending { (c : AColour) (board : Places) → IsStrictlyIncreasing (pawn_squares c board) }
    ensures pawns { (c : AColour) (board : Places) (s : ℕ) → Contains (pawn_squares c board) s ↔ ((s < 64) × (at board s ≡ man c Pawn)) }
    ensures rows { (o : List Bool) (c : AColour) (board : Places) → length (pawn_costs o c board) ≡ length (pawn_squares c board) }
    ensures costs { (o : List Bool) (c : AColour) (board : Places) (i f : ℕ) → i < length (pawn_squares c board) → f < 8 → cost_at (pawn_costs o c board) i f ≡ pawn_cost o c (slice_index (pawn_squares c board) i) f }
    ensures table { (o : List Bool) (c : AColour) (board : Places) → length (pawn_squares c board) ≤ 8 → IsTable (pawn_costs o c board) 8 64 }
{}

/// The law of weak duality for the pawns of a side: wherever they began, each on a file of its own, their costs are no less than the sum of
/// potentials that bound them. If each can have come from its file, the costs are the files that they have gone aside; and if the
/// costs are below 64 in all, each can have come from its file.
pub fn no_way_costs_less()
    ensures costs { (o : List Bool) (c : AColour) (board : Places) (u v : List ℤ) (files : List ℕ) → IsBounded 8 (pawn_costs o c board) u v → IsInjection 8 (length (pawn_squares c board)) files → (total u +ℤ total v) ≤ℤ pos (assignment_cost (pawn_costs o c board) files) }
    ensures aside { (o : List Bool) (c : AColour) (board : Places) (files : List ℕ) → IsInjection 8 (length (pawn_squares c board)) files → HaveCome o c (pawn_squares c board) files → assignment_cost (pawn_costs o c board) files ≡ files_aside (pawn_squares c board) files }
    ensures came { (o : List Bool) (c : AColour) (board : Places) (files : List ℕ) → IsInjection 8 (length (pawn_squares c board)) files → assignment_cost (pawn_costs o c board) files < 64 → HaveCome o c (pawn_squares c board) files }
    ensures files { (o : List Bool) (c : AColour) (board : Places) (u v : List ℤ) (files : List ℕ) → IsBounded 8 (pawn_costs o c board) u v → IsInjection 8 (length (pawn_squares c board)) files → HaveCome o c (pawn_squares c board) files → (total u +ℤ total v) ≤ℤ pos (files_aside (pawn_squares c board) files) }
{}

/// The law of strong duality for the pawns of a side: if they are at most eight, potentials that bound their costs, with a sum above
/// a number, exist if and only if their least cost is above that number.
pub fn least_cost_decides()
    ensures { (o : List Bool) (c : AColour) (board : Places) (n : ℤ) → length (pawn_squares c board) ≤ 8 → ((d : Duals) × ArePotentials d × IsBounded 8 (pawn_costs o c board) d.u d.v × (n <ℤ (total d.u +ℤ total d.v))) ↔ (n <ℤ pos (least_cost 8 (pawn_costs o c board))) }
{}
