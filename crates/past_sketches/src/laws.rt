ghost use Rattle.std.specs.Prelude.{ℕ, Bool, List, [], ◌∷◌, ◌++◌, IsTrue, Some, ◌≡◌, ◌⊎◌, ◌↔◌, false};
ghost use Rattle.std.specs.List.{Contains};
ghost use Rattle.board_base.specs.Game.{IsGame, board_after};
ghost use Rattle.board_base.specs.Rights.{Rights};
ghost use Rattle.board_base.specs.declared.men.Colour.{Colour as AColour};
ghost use Rattle.board_base.specs.declared.men.Kind.{Kind as AKind};
ghost use Rattle.board_base.specs.declared.moves.Move.{Move};
ghost use Rattle.cage_rules.specs.Asked.{Asked};
ghost use Rattle.cage_rules.specs.Reach.{LeadsTo};
ghost use Rattle.past_sketches.specs.Figures.{Figure as AFigure, IsAbove, IsRearranged, Sketch, figure_at, may_be, sketch_of};
ghost use Rattle.past_sketches.specs.Fits.{Fits, MayBeMarked};
ghost use Rattle.past_sketches.specs.Touching.{side_checks};
ghost use Rattle.past_sketches.specs.Closed.{IsClosed};
ghost use Rattle.past_sketches.specs.Moments.{FitsGame, FitsStep};
ghost use Rattle.past_sketches.specs.Steps.{Step, is_deed, is_step, steps_of, taken_back};
ghost use Rattle.past_sketches.specs.Trimmed.{trimmed, trims};
ghost use Rattle.past_sketches.specs.Homes.{may_be_array};
ghost use Rattle.past_sketches.specs.Clashes.{is_clash, is_crowded};
ghost use Rattle.past_sketches.specs.Known.{known_at, marked_at};

/// The laws of sketches that fit. The sketch of a query's board fits each game that leads to it (`query`). What fits a moment of a game
/// fits it wider (`wider`), with its figures rearranged (`rearranged`), trimmed (`trim`), with a mark that is true (`mark`), and with one
/// kind alone of those that a figure may have (`kind`).
pub fn sketches_fit()
    ensures query { (o : List Bool) (g : List Move) (q : Asked) → LeadsTo o g q → Fits o g (sketch_of q.board) }
    ensures wider { (o : List Bool) (p : List Move) (S T : Sketch) → Fits o p S → IsAbove S T → Fits o p T }
    ensures rearranged { (o : List Bool) (p : List Move) (S T : Sketch) → IsGame o p → Fits o p S → IsRearranged S T → Fits o p T }
    ensures trim { (o : List Bool) (p : List Move) (T : Sketch) → IsGame o p → Fits o p T → Fits o p (trimmed T) }
    ensures mark { (o : List Bool) (p : List Move) (T : Sketch) (i : ℕ) (fits : Fits o p T) → MayBeMarked o p T fits i → Fits o p (marked_at i T) }
    ensures kind { (o : List Bool) (p : List Move) (T : Sketch) (i : ℕ) (f : AFigure) → Fits o p T → figure_at T i ≡ Some f → (k : AKind) × IsTrue (may_be f k) × Fits o p (known_at i k T) }
{}

/// The laws of sketches that don't fit: none that clashes fits a moment of a game (`clash`), nor one that has more figures of a colour
/// than the array has men (`crowd`); and none fits the moment before the first move if not all figures find homes (`array`).
pub fn sketches_misfit()
    ensures clash { (o : List Bool) (p : List Move) (T : Sketch) → IsGame o p → IsTrue (is_clash T) → Fits o p T → ⊥ }
    ensures crowd { (o : List Bool) (p : List Move) (T : Sketch) (c : AColour) → IsGame o p → IsTrue (is_crowded o T c) → Fits o p T → ⊥ }
    ensures array { (o : List Bool) (T : Sketch) → may_be_array o T ≡ false → Fits o [] T → ⊥ }
{}

/// The laws of closed sketches, which go back move by move, in every game from the array without any of its men. Where one fits after a
/// move, it fits before it too, if the move is neither a capture by a pawn nor a promotion, nor a pawn's on an exact file (`quiet`), or if
/// no figure's man made it. Else the move is a step of the sketch, and the sketch that it is taken back to fits before it; if it is a
/// capture en passant, before the double step, which is taken back too (`steps`). That sketch, trimmed however often, doesn't have the
/// side that made the step give check, since this side is to move there (`calm`).
pub fn closed_sketches_go_back()
    ensures quiet { (o : List Bool) (p : List Move) (m : Move) (held : Rights) (exact : List Bool) (T : Sketch) → FitsGame o (p ++ m ∷ []) held T → IsClosed held exact T → is_deed exact (board_after o p) m ≡ false → Fits o p T }
    ensures steps { (o : List Bool) (p : List Move) (m : Move) (held : Rights) (exact : List Bool) (T : Sketch) → FitsGame o (p ++ m ∷ []) held T → IsClosed held exact T → Fits o p T ⊎ FitsStep o p exact T }
    ensures calm { (o : List Bool) (p : List Move) (exact : List Bool) (T : Sketch) (n : ℕ) (by : FitsStep o p exact T) → IsGame o by.first → side_checks (trims n (taken_back T by.step)) (figure_at T by.step.by) ≡ false }
{}

/// The law that the steps of a sketch are those of a list, which is finite.
pub fn steps_are_listed()
    ensures { (exact : List Bool) (T : Sketch) (x : Step) → IsTrue (is_step exact T x) ↔ Contains (steps_of exact T) x }
{}
