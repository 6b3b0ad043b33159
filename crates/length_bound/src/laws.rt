ghost use Rattle.std.specs.Prelude.{ℕ, Bool, true, false, List, length, ◌≡◌, ◌+◌, ◌≤◌, ◌<◌, IsTrue, ℤ};
ghost use Rattle.board_base.specs.Board.{no_men, same_kind};
ghost use Rattle.board_base.specs.Attacks.{kind_attacks};
ghost use Rattle.board_base.specs.Game.{IsGame, board_after, turn_after, unmoved};
ghost use Rattle.board_base.specs.Play.{side};
ghost use Rattle.board_base.specs.Rights.{Rights, holds};
ghost use Rattle.board_base.specs.declared.castles.Castle.{Castle};
ghost use Rattle.board_base.specs.declared.men.Colour.{Colour as AColour};
ghost use Rattle.board_base.specs.declared.men.Colour.TheVariants.{White};
ghost use Rattle.board_base.specs.declared.men.Kind.{Kind as AKind};
ghost use Rattle.board_base.specs.declared.men.Kind.TheVariants.{Pawn};
ghost use Rattle.board_base.specs.declared.moves.Move.{Move};
ghost use Rattle.men_account.specs.Labels.{labels_after};
ghost use Rattle.query_base.specs.Asked.{Asked};
ghost use Rattle.query_base.specs.Reach.{Reaches};
ghost use Rattle.length_bound.specs.DirectSteps.{direct_steps};
ghost use Rattle.length_bound.specs.MoveCosts.{steps};
ghost use Rattle.length_bound.specs.SideBounds.{IsSideBound, length_with, moves_of, moves_shown, side_cost};

/// The law of the steps that a man needs on an empty board: none to where he stands, at most 64, and to a square that he attacks from
/// another at most one more than to that other. For each man but pawns they are told by how far apart the squares are.
pub fn steps_add_one()
    ensures none { (k : AKind) (h : ℕ) → steps k h h ≡ 0 }
    ensures most { (k : AKind) (h s : ℕ) → steps k h s ≤ 64 }
    ensures one { (k : AKind) (h s t : ℕ) → s < 64 → IsTrue (kind_attacks no_men White k s t) → steps k h t ≤ steps k h s + 1 }
    ensures direct { (k : AKind) (h s : ℕ) → same_kind Pawn k ≡ false → h < 64 → s < 64 → steps k h s ≡ direct_steps k h s }
{}

/// The law that in every game from the array, whichever of its men are left out, the men of a side on the board, each by himself from
/// the square on which he began, need no more moves in all than the side made and two more; and if a castling right of the side is
/// not lost, no more than the side made (article 3.8: by a castling a king goes two steps and a rook one).
pub fn men_need_moves()
    ensures most { (o : List Bool) (g : List Move) (c : AColour) → IsGame o g → side_cost o c (board_after o g) (labels_after o g) ≤ moves_of c (length g) + 2 }
    ensures uncastled { (o : List Bool) (g : List Move) (c : AColour) (x : Castle) → IsGame o g → side x ≡ c → IsTrue (unmoved o g x) → side_cost o c (board_after o g) (labels_after o g) ≤ moves_of c (length g) }
{}

/// The law of the length of games: if potentials are bounded by what the men of a side need from each of its homes, each game
/// that leads to the board from the array, whichever of its men are left out, has at least as many half-moves as the side's moves
/// that they show ask for. The castlings that are held are those whose rights are not lost.
pub fn games_are_long()
    ensures moves { (o : List Bool) (g : List Move) (c : AColour) (held : Rights) (u v : List ℤ) → IsGame o g → ((x : Castle) → IsTrue (holds held x) → IsTrue (unmoved o g x)) → IsSideBound o c (board_after o g) u v → moves_shown c held u v ≤ moves_of c (length g) }
    ensures from_odds { (o : List Bool) (g : List Move) (c : AColour) (held : Rights) (u v : List ℤ) → IsGame o g → ((x : Castle) → IsTrue (holds held x) → IsTrue (unmoved o g x)) → IsSideBound o c (board_after o g) u v → length_with c (turn_after g) (moves_shown c held u v) ≤ length g }
    ensures reached { (q : Asked) (g : List Move) (c : AColour) (u v : List ℤ) → Reaches g q → IsSideBound q.odds c q.board u v → length_with c q.turn (moves_shown c q.held u v) ≤ length g }
{}
