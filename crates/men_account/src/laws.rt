ghost use Rattle.std.specs.Prelude.{Bool, List, IsTrue, ◌≡◌, ◌+◌, ◌++◌, ◌∷◌, [], length};
ghost use Rattle.board_base.specs.Board.{array_of};
ghost use Rattle.board_base.specs.declared.men.Colour.{Colour as AColour};
ghost use Rattle.board_base.specs.declared.moves.Move.{Move};
ghost use Rattle.board_base.specs.Game.{IsGame, board_after};
ghost use Rattle.men_account.specs.Account.{accounts_for, men};
ghost use Rattle.men_account.specs.Captures.{KeepsColour};
ghost use Rattle.men_account.specs.Labels.{AreApart, HasColourOf, HoldsOfEach, IsHimself, IsPromotedFrom, LabelsEachMan, labels_after, relabelled};

/// The law that in every game, from the array without any of its men, a side's pawns and its men that must have been promoted, seen
/// from what it began with, are no more than the pawns with which it began (articles 2.2 and 3.7). Seen so, its queens, rooks, knights
/// and bishops on squares of each colour above those with which it began must have been promoted, wherever they stand. Where
/// `account_ok` is false, no game at these odds leads to the board.
pub fn accounts_hold()
    ensures { (o : List Bool) (g : List Move) → IsGame o g → (c : AColour) → IsTrue (accounts_for o (board_after o g) c) }
{}

/// The laws of labelled men, in every game from the array without any of its men. Each man carries the square on which he began
/// as his label, also after a promotion. The labels go where a move takes the men. A square has a label if and only if a man
/// stands; no two squares have the same label; the man who began on the label has the colour of the man who carries it; if he had
/// another kind, he was a pawn and has become an officer (article 3.7); and who began as no pawn is who he was.
pub fn men_keep_labels()
    ensures moved { (o : List Bool) (g : List Move) (m : Move) → labels_after o (g ++ m ∷ []) ≡ relabelled (board_after o g) (labels_after o g) m }
    ensures whole { (o : List Bool) (g : List Move) → IsGame o g → length (labels_after o g) ≡ 64 }
    ensures each_man { (o : List Bool) (g : List Move) → IsGame o g → LabelsEachMan (board_after o g) (labels_after o g) }
    ensures apart { (o : List Bool) (g : List Move) → IsGame o g → AreApart (labels_after o g) }
    ensures colours { (o : List Bool) (g : List Move) → IsGame o g → HoldsOfEach (board_after o g) (labels_after o g) (HasColourOf (array_of o)) }
    ensures promotions { (o : List Bool) (g : List Move) → IsGame o g → HoldsOfEach (board_after o g) (labels_after o g) (IsPromotedFrom (array_of o)) }
    ensures officers { (o : List Bool) (g : List Move) → IsGame o g → HoldsOfEach (board_after o g) (labels_after o g) (IsHimself (array_of o)) }
{}

/// The law that in every game from the array without any of its men, a bishop whose label is a bishop's home stands on a square of
/// that home's colour (article 3.2).
pub fn bishops_keep_colour()
    ensures { (o : List Bool) (g : List Move) → IsGame o g → HoldsOfEach (board_after o g) (labels_after o g) (KeepsColour (array_of o)) }
{}
