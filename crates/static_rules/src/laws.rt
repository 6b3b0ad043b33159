ghost use Rattle.std.specs.Prelude.{Bool, List, IsTrue};
ghost use Rattle.board_base.specs.declared.castles.Castle.{Castle as ACastle};
ghost use Rattle.board_base.specs.declared.moves.Move.{Move};
ghost use Rattle.board_base.specs.Game.{IsGame, board_after, unmoved};
ghost use Rattle.castle_history.specs.Homes.{are_at_home};

/// The law that in every game, from the array without any of its men, the king and the rook of a castling stand at home as long as
/// neither has moved or been captured, if neither was left out (article 3.8.2.1). So no game that has these rights leads to a board
/// where `held_fits` is false.
pub fn rights_have_homes()
    ensures { (o : List Bool) (g : List Move) (x : ACastle) → IsGame o g → IsTrue (unmoved o g x) → IsTrue (are_at_home (board_after o g) x) }
{}
