ghost use Rattle.std.specs.Prelude.{ℕ, List, []};
ghost use Rattle.board_base.specs.declared.moves.Move.{Move};
ghost use Rattle.std.specs.List.{All};
ghost use Rattle.board_base.specs.Board.{no_odds};
ghost use Rattle.board_base.specs.Game.{IsGame};
ghost use Rattle.position_maker.specs.Draws.{games_of};
ghost use Rattle.position_maker.specs.Samples.{AreMissing, AreMissingInAll};

/// The law that the games that are made are games: each move is legal after those before it. And that each move of a game is among
/// the unmoves of the position after it: none is ever missing.
pub fn no_move_is_missing()
    ensures games { (plies n x : ℕ) → All (IsGame no_odds) (games_of plies n x) }
    ensures found { (g : List Move) → IsGame no_odds g → AreMissing [] g 0 }
    ensures none { (plies n x : ℕ) → AreMissingInAll (games_of plies n x) 0 }
{}
