ghost use Rattle.std.specs.Prelude.{ℕ, Bool, List, IsTrue, ◌≡◌, ◌+◌, ◌||◌, ◌==◌};
ghost use Rattle.board_base.specs.Board.{array_of, at, is_of, is_the, rank};
ghost use Rattle.board_base.specs.Legal.{last_rank};
ghost use Rattle.board_base.specs.declared.men.Colour.{Colour as AColour};
ghost use Rattle.board_base.specs.declared.men.Kind.TheVariants.{Pawn};
ghost use Rattle.board_base.specs.declared.moves.Move.{Move};
ghost use Rattle.board_base.specs.Game.{IsGame};
ghost use Rattle.men_account.specs.Labels.{labels_after};
ghost use Rattle.men_fates.specs.Deeds.{strikes, way_of};
ghost use Rattle.men_fates.specs.Ways.{fee, toll, way_end};
ghost use Rattle.men_ledger.specs.Files.{gates_passed, is_there};
ghost use Rattle.men_ledger.specs.Ledger.{paid};

/// The law of tolls, in every game from the array without any of its men, whatever the prices and gates are. What a man of a side pays
/// as a pawn is the fee of his way (`fees`). Where he began as a pawn, and is on the board or was promoted, it is with the gates that he
/// passes the toll of his way (`tolls`).
pub fn pawns_pay_tolls()
    ensures fees { (o : List Bool) (g : List Move) (c : AColour) (price : ℕ → ℕ) (h : ℕ) → IsGame o g → IsTrue (is_of c (at (array_of o) h)) → fee price h (way_of o g h) ≡ paid price (strikes o g c) h }
    ensures tolls { (o : List Bool) (g : List Move) (c : AColour) (price gate : ℕ → ℕ) (h : ℕ) → IsGame o g → IsTrue (is_the c Pawn (at (array_of o) h)) → IsTrue (is_there (labels_after o g) h || (rank (way_end h (way_of o g h)) == last_rank c)) → toll price gate h (way_of o g h) ≡ paid price (strikes o g c) h + gates_passed gate o g c h }
{}
