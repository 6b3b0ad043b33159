ghost use Rattle.std.specs.Prelude.{ℕ, Bool, false, List, IsTrue, Some, ◌≡◌, ◌++◌, ◌∷◌, [], map};
ghost use Rattle.std.specs.List.{Contains};
ghost use Rattle.board_base.specs.Board.{array_of, at, is_a, is_of, is_the, opponent};
ghost use Rattle.board_base.specs.Game.{IsGame, board_after};
ghost use Rattle.board_base.specs.declared.men.Colour.{Colour as AColour};
ghost use Rattle.board_base.specs.declared.men.Kind.TheVariants.{Pawn};
ghost use Rattle.board_base.specs.declared.moves.Move.{Move};
ghost use Rattle.men_account.specs.Captures.{captured_by_pawns};
ghost use Rattle.men_account.specs.Labels.{label_at, labels_after};
ghost use Rattle.men_fates.specs.Deeds.{Strike, strike_by, strikes, struck_by, way_by, way_of};
ghost use Rattle.men_fates.specs.Ways.{captures_on, way_end};

/// The laws of the ways that pawns go, in every game from the array without any of its men. A move adds to a man's way the squares
/// over which it takes him as a pawn (article 3.7). A pawn stands where his way ends, and the captures of a way are those of its
/// pawn, in order. Who began as no pawn has no way.
pub fn pawns_go_ways()
    ensures moved { (o : List Bool) (g : List Move) (m : Move) (h : ℕ) → way_of o (g ++ m ∷ []) h ≡ way_of o g h ++ way_by h (board_after o g) (labels_after o g) m }
    ensures ends { (o : List Bool) (g : List Move) → IsGame o g → (s h : ℕ) → label_at (labels_after o g) s ≡ Some h → IsTrue (is_a Pawn (at (board_after o g) s)) → way_end h (way_of o g h) ≡ s }
    ensures captures { (o : List Bool) (g : List Move) (c : AColour) (h : ℕ) → IsGame o g → IsTrue (is_of c (at (array_of o) h)) → captures_on h (way_of o g h) ≡ struck_by h (strikes o g c) }
    ensures others { (o : List Bool) (g : List Move) (h : ℕ) → IsGame o g → is_a Pawn (at (array_of o) h) ≡ false → way_of o g h ≡ [] }
{}

/// The laws of the captures by pawns of a side, en passant too, in every game from the array without any of its men. A move adds the
/// one that it is, if it is one. They take the men of `pawns_take_men` of the crate `men_account`, in order. Each is made by a man who
/// began as a pawn of the side, and takes a man of the other.
pub fn pawns_strike()
    ensures moved { (o : List Bool) (g : List Move) (m : Move) (c : AColour) → strikes o (g ++ m ∷ []) c ≡ strikes o g c ++ strike_by c (board_after o g) (labels_after o g) m }
    ensures taken { (o : List Bool) (g : List Move) (c : AColour) → IsGame o g → map (λ x. x.of) (strikes o g c) ≡ captured_by_pawns o g c }
    ensures pawns { (o : List Bool) (g : List Move) (c : AColour) → IsGame o g → (x : Strike) → Contains (strikes o g c) x → IsTrue (is_the c Pawn (at (array_of o) x.by)) }
    ensures enemies { (o : List Bool) (g : List Move) (c : AColour) → IsGame o g → (x : Strike) → Contains (strikes o g c) x → IsTrue (is_of (opponent c) (at (array_of o) x.of)) }
{}
