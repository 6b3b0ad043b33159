ghost use Rattle.std.specs.Prelude.{ℕ, Bool, List, IsTrue, Some, ◌≡◌};
ghost use Rattle.std.specs.List.{Contains};
ghost use Rattle.board_base.specs.Board.{array_of, at, is_in, is_of, is_the, opponent};
ghost use Rattle.board_base.specs.Game.{IsGame, board_after};
ghost use Rattle.board_base.specs.declared.men.Colour.{Colour as AColour};
ghost use Rattle.board_base.specs.declared.men.Kind.{Kind as AKind};
ghost use Rattle.board_base.specs.declared.men.Kind.TheVariants.{King, Pawn};
ghost use Rattle.board_base.specs.declared.moves.Move.{Move};
ghost use Rattle.men_account.specs.Homes.{is_officer_of};
ghost use Rattle.men_account.specs.Labels.{label_at, labels_after};
ghost use Rattle.cage_rules.specs.Asked.{Asked};
ghost use Rattle.cage_rules.specs.Laws.{Caged, IsGone, Walled};
ghost use Rattle.cage_rules.specs.Regions.{region};
ghost use Rattle.men_fates.specs.Deeds.{Strike, strikes, way_of};
ghost use Rattle.men_fates.specs.Fates.{FellOn, brings, may_fall};
ghost use Rattle.men_fates.specs.Ways.{is_way};

/// The laws of pawns beside a frozen set, for every game that leads to a query in which the set is frozen. Each man's way is a way of
/// a pawn outside the set. Whoever began as a pawn stands where his way brings him: if he is a pawn, where it ends, short of the last
/// rank; if he is an officer, it ends on the last rank, and he stands in his region from there (article 3.7.3.3).
pub fn pawns_pass_frozen_men()
    ensures ways { (o : List Bool) (g : List Move) (q : Asked) (set : List Bool) (c : AColour) (h : ℕ) → Caged o g q set → IsTrue (is_of c (at (array_of o) h)) → IsTrue (is_way c set h (way_of o g h)) }
    ensures brought { (o : List Bool) (g : List Move) (q : Asked) (set : List Bool) (c : AColour) (h s : ℕ) (k : AKind) → Caged o g q set → IsTrue (is_the c Pawn (at (array_of o) h)) → label_at (labels_after o g) s ≡ Some h → IsTrue (is_the c k (at q.board s)) → IsTrue (brings set c h (way_of o g h) k s) }
{}

/// The same laws wherever the men of a set stay, of pawns and of the men whom pawns took, and each man who began on the set is still on
/// the board (`last`).
pub fn pawns_pass_walls()
    ensures ways { (o : List Bool) (g : List Move) (set : List Bool) (c : AColour) (h : ℕ) → Walled o g set → IsTrue (is_of c (at (array_of o) h)) → IsTrue (is_way c set h (way_of o g h)) }
    ensures brought { (o : List Bool) (g : List Move) (set : List Bool) (c : AColour) (h s : ℕ) (k : AKind) → Walled o g set → IsTrue (is_the c Pawn (at (array_of o) h)) → label_at (labels_after o g) s ≡ Some h → IsTrue (is_the c k (at (board_after o g) s)) → IsTrue (brings set c h (way_of o g h) k s) }
    ensures exposed { (o : List Bool) (g : List Move) (set : List Bool) (c : AColour) → Walled o g set → (x : Strike) → Contains (strikes o g (opponent c)) x → IsTrue (may_fall set c x.on) }
    ensures officers { (o : List Bool) (g : List Move) (set : List Bool) (c : AColour) → Walled o g set → (x : Strike) → Contains (strikes o g (opponent c)) x → IsTrue (is_officer_of c (at (array_of o) x.of)) → IsTrue (is_in (region set x.of) x.on) }
    ensures pawns { (o : List Bool) (g : List Move) (set : List Bool) (c : AColour) → Walled o g set → (x : Strike) → Contains (strikes o g (opponent c)) x → IsTrue (is_the c Pawn (at (array_of o) x.of)) → FellOn set c x.of (way_of o g x.of) x.on }
    ensures last { (o : List Bool) (g : List Move) (set : List Bool) (h : ℕ) → Walled o g set → IsTrue (is_in set h) → IsGone o g h → ⊥ }
{}

/// The laws of the men whom pawns took, for every game that leads to a query in which a set is frozen. Where a pawn took a man, men of
/// his colour may fall to pawns. If he began as an officer, it was in his region. If he began as a pawn, a beginning of his way with
/// the same captures brings him there.
pub fn men_fall_to_pawns()
    ensures exposed { (o : List Bool) (g : List Move) (q : Asked) (set : List Bool) (c : AColour) → Caged o g q set → (x : Strike) → Contains (strikes o g (opponent c)) x → IsTrue (may_fall set c x.on) }
    ensures officers { (o : List Bool) (g : List Move) (q : Asked) (set : List Bool) (c : AColour) → Caged o g q set → (x : Strike) → Contains (strikes o g (opponent c)) x → IsTrue (is_officer_of c (at (array_of o) x.of)) → IsTrue (is_in (region set x.of) x.on) }
    ensures pawns { (o : List Bool) (g : List Move) (q : Asked) (set : List Bool) (c : AColour) → Caged o g q set → (x : Strike) → Contains (strikes o g (opponent c)) x → IsTrue (is_the c Pawn (at (array_of o) x.of)) → FellOn set c x.of (way_of o g x.of) x.on }
{}

/// The laws of the men who last: in every game from the array without any of its men, each king with which it began is still on the
/// board (article 3.9.2), and in every game that leads to a query in which a set is frozen, so is each man who began on the set.
pub fn men_last()
    ensures kings { (o : List Bool) (g : List Move) (c : AColour) (h : ℕ) → IsGame o g → IsTrue (is_the c King (at (array_of o) h)) → IsGone o g h → ⊥ }
    ensures frozen { (o : List Bool) (g : List Move) (q : Asked) (set : List Bool) (h : ℕ) → Caged o g q set → IsTrue (is_in set h) → IsGone o g h → ⊥ }
{}
