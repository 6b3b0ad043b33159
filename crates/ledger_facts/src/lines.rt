ghost use Rattle.std.specs.Prelude.{ℕ, ◌≡◌, ◌≢◌, ◌<◌, ◌≤◌, ◌+◌, Bool, true, false, IsTrue, List, Some, length, not};
ghost use Rattle.std.specs.List.{AllPairs, Contains, filter, sum_by};
ghost use Rattle.board_base.specs.Board.{array_of, at, is_a, is_of, opponent};
ghost use Rattle.board_base.specs.Game.{IsGame};
ghost use Rattle.board_base.specs.declared.men.Colour.{Colour as AColour};
ghost use Rattle.board_base.specs.declared.men.Kind.TheVariants.{Pawn};
ghost use Rattle.board_base.specs.declared.moves.Move.{Move};
ghost use Rattle.men_account.specs.Labels.{label_at, labels_after};
ghost use Rattle.query_base.specs.Asked.{Asked};
ghost use Rattle.cage_rules.specs.Frozen.{IsFrozen};
ghost use Rattle.cage_rules.specs.Laws.{IsGone};
ghost use Rattle.cage_rules.specs.Reach.{LeadsTo};
ghost use Rattle.men_fates.specs.Deeds.{way_of};
ghost use Rattle.men_fates.specs.Ways.{captures_on, way_end};
ghost use Rattle.balance_rule.specs.Balance.{men_on};
ghost use Rattle.balance_rule.specs.Costs.{ways_from};
ghost use Rattle.ledger_facts.specs.Lines.{AreOthersRefuted, BeganOn, FellToPawn, HasCaptured, KeptFile, began_as_piece};
ghost use Rattle.ledger_facts.specs.Refuted.{IsRuledOut};
ghost use Rattle.ledger_facts.specs.Supposed.{captures, is_last};
ghost use Rattle.ledger_facts.specs.declared.suppositions.Squares.{Squares as ASquares};
ghost use Rattle.ledger_facts.specs.declared.suppositions.Squares.TheVariants.{All};
ghost use Rattle.ledger_facts.specs.declared.suppositions.Supposition.TheVariants.{Went, Stands, Gone, AtMost, AtLeast};

/// The law of homes and counts in a ledger, of every game that leads to a query. If each other home of a man is refuted, he began on one of
/// these (`homes`). A pawn captured if it is refuted that he never did (`captured`), and never did if it is refuted that he did
/// (`straight`). A side's pawns made more captures on some squares than it is refuted that they made at most (`least`), and fewer than it
/// is refuted that they made at least (`most`).
pub fn homes_and_counts_are_known()
    ensures homes { (q : Asked) (s : ℕ) (homes : List Bool) → AreOthersRefuted q s homes → (g : List Move) → LeadsTo q.odds g q → BeganOn q.odds g s homes }
    ensures captured { (q : Asked) (s : ℕ) → IsRuledOut (Went s true) q → IsTrue (is_a Pawn (at q.board s)) → (g : List Move) → LeadsTo q.odds g q → HasCaptured q.odds g s }
    ensures straight { (q : Asked) (s : ℕ) → IsRuledOut (Went s false) q → IsTrue (is_a Pawn (at q.board s)) → (g : List Move) → LeadsTo q.odds g q → KeptFile q.odds g s }
    ensures least { (q : Asked) (c : AColour) (squares : ASquares) (n : ℕ) → IsRuledOut (AtMost c squares n) q → (g : List Move) → LeadsTo q.odds g q → n < captures q.odds g c squares }
    ensures most { (q : Asked) (c : AColour) (squares : ASquares) (n : ℕ) → IsRuledOut (AtLeast c squares n) q → (g : List Move) → LeadsTo q.odds g q → captures q.odds g c squares < n }
{}

/// The law of fates in a ledger, of every game that leads to a query and each man who began on a home of a side. If it is refuted that he
/// stands, he was taken (`gone`); if it is also that he was taken by none of the pawns, a pawn took him (`struck`); if it is refuted that a
/// pawn took him, none did (`unstruck`). If it is refuted that he was promoted, he never was (`unpromoted`), and if it is refuted that he
/// never was, he was (`promoted`).
pub fn fates_are_known()
    ensures gone { (q : Asked) (c : AColour) (h : ℕ) → IsTrue (is_of c (at (array_of q.odds) h)) → IsRuledOut (Stands h true) q → IsRuledOut (Stands h false) q → (g : List Move) → LeadsTo q.odds g q → IsGone q.odds g h }
    ensures struck { (q : Asked) (c : AColour) (h : ℕ) → IsTrue (is_of c (at (array_of q.odds) h)) → IsRuledOut (Stands h true) q → IsRuledOut (Stands h false) q → IsRuledOut (Gone h true false) q → IsRuledOut (Gone h false false) q → (g : List Move) → LeadsTo q.odds g q → FellToPawn q.odds g c h }
    ensures unstruck { (q : Asked) (c : AColour) (h : ℕ) → IsTrue (is_of c (at (array_of q.odds) h)) → IsRuledOut (Gone h true true) q → IsRuledOut (Gone h false true) q → (g : List Move) → LeadsTo q.odds g q → FellToPawn q.odds g c h → ⊥ }
    ensures unpromoted { (q : Asked) (c : AColour) (h : ℕ) → IsTrue (is_of c (at (array_of q.odds) h)) → IsRuledOut (Stands h true) q → IsRuledOut (Gone h true true) q → IsRuledOut (Gone h true false) q → (g : List Move) → LeadsTo q.odds g q → is_last c h (way_of q.odds g h) ≡ false }
    ensures promoted { (q : Asked) (c : AColour) (h : ℕ) → IsTrue (is_of c (at (array_of q.odds) h)) → IsRuledOut (Stands h false) q → IsRuledOut (Gone h false true) q → IsRuledOut (Gone h false false) q → (g : List Move) → LeadsTo q.odds g q → is_last c h (way_of q.odds g h) ≡ true }
{}

/// The laws with which a ledger goes on, in every game from the array without any of its men. What different men of a side captured as
/// pawns adds up to no more than its pawns' captures (`pawns`). These are no fewer than the men of the other side of whom it is known that
/// pawns took them (`struck`), and no more than the men with whom the other side began, without those of whom it is known that no pawn did
/// (`unstruck`).
pub fn captures_add_up()
    ensures pawns { (o : List Bool) (g : List Move) (c : AColour) (homes : List ℕ) → IsGame o g → AllPairs (λ h k. h ≢ k) homes → ((h : ℕ) → Contains homes h → IsTrue (is_of c (at (array_of o) h))) → sum_by (λ h. length (captures_on h (way_of o g h))) homes ≤ captures o g c All }
    ensures struck { (o : List Bool) (g : List Move) (c : AColour) (homes : List ℕ) → IsGame o g → AllPairs (λ h k. h ≢ k) homes → ((h : ℕ) → Contains homes h → FellToPawn o g c h) → length homes ≤ captures o g (opponent c) All }
    ensures unstruck { (o : List Bool) (g : List Move) (c : AColour) (homes : List ℕ) → IsGame o g → AllPairs (λ h k. h ≢ k) homes → ((h : ℕ) → Contains homes h → IsTrue (is_of c (at (array_of o) h))) → ((h : ℕ) → Contains homes h → FellToPawn o g c h → ⊥) → captures o g (opponent c) All + length homes ≤ men_on c (array_of o) }
{}

/// The law of a pawn's ways in a ledger, of every game that leads to a query in which a set is frozen. What holds of each way beside the set
/// by which the pawn on a square may have come from a home, holds of the way by which he came, if he began there.
pub fn ways_are_listed()
    ensures { (q : Asked) (set : List Bool) (c : AColour) (s h : ℕ) (test : List ℕ → Bool) → IsFrozen q set → IsTrue (is_a Pawn (at q.board s)) → IsTrue (is_of c (at (array_of q.odds) h)) → ((way : List ℕ) → Contains (ways_from c set h) way → way_end h way ≡ s → IsTrue (test way)) → (g : List Move) → LeadsTo q.odds g q → label_at (labels_after q.odds g) s ≡ Some h → IsTrue (test (way_of q.odds g h)) }
{}

/// The law of men among whom some were promoted, in every game from the array without any of its men. Of different squares, each of whose men
/// began on one of some homes if he began as no pawn, those whose men began so are no more than these homes; so the others are all that are
/// left.
pub fn pieces_have_homes()
    ensures { (o : List Bool) (g : List Move) (squares homes : List ℕ) → IsGame o g → AllPairs (λ s t. s ≢ t) squares → ((s h : ℕ) → Contains squares s → label_at (labels_after o g) s ≡ Some h → is_a Pawn (at (array_of o) h) ≡ false → Contains homes h) → length squares ≤ length homes + length (filter (λ s. not (began_as_piece o g s)) squares) }
{}
