ghost use Rattle.std.specs.Prelude.{ℕ, Bool, List, IsTrue, Some, ◌≡◌, ◌≢◌};
ghost use Rattle.std.specs.List.{AllPairs, Contains, sum_by};
ghost use Rattle.board_base.specs.Board.{array_of, at, is_of, is_the, opponent};
ghost use Rattle.board_base.specs.declared.men.Colour.{Colour as AColour};
ghost use Rattle.board_base.specs.declared.men.Kind.TheVariants.{Pawn};
ghost use Rattle.board_base.specs.declared.moves.Move.{Move};
ghost use Rattle.board_base.specs.Game.{IsGame};
ghost use Rattle.men_account.specs.Labels.{label_at, labels_after};
ghost use Rattle.men_fates.specs.Deeds.{Strike, strikes};
ghost use Rattle.men_ledger.specs.Ledger.{earned, paid, turnover};

/// The law of the ledger, in every game from the array without any of its men, whatever each square's price is. No two captures by
/// pawns of a side take one man (`differ`), and who was taken is on the board no more (`gone`). Over different homes with all from which
/// pawns of the side began, what they pay by their captures sums to the prices of these captures (`paid`); over different homes with
/// all of the other side, what its men earn sums to the same (`earned`); and so what is paid is what is earned (`balance`). A man whom
/// a pawn took earns the price of the square (`price`), and one whom no pawn took (`nothing`), as each who is on the board
/// (`standing`), earns nothing.
pub fn strikes_balance()
    ensures differ { (o : List Bool) (g : List Move) (c : AColour) → IsGame o g → AllPairs (λ x y. x.of ≢ y.of) (strikes o g c) }
    ensures gone { (o : List Bool) (g : List Move) (c : AColour) → IsGame o g → (x : Strike) → Contains (strikes o g c) x → (s : ℕ) → label_at (labels_after o g) s ≡ Some x.of → ⊥ }
    ensures paid { (o : List Bool) (g : List Move) (c : AColour) (price : ℕ → ℕ) (ours : List ℕ) → IsGame o g → AllPairs (λ h k. h ≢ k) ours → ((h : ℕ) → IsTrue (is_the c Pawn (at (array_of o) h)) → Contains ours h) → sum_by (paid price (strikes o g c)) ours ≡ turnover price (strikes o g c) }
    ensures earned { (o : List Bool) (g : List Move) (c : AColour) (price : ℕ → ℕ) (theirs : List ℕ) → IsGame o g → AllPairs (λ h k. h ≢ k) theirs → ((h : ℕ) → IsTrue (is_of (opponent c) (at (array_of o) h)) → Contains theirs h) → sum_by (earned price (strikes o g c)) theirs ≡ turnover price (strikes o g c) }
    ensures balance { (o : List Bool) (g : List Move) (c : AColour) (price : ℕ → ℕ) (ours theirs : List ℕ) → IsGame o g → AllPairs (λ h k. h ≢ k) ours → AllPairs (λ h k. h ≢ k) theirs → ((h : ℕ) → IsTrue (is_the c Pawn (at (array_of o) h)) → Contains ours h) → ((h : ℕ) → IsTrue (is_of (opponent c) (at (array_of o) h)) → Contains theirs h) → sum_by (paid price (strikes o g c)) ours ≡ sum_by (earned price (strikes o g c)) theirs }
    ensures price { (o : List Bool) (g : List Move) (c : AColour) (price : ℕ → ℕ) → IsGame o g → (x : Strike) → Contains (strikes o g c) x → earned price (strikes o g c) x.of ≡ price x.on }
    ensures nothing { (o : List Bool) (g : List Move) (c : AColour) (price : ℕ → ℕ) (h : ℕ) → ((x : Strike) → Contains (strikes o g c) x → x.of ≢ h) → earned price (strikes o g c) h ≡ 0 }
    ensures standing { (o : List Bool) (g : List Move) (c : AColour) (price : ℕ → ℕ) (s h : ℕ) → IsGame o g → label_at (labels_after o g) s ≡ Some h → earned price (strikes o g c) h ≡ 0 }
{}
