ghost use Rattle.std.specs.Prelude.{ℕ, Bool, List, IsTrue, ◌+◌, ◌*◌, ◌≤◌, ◌≢◌, length};
ghost use Rattle.std.specs.List.{AllPairs, Contains, range_with_len, sum_by};
ghost use Rattle.board_base.specs.Board.{array_of, at, is_of, opponent};
ghost use Rattle.board_base.specs.declared.men.Colour.{Colour as AColour};
ghost use Rattle.board_base.specs.declared.men.Colour.TheVariants.{White, Black};
ghost use Rattle.board_base.specs.declared.moves.Move.{Move};
ghost use Rattle.board_base.specs.Game.{IsGame};
ghost use Rattle.men_fates.specs.Deeds.{strikes};
ghost use Rattle.men_ledger.specs.Files.{gates_passed};
ghost use Rattle.men_ledger.specs.Ledger.{earned, paid};

/// The law of costs, in every game from the array without any of its men, whatever the prices of each side and the gates are. Of each
/// side there are different homes, with all from which its men began. Where for each of them what is said to be its cost is, with what
/// its man earned, no more than a base, what he paid and the gates that he passed as a pawn, all these costs are no more than the bases
/// and the gates of the board's squares: what is paid is what is earned, and each gate is passed once at most.
pub fn costs_fit_gates()
    ensures { (o : List Bool) (g : List Move) (base : ℕ) (price : AColour → ℕ → ℕ) (gate : ℕ → ℕ) (homes : AColour → List ℕ) (cost : AColour → ℕ → ℕ) → IsGame o g → ((c : AColour) → AllPairs (λ h k. h ≢ k) (homes c)) → ((c : AColour) (h : ℕ) → IsTrue (is_of c (at (array_of o) h)) → Contains (homes c) h) → ((c : AColour) (h : ℕ) → Contains (homes c) h → cost c h + earned (price (opponent c)) (strikes o g (opponent c)) h ≤ base + (paid (price c) (strikes o g c) h + gates_passed gate o g c h)) → sum_by (cost White) (homes White) + sum_by (cost Black) (homes Black) ≤ base * length (homes White) + base * length (homes Black) + sum_by gate (range_with_len 0 64) }
{}
