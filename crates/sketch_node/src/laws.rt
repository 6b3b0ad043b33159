ghost use Rattle.std.specs.Prelude.{◌≡◌, ◌+◌, ℕ, Bool, List, false};
ghost use Rattle.std.specs.List.{All, Contains, list_any};
ghost use Rattle.board_base.specs.Rights.{Rights};
ghost use Rattle.board_base.specs.declared.men.Kind.TheVariants.{Knight, Queen, Rook};
ghost use Rattle.figures.specs.Clashes.{is_nowhere};
ghost use Rattle.figures.specs.Figures.{Sketch};
ghost use Rattle.figures.specs.Homes.{may_be_array};
ghost use Rattle.figures.specs.Known.{known_at, marked_at};
ghost use Rattle.sketch_account.specs.Closes.{Closes, Forces};
ghost use Rattle.sketch_rule.specs.Listed.{Earlier, earlier};
ghost use Rattle.sketch_node.specs.Nodes.{HasTree, IsFirstUnknown, IsLeastAbove, marked_with};

/// The laws of nodes. Some tree refutes a sketch if an account closes it (`closed`); if one refutes it with marks that accounts force in it,
/// all in the sketch as it is (`marks`), since no mark makes another less forced (`help`); if one refutes it in each case of a man (`cases`);
/// and if the least closed sketch above it can't be the array and one refutes what was before each of its listed steps (`steps`). There is
/// no more than one such least sketch, unless a figure has no square (`one`).
pub fn nodes_refute()
    ensures closed { (o : List Bool) (held : Rights) (exact : List Bool) (S : Sketch) → Closes o held S → HasTree o held exact S }
    ensures marks { (o : List Bool) (held : Rights) (exact : List Bool) (S : Sketch) (numbers : List ℕ) → All (λ n. (i : ℕ) × (n ≡ i + 1) × Forces o held i S) numbers → HasTree o held exact (marked_with numbers S) → HasTree o held exact S }
    ensures help { (o : List Bool) (held : Rights) (i j : ℕ) (S : Sketch) → Forces o held i S → Forces o held i (marked_at j S) }
    ensures cases { (o : List Bool) (held : Rights) (exact : List Bool) (S : Sketch) (s i : ℕ) → IsFirstUnknown S s i → HasTree o held exact (known_at i Knight S) → HasTree o held exact (known_at i Rook S) → HasTree o held exact (known_at i Queen S) → HasTree o held exact S }
    ensures steps { (o : List Bool) (held : Rights) (exact : List Bool) (S T : Sketch) → IsLeastAbove held exact S T → may_be_array o T ≡ false → ((e : Earlier) → Contains (earlier o exact T) e → HasTree o held exact e.sketch) → HasTree o held exact S }
    ensures one { (held : Rights) (exact : List Bool) (S T U : Sketch) → list_any is_nowhere S ≡ false → IsLeastAbove held exact S T → IsLeastAbove held exact S U → T ≡ U }
{}
