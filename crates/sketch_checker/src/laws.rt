ghost use Rattle.std.specs.Prelude.{◌≡◌, ◌↔◌, ℕ, Bool, List, false};
ghost use Rattle.std.specs.List.{list_any};
ghost use Rattle.board_base.specs.declared.moves.Move.{Move};
ghost use Rattle.capture_prices.specs.Prices.{PriceList};
ghost use Rattle.query_base.specs.Asked.{Asked};
ghost use Rattle.query_base.specs.Reach.{Reaches};
ghost use Rattle.figures.specs.Clashes.{is_nowhere};
ghost use Rattle.figures.specs.Figures.{Sketch};
ghost use Rattle.sketch_text.specs.Trees.{Line, Node, lines_of};
ghost use Rattle.sketch_proof.specs.Proofs.{Holds, Setting};
ghost use Rattle.sketch_checker.specs.DueNodes.{Due, first_due};
ghost use Rattle.sketch_checker.specs.LineWalk.{ComesTo, Walking, WalksOn, begun};
ghost use Rattle.sketch_checker.specs.Supports.{BodySupports, BodyWalks, SketchSupports, SketchWalks};
ghost use Rattle.sketch_checker.specs.TreeWalk.{Walked, Walks, next_line};

/// The law that the walk over a tree comes to one thing: no fault but the first is the answer.
pub fn one_sketch_walk()
    ensures { (x : Node) (g : Setting) (d : Due) (n : ℕ) (a b : Walked) → Walks x g d n a → Walks x g d n b → a ≡ b }
{}

/// The law that it meets no fault if and only if the tree holds, if each figure has a square.
pub fn sketch_walk_proves()
    ensures { (x : Node) (g : Setting) (d : Due) (n : ℕ) → list_any is_nowhere d.sketch ≡ false → ((m : ℕ) × Walks x g d n (next_line m)) ↔ Holds x g d.label d.sketch }
{}

/// The law that the walk over the lines of a tree, one after another, comes to what the walk over the tree comes to.
pub fn lines_walk_the_tree()
    ensures { (x : Node) (g : Setting) (S : Sketch) (n : ℕ) (last : Walking) → WalksOn g (begun S) n (lines_of x) last → (walked : Walked) × Walks x g (first_due S) n walked × ComesTo walked last }
{}

/// The laws of trees that support a query: no game reaches it (`no_game`), whatever it demands of the side to move, the last move and the
/// clock; and the walk over the tree comes to one thing (`one`), which is no fault if and only if the tree supports the query (`exact`).
pub fn sketches_support()
    ensures no_game { (q : Asked) (exact : List Bool) (prices : List PriceList) (tree : Node) → SketchSupports q exact prices tree → (g : List Move) → Reaches g q → ⊥ }
    ensures one { (q : Asked) (exact : List Bool) (prices : List PriceList) (tree : Node) (n : ℕ) (a b : Walked) → SketchWalks q exact prices tree n a → SketchWalks q exact prices tree n b → a ≡ b }
    ensures exact { (q : Asked) (exact : List Bool) (prices : List PriceList) (tree : Node) (n : ℕ) → ((m : ℕ) × SketchWalks q exact prices tree n (next_line m)) ↔ SketchSupports q exact prices tree }
{}

/// The same laws, of the lines of a tree: some lines are those of one tree.
pub fn bodies_support()
    ensures no_game { (q : Asked) (exact : List Bool) (prices : List PriceList) (lines : List Line) → BodySupports q exact prices lines → (g : List Move) → Reaches g q → ⊥ }
    ensures one { (q : Asked) (exact : List Bool) (prices : List PriceList) (lines : List Line) (n : ℕ) (a b : Walked) → BodyWalks q exact prices lines n a → BodyWalks q exact prices lines n b → a ≡ b }
    ensures exact { (q : Asked) (exact : List Bool) (prices : List PriceList) (lines : List Line) (n : ℕ) → ((m : ℕ) × BodyWalks q exact prices lines n (next_line m)) ↔ BodySupports q exact prices lines }
{}

/// The law that the walk over lines comes to one thing, whatever lines come (`some`, `one`).
pub fn one_line_walk()
    ensures some { (g : Setting) (lines : List Line) (w : Walking) (n : ℕ) → (a : Walking) × WalksOn g w n lines a }
    ensures one { (g : Setting) (lines : List Line) (w : Walking) (n : ℕ) (a b : Walking) → WalksOn g w n lines a → WalksOn g w n lines b → a ≡ b }
{}
