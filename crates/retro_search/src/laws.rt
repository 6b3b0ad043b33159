ghost use Rattle.std.specs.Prelude.{ℕ, ◌≡◌, ◌≤◌, List};
ghost use Rattle.board_base.specs.declared.unmoves.Unmove.{Unmove as AnUnmove};
ghost use Rattle.query_base.specs.Asked.{Asked};
ghost use Rattle.retro_search.specs.Refutable.{IsRefutable};
ghost use Rattle.retro_search.specs.Lines.{IsFirstOpen};
ghost use Rattle.retro_search.specs.Costs.{IsCost};
ghost use Rattle.retro_search.specs.Lone.{IsMemoCost};
ghost use Rattle.retro_search.specs.SearchSizes.{IsSearchSize};

/// The law that each query which isn't refutable has one first open line, at each depth and below any ancestors. This does nothing
/// when it runs.
pub fn one_open_line_each()
    ensures some { (q : Asked) (depth : ℕ) (ancestors : List Asked) → (IsRefutable q depth ancestors → ⊥) → (line : List AnUnmove) × IsFirstOpen q depth ancestors line }
    ensures one { (q : Asked) (depth : ℕ) (ancestors : List Asked) (a b : List AnUnmove) → IsFirstOpen q depth ancestors a → IsFirstOpen q depth ancestors b → a ≡ b }
{}

/// The law that each query has one cost, at each depth and below any ancestors. This does nothing when it runs.
pub fn one_cost_each()
    ensures some { (q : Asked) (depth : ℕ) (ancestors : List Asked) → (n : ℕ) × IsCost q depth ancestors n }
    ensures one { (q : Asked) (depth : ℕ) (ancestors : List Asked) (m n : ℕ) → IsCost q depth ancestors m → IsCost q depth ancestors n → m ≡ n }
{}

/// The law that what is refutable at a depth is so at each greater one, at the same cost. This does nothing when it runs.
pub fn deeper_searches_refute_more()
    ensures refutable { (q : Asked) (k depth : ℕ) (ancestors : List Asked) → k ≤ depth → IsRefutable q k ancestors → IsRefutable q depth ancestors }
    ensures cost { (q : Asked) (k depth : ℕ) (ancestors : List Asked) (n : ℕ) → k ≤ depth → IsRefutable q k ancestors → IsCost q k ancestors n → IsCost q depth ancestors n }
{}

/// The law that each query has one memo cost at each depth. This does nothing when it runs.
pub fn one_memo_cost_each()
    ensures some { (q : Asked) (depth : ℕ) → (n : ℕ) × IsMemoCost q depth n }
    ensures one { (q : Asked) (depth m n : ℕ) → IsMemoCost q depth m → IsMemoCost q depth n → m ≡ n }
{}

/// The law that the whole search of each query has one size, at each depth and below any ancestors, which is at least the cost of the
/// query. This does nothing when it runs.
pub fn one_search_size_each()
    ensures some { (q : Asked) (depth : ℕ) (ancestors : List Asked) → (n : ℕ) × IsSearchSize q depth ancestors n }
    ensures one { (q : Asked) (depth : ℕ) (ancestors : List Asked) (m n : ℕ) → IsSearchSize q depth ancestors m → IsSearchSize q depth ancestors n → m ≡ n }
    ensures costs_fit { (q : Asked) (depth : ℕ) (ancestors : List Asked) (m n : ℕ) → IsCost q depth ancestors m → IsSearchSize q depth ancestors n → m ≤ n }
{}
