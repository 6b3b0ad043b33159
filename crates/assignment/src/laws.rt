ghost use Rattle.std.specs.Prelude.{◌≡◌, ◌≤◌, ◌↔◌, ℕ, List, length, ℤ, pos, ◌+ℤ◌, ◌≤ℤ◌, ◌<ℤ◌};
ghost use Rattle.std.specs.List.{Contains};
ghost use Rattle.assignment.specs.Tables.{IsTable};
ghost use Rattle.assignment.specs.Assignments.{IsBounded, IsBoundedAbove, IsInjection, assignment_cost, injections, least_cost, total};

/// The law of weak duality: no injection of the rows into the columns costs less than the sum of potentials that bound the costs.
pub fn no_injection_costs_less()
    ensures { (width : ℕ) (table : List (List ℕ)) (u v : List ℤ) (columns : List ℕ) → IsBounded width table u v → IsInjection width (length table) columns → (total u +ℤ total v) ≤ℤ pos (assignment_cost table columns) }
{}

/// The law that the least cost is that of an injection, if there are no more rows than columns, and that no injection costs less.
/// The list over which it is the minimum has each injection and nothing else.
pub fn least_cost_is_least()
    ensures listed { (width rows : ℕ) (columns : List ℕ) → Contains (injections width rows) columns ↔ IsInjection width rows columns }
    ensures attained { (width : ℕ) (table : List (List ℕ)) → length table ≤ width → (columns : List ℕ) × IsInjection width (length table) columns × (assignment_cost table columns ≡ least_cost width table) }
    ensures below { (width : ℕ) (table : List (List ℕ)) (columns : List ℕ) → IsInjection width (length table) columns → least_cost width table ≤ assignment_cost table columns }
{}

/// The law of strong duality: if no cost is above a limit, potentials from -limit to limit that bound the costs, with a sum above a number,
/// exist if and only if the least cost is above that number.
pub fn potentials_decide()
    ensures { (width limit : ℕ) (table : List (List ℕ)) → IsTable table width limit → (n : ℤ) → ((u : List ℤ) × (v : List ℤ) × IsBoundedAbove n width limit table u v) ↔ (n <ℤ pos (least_cost width table)) }
{}
