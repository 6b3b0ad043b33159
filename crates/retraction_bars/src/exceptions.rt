//! Which clauses are told by themselves, and what is said of all other ways.

ghost use Rattle.std.specs.Prelude.{◌≡◌, [], ◌∷◌, ◌++◌, IfOk, cond};
ghost use Rattle.std.specs.List.{list_all};
ghost use Rattle.retraction_bars.specs.Exceptions.{bars_main, bars_rest, exceptions, is_rest, main_of, rests};
ghost use Rattle.retraction_bars.specs.declared.gathering.Clause.{Clause};

use crate::bars::{Bar, is_barred};
use crate::gathering::Clause;
use crate::pairs::checker_from;
use crate::scopes::{Scope, is_within};
use crate::ways::ways_to;
use board_base::{Square, Unmove};
use query_base::Query;
use std::alloc::{AllocError, Global};

/// The first man who gives check, if anybody does.
pub fn main_of(query: &Query) -> Option<Square>
    ensures { result ≡ main_of query.now }
{
    match checker_from(query, 0) {
        Some(s) => Some(Square::known(s)),
        None => None,
    }
}

/// Whether the man on the main square, another, gave check already; false if nobody gives check.
fn bars_main(query: &Query, main: &Option<Square>, u: &Unmove) -> bool
    ensures { result ≡ bars_main query.now main.now u.now }
{
    match main {
        Some(s) => is_barred(query, u, Bar::Check(*s)),
        None => false,
    }
}

/// Somebody stands on the origin, or the man on the main square, another, gave check already.
fn bars_rest(query: &Query, main: &Option<Square>, u: &Unmove) -> bool
    ensures { result ≡ bars_rest query.now main.now u.now }
{
    is_barred(query, u, Bar::Occupied) || bars_main(query, main, u)
}

/// The way is out of the scope, or barred so.
fn is_rest(query: &Query, main: &Option<Square>, scope: &Scope, u: &Unmove) -> bool
    ensures { result ≡ is_rest query.now main.now scope.now u.now }
{
    !is_within(scope, u) || bars_rest(query, main, u)
}

/// Whether each of these ways is out of the scope, or barred so.
fn are_rest(query: &Query, main: &Option<Square>, scope: &Scope, ways: &[Unmove]) -> bool
    ensures { result ≡ list_all (is_rest query.now main.now scope.now) ways.now }
{
    ways.iter().all(|u| is_rest(query, main, scope, u))
}

/// Each way of which the clause tells is barred so.
fn rests(
    alloc: Global,
    query: &Query,
    main: &Option<Square>,
    c: &Clause,
) -> Result<bool, AllocError>
    ensures { IfOk result (λ r. r ≡ rests query.now main.now c.now) }
{
    let ways = ways_to(alloc, query, c.to)?;
    Ok(are_rest(query, main, &c.scope, ways.as_slice()))
}

/// Adds the clause, if it is to be told by itself.
fn push_if(given: bool, c: &Clause, told: &mut Vec<Clause>) -> Result<(), AllocError>
    ensures { IfOk result (λ _. told.new.items ≡ told.old.items ++ cond given (c.now ∷ []) []) }
{
    if given {
        told.push(*c)?;
    }
    Ok(())
}

/// The clauses that tell of some way that isn't barred so.
pub fn exceptions(
    alloc: Global,
    query: &Query,
    main: &Option<Square>,
    cs: &[Clause],
) -> Result<Vec<Clause>, AllocError>
    ensures { IfOk result (λ told. told.items ≡ exceptions query.now main.now cs.now) }
{
    let mut told = Vec::new(alloc);
    for c in cs {
        let rest = rests(alloc, query, main, c)?;
        push_if(!rest, c, &mut told)?;
    }
    Ok(told)
}
