ghost use Rattle.std.specs.Prelude.{◌≡◌, ◌++◌, IfOk};
ghost use Rattle.std.specs.List.{flat_map, range_with_len};
ghost use Rattle.retraction_bars.specs.Clauses.{clause_if, clauses, clauses_from, clauses_to, man_clauses, origin_clauses, parts_from};
ghost use Rattle.retraction_bars.specs.Grounds.{first_bar};
ghost use Rattle.retraction_bars.specs.Scopes.{scope_of};

use crate::grounds::first_bar;
use crate::scopes::{Manner, Scope};
use crate::ways::ways_to;
use board_base::{Square, Unmove};
use query_base::Query;
use std::alloc::{AllocError, Global};

/// Of the man on a square: what bars some of his ways.
#[derive(Clone, Copy, PartialEq, Eq, Debug)]
pub struct Clause {
    /// Where he stands.
    pub to: Square,
    /// Of which ways it is told.
    pub scope: Scope,
    /// The number of what bars them, as `bar_at` gives it.
    pub bar: u8,
}

/// What bars the ways of a manner, if one thing bars them all.
fn push_part(
    query: &Query,
    ways: &[Unmove],
    to: Square,
    scope: &Scope,
    out: &mut Vec<Clause>,
) -> Result<(), AllocError>
    ensures { IfOk result (λ _. out.new.items ≡ out.old.items ++ clause_if to scope.now (first_bar query.now ways.now scope.now)) }
{
    if let Some(bar) = first_bar(query, ways, scope) {
        out.push(Clause {
            to,
            scope: *scope,
            bar,
        })?;
    }
    Ok(())
}

/// The same for a manner of going from one origin, as a man who was or wasn't promoted.
fn push_manner(
    query: &Query,
    ways: &[Unmove],
    to: Square,
    manner: Manner,
    from: Square,
    promoted: bool,
    out: &mut Vec<Clause>,
) -> Result<(), AllocError>
    ensures { IfOk result (λ _. out.new.items ≡ out.old.items ++ clause_if to (scope_of manner from promoted) (first_bar query.now ways.now (scope_of manner from promoted))) }
{
    let scope = Scope {
        manner,
        from,
        promoted,
    };
    push_part(query, ways, to, &scope, out)
}

/// The clauses of an origin manner by manner: without a capture, capturing on the target, and en passant.
fn push_parts(
    query: &Query,
    ways: &[Unmove],
    to: Square,
    from: Square,
    promoted: bool,
    out: &mut Vec<Clause>,
) -> Result<(), AllocError>
    ensures { IfOk result (λ _. out.new.items ≡ out.old.items ++ parts_from query.now ways.now to from promoted) }
{
    push_manner(query, ways, to, Manner::Quiet, from, promoted, out)?;
    push_manner(query, ways, to, Manner::Taking, from, promoted, out)?;
    push_manner(query, ways, to, Manner::Passing, from, promoted, out)
}

/// What bars the ways from an origin: one thing, or one for each manner.
fn push_origin(
    query: &Query,
    ways: &[Unmove],
    to: Square,
    from: Square,
    promoted: bool,
    out: &mut Vec<Clause>,
) -> Result<(), AllocError>
    ensures { IfOk result (λ _. out.new.items ≡ out.old.items ++ origin_clauses query.now ways.now to from promoted) }
{
    let scope = Scope {
        manner: Manner::Origin,
        from,
        promoted,
    };
    match first_bar(query, ways, &scope) {
        Some(bar) => out.push(Clause { to, scope, bar })?,
        None => push_parts(query, ways, to, from, promoted, out)?,
    }
    Ok(())
}

/// The clauses of an origin, first of a man who wasn't promoted by the move, then of one who was.
fn push_from(
    query: &Query,
    ways: &[Unmove],
    to: Square,
    from: Square,
    out: &mut Vec<Clause>,
) -> Result<(), AllocError>
    ensures { IfOk result (λ _. out.new.items ≡ out.old.items ++ clauses_from query.now ways.now to from) }
{
    push_origin(query, ways, to, from, false, out)?;
    push_origin(query, ways, to, from, true, out)
}

/// The clauses of all origins, by squares ascending.
fn push_origins(
    query: &Query,
    ways: &[Unmove],
    to: Square,
    out: &mut Vec<Clause>,
) -> Result<(), AllocError>
    ensures { IfOk result (λ _. out.new.items ≡ out.old.items ++ flat_map (clauses_from query.now ways.now to) (range_with_len 0 64)) }
{
    for i in 0..64 {
        push_from(query, ways, to, Square::known(i), out)?;
    }
    Ok(())
}

/// What bars the man's ways: one thing all of them, or of each origin what it is there.
#[tactic(auto, unfolding(crate::specs::Clauses::man_clauses))]
fn push_man(
    query: &Query,
    ways: &[Unmove],
    to: Square,
    out: &mut Vec<Clause>,
) -> Result<(), AllocError>
    ensures { IfOk result (λ _. out.new.items ≡ out.old.items ++ man_clauses query.now to ways.now) }
{
    let scope = Scope {
        manner: Manner::Anywhere,
        from: Square::known(0),
        promoted: false,
    };
    match first_bar(query, ways, &scope) {
        Some(bar) => out.push(Clause { to, scope, bar })?,
        None => push_origins(query, ways, to, out)?,
    }
    Ok(())
}

/// The clauses of the man on this square; none if nobody stands there who can have moved last.
#[tactic(auto, unfolding(crate::specs::Clauses::clauses_to))]
fn push_to(
    alloc: Global,
    query: &Query,
    to: Square,
    out: &mut Vec<Clause>,
) -> Result<(), AllocError>
    ensures { IfOk result (λ _. out.new.items ≡ out.old.items ++ clauses_to query.now to) }
{
    let ways = ways_to(alloc, query, to)?;
    push_man(query, ways.as_slice(), to, out)
}

/// For each man of the side that moved last, by squares ascending, what bars his ways: first one thing that bars all of them, else for
/// each origin, as a man who was or wasn't promoted, one thing that bars all from there, else for each manner of going from there. Ways
/// that are listed, and have no bar, have no clause.
pub fn clauses(alloc: Global, query: &Query) -> Result<Vec<Clause>, AllocError>
    ensures { IfOk result (λ v. v.items ≡ clauses query.now) }
{
    let mut out = Vec::new(alloc);
    for i in 0..64 {
        push_to(alloc, query, Square::known(i), &mut out)?;
    }
    Ok(out)
}
