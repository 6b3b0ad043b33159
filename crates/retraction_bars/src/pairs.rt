ghost use Rattle.std.specs.Prelude.{◌≡◌, ◌+◌, ◌<◌, ◌≤◌, IfOk, IfSome};
ghost use Rattle.std.specs.List.{list_all};
ghost use Rattle.unmove_gen.specs.Listed.{mover};
ghost use Rattle.retraction_bars.specs.Bars.{gives_check};
ghost use Rattle.retraction_bars.specs.Pairs.{bars_twice, checker_from, is_twice, is_twice_at, pair_if, pair_of, pair_with};

use crate::bars::{Bar, is_barred};
use crate::checks::gives_check;
use crate::ways::ways_to;
use board_base::{Square, Unmove};
use query_base::Query;
use std::alloc::{AllocError, Global};

/// Two men of the side that moved, who give check at once.
#[derive(Clone, Copy, PartialEq, Eq, Debug)]
pub struct Pair {
    /// Where the first of them stands.
    pub first: Square,
    /// Where the second stands.
    pub second: Square,
}

/// The origin is occupied, from there the man attacked the king, or one of these two others gave check already.
fn bars_twice(query: &Query, a: Square, b: Square, u: &Unmove) -> bool
    ensures { result ≡ bars_twice query.now a b u.now }
{
    is_barred(query, u, Bar::Occupied)
        || is_barred(query, u, Bar::Itself)
        || is_barred(query, u, Bar::Check(a))
        || is_barred(query, u, Bar::Check(b))
}

/// Whether one of these bars each of the ways.
fn are_barred(query: &Query, a: Square, b: Square, ways: &[Unmove]) -> bool
    ensures { result ≡ list_all (bars_twice query.now a b) ways.now }
{
    ways.iter().all(|u| bars_twice(query, a, b, u))
}

/// Whether one of these bars each way to this square.
fn is_twice_at(
    alloc: Global,
    query: &Query,
    a: Square,
    b: Square,
    t: Square,
) -> Result<bool, AllocError>
    ensures { IfOk result (λ r. r ≡ is_twice_at query.now a b t) }
{
    let ways = ways_to(alloc, query, t)?;
    Ok(are_barred(query, a, b, ways.as_slice()))
}

/// One of these bars each way.
fn is_twice(alloc: Global, query: &Query, a: Square, b: Square) -> Result<bool, AllocError>
    ensures { IfOk result (λ r. r ≡ is_twice query.now a b) }
{
    for i in 0..64 {
        if !is_twice_at(alloc, query, a, b, Square::known(i))? {
            return Ok(false);
        }
    }
    Ok(true)
}

/// Whether a man of the side that moved gives check from this square.
fn checks_from(query: &Query, s: Square) -> bool
    ensures { result ≡ gives_check query.now.board (mover query.now) s }
{
    gives_check(&query.board, query.turn.other(), s)
}

/// The first square, from this one on, from which a man of the side that moved gives check.
pub fn checker_from(query: &Query, low: u8) -> Option<u8>
    requires { low ≤ 64 }
    ensures found { result ≡ checker_from query.now low }
    ensures on_board { IfSome result (λ s. s < 64) }
{
    for n in low..64 {
        if checks_from(query, Square::known(n)) {
            return Some(n);
        }
    }
    None
}

/// These two men as a pair, if no way explains both checks.
fn pair_if(is_twice: bool, first: Square, second: Square) -> Option<Pair>
    ensures { result ≡ pair_if is_twice first second }
{
    if is_twice {
        Some(Pair { first, second })
    } else {
        None
    }
}

/// The pair of the first man who gives check, on this square, and the next one; None if there is no other.
fn pair_with(alloc: Global, query: &Query, a: Square) -> Result<Option<Pair>, AllocError>
    ensures { IfOk result (λ p. p ≡ pair_with query.now a (checker_from query.now (a + 1))) }
{
    match checker_from(query, a.index() + 1) {
        None => Ok(None),
        Some(b) => {
            let b = Square::known(b);
            let answer = is_twice(alloc, query, a, b)?;
            Ok(pair_if(answer, a, b))
        }
    }
}

/// The first two men who give check, if each way in which a man may have come is barred, since its origin is occupied, or since
/// from there he attacked the king, or since one of those two, another man, gave check already.
#[tactic(auto, unfolding(crate::specs::Pairs::pair_of))]
pub fn pair_of(alloc: Global, query: &Query) -> Result<Option<Pair>, AllocError>
    ensures { IfOk result (λ p. p ≡ pair_of query.now) }
{
    match checker_from(query, 0) {
        None => Ok(None),
        Some(a) => pair_with(alloc, query, Square::known(a)),
    }
}
