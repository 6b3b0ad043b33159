ghost use Rattle.std.specs.Prelude.{◌≤◌, ◌↔◌, IfOk, IfSome, IsTrue, OnOk, length};
ghost use Rattle.std.specs.List.{All, Contains};
ghost use Rattle.unmove_gen.specs.Listed.{unmoves};
ghost use Rattle.claim_findings.specs.Decisions.{Grows};
ghost use Rattle.diagram_study.specs.Findings.{HaveTexts};
ghost use Rattle.diagram_study.specs.Possible.{AreEnds, HasEnds, HasFewLeft};
ghost use Rattle.diagram_study.specs.Retractions.{EndsAmong};

use board_base::UnmoveList;
use claim_findings::Games;
use query_base::{Query, is_array};
use std::alloc::{AllocError, Global};

/// The most retractions that are looked at one by one.
const MOST_LEFT: usize = 8;

/// How many queries the searches for games that end with retractions look at together.
const QUERIES: u32 = 8_000;

/// Some retractions are left, at most eight, and the game of no moves doesn't reach the query.
fn has_few_left(query: &Query, left: &UnmoveList) -> bool
    ensures { IsTrue result ↔ HasFewLeft query.now left.now }
{
    left.len() > 0 && left.len() <= MOST_LEFT && !is_array(query)
}

/// Looks for games that end with these retractions. Each has an equal share of the queries, with what those before it left over.
fn look_for_each(
    alloc: Global,
    games: &mut Games,
    query: &Query,
    left: &UnmoveList,
) -> Result<(), AllocError>
    requires few { length left.now ≤ 8 }
    requires listed { All (Contains (unmoves query.now)) left.now }
    ensures { OnOk result (Grows games.old.found.items games.new.found.items) }
{
    let mut queries = QUERIES;
    for i in 0..left.len() {
        let u = left.get(i).unwrap();
        let share = queries / (left.len() - i) as u32;
        match games.reach_end(alloc, query, &u, share) {
            Ok(looked_at) => queries -= looked_at,
            Err(_) => return Err(AllocError),
        }
    }
    Ok(())
}

/// Looks for games that end with the retractions left, if they are few.
pub(crate) fn look_for_ends(
    alloc: Global,
    games: &mut Games,
    query: &Query,
    left: &UnmoveList,
) -> Result<(), AllocError>
    requires listed { All (Contains (unmoves query.now)) left.now }
    ensures { OnOk result (Grows games.old.found.items games.new.found.items) }
{
    if has_few_left(query, left) {
        look_for_each(alloc, games, query, left)
    } else {
        Ok(())
    }
}

/// Those of the retractions with which one of the games ends.
fn ends_among(
    alloc: Global,
    games: &Games,
    query: &Query,
    left: &UnmoveList,
) -> Result<UnmoveList, AllocError>
    requires listed { All (Contains (unmoves query.now)) left.now }
    ensures { IfOk result (AreEnds games.now.found.items query.now left.now) }
{
    let mut ends = UnmoveList::new(alloc);
    for i in 0..left.len() {
        let u = left.get(i).unwrap();
        if games.have_end(query, &u) {
            match ends.push(u) {
                Ok(()) => {}
                Err(_) => return Err(AllocError),
            }
        }
    }
    Ok(ends)
}

/// Those of the retractions left with which one of the games ends, if they are few.
pub(crate) fn find_ends(
    alloc: Global,
    games: &Games,
    query: &Query,
    left: &UnmoveList,
) -> Result<Option<UnmoveList>, AllocError>
    requires listed { All (Contains (unmoves query.now)) left.now }
    requires among { EndsAmong query.now left.now }
    requires texts { HaveTexts left.now }
    ensures found { IfOk result (HasEnds query.now games.now.found.items left.now) }
    ensures texts { IfOk result (λ ends. IfSome ends HaveTexts) }
{
    if has_few_left(query, left) {
        let ends = ends_among(alloc, games, query, left)?;
        Ok(Some(ends))
    } else {
        Ok(None)
    }
}
