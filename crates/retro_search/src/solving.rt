ghost use Rattle.std.specs.Prelude.{◌≡◌, ◌≤◌, ◌↔◌, [], IfOk, None};
ghost use Rattle.query_base.specs.Targets.{target};
ghost use Rattle.cert_text.specs.Seen.{tree_of};
ghost use Rattle.retro_search.specs.Answers.{IfCountered, IfProved, IfSpentAt, IfUndecided, IfUnspent, IsAnswer, IsCounter, IsProved, IsUndecided};
ghost use Rattle.retro_search.specs.Lone.{IsAfforded, IsDear};
ghost use Rattle.retro_search.specs.Refutable.{IsRefutable};
ghost use Rattle.retro_search.specs.RuleLines.{IsByRuleLines};

use crate::answering::answer;
use crate::answers::Found;
use crate::limits::Limits;
use crate::runs::{Reasons, Run};
use board_base::Memory;
use query_base::{Claim, Query};
use std::alloc::Global;

/// Searches for a certificate of the claim about the query: takes moves back from the claim's target, at most `depth` of them, 0 to
/// 64, and visits at most `nodes` queries, 1 to 500,000. The query bars no move of its own.
///
/// A query is refutable if a rule line supports it or one of the queries that led to it asks no more than it does; or if moves may
/// still be taken back, it isn't the array from which games begin, and each of its predecessors is refutable with one move less.
///
/// - `Proved` comes if and only if the target is refutable at the depth and `Spent` doesn't come. The certificate is of this claim and
///   this query, proves it by rule lines, goes back at most `depth` moves, has at most 500,000 nodes, and has a text if the claim has one. No
///   game of any length contradicts the claim; of `Illegal` this says that the position is illegal (article 3.10.3).
/// - `Undecided` comes only if the target isn't refutable, with its first open line. That has as many unmoves as the depth, and
///   doesn't end at the array.
/// - `Countered` comes only if the target isn't refutable and its first open line ends at the array, with that line read forwards
///   as a game, which contradicts the claim. An open line or a game has fewer moves than `nodes`, since each query on its way is
///   visited.
/// - `Spent` comes only if the cost of the target is above `nodes`. Refutations that lean on no query above them are kept and taken
///   again. So if the target is refutable, no query of its tree is covered by one above it, and the cost is at most 30,000, `Spent`
///   comes if and only if the memo cost is above `nodes`. It says how many queries were visited, which is `nodes`.
///
/// Want of memory is a free answer: `Memory` may take the place of each of these.
pub fn solve(
    alloc: Global,
    query: &Query,
    claim: &Claim,
    depth: u8,
    nodes: u32,
) -> Result<Found, Memory>
    requires unbarred { query.now.barred ≡ None }
    requires shallow { depth ≤ 64 }
    requires some_nodes { 1 ≤ nodes }
    requires few_nodes { nodes ≤ 500_000 }
    ensures answer { IfOk result (IsAnswer depth nodes claim.now query.now) }
    ensures lined { IfOk result (λ found. IfProved found (λ cert. IsByRuleLines (tree_of cert.root))) }
    ensures exactly { IfOk result (λ found. IfUnspent found (IsProved found ↔ IsRefutable (target query.now claim.now) depth [])) }
    ensures undecided { IfOk result (λ found. IfUndecided found (λ line. IsUndecided line (target query.now claim.now) depth)) }
    ensures countered { IfOk result (λ found. IfCountered found (λ game. IsCounter game claim.now query.now depth)) }
    ensures afforded { IfOk result (λ found. IfProved found (λ cert. IsAfforded depth nodes claim.now query.now)) }
    ensures spent { IfOk result (λ found. IfSpentAt found (λ visited. IsDear depth nodes claim.now query.now)) }
{
    let mut run = Run::new(alloc, Reasons::RuleLines);
    answer(alloc, query, claim, Limits { depth, nodes }, &mut run)
}
