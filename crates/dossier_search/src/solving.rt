ghost use Rattle.std.specs.Prelude.{◌≡◌, ◌≤◌, ◌++◌, IfOk, None, OnOk, length};
ghost use Rattle.std.specs.List.{All};
ghost use Rattle.line_claims.specs.Due.{parts_due};
ghost use Rattle.line_claims.specs.Holding.{HoldsLine};
ghost use Rattle.line_claims.specs.Lines.{HasLine};
ghost use Rattle.line_claims.specs.Listing.{LacksStep};
ghost use Rattle.dossier_text.specs.Dossiers.{IsHead, part_text};
ghost use Rattle.dossier_text.specs.Proving.{IsDossier};
ghost use Rattle.dossier_search.specs.Answers.{IfSpent, IfUndecided, IfUnlisted, IfWritten};
ghost use Rattle.dossier_search.specs.ReachedParts.{IsDearPart, IsFirstOpenPart, IsPartAfforded, IsPartProved};

use crate::dossiers::Dossier;
use crate::parts::{PartAnswer, solve_part};
use arrayvec::ArrayVec;
use board_base::Memory;
use dossier_text::{dossiers_prove, write_count_line, write_head};
use line_claims::{Due, LineClaim, parts_bar_no_move, unlisted_step};
use query_base::Query;
use retro_search::Limits;
use std::alloc::Global;

/// Puts the text after the others.
fn push(text: &[u8], out: &mut Vec<u8>) -> Result<(), Memory>
    ensures { OnOk result (out.new.items ≡ out.old.items ++ text.now) }
{
    match out.extend_from_slice(text) {
        Ok(()) => Ok(()),
        Err(_) => Err(Memory),
    }
}

/// The head of a dossier with this claim about the query.
fn head_text(alloc: Global, query: &Query, claim: &LineClaim) -> Result<Vec<u8>, Memory>
    requires plain { query.now.barred ≡ None }
    requires lined { HasLine claim.now }
    ensures { IfOk result (λ text. IsHead text.items claim.now query.now) }
{
    let mut head: ArrayVec<u8, 512> = ArrayVec::new();
    write_head(claim, query, &mut head);
    let mut text = Vec::new(alloc);
    push(head.as_slice(), &mut text)?;
    Ok(text)
}

/// Puts a part after the others: how many bytes its proof has, and these.
fn push_part(proof: &[u8], out: &mut Vec<u8>) -> Result<(), Memory>
    requires some { 1 ≤ length proof.now }
    requires few { length proof.now ≤ 67_108_864 }
    ensures { OnOk result (out.new.items ≡ out.old.items ++ part_text proof.now) }
{
    let mut line: ArrayVec<u8, 16> = ArrayVec::new();
    write_count_line(proof.len() as u32, &mut line);
    push(line.as_slice(), out)?;
    push(proof, out)
}

/// Searches for a dossier of the claim about the query: solves each part due in turn, as `solve` does, each with moves taken back to
/// `depth`, 0 to 64, and with at most `nodes` queries visited, 1 to 500,000. A part that this leaves open is searched once more, by all
/// reasons, and if it stays open by sketches too; and one that costs more than `nodes` likewise, with nothing taken back. The query bars no
/// move of its own, and the claim has a line: two castlings stand in the order `K`, `Q`, `k`, `q`, and each step has a text.
///
/// - `Unlisted` comes if and only if some step isn't among the unmoves of what the steps before it leave, with the first of them; no
///   part is then due.
/// - `Written` comes with the text of a dossier: its parts prove exactly the parts due, each goes back no further than `depth`, and has at
///   most 500,000 nodes. No game of any length contradicts the claim. It comes only if `solve` may prove each part with `nodes` or
///   doesn't refute its target, or the part is proved with nothing taken back.
/// - `Undecided` comes only if the target of some part isn't refutable at the depth by rule lines, nor do flat prices support it or one
///   node of a sketch refute it, with the first such part. Each part before it was proved.
/// - `Spent` comes only if a part costs more than `nodes`, in the ways that `solve` says, and neither flat prices nor one node of a
///   sketch refute its target. Each part before it was proved.
///
/// Want of memory is a free answer: `Memory` may take the place of each of these.
pub fn solve_line(
    alloc: Global,
    query: &Query,
    claim: &LineClaim,
    depth: u8,
    nodes: u32,
) -> Result<Dossier, Memory>
    requires unbarred { query.now.barred ≡ None }
    requires lined { HasLine claim.now }
    requires shallow { depth ≤ 64 }
    requires some_nodes { 1 ≤ nodes }
    requires few_nodes { nodes ≤ 500_000 }
    ensures written { IfOk result (λ dossier. IfWritten dossier (λ text. IsDossier text.items claim.now query.now)) }
    ensures holds { IfOk result (λ dossier. IfWritten dossier (λ text. HoldsLine claim.now query.now)) }
    ensures proved { IfOk result (λ dossier. IfWritten dossier (λ text. All (IsPartProved depth) (parts_due claim.now query.now))) }
    ensures afforded { IfOk result (λ dossier. IfWritten dossier (λ text. All (IsPartAfforded depth nodes) (parts_due claim.now query.now))) }
    ensures unlisted { IfOk result (λ dossier. IfUnlisted dossier (λ step. LacksStep claim.now query.now step)) }
    ensures undecided { IfOk result (λ dossier. IfUndecided dossier (λ part. IsFirstOpenPart depth claim.now query.now part)) }
    ensures spent { IfOk result (λ dossier. IfSpent dossier (λ part. IsDearPart depth nodes claim.now query.now part)) }
{
    dossiers_prove();
    parts_bar_no_move();
    if let Some(step) = unlisted_step(query, claim) {
        return Ok(Dossier::Unlisted { step });
    }
    let mut text = head_text(alloc, query, claim)?;
    let mut due = Due::new(query, claim);
    let mut part: u32 = 1;
    while let Some((claimed, asked)) = due.next() {
        match solve_part(alloc, &asked, &claimed, Limits { depth, nodes })? {
            PartAnswer::Proved(proof) => {
                push_part(&proof, &mut text)?;
                part += 1;
            }
            PartAnswer::Open => return Ok(Dossier::Undecided { part }),
            PartAnswer::Dear => return Ok(Dossier::Spent { part }),
        }
    }
    Ok(Dossier::Written(text))
}
