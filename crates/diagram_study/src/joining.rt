ghost use Rattle.std.specs.Prelude.{◌≡◌, ◌≢◌, ◌-◌, ◌≤◌, [], IfSome, IsTrue, None, false};
ghost use Rattle.std.specs.List.{All, Contains};
ghost use Rattle.board_base.specs.Legal.{is_move};
ghost use Rattle.query_base.specs.Reach.{Reaches};
ghost use Rattle.claim_findings.specs.Outcomes.{HasProof};
ghost use Rattle.claim_findings.specs.Findings.{IsFound, is_proved, is_refuted};
ghost use Rattle.diagram_study.specs.Looks.{AreHeights, AreLooked, claim_but};
ghost use Rattle.diagram_study.specs.declared.retractions.Looked.{Looked as ALooked};

use crate::retractions::{Counted, Looked};
use board_base::{Move, is_move};
use claim_findings::{Finding, Outcome, Subject};
use query_base::is_array;

/// The greatest height of the trees that refute what is before these unmoves, but those of the move, if one is given. None if the
/// search didn't refute one of them.
fn greatest_height(looked: &[Looked], but: &Option<Move>) -> Option<u8>
    ensures heights { IfSome result (λ height. AreHeights but.now looked.now height) }
    ensures left { result ≡ None → (l : ALooked) × Contains looked.now l
        × (is_move but.now l.unmove.mv ≡ false) × (is_refuted l.outcome ≡ false) }
{
    let mut greatest: u8 = 0;
    for seen in looked {
        if !is_move(but, &seen.unmove.mv) {
            match seen.outcome {
                Outcome::Refuted { height } => greatest = greatest.max(height),
                Outcome::Open => return None,
                Outcome::Spent => return None,
            }
        }
    }
    Some(greatest)
}

/// The height of a tree for the query with this move barred, if one is given, that is joined of those for what is before its unmoves: one
/// more than the greatest of theirs.
fn joined_height(subject: &Subject, but: &Option<Move>, seen: &Counted) -> Option<u8>
    requires looked { AreLooked subject.now.query (subject.now.limits.depth - 1) subject.now.limits.nodes [] seen.now.left seen.now.looked.items }
    ensures proof { IfSome result
        (λ height. HasProof (record subject.now.query { barred = but.now }) height subject.now.limits.depth) }
    ensures sure { result ≡ None → 1 ≤ subject.now.limits.depth →
        (Reaches [] subject.now.query → ⊥) →
        All (λ u. IsTrue (is_move but.now u.mv)) seen.now.left → ⊥ }
{
    if subject.limits.depth == 0 || is_array(&subject.query) {
        return None;
    }
    match greatest_height(seen.looked.as_slice(), but) {
        Some(height) => Some(height + 1),
        None => None,
    }
}

/// What is found of the claim that the move was the last, or without one that the position is illegal, if the search alone came to
/// this: if it came to no proof, one may be joined of those that refute what is before the unmoves.
pub(crate) fn joined_up(
    subject: &Subject,
    but: Option<Move>,
    sought: Finding,
    seen: &Counted,
) -> Finding
    requires looked { AreLooked subject.now.query (subject.now.limits.depth - 1) subject.now.limits.nodes [] seen.now.left seen.now.looked.items }
    requires sought { IsFound subject.now.query (claim_but but) subject.now.limits.depth subject.now.limits.nodes sought }
    ensures found { IsFound subject.now.query (claim_but but) subject.now.limits.depth subject.now.limits.nodes result }
    ensures unlooked { sought ≢ Finding.Countered → result ≢ Finding.Countered }
    ensures sure { 1 ≤ subject.now.limits.depth → (Reaches [] subject.now.query → ⊥) →
        All (λ u. IsTrue (is_move but u.mv)) seen.now.left → IsTrue (is_proved result) }
{
    if sought.is_proved() {
        return sought;
    }
    match joined_height(subject, &but, seen) {
        Some(height) => Finding::Proved(height),
        None => sought,
    }
}
