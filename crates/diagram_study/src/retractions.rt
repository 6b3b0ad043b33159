ghost use Rattle.std.specs.Prelude.{◌≡◌, ◌-◌, ◌≤◌, [], IfOk, IfSome, IsTrue, None, Some, length};
ghost use Rattle.std.specs.List.{All, list_all};
ghost use Rattle.board_base.specs.Legal.{is_move};
ghost use Rattle.board_base.specs.Texts.{can_promote};
ghost use Rattle.line_claims.specs.Lines.{has_text};
ghost use Rattle.unmove_gen.specs.Listed.{unmoves};
ghost use Rattle.diagram_study.specs.Looks.{AreLooked};
ghost use Rattle.diagram_study.specs.Retractions.{HasLeft, IsLastFound, IsMoveFound, one_move};

use crate::joining::joined_up;
use board_base::{Move, Unmove, UnmoveList, is_move};
use claim_findings::{Finding, Limits, Outcome, Searchers, Subject, is_refuted, search_at, seek};
use query_base::Claim;
use std::alloc::AllocError;
use unmove_gen::{Unmoves, few_unmoves, last_moves_are_listed, pred, unmoves_have_texts};

/// An unmove, and what the search of what is before it came to.
#[derive(Clone, Copy)]
pub struct Looked {
    pub unmove: Unmove,
    pub outcome: Outcome,
}

/// The move of all retractions that are left, and what is found of the claim that it was the last.
#[derive(Clone, Copy)]
pub struct MoveFound {
    pub mv: Move,
    pub finding: Finding,
}

/// The unmoves with what came of their searches, those that are left, and how many there are in all.
#[derive(Drop)]
pub struct Counted {
    pub looked: Vec<Looked>,
    pub left: UnmoveList,
    pub all: u32,
}

/// The unmoves of the query whose predecessors the search doesn't refute.
pub(crate) fn retractions(
    searchers: &mut Searchers,
    subject: &Subject,
) -> Result<Counted, AllocError>
    ensures left { IfOk result
        (λ r. HasLeft subject.now.query subject.now.limits.depth subject.now.limits.nodes r.left) }
    ensures looked { IfOk result
        (λ r. AreLooked subject.now.query (subject.now.limits.depth - 1) subject.now.limits.nodes [] r.left r.looked.items) }
    ensures all { IfOk result (λ r. r.all ≡ length (unmoves subject.now.query)) }
    ensures few { IfOk result (λ r. length r.left ≤ 143360) }
    ensures texts { IfOk result (λ r. All (λ u. IsTrue (has_text u)) r.left) }
{
    few_unmoves();
    unmoves_have_texts();
    last_moves_are_listed();
    let below = subject.limits.depth.saturating_sub(1);
    let nearer = Limits {
        depth: below,
        nodes: subject.limits.nodes,
    };
    let mut looked = Vec::new(searchers.alloc);
    let mut left = UnmoveList::new(searchers.alloc);
    let mut all: u32 = 0;
    let mut unmoves = Unmoves::new(&subject.query);
    while let Some(u) = unmoves.next() {
        all += 1;
        let before = pred(&subject.query, &u);
        let earlier = Subject {
            query: before,
            limits: nearer,
        };
        let outcome = search_at(searchers, &earlier, &Claim::Illegal)?;
        looked.push(Looked { unmove: u, outcome })?;
        if !is_refuted(outcome) {
            match left.push(u) {
                Ok(()) => {}
                Err(_) => return Err(AllocError),
            }
        }
    }
    Ok(Counted { looked, left, all })
}

/// All these unmoves have this move.
fn have_move(left: &UnmoveList, m: &Move) -> bool
    ensures { result ≡ list_all (λ u. is_move (Some m.now) u.mv) left.now }
{
    for i in 0..left.len() {
        let u = left.get(i).unwrap();
        if !is_move(&Some(*m), &u.mv) {
            return false;
        }
    }
    true
}

/// The move of all these unmoves, if it is one.
fn one_move(left: &UnmoveList) -> Option<Move>
    requires { All (λ u. IsTrue (has_text u)) left.now }
    ensures value { result ≡ one_move left.now }
    ensures text { IfSome result (λ m. IsTrue (can_promote m.promo)) }
{
    let first = left.get(0);
    match first {
        Some(u) => {
            if have_move(left, &u.mv) {
                Some(u.mv)
            } else {
                None
            }
        }
        None => None,
    }
}

/// What is found of the claim that this was the last move, which it was of all retractions that are left.
fn find_move(
    searchers: &mut Searchers,
    subject: &Subject,
    m: &Move,
    seen: &Counted,
) -> Result<MoveFound, AllocError>
    requires looked { AreLooked subject.now.query (subject.now.limits.depth - 1) subject.now.limits.nodes [] seen.now.left seen.now.looked.items }
    requires all { All (λ u. IsTrue (is_move (Some m.now) u.mv)) seen.now.left }
    ensures move_is { IfOk result (λ f. f.mv ≡ m.now) }
    ensures found { IfOk result (IsMoveFound subject.now.query subject.now.limits.depth subject.now.limits.nodes) }
{
    let sought = seek(searchers, subject, &Claim::Last(*m))?;
    let finding = joined_up(subject, Some(*m), sought, seen);
    Ok(MoveFound { mv: *m, finding })
}

/// What is found of the last move, if all retractions that are left have one move.
pub(crate) fn find_last(
    searchers: &mut Searchers,
    subject: &Subject,
    seen: &Counted,
) -> Result<Option<MoveFound>, AllocError>
    requires texts { All (λ u. IsTrue (has_text u)) seen.now.left }
    requires looked { AreLooked subject.now.query (subject.now.limits.depth - 1) subject.now.limits.nodes [] seen.now.left seen.now.looked.items }
    ensures found { IfOk result (IsLastFound subject.now.query subject.now.limits.depth subject.now.limits.nodes seen.now.left) }
    ensures text { IfOk result (λ last. IfSome last (λ f. IsTrue (can_promote f.mv.promo))) }
{
    match one_move(&seen.left) {
        Some(m) => {
            let found = find_move(searchers, subject, &m, seen)?;
            Ok(Some(found))
        }
        None => Ok(None),
    }
}
