ghost use Rattle.std.specs.Prelude.{ℕ, ◌≡◌, ◌<◌, ◌≤◌, ◌+◌, ◌++◌, [], IfErr, IsSome, IsSomeAnd, List, MatchResult, Some, length};
ghost use Rattle.dossier_checker.specs.DossierAnswers.{AnswersDossier, DossierAnswer};
ghost use Rattle.dossier_checker.specs.DossierReading.{dossier_answer, refused_as};
ghost use Rattle.dossier_checker.specs.Remaining.{PartsRemain};
ghost use Rattle.dossier_checker.specs.StageAnswers.{IsTold, StageRemains, StageStands};

use crate::parts::Parts;
use crate::refusals::{AcceptedLine, DossierRefused};
use arrayvec::ArrayVec;
use dossier_text::{DossierHead, read_head};
use fen_text::push_text;
use line_claims::unlisted_step;

/// How far a check of a dossier has come.
#[derive(Drop)]
pub enum Stage {
    /// The first bytes, fewer than 512, of which the head is to be read.
    Heading(ArrayVec<u8, 512>),
    /// The head was read.
    Within(Parts),
    /// The first fault was met.
    Refused(DossierRefused),
}

// No other value that a run keeps on the stack is larger: it has room for the check of a part.
const _: () = prove!(size_of::<Stage>() <= 262_144);

/// Reads the head, and takes what follows it. These are the first 512 bytes, or all of them: a head is shorter.
fn begin(front: &[u8]) -> Result<Parts, DossierRefused>
    ensures rest { (bytes : List ℕ) (a : DossierAnswer) → (length front.now < 512 → bytes ≡ []) → MatchResult result (λ k. PartsRemain k bytes a) (λ r. refused_as r ≡ Some a) → AnswersDossier (front.now ++ bytes) a }
    ensures told { IfErr result (λ r. IsSome (refused_as r)) }
{
    let Some(head) = read_head(front) else {
        return Err(DossierRefused::Head);
    };
    let DossierHead { claim, query, rest } = head;
    if let Some(step) = unlisted_step(&query, &claim) {
        return Err(DossierRefused::UnlistedStep { step });
    }
    let mut parts = Parts::new(claim, query);
    parts.feed(rest)?;
    Ok(parts)
}

/// The stage after the head was read and what follows it was taken.
fn staged(begun: Result<Parts, DossierRefused>) -> Stage
    requires { IfErr begun (λ r. IsSome (refused_as r)) }
    ensures rest { (bytes : List ℕ) (a : DossierAnswer) → StageRemains result bytes a → MatchResult begun (λ k. PartsRemain k bytes a) (λ r. refused_as r ≡ Some a) }
    ensures told { IsTold result }
{
    match begun {
        Ok(parts) => Stage::Within(parts),
        Err(refused) => Stage::Refused(refused),
    }
}

/// Reads the head, and takes what follows it and this piece.
fn begin_with(front: &[u8], piece: &[u8]) -> Result<Parts, DossierRefused>
    requires { length front.now < 512 → piece.now ≡ [] }
    ensures rest { (bytes : List ℕ) (a : DossierAnswer) → (length front.now < 512 → bytes ≡ []) → MatchResult result (λ k. PartsRemain k bytes a) (λ r. refused_as r ≡ Some a) → AnswersDossier (front.now ++ (piece.now ++ bytes)) a }
    ensures told { IfErr result (λ r. IsSome (refused_as r)) }
{
    let mut parts = begin(front)?;
    parts.feed(piece)?;
    Ok(parts)
}

/// Takes the next piece of the bytes.
fn take(stage: &mut Stage, piece: &[u8])
    ensures rest { (bytes : List ℕ) (a : DossierAnswer) → StageRemains stage.new bytes a → StageRemains stage.old (piece.now ++ bytes) a }
    ensures told { IsTold stage.old → IsTold stage.new }
{
    match stage {
        Stage::Heading(front) => {
            let n = (512 - front.len()).min(piece.len());
            let (first, others) = piece.split_at(n);
            push_text(first, front);
            if front.is_full() {
                let begun = begin_with(front.as_slice(), others);
                *stage = staged(begun);
            }
        }
        Stage::Within(parts) => {
            if let Err(refused) = parts.feed(piece) {
                *stage = Stage::Refused(refused);
            }
        }
        Stage::Refused(_) => {}
    }
}

/// The stage before the first byte.
pub(crate) fn start() -> Stage
    ensures { StageStands result [] }
{
    Stage::Heading(ArrayVec::new())
}

/// Takes the next piece of the bytes.
pub(crate) fn feed(stage: &mut Stage, piece: &[u8])
    ensures { (bytes : List ℕ) → StageStands stage.old bytes → StageStands stage.new (bytes ++ piece.now) }
{
    take(stage, piece);
}

/// The answer if no byte follows those for which the stage stands.
pub(crate) fn finish(stage: Stage) -> Result<AcceptedLine, DossierRefused>
    ensures { (bytes : List ℕ) → StageStands stage bytes → IsSomeAnd (dossier_answer result) (AnswersDossier bytes) }
{
    match stage {
        Stage::Heading(front) => match begin(front.as_slice()) {
            Ok(parts) => parts.finish(),
            Err(refused) => Err(refused),
        },
        Stage::Within(parts) => parts.finish(),
        Stage::Refused(refused) => Err(refused),
    }
}
