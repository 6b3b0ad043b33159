ghost use Rattle.std.specs.Prelude.{ℕ, ◌≡◌, ◌<◌, ◌≤◌, ◌∷◌, ◌++◌, ◌↔◌, [], Err, IfErr, IfOk, IsOk, IsSome, IsSomeAnd, IsTrue, List, MatchResult, Some, drop, length};
ghost use Rattle.cert_checker.specs.Answers.{accepted, answer_as};
ghost use Rattle.query_base.specs.Asked.{Asked};
ghost use Rattle.query_base.specs.declared.claims.Claim.{Claim as AClaim};
ghost use Rattle.line_claims.specs.Due.{parts_due};
ghost use Rattle.line_claims.specs.Listing.{HasParts};
ghost use Rattle.dossier_checker.specs.DossierAnswers.{AnswersPart, AnswersParts, DossierAnswer};
ghost use Rattle.dossier_checker.specs.DossierReading.{dossier_answer, refused_as};
ghost use Rattle.dossier_checker.specs.Remaining.{InPart, PartsRemain};

use crate::refusals::{AcceptedLine, DossierRefused};
use arrayvec::ArrayVec;
use cert_checker::{Accepted, Checker, Fault};
use dossier_text::read_count_line;
use line_claims::{Due, LineClaim};
use query_base::{Claim, Query};
use std::marker::Model;

pub(crate) fn is_same_claim(a: &Claim, b: &Claim) -> bool
    ensures { IsTrue result ↔ (a.now ≡ b.now) }
{
    a == b
}

pub(crate) fn is_same_query(a: &Query, b: &Query) -> bool
    ensures { IsTrue result ↔ (a.now ≡ b.now) }
{
    a == b
}

/// Whether what a certificate proves is the part that is due: the same claim about the same query.
fn is_due(proved: &Accepted, due: &(Claim, Query)) -> bool
    ensures { IsTrue result ↔ ((proved.now.claim, proved.now.query) ≡ due.now) }
{
    is_same_claim(&proved.claim, &due.0) && is_same_query(&proved.query, &due.1)
}

/// How a fault of this part's certificate is told.
fn fault_of(fault: Fault, part: u32) -> DossierRefused
    ensures refused { (due : AClaim × Asked) (a : DossierAnswer) → refused_as result ≡ Some a → AnswersPart due part (answer_as (Err fault)) (λ b. ⊥) a }
    ensures told { IsSome (refused_as result) }
{
    match fault {
        Fault::BadText { line } => DossierRefused::BadText { part, line },
        Fault::Unlisted { line, unmove } => DossierRefused::Unlisted { part, line, unmove },
        Fault::Unsupported { line, why } => DossierRefused::Unsupported { part, line, why },
    }
}

/// Whether this is the answer that is due to this part's certificate, and else how the fault is told.
fn judge(
    answer: Result<Accepted, Fault>,
    due: &(Claim, Query),
    part: u32,
) -> Result<(), DossierRefused>
    ensures due { IsOk result → answer_as answer ≡ accepted due.now.0 due.now.1 }
    ensures refused { (a : DossierAnswer) → IfErr result (λ r. refused_as r ≡ Some a → AnswersPart due.now part (answer_as answer) (λ b. ⊥) a) }
    ensures told { IfErr result (λ r. IsSome (refused_as r)) }
{
    match answer {
        Ok(proved) => {
            if is_due(&proved, due) {
                Ok(())
            } else {
                Err(DossierRefused::Other { part })
            }
        }
        Err(fault) => Err(fault_of(fault, part)),
    }
}

/// A check of what follows the head of a dossier, whose bytes come in pieces. It takes no memory.
#[derive(Drop)]
pub struct Parts {
    /// The claim of several steps.
    claim: LineClaim,
    /// The query that it is about.
    query: Query,
    /// The part that comes next or is being read, or None if no part is due any more.
    first: Option<(Claim, Query)>,
    /// The parts due after it.
    others: Due,
    /// Its number, counted from 1.
    number: u32,
    /// The bytes so far of the line that counts its bytes.
    line: ArrayVec<u8, 16>,
    /// How many of its bytes are to come, or 0 if their line comes.
    left: u32,
    /// The check of those that came.
    checker: Checker,
}

impl Model for Parts {
    ghost use Rattle.std.specs.Prelude.{◌+◌, ◌≤◌, length};
    ghost use Rattle.fen_text.specs.Parts.{Free};
    ghost use Rattle.dossier_checker.specs.Remaining.{Parting, with_first};
    ghost use Rattle.retro_ports.specs.declared.piecewise.TheConstants.{MOST_BYTES};

    ghost Value = { Parting };

    ghost view = { λ p. record { claim = p.claim; query = p.query; due = with_first p.first p.others; number = p.number; line = p.line.items; left = p.left; checking = p.checker } };

    ghost invariant = { λ p. Free 10 p.line.items × (p.checker.fed + p.left ≤ MOST_BYTES) × (p.number + length (with_first p.first p.others) ≤ 113) };
}

impl Parts {
    /// A check of the parts due, of which the first comes next.
    pub(crate) fn new(claim: LineClaim, query: Query) -> Parts
        requires { HasParts claim query }
        ensures { (bytes : List ℕ) (a : DossierAnswer) → PartsRemain result bytes a → AnswersParts claim query (parts_due claim query) 1 bytes a }
    {
        let mut others = Due::new(&query, &claim);
        let first = others.next();
        Parts {
            claim,
            query,
            first,
            others,
            number: 1,
            line: ArrayVec::new(),
            left: 0,
            checker: Checker::new(),
        }
    }

    /// Takes the next byte of the line that counts the part's bytes.
    fn take_byte(&mut self, byte: u8) -> Result<(), DossierRefused>
        requires { self.old.left ≡ 0 }
        ensures rest { (bytes : List ℕ) (a : DossierAnswer) → MatchResult result (λ u. PartsRemain self.new bytes a) (λ r. refused_as r ≡ Some a) → PartsRemain self.old (byte ∷ bytes) a }
        ensures told { IfErr result (λ r. IsSome (refused_as r)) }
    {
        let none = DossierRefused::NoPart { part: self.number };
        if self.first.is_none() {
            return Err(none);
        }
        if self.line.is_full() {
            return Err(none);
        }
        self.line.push(byte);
        if byte != b'\n' {
            return Ok(());
        }
        let count = read_count_line(self.line.as_slice());
        self.line.clear();
        let Some(count) = count else {
            return Err(none);
        };
        self.left = count;
        self.checker = Checker::new();
        Ok(())
    }

    /// Judges the part, all of whose bytes came. Then the next one's turn comes.
    fn end_part(&mut self) -> Result<(), DossierRefused>
        requires ended { self.old.left ≡ 0 }
        requires line { self.old.line ≡ [] }
        ensures rest { (bytes : List ℕ) (a : DossierAnswer) → MatchResult result (λ u. PartsRemain self.new bytes a) (λ r. refused_as r ≡ Some a) → InPart self.old.due self.old bytes a }
        ensures told { IfErr result (λ r. IsSome (refused_as r)) }
    {
        let Some(due) = &self.first else {
            return Err(DossierRefused::NoPart { part: self.number });
        };
        judge(self.checker.finish(), due, self.number)?;
        self.first = self.others.next();
        self.number += 1;
        Ok(())
    }

    /// Takes the next bytes of the part.
    fn take_piece(&mut self, piece: &[u8]) -> Result<(), DossierRefused>
        requires within { length piece.now ≤ self.old.left }
        requires some { 0 < self.old.left }
        ensures rest { (bytes : List ℕ) (a : DossierAnswer) → MatchResult result (λ u. PartsRemain self.new bytes a) (λ r. refused_as r ≡ Some a) → PartsRemain self.old (piece.now ++ bytes) a }
        ensures told { IfErr result (λ r. IsSome (refused_as r)) }
    {
        self.checker.feed(piece);
        self.left -= piece.len() as u32;
        if self.left > 0 {
            return Ok(());
        }
        self.line.clear();
        self.end_part()
    }

    /// Takes some bytes from the front of the piece, which isn't empty, and answers how many.
    fn take_some(&mut self, piece: &[u8]) -> Result<usize, DossierRefused>
        requires { 0 < length piece.now }
        ensures some { IfOk result (λ n. 0 < n) }
        ensures within { IfOk result (λ n. n ≤ length piece.now) }
        ensures rest { (bytes : List ℕ) (a : DossierAnswer) → MatchResult result (λ n. PartsRemain self.new (drop n piece.now ++ bytes) a) (λ r. refused_as r ≡ Some a) → PartsRemain self.old (piece.now ++ bytes) a }
        ensures told { IfErr result (λ r. IsSome (refused_as r)) }
    {
        if self.left == 0 {
            self.take_byte(piece[0])?;
            return Ok(1);
        }
        let n = piece.len().min(self.left as usize);
        self.take_piece(&piece[..n])?;
        Ok(n)
    }

    /// Takes the next piece of the bytes, up to the first fault.
    pub(crate) fn feed(&mut self, piece: &[u8]) -> Result<(), DossierRefused>
        ensures rest { (bytes : List ℕ) (a : DossierAnswer) → MatchResult result (λ u. PartsRemain self.new bytes a) (λ r. refused_as r ≡ Some a) → PartsRemain self.old (piece.now ++ bytes) a }
        ensures told { IfErr result (λ r. IsSome (refused_as r)) }
    {
        let mut rest = piece;
        'pieces: while !rest.is_empty() {
            let n = self.take_some(rest)?;
            rest = &rest[n..];
        }
        Ok(())
    }

    /// The answer if no byte follows: the claim, if no part is due any more.
    pub(crate) fn finish(self) -> Result<AcceptedLine, DossierRefused>
        ensures { IsSomeAnd (dossier_answer result) (λ a. PartsRemain self [] a) }
    {
        if self.left > 0 {
            return Err(DossierRefused::NoPart { part: self.number });
        }
        if self.first.is_some() {
            return Err(DossierRefused::NoPart { part: self.number });
        }
        if !self.line.is_empty() {
            return Err(DossierRefused::NoPart { part: self.number });
        }
        Ok(AcceptedLine {
            claim: self.claim,
            query: self.query,
        })
    }
}
