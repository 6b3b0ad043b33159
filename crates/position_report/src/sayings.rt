//! What is said of a position that isn't proved to be illegal.

ghost use Rattle.std.specs.Prelude.{◌≡◌, ◌∷◌, ◌++◌, [], IfOk, cond};
ghost use Rattle.std.specs.List.{flat_map};
ghost use Rattle.query_base.specs.declared.claims.Claim.TheVariants.{Ep, Illegal};
ghost use Rattle.verdict_prose.specs.declared.verdicts.Verdict.TheVariants.{GivenPassing, GivenShown, Shown as IsShown};
ghost use Rattle.position_report.specs.Sayings.{has_last, impossible_of, is_asked, other_of, pair_verdicts, plain_of, proved_of, right_verdicts, settled_of, shown_of, unsettled_text};

use board_base::Move;
use codex_verdict::{Right, claim_of};
use diagram_study::{Finding, Found, PairFound, RightFound, is_open};
use prose_words::say;
use query_base::{Claim, Query};
use std::alloc::{AllocError, Global};
use verdict_prose::Verdict;

/// Whether a last move is demanded.
pub(crate) fn has_last(query: &Query) -> bool
    ensures { result ≡ has_last query.now }
{
    query.only.is_some()
}

/// What is said of a capture en passant that is proved to be legal, by whether a last move is given.
fn passing_of(given: bool, m: Move) -> Verdict
    ensures { result ≡ cond given (GivenPassing m) (IsShown (Ep m)) }
{
    if given {
        Verdict::GivenPassing(m)
    } else {
        Verdict::Shown(Claim::Ep(m))
    }
}

/// What is said of a claim that is proved, by whether a last move is given.
fn proved_of(given: bool, claim: Claim) -> Verdict
    ensures { result ≡ proved_of given claim }
{
    match claim {
        Claim::Illegal => Verdict::Shown(Claim::Illegal),
        Claim::Last(m) => Verdict::Shown(Claim::Last(m)),
        Claim::Lost(castle) => Verdict::Shown(Claim::Lost(castle)),
        Claim::Ep(m) => passing_of(given, m),
    }
}

/// Adds what was found of a claim, if it is settled, by whether a last move is given.
fn add_settled(
    given: bool,
    finding: Finding,
    claim: Claim,
    verdicts: &mut Vec<Verdict>,
) -> Result<(), AllocError>
    ensures { IfOk result (λ _. verdicts.new.items ≡ verdicts.old.items ++ settled_of given finding claim) }
{
    match finding {
        Finding::Proved(_) => verdicts.push(proved_of(given, claim))?,
        Finding::Countered => verdicts.push(Verdict::Countered(claim))?,
        Finding::Open => return Ok(()),
        Finding::Spent => return Ok(()),
    }
    Ok(())
}

/// Whether the right is that of a castling, or that of a capture en passant, as is asked.
pub(crate) fn is_asked(castlings: bool, right: &Right) -> bool
    ensures { result ≡ is_asked castlings right.now }
{
    match right {
        Right::Castling(_) => castlings,
        Right::EnPassant(_) => !castlings,
    }
}

/// Adds what was found of a right, if it is one of those that are asked.
fn add_right(
    castlings: bool,
    given: bool,
    found: &RightFound,
    verdicts: &mut Vec<Verdict>,
) -> Result<(), AllocError>
    ensures { IfOk result (λ _. verdicts.new.items ≡ verdicts.old.items ++ right_verdicts castlings given found.now) }
{
    if is_asked(castlings, &found.right) {
        add_settled(given, found.finding, claim_of(&found.right), verdicts)
    } else {
        Ok(())
    }
}

/// Adds what was found of castlings, or of captures en passant.
fn add_rights(
    castlings: bool,
    given: bool,
    rights: &[RightFound],
    verdicts: &mut Vec<Verdict>,
) -> Result<(), AllocError>
    ensures { IfOk result (λ _. verdicts.new.items ≡ verdicts.old.items ++ flat_map (right_verdicts castlings given) rights.now) }
{
    for found in rights {
        add_right(castlings, given, found, verdicts)?;
    }
    Ok(())
}

/// Adds that two castlings aren't both kept, if it is proved.
fn add_pair(pair: &PairFound, verdicts: &mut Vec<Verdict>) -> Result<(), AllocError>
    ensures { IfOk result (λ _. verdicts.new.items ≡ verdicts.old.items ++ pair_verdicts pair.now) }
{
    if pair.finding.is_proved() {
        // The prover takes a push of verdicts only if the type of their claims is in use.
        let _claim = Claim::Illegal;
        verdicts.push(Verdict::NotBoth(pair.first, pair.second))?;
    }
    Ok(())
}

/// Adds what was found of two castlings each.
fn add_pairs(pairs: &[PairFound], verdicts: &mut Vec<Verdict>) -> Result<(), AllocError>
    ensures { IfOk result (λ _. verdicts.new.items ≡ verdicts.old.items ++ flat_map pair_verdicts pairs.now) }
{
    for pair in pairs {
        add_pair(pair, verdicts)?;
    }
    Ok(())
}

/// Adds that it isn't settled whether a game leads to the position, by what was found of the claim that none does.
pub(crate) fn push_unsettled(finding: Finding, out: &mut Vec<u8>) -> Result<(), AllocError>
    ensures { IfOk result (λ _. out.new.items ≡ out.old.items ++ unsettled_text finding) }
{
    if is_open(finding) {
        say(
            b"Whether a game leads here isn't settled; what is said here holds of every game that does.\n",
            out,
        )
    } else {
        Ok(())
    }
}

/// What is proved, and what games show, in the order of a study.
pub(crate) fn shown_of(
    alloc: Global,
    query: &Query,
    found: &Found,
) -> Result<Vec<Verdict>, AllocError>
    ensures { IfOk result (λ verdicts. verdicts.items ≡ shown_of query.now found.now) }
{
    let given = has_last(query);
    let mut verdicts = Vec::new(alloc);
    add_settled(given, found.illegal.finding, Claim::Illegal, &mut verdicts)?;
    add_rights(true, given, found.rights.as_slice(), &mut verdicts)?;
    add_pairs(found.pairs.as_slice(), &mut verdicts)?;
    add_rights(false, given, found.rights.as_slice(), &mut verdicts)?;
    Ok(verdicts)
}

/// What is said of the other side, of a position that is illegal.
fn other_of(against: Finding) -> Verdict
    ensures { result ≡ other_of against }
{
    match against {
        Finding::Proved(_) => Verdict::OtherShown,
        Finding::Countered => Verdict::OtherCountered,
        Finding::Open => Verdict::OtherUnsettled,
        Finding::Spent => Verdict::OtherUnsettled,
    }
}

/// Adds that the position is illegal, and what is said of the other side.
fn add_turned(against: Finding, verdicts: &mut Vec<Verdict>) -> Result<(), AllocError>
    ensures { IfOk result (λ _. verdicts.new.items ≡ verdicts.old.items ++ (IsShown Illegal ∷ other_of against ∷ [])) }
{
    verdicts.push(Verdict::Shown(Claim::Illegal))?;
    verdicts.push(other_of(against))?;
    Ok(())
}

/// Adds what is said of the position without its demands, if that is settled.
fn add_plain(plain: Finding, verdicts: &mut Vec<Verdict>) -> Result<(), AllocError>
    ensures { IfOk result (λ _. verdicts.new.items ≡ verdicts.old.items ++ plain_of plain) }
{
    let _claim = Claim::Illegal;
    match plain {
        Finding::Proved(_) => verdicts.push(Verdict::PlainShown)?,
        Finding::Countered => verdicts.push(Verdict::PlainCountered)?,
        Finding::Open => return Ok(()),
        Finding::Spent => return Ok(()),
    }
    Ok(())
}

/// Adds that the position is illegal with what is given, and the same.
fn add_given(plain: Finding, verdicts: &mut Vec<Verdict>) -> Result<(), AllocError>
    ensures { IfOk result (λ _. verdicts.new.items ≡ verdicts.old.items ++ (GivenShown ∷ plain_of plain)) }
{
    let _claim = Claim::Illegal;
    verdicts.push(Verdict::GivenShown)?;
    add_plain(plain, verdicts)
}

/// Adds what is said of a position that is illegal.
fn add_impossible(
    against: Finding,
    plain: Option<Finding>,
    verdicts: &mut Vec<Verdict>,
) -> Result<(), AllocError>
    ensures { IfOk result (λ _. verdicts.new.items ≡ verdicts.old.items ++ impossible_of against plain) }
{
    match plain {
        None => add_turned(against, verdicts),
        Some(plain) => add_given(plain, verdicts),
    }
}

/// What is said of a position that is illegal.
pub(crate) fn impossible_of(
    alloc: Global,
    against: Finding,
    plain: Option<Finding>,
) -> Result<Vec<Verdict>, AllocError>
    ensures { IfOk result (λ verdicts. verdicts.items ≡ impossible_of against plain) }
{
    let mut verdicts = Vec::new(alloc);
    add_impossible(against, plain, &mut verdicts)?;
    Ok(verdicts)
}
