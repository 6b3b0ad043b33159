//! The lines that tell what was found of a claim.

ghost use Rattle.std.specs.Prelude.{◌≡◌, ◌≤◌, ◌++◌, ◌∷◌, IfSome, IsTrue, OnOk, drop, length};
ghost use Rattle.std.specs.Fmt.{decimal};
ghost use Rattle.std.specs.List.{All};
ghost use Rattle.board_base.specs.Texts.{unmove_text, unmove_words};
ghost use Rattle.cert_text.specs.ClaimLines.{claim_words, promotes_well};
ghost use Rattle.line_claims.specs.Lines.{HasLine, has_text};
ghost use Rattle.claim_findings.specs.Lines.{decided_lines, decided_steps, finding_words, found_line, steps_line, steps_words, stuck_line};

use crate::findings::Finding;
use arrayvec::ArrayVec;
use board_base::{Unmove, UnmoveList, write_unmove};
use cert_text::write_claim;
use itoa::Buffer;
use line_claims::{LineClaim, write_line_claim};
use query_base::Claim;
use std::alloc::AllocError;

/// Adds a number.
pub fn push_number(text: &mut Vec<u8>, number: u32) -> Result<(), AllocError>
    ensures { OnOk result (text.new.items ≡ text.old.items ++ decimal number) }
{
    let mut digits = Buffer::new();
    text.extend_from_slice(digits.format(number).as_bytes())
}

/// Adds what was found, before the claim.
fn push_finding(text: &mut Vec<u8>, finding: Finding) -> Result<(), AllocError>
    ensures { OnOk result (text.new.items ≡ text.old.items ++ finding_words finding) }
{
    match finding {
        Finding::Proved(depth) => {
            text.extend_from_slice(b"proved ")?;
            push_number(text, u32::from(depth))?;
            text.extend_from_slice(b" ")
        }
        Finding::Countered => text.extend_from_slice(b"countered "),
        Finding::Open => text.extend_from_slice(b"open "),
        Finding::Spent => text.extend_from_slice(b"spent "),
    }
}

/// What the text of a claim says after `claim `.
fn words_of_claim(text: &[u8]) -> &[u8]
    requires { 6 ≤ length text.now }
    ensures { result.now ≡ drop 6 text.now }
{
    &text[6..]
}

/// Adds what is claimed.
fn push_claim(text: &mut Vec<u8>, claim: &Claim) -> Result<(), AllocError>
    requires { IsTrue (promotes_well claim.now) }
    ensures { OnOk result (text.new.items ≡ text.old.items ++ claim_words claim.now) }
{
    let mut line: ArrayVec<u8, 128> = ArrayVec::new();
    write_claim(claim, &mut line);
    text.extend_from_slice(words_of_claim(line.as_slice()))
}

/// Adds the line that tells what was found of a claim.
pub fn push_found(text: &mut Vec<u8>, finding: Finding, claim: &Claim) -> Result<(), AllocError>
    requires { IsTrue (promotes_well claim.now) }
    ensures { OnOk result (text.new.items ≡ text.old.items ++ found_line finding claim.now) }
{
    push_finding(text, finding)?;
    push_claim(text, claim)?;
    text.extend_from_slice(b"\n")
}

/// Adds what a claim of several steps says.
fn push_line_claim(text: &mut Vec<u8>, claim: &LineClaim) -> Result<(), AllocError>
    requires { HasLine claim.now }
    ensures { OnOk result (text.new.items ≡ text.old.items ++ steps_words claim.now) }
{
    let mut line: ArrayVec<u8, 160> = ArrayVec::new();
    write_line_claim(claim, &mut line);
    text.extend_from_slice(words_of_claim(line.as_slice()))
}

/// Adds the line that tells what was found of a claim of several steps.
pub fn push_steps(text: &mut Vec<u8>, finding: Finding, claim: &LineClaim) -> Result<(), AllocError>
    requires { HasLine claim.now }
    ensures { OnOk result (text.new.items ≡ text.old.items ++ steps_line finding claim.now) }
{
    push_finding(text, finding)?;
    push_line_claim(text, claim)?;
    text.extend_from_slice(b"\n")
}

/// Adds a space and the unmove.
fn push_unmove(text: &mut Vec<u8>, u: &Unmove) -> Result<(), AllocError>
    requires { IsTrue (has_text u.now) }
    ensures { OnOk result (text.new.items ≡ text.old.items ++ 32 ∷ unmove_text u.now) }
{
    let mut name: ArrayVec<u8, 8> = ArrayVec::new();
    write_unmove(u, &mut name);
    text.extend_from_slice(b" ")?;
    text.extend_from_slice(name.as_slice())
}

/// Adds each unmove after a space.
pub fn push_unmoves(text: &mut Vec<u8>, left: &UnmoveList) -> Result<(), AllocError>
    requires { All (λ u. IsTrue (has_text u)) left.now }
    ensures { OnOk result (text.new.items ≡ text.old.items ++ unmove_words left.now) }
{
    for i in 0..left.len() {
        push_unmove(text, &left.get(i).unwrap())?;
    }
    Ok(())
}

/// Adds the line of an open claim, of the text of whose lines this is what the words say: the retractions that are told, if there are any.
fn push_stuck(
    text: &mut Vec<u8>,
    words: &[u8],
    stuck: &Option<UnmoveList>,
) -> Result<(), AllocError>
    requires { IfSome stuck.now (All (λ u. IsTrue (has_text u))) }
    ensures { OnOk result (text.new.items ≡ text.old.items ++ stuck_line words.now stuck.now) }
{
    match stuck {
        Some(front) => {
            text.extend_from_slice(b"stuck ")?;
            text.extend_from_slice(words)?;
            push_unmoves(text, front)?;
            text.extend_from_slice(b"\n")
        }
        None => Ok(()),
    }
}

/// Adds the lines that tell what was found of a claim.
pub fn push_decided(
    text: &mut Vec<u8>,
    finding: Finding,
    stuck: &Option<UnmoveList>,
    claim: &Claim,
) -> Result<(), AllocError>
    requires promotion { IsTrue (promotes_well claim.now) }
    requires texts { IfSome stuck.now (All (λ u. IsTrue (has_text u))) }
    ensures { OnOk result (text.new.items ≡ text.old.items
        ++ decided_lines finding stuck.now claim.now) }
{
    let mut line: ArrayVec<u8, 128> = ArrayVec::new();
    write_claim(claim, &mut line);
    push_found(text, finding, claim)?;
    push_stuck(text, words_of_claim(line.as_slice()), stuck)
}

/// Adds the lines that tell what was found of a claim of several steps.
pub fn push_decided_steps(
    text: &mut Vec<u8>,
    finding: Finding,
    stuck: &Option<UnmoveList>,
    claim: &LineClaim,
) -> Result<(), AllocError>
    requires line { HasLine claim.now }
    requires texts { IfSome stuck.now (All (λ u. IsTrue (has_text u))) }
    ensures { OnOk result (text.new.items ≡ text.old.items
        ++ decided_steps finding stuck.now claim.now) }
{
    let mut line: ArrayVec<u8, 160> = ArrayVec::new();
    write_line_claim(claim, &mut line);
    push_steps(text, finding, claim)?;
    push_stuck(text, words_of_claim(line.as_slice()), stuck)
}
