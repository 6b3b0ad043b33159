//! The parts of a dossier, one after another.

ghost use Rattle.std.specs.Prelude.{◌≡◌, ◌↔◌, ◌++◌, ℕ, IfOk, IsTrue, List, None, codes, length, map};
ghost use Rattle.std.specs.Fmt.{decimal};
ghost use Rattle.std.specs.List.{All};
ghost use Rattle.cert_checker.specs.Proving.{ProvesClaim};
ghost use Rattle.cert_text.specs.SeenCert.{cert_of};
ghost use Rattle.dossier_prose.specs.Parts.{IsDrawn, TellParts, TellsPart, excluded_words, going_words, heading, last_words, named_by, other_words, part_words, squares_words, step_words, taken_words, victim_words};
ghost use Rattle.prose_words.specs.Words.{kind_word};

use board_base::{Kind, Man, Move};
use cert_text::Cert;
use line_claims::LineClaim;
use proof_prose::{draw, retell};
use prose_words::{kind_word, push_number, push_square, say};
use query_base::{Claim, Query};
use std::alloc::{AllocError, Global};

/// From which square a move went to which.
fn push_squares(m: &Move, out: &mut Vec<u8>) -> Result<(), AllocError>
    ensures { IfOk result (λ _. out.new.items ≡ out.old.items ++ squares_words m.now) }
{
    say(b"from ", out)?;
    push_square(m.from, out)?;
    say(b" to ", out)?;
    push_square(m.to, out)
}

/// That these words' move went so.
fn push_going(words: &[u8], m: &Move, out: &mut Vec<u8>) -> Result<(), AllocError>
    ensures { IfOk result (λ _. out.new.items ≡ out.old.items ++ going_words words.now m.now) }
{
    say(words, out)?;
    say(b" went ", out)?;
    push_squares(m, out)?;
    say(b".", out)
}

/// A man of this kind.
fn push_kind(kind: Kind, out: &mut Vec<u8>) -> Result<(), AllocError>
    ensures { IfOk result (λ _. out.new.items ≡ out.old.items ++ (codes "a " ++ kind_word kind)) }
{
    say(b"a ", out)?;
    say(kind_word(kind), out)
}

/// What a move captured that found this on its target.
fn push_victim(place: Option<Man>, out: &mut Vec<u8>) -> Result<(), AllocError>
    ensures { IfOk result (λ _. out.new.items ≡ out.old.items ++ victim_words place) }
{
    match place {
        None => say(b"nothing", out),
        Some(man) => push_kind(man.kind, out),
    }
}

/// The same; en passant, if the move answered a double step.
fn push_taken(double: Option<Move>, place: Option<Man>, out: &mut Vec<u8>) -> Result<(), AllocError>
    ensures { IfOk result (λ _. out.new.items ≡ out.old.items ++ taken_words double place) }
{
    match double {
        None => push_victim(place, out),
        Some(_) => say(b"en passant", out),
    }
}

/// What the move would have left if it had captured otherwise: with this on its target, after this double step if one is given.
fn push_other(
    m: &Move,
    double: Option<Move>,
    place: Option<Man>,
    out: &mut Vec<u8>,
) -> Result<(), AllocError>
    ensures { IfOk result (λ _. out.new.items ≡ out.old.items ++ other_words m.now double place) }
{
    say(b"had the move ", out)?;
    push_squares(m, out)?;
    say(b" captured ", out)?;
    push_taken(double, place, out)?;
    say(b", it would have left this:", out)
}

/// What a part shows that excludes a retraction of the named move.
fn push_excluded(named: &Option<Move>, part: &Query, out: &mut Vec<u8>) -> Result<(), AllocError>
    ensures { IfOk result (λ _. out.new.items ≡ out.old.items ++ excluded_words named.now part.now) }
{
    match named {
        None => say(b"what can't have stood before:", out),
        Some(m) => push_other(m, part.only, part.board.at(m.to), out),
    }
}

/// What a part shows about a last move.
fn push_last(named: &Option<Move>, m: &Move, out: &mut Vec<u8>) -> Result<(), AllocError>
    ensures { IfOk result (λ _. out.new.items ≡ out.old.items ++ last_words named.now m.now) }
{
    match named {
        None => push_going(b"the last move", m, out),
        Some(_) => push_going(b"the move before", m, out),
    }
}

/// What a part of a claim of last moves shows.
fn push_step(
    named: &Option<Move>,
    claim: &Claim,
    part: &Query,
    out: &mut Vec<u8>,
) -> Result<(), AllocError>
    ensures { IfOk result (λ _. out.new.items ≡ out.old.items ++ step_words named.now claim.now part.now) }
{
    match claim {
        Claim::Last(m) => push_last(named, m, out),
        _ => push_excluded(named, part, out),
    }
}

/// The move that is named behind a part.
fn named_by(named: Option<Move>, claim: &Claim) -> Option<Move>
    ensures { result ≡ named_by named claim.now }
{
    match claim {
        Claim::Last(m) => Some(*m),
        _ => named,
    }
}

/// What a part shows.
fn push_words(
    line: &LineClaim,
    named: &Option<Move>,
    claim: &Claim,
    part: &Query,
    out: &mut Vec<u8>,
) -> Result<(), AllocError>
    ensures { IfOk result (λ _. out.new.items ≡ out.old.items ++ part_words line.now named.now claim.now part.now) }
{
    match line {
        LineClaim::NotBoth(_, _) => say(b"suppose that both rights are kept.", out),
        LineClaim::Line(_) => push_step(named, claim, part, out),
    }
}

/// The number of a part, of so many, after an empty row.
fn push_place(count: usize, number: usize, out: &mut Vec<u8>) -> Result<(), AllocError>
    ensures { IfOk result (λ _. out.new.items ≡ out.old.items ++ (codes "\nPart " ++ decimal number ++ codes " of " ++ decimal count ++ codes ": ")) }
{
    say(b"\nPart ", out)?;
    push_number(number, out)?;
    say(b" of ", out)?;
    push_number(count, out)?;
    say(b": ", out)
}

/// The row above a part, after an empty one.
fn push_heading(
    line: &LineClaim,
    count: usize,
    number: usize,
    named: &Option<Move>,
    cert: &Cert,
    out: &mut Vec<u8>,
) -> Result<(), AllocError>
    ensures { IfOk result (λ _. out.new.items ≡ out.old.items ++ heading line.now count number named.now (cert_of cert.now).claim (cert_of cert.now).query) }
{
    push_place(count, number, out)?;
    push_words(line, named, &cert.claim, &cert.query, out)?;
    say(b"\n", out)
}

/// Whether both are the same query.
fn is_same(a: &Query, b: &Query) -> bool
    ensures { IsTrue result ↔ (a.now ≡ b.now) }
{
    a == b
}

/// The diagram of a part, if it isn't that of the dossier.
fn push_drawing(
    alloc: Global,
    query: &Query,
    part: &Query,
    out: &mut Vec<u8>,
) -> Result<(), AllocError>
    ensures { IfOk result (λ _. (shown : List ℕ) × IsDrawn query.now part.now shown × (out.new.items ≡ out.old.items ++ shown)) }
{
    if is_same(part, query) {
        Ok(())
    } else {
        draw(alloc, part, out)
    }
}

/// A part: what it shows, its diagram, and its proof.
fn push_part(
    alloc: Global,
    line: &LineClaim,
    query: &Query,
    count: usize,
    number: usize,
    named: &Option<Move>,
    cert: &Cert,
    out: &mut Vec<u8>,
) -> Result<(), AllocError>
    requires { ProvesClaim (cert_of cert.now) }
    ensures { IfOk result (λ _. (text : List ℕ) × TellsPart line.now query.now count number named.now (cert_of cert.now) text × (out.new.items ≡ out.old.items ++ text)) }
{
    let proof = retell(alloc, cert)?;
    push_heading(line, count, number, named, cert, out)?;
    push_drawing(alloc, query, &cert.query, out)?;
    say(proof.as_slice(), out)?;
    Ok(())
}

/// All parts, one after another.
pub(crate) fn push_parts(
    alloc: Global,
    line: &LineClaim,
    query: &Query,
    certs: &[Cert],
    out: &mut Vec<u8>,
) -> Result<(), AllocError>
    requires { All ProvesClaim (map cert_of certs.now) }
    ensures { IfOk result (λ _. (text : List ℕ) × TellParts line.now query.now (length certs.now) 1 None (map cert_of certs.now) text × (out.new.items ≡ out.old.items ++ text)) }
{
    let mut named: Option<Move> = None;
    for i in 0..certs.len() {
        let cert = &certs[i];
        push_part(alloc, line, query, certs.len(), i + 1, &named, cert, out)?;
        named = named_by(named, &cert.claim);
    }
    Ok(())
}
