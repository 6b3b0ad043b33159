ghost use Rattle.std.specs.Prelude.{◌≡◌, ◌≤◌, IfOk, length};
ghost use Rattle.std.specs.List.{starts_with};
ghost use Rattle.command_answers.specs.Limits.{most_bytes};
ghost use Rattle.command_answers.specs.Explains.{AnswersAsCertificate, AnswersAsDossier, AnswersAsLength, AnswersExplain, format_of};

use crate::checks::word;
use crate::statuses::Status;
use crate::texts::Text;
use crate::told::{
    no_head, part_line_refusal, part_refusal, refusal, refused_step, unlisted, unlisted_in,
    unsupported,
};
use cert_checker::{Refused, read_proof, unlisted_have_texts};
use dossier_checker::{DossierRefused, read_dossier, unlisted_in_parts_have_texts};
use dossier_prose::{explain_dossier, explain_length};
use length_bound::{LengthRefused, read_shown_length};
use position_report::explain;
use std::alloc::{AllocError, Global};

/// What the first line of a proof says that it is.
#[derive(Clone, Copy, PartialEq, Eq, Debug)]
pub enum ProofFormat {
    /// A dossier.
    Dossier,
    /// The text of a length.
    Length,
    /// A certificate; also what names no format.
    Certificate,
}

/// What the first line of the bytes says that they are.
#[tactic(auto, unfolding(crate::specs::Explains::format_of))]
fn format_of(input: &[u8]) -> ProofFormat
    ensures { result ≡ format_of input.now }
{
    if input.starts_with(b"retro line 1\n") {
        ProofFormat::Dossier
    } else if input.starts_with(b"retro length 1\n") {
        ProofFormat::Length
    } else {
        ProofFormat::Certificate
    }
}

/// The answer to bytes that are to be a certificate.
fn answer_certificate(alloc: Global, input: &[u8]) -> Result<(Status, Text), AllocError>
    requires { length input.now ≤ most_bytes }
    ensures { IfOk result (λ a. AnswersAsCertificate input.now a.0 a.1) }
{
    unlisted_have_texts();
    match read_proof(alloc, input) {
        Ok(cert) => Ok((Status::Done, Text::of_lines(explain(alloc, &cert)?))),
        Err(Refused::BadText { line }) => {
            Ok((Status::Refused, Text::of_line(refusal(line, b"text"))))
        }
        Err(Refused::Unlisted { line, unmove }) => {
            Ok((Status::Refused, Text::of_line(unlisted(line, &unmove))))
        }
        Err(Refused::Unsupported { line, why }) => {
            Ok((Status::Refused, Text::of_line(refusal(line, word(why)))))
        }
        Err(Refused::Memory) => Err(AllocError),
    }
}

/// The answer to bytes that are to be a dossier.
fn answer_dossier_text(alloc: Global, input: &[u8]) -> Result<(Status, Text), AllocError>
    requires { length input.now ≤ most_bytes }
    ensures { IfOk result (λ a. AnswersAsDossier input.now a.0 a.1) }
{
    unlisted_in_parts_have_texts();
    match read_dossier(alloc, input)? {
        Ok(line) => Ok((Status::Done, Text::of_lines(explain_dossier(alloc, &line)?))),
        Err(DossierRefused::Head) => Ok((Status::Refused, Text::of_line(no_head()))),
        Err(DossierRefused::UnlistedStep { step }) => {
            Ok((Status::Refused, Text::of_line(refused_step(step))))
        }
        Err(DossierRefused::NoPart { part }) => {
            Ok((Status::Refused, Text::of_line(part_refusal(part, b"text"))))
        }
        Err(DossierRefused::BadText { part, line }) => Ok((
            Status::Refused,
            Text::of_line(part_line_refusal(part, line, b"text")),
        )),
        Err(DossierRefused::Unlisted { part, line, unmove }) => Ok((
            Status::Refused,
            Text::of_line(unlisted_in(part, line, &unmove)),
        )),
        Err(DossierRefused::Unsupported { part, line, why }) => Ok((
            Status::Refused,
            Text::of_line(part_line_refusal(part, line, word(why))),
        )),
        Err(DossierRefused::Other { part }) => {
            Ok((Status::Refused, Text::of_line(part_refusal(part, b"other"))))
        }
        Err(DossierRefused::TooLong) => unreachable!(),
        Err(DossierRefused::ReadFault) => unreachable!(),
    }
}

/// The answer to bytes that are to be the text of a length.
fn answer_length_text(alloc: Global, input: &[u8]) -> Result<(Status, Text), AllocError>
    ensures { IfOk result (λ a. AnswersAsLength input.now a.0 a.1) }
{
    match read_shown_length(input) {
        Ok(said) => Ok((Status::Done, Text::of_lines(explain_length(alloc, &said)?))),
        Err(LengthRefused::BadText { line }) => {
            Ok((Status::Refused, Text::of_line(refusal(line, b"text"))))
        }
        Err(LengthRefused::Unsupported) => Ok((Status::Refused, Text::of_line(unsupported()))),
        Err(LengthRefused::TooLong) => unreachable!(),
        Err(LengthRefused::ReadFault) => unreachable!(),
    }
}

/// The status and the text with which `explain` answers these bytes.
pub fn answer_explain(alloc: Global, input: &[u8]) -> Result<(Status, Text), AllocError>
    requires { length input.now ≤ most_bytes }
    ensures { IfOk result (λ a. AnswersExplain input.now a.0 a.1) }
{
    match format_of(input) {
        ProofFormat::Dossier => answer_dossier_text(alloc, input),
        ProofFormat::Length => answer_length_text(alloc, input),
        ProofFormat::Certificate => answer_certificate(alloc, input),
    }
}
