ghost use Rattle.std.specs.Prelude.{◌≡◌, OnErr, OnOk};
ghost use Rattle.std.specs.Io.KnownBytes.{Appends};
ghost use Rattle.std.specs.List.{concat};
ghost use Rattle.cert_text.specs.Certificate.{HasText};
ghost use Rattle.cert_text.specs.SeenCert.{cert_of};
ghost use Rattle.cert_text.specs.Written.{cert_lines};
ghost use Rattle.retro_ports.specs.Causes.{HasCause};
ghost use Rattle.retro_ports.specs.Ends.{TakesPrefix};
ghost use Rattle.command_answers.specs.Unmoves.{unmoves_text};

use crate::certificates::write_certificate;
use crate::statuses::Status;
use crate::unmoves::write_retractions;
use arrayvec::ArrayVec;
use cert_text::Cert;
use query_base::Query;
use retro_ports::{Failed, Sink, write_all};
use std::marker::Model;

/// The text of an answer, seen as its bytes.
#[derive(Drop)]
pub struct Text {
    form: Form,
}

/// How a text is held, or what it is written from line by line.
#[derive(Drop)]
pub enum Form {
    /// One line, made with no memory.
    Line(ArrayVec<u8, 512>),
    /// As much as memory holds.
    Lines(Vec<u8>),
    /// The unmoves of the query, and their number.
    Retractions(Query),
    /// The lines of the certificate, which has a text.
    Certificate(Cert),
}

impl Model for Text {
    ghost use Rattle.std.specs.Prelude.{ℕ, List};
    ghost use Rattle.command_answers.specs.Forms.{IsWritable, bytes_of};

    ghost Value = { List ℕ };

    ghost view = { λ t. bytes_of t.form };

    ghost invariant = { λ t. IsWritable t.form };
}

impl Text {
    /// This line, for which no memory was taken.
    pub fn of_line(line: ArrayVec<u8, 512>) -> Text
        ensures { result ≡ line.items }
    {
        Text {
            form: Form::Line(line),
        }
    }

    /// These lines, which memory holds.
    pub(crate) fn of_lines(lines: Vec<u8>) -> Text
        ensures { result ≡ lines.items }
    {
        Text {
            form: Form::Lines(lines),
        }
    }

    /// A line for each unmove of the query, and their number.
    pub(crate) fn of_unmoves(query: Query) -> Text
        ensures { result ≡ unmoves_text query }
    {
        Text {
            form: Form::Retractions(query),
        }
    }

    /// The one text of the certificate, for which there is one.
    pub(crate) fn of_certificate(cert: Cert) -> Text
        requires { HasText (cert_of cert) }
        ensures { result ≡ concat (cert_lines (cert_of cert)) }
    {
        Text {
            form: Form::Certificate(cert),
        }
    }
}

/// An answer whose text memory holds.
pub fn held(answer: (Status, Vec<u8>)) -> (Status, Text)
    ensures status { result.0 ≡ answer.0 }
    ensures text { result.1 ≡ answer.1.items }
{
    let (status, lines) = answer;
    (status, Text::of_lines(lines))
}

/// Writes the text, retractions and certificates line by line. `Failed` comes at the first write that fails, after a part of the text,
/// from its front on, was taken. Takes no memory.
pub fn write_text<K: Sink>(sink: &mut K, text: &Text) -> Result<(), Failed>
    ensures ok { OnOk result (Appends (K.taken sink.old) (K.taken sink.new) text.now) }
    ensures failed { OnErr result (TakesPrefix (K.taken sink.old) (K.taken sink.new) text.now) }
    ensures cause { HasCause (K.faults sink.old) (K.faults sink.new) result }
{
    match &text.form {
        Form::Line(line) => write_all(sink, line.as_slice()),
        Form::Lines(lines) => write_all(sink, lines.as_slice()),
        Form::Retractions(query) => write_retractions(sink, query),
        Form::Certificate(cert) => write_certificate(sink, cert),
    }
}
