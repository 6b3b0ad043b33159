//! The program as a whole: the words of the command line, standard input and output, what is said on standard error, and the status
//! with which it ends.
#![tactic(auto)]

ghost use Rattle.std.specs.Prelude.{◌≡◌, ◌≢◌, ◌≤◌, ◌↔◌, ◌+◌};
ghost use Rattle.std.specs.Io.KnownBytes.{Keeps};
ghost use Rattle.std.specs.Process.{exit_status};
ghost use Rattle.retro_ports.specs.Causes.{Rose};
ghost use Rattle.retro_ports.specs.Ends.{ReadSome};
ghost use Rattle.retro_top.specs.Limits.{most_bytes};
ghost use Rattle.retro_top.specs.Statuses.{IsAnswer, IsSilent, code_of};
ghost use Rattle.retro_top.specs.Status.TheVariants.{BadWords, Memory, ReadFault, TooLong, WriteFault};
ghost use Rattle.retro_top.specs.Answers.{ReadsFor, WritesAnswer, WritesPart};
ghost use Rattle.retro_top.specs.Commands.{Call as Calls, CallReader, CallSome, TakesMemory};
ghost use Rattle.retro_top.specs.declared.commands.Command.{Command};

mod certificates;
mod fens;
mod games;
mod help;
mod hints;
mod inputs;
mod lines;
mod refusals;
mod searches;
mod watching;
mod words;

use crate::help::usage;
use crate::searches::many_nodes;
use crate::watching::{Overheard, Watched};
use crate::words::is_option;
pub use hint_texts::{Advice, FenAdvice, LineAdvice, MoveAdvice, TextAdvice, WordAdvice};
pub use hints::{Hint, advise};
use retro_ports::{Sink, Source, StdSink, StdSource, write_all};
pub use retro_top::{Status, run};
use retro_top::{first_row, parse_words};
use std::alloc::Global;
use std::env::Env;
use std::io::{ErrorKind, IsTerminal};
use std::marker::Model;
use std::process::{ExitCode, Termination};
use std::{env, io};

/// How the program ended, for `main` to return. Only `serve` makes one, and it can't be let go, so `main` can end in no
/// other way.
pub struct Ended {
    status: Status,
    hint: Option<Hint>,
}

impl Model for Ended {
    ghost use Rattle.std.specs.Prelude.{◌≡◌, IfSome};
    ghost use Rattle.retro_top.specs.Status.{Status};
    ghost use Rattle.front_door.specs.Hints.{status_of};

    ghost Value = { Status };

    ghost view = { λ e. e.status };

    // A hint is kept only with the status with which it goes: bad words, bad input, or a refused text.
    ghost invariant = { λ e. IfSome e.hint (λ hint. e.status ≡ status_of hint.advice) };
}

impl Termination for Ended {
    /// Says on standard error what was expected, or why no answer, or a part of one, was written, if that is so; the line may
    /// fail to come. The process then ends with the number of the status.
    fn report<R: Eprint>(self, rt: &R) -> ExitCode
        ensures { exit_status result ≡ code_of self }
    {
        let Ended { status, hint } = self;
        if let Some(hint) = hint {
            say_hint(rt, hint);
        }
        if let Some(line) = failure(status) {
            let _ = eprintln!(rt; "retractor: {line}");
        }
        status.exit_code()
    }
}

/// What stands before the mark in the text; all of it if there is none.
fn before(text: &'static str, mark: &str) -> &'static str {
    match text.split_once(mark) {
        Some((front, _)) => front,
        None => text,
    }
}

/// Says the hint on standard error, in one line.
fn say_hint<R: Eprint>(rt: &R, hint: Hint) {
    let text = hint.advice.text();
    let _ = match hint.call {
        Some(row) if hint.is_piped() => {
            let call = before(before(row.line, " <"), " [");
            eprintln!(rt; "retractor: {text} | retractor {call}")
        }
        Some(row) => {
            let line = row.line;
            eprintln!(rt; "retractor: {text}: retractor {line}")
        }
        None => eprintln!(rt; "retractor: {text}"),
    };
}

/// Why no answer, or a part of one, was written, if something failed.
fn failure(status: Status) -> Option<&'static str> {
    match status {
        Status::ReadFault => Some("reading the input failed"),
        Status::WriteFault => Some("writing the answer failed"),
        Status::Memory => Some("not enough memory"),
        Status::TooLong => Some("the input has more than 67108864 bytes"),
        Status::Done
        | Status::Refused
        | Status::Undecided
        | Status::Spent
        | Status::Countered
        | Status::BadWords
        | Status::BadInput => None,
    }
}

/// The name of the program, and its version.
const VERSION: &str = "retractor 1.1\n";

/// Writes a text that answers `--help` or `--version`.
fn tell<K: Sink>(sink: &mut K, text: &str) -> Status {
    match write_all(sink, text.as_bytes()) {
        Ok(()) => Status::Done,
        Err(_) => Status::WriteFault,
    }
}

/// Answers `--help` or `--version`.
fn tell_option<R: Print + AllocGlobal>(rt: &R, word: &str) -> Status {
    let mut sink = StdSink::new(io::writer(rt));
    if word == "--version" {
        return tell(&mut sink, VERSION);
    }
    match usage(rt.alloc()) {
        Ok(text) => tell(&mut sink, text.as_str()),
        Err(_) => Status::Memory,
    }
}

/// Says on standard error what the command that these words call waits for, if it reads from a terminal.
fn say_what_is_due<E: Eprint, T: IsTerminal>(err: &E, words: &[String], input: &T) {
    let Some(row) = first_row(words) else {
        return;
    };
    if row.reads() && parse_words(words).is_ok() && input.is_terminal() {
        let line = row.line;
        let _ = eprintln!(err;
            "retractor: reading from the terminal, to the end of the input (Ctrl-D): retractor {line}"
        );
    }
}

/// Says on standard error, if that is a terminal, how far each search goes that these words ask for, if a user may wait for it.
fn say_how_far<E: Eprint + IsTerminal>(err: &E, words: &[String]) {
    let Some(nodes) = many_nodes(words) else {
        return;
    };
    if err.is_terminal() {
        let _ = eprintln!(err;
            "retractor: searching up to {nodes} positions at a time; Ctrl-C ends it"
        );
    }
}

/// Does what the words ask, as `run` does it, and ends with its status, beside the hint that is due.
fn end_of<S: Source, K: Sink>(
    alloc: Global,
    words: &[String],
    source: &mut Watched<S>,
    sink: &mut Overheard<K>,
) -> Ended
    // Words that call no command are told if and only if they do, and nothing is read then.
    ensures bad_words { (result ≡ BadWords) ↔ (CallSome words.now → ⊥) }
    ensures unread { (CallReader words.now → ⊥) →
        Keeps (S.left source.old.inner) (S.left source.new.inner)
        × (S.faults source.new.inner ≡ S.faults source.old.inner) }

    // A fault is told if and only if one came.
    ensures read_fault { result ≡ ReadFault →
        CallReader words.now × Rose (S.faults source.old.inner) (S.faults source.new.inner) }
    ensures write_fault { result ≡ WriteFault →
        Rose (K.faults sink.old.inner) (K.faults sink.new.inner) }
    ensures read_kept { result ≢ ReadFault → S.faults source.new.inner ≡ S.faults source.old.inner }
    ensures write_kept { result ≢ WriteFault → K.faults sink.new.inner ≡ K.faults sink.old.inner }

    // Too long an input is told only if more was read than the limit, and want of memory only if no more was, and never of
    // a command that takes none.
    ensures too_long { result ≡ TooLong →
        CallReader words.now
        × ReadSome (S.left source.old.inner) (S.left source.new.inner) (λ n. n ≡ most_bytes + 1) }
    ensures wanting { result ≡ Memory →
        ReadSome (S.left source.old.inner) (S.left source.new.inner) (λ n. n ≤ most_bytes) }
    ensures remembers { (command : Command) → Calls words.now command → (TakesMemory command → ⊥) →
        result ≢ Memory }

    // The status and the text that was written answer what was read, and without an answer nothing is written, or a part of one.
    ensures silent { IsSilent result → Keeps (K.taken sink.old.inner) (K.taken sink.new.inner) }
    ensures answer { IsAnswer result → ReadsFor words.now most_bytes (S.left source.old.inner) (S.left source.new.inner)
        (λ input. WritesAnswer words.now input result (K.taken sink.old.inner) (K.taken sink.new.inner)) }
    ensures cut_short { result ≡ WriteFault → ReadsFor words.now most_bytes (S.left source.old.inner) (S.left source.new.inner)
        (λ input. WritesPart words.now input (K.taken sink.old.inner) (K.taken sink.new.inner)) }
{
    let status = run(alloc, words, source, sink);
    let hint = advise(alloc, words, source.front(), status, sink.front());
    Ended { status, hint }
}

/// Does what the words ask, from standard input to standard output.
fn answer<R, E>(rt: &R, err: &E, words: &[String]) -> Ended
where
    R: Input + Print + AllocGlobal,
    R::Reader: IsTerminal,
    E: Eprint + IsTerminal,
{
    let reader = rt.reader();
    say_what_is_due(err, words, &reader);
    say_how_far(err, words);
    let mut source = Watched::new(StdSource::new(reader));
    let mut sink = Overheard::new(StdSink::new(io::writer(rt)));
    end_of(rt.alloc(), words, &mut source, &mut sink)
}

/// The end of a run that began with no words.
fn wordless(status: Status) -> Ended {
    let hint = match status {
        Status::BadWords => Some(Hint::plain(Advice::Words(WordAdvice::NotUtf8))),
        _ => None,
    };
    Ended { status, hint }
}

/// The words of the command line but the first, which is the program's name: bad words if one isn't UTF-8, want of memory if
/// they find none.
fn words_of<R: Env + AllocGlobal>(rt: &R) -> Result<Vec<String>, Status> {
    let mut args = match env::args(rt) {
        Ok(args) => args,
        Err(e) if e.kind() == ErrorKind::OutOfMemory => return Err(Status::Memory),
        Err(_) => return Err(Status::BadWords),
    };
    let _ = args.next();
    match args.collect::<Vec<String>>(rt.alloc()) {
        Ok(words) => Ok(words),
        Err(_) => Err(Status::Memory),
    }
}

/// Does what the words of the command line ask, as `run` does it, from standard input to standard output; or writes the usage or the
/// version, if `--help` or `--version` is the only word. A word that isn't UTF-8 makes the words bad. Before the input is read, a line
/// on standard error says so if it comes from a terminal, and another says how far a long search goes if standard error is one. No clause
/// can name what the system gives, so none says which status comes.
pub fn serve<R, E>(rt: &R, err: &E) -> Ended
where
    R: Env + Input + Print + AllocGlobal,
    R::Reader: IsTerminal,
    E: Eprint + IsTerminal,
{
    let words = match words_of(rt) {
        Ok(words) => words,
        Err(status) => return wordless(status),
    };
    match words.as_slice() {
        [word] if is_option(word.as_str()) => Ended {
            status: tell_option(rt, word.as_str()),
            hint: None,
        },
        _ => answer(rt, err, words.as_slice()),
    }
}
