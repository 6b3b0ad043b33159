//! The program as a whole on a system that is made up: the status with which it ends, and what it says on standard error then.

use front_door::serve;
use std::alloc::{Allocator, Global};
use std::cell::Cell;
use std::env::{Env, FillError};
use std::fmt::Display;
use std::io;
use std::io::{BufRead, ErrorKind, IsTerminal, Lines, Read};
use std::process::{ExitCode, Termination};

/// A system with these words and this input.
#[derive(Clone, Copy)]
struct Desk {
    words: &'static [&'static [u8]],
    input: &'static [u8],
    reads_fail: bool,
    /// A write fails that doesn't begin so, and each if there is None.
    begins: Option<&'static [u8]>,
}

/// A system on which nothing fails.
fn working(words: &'static [&'static [u8]], input: &'static [u8]) -> Desk {
    Desk {
        words,
        input,
        reads_fail: false,
        begins: Some(b""),
    }
}

/// A system whose reads fail.
fn unreadable(words: &'static [&'static [u8]]) -> Desk {
    Desk {
        words,
        input: b"",
        reads_fail: true,
        begins: Some(b""),
    }
}

/// A system whose writes fail but for one that begins so, if that is said.
fn beginning(
    words: &'static [&'static [u8]],
    input: &'static [u8],
    begins: Option<&'static [u8]>,
) -> Desk {
    Desk {
        words,
        input,
        reads_fail: false,
        begins,
    }
}

/// The input of a desk.
#[derive(Drop)]
struct Given {
    left: &'static [u8],
    fails: bool,
}

impl Read for Given {
    fn read(&mut self, buf: &mut [u8]) -> io::Result<usize> {
        if self.fails {
            return Err(ErrorKind::Other.into());
        }
        let n = buf.len().min(self.left.len());
        buf[..n].copy_from_slice(&self.left[..n]);
        self.left = &self.left[n..];
        Ok(n)
    }
}

impl BufRead for Given {
    fn fill_buf(&mut self) -> io::Result<&[u8]> {
        Ok(self.left)
    }

    fn consume(&mut self, amount: usize) {
        let n = amount.min(self.left.len());
        self.left = &self.left[n..];
    }
}

impl IsTerminal for Given {
    fn is_terminal(&self) -> bool {
        false
    }
}

impl Input for Desk {
    type Reader = Given;

    fn read_line<A: Allocator + Clone>(&self, buf: &mut String<A>) -> io::Result<usize> {
        self.reader().read_line(buf)
    }

    fn lines<A: Allocator>(&self, alloc: A) -> Lines<Given, A> {
        self.reader().lines(alloc)
    }

    fn reader(&self) -> Given {
        Given {
            left: self.input,
            fails: self.reads_fail,
        }
    }
}

impl Env for Desk {
    fn arg(&self, i: usize, buf: &mut [u8]) -> Result<usize, FillError> {
        let Some(word) = self.words.get(i) else {
            return Err(FillError::NotPresent);
        };
        if word.len() > buf.len() {
            return Err(FillError::TooLong);
        }
        buf[..word.len()].copy_from_slice(word);
        Ok(word.len())
    }

    fn var(&self, _name: &str, _buf: &mut [u8]) -> Result<usize, FillError> {
        Err(FillError::NotPresent)
    }

    fn var_at(&self, _i: usize, _buf: &mut [u8]) -> Result<usize, FillError> {
        Err(FillError::NotPresent)
    }
}

impl Print for Desk {
    fn print<D: Display + Drop>(&self, value: D) -> io::Result<()> {
        drop(value);
        self.write_all(b"")
    }

    fn println<D: Display + Drop>(&self, value: D) -> io::Result<()> {
        self.print(value)
    }

    fn write_all(&self, bytes: &[u8]) -> io::Result<()> {
        match self.begins {
            Some(begins) if bytes.starts_with(begins) => Ok(()),
            _ => Err(ErrorKind::Other.into()),
        }
    }
}

/// Where standard error goes: how many lines were the one that is wanted, and how many others.
#[derive(Drop)]
struct Ears {
    alloc: Global,
    wanted: &'static str,
    terminal: bool,
    heard: Cell<u32>,
    others: Cell<u32>,
}

impl Ears {
    fn new(alloc: Global, wanted: &'static str, terminal: bool) -> Ears {
        Ears {
            alloc,
            wanted,
            terminal,
            heard: Cell::new(0),
            others: Cell::new(0),
        }
    }
}

impl IsTerminal for Ears {
    fn is_terminal(&self) -> bool {
        self.terminal
    }
}

impl Eprint for Ears {
    fn eprint<D: Display + Drop>(&self, value: D) -> io::Result<()> {
        drop(value);
        self.others.set(self.others.get().wrapping_add(1));
        Ok(())
    }

    fn eprintln<D: Display + Drop>(&self, value: D) -> io::Result<()> {
        let line = format!(in self.alloc; "{value}");
        match line {
            Ok(line) if line.as_str() == self.wanted => {
                self.heard.set(self.heard.get().wrapping_add(1));
            }
            _ => self.others.set(self.others.get().wrapping_add(1)),
        }
        Ok(())
    }
}

const CHECK: &[&[u8]] = &[b"retractor", b"check"];

const KINGLESS: &[u8] = b"retro 1\nclaim illegal\nfen 8/8/8/8/8/8/8/8 w - -\nroot rule kings\n";

/// A claim that one move back doesn't settle, and one that a game of no moves contradicts.
const TWO_KINGS: &[u8] = b"claim illegal\n4k3/8/8/8/8/8/8/4K3 w - -\n";

const ARRAY: &[u8] = b"claim illegal\nrnbqkbnr/pppppppp/8/8/8/8/PPPPPPPP/RNBQKBNR w KQkq -\n";

const HELP: &[&[u8]] = &[b"retractor", b"--help"];

const VERSION: &[&[u8]] = &[b"retractor", b"--version"];

const SOLVE: &[&[u8]] = &[b"retractor", b"solve", b"1", b"100"];

const SOLVE_BY_ONE_NODE: &[&[u8]] = &[b"retractor", b"solve", b"1", b"1"];

/// What `--help` writes begins as the usage does, and what `--version` writes with the name and the version.
#[test]
fn ends_with_the_number_of_the_status(rt: HostRuntime) {
    for (desk, want) in [
        (working(CHECK, KINGLESS), 0),
        (working(CHECK, b"retro 1\n"), 1),
        (working(SOLVE, TWO_KINGS), 2),
        (working(SOLVE_BY_ONE_NODE, TWO_KINGS), 3),
        (working(SOLVE, ARRAY), 4),
        (working(&[], KINGLESS), 5),
        (working(&[b"retractor", b"\xff"], KINGLESS), 5),
        (working(&[b"retractor", b"--usage"], KINGLESS), 5),
        (unreadable(&[b"retractor", b"--version", b"check"]), 5),
        (working(&[b"retractor", b"unmoves"], KINGLESS), 6),
        (unreadable(CHECK), 7),
        (beginning(CHECK, KINGLESS, None), 8),
        (unreadable(HELP), 0),
        (beginning(HELP, b"", Some(b"usage:\n")), 0),
        (beginning(HELP, b"", Some(b"retractor")), 8),
        (beginning(HELP, b"", None), 8),
        (unreadable(VERSION), 0),
        (beginning(VERSION, b"", Some(b"retractor ")), 0),
        (beginning(VERSION, b"", Some(b"usage:\n")), 8),
    ] {
        let ears = Ears::new(rt.alloc(), "", false);
        let code = serve(&(desk, rt.alloc()), &ears).report(&rt);
        assert_eq!(rt; code, ExitCode::from(want));
    }
}

/// At the end one line is said, or nothing if none is wanted.
#[test]
fn says_one_line_or_nothing(rt: HostRuntime) {
    for (desk, wanted) in [
        (working(CHECK, KINGLESS), ""),
        (working(SOLVE_BY_ONE_NODE, TWO_KINGS), ""),
        (working(CHECK, b"retro 1\n"), ""),
        (
            working(&[], KINGLESS),
            "retractor: `retractor --help` says how each command is called",
        ),
        (
            working(&[b"retractor", b"\xff"], KINGLESS),
            "retractor: a word isn't UTF-8",
        ),
        (
            working(&[b"retractor", b"unmoves"], KINGLESS),
            "retractor: a FEN is due, and this is a certificate, a length or a dossier, which `check`, `atleast` and `line` read",
        ),
        (
            working(&[b"retractor", b"solve", b"65", b"1"], TWO_KINGS),
            "retractor: DEPTH is a number from 0 to 64: retractor solve DEPTH NODES < CLAIM-AND-FEN",
        ),
        (
            working(
                &[b"retractor", b"report", b"4k3/8/8/8/8/8/8/4K3 w - -"],
                b"",
            ),
            "retractor: a position isn't given as a word, but through a pipe: echo 'FEN' | retractor report",
        ),
        (
            working(
                &[b"retractor", b"tree", b"1", b"9", b"4k3/8/8/8/8/8/8/4K3"],
                b"",
            ),
            "retractor: a position isn't given as a word, but through a pipe: echo 'FEN' | retractor tree DEPTH NODES",
        ),
        (unreadable(CHECK), "retractor: reading the input failed"),
        (
            beginning(CHECK, KINGLESS, None),
            "retractor: writing the answer failed",
        ),
    ] {
        let ears = Ears::new(rt.alloc(), wanted, false);
        let _ = serve(&(desk, rt.alloc()), &ears).report(&ears);
        let lines = if wanted == "" { 0 } else { 1 };
        assert_eq!(rt; (ears.heard.get(), ears.others.get()), (lines, 0));
    }
}

const SETTLE: &[&[u8]] = &[b"retractor", b"settle"];

const SOLVE_AT_ONCE: &[&[u8]] = &[b"retractor", b"solve", b"0", b"20000"];

const SOLVE_BY_FEW: &[&[u8]] = &[b"retractor", b"solve", b"0", b"19999"];

const TREE: &[&[u8]] = &[b"retractor", b"tree", b"0", b"500000"];

const TWO_KINGS_ALONE: &[u8] = b"4k3/8/8/8/8/8/8/4K3 w - -\n";

/// Before a search that may last a terminal is told how far it goes, and nothing else is.
#[test]
fn says_how_far_a_long_search_goes(rt: HostRuntime) {
    for (desk, terminal, wanted) in [
        (
            working(SOLVE_AT_ONCE, TWO_KINGS),
            true,
            "retractor: searching up to 20000 positions at a time; Ctrl-C ends it",
        ),
        (
            working(SETTLE, ARRAY),
            true,
            "retractor: searching up to 250000 positions at a time; Ctrl-C ends it",
        ),
        (working(SOLVE_AT_ONCE, TWO_KINGS), false, ""),
        (working(SOLVE_BY_FEW, TWO_KINGS), true, ""),
        (working(TREE, TWO_KINGS_ALONE), true, ""),
        (working(CHECK, KINGLESS), true, ""),
    ] {
        let ears = Ears::new(rt.alloc(), wanted, terminal);
        let _ = serve(&(desk, rt.alloc()), &ears).report(&ears);
        let lines = if wanted == "" { 0 } else { 1 };
        assert_eq!(rt; (ears.heard.get(), ears.others.get()), (lines, 0));
    }
}
