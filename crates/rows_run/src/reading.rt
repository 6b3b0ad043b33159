//! Rows as they are written. A line is a mark, a blank and a text.
//!
//! `$` begins a row with a command, or with several of which each is handed the answer to the one before, `|` between two. Where several such
//! lines stand one below the other, each is run. `^` begins a row with the input of the row before. `<` is a line of the input and `>` one of
//! the answer, `~` stands for any bytes of the answer, and `%` says how often a text stands in it: so often, or at least once if that is
//! `+`. `=` ends the row with the status. `@` says how the rows behind it are run. `#` says that a line is for the reader, as an empty one is.

use std::alloc::{AllocError, Global};

/// How rows are run.
#[derive(Clone, Copy, PartialEq, Eq, Debug)]
pub(crate) enum Manner {
    /// Inputs and answers pass byte by byte, in sevens, and whole.
    Pieces,
    /// They pass whole.
    Whole,
    /// They pass whole, and no line of an answer has more than a hundred bytes or ends with a blank.
    Short,
    /// They would pass whole, but the first read fails.
    Unread,
}

/// What a line is to a row.
#[derive(Clone, Copy, PartialEq, Eq, Debug)]
pub(crate) enum Taken {
    /// It is a part of a row, or stands between two.
    Part,
    /// It ends the row with this status.
    End(u8),
    /// It has none of the marks, or no status.
    Strange,
}

/// How often a part stands in an answer.
#[derive(Clone, Copy, PartialEq, Eq, Debug)]
enum Times {
    /// So often as it may.
    Any,
    /// At least once.
    AtLeastOnce,
    /// So often.
    Exactly(usize),
}

/// A row, as far as it is read.
#[derive(Drop)]
pub(crate) struct Row {
    /// The commands, with a line feed behind each that is run.
    pub(crate) commands: String,
    pub(crate) input: Vec<u8>,
    pub(crate) manner: Manner,
    ended: bool,
    /// How the answer begins; it is the whole answer where bytes may stand nowhere.
    front: Vec<u8>,
    is_open: bool,
    tail: Vec<u8>,
    part: Vec<u8>,
    times: Times,
}

/// The front of a line, and what ends it: a line feed, unless the line ends with `\r`, `\n` or `\`, which stand for a carriage return and a
/// line feed, for a line feed, and for nothing.
fn line_end(line: &str) -> (&str, &str) {
    if let Some(front) = line.strip_suffix("\\r") {
        (front, "\r\n")
    } else if let Some(front) = line.strip_suffix("\\n") {
        (front, "\n")
    } else if let Some(front) = line.strip_suffix("\\") {
        (front, "")
    } else {
        (line, "\n")
    }
}

fn push_line(text: &mut Vec<u8>, line: &str) -> Result<(), AllocError> {
    let (front, end) = line_end(line);
    text.extend_from_slice(front.as_bytes())?;
    text.extend_from_slice(end.as_bytes())?;
    Ok(())
}

fn read_manner(text: &str) -> Option<Manner> {
    match text {
        "pieces" => Some(Manner::Pieces),
        "whole" => Some(Manner::Whole),
        "short" => Some(Manner::Short),
        "unread" => Some(Manner::Unread),
        _ => None,
    }
}

fn has_short_lines(text: &[u8]) -> bool {
    text.split(|byte| *byte == b'\n')
        .all(|line| line.len() <= 100 && !line.ends_with(b" "))
}

fn read_times(text: &str) -> Option<Times> {
    if text == "+" {
        return Some(Times::AtLeastOnce);
    }
    match text.parse::<usize>() {
        Ok(times) => Some(Times::Exactly(times)),
        Err(_) => None,
    }
}

/// How often the part stands in the text.
fn count_of(part: &[u8], text: &[u8]) -> usize {
    (0..text.len())
        .filter(|at| text[*at..].starts_with(part))
        .count()
}

impl Row {
    /// No row yet.
    pub(crate) fn new(alloc: Global) -> Row {
        Row {
            commands: String::new(alloc),
            input: Vec::new(alloc),
            manner: Manner::Pieces,
            ended: false,
            front: Vec::new(alloc),
            is_open: false,
            tail: Vec::new(alloc),
            part: Vec::new(alloc),
            times: Times::Any,
        }
    }

    /// Takes commands, which begin a row if the last is ended.
    fn begin(&mut self, commands: &str) -> Result<(), AllocError> {
        if self.ended {
            self.ended = false;
            self.commands.clear();
            self.front.clear();
            self.is_open = false;
            self.tail.clear();
            self.part.clear();
            self.times = Times::Any;
        }
        self.commands.push_str(commands)?;
        self.commands.push('\n')?;
        Ok(())
    }

    /// Takes commands, which begin a row with an input of its own if the last is ended.
    fn begin_anew(&mut self, commands: &str) -> Result<(), AllocError> {
        if self.ended {
            self.input.clear();
        }
        self.begin(commands)
    }

    /// Takes a line of the answer.
    fn expect(&mut self, line: &str) -> Result<(), AllocError> {
        if self.is_open {
            push_line(&mut self.tail, line)
        } else {
            push_line(&mut self.front, line)
        }
    }

    /// Takes how often a text is to stand in the answer.
    fn count(&mut self, line: &str) -> Result<Taken, AllocError> {
        let (number, part) = line.split_once(' ').unwrap_or((line, ""));
        self.part.clear();
        push_line(&mut self.part, part)?;
        match read_times(number) {
            Some(times) => {
                self.times = times;
                Ok(Taken::Part)
            }
            None => Ok(Taken::Strange),
        }
    }

    /// Takes the status that ends the row.
    fn finish(&mut self, status: &str) -> Taken {
        self.ended = true;
        match status.parse::<u8>() {
            Ok(status) => Taken::End(status),
            Err(_) => Taken::Strange,
        }
    }

    /// Takes the next line.
    pub(crate) fn take(&mut self, line: &str) -> Result<Taken, AllocError> {
        let (mark, text) = line.split_once(' ').unwrap_or((line, ""));
        match mark {
            "" | "#" => {}
            "$" => self.begin_anew(text)?,
            "^" => self.begin(text)?,
            "<" => push_line(&mut self.input, text)?,
            ">" => self.expect(text)?,
            "~" => self.is_open = true,
            "%" => return self.count(text),
            "=" => return Ok(self.finish(text)),
            "@" => match read_manner(text) {
                Some(manner) => self.manner = manner,
                None => return Ok(Taken::Strange),
            },
            _ => return Ok(Taken::Strange),
        }
        Ok(Taken::Part)
    }

    /// Whether the row's part stands in the text as often as it is to.
    fn has_part(&self, text: &[u8]) -> bool {
        match self.times {
            Times::Any => true,
            Times::AtLeastOnce => count_of(&self.part, text) > 0,
            Times::Exactly(times) => count_of(&self.part, text) == times,
        }
    }

    /// Whether this is the answer that the row says.
    pub(crate) fn is_answer(&self, text: &[u8]) -> bool {
        if self.manner == Manner::Short && !has_short_lines(text) || !self.has_part(text) {
            return false;
        }
        if !self.is_open {
            return text == self.front.as_slice();
        }
        match text.strip_prefix(self.front.as_slice()) {
            Some(behind) => behind.ends_with(&self.tail),
            None => false,
        }
    }
}
