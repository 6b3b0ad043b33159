//! Lines of men who never moved, without those of whom other lines say so.

ghost use Rattle.std.specs.Prelude.{◌≡◌, IfOk, map};
ghost use Rattle.std.specs.List.{list_any};
ghost use Rattle.cage_rules.specs.Sets.{squares_that};
ghost use Rattle.ledger_prose.specs.News.{is_news, news_of, says_unmoved};

use board_base::{Square, SquareSet};
use figures::squares_that;
use ledger_lines::Line;
use std::alloc::{AllocError, Global};

/// The line says of whoever stands there that he never moved.
fn says_unmoved(s: Square, line: &Line) -> bool
    ensures { result ≡ says_unmoved s line.now }
{
    match *line {
        Line::Unmoved(set) => set.has(s),
        _ => false,
    }
}

/// One of the lines does.
fn say_unmoved(s: Square, lines: &[Line]) -> bool
    ensures { result ≡ list_any (says_unmoved s) lines.now }
{
    match lines {
        [] => false,
        [line, others @ ..] => says_unmoved(s, line) || say_unmoved(s, others),
    }
}

/// The square is in the set, and none of the lines says that.
fn is_news(known: &[Line], set: SquareSet, s: Square) -> bool
    ensures { result ≡ is_news known.now set s }
{
    set.has(s) && !say_unmoved(s, known)
}

/// Those squares of a set.
fn news_in(known: &[Line], set: SquareSet) -> SquareSet
    ensures { result ≡ squares_that (is_news known.now set) }
{
    squares_that(|s| is_news(known, set, s))
}

/// The line with only those men who never moved of whom none of these lines says so.
fn news_of(known: &[Line], line: &Line) -> Line
    ensures { result ≡ news_of known.now line.now }
{
    match *line {
        Line::Unmoved(set) => Line::Unmoved(news_in(known, set)),
        _ => *line,
    }
}

/// The lines with only those men who never moved of whom none of the known lines says so. By `news_hold` they are as true as the lines.
pub fn news_of_all(alloc: Global, known: &[Line], lines: &[Line]) -> Result<Vec<Line>, AllocError>
    ensures { IfOk result (λ news. news.items ≡ map (news_of known.now) lines.now) }
{
    let mut news = Vec::new(alloc);
    for line in lines {
        news.push(news_of(known, line))?;
    }
    Ok(news)
}
