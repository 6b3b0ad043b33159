ghost use Rattle.std.specs.Prelude.{◌≡◌, ◌++◌, ◌&&◌, IfOk, OnOk, codes, nat_lt};
ghost use Rattle.board_base.specs.declared.men.Colour.TheVariants.{Black, White};
ghost use Rattle.ledger_prose.specs.Sentences.{alone, are_all_taken, captured, captured_sentences, closing, falls, group_lines, group_sentences, has_taken_all, is_lacking, lacks, line_sentences, named_sentences, number_named, one_if, opening, part_sentences, sentences_in, sentences_of, together, took, topic_sentences, untold_sentences};
ghost use Rattle.ledger_prose.specs.Words.{paragraph_of, prose_text, spaced_words, words_of};
ghost use Rattle.ledger_prose.specs.declared.parts.Group.TheVariants.{Captors};
ghost use Rattle.ledger_prose.specs.declared.parts.Topic.TheVariants.{Spare, Taken};

use crate::captures::{push_captured, push_took};
use crate::due::{
    are_all_taken, are_untold, group_lines, has_taken_all, is_change, is_lacking, is_origin,
    is_taken, number_named,
};
use crate::losses::push_lacks;
use crate::men::{push_group_words, push_line_words};
use crate::parts::{Group, Part, Topic};
use board_base::Colour;
use ledger_lines::{Line, Manner, Taker};
use proof_story::push_wrapped;
use prose_words::say;
use query_base::Query;
use std::alloc::{AllocError, Global};

/// Adds the sentence of whom a side lacks.
fn push_lacks_sentence(query: &Query, line: &Line, out: &mut Vec<u8>) -> Result<(), AllocError>
    ensures { IfOk result (λ _. out.new.items ≡ out.old.items ++ (codes " " ++ words_of query.now (lacks line.now))) }
{
    say(b" ", out)?;
    push_lacks(query, line, out)?;
    say(b".", out)
}

/// Adds it if it is due.
fn push_lacking(
    side: Colour,
    query: &Query,
    line: &Line,
    out: &mut Vec<u8>,
) -> Result<(), AllocError>
    ensures { IfOk result (λ _. out.new.items ≡ out.old.items ++ spaced_words query.now (one_if (is_lacking side line.now) (lacks line.now))) }
{
    if !is_lacking(side, line) {
        return Ok(());
    }
    push_lacks_sentence(query, line, out)
}

/// Adds the sentence of how many a side's pawns took.
fn push_took_sentence(
    query: &Query,
    line: &Line,
    ways: &[Line],
    out: &mut Vec<u8>,
) -> Result<(), AllocError>
    ensures { IfOk result (λ _. out.new.items ≡ out.old.items ++ (codes " " ++ words_of query.now (took line.now ways.now))) }
{
    say(b" ", out)?;
    push_took(query, line, ways, out)?;
    say(b".", out)
}

/// Adds it with the lines of the side's pawns.
fn push_took_line(
    alloc: Global,
    side: Colour,
    query: &Query,
    lines: &[Line],
    line: &Line,
    out: &mut Vec<u8>,
) -> Result<(), AllocError>
    ensures { IfOk result (λ _. out.new.items ≡ out.old.items ++ (codes " " ++ words_of query.now (took line.now (group_lines (Captors side) query.now lines.now)))) }
{
    let ways = group_lines(alloc, Group::Captors(side), query, lines)?;
    push_took_sentence(query, line, ways.as_slice(), out)
}

/// Adds it if it is due.
fn push_captures(
    alloc: Global,
    side: Colour,
    query: &Query,
    lines: &[Line],
    line: &Line,
    out: &mut Vec<u8>,
) -> Result<(), AllocError>
    ensures { IfOk result (λ _. out.new.items ≡ out.old.items ++ spaced_words query.now (line_sentences (Taken side) query.now lines.now line.now)) }
{
    if !is_taken(side, line) {
        return Ok(());
    }
    push_took_line(alloc, side, query, lines, line, out)
}

/// Adds the sentence of the lines of a side's pawns who captured.
fn push_captured_sentence(
    side: Colour,
    query: &Query,
    ways: &[Line],
    out: &mut Vec<u8>,
) -> Result<(), AllocError>
    ensures { IfOk result (λ _. out.new.items ≡ out.old.items ++ (codes " " ++ words_of query.now (captured side ways.now))) }
{
    say(b" ", out)?;
    push_captured(side, query, ways, out)?;
    say(b".", out)
}

/// Adds it if there are any, and no other sentence tells of them.
fn push_untold(
    side: Colour,
    query: &Query,
    lines: &[Line],
    ways: &[Line],
    out: &mut Vec<u8>,
) -> Result<(), AllocError>
    ensures { IfOk result (λ _. out.new.items ≡ out.old.items ++ spaced_words query.now (untold_sentences side lines.now ways.now)) }
{
    if !are_untold(side, lines, ways) {
        return Ok(());
    }
    push_captured_sentence(side, query, ways, out)
}

/// Adds the sentence of a side's pawns who captured, if there is one.
fn push_captors(
    alloc: Global,
    side: Colour,
    query: &Query,
    lines: &[Line],
    out: &mut Vec<u8>,
) -> Result<(), AllocError>
    ensures { IfOk result (λ _. out.new.items ≡ out.old.items ++ spaced_words query.now (captured_sentences side query.now lines.now)) }
{
    let ways = group_lines(alloc, Group::Captors(side), query, lines)?;
    push_untold(side, query, lines, ways.as_slice(), out)
}

/// No capture is to spare, if the line and another say so.
fn is_needed(lines: &[Line], line: &Line) -> bool
    ensures { result ≡ (are_all_taken White line.now && has_taken_all Black lines.now) }
{
    are_all_taken(Colour::White, line) && has_taken_all(Colour::Black, lines)
}

/// Adds that no capture is to spare, if it is due.
fn push_spare(
    query: &Query,
    lines: &[Line],
    line: &Line,
    out: &mut Vec<u8>,
) -> Result<(), AllocError>
    ensures { IfOk result (λ _. out.new.items ≡ out.old.items ++ spaced_words query.now (line_sentences Spare query.now lines.now line.now)) }
{
    if !is_needed(lines, line) {
        return Ok(());
    }
    say(b" No capture is to spare.", out)
}

/// Adds the sentence of a line on men of the board.
fn push_line_sentence(query: &Query, line: &Line, out: &mut Vec<u8>) -> Result<(), AllocError>
    ensures { IfOk result (λ _. out.new.items ≡ out.old.items ++ (codes " " ++ words_of query.now (alone line.now))) }
{
    say(b" ", out)?;
    push_line_words(query, line, out)?;
    say(b".", out)
}

/// Adds it if it is due.
fn push_alone(due: bool, query: &Query, line: &Line, out: &mut Vec<u8>) -> Result<(), AllocError>
    ensures { IfOk result (λ _. out.new.items ≡ out.old.items ++ spaced_words query.now (one_if due (alone line.now))) }
{
    if !due {
        return Ok(());
    }
    push_line_sentence(query, line, out)
}

/// Adds the sentence of a line under a topic, if it is due.
fn push_of_line(
    alloc: Global,
    topic: Topic,
    query: &Query,
    lines: &[Line],
    line: &Line,
    out: &mut Vec<u8>,
) -> Result<(), AllocError>
    ensures { IfOk result (λ _. out.new.items ≡ out.old.items ++ spaced_words query.now (line_sentences topic query.now lines.now line.now)) }
{
    match topic {
        Topic::Lacking(side) => push_lacking(side, query, line, out),
        Topic::Taken(side) => push_captures(alloc, side, query, lines, line, out),
        Topic::Spare => push_spare(query, lines, line, out),
        Topic::Changed => push_alone(is_change(line), query, line, out),
        Topic::Origins => push_alone(is_origin(line), query, line, out),
    }
}

/// Adds the sentences of all lines under a topic.
fn push_topic(
    alloc: Global,
    topic: Topic,
    query: &Query,
    lines: &[Line],
    out: &mut Vec<u8>,
) -> Result<(), AllocError>
    ensures { IfOk result (λ _. out.new.items ≡ out.old.items ++ spaced_words query.now (topic_sentences topic query.now lines.now)) }
{
    for line in lines {
        push_of_line(alloc, topic, query, lines, line, out)?;
    }
    Ok(())
}

/// Adds the sentence of a group's lines.
fn push_group_sentence(
    group: Group,
    query: &Query,
    kept: &[Line],
    out: &mut Vec<u8>,
) -> Result<(), AllocError>
    ensures { IfOk result (λ _. out.new.items ≡ out.old.items ++ (codes " " ++ words_of query.now (together group kept.now))) }
{
    say(b" ", out)?;
    push_group_words(group, query, kept, out)?;
    say(b".", out)
}

/// Whether the lines name somebody.
fn names_some(query: &Query, kept: &[Line]) -> bool
    ensures { result ≡ nat_lt 0 (number_named query.now kept.now) }
{
    number_named(query, kept) > 0
}

/// Adds the sentence of a group's lines, if they name somebody.
fn push_named(
    group: Group,
    query: &Query,
    kept: &[Line],
    out: &mut Vec<u8>,
) -> Result<(), AllocError>
    ensures { IfOk result (λ _. out.new.items ≡ out.old.items ++ spaced_words query.now (named_sentences group query.now kept.now)) }
{
    if !names_some(query, kept) {
        return Ok(());
    }
    push_group_sentence(group, query, kept, out)
}

/// Adds the sentence of a group, if there is one.
fn push_group(
    alloc: Global,
    group: Group,
    query: &Query,
    lines: &[Line],
    out: &mut Vec<u8>,
) -> Result<(), AllocError>
    ensures { IfOk result (λ _. out.new.items ≡ out.old.items ++ spaced_words query.now (group_sentences group query.now lines.now)) }
{
    let kept = group_lines(alloc, group, query, lines)?;
    push_named(group, query, kept.as_slice(), out)
}

/// Adds the sentences of a part of the paragraph.
fn push_part(
    alloc: Global,
    part: Part,
    query: &Query,
    lines: &[Line],
    out: &mut Vec<u8>,
) -> Result<(), AllocError>
    ensures { IfOk result (λ _. out.new.items ≡ out.old.items ++ spaced_words query.now (part_sentences part query.now lines.now)) }
{
    match part {
        Part::Each(topic) => push_topic(alloc, topic, query, lines, out),
        Part::Captured(side) => push_captors(alloc, side, query, lines, out),
        Part::Together(group) => push_group(alloc, group, query, lines, out),
    }
}

/// Adds the sentences of some parts.
fn push_parts(
    alloc: Global,
    parts: &[Part],
    query: &Query,
    lines: &[Line],
    out: &mut Vec<u8>,
) -> Result<(), AllocError>
    ensures { IfOk result (λ _. out.new.items ≡ out.old.items ++ spaced_words query.now (sentences_in parts.now query.now lines.now)) }
{
    for part in parts {
        push_part(alloc, *part, query, lines, out)?;
    }
    Ok(())
}

/// Of whom each side lacks and whom pawns took.
fn opening() -> [Part; 7]
    ensures { result ≡ opening }
{
    [
        Part::Each(Topic::Lacking(Colour::White)),
        Part::Each(Topic::Taken(Colour::Black)),
        Part::Captured(Colour::Black),
        Part::Each(Topic::Lacking(Colour::Black)),
        Part::Each(Topic::Taken(Colour::White)),
        Part::Captured(Colour::White),
        Part::Each(Topic::Spare),
    ]
}

/// The groups of a side's men who fell.
fn falls(side: Colour) -> [Part; 15]
    ensures { result ≡ falls side }
{
    [
        Part::Together(Group::Pawns(side, Taker::Anyone, Manner::AsPawn)),
        Part::Together(Group::Pawns(side, Taker::Pawn, Manner::AsPawn)),
        Part::Together(Group::Pawns(side, Taker::Officer, Manner::AsPawn)),
        Part::Together(Group::Pawns(side, Taker::Anyone, Manner::AsPromoted)),
        Part::Together(Group::Pawns(side, Taker::Pawn, Manner::AsPromoted)),
        Part::Together(Group::Pawns(side, Taker::Officer, Manner::AsPromoted)),
        Part::Together(Group::Pawns(side, Taker::Anyone, Manner::Anyhow)),
        Part::Together(Group::Pawns(side, Taker::Pawn, Manner::Anyhow)),
        Part::Together(Group::Pawns(side, Taker::Officer, Manner::Anyhow)),
        Part::Together(Group::Officers(side, Taker::Anyone)),
        Part::Together(Group::Officers(side, Taker::Pawn)),
        Part::Together(Group::Officers(side, Taker::Officer)),
        Part::Together(Group::AtHome(side, Taker::Anyone)),
        Part::Together(Group::AtHome(side, Taker::Pawn)),
        Part::Together(Group::AtHome(side, Taker::Officer)),
    ]
}

/// Of who was promoted, who wasn't, whose homes are known, and who never moved.
fn closing() -> [Part; 6]
    ensures { result ≡ closing }
{
    [
        Part::Together(Group::Promoted(Colour::White)),
        Part::Together(Group::Promoted(Colour::Black)),
        Part::Each(Topic::Changed),
        Part::Together(Group::Original),
        Part::Each(Topic::Origins),
        Part::Together(Group::Unmoved),
    ]
}

fn push_opening(
    alloc: Global,
    query: &Query,
    lines: &[Line],
    out: &mut Vec<u8>,
) -> Result<(), AllocError>
    ensures { IfOk result (λ _. out.new.items ≡ out.old.items ++ spaced_words query.now (sentences_in opening query.now lines.now)) }
{
    let parts = opening();
    push_parts(alloc, &parts, query, lines, out)
}

fn push_falls(
    alloc: Global,
    side: Colour,
    query: &Query,
    lines: &[Line],
    out: &mut Vec<u8>,
) -> Result<(), AllocError>
    ensures { IfOk result (λ _. out.new.items ≡ out.old.items ++ spaced_words query.now (sentences_in (falls side) query.now lines.now)) }
{
    let parts = falls(side);
    push_parts(alloc, &parts, query, lines, out)
}

fn push_closing(
    alloc: Global,
    query: &Query,
    lines: &[Line],
    out: &mut Vec<u8>,
) -> Result<(), AllocError>
    ensures { IfOk result (λ _. out.new.items ≡ out.old.items ++ spaced_words query.now (sentences_in closing query.now lines.now)) }
{
    let parts = closing();
    push_parts(alloc, &parts, query, lines, out)
}

/// Adds the sentences of the paragraph, each after a blank.
fn push_all(
    alloc: Global,
    query: &Query,
    lines: &[Line],
    out: &mut Vec<u8>,
) -> Result<(), AllocError>
    ensures { IfOk result (λ _. out.new.items ≡ out.old.items ++ spaced_words query.now (sentences_of query.now lines.now)) }
{
    push_opening(alloc, query, lines, out)?;
    push_falls(alloc, Colour::White, query, lines, out)?;
    push_falls(alloc, Colour::Black, query, lines, out)?;
    push_closing(alloc, query, lines, out)
}

/// The sentences of the paragraph, each after a blank.
fn spaced(alloc: Global, query: &Query, lines: &[Line]) -> Result<Vec<u8>, AllocError>
    ensures { IfOk result (λ text. text.items ≡ spaced_words query.now (sentences_of query.now lines.now)) }
{
    let mut text = Vec::new(alloc);
    push_all(alloc, query, lines, &mut text)?;
    Ok(text)
}

/// Adds the rows of a text without its first letter, if it has any.
fn push_paragraph(text: &[u8], out: &mut Vec<u8>) -> Result<(), AllocError>
    ensures { IfOk result (λ _. out.new.items ≡ out.old.items ++ paragraph_of text.now) }
{
    if text.len() == 0 {
        Ok(())
    } else {
        push_wrapped(&text[1..], out)
    }
}

/// Adds the ledger's paragraph: exactly the sentences that are due of these lines of the query's ledger, in rows of at most a hundred
/// letters; nothing if none is due. By `sentences_rest_on_lines` each rests on some of the lines.
pub fn tell_ledger_prose(
    alloc: Global,
    query: &Query,
    lines: &[Line],
    out: &mut Vec<u8>,
) -> Result<(), AllocError>
    ensures { OnOk result (out.new.items ≡ out.old.items ++ prose_text query.now (sentences_of query.now lines.now)) }
{
    let text = spaced(alloc, query, lines)?;
    push_paragraph(text.as_slice(), out)
}
