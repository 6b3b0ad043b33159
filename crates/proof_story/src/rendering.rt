//! The text of a story.

ghost use Rattle.std.specs.Prelude.{◌≡◌, ◌==◌, ◌++◌, ◌∷◌, IfOk, List, [], cond};
ghost use Rattle.proof_story.specs.Rendering.{are_all_kinds, are_officers, before_kind, bundle_text, bundles_text, but_text, capturing, castles_from, castles_text, goes_text, heading_text, is_at, is_castling, is_single, kinds_text, labels_text, line_text, number_at, number_text, origins_text, other_kinds, rows_from, saying_text, sign_of, story_text, taken_by, taken_text, way_text, ways_text};
ghost use Rattle.proof_story.specs.Rows.{rows_of};
ghost use Rattle.proof_story.specs.declared.stories.Paragraph.{Paragraph as AParagraph};

use crate::movers::{mover_initial, push_became};
use crate::reading::number_at;
use crate::stories::{Bundle, Paragraph, Said, Way};
use crate::wrapping::push_wrapped;
use board_base::{Board, Kind, Move, Square, Unmove};
use castle_history::castle_of;
use prose_words::{kind_word, push_number, push_square, say};
use std::alloc::{AllocError, Global};

/// Letters between two texts, before each but the first.
fn push_sign(place: usize, sign: &[u8], out: &mut Vec<u8>) -> Result<(), AllocError>
    ensures { IfOk result (λ _. out.new.items ≡ out.old.items ++ cond (place == 0) [] sign.now) }
{
    if place > 0 {
        say(sign, out)?;
    }
    Ok(())
}

/// A number of parts, as in `1.2`.
fn push_parts(number: &[usize], out: &mut Vec<u8>) -> Result<(), AllocError>
    ensures { IfOk result (λ _. out.new.items ≡ out.old.items ++ number_text number.now) }
{
    for i in 0..number.len() {
        push_sign(i, b".", out)?;
        push_number(number[i], out)?;
    }
    Ok(())
}

/// Where the men came from, as in `f1/e2`.
fn push_origins(origins: &[Square], out: &mut Vec<u8>) -> Result<(), AllocError>
    ensures { IfOk result (λ _. out.new.items ≡ out.old.items ++ origins_text origins.now) }
{
    for i in 0..origins.len() {
        push_sign(i, b"/", out)?;
        push_square(origins[i], out)?;
    }
    Ok(())
}

/// Whether the king castled, if he came from this square.
pub(crate) fn castles_from(board: &Board, way: &Way, from: Square) -> bool
    ensures { result ≡ castles_from board.now way.now from }
{
    let mv = Move {
        from,
        to: way.to,
        promo: way.promo,
    };
    let u = Unmove {
        mv,
        captured: None,
        ep: false,
    };
    castle_of(&u, board).is_some()
}

/// Whether the king castled.
pub(crate) fn is_castling(board: &Board, way: &Way) -> bool
    ensures { result ≡ is_castling board.now way.now }
{
    match way.origins.as_slice().get(0) {
        None => false,
        Some(from) => castles_from(board, way, *from),
    }
}

/// A castling, as in `e1-g1 castles`.
fn push_castles(way: &Way, out: &mut Vec<u8>) -> Result<(), AllocError>
    ensures { IfOk result (λ _. out.new.items ≡ out.old.items ++ castles_text way.now) }
{
    push_origins(way.origins.as_slice(), out)?;
    say(b"-", out)?;
    push_square(way.to, out)?;
    say(b" castles", out)
}

/// Moves to one square that aren't castlings, as in `Nf1/e2-g3`.
fn push_goes(board: &Board, sign: u8, way: &Way, out: &mut Vec<u8>) -> Result<(), AllocError>
    ensures { IfOk result (λ _. out.new.items ≡ out.old.items ++ goes_text board.now sign way.now) }
{
    say(mover_initial(board.at(way.to), way.promo), out)?;
    push_origins(way.origins.as_slice(), out)?;
    out.push(sign)?;
    push_square(way.to, out)?;
    push_became(way.promo, out)
}

/// Moves to one square.
fn push_way(board: &Board, sign: u8, way: &Way, out: &mut Vec<u8>) -> Result<(), AllocError>
    ensures { IfOk result (λ _. out.new.items ≡ out.old.items ++ way_text board.now sign way.now) }
{
    if is_castling(board, way) {
        push_castles(way, out)
    } else {
        push_goes(board, sign, way, out)
    }
}

/// What stands before a kind that so many others follow.
fn before_kind(after: usize) -> &'static [u8]
    ensures { result.now ≡ before_kind after }
{
    if after == 0 { b" or " } else { b", " }
}

/// Kinds behind another, the last of them behind `or`.
fn push_other_kinds(kinds: &[Kind], out: &mut Vec<u8>) -> Result<(), AllocError>
    ensures { IfOk result (λ _. out.new.items ≡ out.old.items ++ other_kinds kinds.now) }
{
    for i in 0..kinds.len() {
        say(before_kind(kinds.len() - 1 - i), out)?;
        say(kind_word(kinds[i]), out)?;
    }
    Ok(())
}

/// Whether the kind at this place of the list is this one.
fn is_at(kinds: &[Kind], i: usize, kind: Kind) -> bool
    ensures { result ≡ is_at kinds.now i kind }
{
    match kinds.get(i) {
        None => false,
        Some(k) => Some(*k) == Some(kind),
    }
}

/// Whether these are the kinds of officers.
fn are_officers(kinds: &[Kind]) -> bool
    ensures { result ≡ are_officers kinds.now }
{
    kinds.len() == 4
        && is_at(kinds, 0, Kind::Knight)
        && is_at(kinds, 1, Kind::Bishop)
        && is_at(kinds, 2, Kind::Rook)
        && is_at(kinds, 3, Kind::Queen)
}

/// Whether these are the kinds of all men who can be captured.
fn are_all_kinds(kinds: &[Kind]) -> bool
    ensures { result ≡ are_all_kinds kinds.now }
{
    match kinds {
        [] => false,
        [first, others @ ..] => Some(*first) == Some(Kind::Pawn) && are_officers(others),
    }
}

/// One of these kinds, behind an article without its end.
fn push_kinds(kinds: &[Kind], out: &mut Vec<u8>) -> Result<(), AllocError>
    ensures { IfOk result (λ _. out.new.items ≡ out.old.items ++ kinds_text kinds.now) }
{
    match kinds {
        [] => Ok(()),
        [first, others @ ..] => {
            if are_officers(kinds) {
                return say(b"n officer", out);
            }
            out.push(b' ')?;
            say(kind_word(*first), out)?;
            push_other_kinds(others, out)
        }
    }
}

/// What stands before the kinds that were captured, by one move or by each of several.
fn capturing(single: bool) -> &'static [u8]
    ensures { result.now ≡ capturing single }
{
    if single {
        b", capturing a"
    } else {
        b", each capturing a"
    }
}

/// Which kinds were captured, by one move or by each of several; nothing if no man was captured.
fn push_taken_by(single: bool, kinds: &[Kind], out: &mut Vec<u8>) -> Result<(), AllocError>
    ensures { IfOk result (λ _. out.new.items ≡ out.old.items ++ taken_by single kinds.now) }
{
    if kinds.len() == 0 {
        return Ok(());
    }
    if are_all_kinds(kinds) {
        return say(b", whoever fell", out);
    }
    say(capturing(single), out)?;
    push_kinds(kinds, out)
}

/// Whether it is one move.
fn is_single(ways: &[Way]) -> bool
    ensures { result ≡ is_single ways.now }
{
    match ways {
        [way] => way.origins.len() == 1,
        _ => false,
    }
}

/// Whom the moves of a bundle captured.
fn push_taken(bundle: &Bundle, out: &mut Vec<u8>) -> Result<(), AllocError>
    ensures { IfOk result (λ _. out.new.items ≡ out.old.items ++ taken_text bundle.now) }
{
    if bundle.passing {
        return say(b" en passant", out);
    }
    push_taken_by(
        is_single(bundle.ways.as_slice()),
        bundle.taken.as_slice(),
        out,
    )
}

/// The sign between the squares of a bundle's moves: a cross if they captured, and otherwise a hyphen.
fn sign_of(bundle: &Bundle) -> u8
    ensures { result ≡ sign_of bundle.now }
{
    if bundle.passing || bundle.taken.len() > 0 {
        b'x'
    } else {
        b'-'
    }
}

/// Moves with this sign between their squares.
fn push_ways(board: &Board, sign: u8, ways: &[Way], out: &mut Vec<u8>) -> Result<(), AllocError>
    ensures { IfOk result (λ _. out.new.items ≡ out.old.items ++ ways_text board.now sign ways.now) }
{
    for i in 0..ways.len() {
        push_sign(i, b", ", out)?;
        push_way(board, sign, &ways[i], out)?;
    }
    Ok(())
}

/// Moves that captured one of the same men.
fn push_bundle(board: &Board, bundle: &Bundle, out: &mut Vec<u8>) -> Result<(), AllocError>
    ensures { IfOk result (λ _. out.new.items ≡ out.old.items ++ bundle_text board.now bundle.now) }
{
    push_ways(board, sign_of(bundle), bundle.ways.as_slice(), out)?;
    push_taken(bundle, out)
}

/// The moves of several bundles.
pub(crate) fn push_bundles(
    board: &Board,
    bundles: &[Bundle],
    out: &mut Vec<u8>,
) -> Result<(), AllocError>
    ensures { IfOk result (λ _. out.new.items ≡ out.old.items ++ bundles_text board.now bundles.now) }
{
    for i in 0..bundles.len() {
        push_sign(i, b"; ", out)?;
        push_bundle(board, &bundles[i], out)?;
    }
    Ok(())
}

/// The retractions of a paragraph.
fn push_labels(paragraph: &Paragraph, out: &mut Vec<u8>) -> Result<(), AllocError>
    ensures { IfOk result (λ _. out.new.items ≡ out.old.items ++ labels_text paragraph.now) }
{
    if paragraph.is_rest {
        return say(b"Every other move", out);
    }
    push_bundles(&paragraph.whence.board, paragraph.bundles.as_slice(), out)
}

/// What a paragraph begins with.
fn push_heading(paragraph: &Paragraph, out: &mut Vec<u8>) -> Result<(), AllocError>
    ensures { IfOk result (λ _. out.new.items ≡ out.old.items ++ heading_text paragraph.now) }
{
    if paragraph.number.len() == 0 {
        return Ok(());
    }
    push_parts(paragraph.number.as_slice(), out)?;
    say(b" ", out)?;
    push_labels(paragraph, out)?;
    say(b". ", out)
}

/// What stands behind a reference from which so many paragraphs below differ.
fn but_text(count: usize) -> &'static [u8]
    ensures { result.now ≡ but_text count }
{
    match count {
        0 => b".",
        1 => b", but for this:",
        _ => b", but for these:",
    }
}

/// What a paragraph says.
fn push_saying(
    story: &[Paragraph],
    count: usize,
    said: &Said,
    out: &mut Vec<u8>,
) -> Result<(), AllocError>
    ensures { IfOk result (λ _. out.new.items ≡ out.old.items ++ saying_text story.now count said.now) }
{
    match said {
        Said::Words(words) => say(words.text(), out),
        Said::As(j) => {
            say(b"As in ", out)?;
            push_parts(number_at(story, *j), out)?;
            say(but_text(count), out)
        }
    }
}

/// The line of a paragraph.
fn push_line(
    story: &[Paragraph],
    paragraph: &Paragraph,
    out: &mut Vec<u8>,
) -> Result<(), AllocError>
    ensures { IfOk result (λ _. out.new.items ≡ out.old.items ++ line_text story.now paragraph.now) }
{
    push_heading(paragraph, out)?;
    push_saying(story, paragraph.below.len(), &paragraph.said, out)
}

/// The next paragraph: in the line of those before it, or in one of its own behind their rows.
fn push_next(
    story: &[Paragraph],
    paragraph: &Paragraph,
    line: &mut Vec<u8>,
    out: &mut Vec<u8>,
) -> Result<(), AllocError>
    ensures { IfOk result (λ _. (rest : List AParagraph) → out.new.items ++ rows_from story.now line.new.items rest ≡ out.old.items ++ rows_from story.now line.old.items (paragraph.now ∷ rest)) }
{
    if paragraph.is_joined {
        line.push(b' ')?;
        push_line(story, paragraph, line)?;
        return Ok(());
    }
    push_wrapped(line.as_slice(), out)?;
    line.clear();
    push_line(story, paragraph, line)?;
    Ok(())
}

/// Paragraphs behind a line; the last line is left.
fn push_others(
    story: &[Paragraph],
    others: &[Paragraph],
    line: &mut Vec<u8>,
    out: &mut Vec<u8>,
) -> Result<(), AllocError>
    ensures { IfOk result (λ _. out.new.items ++ rows_of line.new.items ≡ out.old.items ++ rows_from story.now line.old.items others.now) }
{
    for i in 0..others.len() {
        push_next(story, &others[i], line, out)?;
    }
    Ok(())
}

/// The text of a story.
pub(crate) fn push_story(
    alloc: Global,
    story: &[Paragraph],
    out: &mut Vec<u8>,
) -> Result<(), AllocError>
    ensures { IfOk result (λ _. out.new.items ≡ out.old.items ++ story_text story.now) }
{
    match story {
        [] => Ok(()),
        [first, others @ ..] => {
            let mut line = Vec::new(alloc);
            push_line(story, first, &mut line)?;
            push_others(story, others, &mut line, out)?;
            push_wrapped(line.as_slice(), out)
        }
    }
}
