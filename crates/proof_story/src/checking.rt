//! Whether a story tells its nodes, each by its own words, and nothing else, and can be read.

ghost use Rattle.std.specs.List.{All};
ghost use Rattle.std.specs.Prelude.{ℕ, ◌≡◌, ◌+◌, ◌-◌, ◌<◌, ◌++◌, ◌∷◌, ◌⊎◌, [], IfOk, IsTrue, Some, false, length, slice_get};
ghost use Rattle.board_base.specs.Board.{is_in};
ghost use Rattle.board_base.specs.declared.unmoves.Unmove.{Unmove as AnUnmove};
ghost use Rattle.proof_story.specs.Reading.{AnswersAll, IsNumbered, IsPartAt, IsReadable, IsSameMan, IsStoryOf, IsTold, IsUnmixed, RefersBack, TellsCastlings, TellsNothingElse, comes_before};
ghost use Rattle.proof_story.specs.Needed.{AreNeeded};
ghost use Rattle.proof_story.specs.Story.{walk};
ghost use Rattle.proof_story.specs.Rendering.{castles_from, number_at};

use crate::reading::{below, has_words, number_at, reference, walked};
use crate::rendering::castles_from;
use crate::stories::{Bundle, Paragraph, Point, Way};
use board_base::{Board, Man, Square, Unmove, UnmoveList};
use std::alloc::{AllocError, Global};

/// Whether the same man stands on both places, or nobody on either.
fn is_same_place(a: Option<Man>, b: Option<Man>) -> bool
    ensures { IsTrue result → a ≡ b }
{
    a == b
}

/// Whether on the board of this paragraph the same man made the move that the retraction takes back.
fn is_same_man(story: &[Paragraph], board: &Board, i: usize, u: &Unmove) -> bool
    ensures { IsTrue result → IsSameMan story.now board.now i u.now }
{
    match story.get(i) {
        None => true,
        Some(paragraph) => is_same_place(paragraph.whence.board.at(u.mv.to), board.at(u.mv.to)),
    }
}

/// Whether the paragraph at this place names the last of these retractions as it is.
fn is_named(story: &[Paragraph], place: usize, path: &UnmoveList, board: &Board) -> bool
    ensures { IsTrue result → (u : AnUnmove) → slice_get path.now (length path.now - 1) ≡ Some u → IsSameMan story.now board.now place u }
{
    match path.get(path.len().saturating_sub(1)) {
        None => true,
        Some(u) => is_same_man(story, board, place, &u),
    }
}

/// Whether the paragraph at this place, to which the node's retractions lead, tells it.
fn is_told_at(story: &[Paragraph], point: &Point, place: usize) -> bool
    requires { walk story.now 0 point.now.path ≡ Some place }
    ensures { IsTrue result → IsTold story.now point.now }
{
    has_words(story, place, point.body.text())
        && is_named(story, place, &point.path, &point.whence.board)
}

/// Whether the node is told.
fn is_told(story: &[Paragraph], point: &Point) -> bool
    ensures { IsTrue result → IsTold story.now point.now }
{
    match walked(story, &point.path) {
        None => false,
        Some(place) => is_told_at(story, point, place),
    }
}

/// Whether each node is told.
fn answers(story: &[Paragraph], points: &[Point]) -> bool
    ensures { IsTrue result → AnswersAll story.now points.now }
{
    for point in points {
        if !is_told(story, point) {
            return false;
        }
    }
    true
}

/// Notes the paragraph at this place.
fn note(needed: &mut [bool], place: usize)
    ensures { (i : ℕ) → IsTrue (is_in needed.new i) → IsTrue (is_in needed.old i) ⊎ (i ≡ place) }
{
    if place < needed.len() {
        needed[place] = true;
    }
}

/// Notes the paragraph to which the node's retractions lead.
fn note_told(story: &[Paragraph], point: &Point, needed: &mut [bool])
    ensures { (i : ℕ) → IsTrue (is_in needed.new i) → IsTrue (is_in needed.old i) ⊎ (walk story.now 0 point.now.path ≡ Some i) }
{
    if let Some(place) = walked(story, &point.path) {
        note(needed, place);
    }
}

/// Which paragraphs tell one of the nodes.
fn needed_by(alloc: Global, story: &[Paragraph], points: &[Point]) -> Result<Vec<bool>, AllocError>
    ensures { IfOk result (λ needed. AreNeeded story.now points.now needed.items) }
{
    let mut needed = vec![in alloc; false; story.len()]?;
    for point in points {
        note_told(story, point, &mut needed);
    }
    Ok(needed)
}

/// Whether the paragraph at this place is noted.
fn is_noted(needed: &[bool], i: usize) -> bool
    ensures { IsTrue result → IsTrue (is_in needed.now i) }
{
    match needed.get(i) {
        None => false,
        Some(noted) => *noted,
    }
}

/// Whether the first ones, so many, are noted.
fn are_noted(needed: &[bool], count: usize) -> bool
    ensures { IsTrue result → (i : ℕ) → i < count → IsTrue (is_in needed.now i) }
{
    for i in 0..count {
        if !is_noted(needed, i) {
            return false;
        }
    }
    true
}

/// Whether each paragraph tells one of the nodes.
fn tells_nothing_else(
    alloc: Global,
    story: &[Paragraph],
    points: &[Point],
) -> Result<bool, AllocError>
    ensures { IfOk result (λ yes. IsTrue yes → TellsNothingElse story.now points.now) }
{
    let needed = needed_by(alloc, story, points)?;
    Ok(are_noted(needed.as_slice(), story.len()))
}

/// Whether the number stands before the other in a book.
fn comes_before(a: &[usize], b: &[usize]) -> bool
    ensures { result ≡ comes_before a.now b.now }
{
    for i in 0..b.len() {
        if i == a.len() {
            return true;
        }
        if a[i] != b[i] {
            return a[i] < b[i];
        }
    }
    false
}

/// Whether the number is that of a part of the other, at this place from 0 on.
fn is_part(number: &[usize], whole: &[usize], place: usize) -> bool
    ensures { IsTrue result → number.now ≡ whole.now ++ (place + 1) ∷ [] }
{
    if number.len() == 0 || number.len() - 1 != whole.len() {
        return false;
    }
    for i in 0..whole.len() {
        if number[i] != whole[i] {
            return false;
        }
    }
    number[whole.len()] > place && number[whole.len()] - 1 == place
}

/// Whether the paragraph at this place of the story has the number of a part of the other.
fn is_part_at(story: &[Paragraph], whole: &[usize], j: usize, place: usize) -> bool
    ensures { IsTrue result → IsPartAt story.now whole.now j place }
{
    j < story.len() && is_part(number_at(story, j), whole, place)
}

/// Whether these paragraphs of the story are numbered as the parts of one with this number.
fn are_parts(story: &[Paragraph], whole: &[usize], below: &[usize]) -> bool
    ensures { IsTrue result → (k j : ℕ) → slice_get below.now k ≡ Some j → IsPartAt story.now whole.now j k }
{
    for k in 0..below.len() {
        if !is_part_at(story, whole, below[k], k) {
            return false;
        }
    }
    true
}

/// Whether the paragraphs below the one at this place are numbered by their places there.
fn is_numbered(story: &[Paragraph], i: usize) -> bool
    ensures { IsTrue result → IsNumbered story.now i }
{
    are_parts(story, number_at(story, i), below(story, i))
}

/// Whether below each paragraph the others are numbered by their places there.
fn are_numbered(story: &[Paragraph]) -> bool
    ensures { IsTrue result → (i : ℕ) → i < length story.now → IsNumbered story.now i }
{
    for i in 0..story.len() {
        if !is_numbered(story, i) {
            return false;
        }
    }
    true
}

/// Whether the paragraph at this place stands before the next by its number.
fn is_before_next(story: &[Paragraph], i: usize) -> bool
    requires { i + 1 < length story.now }
    ensures { result ≡ comes_before (number_at story.now i) (number_at story.now (i + 1)) }
{
    comes_before(number_at(story, i), number_at(story, i + 1))
}

/// Whether the paragraphs stand in the order of their numbers, as in a book.
fn are_ordered(story: &[Paragraph]) -> bool
    ensures { IsTrue result → (i : ℕ) → i + 1 < length story.now → IsTrue (comes_before (number_at story.now i) (number_at story.now (i + 1))) }
{
    for i in 1..story.len() {
        if !is_before_next(story, i - 1) {
            return false;
        }
    }
    true
}

/// Whether the paragraph at this place refers only to one that stands before it, if it refers to any.
fn refers_back(story: &[Paragraph], i: usize) -> bool
    ensures { IsTrue result → RefersBack story.now i }
{
    match reference(story, i) {
        None => true,
        Some(j) => j < i,
    }
}

/// Whether each paragraph does so.
fn all_refer_back(story: &[Paragraph]) -> bool
    ensures { IsTrue result → (i : ℕ) → i < length story.now → RefersBack story.now i }
{
    for i in 0..story.len() {
        if !refers_back(story, i) {
            return false;
        }
    }
    true
}

/// Whether the move from this square isn't a castling.
fn is_no_castling(board: &Board, way: &Way, from: Square) -> bool
    ensures { IsTrue result → castles_from board.now way.now from ≡ false }
{
    !castles_from(board, way, from)
}

/// Whether none of the moves from these squares is a castling.
fn none_castles(board: &Board, way: &Way, origins: &[Square]) -> bool
    ensures { IsTrue result → All (λ s. castles_from board.now way.now s ≡ false) origins.now }
{
    for from in origins {
        if !is_no_castling(board, way, *from) {
            return false;
        }
    }
    true
}

/// Whether it is one move, or none of them is a castling.
fn is_unmixed(board: &Board, way: &Way) -> bool
    ensures { IsTrue result → IsUnmixed board.now way.now }
{
    if way.origins.len() == 1 {
        return true;
    }
    none_castles(board, way, way.origins.as_slice())
}

/// Whether that holds of each of these ways.
fn are_unmixed(board: &Board, ways: &[Way]) -> bool
    ensures { IsTrue result → All (IsUnmixed board.now) ways.now }
{
    for way in ways {
        if !is_unmixed(board, way) {
            return false;
        }
    }
    true
}

/// Whether it holds of each way of a bundle.
fn is_bundle_unmixed(board: &Board, bundle: &Bundle) -> bool
    ensures { IsTrue result → All (IsUnmixed board.now) bundle.now.ways.items }
{
    are_unmixed(board, bundle.ways.as_slice())
}

/// Whether it holds of each way of these bundles.
fn are_all_unmixed(board: &Board, bundles: &[Bundle]) -> bool
    ensures { IsTrue result → All (λ b. All (IsUnmixed board.now) b.ways.items) bundles.now }
{
    for bundle in bundles {
        if !is_bundle_unmixed(board, bundle) {
            return false;
        }
    }
    true
}

/// Whether the paragraph tells no castling with another move.
fn tells_castlings(paragraph: &Paragraph) -> bool
    ensures { IsTrue result → TellsCastlings paragraph.now }
{
    are_all_unmixed(&paragraph.whence.board, paragraph.bundles.as_slice())
}

/// Whether no castling is told with another move.
fn all_tell_castlings(story: &[Paragraph]) -> bool
    ensures { IsTrue result → All TellsCastlings story.now }
{
    for paragraph in story {
        if !tells_castlings(paragraph) {
            return false;
        }
    }
    true
}

/// Whether the story is one that can be read.
fn is_readable(story: &[Paragraph]) -> bool
    ensures { IsTrue result → IsReadable story.now }
{
    if !are_ordered(story) {
        return false;
    }
    if !are_numbered(story) {
        return false;
    }
    if !all_refer_back(story) {
        return false;
    }
    all_tell_castlings(story)
}

/// Whether the story can be read, and tells each of the nodes, and nothing else.
pub(crate) fn is_story_of(
    alloc: Global,
    points: &[Point],
    story: &[Paragraph],
) -> Result<bool, AllocError>
    ensures { IfOk result (λ yes. IsTrue yes → IsStoryOf points.now story.now) }
{
    if !answers(story, points) {
        return Ok(false);
    }
    if !is_readable(story) {
        return Ok(false);
    }
    let alone = tells_nothing_else(alloc, story, points)?;
    Ok(alone)
}
