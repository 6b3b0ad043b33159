//! How a node is looked up in a story.

ghost use Rattle.std.specs.Prelude.{◌≡◌, ◌==◌, Some, IsTrue};
ghost use Rattle.std.specs.List.{find, list_any};
ghost use Rattle.board_base.specs.Legal.{same_promo};
ghost use Rattle.proof_story.specs.Rendering.{number_at};
ghost use Rattle.proof_story.specs.Story.{below, chosen, fits, goes, is_in_bundle, is_rest, names, next, own_words, reference, takes, walk, words_at};

use crate::letters::{Letters, are_same};
use crate::stories::{Bundle, Paragraph, Said, Way};
use board_base::{Kind, Square, Unmove, UnmoveList};

/// Whether this kind was captured.
fn is_kind(kind: Kind, captured: Option<Kind>) -> bool
    ensures { result ≡ same_promo (Some kind) captured }
{
    Some(kind) == captured
}

/// Whether one of these kinds was captured.
fn is_one_of(kinds: &[Kind], captured: Option<Kind>) -> bool
    ensures { result ≡ list_any (λ k. same_promo (Some k) captured) kinds.now }
{
    for kind in kinds {
        if is_kind(*kind, captured) {
            return true;
        }
    }
    false
}

/// Whether one of these kinds was captured; if none are named, whether nobody was.
fn takes(kinds: &[Kind], captured: Option<Kind>) -> bool
    ensures { result ≡ takes kinds.now captured }
{
    if kinds.len() == 0 {
        captured.is_none()
    } else {
        is_one_of(kinds, captured)
    }
}

/// Whether the square is one of these.
fn is_origin(origins: &[Square], from: Square) -> bool
    ensures { result ≡ list_any (λ s. s == from) origins.now }
{
    for s in origins {
        if *s == from {
            return true;
        }
    }
    false
}

/// Whether the retraction is of one of these moves.
fn goes(u: &Unmove, way: &Way) -> bool
    ensures { result ≡ goes u.now way.now }
{
    way.to == u.mv.to && way.promo == u.mv.promo && is_origin(way.origins.as_slice(), u.mv.from)
}

/// Whether what the retraction captured is as the bundle says.
fn fits(u: &Unmove, bundle: &Bundle) -> bool
    ensures { result ≡ fits u.now bundle.now }
{
    if u.ep {
        bundle.passing
    } else {
        !bundle.passing && takes(bundle.taken.as_slice(), u.captured)
    }
}

/// Whether the retraction is of a move of one of these ways.
fn is_way(u: &Unmove, ways: &[Way]) -> bool
    ensures { result ≡ list_any (goes u.now) ways.now }
{
    for way in ways {
        if goes(u, way) {
            return true;
        }
    }
    false
}

/// Whether the retraction is one of the bundle's.
fn is_in_bundle(u: &Unmove, bundle: &Bundle) -> bool
    ensures { result ≡ is_in_bundle u.now bundle.now }
{
    fits(u, bundle) && is_way(u, bundle.ways.as_slice())
}

/// Whether the retraction is one of these bundles'.
fn is_bundled(u: &Unmove, bundles: &[Bundle]) -> bool
    ensures { result ≡ list_any (is_in_bundle u.now) bundles.now }
{
    for bundle in bundles {
        if is_in_bundle(u, bundle) {
            return true;
        }
    }
    false
}

/// Whether the paragraph at this place names the retraction.
fn names(story: &[Paragraph], u: &Unmove, i: usize) -> bool
    ensures { result ≡ names story.now u.now i }
{
    match story.get(i) {
        None => false,
        Some(paragraph) => is_bundled(u, paragraph.bundles.as_slice()),
    }
}

/// Whether the paragraph at this place tells every other move.
fn is_rest(story: &[Paragraph], i: usize) -> bool
    ensures { result ≡ is_rest story.now i }
{
    match story.get(i) {
        None => false,
        Some(paragraph) => paragraph.is_rest,
    }
}

/// The first of these paragraphs that names the retraction.
fn named(story: &[Paragraph], u: &Unmove, places: &[usize]) -> Option<usize>
    ensures { result ≡ find (names story.now u.now) places.now }
{
    for i in places {
        if names(story, u, *i) {
            return Some(*i);
        }
    }
    None
}

/// The first of these paragraphs that tells every other move.
fn rest(story: &[Paragraph], places: &[usize]) -> Option<usize>
    ensures { result ≡ find (is_rest story.now) places.now }
{
    for i in places {
        if is_rest(story, *i) {
            return Some(*i);
        }
    }
    None
}

/// Of these paragraphs the first that names the retraction, or else the first that tells every other move.
fn chosen(story: &[Paragraph], u: &Unmove, places: &[usize]) -> Option<usize>
    ensures { result ≡ chosen story.now u.now places.now }
{
    match named(story, u, places) {
        Some(i) => Some(i),
        None => rest(story, places),
    }
}

/// The paragraphs below this one.
pub(crate) fn below(story: &[Paragraph], i: usize) -> &[usize]
    ensures { result.now ≡ below story.now i }
{
    match story.get(i) {
        None => &[],
        Some(paragraph) => paragraph.below.as_slice(),
    }
}

/// The number of this paragraph.
pub(crate) fn number_at(story: &[Paragraph], i: usize) -> &[usize]
    ensures { result.now ≡ number_at story.now i }
{
    match story.get(i) {
        None => &[],
        Some(paragraph) => paragraph.number.as_slice(),
    }
}

/// The paragraph as in which this one is.
pub(crate) fn reference(story: &[Paragraph], i: usize) -> Option<usize>
    ensures { result ≡ reference story.now i }
{
    match story.get(i) {
        None => None,
        Some(paragraph) => match paragraph.said {
            Said::Words(_) => None,
            Said::As(j) => Some(j),
        },
    }
}

/// The paragraph that tells the node to which a retraction leads.
fn next(story: &[Paragraph], i: usize, u: &Unmove) -> Option<usize>
    ensures { result ≡ next story.now i u.now }
{
    let mut at = i;
    for _ in 0..story.len() {
        match chosen(story, u, below(story, at)) {
            Some(k) => return Some(k),
            None => match reference(story, at) {
                None => return None,
                Some(j) => at = j,
            },
        }
    }
    None
}

/// The paragraph to which these retractions lead.
pub(crate) fn walked(story: &[Paragraph], path: &UnmoveList) -> Option<usize>
    ensures { result ≡ walk story.now 0 path.now }
{
    let mut at = 0;
    for k in 0..path.len() {
        match path.get(k) {
            None => return None,
            Some(u) => match next(story, at, &u) {
                None => return None,
                Some(j) => at = j,
            },
        }
    }
    Some(at)
}

/// Whether the words are this text.
fn has_text(words: &Letters, body: &[u8]) -> bool
    ensures { IsTrue result → words.now ≡ body.now }
{
    are_same(words.text(), body)
}

/// Whether this paragraph says so in words of its own.
fn is_worded(story: &[Paragraph], i: usize, body: &[u8]) -> bool
    ensures { IsTrue result → own_words story.now i ≡ Some body.now }
{
    match story.get(i) {
        None => false,
        Some(paragraph) => match &paragraph.said {
            Said::Words(words) => has_text(words, body),
            Said::As(_) => false,
        },
    }
}

/// Whether this paragraph says so, if need be by that as in which it is, and so on.
pub(crate) fn has_words(story: &[Paragraph], i: usize, body: &[u8]) -> bool
    ensures { IsTrue result → words_at story.now i ≡ Some body.now }
{
    let mut at = i;
    for _ in 0..story.len() {
        match reference(story, at) {
            None => return is_worded(story, at, body),
            Some(j) => at = j,
        }
    }
    false
}
