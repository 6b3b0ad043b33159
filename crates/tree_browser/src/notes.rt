ghost use Rattle.std.specs.Prelude.{◌≡◌, ◌<◌, ◌≤◌, length, reverse};
ghost use Rattle.unmove_gen.specs.Listed.{unmoves};
ghost use Rattle.tree_browser.specs.Trees.{IsNote};
ghost use Rattle.tree_browser.specs.Pages.{expands};

use query_base::{Query, is_array, steps_back};
use static_rules::close;
use unmove_gen::{Unmoves, few_unmoves};

/// What is said of a node.
#[derive(Clone, Copy)]
pub enum Note {
    /// Some rule line supports its query.
    Closed,
    /// The nearest ancestor that covers it stands so many steps above.
    Back(u8),
    /// The game of no moves reaches it.
    Array,
    /// It stands at the last depth.
    End,
    /// It has so many unmoves.
    Expand(u32),
}

/// A node of this note has children.
pub(crate) fn expands(note: Note) -> bool
    ensures { result ≡ expands note }
{
    matches!(note, Note::Expand(_))
}

/// How many unmoves the query has.
fn count_unmoves(query: &Query) -> u32
    ensures { result ≡ length (unmoves query.now) }
{
    few_unmoves();
    let mut number: u32 = 0;
    let mut left = Unmoves::new(query);
    while left.next().is_some() {
        number += 1;
    }
    number
}

/// What is said of the query below these ancestors, of which the parent comes last, with so many levels left.
pub(crate) fn note_of(query: &Query, ancestors: &[Query], left: u8) -> Note
    requires { length ancestors.now < 256 }
    ensures { IsNote result query.now (reverse ancestors.now) left }
{
    if close(query).is_some() {
        return Note::Closed;
    }
    if let Some(steps) = steps_back(query, ancestors) {
        return Note::Back(steps);
    }
    if is_array(query) {
        return Note::Array;
    }
    if left == 0 {
        return Note::End;
    }
    Note::Expand(count_unmoves(query))
}
