ghost use Rattle.std.specs.Prelude.{◌≡◌, ◌<◌, ◌≤◌, MatchOption, None, Some, length};
ghost use Rattle.sketch_text.specs.Heads.{files_of, head_line, head_of, letters_from, some_letters};
ghost use Rattle.sketch_text.specs.Nodes.{number_within};

use crate::cutting::halves;
use crate::numbers::read_within;
use arrayvec::ArrayVec;
use std::marker::Model;

/// What the line says that begins a sketch: how many lines of prices follow, and the exact files, on which pawns' moves are taken back one
/// by one. Contracts see it as this number and those of the files, counted from 0.
#[derive(Clone, Copy, PartialEq, Eq, Debug)]
pub struct SketchHead {
    prices: u8,
    /// The files come first, and zeros fill the rest.
    places: [u8; 8],
    count: u8,
}

impl Model for SketchHead {
    ghost use Rattle.sketch_text.specs.Heads.{Head};

    ghost Value = { Head };

    ghost use Rattle.sketch_text.specs.StoredHeads.{seen, stored, IsStored, stored-seen};

    ghost view = { seen };

    ghost invariant = { IsStored };

    ghost inverse = { stored };

    ghost inverse_ok = { stored-seen };
}

impl SketchHead {
    /// The line of a sketch with so many lines of prices. None comes if and only if there are more than eight files.
    pub fn new(prices: u8, files: &[u8]) -> Option<SketchHead>
        ensures { MatchOption result (8 < length files.now) (λ h. (h.prices ≡ prices) × (h.files ≡ files.now)) }
    {
        if files.len() <= 8 {
            Some(SketchHead::known(prices, files))
        } else {
            None
        }
    }

    fn known(prices: u8, files: &[u8]) -> SketchHead
        requires { length files.now ≤ 8 }
        ensures { result ≡ record { prices = prices; files = files.now } }
    {
        let mut places = [0; 8];
        places[..files.len()].copy_from_slice(files);
        SketchHead {
            prices,
            places,
            count: files.len() as u8,
        }
    }

    /// How many lines of prices follow.
    pub fn prices(&self) -> u8
        ensures { result ≡ self.now.prices }
    {
        self.prices
    }

    /// The numbers of the exact files, from 0 for a to 7 for h.
    pub fn files(&self) -> &[u8]
        ensures value { result.now ≡ self.now.files }
        ensures few { length self.now.files ≤ 8 }
    {
        &self.places[..self.count as usize]
    }
}

/// Reads letters of files, ascending.
fn read_letters(text: &[u8]) -> Option<ArrayVec<u8, 8>>
    ensures { MatchOption result (letters_from 97 text.now ≡ None) (λ files. letters_from 97 text.now ≡ Some files.items) }
{
    let mut files = ArrayVec::new();
    let mut least = b'a';
    for letter in text {
        if *letter < least || b'h' < *letter {
            return None;
        }
        files.push(*letter - b'a');
        least = *letter + 1;
    }
    Some(files)
}

fn read_some_letters(text: &[u8]) -> Option<ArrayVec<u8, 8>>
    ensures { MatchOption result (some_letters text.now ≡ None) (λ files. some_letters text.now ≡ Some files.items) }
{
    if text.is_empty() {
        None
    } else {
        read_letters(text)
    }
}

#[tactic(auto, unfolding(crate::specs::Heads::files_of))]
fn read_files(text: &[u8]) -> Option<ArrayVec<u8, 8>>
    ensures { MatchOption result (files_of text.now ≡ None) (λ files. files_of text.now ≡ Some files.items) }
{
    if text.starts_with(b"files ") {
        read_some_letters(&text[6..])
    } else {
        None
    }
}

/// Reads a number of lines of prices.
fn read_prices(text: &[u8]) -> Option<u8>
    ensures { result ≡ number_within 0 64 text.now }
{
    match read_within(0, 64, text) {
        Some(prices) => Some(prices as u8),
        None => None,
    }
}

#[tactic(auto, using(crate::proofs::Parted::none_always), unfolding(crate::specs::Heads::head_of, fen_text::specs::Parts::parted))]
fn read_behind_sketch(text: &[u8]) -> Option<SketchHead>
    ensures { MatchOption result (head_of text.now ≡ None) (λ h. head_of text.now ≡ Some h) }
{
    let Some((number, rest)) = halves(text) else {
        return match read_prices(text) {
            Some(prices) => Some(SketchHead::known(prices, &[])),
            None => None,
        };
    };
    let Some(prices) = read_prices(number) else {
        return None;
    };
    match read_files(rest) {
        Some(files) => Some(SketchHead::known(prices, files.as_slice())),
        None => None,
    }
}

/// Reads the line that begins a sketch, without its end: `sketch`, a number from 0 to 64 of lines of prices, and, if some files are exact,
/// `files` and their letters, ascending. One space stands between two words. None comes if and only if the text is no such.
#[tactic(auto, unfolding(crate::specs::Heads::head_line))]
pub fn read_sketch_head(text: &[u8]) -> Option<SketchHead>
    ensures { MatchOption result (head_line text.now ≡ None) (λ h. head_line text.now ≡ Some h) }
{
    if text.starts_with(b"sketch ") {
        read_behind_sketch(&text[7..])
    } else {
        None
    }
}
