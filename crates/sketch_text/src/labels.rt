ghost use Rattle.std.specs.Prelude.{◌≡◌};
ghost use Rattle.sketch_text.specs.Labels.{above_of, alone, behind, capture_of, captured, label_of, officer_of, step_of, way_of};

use board_base::{Square, read_square};

/// Whom a pawn took.
#[derive(Clone, Copy, PartialEq, Eq, Debug)]
pub enum Victim {
    /// `p`: a pawn.
    Pawn,
    /// `b`: a bishop.
    Bishop,
    /// `nrq`: a knight, a rook or a queen.
    Officer,
    /// `ep`: a pawn, en passant.
    EnPassant,
}

/// Whom a pawn took when it was promoted.
#[derive(Clone, Copy, PartialEq, Eq, Debug)]
pub enum Taken {
    /// `b`: a bishop.
    Bishop,
    /// `nrq`: a knight, a rook or a queen.
    Officer,
}

/// The kind of an officer that is no bishop.
#[derive(Clone, Copy, PartialEq, Eq, Debug)]
pub enum Officer {
    /// `n`.
    Knight,
    /// `r`.
    Rook,
    /// `q`.
    Queen,
}

/// How a pawn went.
#[derive(Clone, Copy, PartialEq, Eq, Debug)]
pub enum Way {
    /// `-`: straight on, as a pawn.
    Straight,
    /// `x`: he took this victim, and so many other pawns of his old file were above him, 0 to 5.
    Capture(Victim, u8),
    /// `=`: straight on, and was promoted.
    Promotion,
    /// `x` and `=`: he took this man, and was promoted.
    CapturePromotion(Taken),
}

/// A step: the squares that a pawn went from and to, and how.
#[derive(Clone, Copy, PartialEq, Eq, Debug)]
pub struct StepLabel {
    /// The square that he left.
    pub from: Square,
    /// The square to which he came.
    pub to: Square,
    /// How he went.
    pub way: Way,
}

/// What leads to a node of a sketch.
#[derive(Clone, Copy, PartialEq, Eq, Debug)]
pub enum Label {
    /// `now`: the first node.
    Now,
    /// A step that is taken back.
    Step(StepLabel),
    /// `case` and a letter: the kind of the man of whom it wasn't known.
    Case(Officer),
}

fn read_above(text: &[u8]) -> Option<u8>
    ensures { result ≡ above_of text.now }
{
    match text {
        [] => Some(0),
        [digit] => {
            if b'1' <= *digit && *digit <= b'5' {
                Some(*digit - b'0')
            } else {
                None
            }
        }
        _ => None,
    }
}

fn alone(way: Way, text: &[u8]) -> Option<Way>
    ensures { result ≡ alone way text.now }
{
    if text.is_empty() { Some(way) } else { None }
}

/// Reads how many are above a pawn who took this victim.
#[tactic(auto, unfolding(crate::specs::Labels::captured))]
fn capture_above(victim: Victim, text: &[u8]) -> Option<Way>
    ensures { result ≡ captured victim text.now }
{
    match read_above(text) {
        Some(n) => Some(Way::Capture(victim, n)),
        None => None,
    }
}

#[tactic(auto, unfolding(crate::specs::Labels::behind))]
fn read_behind(taken: Taken, victim: Victim, text: &[u8]) -> Option<Way>
    ensures { result ≡ behind taken victim text.now }
{
    if text == b"=".as_slice() {
        return Some(Way::CapturePromotion(taken));
    }
    capture_above(victim, text)
}

#[tactic(auto, unfolding(crate::specs::Labels::capture_of))]
fn read_capture(text: &[u8]) -> Option<Way>
    ensures { result ≡ capture_of text.now }
{
    if text.starts_with(b"nrq") {
        return read_behind(Taken::Officer, Victim::Officer, &text[3..]);
    }
    if text.starts_with(b"ep") {
        return capture_above(Victim::EnPassant, &text[2..]);
    }
    if text.starts_with(b"p") {
        return capture_above(Victim::Pawn, &text[1..]);
    }
    if text.starts_with(b"b") {
        return read_behind(Taken::Bishop, Victim::Bishop, &text[1..]);
    }
    None
}

#[tactic(auto, unfolding(crate::specs::Labels::way_of))]
fn read_way(sign: u8, text: &[u8]) -> Option<Way>
    ensures { result ≡ way_of sign text.now }
{
    match sign {
        b'-' => alone(Way::Straight, text),
        b'=' => alone(Way::Promotion, text),
        b'x' => read_capture(text),
        _ => None,
    }
}

fn read_step(text: &[u8]) -> Option<StepLabel>
    ensures { result ≡ step_of text.now }
{
    if text.len() < 5 {
        return None;
    }
    let Some(from) = read_square(text[0], text[1]) else {
        return None;
    };
    let Some(to) = read_square(text[3], text[4]) else {
        return None;
    };
    match read_way(text[2], &text[5..]) {
        Some(way) => Some(StepLabel { from, to, way }),
        None => None,
    }
}

/// Reads the label of a node but for `case`: `now`, or a step. That is the origin, `-`, `x` or `=`, and the target; behind a capture the
/// victim, `p`, `b`, `nrq` or `ep`, and from 1 to 5 how many other pawns of the file are above, or of `b` and `nrq` a `=` if the pawn
/// was promoted. None comes if and only if the text is none of these.
#[tactic(auto, unfolding(crate::specs::Labels::label_of))]
pub fn read_label(text: &[u8]) -> Option<Label>
    ensures { result ≡ label_of text.now }
{
    if text == b"now".as_slice() {
        return Some(Label::Now);
    }
    match read_step(text) {
        Some(step) => Some(Label::Step(step)),
        None => None,
    }
}

#[tactic(auto, unfolding(crate::specs::Labels::officer_of))]
pub(crate) fn read_officer(text: &[u8]) -> Option<Officer>
    ensures { result ≡ officer_of text.now }
{
    match text {
        b"n" => Some(Officer::Knight),
        b"r" => Some(Officer::Rook),
        b"q" => Some(Officer::Queen),
        _ => None,
    }
}
