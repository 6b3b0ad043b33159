ghost use Rattle.std.specs.Prelude.{◌≡◌, ◌<◌, ◌==◌, IfSome, None, Some, is_none};
ghost use Rattle.fen_text.specs.Fen.{turn};
ghost use Rattle.sketch_text.specs.Heads.{head_line};
ghost use Rattle.cert_text.specs.NodeLines.{back_at, body_at, caps_of, expand_at, kid_body, node_line, promo_of, root_body, rule_of, set_and_potentials};

use crate::arguments::read_potentials;
use crate::lines::is_text;
use crate::reasons::{Reason, read_reason};
use board_base::{Colour, Unmove, read_unmove};
use fen_text::{read_number, read_set, read_turn, split_part};
use query_base::RuleLine;
use sketch_text::{SketchHead, read_sketch_head};

/// What the line of a node says of its body.
#[derive(Clone, Copy, PartialEq, Eq, Debug)]
pub enum BodyLine {
    /// `rule` and the name of a reason.
    Rule(Reason),
    /// `back` and a number of steps, from 1 to the node's depth.
    Back(u8),
    /// `expand` and the number of the node's children, from 0 to 999,999; 0 at depth 255.
    Expand(u32),
    /// `sketch`: the first line of a sketch, whose other lines follow.
    Sketch(SketchHead),
}

/// What the line of a node says.
#[derive(Clone, Copy, PartialEq, Eq, Debug)]
pub struct NodeLine {
    /// The unmove that leads to the node, or None at the root.
    pub label: Option<Unmove>,
    /// What the node is.
    pub body: BodyLine,
}

fn read_side(letter: &[u8]) -> Option<Colour>
    ensures { result ≡ turn letter.now }
{
    read_turn(letter).ok()
}

fn read_promo(text: &[u8]) -> Option<RuleLine>
    ensures { result ≡ promo_of text.now }
{
    let (letter, set) = split_part(text, b' ');
    let Some(set) = set else {
        return None;
    };
    let Some(side) = read_side(letter) else {
        return None;
    };
    match read_set(set) {
        Some(set) => Some(RuleLine::Promo(side, set)),
        None => None,
    }
}

fn read_set_and_potentials(side: Colour, text: &[u8]) -> Option<RuleLine>
    ensures { result ≡ set_and_potentials side text.now }
{
    let (set, potentials) = split_part(text, b' ');
    let Some(potentials) = potentials else {
        return None;
    };
    let Some(set) = read_set(set) else {
        return None;
    };
    match read_potentials(potentials) {
        Some(p) => Some(RuleLine::Caps(side, set, p)),
        None => None,
    }
}

fn read_caps(text: &[u8]) -> Option<RuleLine>
    ensures { result ≡ caps_of text.now }
{
    let (letter, rest) = split_part(text, b' ');
    let Some(rest) = rest else {
        return None;
    };
    match read_side(letter) {
        Some(side) => read_set_and_potentials(side, rest),
        None => None,
    }
}

pub(crate) fn read_rule(name: &[u8]) -> Option<RuleLine>
    ensures { result ≡ rule_of name.now }
{
    if is_text(name, b"kings") {
        Some(RuleLine::Kings)
    } else if is_text(name, b"ranks") {
        Some(RuleLine::Ranks)
    } else if is_text(name, b"check") {
        Some(RuleLine::Check)
    } else if is_text(name, b"rights") {
        Some(RuleLine::Rights)
    } else if name.starts_with(b"count ") {
        match read_side(&name[6..]) {
            Some(side) => Some(RuleLine::Count(side)),
            None => None,
        }
    } else if name.starts_with(b"frozen ") {
        match read_set(&name[7..]) {
            Some(set) => Some(RuleLine::Frozen(set)),
            None => None,
        }
    } else if name.starts_with(b"caps ") {
        read_caps(&name[5..])
    } else if name.starts_with(b"promo ") {
        read_promo(&name[6..])
    } else {
        None
    }
}

fn back_line(depth: u8, number: u32) -> Option<BodyLine>
    ensures { result ≡ back_at depth number }
{
    if 1 <= number && number <= u32::from(depth) {
        Some(BodyLine::Back(number as u8))
    } else {
        None
    }
}

fn expand_line(depth: u8, number: u32) -> Option<BodyLine>
    ensures { result ≡ expand_at depth number }
{
    if number == 0 || depth < 255 {
        Some(BodyLine::Expand(number))
    } else {
        None
    }
}

// It is long, and most lines begin no sketch. What it gives is small: a body would be copied once more, also if this isn't called.
#[inline(never)]
fn read_head(text: &[u8]) -> Option<SketchHead>
    ensures { result ≡ head_line text.now }
{
    read_sketch_head(text)
}

#[tactic(auto, unfolding(crate::specs::NodeLines::body_at))]
#[inline(always)]
fn read_body(depth: u8, text: &[u8]) -> Option<BodyLine>
    ensures { result ≡ body_at depth text.now }
{
    if text.starts_with(b"rule ") {
        return match read_reason(&text[5..]) {
            Some(reason) => Some(BodyLine::Rule(reason)),
            None => None,
        };
    }
    if text.starts_with(b"back ") {
        return match read_number(&text[5..]) {
            Some(number) => back_line(depth, number),
            None => None,
        };
    }
    if text.starts_with(b"expand ") {
        return match read_number(&text[7..]) {
            Some(number) => expand_line(depth, number),
            None => None,
        };
    }
    match read_head(text) {
        Some(head) => Some(BodyLine::Sketch(head)),
        None => None,
    }
}

#[tactic(auto, unfolding(crate::specs::NodeLines::root_body))]
pub(crate) fn read_root(text: &[u8]) -> Option<BodyLine>
    ensures { result ≡ root_body text.now }
{
    if text.starts_with(b"root ") {
        read_body(0, &text[5..])
    } else {
        None
    }
}

#[tactic(auto, unfolding(crate::specs::NodeLines::kid_body))]
#[inline(always)]
pub(crate) fn read_kid(depth: u8, text: &[u8]) -> Option<(Unmove, BodyLine)>
    ensures { result ≡ kid_body depth text.now }
{
    let (label, body) = split_part(text, b' ');
    let Some(body) = body else {
        return None;
    };
    let Some(unmove) = read_unmove(label) else {
        return None;
    };
    match read_body(depth, body) {
        Some(body) => Some((unmove, body)),
        None => None,
    }
}

/// Reads the line of a node at this depth, without its end: at depth 0 `root`, and below it the unmove that leads to the node;
/// then a space, and its body. That is `rule` with one of the names `kings`, `ranks`, `check`, `rights`, `count w` and `count b`, or with
/// `frozen` and a set, `promo` with `w` or `b` and a set, `caps` with `w` or `b`, a set, zero to eight numbers, `/` and eight numbers, or
/// `balance` with a set, sixteen numbers, `/`, sixteen numbers, `/`, and at most sixteen squares in ascending order, each with a number;
/// `back` with a number from 1 to the depth, `expand` with one from 0 to 999,999, which at depth 255 is 0, or the first line of a sketch, as
/// `read_sketch_head` reads it. Numbers are decimal,
/// with no leading zero other than `0` itself; those of `caps` are from -64 to 64, with a `-` in front of those below 0, those of `balance` from 0 to 96,
/// and behind a square from 1; a set is its number
/// of sixteen hexadecimal digits, with letters in lower case. One space stands between two words. None comes if and only if the text is
/// none of these.
pub fn read_line(line: &[u8], depth: u8) -> Option<NodeLine>
    ensures line { result ≡ node_line depth line.now }
    ensures label { IfSome result (λ n. is_none n.label ≡ (depth == 0)) }
{
    if depth == 0 {
        return match read_root(line) {
            Some(body) => Some(NodeLine { label: None, body }),
            None => None,
        };
    }
    match read_kid(depth, line) {
        Some((unmove, body)) => Some(NodeLine {
            label: Some(unmove),
            body,
        }),
        None => None,
    }
}
