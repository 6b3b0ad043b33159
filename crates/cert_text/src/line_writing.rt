ghost use Rattle.std.specs.Prelude.{ℕ, List, ◌≡◌, ◌+◌, ◌≤◌, ◌++◌, [], IsTrue, Some, length};
ghost use Rattle.sketch_text.specs.Heads.{head_text, is_head};
ghost use Rattle.std.specs.Fmt.{decimal};
ghost use Rattle.cert_text.specs.NodeLines.{node_line, body_text, line_text, reason_name, rule_name, IsLine};
ghost use Rattle.cert_text.specs.Written.{IsLabel, IsSketchLine, label_text};

use crate::argument_writing::{push_potentials, push_set};
use crate::node_lines::{BodyLine, NodeLine};
use crate::reasons::Reason;
use arrayvec::ArrayVec;
use board_base::{Unmove, write_unmove};
use fen_text::{push_text, turn_letter};
use itoa::Buffer;
use price_text::push_prices;
use query_base::RuleLine;
use sketch_text::{SketchHead, write_sketch_head};

fn push_number(number: u32, out: &mut ArrayVec<u8, 256>)
    requires { length out.old.items + 10 ≤ 256 }
    ensures text { out.new.items ≡ out.old.items ++ decimal number }
    ensures short { length out.new.items ≤ length out.old.items + 10 }
{
    let mut buffer = Buffer::new();
    push_text(buffer.format(number).as_bytes(), out);
}

/// Puts the name of the rule, with what stands behind it, after the others.
fn push_rule(rule: &RuleLine, out: &mut ArrayVec<u8, 256>)
    requires { length out.old.items + 89 ≤ 256 }
    ensures text { out.new.items ≡ out.old.items ++ rule_name rule.now }
    ensures short { length out.new.items ≤ length out.old.items + 89 }
{
    match rule {
        RuleLine::Kings => push_text(b"kings", out),
        RuleLine::Ranks => push_text(b"ranks", out),
        RuleLine::Check => push_text(b"check", out),
        RuleLine::Rights => push_text(b"rights", out),
        RuleLine::Count(side) => {
            push_text(b"count ", out);
            out.push(turn_letter(*side));
        }
        RuleLine::Frozen(set) => {
            push_text(b"frozen ", out);
            push_set(*set, out);
        }
        RuleLine::Caps(side, set, p) => {
            push_text(b"caps ", out);
            out.push(turn_letter(*side));
            out.push(b' ');
            push_set(*set, out);
            out.push(b' ');
            push_potentials(p, out);
        }
        RuleLine::Promo(side, set) => {
            push_text(b"promo ", out);
            out.push(turn_letter(*side));
            out.push(b' ');
            push_set(*set, out);
        }
    }
}

/// Puts the name of the reason, with what stands behind it, after the others.
fn push_reason(reason: &Reason, out: &mut ArrayVec<u8, 256>)
    requires { length out.old.items + 220 ≤ 256 }
    ensures text { out.new.items ≡ out.old.items ++ reason_name reason.now }
    ensures short { length out.new.items ≤ length out.old.items + 220 }
{
    match reason {
        Reason::Line(rule) => push_rule(rule, out),
        Reason::Balance(set, prices) => {
            push_text(b"balance ", out);
            push_set(*set, out);
            out.push(b' ');
            push_prices(prices, out);
        }
    }
}

/// Puts the first line of a sketch after the others.
#[inline(never)]
fn push_head(head: &SketchHead, out: &mut ArrayVec<u8, 256>)
    requires room { length out.old.items + 24 ≤ 256 }
    requires known { IsTrue (is_head head.now) }
    ensures text { out.new.items ≡ out.old.items ++ head_text head.now }
    ensures short { length out.new.items ≤ length out.old.items + 24 }
{
    let mut text: ArrayVec<u8, 256> = ArrayVec::new();
    write_sketch_head(head, &mut text);
    push_text(text.as_slice(), out);
}

fn push_body(body: &BodyLine, out: &mut ArrayVec<u8, 256>)
    requires room { length out.old.items + 225 ≤ 256 }
    requires known { IsSketchLine body.now }
    ensures text { out.new.items ≡ out.old.items ++ body_text body.now }
    ensures short { length out.new.items ≤ length out.old.items + 225 }
{
    match body {
        BodyLine::Rule(reason) => {
            push_text(b"rule ", out);
            push_reason(reason, out);
        }
        BodyLine::Back(steps) => {
            push_text(b"back ", out);
            push_number(u32::from(*steps), out);
        }
        BodyLine::Expand(count) => {
            push_text(b"expand ", out);
            push_number(*count, out);
        }
        BodyLine::Sketch(head) => push_head(head, out),
    }
}

fn push_label(label: &Option<Unmove>, out: &mut ArrayVec<u8, 256>)
    requires empty { out.old.items ≡ [] }
    requires label { IsLabel label.now }
    ensures text { out.new.items ≡ label_text label.now }
    ensures short { length out.new.items ≤ 8 }
{
    match label {
        None => push_text(b"root ", out),
        Some(unmove) => {
            let mut name: ArrayVec<u8, 8> = ArrayVec::new();
            write_unmove(unmove, &mut name);
            push_text(name.as_slice(), out);
            out.push(b' ');
        }
    }
}

/// Writes the text of a node's line whose label, if it has one, has a text.
pub(crate) fn push_line(line: &NodeLine, out: &mut ArrayVec<u8, 256>)
    requires empty { out.old.items ≡ [] }
    requires label { IsLabel line.now.label }
    requires known { IsSketchLine line.now.body }
    ensures text { out.new.items ≡ line_text line.now }
    ensures short { length out.new.items ≤ 233 }
{
    push_label(&line.label, out);
    push_body(&line.body, out);
}

/// Writes the one text of a node's line, without its end, of at most 233 bytes. `out` is empty before, and the line is one of the
/// grammar: `read_line` reads some text at some depth as this line. At each such depth it reads what is written as this line.
pub fn write_line(line: &NodeLine, out: &mut ArrayVec<u8, 256>)
    requires empty { out.old.items ≡ [] }
    requires line { IsLine line.now }
    ensures text { out.new.items ≡ line_text line.now }
    ensures short { length out.new.items ≤ 233 }
    ensures read { (depth : ℕ) (text : List ℕ) → node_line depth text ≡ Some line.now → node_line depth out.new.items ≡ Some line.now }
{
    push_line(line, out);
}
