ghost use Rattle.std.specs.Prelude.{◌≡◌, ◌+◌, ◌<◌, ◌≤◌, ◌++◌, [], ◌∷◌, IsTrue, Some, ℕ, length, map};
ghost use Rattle.std.specs.Fmt.{decimal};
ghost use Rattle.std.specs.List.{All};
ghost use Rattle.sketch_text.specs.Heads.{files_text, head_line, head_text, is_head};
ghost use Rattle.sketch_text.specs.Labels.{above_text, is_label, is_way, label_text, officer_text, sign_of, step_text, taken_text, victim_text, way_text};
ghost use Rattle.sketch_text.specs.Marks.{figures_text, is_mark, mark_line, mark_text};
ghost use Rattle.sketch_text.specs.Nodes.{end_text, is_node, marks_text, node_of, node_text};

use crate::heads::SketchHead;
use crate::labels::{Label, Officer, StepLabel, Taken, Victim, Way};
use crate::marks::MarkLine;
use crate::nodes::{End, SketchNode};
use arrayvec::ArrayVec;
use board_base::push_square;
use fen_text::push_text;
use itoa::Buffer;

fn push_number(number: u32, out: &mut ArrayVec<u8, 256>)
    requires { length out.old.items + 10 ≤ 256 }
    ensures text { out.new.items ≡ out.old.items ++ decimal number }
    ensures short { length out.new.items ≤ length out.old.items + 10 }
{
    let mut buffer = Buffer::new();
    push_text(buffer.format(number).as_bytes(), out);
}

fn push_above(n: u8, out: &mut ArrayVec<u8, 256>)
    requires room { length out.old.items + 1 ≤ 256 }
    requires few { n ≤ 5 }
    ensures text { out.new.items ≡ out.old.items ++ above_text n }
    ensures short { length out.new.items ≤ length out.old.items + 1 }
{
    if n > 0 {
        out.push(b'0' + n);
    }
}

fn victim_name(victim: Victim) -> &'static [u8]
    ensures text { result.now ≡ victim_text victim }
    ensures short { length result.now ≤ 3 }
{
    match victim {
        Victim::Pawn => b"p",
        Victim::Bishop => b"b",
        Victim::Officer => b"nrq",
        Victim::EnPassant => b"ep",
    }
}

fn taken_name(taken: Taken) -> &'static [u8]
    ensures text { result.now ≡ taken_text taken }
    ensures short { length result.now ≤ 3 }
{
    match taken {
        Taken::Bishop => b"b",
        Taken::Officer => b"nrq",
    }
}

/// The sign between the squares of a step.
fn sign(way: Way) -> u8
    ensures { result ≡ sign_of way }
{
    match way {
        Way::Straight => b'-',
        Way::Promotion => b'=',
        Way::Capture(..) | Way::CapturePromotion(_) => b'x',
    }
}

/// Puts what stands behind the target of a step after what stands in `out`.
fn push_way(way: Way, out: &mut ArrayVec<u8, 256>)
    requires room { length out.old.items + 4 ≤ 256 }
    requires known { IsTrue (is_way way) }
    ensures text { out.new.items ≡ out.old.items ++ way_text way }
    ensures short { length out.new.items ≤ length out.old.items + 4 }
{
    match way {
        Way::Straight | Way::Promotion => {}
        Way::Capture(victim, n) => {
            push_text(victim_name(victim), out);
            push_above(n, out);
        }
        Way::CapturePromotion(taken) => {
            push_text(taken_name(taken), out);
            out.push(b'=');
        }
    }
}

#[tactic(auto, unfolding(crate::specs::Labels::step_text))]
fn push_step(step: &StepLabel, out: &mut ArrayVec<u8, 256>)
    requires room { length out.old.items + 9 ≤ 256 }
    requires known { IsTrue (is_way step.now.way) }
    ensures text { out.new.items ≡ out.old.items ++ step_text step.now }
    ensures short { length out.new.items ≤ length out.old.items + 9 }
{
    push_square(step.from, out);
    out.push(sign(step.way));
    push_square(step.to, out);
    push_way(step.way, out);
}

fn officer_letter(officer: Officer) -> u8
    ensures { officer_text officer ≡ result ∷ [] }
{
    match officer {
        Officer::Knight => b'n',
        Officer::Rook => b'r',
        Officer::Queen => b'q',
    }
}

#[tactic(auto, unfolding(crate::specs::Labels::label_text))]
fn push_label(label: &Label, out: &mut ArrayVec<u8, 256>)
    requires room { length out.old.items + 9 ≤ 256 }
    requires known { IsTrue (is_label label.now) }
    ensures text { out.new.items ≡ out.old.items ++ label_text label.now }
    ensures short { length out.new.items ≤ length out.old.items + 9 }
{
    match label {
        Label::Now => push_text(b"now", out),
        Label::Step(step) => push_step(step, out),
        Label::Case(officer) => {
            push_text(b"case ", out);
            out.push(officer_letter(*officer));
        }
    }
}

fn push_marks(count: u8, out: &mut ArrayVec<u8, 256>)
    requires { length out.old.items + 17 ≤ 256 }
    ensures text { out.new.items ≡ out.old.items ++ marks_text count }
    ensures short { length out.new.items ≤ length out.old.items + 17 }
{
    if count > 0 {
        push_text(b"marks ", out);
        push_number(u32::from(count), out);
        out.push(b' ');
    }
}

fn push_end(end: &End, out: &mut ArrayVec<u8, 256>)
    requires { length out.old.items + 17 ≤ 256 }
    ensures text { out.new.items ≡ out.old.items ++ end_text end.now }
    ensures short { length out.new.items ≤ length out.old.items + 17 }
{
    match end {
        End::Void => push_text(b"void", out),
        End::Closed(k) => {
            push_text(b"closed ", out);
            push_number(u32::from(*k), out);
        }
        End::Steps(count) => {
            push_text(b"steps ", out);
            push_number(u32::from(*count), out);
        }
        End::Split(square) => {
            push_text(b"split ", out);
            push_square(*square, out);
        }
    }
}

/// Writes the one text of a node's line, without its end, of at most 44 bytes. `out` is empty before, and the node is one of a sketch that
/// has so many lines of prices: `read_sketch_node` reads what is written as this node.
#[tactic(auto, unfolding(crate::specs::Nodes::node_text))]
pub fn write_sketch_node(node: &SketchNode, out: &mut ArrayVec<u8, 256>)
    requires empty { out.old.items ≡ [] }
    requires label { IsTrue (is_label node.now.label) }
    ensures text { out.new.items ≡ node_text node.now }
    ensures short { length out.new.items ≤ 44 }
    ensures read { (P : ℕ) → P ≤ 64 → IsTrue (is_node P node.now) → node_of P out.new.items ≡ Some node.now }
{
    push_label(&node.label, out);
    out.push(b' ');
    push_marks(node.marks, out);
    push_end(&node.end, out);
}

/// Puts a number of at most two digits after what stands in `out`.
fn push_short(number: u8, out: &mut ArrayVec<u8, 256>)
    requires room { length out.old.items + 2 ≤ 256 }
    requires low { number ≤ 64 }
    ensures text { out.new.items ≡ out.old.items ++ decimal number }
    ensures short { length out.new.items ≤ length out.old.items + 2 }
{
    let mut buffer = Buffer::new();
    push_text(buffer.format(number).as_bytes(), out);
}

/// Puts the numbers of figures, of at most two digits, after what stands in `out`, each behind a space.
fn push_figures(figures: &[u8], out: &mut ArrayVec<u8, 256>)
    requires room { length out.old.items + 96 ≤ 256 }
    requires few { length figures.now ≤ 32 }
    requires low { All (λ i. i ≤ 32) figures.now }
    ensures text { out.new.items ≡ out.old.items ++ figures_text figures.now }
    ensures short { length out.new.items ≤ length out.old.items + 96 }
{
    for figure in figures {
        out.push(b' ');
        push_short(*figure, out);
    }
}

/// Writes the one text of a line of marks, without its end, of at most 103 bytes. `out` is empty before, and the line is one of a sketch that
/// has so many lines of prices, at most 64: `read_marks` reads what is written as this line.
#[tactic(auto, unfolding(crate::specs::Marks::mark_text))]
pub fn write_marks(prices: u8, line: &MarkLine, out: &mut ArrayVec<u8, 256>)
    requires empty { out.old.items ≡ [] }
    requires prices { prices ≤ 64 }
    requires known { IsTrue (is_mark prices line.now) }
    ensures text { out.new.items ≡ mark_text line.now }
    ensures short { length out.new.items ≤ 103 }
    ensures read { mark_line prices out.new.items ≡ Some line.now }
{
    push_text(b"mark ", out);
    push_short(line.by(), out);
    push_figures(line.figures(), out);
}

/// Puts the letters of files after what stands in `out`.
fn push_letters(files: &[u8], out: &mut ArrayVec<u8, 256>)
    requires room { length out.old.items + 8 ≤ 256 }
    requires few { length files.now ≤ 8 }
    requires low { All (λ f. f < 8) files.now }
    ensures text { out.new.items ≡ out.old.items ++ map (λ x. 97 + x) files.now }
    ensures short { length out.new.items ≤ length out.old.items + 8 }
{
    for file in files {
        out.push(b'a' + *file);
    }
}

fn push_files(files: &[u8], out: &mut ArrayVec<u8, 256>)
    requires room { length out.old.items + 15 ≤ 256 }
    requires few { length files.now ≤ 8 }
    requires low { All (λ f. f < 8) files.now }
    ensures text { out.new.items ≡ out.old.items ++ files_text files.now }
    ensures short { length out.new.items ≤ length out.old.items + 15 }
{
    if !files.is_empty() {
        push_text(b" files ", out);
        push_letters(files, out);
    }
}

/// Writes the one text of the line that begins a sketch, without its end, of at most 24 bytes. `out` is empty before, and there are at most
/// 64 lines of prices, and ascending files: `read_sketch_head` reads what is written as this line.
#[tactic(auto, unfolding(crate::specs::Heads::head_text))]
pub fn write_sketch_head(head: &SketchHead, out: &mut ArrayVec<u8, 256>)
    requires empty { out.old.items ≡ [] }
    requires known { IsTrue (is_head head.now) }
    ensures text { out.new.items ≡ head_text head.now }
    ensures short { length out.new.items ≤ 24 }
    ensures read { head_line out.new.items ≡ Some head.now }
{
    push_text(b"sketch ", out);
    push_short(head.prices(), out);
    push_files(head.files(), out);
}
