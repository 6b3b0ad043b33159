ghost use Rattle.std.specs.Prelude.{◌≡◌, ◌&&◌};
ghost use Rattle.std.specs.List.{list_all};
ghost use Rattle.sketch_checker.specs.Seen.{line_of};
ghost use Rattle.sketch_text.specs.Labels.{is_label};
ghost use Rattle.sketch_text.specs.Marks.{are_figures, is_mark};
ghost use Rattle.sketch_text.specs.Nodes.{is_end, is_node};
ghost use Rattle.sketch_found.specs.Found.{has_few, is_line};

use sketch_checker::SketchLine;
use sketch_text::{End, Label, MarkLine, SketchNode, Way};

/// Whether the label can be written: at most five pawns are above one who captured.
fn is_label(label: Label) -> bool
    ensures { result ≡ is_label label }
{
    match label {
        Label::Step(step) => match step.way {
            Way::Capture(_, above) => above <= 5,
            Way::Straight | Way::Promotion | Way::CapturePromotion(_) => true,
        },
        Label::Now | Label::Case(_) => true,
    }
}

/// Whether the end of a node can be written, if there are so many lines of prices, and no more steps than this follow.
fn is_end(prices: usize, most: usize, end: End) -> bool
    ensures { result ≡ (is_end prices end && has_few most end) }
{
    match end {
        End::Void | End::Split(_) => true,
        End::Closed(number) => 1 <= number && number as usize <= prices,
        End::Steps(count) => count <= 1_024 && count as usize <= most,
    }
}

/// Whether the line of a node is so.
fn is_node(prices: usize, most: usize, node: &SketchNode) -> bool
    ensures { result ≡ (is_node prices node.now && has_few most node.now.end) }
{
    let label = is_label(node.label);
    let end = is_end(prices, most, node.end);
    label & (node.marks <= 8) & end
}

/// Whether these are numbers of figures from 1 to 32, ascending.
fn are_figures(figures: &[u8]) -> bool
    ensures { result ≡ are_figures 1 figures.now }
{
    let mut least = 1u8;
    for figure in figures {
        if *figure < least || 32 < *figure {
            return false;
        }
        least = *figure + 1;
    }
    true
}

/// Whether a line of marks can be written, if there are so many lines of prices.
fn is_mark(prices: usize, marks: &MarkLine) -> bool
    ensures { result ≡ is_mark prices marks.now }
{
    let by = marks.by();
    let figures = marks.figures();
    let ascending = are_figures(figures);
    (1 <= by) & (by as usize <= prices) & !figures.is_empty() & ascending
}

/// Whether the line can be written, if there are so many lines of prices, and no more steps than this follow it.
fn is_line(prices: usize, most: usize, line: &SketchLine) -> bool
    ensures { result ≡ is_line prices most (line_of line.now) }
{
    match line {
        SketchLine::Node(node) => is_node(prices, most, node),
        SketchLine::Marks(marks) => is_mark(prices, marks),
    }
}

/// Whether each of these lines is so.
pub(crate) fn are_lines(prices: usize, most: usize, lines: &[SketchLine]) -> bool
    ensures { result ≡ list_all (λ l. is_line prices most (line_of l)) lines.now }
{
    lines.iter().all(|line| is_line(prices, most, line))
}
