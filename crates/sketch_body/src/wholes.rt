ghost use Rattle.std.specs.Prelude.{◌≡◌, ◌-◌};
ghost use Rattle.std.specs.List.{list_all};
ghost use Rattle.capture_prices.specs.Prices.{are_prices};
ghost use Rattle.sketch_text.specs.Heads.{are_files};
ghost use Rattle.sketch_text.specs.Labels.{is_label, is_way};
ghost use Rattle.sketch_text.specs.Marks.{are_figures, is_mark};
ghost use Rattle.sketch_text.specs.Nodes.{is_end, is_node};
ghost use Rattle.sketch_body.specs.Bodies.{of_line};
ghost use Rattle.sketch_body.specs.Seen.{line_of};
ghost use Rattle.sketch_body.specs.Texts.{is_item};

use crate::lines::SketchLine;
use capture_prices::Prices;
use price_text::are_priced;
use sketch_text::{End, Label, MarkLine, SketchNode, Way};

fn is_way(way: &Way) -> bool
    ensures { result ≡ is_way way.now }
{
    match way {
        Way::Capture(_, above) => *above <= 5,
        Way::Straight | Way::Promotion | Way::CapturePromotion(_) => true,
    }
}

fn is_label(label: &Label) -> bool
    ensures { result ≡ is_label label.now }
{
    match label {
        Label::Step(step) => step.from.index() < 64 && step.to.index() < 64 && is_way(&step.way),
        Label::Now | Label::Case(_) => true,
    }
}

fn is_end(prices: u8, end: &End) -> bool
    ensures { result ≡ is_end prices end.now }
{
    match end {
        End::Void => true,
        End::Closed(number) => 1 <= *number && *number <= prices,
        End::Steps(count) => *count <= 1_024,
        End::Split(square) => square.index() < 64,
    }
}

fn is_node(prices: u8, node: &SketchNode) -> bool
    ensures { result ≡ is_node prices node.now }
{
    is_label(&node.label) && node.marks <= 8 && is_end(prices, &node.end)
}

fn are_figures(figures: &[u8]) -> bool
    ensures { result ≡ are_figures 1 figures.now }
{
    let mut least = 1;
    for figure in figures {
        if *figure < least || 32 < *figure {
            return false;
        }
        least = *figure + 1;
    }
    true
}

fn is_mark(prices: u8, marks: &MarkLine) -> bool
    ensures { result ≡ is_mark prices marks.now }
{
    let by = marks.by();
    let figures = marks.figures();
    1 <= by && by <= prices && !figures.is_empty() && are_figures(figures)
}

/// Whether the line has a text in a sketch with so many lines of prices.
pub(crate) fn is_known(prices: u8, line: &SketchLine) -> bool
    ensures { result ≡ is_item prices (of_line (line_of line.now)) }
{
    match line {
        SketchLine::Node(node) => is_node(prices, node),
        SketchLine::Marks(marks) => is_mark(prices, marks),
    }
}

/// Whether the files ascend up to the h-file.
pub(crate) fn are_files(files: &[u8]) -> bool
    ensures { result ≡ are_files 0 files.now }
{
    let mut least = 0;
    for file in files {
        if *file < least || 7 < *file {
            return false;
        }
        least = *file + 1;
    }
    true
}

/// Whether all are prices, as they are.
pub(crate) fn are_all_priced(prices: &[Prices]) -> bool
    ensures { result ≡ list_all are_prices prices.now }
{
    prices.iter().all(|p| are_priced(p))
}
