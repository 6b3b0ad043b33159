ghost use Rattle.std.specs.Prelude.{◌≡◌, ◌≤◌, ◌<◌, ◌↔◌, IfSome, IsSome, IsTrue, List, MatchOption, Some, length};
ghost use Rattle.board_base.specs.declared.moves.Move.{Move};
ghost use Rattle.cage_rules.specs.Reach.{LeadsTo};
ghost use Rattle.past_sketches.specs.Figures.{sketch_of};
ghost use Rattle.sketch_checker.specs.Beginning.{CanBegin};
ghost use Rattle.sketch_found.specs.Found.{IsProofOf, IsWithin};

use crate::ranges::are_lines;
use capture_prices::Prices;
use figures::sketch_of;
use query_base::Query;
use sketch_checker::{SketchLine, SketchSetting, walk_lines};

/// What proves that no game comes to a query: the exact files, on which pawns' moves are taken back one by one, the lines of prices, and the
/// lines of nodes and marks, in preorder.
#[derive(Drop)]
pub struct FoundSketch {
    /// Whether each file, from a to h, is exact.
    pub exact: [bool; 8],
    /// The lines of prices, by their numbers from 1.
    pub prices: Vec<Prices>,
    /// The lines of nodes and marks.
    pub lines: Vec<SketchLine>,
}

/// What a proof with these files and prices rests on; None if and only if there are more than 64 lines of prices.
fn setting_of(query: &Query, exact: &[bool; 8], prices: &[Prices]) -> Option<SketchSetting>
    ensures { MatchOption result (64 < length prices.now) (λ g. (length prices.now ≤ 64) × (g ≡ record { odds = query.now.odds; held = query.now.held; exact = exact.now; prices = prices.now })) }
{
    let mut setting = SketchSetting::new(query.odds, query.held, *exact);
    for line in prices {
        if !setting.add_prices(line) {
            return None;
        }
    }
    Some(setting)
}

/// Whether a walk over the lines shows that they prove that no game comes to the query.
fn is_proof(query: &Query, found: &FoundSketch) -> bool
    ensures proves { IsTrue result → IsProofOf query.now found.now }
    ensures games { IsTrue result → (m : List Move) → LeadsTo query.now.odds m query.now → ⊥ }
    ensures few { IsTrue result → length found.now.prices.items ≤ 64 }
    ensures all { CanBegin query.now.odds (sketch_of query.now.board) → length found.now.prices.items ≤ 64 → IsProofOf query.now found.now → IsTrue result }
{
    let Some(setting) = setting_of(query, &found.exact, found.prices.as_slice()) else {
        return false;
    };
    let Some(sketch) = sketch_of(&query.board) else {
        return false;
    };
    match walk_lines(setting, sketch, found.lines.as_slice()) {
        Some(Ok(done)) => done,
        _ => false,
    }
}

/// What was found, if a walk over its lines shows that they prove that no game comes to the query, and if it is within the limits: there are
/// at most 64 lines of prices, each other line can be written, and no node has more steps than this. None comes of such a proof only if no
/// walk can begin with the query's sketch.
pub fn if_proved(query: &Query, most: usize, found: FoundSketch) -> Option<FoundSketch>
    ensures proves { IfSome result (λ f. IsProofOf query.now f) }
    ensures games { IfSome result (λ f. (m : List Move) → LeadsTo query.now.odds m query.now → ⊥) }
    ensures within { IfSome result (λ f. IsWithin most f) }
    ensures same { IfSome result (λ f. f ≡ found) }
    ensures all { CanBegin query.now.odds (sketch_of query.now.board) → IsProofOf query.now found → IsWithin most found → result ≡ Some found }
{
    let proved = is_proof(query, &found);
    let prices = found.prices.as_slice();
    let within = are_lines(prices.len(), most, found.lines.as_slice());
    if proved && within { Some(found) } else { None }
}
