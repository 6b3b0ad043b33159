ghost use Rattle.std.specs.Prelude.{◌≡◌, ◌↔◌, ◌<◌, ◌+◌, ◌^◌, IfOk, IfSome, IsSome, IsTrue, List, MatchResult, Ok, OnErr, Some, length, map, true};
ghost use Rattle.board_base.specs.declared.moves.Move.{Move};
ghost use Rattle.query_base.specs.Asked.{Asked};
ghost use Rattle.cage_rules.specs.Reach.{LeadsTo};
ghost use Rattle.figures.specs.Figures.{sketch_of};
ghost use Rattle.sketch_proof.specs.Proofs.{Proves};
ghost use Rattle.sketch_text.specs.Trees.{Node, lines_of};
ghost use Rattle.sketch_checker.specs.Beginning.{CanBegin};
ghost use Rattle.sketch_checker.specs.DueNodes.{first_due};
ghost use Rattle.sketch_checker.specs.LineWalk.{IsWalked, going};
ghost use Rattle.sketch_body.specs.Seen.{line_of};
ghost use Rattle.sketch_checker.specs.Steering.{IsAnswer};
ghost use Rattle.sketch_checker.specs.TreeWalk.{Walks};
ghost use Rattle.sketch_checker.specs.Walks.{Finishes};

use crate::faults::SketchFault;
use crate::settings::SketchSetting;
use crate::walks::SketchWalk;
use figures::Sketch;
use sketch_body::SketchLine;
use sketch_proof::sketch_proofs_hold;

/// The number of the next line, or the same if there is no higher one.
fn next_number(number: u32) -> u32
    ensures { number + 1 < 2 ^ 32 → result ≡ number + 1 }
{
    if number < u32::MAX {
        number + 1
    } else {
        number
    }
}

/// Goes on over these lines, and says whether the walk is at its end.
fn finish(start: SketchWalk, lines: &[SketchLine]) -> Result<bool, SketchFault>
    ensures done { IfOk result (λ done. IsTrue done ↔ Finishes start (map line_of lines.now)) }
    ensures refused { OnErr result (Finishes start (map line_of lines.now) → ⊥) }
    ensures walked { length lines.now < 2 ^ 32 → IsAnswer result start.setting (going start.opened start.frames) 1 (map line_of lines.now) }
{
    let mut walk = start;
    let mut number: u32 = 0;
    for line in lines {
        number = next_number(number);
        match walk.take(number, line) {
            Ok(()) => {}
            Err(fault) => return Err(fault),
        }
    }
    Ok(walk.is_done())
}

/// Walks over the lines of a proof that no game comes to this sketch. `Ok(true)` comes if and only if they are one, and then no game, of any
/// length, leads at these odds to a query of this sketch that holds these rights. `Ok(false)` comes if lines are missing behind them, and
/// else the fault of the first line that is refused. None comes if and only if a place is 127 or more, a side has more figures than men in
/// the array, or some clash.
pub fn walk_lines(
    setting: SketchSetting,
    sketch: Sketch,
    lines: &[SketchLine],
) -> Option<Result<bool, SketchFault>>
    ensures begun { IsSome result ↔ CanBegin setting.odds sketch }
    ensures walked { IfSome result (λ r. MatchResult r (λ done. IsTrue done ↔ Proves setting sketch (map line_of lines.now)) (λ f. Proves setting sketch (map line_of lines.now) → ⊥)) }
    // If the lines are those of a tree, `Ok(true)` comes if the walk over it meets no fault, and else its first fault, lines counted from 1.
    ensures first { length lines.now < 2 ^ 32 → (tree : Node) → lines_of tree ≡ map line_of lines.now → IfSome result (λ r. IsWalked r (Walks tree setting (first_due sketch) 1)) }
    ensures games { result ≡ Some (Ok true) → (q : Asked) → sketch ≡ sketch_of q.board → setting.held ≡ q.held → (m : List Move) → LeadsTo setting.odds m q → ⊥ }
{
    setting.are_known();
    sketch_proofs_hold();
    let walk = SketchWalk::new(setting, sketch)?;
    Some(finish(walk, lines))
}
