ghost use Rattle.std.specs.Prelude.{◌↔◌, ◌<◌, Bool, IfErr, IfOk, IsTrue, List, None, OnErr, OnOk, Some, length};
ghost use Rattle.sketch_proof.specs.Basis.{IsClosedAt};
ghost use Rattle.sketch_text.specs.Trees.{Line as ALine};
ghost use Rattle.sketch_proof.specs.Proofs.{AtLine, Setting as ASetting};
ghost use Rattle.sketch_checker.specs.Able.{IsAble};
ghost use Rattle.sketch_checker.specs.LineWalk.{IsAfter, OnEnd};
ghost use Rattle.sketch_checker.specs.Placed.{announced_by};
ghost use Rattle.sketch_checker.specs.Steering.{AllAble, AreAble, AreAbleBelow, EndsNot, EndsWith, IsBelow, IsOfEnd, IsOpen, read};
ghost use Rattle.sketch_checker.specs.Walks.{Completes, CompletesOpened, Frame as AFrame};

use crate::dues::{Cases, Left};
use crate::faults::SketchFault;
use crate::frames::{Frame, Frames, go_below, settle};
use crate::settings::SketchSetting;
use board_base::Square;
use figures::Sketch;
use sketch_proof::{before_steps, closes, first_unknown, is_void};
use sketch_text::{End, Officer};
use sketch_walk::StepsBack;

/// Whether the line of prices with this number closes the sketch.
fn is_closed(setting: &SketchSetting, number: u8, sketch: &Sketch) -> bool
    ensures { IsTrue result ↔ AtLine setting.now number (λ p. IsClosedAt setting.now.odds setting.now.held sketch.now p) }
{
    match setting.prices_at(number) {
        Some(prices) => closes(sketch, setting.held, setting.odds, &prices),
        None => false,
    }
}

/// What is below the node on this line, if so many steps follow.
fn below_steps(
    setting: &SketchSetting,
    line: u32,
    count: u16,
    sketch: &Sketch,
) -> Result<Frame, SketchFault>
    requires { IsAble setting.now.odds sketch.now }
    ensures frame { IfOk result (λ f. IsBelow setting.now (read line (End.Steps count) sketch.now) (Some f)) }
    ensures ended { IfOk result (λ f. EndsWith setting.now (End.Steps count) sketch.now line (Some f)) }
    ensures stopped { IfErr result (EndsNot setting.now (End.Steps count) sketch.now line) }
    ensures able { IfOk result (λ f. AreAble setting.now.odds f.due) }
    ensures fault { IfErr result IsOfEnd }
    ensures refused { OnErr result ((fs : List AFrame) (lines : List ALine) → CompletesOpened setting.now (read line (End.Steps count) sketch.now) fs lines → ⊥) }
{
    let Some(wide) = before_steps(sketch, setting.held, &setting.exact, setting.odds) else {
        return Err(SketchFault::Unsupported { line });
    };
    let Some(steps) = StepsBack::new(setting.odds, &setting.exact, &wide) else {
        unreachable!()
    };
    Ok(Frame {
        line,
        announced: count as u32,
        left: Left::Steps(steps),
    })
}

/// What is below the node on this line, if the cases of the man on the square follow.
fn below_split(line: u32, square: Square, sketch: &Sketch) -> Result<Frame, SketchFault>
    ensures frame { IfOk result (λ f. (g : ASetting) → IsBelow g (read line (End.Split square) sketch.now) (Some f)) }
    ensures ended { IfOk result (λ f. (g : ASetting) → EndsWith g (End.Split square) sketch.now line (Some f)) }
    ensures stopped { IfErr result (λ f. (g : ASetting) → EndsNot g (End.Split square) sketch.now line f) }
    ensures able { IfOk result (λ f. (o : List Bool) → IsAble o sketch.now → AreAble o f.due) }
    ensures fault { IfErr result IsOfEnd }
    ensures refused { OnErr result ((g : ASetting) (fs : List AFrame) (lines : List ALine) → CompletesOpened g (read line (End.Split square) sketch.now) fs lines → ⊥) }
{
    match first_unknown(sketch, square) {
        Some(number) => Ok(Frame {
            line,
            announced: 3,
            left: Left::Cases(Cases {
                officer: Officer::Knight,
                number,
                sketch: sketch.copied(),
            }),
        }),
        None => Err(SketchFault::Unsupported { line }),
    }
}

/// What is below the node on this line, if it has this end; none, if nothing may follow.
fn below(
    setting: &SketchSetting,
    line: u32,
    end: End,
    sketch: &Sketch,
) -> Result<Option<Frame>, SketchFault>
    requires { IsAble setting.now.odds sketch.now }
    ensures frame { IfOk result (IsBelow setting.now (read line end sketch.now)) }
    ensures ended { IfOk result (EndsWith setting.now end sketch.now line) }
    ensures stopped { IfErr result (EndsNot setting.now end sketch.now line) }
    ensures able { IfOk result (AreAbleBelow setting.now.odds) }
    ensures fault { IfErr result IsOfEnd }
    ensures refused { OnErr result ((fs : List AFrame) (lines : List ALine) → CompletesOpened setting.now (read line end sketch.now) fs lines → ⊥) }
{
    match end {
        End::Void => {
            if is_void(sketch, setting.held, setting.odds) {
                Ok(None)
            } else {
                Err(SketchFault::Unsupported { line })
            }
        }
        End::Closed(number) => {
            if is_closed(setting, number, sketch) {
                Ok(None)
            } else {
                Err(SketchFault::Unsupported { line })
            }
        }
        End::Steps(count) => match below_steps(setting, line, count, sketch) {
            Ok(frame) => Ok(Some(frame)),
            Err(fault) => Err(fault),
        },
        End::Split(square) => match below_split(line, square, sketch) {
            Ok(frame) => Ok(Some(frame)),
            Err(fault) => Err(fault),
        },
    }
}

/// Ends the node on this line, all of whose marks are read, and goes below it.
pub(crate) fn close(
    setting: &SketchSetting,
    frames: &mut Frames,
    line: u32,
    end: End,
    sketch: &Sketch,
) -> Result<(), SketchFault>
    requires room { 0 < announced_by end → length frames.old < 65 }
    requires begins { IsAble setting.now.odds sketch.now }
    ensures done { OnOk result ((lines : List ALine) → Completes setting.now frames.new lines ↔ CompletesOpened setting.now (read line end sketch.now) frames.old lines) }
    ensures ended { IsAfter result None frames.new (OnEnd end setting.now sketch.now line frames.old) }
    ensures open { OnOk result (IsOpen frames.new) }
    ensures able { OnOk result (AllAble setting.now.odds frames.old → AllAble setting.now.odds frames.new) }
    ensures fault { IfErr result IsOfEnd }
    ensures refused { OnErr result ((lines : List ALine) → CompletesOpened setting.now (read line end sketch.now) frames.old lines → ⊥) }
{
    let _ = frames.len();
    match below(setting, line, end, sketch)? {
        Some(frame) => go_below(frames, frame),
        None => settle(frames),
    }
}
