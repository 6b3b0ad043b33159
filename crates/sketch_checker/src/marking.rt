ghost use Rattle.std.specs.Prelude.{◌≡◌, ◌↔◌, ◌<◌, ◌∷◌, Bool, IfErr, IfOk, List, OnErr, Some};
ghost use Rattle.sketch_text.specs.Trees.{Line as ALine, of_marks};
ghost use Rattle.sketch_checker.specs.Able.{IsAble};
ghost use Rattle.sketch_checker.specs.LineWalk.{OnLine, stopped};
ghost use Rattle.sketch_checker.specs.Steering.{OpensAs};
ghost use Rattle.sketch_checker.specs.TreeWalk.{unsupported};
ghost use Rattle.sketch_checker.specs.Walks.{CompletesOpened, Frame as AFrame};

use crate::faults::SketchFault;
use crate::opening::Opened;
use crate::settings::SketchSetting;
use sketch_proof::marked;
use sketch_text::MarkLine;

/// Marks the figures that a line of marks names, if that is forced.
pub(crate) fn mark(
    setting: &SketchSetting,
    opened: &Opened,
    number: u32,
    marks: &MarkLine,
) -> Result<Opened, SketchFault>
    requires { 0 < opened.now.marks }
    ensures opened { IfOk result (λ o. (fs : List AFrame) (lines : List ALine) → CompletesOpened setting.now o fs lines ↔ CompletesOpened setting.now opened.now fs (of_marks marks.now ∷ lines)) }
    ensures kept { IfOk result (λ o. o.end ≡ opened.now.end) }
    ensures able { IfOk result (λ x. (o : List Bool) → IsAble o opened.now.sketch → IsAble o x.sketch) }
    ensures fault { IfErr result (λ f. f ≡ SketchFault.Unsupported number) }
    ensures line { IfOk result (λ o. (fs : List AFrame) → OpensAs setting.now o fs (OnLine setting.now (Some opened.now) fs number (of_marks marks.now))) }
    ensures stopped { OnErr result ((fs : List AFrame) → OnLine setting.now (Some opened.now) fs number (of_marks marks.now) (stopped number unsupported)) }
    ensures refused { OnErr result ((fs : List AFrame) (lines : List ALine) → CompletesOpened setting.now opened.now fs (of_marks marks.now ∷ lines) → ⊥) }
{
    let fault = SketchFault::Unsupported { line: number };
    let Some(prices) = setting.prices_at(marks.by()) else {
        return Err(fault);
    };
    let Some(sketch) = marked(
        &opened.sketch,
        setting.held,
        setting.odds,
        &prices,
        marks.figures(),
    ) else {
        return Err(fault);
    };
    Ok(Opened {
        line: opened.line,
        marks: opened.marks - 1,
        end: opened.end,
        sketch,
    })
}
