ghost use Rattle.std.specs.Prelude.{◌≡◌, ◌↔◌, ◌<◌, ◌++◌, ◌∷◌, [], IfErr, IfOk, IfSome, IsSome, IsTrue, List, None, OnErr, OnOk, false, length};
ghost use Rattle.sketch_text.specs.Trees.{Line as ALine};
ghost use Rattle.sketch_proof.specs.Proofs.{Proves};
ghost use Rattle.sketch_checker.specs.Able.{IsAble};
ghost use Rattle.sketch_checker.specs.Beginning.{CanBegin};
ghost use Rattle.sketch_checker.specs.LineWalk.{IsAfter, IsStop, OnLine, OnOpened, begun, going};
ghost use Rattle.sketch_body.specs.Seen.{line_of};
ghost use Rattle.sketch_checker.specs.Placed.{IsPlaced, IsPlacedAt, IsWordAt, IsWordFor, announced_by};
ghost use Rattle.sketch_checker.specs.Steering.{AllAble, IsOfEnd, IsReady, OpensAs, is_over};
ghost use Rattle.sketch_checker.specs.Walks.{CompletesOpened, Finishes, FinishesAt};

use crate::beginning::can_begin;
use crate::dues::Left;
use crate::ends::close;
use crate::faults::SketchFault;
use crate::frames::{Frame, Frames};
use crate::marking::mark;
use crate::opening::{Opened, open};
use crate::settings::SketchSetting;
use board_base::{CastleSet, Odds};
use capture_prices::Prices;
use figures::Sketch;
use sketch_body::SketchLine;
use std::marker::Model;

/// A walk over the lines of a proof that no game comes to a sketch, as far as it has come. It is seen as the node whose lines of marks are
/// being read, if there is one, and the nodes that are due below each node.
#[derive(Drop)]
pub struct SketchWalk {
    setting: SketchSetting,
    opened: Option<Opened>,
    frames: Frames,
}

impl Model for SketchWalk {
    ghost use Rattle.sketch_checker.specs.Walks.{Walk};

    ghost Value = { Walk };

    ghost view = { λ w. record { setting = w.setting; opened = w.opened; frames = w.frames } };

    ghost use Rattle.sketch_checker.specs.Steering.{IsReady};

    ghost invariant = { λ w. IsReady w.setting.odds w.opened w.frames };
}

/// The node that is open when this line is read.
fn opened_by(
    setting: &SketchSetting,
    opened: Option<Opened>,
    frames: &mut Frames,
    number: u32,
    line: &SketchLine,
) -> Result<Opened, SketchFault>
    requires { IsReady setting.now.odds opened frames.old }
    ensures opened { IfOk result (λ o. (lines : List ALine) → CompletesOpened setting.now o frames.new lines ↔ FinishesAt setting.now opened frames.old (line_of line.now ∷ lines)) }
    ensures room { IfOk result (λ o. 0 < announced_by o.end → length frames.new < 65) }
    ensures able { IfOk result (λ o. IsAble setting.now.odds o.sketch × AllAble setting.now.odds frames.new) }
    ensures placed { OnOk result (IsPlacedAt opened frames.old (line_of line.now)) }
    ensures word { IfErr result (IsWordAt opened frames.old (line_of line.now)) }
    ensures line { IfOk result (λ o. OpensAs setting.now o frames.new (OnLine setting.now opened frames.old number (line_of line.now))) }
    ensures stopped { IfErr result (λ f. IsStop f (OnLine setting.now opened frames.old number (line_of line.now))) }
    ensures refused { OnErr result ((lines : List ALine) → FinishesAt setting.now opened frames.old (line_of line.now ∷ lines) → ⊥) }
{
    match opened {
        None => match line {
            SketchLine::Node(node) => open(frames, number, *node),
            SketchLine::Marks(_) => Err(SketchFault::Misplaced),
        },
        Some(opened) => match line {
            SketchLine::Node(_) => Err(SketchFault::Misplaced),
            SketchLine::Marks(marks) => mark(setting, &opened, number, marks),
        },
    }
}

/// Goes on with this node: reads its marks, if some are to come, or goes below it.
fn go_on(
    setting: &SketchSetting,
    frames: &mut Frames,
    opened: Opened,
) -> Result<Option<Opened>, SketchFault>
    requires room { 0 < announced_by opened.end → length frames.old < 65 }
    requires begins { IsAble setting.now.odds opened.sketch }
    requires able { AllAble setting.now.odds frames.old }
    ensures done { IfOk result (λ next. (lines : List ALine) → FinishesAt setting.now next frames.new lines ↔ CompletesOpened setting.now opened frames.old lines) }
    ensures ready { IfOk result (λ next. IsReady setting.now.odds next frames.new) }
    ensures line { IfOk result (λ next. OnOpened opened.marks setting.now opened frames.old (going next frames.new)) }
    ensures stopped { IfErr result (λ f. IsStop f (OnOpened opened.marks setting.now opened frames.old)) }
    ensures fault { IfErr result IsOfEnd }
    ensures refused { OnErr result ((lines : List ALine) → CompletesOpened setting.now opened frames.old lines → ⊥) }
{
    if opened.marks > 0 {
        return Ok(Some(opened));
    }
    close(setting, frames, opened.line, opened.end, &opened.sketch)?;
    Ok(None)
}

/// Takes one line more.
fn take_line(
    setting: &SketchSetting,
    opened: Option<Opened>,
    frames: &mut Frames,
    number: u32,
    line: &SketchLine,
) -> Result<Option<Opened>, SketchFault>
    requires { IsReady setting.now.odds opened frames.old }
    ensures done { IfOk result (λ next. (lines : List ALine) → FinishesAt setting.now next frames.new lines ↔ FinishesAt setting.now opened frames.old (line_of line.now ∷ lines)) }
    ensures ready { IfOk result (λ next. IsReady setting.now.odds next frames.new) }
    ensures line { IfOk result (λ next. OnLine setting.now opened frames.old number (line_of line.now) (going next frames.new)) }
    ensures stopped { IfErr result (λ f. IsStop f (OnLine setting.now opened frames.old number (line_of line.now))) }
    ensures placed { OnOk result (IsPlacedAt opened frames.old (line_of line.now)) }
    ensures word { IfErr result (IsWordAt opened frames.old (line_of line.now)) }
    ensures refused { OnErr result ((lines : List ALine) → FinishesAt setting.now opened frames.old (line_of line.now ∷ lines) → ⊥) }
{
    let next = opened_by(setting, opened, frames, number, line)?;
    go_on(setting, frames, next)
}

/// Whether no node is open and none is due.
fn is_over(opened: &Option<Opened>, frames: &Frames) -> bool
    ensures { result ≡ is_over opened.now frames.now }
{
    match opened {
        Some(_) => false,
        None => frames.len() == 0,
    }
}

impl SketchWalk {
    /// The walk over a proof that no game comes to this sketch, before its first line. None comes if and only if a place is 127 or more, a
    /// side has more figures than men in the array, or some clash.
    pub fn new(setting: SketchSetting, sketch: Sketch) -> Option<SketchWalk>
        ensures begun { IsSome result ↔ CanBegin setting.odds sketch }
        ensures walk { IfSome result (λ w. (lines : List ALine) → Finishes w lines ↔ Proves setting sketch lines) }
        ensures first { IfSome result (λ w. (w.setting ≡ setting) × (going w.opened w.frames ≡ begun sketch)) }
    {
        if !can_begin(setting.odds, &sketch) {
            return None;
        }
        let mut frames = Frames::new();
        frames.push(Frame {
            line: 0,
            announced: 1,
            left: Left::First(sketch),
        });
        Some(SketchWalk {
            setting,
            opened: None,
            frames,
        })
    }

    /// A walk on which nothing is due, to be used again and again in its place.
    pub fn idle() -> SketchWalk
        ensures { going result.opened result.frames ≡ going None [] }
    {
        SketchWalk {
            setting: SketchSetting::new(Odds::none(), CastleSet::none(), [false; 8]),
            opened: None,
            frames: Frames::new(),
        }
    }

    /// Ends the walk, and takes these odds, held rights and exact files for the next, and no line of prices yet.
    pub fn reset(&mut self, odds: Odds, held: CastleSet, exact: [bool; 8])
        ensures setting { self.new.setting ≡ record { odds = odds; held = held; exact = exact; prices = [] } }
        ensures nothing { going self.new.opened self.new.frames ≡ going None [] }
    {
        self.opened = None;
        self.frames.clear();
        self.setting.reset(odds, held, exact);
    }

    /// Puts a line of prices behind those of the walk. False if and only if there are 64 already.
    pub fn add_prices(&mut self, prices: &Prices) -> bool
        ensures room { IsTrue result ↔ (length self.old.setting.prices < 64) }
        ensures added { IsTrue result → self.new.setting ≡ record self.old.setting { prices = self.old.setting.prices ++ prices.now ∷ [] } }
        ensures full { result ≡ false → self.new.setting ≡ self.old.setting }
        ensures kept { going self.new.opened self.new.frames ≡ going self.old.opened self.old.frames }
    {
        self.setting.add_prices(prices)
    }

    /// Begins with this sketch, which nothing bars.
    pub fn begin(&mut self, sketch: Sketch)
        requires { CanBegin self.old.setting.odds sketch }
        ensures setting { self.new.setting ≡ self.old.setting }
        ensures first { going self.new.opened self.new.frames ≡ begun sketch }
        ensures walk { (lines : List ALine) → Finishes self.new lines ↔ Proves self.old.setting sketch lines }
    {
        self.opened = None;
        self.frames.clear();
        self.frames.push(Frame {
            line: 0,
            announced: 1,
            left: Left::First(sketch),
        });
    }

    /// Whether the walk is at its end.
    pub fn is_done(&self) -> bool
        ensures done { IsTrue result ↔ Finishes self.now [] }
        ensures nothing { IsTrue result ↔ (going self.now.opened self.now.frames ≡ going None []) }
    {
        is_over(&self.opened, &self.frames)
    }

    /// Takes the next line, which has this number. If it is refused, the walk is over, and no line can follow.
    pub fn take(&mut self, number: u32, line: &SketchLine) -> Result<(), SketchFault>
        // What may follow is what may have followed behind this line.
        ensures done { OnOk result ((lines : List ALine) → Finishes self.new lines ↔ Finishes self.old (line_of line.now ∷ lines)) }
        ensures placed { OnOk result (IsPlaced self.old (line_of line.now)) }
        ensures word { IfErr result (IsWordFor self.old (line_of line.now)) }
        // It goes on as the walk over these lines does, or the fault is the one at which that walk stops.
        ensures line { IsAfter result self.new.opened self.new.frames (OnLine self.old.setting self.old.opened self.old.frames number (line_of line.now)) }
        ensures setting { self.new.setting ≡ self.old.setting }
        // Nothing may follow behind a line that is refused.
        ensures refused { OnErr result ((lines : List ALine) → Finishes self.old (line_of line.now ∷ lines) → ⊥) }
        ensures over { OnErr result ((lines : List ALine) → Finishes self.new lines → ⊥) }
    {
        let opened = self.opened.take();
        match take_line(&self.setting, opened, &mut self.frames, number, line) {
            Ok(next) => {
                self.opened = next;
                Ok(())
            }
            Err(fault) => {
                self.opened = None;
                self.frames.stop();
                Err(fault)
            }
        }
    }
}
