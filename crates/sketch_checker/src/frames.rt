ghost use Rattle.std.specs.Prelude.{◌≡◌, ◌↔◌, ◌<◌, ◌≤◌, ◌∷◌, [], Bool, IfErr, IsTrue, List, MatchOption, None, OnErr, OnOk, length, reverse};
ghost use Rattle.sketch_text.specs.Trees.{Line as ALine};
ghost use Rattle.sketch_proof.specs.Proofs.{Setting as ASetting};
ghost use Rattle.sketch_checker.specs.LineWalk.{IsAfter, ended};
ghost use Rattle.sketch_checker.specs.Steering.{AllAble, IsOfEnd, IsOpen};
ghost use Rattle.sketch_checker.specs.Walks.{Completes};

use crate::dues::{Left, next_due};
use crate::faults::SketchFault;
use arrayvec::ArrayVec;
use std::marker::Model;

/// Below the node on this line: how many nodes it announced that are still to come, and those that are due.
#[derive(Drop)]
pub(crate) struct Frame {
    pub(crate) line: u32,
    // As wide as a line's number: with no gap between them an idle frame is all zeros, and is made in its place.
    pub(crate) announced: u32,
    pub(crate) left: Left,
}

impl Model for Frame {
    ghost use Rattle.sketch_checker.specs.Walks.{Frame as AFrame};

    ghost Value = { AFrame };

    ghost use Rattle.sketch_checker.specs.Dues.{due_by};

    ghost view = { λ f. record { line = f.line; announced = f.announced; due = due_by f.left } };
}

impl Default for Frame {
    /// What stands in the unused places of an array of frames.
    fn default() -> Frame {
        Frame {
            line: 0,
            announced: 0,
            left: Left::Nothing,
        }
    }
}

/// At most 65 frames, seen as their list, the innermost first.
#[derive(Drop)]
pub(crate) struct Frames {
    frames: ArrayVec<Frame, 65>,
}

impl Model for Frames {
    ghost use Rattle.std.specs.Prelude.{List, reverse};
    ghost use Rattle.sketch_checker.specs.Walks.{Frame as AFrame};

    ghost Value = { List AFrame };

    ghost view = { λ s. reverse s.frames.items };
}

/// Whether the last frame, if there is one, has a node to come.
fn is_open(frames: &[Frame]) -> bool
    ensures { IsTrue result ↔ IsOpen (reverse frames.now) }
{
    if frames.is_empty() {
        return true;
    }
    let frame = &frames[frames.len() - 1];
    frame.announced > 0
}

impl Frames {
    pub(crate) fn new() -> Frames
        ensures { result ≡ [] }
    {
        Frames {
            frames: ArrayVec::new(),
        }
    }

    pub(crate) fn len(&self) -> usize
        ensures value { result ≡ length self.now }
        ensures few { length self.now ≤ 65 }
    {
        self.frames.len()
    }

    /// Whether the innermost frame, if there is one, has a node to come.
    fn is_open(&self) -> bool
        ensures { IsTrue result ↔ IsOpen self.now }
    {
        is_open(self.frames.as_slice())
    }

    /// Puts a frame before the others.
    pub(crate) fn push(&mut self, frame: Frame)
        requires { length self.old < 65 }
        ensures { self.new ≡ frame ∷ self.old }
    {
        self.frames.push(frame);
    }

    /// Takes off the innermost frame.
    pub(crate) fn pop(&mut self) -> Option<Frame>
        ensures { MatchOption result ((self.old ≡ []) × (self.new ≡ [])) (λ f. self.old ≡ f ∷ self.new) }
    {
        self.frames.pop()
    }

    /// Takes off all frames.
    pub(crate) fn clear(&mut self)
        ensures { self.new ≡ [] }
    {
        self.frames.clear();
    }

    /// Takes off all frames, and puts one there below which nothing can come.
    pub(crate) fn stop(&mut self)
        ensures open { IsOpen self.new }
        ensures able { (o : List Bool) → AllAble o self.new }
        ensures over { (g : ASetting) (lines : List ALine) → Completes g self.new lines → ⊥ }
    {
        self.frames.clear();
        self.frames.push(Frame {
            line: 0,
            announced: 1,
            left: Left::Nothing,
        });
    }
}

/// Looks whether nothing is left below the node of a frame.
fn end_frame(frame: Frame) -> Result<(), SketchFault>
    ensures done { OnOk result (frame.due ≡ []) }
    ensures fault { IfErr result (λ f. (f ≡ SketchFault.Unsupported frame.line) × (frame.due ≡ [] → ⊥)) }
{
    let line = frame.line;
    let (first, _) = next_due(frame.left);
    match first {
        Some(_) => Err(SketchFault::Unsupported { line }),
        None => Ok(()),
    }
}

/// Takes off the frames that have no node to come, up to the first that has one. Nothing may be left below them.
pub(crate) fn settle(frames: &mut Frames) -> Result<(), SketchFault>
    ensures ended { IsAfter result None frames.new (λ w. w ≡ ended frames.old) }
    ensures done { OnOk result ((g : ASetting) (lines : List ALine) → Completes g frames.new lines ↔ Completes g frames.old lines) }
    ensures open { OnOk result (IsOpen frames.new) }
    ensures able { OnOk result ((o : List Bool) → AllAble o frames.old → AllAble o frames.new) }
    ensures fault { IfErr result IsOfEnd }
    ensures refused { OnErr result ((g : ASetting) (lines : List ALine) → Completes g frames.old lines → ⊥) }
{
    'closed: while !frames.is_open() {
        let _ = frames.len();
        let Some(frame) = frames.pop() else {
            return Ok(());
        };
        match end_frame(frame) {
            Ok(()) => {}
            Err(fault) => return Err(fault),
        }
    }
    Ok(())
}

/// Goes below a node with this frame.
pub(crate) fn go_below(frames: &mut Frames, frame: Frame) -> Result<(), SketchFault>
    requires { 0 < frame.announced → length frames.old < 65 }
    ensures ended { IsAfter result None frames.new (λ w. w ≡ ended (frame ∷ frames.old)) }
    ensures done { OnOk result ((g : ASetting) (lines : List ALine) → Completes g frames.new lines ↔ Completes g (frame ∷ frames.old) lines) }
    ensures open { OnOk result (IsOpen frames.new) }
    ensures able { OnOk result ((o : List Bool) → AllAble o (frame ∷ frames.old) → AllAble o frames.new) }
    ensures fault { IfErr result IsOfEnd }
    ensures refused { OnErr result ((g : ASetting) (lines : List ALine) → Completes g (frame ∷ frames.old) lines → ⊥) }
{
    if frame.announced > 0 {
        frames.push(frame);
        return Ok(());
    }
    let _ = frames.len();
    end_frame(frame)?;
    settle(frames)
}
