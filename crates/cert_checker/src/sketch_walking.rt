ghost use Rattle.std.specs.Prelude.{◌≡◌, ◌+◌, ◌<◌, ◌≤◌, ◌^◌, ◌++◌, IfOk, IsTrue, List, length, map};
ghost use Rattle.query_base.specs.Asked.{Asked};
ghost use Rattle.sketch_body.specs.Seen.{line_of};
ghost use Rattle.sketch_body.specs.Whole.{is_body};
ghost use Rattle.sketch_checker.specs.LineWalk.{WalksOn, going};
ghost use Rattle.cert_text.specs.Tree.{sketch};
ghost use Rattle.cert_checker.specs.SketchLines.{AreDue, IsEnd};
ghost use Rattle.cert_checker.specs.Walk.{Walks};
ghost use Rattle.cert_checker.specs.Walking.{IsWalked, lines_in};

use crate::refusals::{Refused, Why};
use crate::sketch_lines::{LineFault, exact_files, take_sketch_line};
use capture_prices::Prices;
use figures::sketch_of;
use query_base::Query;
use sketch_body::{SketchBody, SketchLine};
use sketch_checker::{SketchWalk, is_root};

/// Puts these lines of prices behind those of the walk.
fn add_all_prices(walk: &mut SketchWalk, prices: &[Prices])
    requires { length walk.old.setting.prices + length prices.now ≤ 64 }
    ensures setting { walk.new.setting ≡ record walk.old.setting { prices = walk.old.setting.prices ++ prices.now } }
    ensures kept { going walk.new.opened walk.new.frames ≡ going walk.old.opened walk.old.frames }
{
    for line in prices {
        let _ = walk.add_prices(line);
    }
}

/// Takes these lines, which are all that are due. The first of them has this number; the number after the last is given.
fn take_all_lines(walk: &mut SketchWalk, first: u32, lines: &[SketchLine]) -> Result<u32, LineFault>
    requires due { AreDue walk.old.opened walk.old.frames (map line_of lines.now) }
    requires room { first + length lines.now < 2 ^ 32 }
    ensures walk { IsEnd result (WalksOn walk.old.setting (going walk.old.opened walk.old.frames) first (map line_of lines.now)) }
    ensures next { IfOk result (λ n. n ≡ first + length lines.now) }
{
    let mut number = first;
    for line in lines {
        match take_sketch_line(walk, number, line) {
            Ok(()) => {}
            Err(fault) => return Err(fault),
        }
        number += 1;
    }
    Ok(number)
}

/// What the walk of a sketch on this line comes to: its first fault, or the line after its last.
// It stands outside of the walk over nodes, since its variables take much room.
#[inline(never)]
pub(crate) fn check_sketch(query: &Query, body: &SketchBody, line: u32) -> Result<u32, Refused>
    requires body { IsTrue (is_body body.now) }
    requires room { line + lines_in (sketch body.now) < 2 ^ 32 }
    ensures walk { (ancestors : List Asked) → IsWalked result (Walks (sketch body.now) query.now ancestors line) }
    ensures next { IfOk result (λ n. n ≡ line + lines_in (sketch body.now)) }
{
    let prices = body.prices();
    let first = line + 1 + prices.len() as u32;
    if !is_root(&query.board, query.odds) {
        return Err(Refused::Unsupported {
            line: first,
            why: Why::Rule,
        });
    }
    let Some(root) = sketch_of(&query.board) else {
        unreachable!()
    };
    let mut walk = SketchWalk::idle();
    walk.reset(query.odds, query.held, exact_files(body.files()));
    add_all_prices(&mut walk, prices);
    walk.begin(root);
    match take_all_lines(&mut walk, first, body.lines()) {
        Ok(next) => Ok(next),
        Err(fault) => Err(Refused::Unsupported {
            line: fault.line,
            why: fault.why,
        }),
    }
}
