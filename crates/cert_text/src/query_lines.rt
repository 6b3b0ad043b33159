ghost use Rattle.std.specs.Prelude.{◌≡◌, ◌+◌, ◌<◌, ◌≤◌, ◌++◌, None, Some, codes, length};
ghost use Rattle.std.specs.List.{concat};
ghost use Rattle.board_base.specs.Board.{no_odds};
ghost use Rattle.query_base.specs.Asked.{IsShortClock};
ghost use Rattle.fen_text.specs.OddsLines.{odds_line};
ghost use Rattle.fen_text.specs.Spelling.{spelling};
ghost use Rattle.cert_text.specs.Certificate.{IsSaid, clock_demand, lines_of_clock, lines_of_odds, query_lines, query_of};
ghost use Rattle.cert_text.specs.Lines.{ended, said};
ghost use Rattle.cert_text.specs.Writable.{IsQuery};

use arrayvec::ArrayVec;
use board_base::Odds;
use fen_text::{push_text, write_clock, write_fen, write_odds};
use query_base::Query;

/// Tells the caller what every query keeps, and does nothing when it runs.
pub(crate) fn is_known(query: &Query)
    ensures { IsQuery query.now }
{
    query.board.is_whole();
    query.odds.set();
}

/// Puts a text with a line end after the others.
pub(crate) fn push_ended(text: &[u8], out: &mut ArrayVec<u8, 512>)
    requires { length out.old.items + length text.now < 512 }
    ensures line { out.new.items ≡ out.old.items ++ ended text.now }
    ensures longer { length out.new.items ≡ length out.old.items + length text.now + 1 }
{
    push_text(text, out);
    out.push(b'\n');
}

/// Puts the line of the odds after the others, if there are any.
fn push_odds(odds: Odds, out: &mut ArrayVec<u8, 512>)
    requires { length out.old.items + 22 ≤ 512 }
    ensures lines { out.new.items ≡ out.old.items ++ concat (lines_of_odds odds) }
    ensures short { length out.new.items ≤ length out.old.items + 22 }
{
    if odds.is_none() {
        return;
    }
    let mut text: ArrayVec<u8, 32> = ArrayVec::new();
    write_odds(odds, &mut text);
    push_ended(text.as_slice(), out);
}

/// Puts the line of the clock after the others, if one is demanded.
fn push_clock(clock: Option<u16>, out: &mut ArrayVec<u8, 512>)
    requires room { length out.old.items + 11 ≤ 512 }
    requires short { IsShortClock clock }
    ensures lines { out.new.items ≡ out.old.items ++ concat (lines_of_clock clock) }
    ensures short { length out.new.items ≤ length out.old.items + 11 }
{
    let Some(n) = clock else {
        return;
    };
    let mut text: ArrayVec<u8, 32> = ArrayVec::new();
    write_clock(n, &mut text);
    push_ended(text.as_slice(), out);
}

/// Puts the line of the FEN after the others.
fn push_fen(query: &Query, out: &mut ArrayVec<u8, 512>)
    requires room { length out.old.items + 86 ≤ 512 }
    requires plain { query.now.barred ≡ None }
    ensures line { out.new.items ≡ out.old.items ++ ended (codes "fen " ++ spelling query.now) }
    ensures short { length out.new.items ≤ length out.old.items + 86 }
{
    let mut text: ArrayVec<u8, 128> = ArrayVec::new();
    write_fen(query, &mut text);
    push_text(b"fen ", out);
    push_ended(text.as_slice(), out);
}

/// Puts the lines of the query after what stands in `out`, each with its end: that of the odds, if there are any; that of the clock,
/// if one is demanded; and `fen`, a space and the FEN. They are read as these odds, as this clock, and as the query at no odds that
/// demands no clock. They have at most 119 bytes, for which there is room, and at most 108 if no clock is demanded. No move is
/// barred in the query, for which FEN has no word. It takes no memory.
pub fn write_query_lines(query: &Query, out: &mut ArrayVec<u8, 512>)
    requires room { length out.old.items + 119 ≤ 512 }
    requires plain { query.now.barred ≡ None }
    ensures lines { out.new.items ≡ out.old.items ++ concat (query_lines query.now) }
    ensures odds { IsSaid odds_line no_odds (lines_of_odds query.now.odds) query.now.odds }
    ensures clock { IsSaid clock_demand None (lines_of_clock query.now.clock) query.now.clock }
    ensures fen { said query_of (ended (codes "fen " ++ spelling query.now)) ≡ Some (record query.now { odds = no_odds; clock = None }) }
    ensures short { length out.new.items ≤ length out.old.items + 119 }
    ensures free { query.now.clock ≡ None → length out.new.items ≤ length out.old.items + 108 }
{
    is_known(query);
    push_odds(query.odds, out);
    push_clock(query.clock, out);
    push_fen(query, out);
}
