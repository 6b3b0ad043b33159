ghost use Rattle.std.specs.Prelude.{◌≡◌, ◌≢◌, [], Some, length};
ghost use Rattle.board_base.specs.Board.{no_odds};
ghost use Rattle.fen_text.specs.OddsLines.{odds_line, odds_of, odds_text};

use crate::pushing::push_text;
use crate::sets::{read_set, set_text};
use arrayvec::ArrayVec;
use board_base::{Odds, SquareSet};

/// The odds, if somebody is left out.
fn unless_none(odds: Odds) -> Option<Odds>
    ensures { result ≡ odds_of odds }
{
    odds.set();
    if odds.is_none() { None } else { Some(odds) }
}

/// The odds that leave out the men of these squares, if there are any and all may be left out.
fn some_odds(set: SquareSet) -> Option<Odds>
    ensures { result ≡ odds_of set }
{
    match Odds::new(set) {
        Some(odds) => unless_none(odds),
        None => None,
    }
}

/// Reads an odds line, without its end: `odds`, a space and a set of squares as `read_set` reads it, which is not the set of no
/// square and which `Odds::new` takes. None comes if and only if the line is no such. It takes no memory.
#[tactic(auto, unfolding(crate::specs::OddsLines::odds_line))]
pub fn read_odds(line: &[u8]) -> Option<Odds>
    ensures { result ≡ odds_line line.now }
{
    if !line.starts_with(b"odds ") {
        return None;
    }
    match read_set(&line[5..]) {
        Some(set) => some_odds(set),
        None => None,
    }
}

/// Writes the one line of the odds, without its end, which `read_odds` reads as these odds. `out` is empty before, and somebody is
/// left out. It takes no memory.
pub fn write_odds(odds: Odds, out: &mut ArrayVec<u8, 32>)
    requires empty { out.old.items ≡ [] }
    requires some { odds ≢ no_odds }
    ensures text { out.new.items ≡ odds_text odds }
    ensures size { length out.new.items ≡ 21 }
    ensures read { odds_line out.new.items ≡ Some odds }
{
    let digits = set_text(odds.set());
    push_text(b"odds ", out);
    push_text(&digits, out);
}
