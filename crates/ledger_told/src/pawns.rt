ghost use Rattle.std.specs.Prelude.{◌≡◌, ◌+◌, ◌<◌, cond, IsTrue, None, Some};
ghost use Rattle.board_base.specs.Board.{at, is_a};
ghost use Rattle.board_base.specs.declared.men.Kind.TheVariants.{Pawn};
ghost use Rattle.ledger_lines.specs.Known.{IsKnown};
ghost use Rattle.ledger_lines.specs.declared.facts.Fact.TheVariants.{Took};
ghost use Rattle.ledger_lines.specs.declared.lines.Line.TheVariants.{Pawn as PawnLine};
ghost use Rattle.ledger_told.specs.Due.{IsSquareLine, TellsPawn, homes_left, is_moving, is_pawn_news};

use crate::topics::Topic;
use board_base::{Colour, Kind, Square, SquareSet, is_the};
use figures::squares_that;
use ledger_lines::{Fact, Line, is_known, is_left, number_in};
use ledger_search::Ledger;
use query_base::Query;

/// The homes that are left for the man on a square.
pub(crate) fn homes_left(query: &Query, ledger: &Ledger, s: Square) -> SquareSet
    ensures { result ≡ homes_left query.now ledger.now s }
{
    squares_that(|h| is_left(query, ledger, s, h))
}

/// How many captures, up to 7, the pawn on a square is known to have made at least.
fn most_taken(query: &Query, ledger: &Ledger, s: Square) -> u8
    requires { IsTrue (is_a Pawn (at query.now.board s)) }
    ensures took { IsKnown (Took s result) query.now ledger.now }
    ensures most { result < 7 → IsKnown (Took s (result + 1)) query.now ledger.now → ⊥ }
{
    for n in 0..7 {
        if !is_known(query, ledger, &Fact::Took(s, n + 1)) {
            return n;
        }
    }
    7
}

/// Whether a pawn of this side stands on a square who isn't known to have kept to his file.
pub(crate) fn is_moving(query: &Query, ledger: &Ledger, side: Colour, s: Square) -> bool
    ensures { result ≡ is_moving query.now ledger.now side s }
{
    is_the(side, Kind::Pawn, query.board.at(s)) && !ledger.straight.has(s)
}

/// Whether where he began says more than the board does.
fn is_news(homes: SquareSet, s: Square, number: u8) -> bool
    ensures { result ≡ is_pawn_news homes s number }
{
    let homes_left = number_in(homes);
    (homes_left == 1 && !homes.has(s)) || (homes_left > 1 && homes_left < 4 && number > 0)
}

/// The line of where he began, if it is news.
fn line_if(news: bool, s: Square, homes: SquareSet, number: u8, exact: bool) -> Option<Line>
    ensures { result ≡ cond news (Some (PawnLine s homes number exact)) None }
{
    if news {
        Some(Line::Pawn(s, homes, number, exact))
    } else {
        None
    }
}

/// The same of what is known.
fn told_pawn(query: &Query, ledger: &Ledger, s: Square) -> Option<Line>
    requires { IsTrue (is_a Pawn (at query.now.board s)) }
    ensures { TellsPawn query.now ledger.now s result }
{
    let homes = homes_left(query, ledger, s);
    let number = most_taken(query, ledger, s);
    let exact = is_known(query, ledger, &Fact::TookAtMost(s, number));
    let news = is_news(homes, s, number);
    line_if(news, s, homes, number, exact)
}

/// The line of the pawn on a square.
pub(crate) fn pawn_line(query: &Query, ledger: &Ledger, side: Colour, s: Square) -> Option<Line>
    ensures { IsSquareLine (Topic.Pawns side) query.now ledger.now s result }
{
    if is_moving(query, ledger, side, s) {
        told_pawn(query, ledger, s)
    } else {
        None
    }
}
