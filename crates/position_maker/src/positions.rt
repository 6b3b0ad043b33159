ghost use Rattle.std.specs.Prelude.{◌≡◌, ◌++◌, ◌∷◌, ◌≤◌, [], IsTrue, List, Some, length};
ghost use Rattle.board_base.specs.Board.{no_odds};
ghost use Rattle.board_base.specs.Game.{IsGame};
ghost use Rattle.board_base.specs.declared.moves.Move.{Move as AMove};
ghost use Rattle.play_rules.specs.States.{double_crossing, legal_at, Follows, StandsFor};
ghost use Rattle.query_base.specs.Asked.{is_of_other_side};
ghost use Rattle.unmove_gen.specs.Listed.{unmoves};
ghost use Rattle.unmove_gen.specs.Predecessor.{unmove_after};
ghost use Rattle.unmove_gen.specs.TakenBack.{kind_of};
ghost use Rattle.position_maker.specs.Positions.{if_double, query_after};

use board_base::{Kind, Man, Move, Odds, Unmove};
use play_rules::{State, goes_en_passant};
use query_base::Query;
use unmove_gen::{Unmoves, few_unmoves};

/// The move, if it was a pawn's double step.
fn if_double(before: &State, m: &Move, after: &State) -> Option<Move>
    requires legal { IsTrue (legal_at before.now m.now) }
    requires follows { Follows before.now m.now after.now }
    requires double { after.now.ep ≡ double_crossing before.now.board before.now.turn m.now }
    ensures answer { result ≡ if_double after.now.board (Some m.now) }
    ensures theirs { IsTrue (is_of_other_side after.now.turn result) }
{
    if after.ep().is_some() { Some(*m) } else { None }
}

/// The query, without odds, of the position after a legal move.
pub(crate) fn query_after(before: &State, m: &Move, after: &State) -> Query
    requires legal { IsTrue (legal_at before.now m.now) }
    requires follows { Follows before.now m.now after.now }
    requires double { after.now.ep ≡ double_crossing before.now.board before.now.turn m.now }
    ensures { (g : List AMove) → StandsFor after.now no_odds (g ++ m.now ∷ []) → result ≡ query_after (g ++ m.now ∷ []) }
{
    Query {
        board: *after.board(),
        turn: after.turn(),
        odds: Odds::none(),
        held: after.rights(),
        only: if_double(before, m, after),
        barred: None,
        clock: None,
    }
}

fn kind_of(place: Option<Man>) -> Option<Kind>
    ensures { result ≡ kind_of place }
{
    match place {
        Some(man) => Some(man.kind),
        None => None,
    }
}

/// The unmove that takes the move back.
pub(crate) fn unmove_after(before: &State, m: &Move) -> Unmove
    requires { IsTrue (legal_at before.now m.now) }
    ensures { (g : List AMove) → IsGame no_odds g → StandsFor before.now no_odds g → result ≡ unmove_after no_odds g m.now }
{
    let ep = goes_en_passant(before.board(), m);
    let captured = if ep {
        Some(Kind::Pawn)
    } else {
        kind_of(before.board().at(m.to))
    };
    Unmove {
        mv: *m,
        captured,
        ep,
    }
}

/// How many unmoves the query has.
pub(crate) fn count_unmoves(query: &Query) -> u64
    ensures number { result ≡ length (unmoves query.now) }
    ensures few { result ≤ 143360 }
{
    few_unmoves();
    let mut number: u64 = 0;
    let mut left = Unmoves::new(query);
    while left.next().is_some() {
        number += 1;
    }
    number
}
