ghost use Rattle.std.specs.Prelude.{◌≡◌, ℕ, ◌==◌, ◌<◌, ◌&&◌, ◌||◌, cond, nat_lt, IfSome, IsTrue, false};
ghost use Rattle.board_base.specs.Board.{at, is_the};
ghost use Rattle.board_base.specs.declared.men.Kind.TheVariants.{King};
ghost use Rattle.men_account.specs.Account.{excess_of};
ghost use Rattle.unmove_gen.specs.Plain.{AreFacts, has_room, lacks};

use board_base::{Board, Colour, Kind, Square, is_the};
use men_account::{Allowance, Counts, account_ok, allowance, counts, excess, is_light};
use play_rules::has_no_pawn_on_ends;
use query_base::Query;

/// What the retractions of a query share.
#[derive(Clone, Copy)]
pub struct QueryFacts {
    /// Where the king of the side to move stands.
    pub king: Square,
    /// The men of the side to move.
    pub men: Counts,
    /// What that side begins with at the query's odds.
    pub allowed: Allowance,
    /// How many of its men are pawns or must have been promoted.
    pub used: u16,
    /// The king of the side to move is attacked.
    pub checked: bool,
}

/// The square of the only king of this colour.
fn sole_king(board: &Board, colour: Colour) -> Option<Square>
    ensures { IfSome result (λ king. (s : ℕ) → s < 64 → is_the colour King (at board.now s) ≡ (s == king)) }
{
    let mut found = None;
    for i in 0..64 {
        let s = Square::known(i);
        if is_the(colour, Kind::King, board.at(s)) {
            if found.is_some() {
                return None;
            }
            found = Some(s);
        }
    }
    found
}

/// What the retractions share, if each side has one king, no pawn stands on rank 1 or 8, the side that moved isn't in check, and
/// it has no more men than it may at the query's odds.
pub fn facts_of(query: &Query) -> Option<QueryFacts>
    ensures { IfSome result (λ f. AreFacts query.now f) }
{
    let board = &query.board;
    let (turn, mover) = (query.turn, query.turn.other());
    board.is_whole();
    let Some(king) = sole_king(board, turn) else {
        return None;
    };
    let Some(other) = sole_king(board, mover) else {
        return None;
    };
    king.index();
    other.index();
    if !has_no_pawn_on_ends(board)
        || board.attacked(other, turn)
        || !account_ok(board, mover, query.odds)
    {
        return None;
    }
    let men = counts(board, turn);
    let allowed = allowance(turn, query.odds);
    Some(QueryFacts {
        king,
        men,
        allowed,
        used: excess(&men, &allowed),
        checked: board.attacked(king, mover),
    })
}

/// Of a man of this kind, who would stand on this square, the side began with more than it has.
fn lacks(allowed: &Allowance, men: &Counts, kind: Kind, s: Square) -> bool
    ensures { result ≡ lacks allowed.now men.now kind s }
{
    match kind {
        Kind::Pawn | Kind::King => false,
        Kind::Knight => men.knights < allowed.knights,
        Kind::Bishop => {
            if is_light(s) {
                men.light_bishops < allowed.light_bishops
            } else {
                men.dark_bishops < allowed.dark_bishops
            }
        }
        Kind::Rook => men.rooks < allowed.rooks,
        Kind::Queen => men.queens < allowed.queens,
    }
}

/// The side to move has room for a man more of this kind on this square.
pub fn has_room(facts: &QueryFacts, kind: Kind, s: Square) -> bool
    requires { facts.now.used ≡ excess_of facts.now.men facts.now.allowed }
    ensures { result ≡ has_room facts.now.allowed facts.now.men kind s }
{
    let pawns = facts.allowed.pawns as u16;
    facts.used < pawns || (facts.used == pawns && lacks(&facts.allowed, &facts.men, kind, s))
}
