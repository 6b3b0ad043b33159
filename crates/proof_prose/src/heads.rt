//! The diagram, the claim and what is supposed.

ghost use Rattle.std.specs.Prelude.{◌≡◌, ◌++◌, ◌<◌, ◌||◌, IfOk, codes, cond, not};
ghost use Rattle.proof_prose.specs.Heads.{both_given, both_stayed, both_words, claim_words, clock_given, clock_words, closing_text, diagram_text, drawn_text, given_words, givens_text, going_words, has_givens, has_rights, kept_words, last_words, left_out, legal_words, lost_words, lower_text, move_words, not_words, odds_given, odds_line, odds_words, only_given, other_words, place_text, promotion_words, rank_line, rank_text, reached_words, right_given, right_words, supposed_words, supposition_text, upper_text};
ghost use Rattle.proof_sentences.specs.Phrases.{unmoved_words};
ghost use Rattle.board_base.specs.Board.{at};
ghost use Rattle.board_base.specs.Rights.{holds};
ghost use Rattle.fen_text.specs.OddsLines.{is_no_odds};
ghost use Rattle.prose_words.specs.Words.{kind_word, squares_words};

use board_base::{Board, Castle, CastleSet, Colour, Kind, Man, Move, Odds, Square};
use castle_history::home;
use ep_history::{double_of, ep_fits};
use proof_sentences::{push_either, push_unmoved, set_squares};
use proof_story::{mover_initial, push_became, push_wrapped};
use prose_words::{kind_word, place_letter, push_number, push_square, say, side_word, wing_word};
use query_base::{Claim, Query};
use std::alloc::{AllocError, Global};

/// What stands on a square, after a space.
fn push_place(board: &Board, s: Square, out: &mut Vec<u8>) -> Result<(), AllocError>
    ensures { IfOk result (λ _. out.new.items ≡ out.old.items ++ place_text board.now s) }
{
    say(b" ", out)?;
    out.push(place_letter(board.at(s)))?;
    Ok(())
}

/// A rank of the diagram.
fn push_rank(board: &Board, rank: u8, out: &mut Vec<u8>) -> Result<(), AllocError>
    requires { rank < 8 }
    ensures { IfOk result (λ _. out.new.items ≡ out.old.items ++ rank_text board.now rank) }
{
    out.push(b'1' + rank)?;
    for file in 0..8 {
        push_place(board, Square::known(8 * rank + file), out)?;
    }
    Ok(())
}

/// The same, with a line end.
fn push_line(board: &Board, rank: u8, out: &mut Vec<u8>) -> Result<(), AllocError>
    requires { rank < 8 }
    ensures { IfOk result (λ _. out.new.items ≡ out.old.items ++ rank_line board.now rank) }
{
    push_rank(board, rank, out)?;
    say(b"\n", out)
}

#[tactic(auto, unfolding(crate::specs::Heads::upper_text))]
/// The upper half of the diagram.
fn push_upper(board: &Board, out: &mut Vec<u8>) -> Result<(), AllocError>
    ensures { IfOk result (λ _. out.new.items ≡ out.old.items ++ upper_text board.now) }
{
    push_line(board, 7, out)?;
    push_line(board, 6, out)?;
    push_line(board, 5, out)?;
    push_line(board, 4, out)
}

#[tactic(auto, unfolding(crate::specs::Heads::lower_text))]
/// The lower half, with the side to move behind it.
fn push_lower(board: &Board, turn: Colour, out: &mut Vec<u8>) -> Result<(), AllocError>
    ensures { IfOk result (λ _. out.new.items ≡ out.old.items ++ lower_text board.now turn) }
{
    push_line(board, 3, out)?;
    push_line(board, 2, out)?;
    push_line(board, 1, out)?;
    push_rank(board, 0, out)?;
    say(b"     ", out)?;
    say(side_word(turn), out)?;
    say(b" to move\n", out)?;
    Ok(())
}

/// The diagram, with the side to move behind it.
#[tactic(auto, unfolding(crate::specs::Heads::diagram_text))]
fn push_diagram(board: &Board, turn: Colour, out: &mut Vec<u8>) -> Result<(), AllocError>
    ensures { IfOk result (λ _. out.new.items ≡ out.old.items ++ diagram_text board.now turn) }
{
    say(b"  a b c d e f g h\n", out)?;
    push_upper(board, out)?;
    push_lower(board, turn, out)
}

/// That the men of these squares were left out, or the man of one.
fn push_left_out(list: &[u8], out: &mut Vec<u8>) -> Result<(), AllocError>
    ensures { IfOk result (λ _. out.new.items ≡ out.old.items ++ left_out list.now) }
{
    say(b"The game began without the ", out)?;
    push_either(list.len() == 3, b"man of", b"men of", out)?;
    say(list, out)?;
    say(b".\n", out)
}

/// The squares whose men were left out.
fn odds_line(alloc: Global, odds: Odds) -> Result<Vec<u8>, AllocError>
    ensures { IfOk result (λ v. v.items ≡ odds_line odds) }
{
    let list = set_squares(alloc, odds.set())?;
    let mut line = Vec::new(alloc);
    push_left_out(list.as_slice(), &mut line)?;
    Ok(line)
}

/// The same in rows.
fn push_odds_words(alloc: Global, odds: Odds, out: &mut Vec<u8>) -> Result<(), AllocError>
    ensures { IfOk result (λ _. out.new.items ≡ out.old.items ++ odds_words odds) }
{
    let line = odds_line(alloc, odds)?;
    push_wrapped(line.as_slice(), out)
}

/// Which men the game began without.
fn push_odds(alloc: Global, odds: Odds, out: &mut Vec<u8>) -> Result<(), AllocError>
    ensures { IfOk result (λ _. out.new.items ≡ out.old.items ++ odds_given odds) }
{
    if odds.is_none() {
        return Ok(());
    }
    push_odds_words(alloc, odds, out)
}

/// What the half-move clock is.
fn push_clock_words(n: u16, out: &mut Vec<u8>) -> Result<(), AllocError>
    ensures { IfOk result (λ _. out.new.items ≡ out.old.items ++ clock_words n) }
{
    say(
        b"Half-moves since the last capture or move of a pawn: ",
        out,
    )?;
    push_number(n as usize, out)?;
    say(b".\n", out)
}

/// The same, if it is given.
fn push_clock(clock: Option<u16>, out: &mut Vec<u8>) -> Result<(), AllocError>
    ensures { IfOk result (λ _. out.new.items ≡ out.old.items ++ clock_given clock) }
{
    match clock {
        None => Ok(()),
        Some(n) => push_clock_words(n, out),
    }
}

/// That it is given what the last move was.
fn push_last_words(m: &Move, out: &mut Vec<u8>) -> Result<(), AllocError>
    ensures { IfOk result (λ _. out.new.items ≡ out.old.items ++ last_words m.now) }
{
    say(b"It is given that the last move was ", out)?;
    push_square(m.from, out)?;
    say(b"-", out)?;
    push_square(m.to, out)?;
    say(b".\n", out)
}

/// The same, if it is given.
fn push_only(only: &Option<Move>, out: &mut Vec<u8>) -> Result<(), AllocError>
    ensures { IfOk result (λ _. out.new.items ≡ out.old.items ++ only_given only.now) }
{
    match only {
        None => Ok(()),
        Some(m) => push_last_words(m, out),
    }
}

/// That a right to castle is given.
fn push_right_words(castle: Castle, out: &mut Vec<u8>) -> Result<(), AllocError>
    ensures { IfOk result (λ _. out.new.items ≡ out.old.items ++ right_words castle) }
{
    say(b"It is given that ", out)?;
    push_unmoved(castle, out)?;
    say(b".\n", out)
}

/// The same, if it is given.
fn push_right(given: bool, castle: Castle, out: &mut Vec<u8>) -> Result<(), AllocError>
    ensures { IfOk result (λ _. out.new.items ≡ out.old.items ++ right_given given castle) }
{
    if given {
        push_right_words(castle, out)
    } else {
        Ok(())
    }
}

/// That both rights to castle of a side are given, whose king and rooks stood on these squares.
#[tactic(auto, unfolding(crate::specs::Heads::both_stayed))]
fn push_both_stayed(
    king: Square,
    long: Square,
    short: Square,
    out: &mut Vec<u8>,
) -> Result<(), AllocError>
    ensures { IfOk result (λ _. out.new.items ≡ out.old.items ++ both_stayed king long short) }
{
    say(b"It is given that the king of ", out)?;
    push_square(king, out)?;
    say(b" and the rooks of ", out)?;
    push_square(long, out)?;
    say(b" and ", out)?;
    push_square(short, out)?;
    say(b" never moved, and neither rook was taken.\n", out)
}

/// That both rights to castle of a side are given.
fn push_both_words(short: Castle, long: Castle, out: &mut Vec<u8>) -> Result<(), AllocError>
    ensures { IfOk result (λ _. out.new.items ≡ out.old.items ++ both_words short long) }
{
    let (king, near) = home(short);
    let (_, far) = home(long);
    push_both_stayed(king, far, near, out)
}

/// What is given of two rights to castle of one side.
fn push_both(
    has_short: bool,
    has_long: bool,
    short: Castle,
    long: Castle,
    out: &mut Vec<u8>,
) -> Result<(), AllocError>
    ensures { IfOk result (λ _. out.new.items ≡ out.old.items ++ both_given has_short has_long short long) }
{
    if has_short && has_long {
        return push_both_words(short, long, out);
    }
    push_right(has_short, short, out)?;
    push_right(has_long, long, out)
}

/// What is given of the two rights to castle of one side, of those that are held.
fn push_rights(
    held: CastleSet,
    short: Castle,
    long: Castle,
    out: &mut Vec<u8>,
) -> Result<(), AllocError>
    ensures { IfOk result (λ _. out.new.items ≡ out.old.items ++ both_given (holds held short) (holds held long) short long) }
{
    push_both(held.has(short), held.has(long), short, long, out)
}

/// What is given beside the diagram.
fn push_givens(alloc: Global, query: &Query, out: &mut Vec<u8>) -> Result<(), AllocError>
    ensures { IfOk result (λ _. out.new.items ≡ out.old.items ++ givens_text query.now) }
{
    push_odds(alloc, query.odds, out)?;
    push_clock(query.clock, out)?;
    push_only(&query.only, out)?;
    push_rights(query.held, Castle::WhiteShort, Castle::WhiteLong, out)?;
    push_rights(query.held, Castle::BlackShort, Castle::BlackLong, out)
}

/// Whether some castling is held.
fn has_rights(query: &Query) -> bool
    ensures { result ≡ has_rights query.now }
{
    query.held.has(Castle::WhiteShort)
        || query.held.has(Castle::WhiteLong)
        || query.held.has(Castle::BlackShort)
        || query.held.has(Castle::BlackLong)
}

/// Whether the game began without some men.
fn has_odds(odds: Odds) -> bool
    ensures { result ≡ not (is_no_odds odds) }
{
    !odds.is_none()
}

/// Whether one of these is given.
fn is_any(odds: bool, clock: bool, only: bool, rights: bool) -> bool
    ensures { result ≡ (odds || clock || only || rights) }
{
    odds || clock || only || rights
}

/// Something is given beside the diagram.
fn has_givens(query: &Query) -> bool
    ensures { result ≡ has_givens query.now }
{
    is_any(
        has_odds(query.odds),
        query.clock.is_some(),
        query.only.is_some(),
        has_rights(query),
    )
}

/// That something is given beside the diagram, if it is.
fn push_given(query: &Query, out: &mut Vec<u8>) -> Result<(), AllocError>
    ensures { IfOk result (λ _. out.new.items ≡ out.old.items ++ given_words query.now) }
{
    push_either(has_givens(query), b" with what is given below it", b"", out)
}

/// A move that led to this board, in long notation, with this sign between its squares.
pub(crate) fn push_move(
    board: &Board,
    m: &Move,
    sign: u8,
    out: &mut Vec<u8>,
) -> Result<(), AllocError>
    ensures { IfOk result (λ _. out.new.items ≡ out.old.items ++ move_words board.now m.now sign) }
{
    say(mover_initial(board.at(m.to), m.promo), out)?;
    push_square(m.from, out)?;
    out.push(sign)?;
    push_square(m.to, out)?;
    push_became(m.promo, out)
}

/// What a pawn becomes.
fn push_becoming(kind: Kind, out: &mut Vec<u8>) -> Result<(), AllocError>
    ensures { IfOk result (λ _. out.new.items ≡ out.old.items ++ (codes ", becoming a " ++ kind_word kind)) }
{
    say(b", becoming a ", out)?;
    say(kind_word(kind), out)
}

/// The same, if it is promoted.
fn push_promotion(promo: Option<Kind>, out: &mut Vec<u8>) -> Result<(), AllocError>
    ensures { IfOk result (λ _. out.new.items ≡ out.old.items ++ promotion_words promo) }
{
    match promo {
        None => Ok(()),
        Some(kind) => push_becoming(kind, out),
    }
}

/// A move whose captured man, if there is one, isn't told.
fn push_going(m: &Move, out: &mut Vec<u8>) -> Result<(), AllocError>
    ensures { IfOk result (λ _. out.new.items ≡ out.old.items ++ going_words m.now) }
{
    say(b"went from ", out)?;
    push_square(m.from, out)?;
    say(b" to ", out)?;
    push_square(m.to, out)?;
    push_promotion(m.promo, out)?;
    say(b", capturing or not", out)
}

/// How the last move went.
fn push_last(m: &Move, out: &mut Vec<u8>) -> Result<(), AllocError>
    ensures { IfOk result (λ _. out.new.items ≡ out.old.items ++ (codes "the last move " ++ going_words m.now)) }
{
    say(b"the last move ", out)?;
    push_going(m, out)
}

/// That no game leads to the diagram.
fn push_illegal(query: &Query, out: &mut Vec<u8>) -> Result<(), AllocError>
    ensures { IfOk result (λ _. out.new.items ≡ out.old.items ++ (codes "no game leads to this diagram" ++ given_words query.now)) }
{
    say(b"no game leads to this diagram", out)?;
    push_given(query, out)
}

/// That a right to castle is lost.
fn push_lost(castle: Castle, out: &mut Vec<u8>) -> Result<(), AllocError>
    ensures { IfOk result (λ _. out.new.items ≡ out.old.items ++ lost_words castle) }
{
    say(side_word(castle.side()), out)?;
    say(b" has lost the right to castle on the ", out)?;
    say(wing_word(castle), out)?;
    say(b" side", out)
}

/// That a capture en passant is legal.
fn push_legal(m: &Move, out: &mut Vec<u8>) -> Result<(), AllocError>
    ensures { IfOk result (λ _. out.new.items ≡ out.old.items ++ legal_words m.now) }
{
    say(b"the capture ", out)?;
    push_square(m.from, out)?;
    say(b"x", out)?;
    push_square(m.to, out)?;
    say(b" en passant is legal", out)
}

/// What is claimed, in words.
fn push_claim(claim: &Claim, query: &Query, out: &mut Vec<u8>) -> Result<(), AllocError>
    ensures { IfOk result (λ _. out.new.items ≡ out.old.items ++ claim_words claim.now query.now) }
{
    match claim {
        Claim::Illegal => push_illegal(query, out),
        Claim::Last(m) => push_last(m, out),
        Claim::Lost(castle) => push_lost(*castle, out),
        Claim::Ep(m) => push_legal(m, out),
    }
}

/// That the last move wasn't this one.
fn push_not(d: &Move, out: &mut Vec<u8>) -> Result<(), AllocError>
    ensures { IfOk result (λ _. out.new.items ≡ out.old.items ++ not_words d.now) }
{
    say(b"the last move was not ", out)?;
    push_square(d.from, out)?;
    say(b"-", out)?;
    push_square(d.to, out)
}

/// That some game leads to the diagram, with what is given.
fn push_reached(query: &Query, out: &mut Vec<u8>) -> Result<(), AllocError>
    ensures { IfOk result (λ _. out.new.items ≡ out.old.items ++ reached_words query.now) }
{
    say(b"a game leads to this diagram", out)?;
    push_given(query, out)
}

/// That the king and the rook of a castling are what they were.
fn push_kept(castle: Castle, out: &mut Vec<u8>) -> Result<(), AllocError>
    ensures { IfOk result (λ _. out.new.items ≡ out.old.items ++ kept_words castle) }
{
    say(side_word(castle.side()), out)?;
    say(
        b" still has the right: king and rook never moved, and the rook was never taken",
        out,
    )
}

/// That the last move wasn't this double step; if there is none, that some game leads to the diagram.
fn push_other(query: &Query, double: Option<Move>, out: &mut Vec<u8>) -> Result<(), AllocError>
    ensures { IfOk result (λ _. out.new.items ≡ out.old.items ++ other_words double query.now) }
{
    match double {
        None => push_reached(query, out),
        Some(d) => push_not(&d, out),
    }
}

/// What is supposed against a capture en passant.
fn push_other_than(query: &Query, m: &Move, out: &mut Vec<u8>) -> Result<(), AllocError>
    ensures { IfOk result (λ _. out.new.items ≡ out.old.items ++ supposed_words (Claim.Ep m.now) query.now) }
{
    if ep_fits(&query.board, query.turn, m) {
        push_other(query, double_of(m, query.turn), out)
    } else {
        push_reached(query, out)
    }
}

/// What is supposed against the claim, in words.
fn push_supposed(claim: &Claim, query: &Query, out: &mut Vec<u8>) -> Result<(), AllocError>
    ensures { IfOk result (λ _. out.new.items ≡ out.old.items ++ supposed_words claim.now query.now) }
{
    match claim {
        Claim::Illegal => push_either(has_givens(query), b"one does", b"a game leads to it", out),
        Claim::Last(_) => say(b"the last move was another", out),
        Claim::Lost(castle) => push_kept(*castle, out),
        Claim::Ep(m) => push_other_than(query, m, out),
    }
}

/// The diagram of the query.
fn push_position(query: &Query, out: &mut Vec<u8>) -> Result<(), AllocError>
    ensures { IfOk result (λ _. out.new.items ≡ out.old.items ++ diagram_text query.now.board query.now.turn) }
{
    push_diagram(&query.board, query.turn, out)
}

/// Adds the diagram, and what is given beside it.
pub fn draw(alloc: Global, query: &Query, out: &mut Vec<u8>) -> Result<(), AllocError>
    ensures { IfOk result (λ _. out.new.items ≡ out.old.items ++ drawn_text query.now) }
{
    push_position(query, out)?;
    push_givens(alloc, query, out)
}

/// The claim, and what is supposed.
pub(crate) fn push_supposition(
    claim: &Claim,
    query: &Query,
    out: &mut Vec<u8>,
) -> Result<(), AllocError>
    ensures { IfOk result (λ _. out.new.items ≡ out.old.items ++ supposition_text claim.now query.now) }
{
    say(b"Claim: ", out)?;
    push_claim(claim, query, out)?;
    say(b".\n", out)?;
    say(b"Suppose that ", out)?;
    push_supposed(claim, query, out)?;
    say(b".\n", out)
}

/// The last line, which states the claim again.
pub(crate) fn push_closing(
    claim: &Claim,
    query: &Query,
    out: &mut Vec<u8>,
) -> Result<(), AllocError>
    ensures { IfOk result (λ _. out.new.items ≡ out.old.items ++ closing_text claim.now query.now) }
{
    say(b"So ", out)?;
    push_claim(claim, query, out)?;
    say(b". QED\n", out)
}
