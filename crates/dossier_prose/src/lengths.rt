//! A length in words: what each man of both sides needs.

ghost use Rattle.std.specs.Prelude.{◌≡◌, ◌++◌, ◌∷◌, ◌<◌, ◌≤◌, ℕ, IfOk, List, MatchOption, drop, length};
ghost use Rattle.std.specs.List.{All, range_with_len};
ghost use Rattle.assignment.specs.Tables.{IsTable};
ghost use Rattle.board_base.specs.Board.{home_of, men_squares};
ghost use Rattle.board_base.specs.declared.moves.Move.{Move as AMove};
ghost use Rattle.dossier_prose.specs.Lengths.{ExplainsLength, IsShownBy, TellsSide, claim_text, cost_words, counted, end_text, from_words, many_text, need_words, plural, saved_words, side_line, way_words, ways_words};
ghost use Rattle.length_bound.specs.LengthAnswers.{IsShown};
ghost use Rattle.length_bound.specs.SideBounds.{holds_some, move_costs, place_cost};
ghost use Rattle.query_base.specs.Reach.{Reaches};

use arrayvec::ArrayVec;
use assignment::solve;
use board_base::{Board, Castle, CastleSet, Colour, Man, Odds, Square, is_of};
use length_bound::{LengthText, best, length_of, man_costs, move_cost, shown_lengths_hold};
use proof_prose::draw;
use proof_story::push_wrapped;
use prose_words::{place_initial, push_number, push_square, say, side_word};
use query_base::Query;
use std::alloc::{AllocError, Global};

/// A home of a side, by its place among the side's sixteen homes in ascending order, from 0.
fn home_of(side: Colour, j: u8) -> Square
    requires { j < 16 }
    ensures { result ≡ home_of side j }
{
    match side {
        Colour::White => Square::known(j),
        Colour::Black => Square::known(48 + j),
    }
}

/// What the man on this place of a square needs from a home; 64 if nobody stands there.
fn place_cost(odds: Odds, place: Option<Man>, s: Square, home: Square) -> u8
    ensures { result ≡ place_cost odds place s home }
{
    match place {
        Some(man) => move_cost(odds, man, s, home),
        None => 64,
    }
}

/// From which home a man comes, and in how many moves.
fn push_from(cost: u8, home: Square, out: &mut Vec<u8>) -> Result<(), AllocError>
    ensures { IfOk result (λ _. out.new.items ≡ out.old.items ++ from_words cost home) }
{
    say(b" from ", out)?;
    push_square(home, out)?;
    say(b" ", out)?;
    push_number(cost as usize, out)?;
    say(b", ", out)
}

/// The same; 64 is more than any man needs.
fn push_cost(cost: u8, home: Square, out: &mut Vec<u8>) -> Result<(), AllocError>
    ensures { IfOk result (λ _. out.new.items ≡ out.old.items ++ cost_words cost home) }
{
    if cost == 64 {
        say(b" from no home 64, ", out)
    } else {
        push_from(cost, home, out)
    }
}

/// A man who needs some moves.
fn push_need(
    place: Option<Man>,
    s: Square,
    home: Square,
    cost: u8,
    out: &mut Vec<u8>,
) -> Result<(), AllocError>
    ensures { IfOk result (λ _. out.new.items ≡ out.old.items ++ need_words place s home cost) }
{
    say(place_initial(place), out)?;
    push_square(s, out)?;
    push_cost(cost, home, out)
}

/// What the man on a square needs from a home, if he needs anything.
fn push_way(
    odds: Odds,
    place: Option<Man>,
    s: Square,
    home: Square,
    out: &mut Vec<u8>,
) -> Result<(), AllocError>
    ensures { IfOk result (λ _. out.new.items ≡ out.old.items ++ way_words odds place s home) }
{
    let cost = place_cost(odds, place, s, home);
    if cost == 0 {
        Ok(())
    } else {
        push_need(place, s, home, cost, out)
    }
}

/// What the man on a square needs, if he is of the side, from the home with this number. The answer is the number of the next man's home.
fn push_if_of(
    odds: Odds,
    board: &Board,
    side: Colour,
    s: Square,
    homes: &[u8],
    number: usize,
    out: &mut Vec<u8>,
) -> Result<usize, AllocError>
    requires within { All (λ j. j < 16) homes.now }
    requires number { number ≤ length homes.now }
    ensures words { IfOk result (λ next. (squares : List ℕ) → out.new.items ++ ways_words odds side board.now squares (drop next homes.now) ≡ out.old.items ++ ways_words odds side board.now (s ∷ squares) (drop number homes.now)) }
    ensures number { IfOk result (λ next. next ≤ length homes.now) }
{
    let place = board.at(s);
    if !is_of(side, place) {
        return Ok(number);
    }
    if number == homes.len() {
        return Ok(number);
    }
    let home = home_of(side, homes[number]);
    push_way(odds, place, s, home, out)?;
    Ok(number + 1)
}

/// What each man of a side needs from these homes, those of its men in ascending order of their squares.
fn push_ways(
    odds: Odds,
    board: &Board,
    side: Colour,
    homes: &[u8],
    out: &mut Vec<u8>,
) -> Result<(), AllocError>
    requires { All (λ j. j < 16) homes.now }
    ensures { IfOk result (λ _. out.new.items ≡ out.old.items ++ ways_words odds side board.now (range_with_len 0 64) homes.now) }
{
    let mut number = 0;
    for i in 0..64 {
        let s = Square::known(i);
        let next = push_if_of(odds, board, side, s, homes, number, out)?;
        number = next;
    }
    Ok(())
}

/// The same of the men of a query.
fn push_query_ways(
    query: &Query,
    side: Colour,
    homes: &[u8],
    out: &mut Vec<u8>,
) -> Result<(), AllocError>
    requires { All (λ j. j < 16) homes.now }
    ensures { IfOk result (λ _. out.new.items ≡ out.old.items ++ ways_words query.now.odds side query.now.board (range_with_len 0 64) homes.now) }
{
    push_ways(query.odds, &query.board, side, homes, out)
}

/// Whether the set has a castling of this side.
fn holds_some(side: Colour, held: CastleSet) -> bool
    ensures { result ≡ holds_some side held }
{
    match side {
        Colour::White => held.has(Castle::WhiteShort) || held.has(Castle::WhiteLong),
        Colour::Black => held.has(Castle::BlackShort) || held.has(Castle::BlackLong),
    }
}

/// Whether a right to castle of this side is demanded.
fn keeps_some(query: &Query, side: Colour) -> bool
    ensures { result ≡ holds_some side query.now.held }
{
    holds_some(side, query.held)
}

/// The letter behind a word for several things.
fn plural(count: u16) -> &'static [u8]
    ensures { result.now ≡ plural count }
{
    if count == 1 { b"" } else { b"s" }
}

/// So many things of a kind.
fn push_counted(count: u16, kind: &[u8], out: &mut Vec<u8>) -> Result<(), AllocError>
    ensures { IfOk result (λ _. out.new.items ≡ out.old.items ++ counted count kind.now) }
{
    push_number(count as usize, out)?;
    say(b" ", out)?;
    say(kind, out)?;
    say(plural(count), out)
}

/// What castling may have saved of so many moves, if there are any.
fn saved_words(kept: bool, sum: u16) -> &'static [u8]
    ensures { result.now ≡ saved_words kept sum }
{
    if sum == 0 {
        b""
    } else if kept {
        b", of which castling saved none, since a right to castle is kept"
    } else {
        b", of which castling may have saved up to 2"
    }
}

/// The line of a side: what its men need with these homes, the sum, and how long a game is at least.
fn push_line(
    query: &Query,
    side: Colour,
    homes: &[u8],
    sum: u16,
    half_moves: u16,
    out: &mut Vec<u8>,
) -> Result<(), AllocError>
    requires { All (λ j. j < 16) homes.now }
    ensures { IfOk result (λ _. out.new.items ≡ out.old.items ++ side_line query.now side homes.now sum half_moves) }
{
    say(side_word(side), out)?;
    say(b": ", out)?;
    push_query_ways(query, side, homes, out)?;
    say(b"in all ", out)?;
    push_counted(sum, b"move", out)?;
    say(saved_words(keeps_some(query, side), sum), out)?;
    say(b". So each game has at least ", out)?;
    push_counted(half_moves, b"half-move", out)?;
    say(b".", out)
}

/// What each man of a side with at most sixteen men needs from each of its homes.
fn table_of(query: &Query, side: Colour) -> ArrayVec<[u8; 16], 16>
    requires { length (men_squares side query.now.board) ≤ 16 }
    ensures table { IsTable result.items 16 64 }
    ensures items { result.items ≡ move_costs query.now.odds side query.now.board }
{
    man_costs(&query.board, side, query.odds).unwrap()
}

/// The rows of a side with at most sixteen men, who show that each game has so many half-moves at least.
fn push_shown(
    alloc: Global,
    query: &Query,
    side: Colour,
    half_moves: u16,
    out: &mut Vec<u8>,
) -> Result<(), AllocError>
    requires { IsShownBy side query.now half_moves }
    ensures { IfOk result (λ _. (text : List ℕ) × TellsSide side query.now text × (out.new.items ≡ out.old.items ++ text)) }
{
    let table = table_of(query, side);
    let solution = solve(table.as_slice());
    let mut line = Vec::new(alloc);
    push_line(
        query,
        side,
        solution.columns.as_slice(),
        solution.cost,
        half_moves,
        &mut line,
    )?;
    push_wrapped(line.as_slice(), out)
}

/// How many half-moves each game has at least, as the men of a side show it. None exactly if the side has more than sixteen men.
fn half_moves(query: &Query, side: Colour) -> Option<u16>
    ensures { MatchOption result (16 < length (men_squares side query.now.board)) (IsShownBy side query.now) }
{
    let Some(potentials) = best(query, side) else {
        return None;
    };
    match length_of(query, side, &potentials) {
        Some(n) => Some(n),
        None => unreachable!(),
    }
}

/// That a side has too many men.
fn push_many(side: Colour, out: &mut Vec<u8>) -> Result<(), AllocError>
    ensures { IfOk result (λ _. out.new.items ≡ out.old.items ++ many_text side) }
{
    say(side_word(side), out)?;
    say(
        b" has more than sixteen men, of whom nothing is counted.\n",
        out,
    )
}

/// What the men of a side need.
fn push_side(
    alloc: Global,
    query: &Query,
    side: Colour,
    out: &mut Vec<u8>,
) -> Result<(), AllocError>
    ensures { IfOk result (λ _. (text : List ℕ) × TellsSide side query.now text × (out.new.items ≡ out.old.items ++ text)) }
{
    match half_moves(query, side) {
        Some(n) => push_shown(alloc, query, side, n, out),
        None => push_many(side, out),
    }
}

/// The claim, and how men are counted.
fn push_claim(half_moves: u16, out: &mut Vec<u8>) -> Result<(), AllocError>
    ensures { IfOk result (λ _. out.new.items ≡ out.old.items ++ claim_text half_moves) }
{
    say(b"Claim: each game that leads here has at least ", out)?;
    push_counted(half_moves, b"half-move", out)?;
    say(
        b".\nThe moves that each man needs, alone on an empty board, from homes that make their sum least:\n",
        out,
    )
}

/// The claim again.
fn push_end(half_moves: u16, out: &mut Vec<u8>) -> Result<(), AllocError>
    ensures { IfOk result (λ _. out.new.items ≡ out.old.items ++ end_text half_moves) }
{
    say(b"So no game that leads here is shorter than ", out)?;
    push_counted(half_moves, b"half-move", out)?;
    say(b". QED\n", out)
}

/// What shows a length, in plain words: the diagram and the claim, what the men of each side need, and the claim again. The number is that
/// of the text, and no game has fewer half-moves.
pub fn explain_length(alloc: Global, text: &LengthText) -> Result<Vec<u8>, AllocError>
    requires { IsShown text.now }
    ensures told { IfOk result (λ out. ExplainsLength text.now out.items) }
    ensures least { (g : List AMove) → Reaches g text.now.query → text.now.at_least ≤ length g }
{
    shown_lengths_hold();
    let mut out = Vec::new(alloc);
    draw(alloc, &text.query, &mut out)?;
    push_claim(text.at_least, &mut out)?;
    push_side(alloc, &text.query, Colour::White, &mut out)?;
    push_side(alloc, &text.query, Colour::Black, &mut out)?;
    push_end(text.at_least, &mut out)?;
    Ok(out)
}
