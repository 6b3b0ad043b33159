//! Words for what is said of pawns.

ghost use Rattle.std.specs.Prelude.{◌≡◌, ◌++◌, ◌-◌, ◌<◌, ◌≤◌, IfOk, codes, cond, drop, length, ◌==◌};
ghost use Rattle.std.specs.Fmt.{decimal};
ghost use Rattle.assignment.specs.Assignments.{IsInjection};
ghost use Rattle.pawn_assign.specs.PawnCosts.{pawn_costs, pawn_home, pawn_squares};
ghost use Rattle.proof_sentences.specs.Sentences.{PawnsSay, at_time, began_words, can_come, captures_words, count_words, counted, gone_words, is_gone, is_safe, lacks_words, least_words, missed_words, missing_words, no_captures, pawn_fact_words, pawn_words, promoted_words, way_words, ways_words};
ghost use Rattle.prose_words.specs.Words.{side_word, squares_words};

use crate::pawns::pawn_squares;
use crate::phrases::{push_counted, push_either};
use crate::sentences::PawnFact;
use balance_prose::{push_around, rest_of};
use board_base::{Colour, Square, SquareSet, array_of, is_of};
use cage_rules::{is_dead, is_officer_home, is_shielded};
use pawn_assign::{Costs, costs, least};
use prose_words::{push_number, push_square, push_square_if, say, side_word};
use query_base::Query;
use std::alloc::{AllocError, Global};

/// Whether an officer of the side began on the square of whom nobody is left, while the set stood.
fn is_gone(query: &Query, side: Colour, set: SquareSet, s: Square) -> bool
    ensures { result ≡ is_gone query.now side set s }
{
    is_of(side, array_of(query.odds).at(s)) && is_officer_home(s) && is_dead(&query.board, set, s)
}

/// Whether an officer of the side began on the square whom no pawn took, while the set stood.
fn is_safe(query: &Query, side: Colour, set: SquareSet, s: Square) -> bool
    ensures { result ≡ is_safe query.now side set s }
{
    is_of(side, array_of(query.odds).at(s))
        && is_officer_home(s)
        && is_dead(&query.board, set, s)
        && is_shielded(set, s)
}

/// The homes of the side's officers of whom nobody is left, while the set stood.
fn gone_squares(
    alloc: Global,
    query: &Query,
    side: Colour,
    set: SquareSet,
) -> Result<Vec<u8>, AllocError>
    ensures { IfOk result (λ v. v.items ≡ squares_words (is_gone query.now side set)) }
{
    let mut list = Vec::new(alloc);
    for i in 0..64 {
        let s = Square::known(i);
        push_square_if(is_gone(query, side, set, s), s, &mut list)?;
    }
    Ok(list)
}

/// The homes of the side's officers whom no pawn took, while the set stood.
fn safe_squares(
    alloc: Global,
    query: &Query,
    side: Colour,
    set: SquareSet,
) -> Result<Vec<u8>, AllocError>
    ensures { IfOk result (λ v. v.items ≡ squares_words (is_safe query.now side set)) }
{
    let mut list = Vec::new(alloc);
    for i in 0..64 {
        let s = Square::known(i);
        push_square_if(is_safe(query, side, set, s), s, &mut list)?;
    }
    Ok(list)
}

/// What a side does now, or did before the move that leads to the query, if this isn't the first that is told.
fn push_at_time(
    first: bool,
    side: Colour,
    now: &[u8],
    before: &[u8],
    out: &mut Vec<u8>,
) -> Result<(), AllocError>
    ensures { IfOk result (λ _. out.new.items ≡ out.old.items ++ at_time first side now.now before.now) }
{
    push_either(first, b"", b"Before this move ", out)?;
    say(side_word(side), out)?;
    push_either(first, now, before, out)
}

/// How many more the first is.
fn less(n: u16, m: u8) -> u16
    ensures { result ≡ n - m }
{
    n.saturating_sub(m as u16)
}

/// How many promoted men a side has too, and with how many pawns it began.
fn push_promoted(promoted: u16, began: u8, out: &mut Vec<u8>) -> Result<(), AllocError>
    ensures { IfOk result (λ _. out.new.items ≡ out.old.items ++ promoted_words promoted began) }
{
    say(b" and at least ", out)?;
    push_counted(promoted as usize, b" promoted man", b" promoted men", out)?;
    say(b", but began with ", out)?;
    push_counted(began as usize, b" pawn", b" pawns", out)
}

/// With how many pawns a side began that has more of them.
fn push_fewer(began: u8, out: &mut Vec<u8>) -> Result<(), AllocError>
    ensures { IfOk result (λ _. out.new.items ≡ out.old.items ++ (codes ", but began with " ++ decimal began)) }
{
    say(b", but began with ", out)?;
    push_number(began as usize, out)
}

/// How many promoted men a side has, if it has any, and with how many pawns it began.
fn push_began(promoted: u16, began: u8, out: &mut Vec<u8>) -> Result<(), AllocError>
    ensures { IfOk result (λ _. out.new.items ≡ out.old.items ++ began_words promoted began) }
{
    if promoted == 0 {
        push_fewer(began, out)
    } else {
        push_promoted(promoted, began, out)
    }
}

/// How many pawns and promoted men a side has, and with how many pawns it began.
fn push_count(
    first: bool,
    side: Colour,
    pawns: u8,
    promoted: u16,
    began: u8,
    out: &mut Vec<u8>,
) -> Result<(), AllocError>
    ensures { IfOk result (λ _. out.new.items ≡ out.old.items ++ count_words first side pawns promoted began) }
{
    push_at_time(first, side, b" has ", b" had ", out)?;
    push_counted(pawns as usize, b" pawn", b" pawns", out)?;
    push_began(promoted, began, out)?;
    say(b".", out)
}

/// Where a pawn came from, if it moved, and where it stands.
fn push_way(home: Square, s: Square, out: &mut Vec<u8>) -> Result<(), AllocError>
    ensures { IfOk result (λ _. out.new.items ≡ out.old.items ++ way_words home s) }
{
    if home.index() != s.index() {
        push_square(home, out)?;
        say(b"-", out)?;
    }
    push_square(s, out)
}

/// The square on which the side's pawn of a file begins.
fn pawn_home(side: Colour, file: u8) -> Square
    requires { file < 8 }
    ensures { result ≡ pawn_home side file }
{
    match side {
        Colour::White => Square::known(8 + file),
        Colour::Black => Square::known(48 + file),
    }
}

/// After a comma, where a pawn came from, and with how many captures.
fn push_moved_pawn(home: Square, s: Square, cost: u8, out: &mut Vec<u8>) -> Result<(), AllocError>
    ensures { IfOk result (λ _. out.new.items ≡ out.old.items ++ (codes ", " ++ way_words home s ++ codes " " ++ decimal cost)) }
{
    say(b", ", out)?;
    push_way(home, s, out)?;
    say(b" ", out)?;
    push_number(cost as usize, out)
}

/// The same, if he captured.
fn push_pawn(home: Square, s: Square, cost: u8, out: &mut Vec<u8>) -> Result<(), AllocError>
    ensures { IfOk result (λ _. out.new.items ≡ out.old.items ++ pawn_words home s cost) }
{
    if cost == 0 {
        Ok(())
    } else {
        push_moved_pawn(home, s, cost, out)
    }
}

/// The ways of the side's pawns from these files, of those who captured.
fn list_ways(
    query: &Query,
    side: Colour,
    files: &[u8],
    costs: &Costs,
    list: &mut Vec<u8>,
) -> Result<(), AllocError>
    requires few { length (pawn_squares side query.now.board) ≤ 8 }
    requires files { IsInjection 8 (length (pawn_squares side query.now.board)) files.now }
    requires costs { costs.now ≡ pawn_costs query.now.odds side query.now.board }
    ensures { IfOk result (λ _. list.new.items ≡ list.old.items ++ ways_words query.now side files.now) }
{
    let squares = pawn_squares(&query.board, side);
    for k in 0..squares.len() {
        let home = pawn_home(side, files[k]);
        let s = Square::known(squares[k]);
        push_pawn(home, s, costs.cost(k as u8, files[k]), list)?;
    }
    Ok(())
}

/// The same as a list of its own.
fn ways_of(alloc: Global, query: &Query, side: Colour, files: &[u8]) -> Result<Vec<u8>, AllocError>
    requires few { length (pawn_squares side query.now.board) ≤ 8 }
    requires files { IsInjection 8 (length (pawn_squares side query.now.board)) files.now }
    ensures { IfOk result (λ v. v.items ≡ ways_words query.now side files.now) }
{
    let mut list = Vec::new(alloc);
    let costs = costs(&query.board, side, query.odds).unwrap();
    list_ways(query, side, files, &costs, &mut list)?;
    Ok(list)
}

/// How many captures, one or more, the side's pawns made at least, and what is said behind that.
fn push_made(captures: u16, behind: &[u8], out: &mut Vec<u8>) -> Result<(), AllocError>
    ensures { IfOk result (λ _. out.new.items ≡ out.old.items ++ (codes "'s pawns have made at least " ++ counted captures (codes " capture") (codes " captures") ++ behind.now)) }
{
    say(b"'s pawns have made at least ", out)?;
    push_counted(captures as usize, b" capture", b" captures", out)?;
    say(behind, out)
}

/// The same, with a way to it: the ways of the pawns who captured, each after a comma.
fn push_few(captures: u16, ways: &[u8], out: &mut Vec<u8>) -> Result<(), AllocError>
    ensures { IfOk result (λ _. out.new.items ≡ out.old.items ++ (codes "'s pawns have made at least " ++ counted captures (codes " capture") (codes " captures") ++ codes ". A cheapest way:" ++ drop 1 ways.now ++ codes ". ")) }
{
    push_made(captures, b". A cheapest way:", out)?;
    say(rest_of(ways), out)?;
    say(b". ", out)
}

/// That the side's pawns can have come without a capture.
fn push_no_captures(out: &mut Vec<u8>) -> Result<(), AllocError>
    ensures { IfOk result (λ _. out.new.items ≡ out.old.items ++ no_captures) }
{
    say(b"'s pawns needn't have made any captures. ", out)
}

/// With how many captures the side's pawns came, if they can have come.
fn push_captures(
    alloc: Global,
    query: &Query,
    side: Colour,
    captures: u16,
    files: &[u8],
    out: &mut Vec<u8>,
) -> Result<(), AllocError>
    requires few { length (pawn_squares side query.now.board) ≤ 8 }
    requires files { IsInjection 8 (length (pawn_squares side query.now.board)) files.now }
    ensures { IfOk result (λ _. out.new.items ≡ out.old.items ++ (side_word side ++ captures_words query.now side captures files.now)) }
{
    say(side_word(side), out)?;
    if captures == 0 {
        push_no_captures(out)
    } else if captures < 64 {
        let ways = ways_of(alloc, query, side, files)?;
        push_few(captures, ways.as_slice(), out)
    } else {
        say(
            b"'s pawns can't have come to these squares from different files, however much they captured.",
            out,
        )
    }
}

/// How many captures the side's pawns made at least.
fn push_least(captures: u16, out: &mut Vec<u8>) -> Result<(), AllocError>
    ensures { IfOk result (λ _. out.new.items ≡ out.old.items ++ least_words captures) }
{
    if captures == 0 {
        push_no_captures(out)
    } else {
        push_made(captures, b". ", out)
    }
}

/// The same of a side that is named.
fn push_at_least(side: Colour, captures: u16, out: &mut Vec<u8>) -> Result<(), AllocError>
    ensures { IfOk result (λ _. out.new.items ≡ out.old.items ++ (side_word side ++ least_words captures)) }
{
    say(side_word(side), out)?;
    push_least(captures, out)
}

/// Whose officers were captured while the set stood: those of these homes.
fn push_gone(
    alloc: Global,
    query: &Query,
    side: Colour,
    set: SquareSet,
    out: &mut Vec<u8>,
) -> Result<(), AllocError>
    ensures { IfOk result (λ _. out.new.items ≡ out.old.items ++ gone_words query.now side set) }
{
    let list = gone_squares(alloc, query, side, set)?;
    push_around(
        b"Whoever began on",
        list.as_slice(),
        b" was captured. ",
        out,
    )
}

/// A number of men, in words if there are none.
fn push_men(n: u8, out: &mut Vec<u8>) -> Result<(), AllocError>
    ensures { IfOk result (λ _. out.new.items ≡ out.old.items ++ cond (n == 0) (codes "no men") (counted n (codes " man") (codes " men"))) }
{
    if n == 0 {
        say(b"no men", out)
    } else {
        push_counted(n as usize, b" man", b" men", out)
    }
}

/// How many men a side lacks.
fn push_missing(first: bool, side: Colour, missing: u8, out: &mut Vec<u8>) -> Result<(), AllocError>
    ensures { IfOk result (λ _. out.new.items ≡ out.old.items ++ missing_words first side missing) }
{
    push_at_time(first, side, b" lacks ", b" lacked ", out)?;
    push_men(missing, out)
}

/// The same, with those whom no pawn took.
fn push_lacks(
    alloc: Global,
    query: &Query,
    first: bool,
    side: Colour,
    set: SquareSet,
    missing: u8,
    out: &mut Vec<u8>,
) -> Result<(), AllocError>
    ensures { IfOk result (λ _. out.new.items ≡ out.old.items ++ lacks_words first query.now side set missing) }
{
    let list = safe_squares(alloc, query, side, set)?;
    push_missing(first, side, missing, out)?;
    push_around(
        b", but no pawn can have taken whoever began on",
        list.as_slice(),
        b"",
        out,
    )?;
    say(b".", out)
}

/// Whether the side has at most eight pawns, who can have come to their squares from different files.
fn can_come(query: &Query, side: Colour) -> bool
    ensures { result ≡ can_come query.now side }
{
    match costs(&query.board, side, query.odds) {
        Some(costs) => least(&costs).cost < 64,
        None => false,
    }
}

/// How many men a side lacks, if the enemy's pawns can have come at all.
fn push_missed(
    alloc: Global,
    query: &Query,
    first: bool,
    side: Colour,
    set: SquareSet,
    missing: u8,
    out: &mut Vec<u8>,
) -> Result<(), AllocError>
    ensures { IfOk result (λ _. out.new.items ≡ out.old.items ++ missed_words first query.now side set missing) }
{
    if can_come(query, side.other()) {
        push_lacks(alloc, query, first, side, set, missing, out)
    } else {
        Ok(())
    }
}

/// The words of what is said of pawns, which holds of a query.
#[tactic(auto, unfolding(crate::specs::Sentences::pawn_fact_words))]
pub(crate) fn push_pawn_fact(
    alloc: Global,
    query: &Query,
    fact: &PawnFact,
    out: &mut Vec<u8>,
) -> Result<(), AllocError>
    requires { PawnsSay fact.now query.now }
    ensures { IfOk result (λ _. out.new.items ≡ out.old.items ++ pawn_fact_words fact.now query.now) }
{
    match fact {
        PawnFact::Count {
            side,
            pawns,
            together,
            began,
            first,
        } => {
            let promoted = less(*together, *pawns);
            push_count(*first, *side, *pawns, promoted, *began, out)
        }
        PawnFact::Gone(side, set) => push_gone(alloc, query, *side, *set, out),
        PawnFact::Promoted {
            side,
            set: _,
            pawns,
            began,
            first,
        } => {
            let promoted = less(*began as u16 + 1, *pawns);
            push_count(*first, *side, *pawns, promoted, *began, out)
        }
        PawnFact::Way {
            side,
            captures,
            files,
        } => push_captures(alloc, query, *side, *captures, files.as_slice(), out),
        PawnFact::AtLeast {
            side,
            set: _,
            captures,
        } => push_at_least(*side, *captures, out),
        PawnFact::Lacks {
            side,
            set,
            missing,
            first,
        } => push_missed(alloc, query, *first, *side, *set, *missing, out),
    }
}
