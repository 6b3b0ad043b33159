//! Sentences about the men whom a side lacks.

ghost use Rattle.std.specs.Prelude.{◌≡◌, ◌++◌, [], IfOk, cond};
ghost use Rattle.ledger_prose.specs.Words.{bishop_words, bishops_words, knights_words, lacks_bishops, lacks_few, lacks_majors, lacks_minors, lacks_pieces, lacks_words, losses_words, lost_words, men_words, number_lost, pawns_words, queens_words, rooks_words, short_words, side_lacks, some_words};

use crate::names::{Joint, push_sign};
use crate::numbers::push_count;
use board_base::Colour;
use ledger_lines::{Line, Losses, lacking};
use prose_words::{say, side_word};
use query_base::Query;
use std::alloc::AllocError;

/// Adds so many men.
fn push_men(n: u8, out: &mut Vec<u8>) -> Result<(), AllocError>
    ensures { IfOk result (λ _. out.new.items ≡ out.old.items ++ men_words n) }
{
    if n == 1 {
        say(b"one man", out)
    } else {
        push_count(n, out)?;
        say(b" men", out)
    }
}

/// Adds so many men of a kind, of which one and two have words of their own.
fn push_some(
    n: u8,
    one: &[u8],
    two: &[u8],
    kind: &[u8],
    out: &mut Vec<u8>,
) -> Result<(), AllocError>
    ensures { IfOk result (λ _. out.new.items ≡ out.old.items ++ some_words n one.now two.now kind.now) }
{
    if n == 1 {
        say(one, out)
    } else if n == 2 {
        say(two, out)
    } else {
        push_count(n, out)?;
        say(kind, out)
    }
}

/// Some bishops are lacking.
fn lacks_bishops(x: &Losses) -> bool
    ensures { result ≡ lacks_bishops x.now }
{
    x.dark_bishops > 0 || x.light_bishops > 0
}

/// Bishops or those behind them are lacking.
fn lacks_minors(x: &Losses) -> bool
    ensures { result ≡ lacks_minors x.now }
{
    lacks_bishops(x) || x.knights > 0 || x.pawns > 0
}

/// Those behind the bishops are lacking.
fn lacks_few(x: &Losses) -> bool
    ensures { result ≡ lacks_few x.now }
{
    x.knights > 0 || x.pawns > 0
}

/// Those before the bishops are lacking.
fn lacks_majors(x: &Losses) -> bool
    ensures { result ≡ lacks_majors x.now }
{
    x.queens > 0 || x.rooks > 0
}

/// Those before the knights are lacking.
fn lacks_pieces(x: &Losses) -> bool
    ensures { result ≡ lacks_pieces x.now }
{
    lacks_majors(x) || lacks_bishops(x)
}

/// Adds the queens who are lacking.
fn push_queens(x: &Losses, out: &mut Vec<u8>) -> Result<(), AllocError>
    ensures { IfOk result (λ _. out.new.items ≡ out.old.items ++ queens_words x.now) }
{
    if x.queens == 0 {
        return Ok(());
    }
    push_some(x.queens, b"the queen", b"two queens", b" queens", out)
}

/// Adds the rooks who are lacking.
fn push_rooks(x: &Losses, out: &mut Vec<u8>) -> Result<(), AllocError>
    ensures { IfOk result (λ _. out.new.items ≡ out.old.items ++ rooks_words x.now) }
{
    if x.rooks == 0 {
        return Ok(());
    }
    push_sign(Joint::And, x.queens > 0, lacks_minors(x), out)?;
    push_some(x.rooks, b"a rook", b"both rooks", b" rooks", out)
}

/// The bishops of dark squares, of light ones or both.
fn bishop_words(dark: bool, light: bool) -> &'static [u8]
    ensures { result.now ≡ bishop_words dark light }
{
    if dark && light {
        b"both bishops"
    } else if dark {
        b"the dark bishop"
    } else {
        b"the light bishop"
    }
}

/// Adds the bishops who are lacking.
fn push_bishops(x: &Losses, out: &mut Vec<u8>) -> Result<(), AllocError>
    ensures { IfOk result (λ _. out.new.items ≡ out.old.items ++ bishops_words x.now) }
{
    if !lacks_bishops(x) {
        return Ok(());
    }
    push_sign(Joint::And, lacks_majors(x), lacks_few(x), out)?;
    say(bishop_words(x.dark_bishops > 0, x.light_bishops > 0), out)
}

/// Adds the knights who are lacking.
fn push_knights(x: &Losses, out: &mut Vec<u8>) -> Result<(), AllocError>
    ensures { IfOk result (λ _. out.new.items ≡ out.old.items ++ knights_words x.now) }
{
    if x.knights == 0 {
        return Ok(());
    }
    push_sign(Joint::And, lacks_pieces(x), x.pawns > 0, out)?;
    push_some(x.knights, b"a knight", b"both knights", b" knights", out)
}

/// Adds the pawns who are lacking.
fn push_pawns(x: &Losses, out: &mut Vec<u8>) -> Result<(), AllocError>
    ensures { IfOk result (λ _. out.new.items ≡ out.old.items ++ pawns_words x.now) }
{
    if x.pawns == 0 {
        return Ok(());
    }
    push_sign(Joint::And, lacks_pieces(x) || x.knights > 0, false, out)?;
    push_some(x.pawns, b"a pawn", b"two pawns", b" pawns", out)
}

/// Adds all who are lacking, kind by kind.
fn push_losses(x: &Losses, out: &mut Vec<u8>) -> Result<(), AllocError>
    ensures { IfOk result (λ _. out.new.items ≡ out.old.items ++ losses_words x.now) }
{
    push_queens(x, out)?;
    push_rooks(x, out)?;
    push_bishops(x, out)?;
    push_knights(x, out)?;
    push_pawns(x, out)
}

/// How many they are.
fn number_lost(x: &Losses) -> u16
    ensures { result ≡ number_lost x.now }
{
    x.queens as u16
        + x.rooks as u16
        + x.dark_bishops as u16
        + x.light_bishops as u16
        + x.knights as u16
        + x.pawns as u16
}

/// Adds that the side has fewer men less than that in all.
fn push_short(n: u8, out: &mut Vec<u8>) -> Result<(), AllocError>
    ensures { IfOk result (λ _. out.new.items ≡ out.old.items ++ short_words n) }
{
    if n == 0 {
        say(b", but is not a man short", out)
    } else {
        say(b", but is only ", out)?;
        push_men(n, out)?;
        say(b" short", out)
    }
}

/// Adds the same, if it is so.
fn push_short_if(short: bool, n: u8, out: &mut Vec<u8>) -> Result<(), AllocError>
    ensures { IfOk result (λ _. out.new.items ≡ out.old.items ++ cond short (short_words n) []) }
{
    if short { push_short(n, out) } else { Ok(()) }
}

/// Adds whom a side lacks who lacks so many men in all.
fn push_lost(n: u8, x: &Losses, out: &mut Vec<u8>) -> Result<(), AllocError>
    ensures { IfOk result (λ _. out.new.items ≡ out.old.items ++ lost_words n x.now) }
{
    let lost = number_lost(x);
    if lost > 8 {
        push_men(n, out)
    } else {
        push_losses(x, out)?;
        push_short_if(lost != n as u16, n, out)
    }
}

/// Adds whom this side lacks.
fn push_side_lacks(side: Colour, n: u8, x: &Losses, out: &mut Vec<u8>) -> Result<(), AllocError>
    ensures { IfOk result (λ _. out.new.items ≡ out.old.items ++ side_lacks side n x.now) }
{
    say(side_word(side), out)?;
    say(b" lacks ", out)?;
    push_lost(n, x, out)
}

/// Adds whom a side lacks, if the line says so.
pub(crate) fn push_lacks(query: &Query, line: &Line, out: &mut Vec<u8>) -> Result<(), AllocError>
    ensures { IfOk result (λ _. out.new.items ≡ out.old.items ++ lacks_words query.now line.now) }
{
    match *line {
        Line::Lacks(side, x) => push_side_lacks(side, lacking(query, side), &x, out),
        _ => Ok(()),
    }
}
