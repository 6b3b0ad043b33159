//! A retraction in words.

ghost use Rattle.std.specs.Prelude.{◌≡◌, ◌++◌, IfOk, None};
ghost use Rattle.castle_history.specs.TakenBack.{castling_back};
ghost use Rattle.proof_prose.specs.Labels.{between, captured_words, capturing, castles_words, passing_words, label_words, plain_words, sign_of};

use crate::heads::push_move;
use board_base::{Kind, Move, Unmove};
use castle_history::castle_of;
use prose_words::{kind_word, push_square, say};
use query_base::Query;
use std::alloc::AllocError;

/// What stands between the squares of a move, which captured somebody or not.
fn sign_of(captured: Option<Kind>) -> u8
    ensures { result ≡ sign_of captured }
{
    match captured {
        None => b'-',
        Some(_) => b'x',
    }
}

/// After a comma, who was captured.
fn push_capturing(kind: Kind, out: &mut Vec<u8>) -> Result<(), AllocError>
    ensures { IfOk result (λ _. out.new.items ≡ out.old.items ++ capturing kind) }
{
    say(b", capturing a ", out)?;
    say(kind_word(kind), out)
}

/// The same, if somebody was.
fn push_captured(captured: Option<Kind>, out: &mut Vec<u8>) -> Result<(), AllocError>
    ensures { IfOk result (λ _. out.new.items ≡ out.old.items ++ captured_words captured) }
{
    match captured {
        None => Ok(()),
        Some(kind) => push_capturing(kind, out),
    }
}

/// The squares of a move, with this sign between them.
fn push_between(m: &Move, sign: u8, out: &mut Vec<u8>) -> Result<(), AllocError>
    ensures { IfOk result (λ _. out.new.items ≡ out.old.items ++ between m.now sign) }
{
    push_square(m.from, out)?;
    out.push(sign)?;
    push_square(m.to, out)
}

/// A castling, by the squares of the king.
fn push_castles(m: &Move, out: &mut Vec<u8>) -> Result<(), AllocError>
    ensures { IfOk result (λ _. out.new.items ≡ out.old.items ++ castles_words m.now) }
{
    push_between(m, b'-', out)?;
    say(b" castles", out)
}

/// A capture en passant.
fn push_passing(m: &Move, out: &mut Vec<u8>) -> Result<(), AllocError>
    ensures { IfOk result (λ _. out.new.items ≡ out.old.items ++ passing_words m.now) }
{
    push_between(m, b'x', out)?;
    say(b" en passant", out)
}

/// A move that was neither a capture en passant nor a castling.
fn push_usual(query: &Query, u: &Unmove, out: &mut Vec<u8>) -> Result<(), AllocError>
    ensures { IfOk result (λ _. out.new.items ≡ out.old.items ++ plain_words None query.now u.now) }
{
    push_move(&query.board, &u.mv, sign_of(u.captured), out)?;
    push_captured(u.captured, out)
}

/// A move that was no capture en passant.
fn push_plain(query: &Query, u: &Unmove, out: &mut Vec<u8>) -> Result<(), AllocError>
    ensures { IfOk result (λ _. out.new.items ≡ out.old.items ++ plain_words (castling_back query.now.board u.now.mv) query.now u.now) }
{
    match castle_of(u, &query.board) {
        Some(_) => push_castles(&u.mv, out),
        None => push_usual(query, u, out),
    }
}

/// Adds the move that a retraction of this query takes back, in long notation, with what it captured.
pub fn push_label(query: &Query, u: &Unmove, out: &mut Vec<u8>) -> Result<(), AllocError>
    ensures { IfOk result (λ _. out.new.items ≡ out.old.items ++ label_words query.now u.now) }
{
    if u.ep {
        push_passing(&u.mv, out)
    } else {
        push_plain(query, u, out)
    }
}
