ghost use Rattle.std.specs.Prelude.{◌≡◌, ◌≤◌, ◌++◌, IfOk, IsTrue, None, OnErr, OnOk, codes, length};
ghost use Rattle.std.specs.Fmt.{decimal};
ghost use Rattle.std.specs.Io.KnownBytes.{Appends};
ghost use Rattle.std.specs.List.{Contains};
ghost use Rattle.board_base.specs.Texts.{can_capture, can_promote};
ghost use Rattle.cert_text.specs.Lines.{ended};
ghost use Rattle.retro_ports.specs.Causes.{HasCause};
ghost use Rattle.retro_ports.specs.Ends.{TakesPrefix};
ghost use Rattle.unmove_gen.specs.Listed.{unmoves};
ghost use Rattle.command_answers.specs.Limits.{most_bytes};
ghost use Rattle.command_answers.specs.Unmoves.{AnswersUnmoves, unmove_line, unmoves_text};

use crate::questions::write_fault;
use crate::statuses::Status;
use crate::texts::Text;
use crate::told::put;
use arrayvec::ArrayVec;
use board_base::{Unmove, write_unmove};
use fen_text::write_fen;
use itoa::Buffer;
use query_base::Query;
use question_text::read_lone_question;
use retro_ports::{Failed, Sink, write_all};
use std::alloc::{AllocError, Global};
use unmove_gen::{Unmoves, few_unmoves, pred, unmoves_have_texts};

/// The line of an unmove of the query.
fn unmove_line(query: &Query, u: &Unmove) -> ArrayVec<u8, 512>
    requires listed { Contains (unmoves query.now) u.now }
    requires promotion { IsTrue (can_promote u.now.mv.promo) }
    requires capture { IsTrue (can_capture u.now.mv.promo u.now.captured u.now.ep) }
    ensures { result.items ≡ unmove_line query.now u.now }
{
    let mut name: ArrayVec<u8, 8> = ArrayVec::new();
    write_unmove(u, &mut name);
    let mut fen: ArrayVec<u8, 128> = ArrayVec::new();
    write_fen(&pred(query, u), &mut fen);
    let mut line: ArrayVec<u8, 512> = ArrayVec::new();
    put(&mut line, name.as_slice());
    line.push(b' ');
    put(&mut line, fen.as_slice());
    line.push(b'\n');
    line
}

/// The line that tells how many unmoves there are.
fn total_line(total: u32) -> ArrayVec<u8, 512>
    ensures { result.items ≡ ended (codes "total " ++ decimal total) }
{
    let mut line: ArrayVec<u8, 512> = ArrayVec::new();
    let mut digits = Buffer::new();
    put(&mut line, b"total ");
    put(&mut line, digits.format(total).as_bytes());
    line.push(b'\n');
    line
}

/// Writes a line for each unmove of the query, and their number. `Failed` comes at the first write that fails, after a part of these
/// lines, from their front on, was taken. Takes no memory.
pub fn write_retractions<K: Sink>(sink: &mut K, query: &Query) -> Result<(), Failed>
    ensures ok { OnOk result (Appends (K.taken sink.old) (K.taken sink.new) (unmoves_text query.now)) }
    ensures failed { OnErr result (TakesPrefix (K.taken sink.old) (K.taken sink.new) (unmoves_text query.now)) }
    ensures cause { HasCause (K.faults sink.old) (K.faults sink.new) result }
{
    few_unmoves();
    unmoves_have_texts();
    let mut total: u32 = 0;
    let mut left = Unmoves::new(query);
    while let Some(u) = left.next() {
        write_all(sink, unmove_line(query, &u).as_slice())?;
        total += 1;
    }
    write_all(sink, total_line(total).as_slice())
}

/// The status and the text with which `unmoves` answers these bytes. It takes memory only if they aren't the lines of
/// a query.
pub fn answer_unmoves(alloc: Global, input: &[u8]) -> Result<(Status, Text), AllocError>
    requires { length input.now ≤ most_bytes }
    ensures { IfOk result (λ a. AnswersUnmoves input.now a.0 a.1) }
{
    match read_lone_question(input) {
        Ok(position) => Ok((Status::Done, Text::of_unmoves(position.query))),
        Err(why) => Ok((Status::BadInput, Text::of_lines(write_fault(alloc, why)?))),
    }
}
