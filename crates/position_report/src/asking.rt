//! How to ask for a report of the position without what is given.

ghost use Rattle.std.specs.Prelude.{◌≡◌, ◌++◌, IfOk, None};
ghost use Rattle.position_report.specs.Asking.{ask_text, last_ask, last_left_out, plain_ask};

use crate::checking::{push_call, push_position};
use crate::sayings::has_last;
use claim_search::Limits;
use diagram_study::{Finding, without_demands};
use prose_words::say;
use query_base::Query;
use std::alloc::{AllocError, Global};

/// Adds a call of `report` for the position, behind these words.
fn push_ask(
    words: &[u8],
    query: &Query,
    limits: Limits,
    out: &mut Vec<u8>,
) -> Result<(), AllocError>
    requires { query.now.barred ≡ None }
    ensures { IfOk result (λ _. out.new.items ≡ out.old.items ++ ask_text words.now query.now limits.depth limits.nodes) }
{
    push_call(words, limits, b" << END\n", out)?;
    push_position(query, out)?;
    say(b"END\n", out)
}

/// The query without the last move that is demanded.
fn last_left_out(query: &Query) -> Query
    ensures { result ≡ last_left_out query.now }
{
    let mut other = *query;
    other.only = None;
    other
}

/// Adds that a last move is given, and how to ask for a report without it, if one is.
fn push_last_ask(query: &Query, limits: Limits, out: &mut Vec<u8>) -> Result<(), AllocError>
    requires { query.now.barred ≡ None }
    ensures { IfOk result (λ _. out.new.items ≡ out.old.items ++ last_ask query.now limits.depth limits.nodes) }
{
    if has_last(query) {
        push_ask(
            b"The last move is given, and nothing is proved of it here. For a report without it:\nretractor report ",
            &last_left_out(query),
            limits,
            out,
        )
    } else {
        Ok(())
    }
}

/// That a last move is given, and how to ask for a report without it, if one is.
pub(crate) fn last_part(alloc: Global, query: &Query, limits: Limits) -> Result<Vec<u8>, AllocError>
    requires { query.now.barred ≡ None }
    ensures { IfOk result (λ part. part.items ≡ last_ask query.now limits.depth limits.nodes) }
{
    let mut part = Vec::new(alloc);
    push_last_ask(query, limits, &mut part)?;
    Ok(part)
}

/// Adds how to ask for a report without the demands, by what was found of that, if there are any.
fn push_plain_ask(
    query: &Query,
    limits: Limits,
    plain: Option<Finding>,
    out: &mut Vec<u8>,
) -> Result<(), AllocError>
    ensures { IfOk result (λ _. out.new.items ≡ out.old.items ++ plain_ask query.now limits.depth limits.nodes plain) }
{
    match plain {
        None => Ok(()),
        Some(_) => push_ask(
            b"For a report without what is given:\nretractor report ",
            &without_demands(query),
            limits,
            out,
        ),
    }
}

/// How to ask for a report without the demands, if there are any.
pub(crate) fn plain_part(
    alloc: Global,
    query: &Query,
    limits: Limits,
    plain: Option<Finding>,
) -> Result<Vec<u8>, AllocError>
    ensures { IfOk result (λ part. part.items ≡ plain_ask query.now limits.depth limits.nodes plain) }
{
    let mut part = Vec::new(alloc);
    push_plain_ask(query, limits, plain, &mut part)?;
    Ok(part)
}
