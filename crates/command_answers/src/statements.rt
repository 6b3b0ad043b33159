ghost use Rattle.std.specs.Prelude.{◌≡◌, ◌+◌, ◌≤◌, ◌<◌, ◌^◌, IfErr, IfOk, IsTrue, None, length};
ghost use Rattle.cert_text.specs.ClaimLines.{promotes_well};
ghost use Rattle.line_claims.specs.Lines.{HasLine};
ghost use Rattle.question_text.specs.Questions.{AsksAlone};
ghost use Rattle.command_answers.specs.Limits.{most_bytes};
ghost use Rattle.command_answers.specs.Statements.{IsNoLineStatement, IsNoStatement, IsNoneBehind, States, StatesLine};

use cert_text::{one_text_of_a_claim, read_claim};
use line_claims::{LineClaim, read_line_claim};
use query_base::{Claim, Query};
use question_text::{InputFault, Position, read_lone_question, split_first_line};

/// A claim, and the query that it is about.
#[derive(Clone, Copy)]
pub struct Statement {
    pub claim: Claim,
    pub query: Query,
    pub ghost plain: { query.barred ≡ None },
}

/// A claim of several steps, and the query that it is about.
#[derive(Drop)]
pub struct LineStatement {
    pub claim: LineClaim,
    pub query: Query,
    pub ghost plain: { query.barred ≡ None },
}

/// The query of the lines behind a claim. `BadLine`, counted from the claim on, and `BadFen` come as from `read_lone_question`.
fn read_behind(rest: &[u8]) -> Result<Position, InputFault>
    requires { length rest.now ≤ most_bytes }
    ensures asked { IfOk result (λ position. AsksAlone rest.now position.query) }
    ensures none { IfErr result (IsNoneBehind rest.now) }
{
    match read_lone_question(rest) {
        Ok(position) => Ok(position),
        Err(InputFault::BadLine { line }) => Err(InputFault::BadLine { line: line + 1 }),
        Err(InputFault::BadFen(fault)) => Err(InputFault::BadFen(fault)),
    }
}

/// The claim of the input's first line, and the query of the lines behind it, of which there are no more than the query's. `BadLine`
/// comes if the first line is no claim, and `BadLine`, counted from the claim on, and `BadFen` as from `read_lone_question` of what
/// follows it.
pub fn read_statement(input: &[u8]) -> Result<Statement, InputFault>
    requires { length input.now ≤ most_bytes }
    ensures states { IfOk result (λ s. States input.now s.claim s.query) }
    ensures promotion { IfOk result (λ s. IsTrue (promotes_well s.claim)) }
    ensures no_statement { IfErr result (IsNoStatement input.now) }
{
    one_text_of_a_claim();
    let (first, rest) = split_first_line(input);
    let Some(claim) = read_claim(first) else {
        return Err(InputFault::BadLine { line: 1 });
    };
    match read_behind(rest) {
        Ok(position) => Ok(Statement {
            claim,
            query: position.query,
        }),
        Err(why) => Err(why),
    }
}

/// The claim of several steps of the input's first line, and the query of the lines behind it. `BadLine` and `BadFen` come as from
/// `read_statement`.
pub fn read_line_statement(input: &[u8]) -> Result<LineStatement, InputFault>
    requires { length input.now ≤ most_bytes }
    ensures states { IfOk result (λ s. StatesLine input.now s.claim s.query) }
    ensures lined { IfOk result (λ s. HasLine s.claim) }
    ensures no_statement { IfErr result (IsNoLineStatement input.now) }
{
    let (first, rest) = split_first_line(input);
    let Some(claim) = read_line_claim(first) else {
        return Err(InputFault::BadLine { line: 1 });
    };
    match read_behind(rest) {
        Ok(position) => Ok(LineStatement {
            claim,
            query: position.query,
        }),
        Err(why) => Err(why),
    }
}
