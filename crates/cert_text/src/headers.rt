ghost use Rattle.std.specs.Prelude.{◌≡◌, ◌≤◌, IfErr, IfOk, length};
ghost use Rattle.cert_text.specs.Lines.{cut, said};
ghost use Rattle.cert_text.specs.Texts.{IsBadAt};
ghost use Rattle.cert_text.specs.NodeLines.{root_body};
ghost use Rattle.cert_text.specs.Certificate.{AreLinesOf};
ghost use Rattle.cert_text.specs.Reading.{HasHeader};

use crate::heads::{Head, read_head_line};
use crate::lines::{first_line, without_end};
use crate::node_lines::{BodyLine, read_root};
use query_base::{Claim, Query};

/// Reads the line of the root, with its end. None comes if and only if the line is no root's.
#[tactic(auto, unfolding(crate::specs::Lines::said))]
pub fn read_root_line(line: &[u8]) -> Option<BodyLine>
    ensures { result ≡ said root_body line.now }
{
    read_root(without_end(line)?)
}

/// What the head of a certificate and the line of its root say, what follows them, and the number of the line there.
#[derive(Drop)]
pub(crate) struct Header<'a> {
    pub(crate) claim: Claim,
    pub(crate) query: Query,
    pub(crate) body: BodyLine,
    pub(crate) rest: &'a [u8],
    pub(crate) line: u32,
}

/// What the head and the line of the root say, or the number of the first of these lines that is bad.
pub(crate) fn read_header(bytes: &[u8]) -> Result<Header<'_>, u32>
    requires { length bytes.now ≤ 67_108_864 }
    ensures ok { IfOk result (λ h. HasHeader (cut bytes.now) h.claim h.query h.body h.line (cut h.rest.now)) }
    ensures bad { IfErr result (λ n. IsBadAt AreLinesOf (cut bytes.now) n) }
{
    let mut due = Head::FormatDue;
    let mut rest = bytes;
    let mut number = 1;
    'lines: loop {
        let Some((line, after)) = first_line(rest) else {
            return Err(number);
        };
        if let Head::RootDue(claim, query) = due {
            return match read_root_line(line) {
                Some(body) => Ok(Header {
                    claim,
                    query,
                    body,
                    rest: after,
                    line: number + 1,
                }),
                None => Err(number),
            };
        }
        let Some(next) = read_head_line(&due, line) else {
            return Err(number);
        };
        due = next;
        rest = after;
        number += 1;
    }
}
