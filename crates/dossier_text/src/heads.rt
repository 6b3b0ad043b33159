ghost use Rattle.std.specs.Prelude.{◌≡◌, MatchOption, None, Some};
ghost use Rattle.std.specs.Str.{bytes_eq};
ghost use Rattle.cert_text.specs.Lines.{cut, said};
ghost use Rattle.line_claims.specs.Lines.{line_claim_of};
ghost use Rattle.dossier_text.specs.Dossiers.{BeginsWithHead, HasNoHead, format_line};
ghost use Rattle.dossier_text.specs.HeadReading.{claim_first};

use cert_text::{first_line, take_query, without_end};
use line_claims::{LineClaim, read_line_claim};
use query_base::Query;

/// The head with which bytes begin: a claim of several steps about a query.
#[derive(Drop, Debug)]
pub struct DossierHead<'a> {
    pub claim: LineClaim,
    pub query: Query,
    /// What follows the head.
    pub rest: &'a [u8],
}

/// Whether the line, with its end, is the first of a dossier.
fn is_format(line: &[u8]) -> bool
    ensures { result ≡ bytes_eq line.now format_line }
{
    line == b"retro line 1\n".as_slice()
}

#[tactic(auto, unfolding(cert_text::specs::Lines::said))]
fn read_claim_line(line: &[u8]) -> Option<LineClaim>
    ensures { result ≡ said line_claim_of line.now }
{
    read_line_claim(without_end(line)?)
}

/// What the lines of a head behind the first say.
fn read_below(bytes: &[u8]) -> Option<DossierHead<'_>>
    ensures { MatchOption result (claim_first (cut bytes.now) ≡ None) (λ h. claim_first (cut bytes.now) ≡ Some (h.claim, h.query, cut h.rest.now)) }
{
    let Some((line, rest)) = first_line(bytes) else {
        return None;
    };
    let Some(claim) = read_claim_line(line) else {
        return None;
    };
    match take_query(rest) {
        Some(first) => Some(DossierHead {
            claim,
            query: first.query,
            rest: first.rest,
        }),
        None => None,
    }
}

/// Reads the head of a dossier, line by line: `retro line 1`; the claim's, as `read_line_claim` reads it; that of the odds, as
/// `read_odds` reads it, if there are any; that of the clock, as `read_clock` reads it, if one is demanded; `fen`, a space and
/// a FEN of four fields. What follows this line is left. None comes if and only if no front of the bytes is a head. It takes no
/// memory.
pub fn read_head(bytes: &[u8]) -> Option<DossierHead<'_>>
    ensures { MatchOption result (HasNoHead bytes.now) (λ h. BeginsWithHead bytes.now h.claim h.query h.rest.now) }
{
    let Some((line, rest)) = first_line(bytes) else {
        return None;
    };
    if !is_format(line) {
        return None;
    }
    read_below(rest)
}
