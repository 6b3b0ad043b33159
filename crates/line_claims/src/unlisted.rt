ghost use Rattle.std.specs.Prelude.{◌≤◌, MatchOption, length};
ghost use Rattle.line_claims.specs.Listing.{AreListed, HasParts, IsFirstUnlisted, LacksStep};

use crate::claims::LineClaim;
use board_base::Unmove;
use query_base::Query;
use unmove_gen::{is_unmove, pred};

/// The first step that isn't listed, counted from 1.
fn first_unlisted(query: &Query, steps: &[Unmove]) -> Option<u8>
    requires { length steps.now ≤ 16 }
    ensures { MatchOption result (AreListed query.now steps.now) (λ number. IsFirstUnlisted query.now steps.now number) }
{
    let mut left = *query;
    let mut number: u8 = 1;
    for step in steps {
        if !is_unmove(&left, step) {
            return Some(number);
        }
        left = pred(&left, step);
        number += 1;
    }
    None
}

/// The first step of the claim that isn't among the unmoves of what the steps before it leave, counted from 1. None comes if and only if
/// each step is, and so the parts due are defined; they are for every claim of two castlings.
pub fn unlisted_step(query: &Query, claim: &LineClaim) -> Option<u8>
    ensures { MatchOption result (HasParts claim.now query.now) (λ number. LacksStep claim.now query.now number) }
{
    match claim {
        LineClaim::NotBoth(_, _) => None,
        LineClaim::Line(steps) => first_unlisted(query, steps.items()),
    }
}
