ghost use Rattle.std.specs.Prelude.{◌<◌, ◌↔◌, IsTrue, MatchOption, length, reverse};
ghost use Rattle.query_base.specs.Ancestors.{CoversAt, GoesBack, IsCovered};

use crate::queries::Query;
use crate::targets::covers;

/// Whether the ancestor so many steps above covers the query. The parent, one step above, comes last.
pub fn is_covered(ancestors: &[Query], steps: u8, query: &Query) -> bool
    ensures { IsTrue result ↔ CoversAt query.now (reverse ancestors.now) steps }
{
    let steps = usize::from(steps);
    if steps == 0 || ancestors.len() < steps {
        return false;
    }
    covers(&ancestors[ancestors.len() - steps], query)
}

/// How many steps above the nearest ancestor stands that covers the query; None if none does. The parent comes last.
pub fn steps_back(query: &Query, ancestors: &[Query]) -> Option<u8>
    requires { length ancestors.now < 256 }
    ensures { MatchOption result (IsCovered query.now (reverse ancestors.now) → ⊥) (λ k. GoesBack query.now (reverse ancestors.now) k) }
{
    for i in 0..ancestors.len() {
        let steps = (i + 1) as u8;
        if is_covered(ancestors, steps, query) {
            return Some(steps);
        }
    }
    None
}
