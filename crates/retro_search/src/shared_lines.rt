ghost use Rattle.std.specs.Prelude.{◌≡◌, [], IfOk};
ghost use Rattle.cert_text.specs.Seen.{tree_of};
ghost use Rattle.sketch_findings.specs.Proving.{Proves};
ghost use Rattle.retro_search.specs.SharedLines.{IsShared};

use crate::refutations::Refutation;
use crate::runs::Reasons;
use crate::unrefuted::Unrefuted;
use price_sharing::with_shared_lines;
use query_base::Query;
use std::alloc::Global;

/// What a search of the query by these reasons came to, with lines of prices in the tree that serve several siblings.
pub(crate) fn with_lines_shared(
    alloc: Global,
    query: &Query,
    reasons: Reasons,
    came: Result<Refutation, Unrefuted>,
) -> Result<Refutation, Unrefuted>
    requires { IfOk came (λ found. Proves (tree_of found.node) query.now []) }
    ensures shared { IsShared came query.now result }
    ensures lined { reasons ≡ Reasons.RuleLines → result ≡ came }
{
    if reasons == Reasons::RuleLines {
        return came;
    }
    let found = match came {
        Ok(found) => found,
        Err(why) => return Err(why),
    };
    match with_shared_lines(alloc, query, &found.node) {
        Ok(node) => Ok(Refutation {
            node,
            lean: found.lean,
            height: found.height,
            lines: found.lines,
        }),
        Err(_) => Err(Unrefuted::Memory),
    }
}
