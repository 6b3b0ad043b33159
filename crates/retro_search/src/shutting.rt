ghost use Rattle.std.specs.Prelude.{◌≡◌, ◌<◌, IfSome, MatchOption, length, reverse};
ghost use Rattle.query_base.specs.Ancestors.{IsCovered};
ghost use Rattle.cert_text.specs.Tree.{back, rule};
ghost use Rattle.cert_text.specs.declared.reasons.Reason.TheVariants.{Line};
ghost use Rattle.retro_search.specs.RuleLines.{IsByRuleLines};
ghost use Rattle.cert_text.specs.Seen.{tree_of};
ghost use Rattle.retro_search.specs.Refutable.{IsShut};
ghost use Rattle.retro_search.specs.Eager.{IsEager};
ghost use Rattle.retro_search.specs.Kept.{IsRefutation};

use crate::refutations::Refutation;
use cert_text::{Body, Node, Reason};
use query_base::{Query, RuleLine, steps_back};
use static_rules::close;

/// The refutation by a rule line that supports the query.
fn by_rule(line: RuleLine) -> Refutation
    ensures tree { tree_of result.node ≡ rule (Line line) }
    ensures numbers { (result.lean ≡ 0) × (result.height ≡ 0) × (result.lines ≡ 1) }
{
    Refutation {
        node: Node {
            body: Body::Rule(Reason::Line(line)),
        },
        lean: 0,
        height: 0,
        lines: 1,
    }
}

/// The refutation by an ancestor that covers the query, so many steps above.
fn by_ancestor(steps: u8) -> Refutation
    ensures tree { tree_of result.node ≡ back steps }
    ensures numbers { (result.lean ≡ steps) × (result.height ≡ 0) × (result.lines ≡ 1) }
{
    Refutation {
        node: Node {
            body: Body::Back(steps),
        },
        lean: steps,
        height: 0,
        lines: 1,
    }
}

/// A tree of one node that refutes the query below these fewer than 256 ancestors, the parent last: a rule line that supports it, or a
/// step back to an ancestor that covers it. None if and only if neither is there.
pub(crate) fn shut(query: &Query, ancestors: &[Query]) -> Option<Refutation>
    requires { length ancestors.now < 256 }
    ensures shut { MatchOption result (IsShut query.now (reverse ancestors.now) → ⊥) (λ found. IsRefutation found query.now 0 (reverse ancestors.now)) }
    ensures one { IfSome result (λ found. found.lines ≡ 1) }
    ensures lined { IfSome result (λ found. IsByRuleLines (tree_of found.node)) }
    ensures lone { IfSome result (λ found. (IsCovered query.now (reverse ancestors.now) → ⊥) → (found.lean ≡ 0) × IsEager (tree_of found.node) query.now) }
{
    if let Some(rule) = close(query) {
        return Some(by_rule(rule));
    }
    match steps_back(query, ancestors) {
        Some(steps) => Some(by_ancestor(steps)),
        None => None,
    }
}
