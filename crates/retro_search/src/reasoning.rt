ghost use Rattle.std.specs.Prelude.{◌≡◌, ◌≤◌, ◌*◌, IfOk, IfSome, IsSome, None, Ok, false, suc, true};
ghost use Rattle.price_search.specs.FlatPrices.{FlatPricesSupport};
ghost use Rattle.sketch_body.specs.Bodies.{units_of};
ghost use Rattle.sketch_body.specs.Whole.{is_body};
ghost use Rattle.sketch_findings.specs.Plain.{HasPlainSketch};
ghost use Rattle.cert_text.specs.Tree.{rule, sketch};
ghost use Rattle.cert_text.specs.declared.reasons.Reason.TheVariants.{Balance};
ghost use Rattle.cert_text.specs.Seen.{tree_of};
ghost use Rattle.retro_search.specs.Kept.{StandsAlone};
ghost use Rattle.retro_search.specs.Runs.{IsSameButDesk, IsSeeking};

use crate::quests::SketchQuest;
use crate::refutations::Refutation;
use crate::runs::{Reasons, Run};
use board_base::{Memory, SquareSet};
use capture_prices::Prices;
use cert_text::{Body, Node, Reason};
use price_search::{PriceDesk, find_balance};
use query_base::Query;
use sketch_body::SketchBody;
use std::alloc::Global;

/// The most units of a sketch whose lines, two for each unit, fit among those of a certificate.
const MOST_UNITS: u32 = 249_999;

/// The refutation by this set and these prices.
fn balanced(set: SquareSet, prices: &Prices) -> Refutation
    ensures tree { tree_of result.node ≡ rule (Balance set prices.now) }
    ensures numbers { (result.lean ≡ 0) × (result.height ≡ 0) × (result.lines ≡ 2) }
{
    Refutation {
        node: Node {
            body: Body::Rule(Reason::Balance(set, *prices)),
        },
        lean: 0,
        height: 0,
        lines: 2,
    }
}

/// A refutation of one node by a set and prices that support the query, if some are found.
fn priced(query: &Query, desk: &mut PriceDesk) -> Option<Refutation>
    ensures alone { IfSome result (λ found. StandsAlone (tree_of found.node) query.now 0 2) }
    ensures numbers { IfSome result (λ found. (found.lean ≡ 0) × (found.height ≡ 0) × (found.lines ≡ 2)) }
    ensures flat { FlatPricesSupport query.now → IsSome result }
{
    match find_balance(query, desk) {
        Some((set, prices)) => Some(balanced(set, &prices)),
        None => None,
    }
}

/// The refutation by this sketch, if it doesn't fill too many lines.
fn sketched(body: SketchBody) -> Option<Refutation>
    requires { is_body body ≡ true }
    ensures tree { IfSome result (λ found. tree_of found.node ≡ sketch body) }
    ensures numbers { IfSome result (λ found. (found.lean ≡ 0) × (found.height ≡ 0) × (found.lines ≡ suc (2 * units_of body))) }
    ensures few { IfSome result (λ found. found.lines ≤ 500_000) }
    ensures all { units_of body ≤ 33 → IsSome result }
{
    let left = body.units_left(MOST_UNITS)?;
    Some(Refutation {
        node: Node {
            body: Body::Sketch(body),
        },
        lean: 0,
        height: 0,
        lines: 1 + 2 * (MOST_UNITS - left),
    })
}

/// A refutation of one node by a sketch that supports the query, if one is sought and found.
fn by_sketch(
    alloc: Global,
    query: &Query,
    quest: &mut SketchQuest,
) -> Result<Option<Refutation>, Memory>
    ensures alone { IfOk result (λ r. IfSome r (λ found. StandsAlone (tree_of found.node) query.now 0 found.lines)) }
    ensures numbers { IfOk result (λ r. IfSome r (λ found. (found.lean ≡ 0) × (found.height ≡ 0))) }
    ensures plain { 1 ≤ quest.old.left → IfOk result (λ r. HasPlainSketch query.now → IsSome r) }
{
    match quest.find(alloc, query)? {
        Some(body) => Ok(sketched(body)),
        None => Ok(None),
    }
}

/// A refutation of one node by prices, or by a sketch if trees are kept.
fn by_either(alloc: Global, query: &Query, run: &mut Run) -> Result<Option<Refutation>, Memory>
    ensures alone { IfOk result (λ r. IfSome r (λ found. StandsAlone (tree_of found.node) query.now 0 found.lines)) }
    ensures numbers { IfOk result (λ r. IfSome r (λ found. (found.lean ≡ 0) × (found.height ≡ 0))) }
    ensures short { run.old.memo.on ≡ false → IfOk result (λ r. IfSome r (λ found. found.lines ≡ 2)) }
    ensures flat { FlatPricesSupport query.now → IfOk result IsSome }
    ensures sketched { IsSeeking run.old → HasPlainSketch query.now → IfOk result IsSome }
    ensures same { IsSameButDesk run.old run.new }
{
    if let Some(found) = priced(query, &mut run.desk) {
        return Ok(Some(found));
    }
    if run.memo.on {
        by_sketch(alloc, query, &mut run.quest)
    } else {
        Ok(None)
    }
}

/// The same, but none where rule lines alone refute.
pub(crate) fn by_reason(
    alloc: Global,
    query: &Query,
    run: &mut Run,
) -> Result<Option<Refutation>, Memory>
    ensures alone { IfOk result (λ r. IfSome r (λ found. StandsAlone (tree_of found.node) query.now 0 found.lines)) }
    ensures numbers { IfOk result (λ r. IfSome r (λ found. (found.lean ≡ 0) × (found.height ≡ 0))) }
    ensures short { run.old.memo.on ≡ false → IfOk result (λ r. IfSome r (λ found. found.lines ≡ 2)) }
    ensures lines { run.old.reasons ≡ Reasons.RuleLines → (result ≡ Ok None) × (run.new ≡ run.old) }
    ensures flat { run.old.reasons ≡ Reasons.All → FlatPricesSupport query.now → IfOk result IsSome }
    ensures sketched { run.old.reasons ≡ Reasons.All → IsSeeking run.old → HasPlainSketch query.now → IfOk result IsSome }
    ensures same { IsSameButDesk run.old run.new }
{
    match run.reasons {
        Reasons::RuleLines => Ok(None),
        Reasons::All => by_either(alloc, query, run),
    }
}
