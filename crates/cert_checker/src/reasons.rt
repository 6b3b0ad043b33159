ghost use Rattle.std.specs.Prelude.{◌↔◌, IsTrue};
ghost use Rattle.cert_checker.specs.Reasons.{ReasonSupports};

use balance_rule::balances;
use cert_text::Reason;
use query_base::Query;
use static_rules::supports;

/// Whether the reason supports the query, so that no game reaches it.
pub fn reason_supports(query: &Query, reason: &Reason) -> bool
    ensures { IsTrue result ↔ ReasonSupports query.now reason.now }
{
    match reason {
        Reason::Line(rule) => supports(query, rule),
        Reason::Balance(set, prices) => balances(query, *set, prices),
    }
}
