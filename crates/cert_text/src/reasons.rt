ghost use Rattle.std.specs.Prelude.{◌≡◌};
ghost use Rattle.cert_text.specs.NodeLines.{balance_of, reason_of};

use crate::node_lines::read_rule;
use board_base::SquareSet;
use capture_prices::Prices;
use fen_text::{read_set, split_part};
use price_text::read_prices;
use query_base::RuleLine;

/// Why no game reaches a query, as one line says it.
#[derive(Clone, Copy, PartialEq, Eq, Debug)]
pub enum Reason {
    /// The name of a rule, and what stands behind it: the rule line supports the query.
    Line(RuleLine),
    /// `balance`, a set, prices and gates: they support the query.
    Balance(SquareSet, Prices),
}

fn read_balance(text: &[u8]) -> Option<Reason>
    ensures { result ≡ balance_of text.now }
{
    let (set, prices) = split_part(text, b' ');
    let Some(prices) = prices else {
        return None;
    };
    let Some(set) = read_set(set) else {
        return None;
    };
    match read_prices(prices) {
        Some(prices) => Some(Reason::Balance(set, prices)),
        None => None,
    }
}

// It is long, and most lines name no rule.
#[inline(never)]
pub(crate) fn read_reason(name: &[u8]) -> Option<Reason>
    ensures { result ≡ reason_of name.now }
{
    if name.starts_with(b"balance ") {
        return read_balance(&name[8..]);
    }
    match read_rule(name) {
        Some(rule) => Some(Reason::Line(rule)),
        None => None,
    }
}
