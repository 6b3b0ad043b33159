ghost use Rattle.std.specs.Prelude.{◌≡◌, ◌↔◌, ◌&&◌, ◌<◌, IsTrue, None, suc};
ghost use Rattle.board_base.specs.Texts.{can_capture, can_promote};
ghost use Rattle.sketch_body.specs.Whole.{left_of};
ghost use Rattle.cert_text.specs.Tree.{count, units_each, units_in};
ghost use Rattle.cert_text.specs.Seen.{tree_of};
ghost use Rattle.cert_text.specs.SeenCert.{cert_of};
ghost use Rattle.cert_text.specs.Certificate.{HasText};
ghost use Rattle.cert_text.specs.Writable.{is_on_board, is_written, IsQuery, all_fit, fits, fits_depth, has_text, is_reason, is_rule};
ghost use Rattle.cert_text.specs.declared.node_lines.BodyLine.TheVariants.{Back, Expand};

use crate::arguments::{are_near, is_whole};
use crate::certificates::Cert;
use crate::nodes::{Body, Kids, Node};
use crate::query_lines::is_known;
use crate::reasons::Reason;
use board_base::{Kind, Move, Unmove};
use price_text::are_priced;
use query_base::{Claim, Query, RuleLine};

fn can_promote(promo: Option<Kind>) -> bool
    ensures { result ≡ can_promote promo }
{
    match promo {
        None => true,
        Some(kind) => kind != Kind::Pawn && kind != Kind::King,
    }
}

fn can_capture(promo: Option<Kind>, captured: Option<Kind>, ep: bool) -> bool
    ensures { result ≡ can_capture promo captured ep }
{
    if ep {
        promo.is_none() && captured == Some(Kind::Pawn)
    } else {
        captured != Some(Kind::King)
    }
}

/// Whether the unmove has a text.
fn has_text(u: &Unmove) -> bool
    ensures { result ≡ has_text u.now }
{
    // Both squares are on the board.
    u.mv.from.index();
    u.mv.to.index();
    can_promote(u.mv.promo) && can_capture(u.mv.promo, u.captured, u.ep)
}

fn is_back(steps: u8, depth: u8) -> bool
    ensures { result ≡ fits_depth depth (Back steps) }
{
    1 <= steps && steps <= depth
}

fn is_expand(count: usize, depth: u8) -> bool
    ensures { result ≡ fits_depth depth (Expand count) }
{
    (count == 0 || depth < 255) && count <= 999_999
}

fn is_rule(rule: &RuleLine) -> bool
    ensures { result ≡ is_rule rule.now }
{
    match rule {
        RuleLine::Frozen(set) => is_whole(*set),
        RuleLine::Caps(_, set, p) => is_whole(*set) && are_near(p),
        RuleLine::Promo(_, set) => is_whole(*set),
        _ => true,
    }
}

fn is_reason(reason: &Reason) -> bool
    ensures { result ≡ is_reason reason.now }
{
    match reason {
        Reason::Line(rule) => is_rule(rule),
        Reason::Balance(set, prices) => is_whole(*set) && are_priced(prices),
    }
}

/// Whether the grammar admits the node at this depth, with all that is below it.
#[cycle(formats)]
fn fits_node(node: &Node, depth: u8) -> bool
    ensures { result ≡ fits depth (tree_of node.now) }
{
    match &node.body {
        Body::Rule(reason) => is_reason(reason),
        Body::Back(steps) => is_back(*steps, depth),
        Body::Expand(kids) => is_expand(kids.len(), depth) && all_fit(kids, depth),
        Body::Sketch(body) => body.has_text(),
    }
}

/// Whether the grammar admits the children of a node at this depth.
#[cycle(formats)]
fn all_fit(kids: &Kids, depth: u8) -> bool
    requires { 0 < count kids.now → depth < 255 }
    ensures { result ≡ all_fit (suc depth) kids.now }
{
    for i in 0..kids.len() {
        if let Some(kid) = kids.get(i) {
            if !has_text(&kid.label) {
                return false;
            }
            if !fits_node(&kid.node, depth + 1) {
                return false;
            }
        }
    }
    true
}

/// How many of so many units are left behind those of the sketches in the node and below it. None comes if and only if they have more.
#[cycle(units)]
fn units_left(node: &Node, left: u32) -> Option<u32>
    ensures { result ≡ left_of left (units_in (tree_of node.now)) }
{
    match &node.body {
        Body::Rule(_) | Body::Back(_) => Some(left),
        Body::Expand(kids) => kids_left(kids, left),
        Body::Sketch(body) => body.units_left(left),
    }
}

/// How many are left behind those of the children.
#[cycle(units)]
fn kids_left(kids: &Kids, left: u32) -> Option<u32>
    ensures { result ≡ left_of left (units_each kids.now) }
{
    let mut rest = left;
    for i in 0..kids.len() {
        let kid = kids.get(i).unwrap();
        let Some(more) = units_left(&kid.node, rest) else {
            return None;
        };
        rest = more;
    }
    Some(rest)
}

/// The squares of a move are on the board.
fn is_on_board(m: &Move) -> bool
    ensures { result ≡ is_on_board m.now }
{
    m.from.index() < 64 && m.to.index() < 64
}

/// Whether the claim has a text.
fn is_written(claim: &Claim) -> bool
    ensures { result ≡ is_written claim.now }
{
    match claim {
        Claim::Illegal | Claim::Lost(_) => true,
        Claim::Last(m) => is_on_board(m) && can_promote(m.promo),
        Claim::Ep(m) => is_on_board(m) && m.promo.is_none(),
    }
}

/// Whether no move is barred.
fn is_plain(query: &Query) -> bool
    ensures plain { IsTrue result ↔ (query.now.barred ≡ None) }
    ensures known { IsQuery query.now }
{
    is_known(query);
    query.barred.is_none()
}

/// Whether some text stands for the certificate: the claim is one that `read_claim` reads, no move is barred in the query, each
/// label is one that `read_unmove` reads of some text, each `back` leads to an ancestor, no node has more than 999,999
/// children or, at depth 255, any, each sketch has texts, and all sketches together have at most 262,144 units. It takes no memory.
pub fn fits_format(cert: &Cert) -> bool
    ensures { IsTrue result ↔ HasText (cert_of cert.now) }
{
    if !is_written(&cert.claim) {
        return false;
    }
    if !is_plain(&cert.query) {
        return false;
    }
    if !fits_node(&cert.root, 0) {
        return false;
    }
    units_left(&cert.root, 262_144).is_some()
}
