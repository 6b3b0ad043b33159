//! The texts of certificates: what is read of lines and of whole texts, and which trees have one.

use board_base::{Colour, Kind, Memory, Move, Square, Unmove, read_move, read_unmove};
use cert_text::{
    Body, BodyLine, Cert, CertFault, Kid, Kids, Node, Reason, fits_format, read_cert, read_line,
};
use query_base::{Claim, RuleLine};
use std::alloc::Global;

fn read(alloc: Global, bytes: &[u8]) -> Result<Cert, CertFault> {
    if bytes.len() > 67_108_864 {
        return Err(CertFault::Memory);
    }
    read_cert(alloc, bytes)
}

fn kids_of(node: &Node) -> Option<&Kids> {
    match &node.body {
        Body::Expand(kids) => Some(kids),
        _ => None,
    }
}

fn count_of(node: &Node) -> Option<usize> {
    Some(kids_of(node)?.len())
}

fn label_at(node: &Node, place: usize) -> Option<Unmove> {
    Some(kids_of(node)?.get(place)?.label)
}

fn count_at(node: &Node, place: usize) -> Option<usize> {
    count_of(&kids_of(node)?.get(place)?.node)
}

/// The claim, the double step that is demanded, and whether there is a text.
type Head = (Claim, Option<Move>, bool);

/// How many children the root has, the labels of the first two, and how many children the first has.
type Tree = (Option<usize>, [Option<Unmove>; 2], Option<usize>);

/// What the certificate says that is read of a text.
fn outline_of(alloc: Global, text: &[u8]) -> Result<(Head, Tree), CertFault> {
    let cert = read(alloc, text)?;
    let root = &cert.root;
    let head = (cert.claim, cert.query.only, fits_format(&cert));
    let labels = [label_at(root, 0), label_at(root, 1)];
    Ok((head, (count_of(root), labels, count_at(root, 0))))
}

#[test]
fn reads_a_certificate(rt: HostRuntime) {
    let text =
        b"retro 1\nclaim illegal\nfen 4k3/8/8/3p4/8/8/P7/4K2R w K d6\nroot expand 1\nd7d5 expand 0\n";
    let head = (Claim::Illegal, read_move(b"d7d5"), true);
    let tree = (Some(1), [read_unmove(b"d7d5"), None], Some(0));
    assert_eq!(rt; outline_of(rt.alloc(), text), Ok((head, tree)));
}

/// A line, its depth, and its body.
const LINES: [(&[u8], u8, Option<BodyLine>); 22] = [
    (
        b"root rule kings",
        0,
        Some(BodyLine::Rule(Reason::Line(RuleLine::Kings))),
    ),
    (
        b"root rule ranks",
        0,
        Some(BodyLine::Rule(Reason::Line(RuleLine::Ranks))),
    ),
    (
        b"d7d8nxr rule rights",
        1,
        Some(BodyLine::Rule(Reason::Line(RuleLine::Rights))),
    ),
    (
        b"c5d6ep rule check",
        1,
        Some(BodyLine::Rule(Reason::Line(RuleLine::Check))),
    ),
    (
        b"root rule count w",
        0,
        Some(BodyLine::Rule(Reason::Line(RuleLine::Count(Colour::White)))),
    ),
    (
        b"d7d5 rule count b",
        1,
        Some(BodyLine::Rule(Reason::Line(RuleLine::Count(Colour::Black)))),
    ),
    (b"root rule count", 0, None),
    (b"root rule count x", 0, None),
    (b"root rule count  w", 0, None),
    (b"root rule count w ", 0, None),
    (b"root expand 999999", 0, Some(BodyLine::Expand(999_999))),
    (b"root expand 1000000", 0, None),
    (b"d7d5 expand 0", 255, Some(BodyLine::Expand(0))),
    (b"d7d5 expand 1", 255, None),
    (b"d7d5 back 255", 255, Some(BodyLine::Back(255))),
    (b"d7d5 back 256", 255, None),
    (b"d7d5 back 0", 9, None),
    (b"d7d5 back 01", 9, None),
    (b"d7d5  rule ranks", 1, None),
    (b"d7d5 rule ranks\n", 1, None),
    (b"root rule check", 1, None),
    (b"d7d5 rule check", 0, None),
];

fn body_of(text: &[u8], depth: u8) -> Option<BodyLine> {
    match read_line(text, depth) {
        Some(line) => Some(line.body),
        None => None,
    }
}

/// The first line that isn't read so, its depth, and what it is read as.
fn first_misread() -> Option<(&'static [u8], u8, Option<BodyLine>)> {
    for (text, depth, body) in LINES {
        let answer = body_of(text, depth);
        if answer != body {
            return Some((text, depth, answer));
        }
    }
    None
}

#[test]
fn reads_lines(rt: HostRuntime) {
    assert_eq!(rt; first_misread(), None);
}

/// The node with this one as its only child.
fn above(alloc: Global, node: Node) -> Result<Node, Memory> {
    let mut kids = Kids::new(alloc);
    kids.push(Kid {
        label: Unmove {
            mv: Move {
                from: Square::known(0),
                to: Square::known(8),
                promo: None,
            },
            captured: None,
            ep: false,
        },
        node,
    })?;
    Ok(Node {
        body: Body::Expand(kids),
    })
}

/// A tree of this depth whose leaf leads back so many steps.
fn chain(alloc: Global, depth: u16, steps: u8) -> Result<Node, Memory> {
    let mut node = Node {
        body: Body::Back(steps),
    };
    for _i in 0..depth {
        node = above(alloc, node)?;
    }
    Ok(node)
}

/// A certificate whose claim and tree may be others.
fn plain_cert(alloc: Global) -> Option<Cert> {
    let text = b"retro 1\nclaim illegal\nfen 8/8/8/8/8/8/8/8 w - -\nroot rule kings\n";
    read(alloc, text).ok()
}

/// Whether a certificate has a text with a chain of this depth, whose leaf leads back so many steps.
fn fits_chain(alloc: Global, depth: u16, steps: u8) -> Option<bool> {
    let mut cert = plain_cert(alloc)?;
    cert.root = chain(alloc, depth, steps).ok()?;
    Some(fits_format(&cert))
}

#[test]
fn fits_depths_to_255(rt: HostRuntime) {
    for (depth, steps, fits) in [
        (1, 1, true),
        (1, 2, false),
        (1, 0, false),
        (255, 255, true),
        (256, 255, false),
    ] {
        assert_eq!(rt;
            fits_chain(rt.alloc(), depth, steps),
            Some(fits),
            "{steps} steps at depth {depth}"
        );
    }
}

fn e5d6(promo: Option<Kind>) -> Move {
    Move {
        from: Square::known(36),
        to: Square::known(43),
        promo,
    }
}

/// Whether a certificate has a text with this claim.
fn fits_claim(alloc: Global, claim: Claim) -> Option<bool> {
    let mut cert = plain_cert(alloc)?;
    cert.claim = claim;
    Some(fits_format(&cert))
}

/// A claimed capture en passant promotes nothing, and a claimed last move to no king.
#[test]
fn fits_claims(rt: HostRuntime) {
    for (claim, fits) in [
        (Claim::Last(e5d6(None)), true),
        (Claim::Last(e5d6(Some(Kind::Queen))), true),
        (Claim::Last(e5d6(Some(Kind::King))), false),
        (Claim::Ep(e5d6(None)), true),
        (Claim::Ep(e5d6(Some(Kind::Queen))), false),
        (Claim::Ep(e5d6(Some(Kind::King))), false),
    ] {
        assert_eq!(rt; fits_claim(rt.alloc(), claim), Some(fits));
    }
}
