//! Certificates and lines of nodes that are written: the bytes are those that were read.

use arrayvec::ArrayVec;
use cert_text::{fits_format, read_cert, read_line, write_cert, write_line};
use std::alloc::{AllocError, Global};

/// The text that is written of the certificate that was read of these bytes, if there are both.
fn written_again(alloc: Global, bytes: &[u8]) -> Option<Vec<u8>> {
    if bytes.len() > 67_108_864 {
        return None;
    }
    let cert = read_cert(alloc, bytes).ok()?;
    if fits_format(&cert) {
        write_cert(alloc, &cert).ok()
    } else {
        None
    }
}

/// The certificates that stand as examples.
const EXAMPLES: [&str; 8] = [
    "retro 1\nclaim illegal\nfen rnbqkbnr/pppppppp/8/8/8/8/PPPPPPPP/RNBQKBNR w KQkq -\nroot rule kings\n",
    "retro 1\nclaim illegal\nfen 4k3/8/8/3p4/8/8/P7/4K2R w K d6\nroot expand 1\nd7d5 expand 0\n",
    "retro 1\nclaim illegal\nfen 4k3/8/8/8/8/P7/PPPPPPPP/4K3 w - -\nroot rule count w\n",
    "retro 1\nclaim illegal\nfen 8/8/8/8/8/8/8/8 w - -\nroot rule kings\n",
    "retro 1\nclaim ep a5b6\nfen kbN5/n1p5/B1N5/PpK5/8/8/8/8 w - -\nroot expand 5\nb7a8 expand 0\nb7a8xn expand 0\nb7a8xb expand 0\nb7a8xr expand 0\nb7a8xq expand 0\n",
    "retro 1\nclaim lost K\nfen nk6/brpp2p1/brp4p/1p6/8/8/8/4K2R w - -\nroot expand 6\nh7h6 expand 0\nc8b8 expand 0\nc8b8xn rule frozen 034f070200000090\nc8b8xb rule frozen 034f070200000090\nc8b8xr expand 0\nc8b8xq expand 0\n",
    "retro 1\nclaim lost q\nfen r3k3/p1p5/Q3K3/8/8/8/8/8 w - -\nroot expand 0\n",
    "retro 1\nclaim last f3g3\nfen B1Q5/4p1p1/7p/1P3r1q/1P6/P5K1/P2P4/7k b - -\nroot expand 9\na7a8b rule caps w 0050000000000900 5 2 5 4 4 5 / -5 -4 -3 -2 -1 0 0 0\nb7a8bxn rule caps w 0050000000000900 5 2 5 4 4 4 / -5 -4 -3 -2 -1 0 0 0\nb7a8bxb rule caps w 0050000000000900 5 2 5 4 4 4 / -5 -4 -3 -2 -1 0 0 0\nb7a8bxr rule caps w 0050000000000900 5 2 5 4 4 4 / -5 -4 -3 -2 -1 0 0 0\nb7a8bxq rule caps w 0050000000000900 5 2 5 4 4 4 / -5 -4 -3 -2 -1 0 0 0\nb7c8qxn rule caps w 0050000000000900 5 2 5 4 4 4 / -5 -4 -3 -2 -1 0 0 0\nb7c8qxb rule caps w 0050000000000900 5 2 5 4 4 4 / -5 -4 -3 -2 -1 0 0 0\nb7c8qxr rule caps w 0050000000000900 5 2 5 4 4 4 / -5 -4 -3 -2 -1 0 0 0\nb7c8qxq rule caps w 0050000000000900 5 2 5 4 4 4 / -5 -4 -3 -2 -1 0 0 0\n",
];

/// Certificates at odds, with a clock, and with both.
const FORMAT_2: [&str; 5] = [
    "retro 2\nclaim illegal\nodds 0000000000000100\nfen 4k3/8/8/8/8/8/P7/4K3 w - -\nroot rule frozen 0000000000000100\n",
    "retro 2\nclaim lost K\nodds 0000000000000080\nfen 4k3/8/8/8/8/8/8/4K2R w - -\nroot rule rights\n",
    "retro 2\nclaim illegal\nclock 0\nfen rnbqkbnr/pppppppp/8/8/8/5N2/PPPPPPPP/RNBQKB1R b KQkq -\nroot expand 0\n",
    "retro 2\nclaim last e2e4\nodds efff00000000ffef\nclock 9999\nfen 8/8/8/8/8/8/8/8 w - -\nroot rule kings\n",
    "retro 2\nclaim ep e5d6\nodds 0000000000000001\nclock 10\nfen 4k3/8/8/3p4/8/8/P7/4K2R w K d6\nroot expand 1\nd7d5 back 1\n",
];

/// A tree with each rule line, with steps back of one and of two, and with labels of each kind.
const TREE: &str = "root expand 6
a1a2 expand 4
d7d8nxr rule kings
c5d6ep rule ranks
h2h1q rule check
b3c4xp rule rights
e2e4 rule count w
e7e5 rule count b
g1f3 expand 1
g8f6 expand 2
b1c3 back 1
b8c6 back 2
a7b8qxq rule frozen 0000000000004080
a2a1r expand 5
f1f2 rule promo w 0000000000000a00
f8f7 rule promo b fedcba9876543210
f2f1 rule caps w 0000000000000000 1 0 0 0 0 0 0 1 / 0 -1 0 0 0 0 0 0
f7f8 rule caps b ffffffffffffffff / 64 -64 10 -9 0 0 0 7
f2f3 rule caps b 00000000000000ff -12 / 0 0 0 0 0 0 0 0
";

/// What is claimed above the tree.
const CLAIMS: [&str; 8] = [
    "illegal",
    "last e2e4",
    "last a7b8q",
    "lost K",
    "lost Q",
    "lost k",
    "lost q",
    "ep g5f6",
];

/// The certificate of the tree with this claim.
fn with_tree(alloc: Global, claim: &str) -> Result<String, AllocError> {
    format!(in alloc; "retro 1\nclaim {claim}\nfen r3k2r/8/8/5pP1/8/8/8/R3K2R w KQkq f6\n{TREE}")
}

/// The length of a certificate that is written as it was read; and otherwise what is written.
fn cert_again(alloc: Global, bytes: &[u8]) -> Result<usize, Option<Vec<u8>>> {
    match written_again(alloc, bytes) {
        Some(written) if written.as_slice() == bytes => Ok(bytes.len()),
        other => Err(other),
    }
}

/// The first of these texts that isn't written as it was read, and what is written.
fn first_changed(alloc: Global, texts: &[&'static str]) -> Option<(&'static str, Option<Vec<u8>>)> {
    for text in texts {
        if let Err(written) = cert_again(alloc, text.as_bytes()) {
            return Some((*text, written));
        }
    }
    None
}

#[test]
fn writes_certificates_as_they_were_read(rt: HostRuntime) {
    assert_eq!(rt; first_changed(rt.alloc(), &EXAMPLES), None);
    assert_eq!(rt; first_changed(rt.alloc(), &FORMAT_2), None);
}

/// The first claim whose certificate with the tree isn't written as it was read, and what is written.
fn first_changed_claim(
    alloc: Global,
) -> Result<Option<(&'static str, Option<Vec<u8>>)>, AllocError> {
    for claim in CLAIMS {
        let text = with_tree(alloc, claim)?;
        if let Err(written) = cert_again(alloc, text.as_bytes()) {
            return Ok(Some((claim, written)));
        }
    }
    Ok(None)
}

#[test]
fn writes_trees_as_they_were_read(rt: HostRuntime) {
    assert_eq!(rt; first_changed_claim(rt.alloc()), Ok(None));
}

/// The text that is written of a line, or None if there is none.
pub(crate) type Written = Option<ArrayVec<u8, 256>>;

/// The text that is written of the line that was read of these bytes at this depth.
fn line_again(bytes: &[u8], depth: u8) -> Written {
    match read_line(bytes, depth) {
        Some(line) => {
            let mut out = ArrayVec::new();
            write_line(&line, &mut out);
            Some(out)
        }
        None => None,
    }
}

/// The length of a line that is written as it was read at this depth; and otherwise what is written.
pub(crate) fn length_again(bytes: &[u8], depth: u8) -> Result<usize, Written> {
    match line_again(bytes, depth) {
        Some(written) if written.as_slice() == bytes => Ok(bytes.len()),
        other => Err(other),
    }
}

/// The longest line with a rule of the eight.
const LONG: &str =
    "a7b8qxq rule caps w ffffffffffffffff -64 -64 -64 -64 -64 -64 -64 -64 / -64 -64 -64 -64 -64 -64 -64 -64";

/// Lines, their depths and their lengths.
const LINES: [(&str, u8, usize); 5] = [
    ("root rule kings", 0, 15),
    ("root expand 999999", 0, 18),
    ("a1a2 back 255", 255, 13),
    ("a1a2 expand 0", 255, 13),
    (LONG, 1, 102),
];

#[test]
fn writes_lines_as_they_were_read(rt: HostRuntime) {
    for (text, depth, length) in LINES {
        assert_eq!(rt; length_again(text.as_bytes(), depth), Ok(length), "{text}");
    }
}
