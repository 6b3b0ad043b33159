//! Certificates with sketches: what is read and written again, and where texts go bad.

use cert_text::{CertFault, fits_format, read_cert, write_cert};
use std::alloc::{AllocError, Global};

/// What is written of the certificate that was read of these bytes, if it has a text, or the line at which they go bad.
fn written_again(alloc: Global, bytes: &[u8]) -> Result<Option<Vec<u8>>, CertFault> {
    if bytes.len() > 67_108_864 {
        return Err(CertFault::Memory);
    }
    let cert = read_cert(alloc, bytes)?;
    if fits_format(&cert) {
        Ok(write_cert(alloc, &cert).ok())
    } else {
        Ok(None)
    }
}

/// Whether the bytes are read and written again.
fn is_kept(alloc: Global, bytes: &[u8]) -> bool {
    match written_again(alloc, bytes) {
        Ok(Some(text)) => text.as_slice() == bytes,
        _ => false,
    }
}

fn bad_line(alloc: Global, bytes: &[u8]) -> Option<u32> {
    match written_again(alloc, bytes) {
        Err(CertFault::BadText { line }) => Some(line),
        _ => None,
    }
}

const GOOD: [&str; 4] = [
    "retro 1\nclaim illegal\nfen 4k3/8/8/8/8/8/8/4K3 w - -\nroot sketch 0\nnow void\n",
    "retro 1\nclaim illegal\nfen 4k3/8/8/8/8/8/8/4K3 w - -\nroot expand 2\ne8d8 sketch 0\nnow steps 1\na2-a3 void\nd8e8 sketch 1 files ah\n24 24 24 24 24 24 24 24 24 25 26 27 24 24 21 21 / 24 24 24 24 24 24 24 24 24 24 24 24 24 24 24 24 / h2 3 f3 3 h3 3 f4 3\nnow marks 1 split a1\nmark 1 1 32\ncase n closed 1\ncase r void\ncase q steps 0\n",
    "retro 1\nclaim illegal\nfen 4k3/8/8/8/8/8/8/4K3 w - -\nroot expand 2\ne8d8 sketch 0\nnow void\ne8f8 rule kings\n",
    "retro 2\nclaim illegal\nclock 0\nfen 4k3/8/8/8/8/8/8/4K3 w - -\nroot sketch 0\nnow steps 0\n",
];

/// Texts, each with the line at which it goes bad.
const BAD: [(&str, u32); 8] = [
    (
        "retro 1\nclaim illegal\nfen 4k3/8/8/8/8/8/8/4K3 w - -\nroot sketch 0\n",
        5,
    ),
    (
        "retro 1\nclaim illegal\nfen 4k3/8/8/8/8/8/8/4K3 w - -\nroot sketch 0\nnow void\nnow void\n",
        6,
    ),
    (
        "retro 1\nclaim illegal\nfen 4k3/8/8/8/8/8/8/4K3 w - -\nroot sketch 0\nnow void",
        5,
    ),
    (
        "retro 1\nclaim illegal\nfen 4k3/8/8/8/8/8/8/4K3 w - -\nroot sketch 65\n",
        4,
    ),
    (
        "retro 1\nclaim illegal\nfen 4k3/8/8/8/8/8/8/4K3 w - -\nroot sketch 1\nnow void\n",
        5,
    ),
    (
        "retro 1\nclaim illegal\nfen 4k3/8/8/8/8/8/8/4K3 w - -\nroot sketch 0\nnow steps 2\na2-a3 void\n",
        7,
    ),
    (
        "retro 1\nclaim illegal\nfen 4k3/8/8/8/8/8/8/4K3 w - -\nroot expand 2\ne8d8 sketch 0\nnow void\n",
        7,
    ),
    (
        "retro 1\nclaim illegal\nfen 4k3/8/8/8/8/8/8/4K3 w - -\nroot expand 1\ne8d8 sketch 0\ne8d8 rule kings\n",
        6,
    ),
];

/// The first of which it isn't so.
fn first_otherwise(alloc: Global) -> Option<&'static str> {
    for text in GOOD {
        if !is_kept(alloc, text.as_bytes()) {
            return Some(text);
        }
    }
    for (text, line) in BAD {
        if bad_line(alloc, text.as_bytes()) != Some(line) {
            return Some(text);
        }
    }
    None
}

/// Eight sketches with 33,825 units each: all together have too many.
fn dear(alloc: Global) -> Result<Vec<u8>, AllocError> {
    let mut text = Vec::new(alloc);
    text.extend_from_slice(
        b"retro 1\nclaim illegal\nfen 4k3/8/8/8/8/8/8/4K3 w - -\nroot expand 8\n",
    )?;
    for _ in 0..8_u32 {
        text.extend_from_slice(b"e8d8 sketch 0\nnow steps 1024\n")?;
        for _ in 0..1_024_u32 {
            text.extend_from_slice(b"a2-a3 steps 0\n")?;
        }
    }
    Ok(text)
}

#[test]
fn reads_and_writes_sketches(rt: HostRuntime) {
    assert_eq!(rt; first_otherwise(rt.alloc()), None);
}

#[test]
fn units_are_limited(rt: HostRuntime) {
    let text = dear(rt.alloc()).expect(&rt, "memory");
    assert_eq!(rt; bad_line(rt.alloc(), text.as_slice()), Some(7_948));
}
