//! A tree of 143 children a level down to the greatest depth, and inputs of 64 MiB and of one byte more.

ghost use Rattle.std.specs.Prelude.{None};

use cert_checker::{StreamRefused, Why, check_stream};
use retro_ports::{Failed, MemSink, Source};
use run_driver::{Status, run};
use std::alloc::Global;
use std::process::Abort;
use std::test::Fail;

/// The heading and the root.
const ROOT: &[u8] = b"retro 1\nclaim illegal\nfen 8/8/8/8/8/8/8/8 w - -\nroot expand 143\n";

const INNER: &[u8] = b"a1a2 expand 143\n";

const LEAF: &[u8] = b"a1a2 rule count w\n";

/// A part of a line that no certificate has.
const REST: &[u8] = &[b'x'; 4096];

/// The nodes that stand below one another under the root, each the first child of the one above. The last has 143 leaves.
const CHAIN: u32 = 254;

/// The nodes below the root: behind these leaves stand 142 more children of the root and of each node of the chain but the last.
const NODES: u32 = CHAIN + 143 + 142 * CHAIN;

/// The bytes of the certificate.
const WHOLE: usize = 655_926;

/// The most bytes that are read.
const MOST: usize = 67_108_864;

/// A source that makes its bytes as they are read: the certificate, and then a line that no certificate has.
#[derive(Drop)]
struct Wide {
    left: usize,
    node: u32,
    at: usize,
}

impl Wide {
    /// The certificate alone.
    fn certificate() -> Wide {
        Wide {
            left: WHOLE,
            node: 0,
            at: 0,
        }
    }

    /// So many bytes of the line that no certificate has.
    fn rest(bytes: usize) -> Wide {
        Wide {
            left: bytes,
            node: NODES + 1,
            at: 0,
        }
    }

    /// The line of the node, or what follows the last.
    fn line(&self) -> &'static [u8] {
        if self.node == 0 {
            ROOT
        } else if self.node <= CHAIN {
            INNER
        } else if self.node <= NODES {
            LEAF
        } else {
            REST
        }
    }
}

impl Source for Wide {
    ghost left = { λ _. None };

    ghost faults = { λ _. 0 };

    /// Gives bytes of one line.
    fn read(&mut self, buf: &mut [u8]) -> Result<usize, Failed> {
        let line = self.line();
        let rest = &line[self.at.min(line.len())..];
        let n = rest.len().min(buf.len()).min(self.left);
        buf[..n].copy_from_slice(&rest[..n]);
        self.left = self.left.saturating_sub(n);
        self.at = self.at.saturating_add(n);
        if self.at >= line.len() {
            self.node = self.node.saturating_add(1);
            self.at = 0;
        }
        Ok(n)
    }
}

/// A run with this word on these bytes ends so.
fn assert_answer(
    rt: &(impl Abort + Alloc<A = Global>),
    word: &str,
    mut source: Wide,
    status: Status,
    text: &[u8],
) -> Result<(), Fail> {
    let mut words = Vec::new(rt.alloc());
    words.push(String::from_str(rt.alloc(), word)?)?;
    let mut sink = MemSink::new(rt.alloc(), 1_048_576, Vec::new(rt.alloc()), 65_536)?;
    let answered = run(rt.alloc(), &words, &mut source, &mut sink);
    assert_eq!(rt; answered, status, "{word}");
    assert!(rt; sink.taken() == text, "{word}");
    Ok(())
}

/// On a board without men the first label is stray.
#[test]
fn checks_a_wide_certificate(rt: HostRuntime) {
    let stray = StreamRefused::Unsupported {
        line: 5,
        why: Why::Stray,
    };
    assert!(rt; check_stream(&mut Wide::certificate()) == Err(stray));
}

#[test]
fn runs_on_a_wide_certificate(rt: HostRuntime) -> Result<(), Fail> {
    let stray = b"refused line 5 unsupported stray\n";
    assert_answer(&rt, "check", Wide::certificate(), Status::Refused, stray)?;
    assert_answer(&rt, "explain", Wide::certificate(), Status::Refused, stray)?;
    Ok(())
}

#[test]
fn checks_no_more_than_the_limit(rt: HostRuntime) {
    for (bytes, refused) in [
        (MOST, StreamRefused::BadText { line: 1 }),
        (MOST + 1, StreamRefused::TooLong),
    ] {
        assert!(rt; check_stream(&mut Wide::rest(bytes)) == Err(refused));
    }
}

#[test]
fn reads_no_more_than_the_limit(rt: HostRuntime) -> Result<(), Fail> {
    let line = b"refused line 1 text\n";
    assert_answer(&rt, "check", Wide::rest(MOST), Status::Refused, line)?;
    assert_answer(&rt, "check", Wide::rest(MOST + 1), Status::TooLong, b"")?;
    assert_answer(&rt, "explain", Wide::rest(MOST), Status::Refused, line)?;
    assert_answer(&rt, "explain", Wide::rest(MOST + 1), Status::TooLong, b"")?;
    assert_answer(&rt, "atleast", Wide::rest(MOST), Status::Refused, line)?;
    assert_answer(&rt, "atleast", Wide::rest(MOST + 1), Status::TooLong, b"")?;
    let head = b"refused head\n";
    assert_answer(&rt, "line", Wide::rest(MOST), Status::Refused, head)?;
    assert_answer(&rt, "line", Wide::rest(MOST + 1), Status::TooLong, b"")?;
    Ok(())
}

#[test]
fn lists_nothing_beyond_the_limit(rt: HostRuntime) -> Result<(), Fail> {
    let byte = b"bad fen field 1 byte 0\n";
    assert_answer(&rt, "unmoves", Wide::rest(MOST), Status::BadInput, byte)?;
    assert_answer(&rt, "unmoves", Wide::rest(MOST + 1), Status::TooLong, b"")?;
    Ok(())
}
