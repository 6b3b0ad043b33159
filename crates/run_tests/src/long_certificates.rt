//! Certificates of many nodes: chains, and one with many children.

use crate::refusals::is_refused;
use run_driver::{Row, Status, WHOLE, is_answered, run_on};
use std::alloc::{AllocError, Global};
use std::test::Fail;

/// A chain of nodes with one child each, down to a node of this depth with this body. No man stands on the board.
fn chain(alloc: Global, depth: u32, body: &str) -> Result<String, AllocError> {
    let mut text = String::from_str(
        alloc,
        "retro 1\nclaim illegal\nfen 8/8/8/8/8/8/8/8 w - -\nroot expand 1\n",
    )?;
    for _ in 1..depth {
        text.push_str("a1a2 expand 1\n")?;
    }
    text.push_str("a1a2 ")?;
    text.push_str(body)?;
    text.push('\n')?;
    Ok(text)
}

/// Trees reach down to depth 255, and a node leads back to none but its ancestors. The first label is stray.
#[test]
fn reads_chains(rt: HostRuntime) -> Result<(), Fail> {
    let stray = "refused line 5 unsupported stray\n";
    for (depth, body, said) in [
        (255, "expand 0", stray),
        (255, "expand 1", "refused line 259 text\n"),
        (256, "expand 0", "refused line 259 text\n"),
        (255, "back 255", stray),
        (255, "back 256", "refused line 259 text\n"),
        (3, "back 0", "refused line 7 text\n"),
        (3, "back 1", stray),
        (3, "back 2", stray),
        (3, "back 3", stray),
        (3, "back 4", "refused line 7 text\n"),
    ] {
        let text = chain(rt.alloc(), depth, body)?;
        assert!(rt;
            is_refused(rt.alloc(), text.as_bytes(), said)?,
            "{body} at {depth}"
        );
    }
    Ok(())
}

/// In the array with Black to move, the first retractions of each node, which are knights'.
const KNIGHTS: &str = "retro 1
claim illegal
fen rnbqkbnr/pppppppp/8/8/8/8/PPPPPPPP/RNBQKBNR b KQkq -
root expand 1
a3b1 expand 1
a6b8 expand 1
f3g1 expand 1
b4a6 expand 1
b1a3 expand 1
d5b4 expand 1
a3b1 expand 1
c3d5 expand 1
";

/// The four that come again and again behind these.
const ROUND: [&str; 4] = ["b1a3", "a4c3", "a3b1", "c3a4"];

/// A chain of the first retractions down to depth 255, with this body there.
fn knights_chain(alloc: Global, body: &str) -> Result<String, AllocError> {
    let mut text = String::from_str(alloc, KNIGHTS)?;
    for i in 8..254_usize {
        text.push_str(ROUND[i % 4])?;
        text.push_str(" expand 1\n")?;
    }
    text.push_str("a3b1 ")?;
    text.push_str(body)?;
    text.push('\n')?;
    Ok(text)
}

/// The first fault is met at the greatest depth, or one level above it, if the second retraction of a knight is left out.
#[test]
fn walks_to_the_greatest_depth(rt: HostRuntime) -> Result<(), Fail> {
    for (body, said) in [
        ("expand 0", "refused line 259 unlisted c3a4\n"),
        ("back 4", "refused line 258 unlisted c3b1\n"),
        ("back 255", "refused line 259 unsupported back\n"),
    ] {
        let text = knights_chain(rt.alloc(), body)?;
        assert!(rt; is_refused(rt.alloc(), text.as_bytes(), said)?, "{body}");
    }
    Ok(())
}

/// A right is demanded whose rook isn't at home, and the queen can have come from everywhere.
const WIDE: &[u8] = b"4k3/8/8/3q4/8/8/8/4K3 w K -\n";

/// The certificate that expands the position, with these retractions but the last so many, each of which `rule rights` supports.
fn wide(alloc: Global, lines: &[u8], left_out: usize) -> Result<Vec<u8>, AllocError> {
    let all = lines.split(|byte| *byte == b'\n').count();
    // The total and the end of its line are no retractions.
    let count = all.saturating_sub(2).saturating_sub(left_out);
    let mut text = Vec::from_slice(alloc, b"retro 1\nclaim illegal\nfen ")?;
    text.extend_from_slice(WIDE)?;
    let root = format!(in alloc; "root expand {count}\n")?;
    text.extend_from_slice(root.as_bytes())?;
    for (i, line) in lines.split(|byte| *byte == b'\n').enumerate() {
        if i < count {
            if let Some(label) = line.split(|byte| *byte == b' ').next() {
                text.extend_from_slice(label)?;
                text.extend_from_slice(b" rule rights\n")?;
            }
        }
    }
    Ok(text)
}

/// Each label is compared, however many there are.
#[test]
fn compares_all_labels(rt: HostRuntime) -> Result<(), Fail> {
    let (_, listed) = run_on(rt.alloc(), &["unmoves"], WIDE, WHOLE)?;
    let lines = listed.taken();
    assert!(rt; lines.split(|byte| *byte == b'\n').count() > 143);
    let whole = wide(rt.alloc(), lines, 0)?;
    let row = Row {
        words: &["check"],
        input: &whole,
        status: Status::Done,
        text: b"accepted illegal 4k3/8/8/3q4/8/8/8/4K3 w K -\n",
    };
    assert!(rt; is_answered(rt.alloc(), &row, WHOLE)?);
    let part = wide(rt.alloc(), lines, 1)?;
    let (status, sink) = run_on(rt.alloc(), &["check"], &part, WHOLE)?;
    assert_eq!(rt; status, Status::Refused);
    assert!(rt; sink.taken().starts_with(b"refused line 4 unlisted "));
    Ok(())
}
