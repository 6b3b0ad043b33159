//! Last moves that are demanded or barred.

use crate::finding::length_found;
use board_base::{Move, read_move};
use fen_text::read_four_fields;
use query_base::Query;
use std::process::Abort;

fn demanded(rt: &impl Abort, text: &str) -> Move {
    read_move(text.as_bytes()).expect(rt, "a move")
}

/// Each of these moves may have been the last.
#[test]
fn last_moves_are_found(rt: HostRuntime) {
    let query = read_four_fields(b"4k3/8/8/3p4/8/2K5/8/8 w - -").expect(&rt, "a FEN");
    for text in ["d7d5", "d6d5", "e6d5", "c6d5", "d8e8", "f7e8"] {
        let last = demanded(&rt, text);
        assert!(rt;
            length_found(rt.alloc(), &query, Some(last)).is_some(),
            "{text}"
        );
    }
    let wrong = demanded(&rt, "a7a8q");
    assert_eq!(rt; length_found(rt.alloc(), &query, Some(wrong)), None);
}

/// A game is found that doesn't end with the barred move.
#[test]
fn barred_moves_are_avoided(rt: HostRuntime) {
    let query = read_four_fields(b"4k3/8/8/3p4/8/2K5/8/8 w - -").expect(&rt, "a FEN");
    for text in ["d7d5", "d6d5", "d8e8"] {
        let barred = Some(demanded(&rt, text));
        let other = Query { barred, ..query };
        assert!(rt; length_found(rt.alloc(), &other, None).is_some(), "{text}");
    }
}
