//! A search of which any allocation may be refused. Its assertion holds with and without a refusal, so this test passes also if
//! `rt try --test --fail-alloc N` refuses the Nth allocation.

use crate::finding::is_game_to;
use board_base::Memory;
use fen_text::read_four_fields;
use game_search::find_game;

#[test]
fn finds_a_game_or_ends(rt: HostRuntime) {
    let text = b"rnbqkb1r/pppp1ppp/5n2/4P3/8/8/PPP1PPPP/RNBQKBNR w KQkq -";
    let query = read_four_fields(text).expect(&rt, "a FEN");
    match find_game(rt.alloc(), &query, None, 400) {
        Ok(hunt) => assert!(rt; hunt.game.is_some_and(|game| is_game_to(&query, &game))),
        Err(Memory) => {}
    }
}
