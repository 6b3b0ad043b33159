//! The signs of a move.

ghost use Rattle.std.specs.Prelude.{◌≡◌, ◌++◌, IfOk};
ghost use Rattle.proof_story.specs.Movers.{became, mover_initial};

use board_base::{Kind, Man};
use prose_words::{initial, place_initial, say};
use std::alloc::AllocError;

/// The letter of the man who made the move that ends on this place; a pawn that was promoted has none.
pub fn mover_initial(place: Option<Man>, promo: Option<Kind>) -> &'static [u8]
    ensures { result.now ≡ mover_initial place promo }
{
    match promo {
        None => place_initial(place),
        Some(_) => b"",
    }
}

/// What a pawn became, as in `=Q`.
pub fn push_became(promo: Option<Kind>, out: &mut Vec<u8>) -> Result<(), AllocError>
    ensures { IfOk result (λ _. out.new.items ≡ out.old.items ++ became promo) }
{
    if let Some(kind) = promo {
        say(b"=", out)?;
        say(initial(kind), out)?;
    }
    Ok(())
}
