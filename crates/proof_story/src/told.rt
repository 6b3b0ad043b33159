//! The text of a story that tells the nodes.

ghost use Rattle.std.specs.Prelude.{IfOk, IfSome};
ghost use Rattle.proof_story.specs.Reading.{TellsPoints};

use crate::checking::is_story_of;
use crate::rendering::push_story;
use crate::stories::Point;
use crate::telling::story_of;
use std::alloc::{AllocError, Global};

/// The nodes of a tree in preorder, told as a story in which a reader finds each by the retractions that lead to it, and nothing else. None
/// is left for whoever tells them one by one, if the story that was made doesn't tell them so.
pub fn tell(alloc: Global, points: &[Point]) -> Result<Option<Vec<u8>>, AllocError>
    ensures { IfOk result (λ r. IfSome r (λ text. TellsPoints points.now text.items)) }
{
    let story = story_of(alloc, points)?;
    if !is_story_of(alloc, points, story.as_slice())? {
        return Ok(None);
    }
    let mut text = Vec::new(alloc);
    push_story(alloc, story.as_slice(), &mut text)?;
    Ok(Some(text))
}
