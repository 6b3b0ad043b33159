//! What a reference means.

ghost use Rattle.std.specs.Prelude.{ℕ, ◌≡◌, ◌<◌, List, [], ◌∷◌, Some, None, length};
ghost use Rattle.board_base.specs.declared.unmoves.Unmove.{Unmove};
ghost use Rattle.proof_story.specs.Reading.{IsReadable};
ghost use Rattle.proof_story.specs.Story.{below, chosen, reference, told_from};
ghost use Rattle.proof_story.specs.declared.stories.Paragraph.{Paragraph};

/// A paragraph that says `As in N.` says what N says, and of each retraction that no paragraph below it tells, it tells what N tells,
/// with all that lies behind. This does nothing when it runs.
pub fn references_repeat()
    ensures words { (story : List Paragraph) (i j : ℕ) → IsReadable story → i < length story → reference story i ≡ Some j → told_from story i [] ≡ told_from story j [] }
    ensures moves { (story : List Paragraph) (i j : ℕ) (u : Unmove) (rest : List Unmove) → IsReadable story → i < length story → reference story i ≡ Some j → chosen story u (below story i) ≡ None → told_from story i (u ∷ rest) ≡ told_from story j (u ∷ rest) }
{}
