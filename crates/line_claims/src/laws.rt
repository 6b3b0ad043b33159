ghost use Rattle.std.specs.Prelude.{ℕ, ◌≡◌, ◌≤◌, List, None, Some, length};
ghost use Rattle.std.specs.List.{All};
ghost use Rattle.query_base.specs.Asked.{Asked};
ghost use Rattle.query_base.specs.Reach.{Holds};
ghost use Rattle.line_claims.specs.Due.{parts_due};
ghost use Rattle.line_claims.specs.Holding.{HoldsLine};
ghost use Rattle.line_claims.specs.Lines.{HasLine, line_claim_of, line_claim_text};
ghost use Rattle.line_claims.specs.declared.claims.LineClaim.{LineClaim};

/// The law that a claim of several steps holds if each part due does. This does nothing when it runs.
pub fn parts_make_lines_hold()
    ensures { (claim : LineClaim) (q : Asked) → All (λ part. Holds part.0 part.1) (parts_due claim q) → HoldsLine claim q }
{}

/// The law that no part due is about a query that bars a move, if the claim's own query bars none. This does nothing when it
/// runs.
pub fn parts_bar_no_move()
    ensures { (claim : LineClaim) (q : Asked) → q.barred ≡ None → All (λ part. part.1.barred ≡ None) (parts_due claim q) }
{}

/// The law that each claim has one line at most: whatever is read as it is the line that is written of it, so two lines that are
/// read as one claim are equal. What is read may be written, and is at most 138 bytes long. This does nothing when it runs.
pub fn one_text_of_a_line_claim()
    ensures spelled { (text : List ℕ) (claim : LineClaim) → line_claim_of text ≡ Some claim → text ≡ line_claim_text claim }
    ensures written { (text : List ℕ) (claim : LineClaim) → line_claim_of text ≡ Some claim → HasLine claim }
    ensures equal { (a b : List ℕ) (claim : LineClaim) → line_claim_of a ≡ Some claim → line_claim_of b ≡ Some claim → a ≡ b }
    ensures short { (text : List ℕ) (claim : LineClaim) → line_claim_of text ≡ Some claim → length text ≤ 138 }
{}
