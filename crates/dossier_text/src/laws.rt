ghost use Rattle.std.specs.Prelude.{ℕ, List, ◌≡◌, ◌≤◌, ◌++◌, None, length};
ghost use Rattle.query_base.specs.Asked.{Asked};
ghost use Rattle.line_claims.specs.Holding.{HoldsLine};
ghost use Rattle.line_claims.specs.Lines.{HasLine};
ghost use Rattle.line_claims.specs.declared.claims.LineClaim.{LineClaim};
ghost use Rattle.dossier_text.specs.Dossiers.{BeginsWithPart, IsHead};
ghost use Rattle.dossier_text.specs.Proving.{IsDossier};

use cert_checker::certificates_prove;
use line_claims::parts_make_lines_hold;

/// The law that bytes begin with one head at most: two heads that front the same bytes are one, what they say is one, and so is what
/// follows them. This does nothing when it runs.
pub fn one_head_each()
    ensures { (a b rest more : List ℕ) (c d : LineClaim) (q r : Asked) → a ++ rest ≡ b ++ more → IsHead a c q → IsHead b d r → (a ≡ b) × (rest ≡ more) × (c ≡ d) × (q ≡ r) }
{}

/// The law that a head has one text: two texts of a head with the same claim about the same query are equal. This does nothing when
/// it runs.
pub fn one_text_of_a_head()
    ensures { (a b : List ℕ) (claim : LineClaim) (q : Asked) → IsHead a claim q → IsHead b claim q → a ≡ b }
{}

/// The law that a head is at most 271 bytes long. This does nothing when it runs.
pub fn heads_are_short()
    ensures { (bytes : List ℕ) (claim : LineClaim) (q : Asked) → IsHead bytes claim q → length bytes ≤ 271 }
{}

/// The law that no head is about a query that bars a move. This does nothing when it runs.
pub fn heads_bar_no_move()
    ensures { (bytes : List ℕ) (claim : LineClaim) (q : Asked) → IsHead bytes claim q → q.barred ≡ None }
{}

/// The law that the claim of a head has a line. This does nothing when it runs.
pub fn heads_have_lines()
    ensures { (bytes : List ℕ) (claim : LineClaim) (q : Asked) → IsHead bytes claim q → HasLine claim }
{}

/// The law that bytes begin with one part at most, and that one thing follows it. This does nothing when it runs.
pub fn one_part_each()
    ensures { (bytes a b r s : List ℕ) → BeginsWithPart bytes a r → BeginsWithPart bytes b s → (a ≡ b) × (r ≡ s) }
{}

/// The law that the claim of a dossier holds: no list of moves is a game that reaches its query and contradicts it. This does nothing
/// when it runs.
pub fn dossiers_prove()
    ensures { (bytes : List ℕ) (claim : LineClaim) (q : Asked) → IsDossier bytes claim q → HoldsLine claim q }
{
    certificates_prove();
    parts_make_lines_hold();
}
