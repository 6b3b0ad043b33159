ghost use Rattle.std.specs.Prelude.{ℕ, ◌≡◌, ◌↔◌, IsTrue, List, None};
ghost use Rattle.board_base.specs.Texts.{can_capture, can_promote};
ghost use Rattle.board_base.specs.declared.unmoves.Unmove.{Unmove as AnUnmove};
ghost use Rattle.query_base.specs.Asked.{Asked};
ghost use Rattle.cert_checker.specs.Walk.{unlisted};
ghost use Rattle.line_claims.specs.Lines.{HasLine};
ghost use Rattle.line_claims.specs.declared.claims.LineClaim.{LineClaim};
ghost use Rattle.dossier_text.specs.Proving.{IsDossier};
ghost use Rattle.dossier_checker.specs.DossierAnswers.{AnswersDossier, DossierAnswer, fault_in, line_accepted};

use cert_checker::unlisted_have_texts;

/// The law that there is no more than one answer to the bytes.
pub fn one_dossier_answer()
    ensures { (bytes : List ℕ) (a b : DossierAnswer) → AnswersDossier bytes a → AnswersDossier bytes b → a ≡ b }
{}

/// The law that a claim is the answer to the bytes if and only if they are a dossier of it.
pub fn accepted_are_dossiers()
    ensures { (bytes : List ℕ) (claim : LineClaim) (q : Asked) → AnswersDossier bytes (line_accepted claim q) ↔ IsDossier bytes claim q }
{}

/// The law that a claim which an answer accepts has a line, and its query bars no move.
pub fn accepted_lines_are_written()
    ensures line { (bytes : List ℕ) (claim : LineClaim) (q : Asked) → AnswersDossier bytes (line_accepted claim q) → HasLine claim }
    ensures barred { (bytes : List ℕ) (claim : LineClaim) (q : Asked) → AnswersDossier bytes (line_accepted claim q) → q.barred ≡ None }
{}

/// The law that an unmove which an answer calls unlisted in a part has a text.
pub fn unlisted_in_parts_have_texts()
    ensures promotion { (bytes : List ℕ) (p n : ℕ) (u : AnUnmove) → AnswersDossier bytes (fault_in p n (unlisted u)) → IsTrue (can_promote u.mv.promo) }
    ensures capture { (bytes : List ℕ) (p n : ℕ) (u : AnUnmove) → AnswersDossier bytes (fault_in p n (unlisted u)) → IsTrue (can_capture u.mv.promo u.captured u.ep) }
{
    unlisted_have_texts();
}
