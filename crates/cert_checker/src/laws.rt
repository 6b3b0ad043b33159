ghost use Rattle.std.specs.Prelude.{◌≡◌, ◌↔◌, ◌++◌, ℕ, IsTrue, List, None};
ghost use Rattle.board_base.specs.Texts.{can_capture, can_promote};
ghost use Rattle.board_base.specs.declared.unmoves.Unmove.{Unmove as AnUnmove};
ghost use Rattle.query_base.specs.Reach.{Holds};
ghost use Rattle.query_base.specs.declared.claims.Claim.{Claim as AnyClaim};
ghost use Rattle.query_base.specs.Asked.{Asked};
ghost use Rattle.cert_text.specs.Tree.{Tree};
ghost use Rattle.cert_text.specs.Certificate.{AreLinesOf, Certificate, Lines};
ghost use Rattle.cert_text.specs.ClaimLines.{promotes_well};
ghost use Rattle.cert_checker.specs.Proving.{ProvesClaim};
ghost use Rattle.cert_checker.specs.Walk.{Walked, Walks, WalksTo, next_line, unlisted};
ghost use Rattle.cert_text.specs.Due.{Due, refused};
ghost use Rattle.cert_text.specs.Lines.{cut};
ghost use Rattle.cert_checker.specs.Answers.{Answer, Answers, accepted, fault};
ghost use Rattle.cert_checker.specs.Frames.{Walking};
ghost use Rattle.cert_checker.specs.Remains.{Checking, Remains, StandsFor};
ghost use Rattle.cert_checker.specs.Stages.{BadTextFirst, Rest, heading, nodes};

/// The law that the walk of a certificate that has a text meets no fault if and only if the certificate proves its claim.
pub fn walk_proves()
    ensures { (lines : Lines) (cert : Certificate) → AreLinesOf lines cert → ((n : ℕ) × WalksTo cert (next_line n)) ↔ ProvesClaim cert }
{}

/// The law that a walk comes to one thing: no fault but the first is the answer.
pub fn one_walk()
    ensures { (tree : Tree) (q : Asked) (ancestors : List Asked) (n : ℕ) (a b : Walked) → Walks tree q ancestors n a → Walks tree q ancestors n b → a ≡ b }
{}

/// The law that there is no more than one answer to a text.
pub fn one_answer()
    ensures { (lines : Lines) (a b : Answer) → Answers lines a → Answers lines b → a ≡ b }
{}

/// The law that no game contradicts the claim of a certificate that proves it.
pub fn certificates_prove()
    ensures { (cert : Certificate) → ProvesClaim cert → Holds cert.claim cert.query }
{}

/// The law that an unmove which an answer calls unlisted has a text.
pub fn unlisted_have_texts()
    ensures promotion { (lines : Lines) (n : ℕ) (u : AnUnmove) → Answers lines (fault n (unlisted u)) → IsTrue (can_promote u.mv.promo) }
    ensures capture { (lines : Lines) (n : ℕ) (u : AnUnmove) → Answers lines (fault n (unlisted u)) → IsTrue (can_capture u.mv.promo u.captured u.ep) }
{}

/// The law that a query about which an answer accepts a claim bars no move.
pub fn accepted_bar_no_move()
    ensures { (lines : Lines) (claim : AnyClaim) (q : Asked) → Answers lines (accepted claim q) → q.barred ≡ None }
{}

/// The law that a claim which an answer accepts has a text.
pub fn accepted_have_texts()
    ensures { (lines : Lines) (claim : AnyClaim) (q : Asked) → Answers lines (accepted claim q) → IsTrue (promotes_well claim) }
{}

/// The law that what the stages answer from the first line on is the answer to the lines: bad text goes first, and else the first
/// fault of the walk, or none.
pub fn rest_answers()
    ensures { (lines : Lines) (a : Answer) → Rest heading 1 lines a → Answers lines a }
{}

/// The law that a check of bytes, however far it has come, still answers one thing for each rest of the bytes. Where it stands for
/// the bytes that came, that is the true answer, and no other: so no check stands for every text.
pub fn one_answer_remains()
    ensures some { (k : Checking) (others : List ℕ) → (a : Answer) × Remains k others a }
    ensures one { (k : Checking) (others : List ℕ) (a b : Answer) → Remains k others a → Remains k others b → a ≡ b }
    ensures exact { (k : Checking) (bytes others : List ℕ) (a : Answer) → StandsFor k bytes → Remains k others a ↔ Answers (cut (bytes ++ others)) a }
{}

/// The law that below the root's line bad text goes first, wherever it stands, and else the walk over the lines that follow, from
/// its frames or its first fault on, gives the answer.
pub fn bad_text_goes_first()
    ensures { (lines : Lines) (claim : AnyClaim) (q : Asked) (walk : Walking) (due : Due) (n : ℕ) (a : Answer) → Rest (nodes claim q walk due) n lines a → BadTextFirst (refused due n lines) claim q walk n lines a }
{}
