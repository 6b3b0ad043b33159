ghost use Rattle.std.specs.Prelude.{ℕ, ◌≡◌, ◌≢◌, ◌+◌, ◌<◌, ◌↔◌, IsTrue, List, Some, length};
ghost use Rattle.query_base.specs.Asked.{Asked};
ghost use Rattle.query_base.specs.declared.claims.Claim.{Claim as AnyClaim};
ghost use Rattle.cert_text.specs.ClaimLines.{claim_of, claim_text, promotes_well};
ghost use Rattle.cert_text.specs.Heads.{Leads};
ghost use Rattle.cert_text.specs.declared.heads.Head.TheVariants.{FormatDue, RootDue};
ghost use Rattle.cert_text.specs.Lines.{cut, ended};
ghost use Rattle.cert_text.specs.Mute.{IsMute};
ghost use Rattle.cert_text.specs.NodeLines.{node_line, line_text};
ghost use Rattle.cert_text.specs.declared.node_lines.NodeLine.{NodeLine as AnyLine};
ghost use Rattle.cert_text.specs.Texts.{IsBadAt};
ghost use Rattle.cert_text.specs.Certificate.{AreHeadLines, AreLinesOf, Certificate as AnyCertificate, IsTextOf, Lines, root_at};

/// What is read as the line of a node is the one text of that line. This does nothing when it runs.
pub fn one_text_of_a_line()
    ensures { (depth : ℕ) (text : List ℕ) (n : AnyLine) → node_line depth text ≡ Some n → text ≡ line_text n }
{}

/// What is read as a claim is the one text of that claim, and it promotes as a text can say. This does nothing when it runs.
pub fn one_text_of_a_claim()
    ensures text { (text : List ℕ) (claim : AnyClaim) → claim_of text ≡ Some claim → text ≡ claim_text claim }
    ensures promotion { (text : List ℕ) (claim : AnyClaim) → claim_of text ≡ Some claim → IsTrue (promotes_well claim) }
{}

/// Lines lead from the first of a head to the root if and only if they are the lines of a head, with the claim and the query that
/// they say; and the root's line is the next. This does nothing when it runs.
pub fn heads_lead_to_the_root()
    ensures head { (lines : Lines) (claim : AnyClaim) (q : Asked) → Leads FormatDue lines (RootDue claim q) ↔ AreHeadLines lines claim q }
    ensures root { (lines : Lines) (claim : AnyClaim) (q : Asked) → AreHeadLines lines claim q → length lines + 1 ≡ root_at q }
{}

/// A certificate has one text, and a text stands for one certificate. This does nothing when it runs.
pub fn one_text_each()
    ensures text { (a b : List ℕ) (cert : AnyCertificate) → IsTextOf a cert → IsTextOf b cert → a ≡ b }
    ensures certificate { (bytes : List ℕ) (c d : AnyCertificate) → IsTextOf bytes c → IsTextOf bytes d → c ≡ d }
{}

/// The text of a certificate goes bad at no line, and other bytes at no more than one. This does nothing when it runs.
pub fn one_fault_each()
    ensures text { (bytes : List ℕ) (n : ℕ) (cert : AnyCertificate) → IsBadAt AreLinesOf (cut bytes) n → IsTextOf bytes cert → ⊥ }
    ensures line { (bytes : List ℕ) (m n : ℕ) → IsBadAt AreLinesOf (cut bytes) m → IsBadAt AreLinesOf (cut bytes) n → m ≡ n }
{}

/// No line of a certificate, or of a sketch in it, has more than 234 bytes, with its end, and each has one. This does nothing when it runs.
pub fn no_long_lines()
    ensures long { (line : List ℕ) → 234 < length line → IsMute line }
    ensures unended { (line : List ℕ) → ((text : List ℕ) → line ≢ ended text) → IsMute line }
{}
