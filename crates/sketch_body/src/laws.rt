ghost use Rattle.std.specs.Prelude.{ℕ, ◌≡◌, ◌≤◌, ◌↔◌, List, None, true};
ghost use Rattle.sketch_text.specs.Heads.{Head};
ghost use Rattle.sketch_body.specs.Bodies.{AreTextsOf, Body, Item, head_of};
ghost use Rattle.sketch_body.specs.Due.{Reading, is_over, step};
ghost use Rattle.sketch_body.specs.Ends.{EndsAs, IsEnding, ReadsTo};

/// What is read behind the first line of a sketch is at its end if and only if the texts are those of the lines below the first of a sketch
/// that begins so, and its units, with those of the sketches before, are at most 262,144. This does nothing when it runs.
pub fn bodies_are_read()
    ensures { (units : ℕ) (h : Head) (texts : List (List ℕ)) (items : List Item) (last : Reading) → (ReadsTo units h texts items last × (is_over last.due ≡ true)) ↔ ((b : Body) × EndsAs units h texts items last b) }
{}

/// Behind one first line texts are those of one sketch, and a sketch has one list of texts. This does nothing when it runs.
pub fn one_body_each()
    ensures body { (texts : List (List ℕ)) (b c : Body) → head_of b ≡ head_of c → AreTextsOf texts b → AreTextsOf texts c → b ≡ c }
    ensures texts { (a c : List (List ℕ)) (b : Body) → AreTextsOf a b → AreTextsOf c b → a ≡ c }
{}

/// Whatever was read behind the first line of a sketch with at most 64 lines of prices, some lines end it, at no more units (`ends`): so a
/// line that isn't read is the first with which the lines begin no sketch within the units. At the end no line is read (`stops`). This does
/// nothing when it runs.
pub fn each_reading_ends()
    ensures ends { (units : ℕ) (h : Head) (texts : List (List ℕ)) (items : List Item) (r : Reading) → h.prices ≤ 64 → ReadsTo units h texts items r → (rest : List (List ℕ)) × (more : List Item) × (last : Reading) × IsEnding r rest more last }
    ensures stops { (r : Reading) (text : List ℕ) → is_over r.due ≡ true → step r text ≡ None }
{}
