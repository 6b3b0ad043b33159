ghost use Rattle.std.specs.Prelude.{◌≡◌, ◌<◌, ℕ, Bool, false, IsTrue, List, Option, length};
ghost use Rattle.board_base.specs.Board.{Places, is_in};
ghost use Rattle.play_rules.specs.Reach.{IsWithin};
ghost use Rattle.board_base.specs.declared.men.Man.{Man as AMan};
ghost use Rattle.board_base.specs.declared.moves.Move.{Move};
ghost use Rattle.query_base.specs.Asked.{Asked};
ghost use Rattle.query_base.specs.Reach.{Reaches};
ghost use Rattle.cage_rules.specs.Frozen.{IsAsArray, IsFrozen};
ghost use Rattle.cage_rules.specs.Laws.{Caged, IsGone, IsNotPawned, IsSafeFromPawns, KeepLabels, StandAsBegun, StaysInRegion, StoodSo, Walled};
ghost use Rattle.cage_rules.specs.Regions.{IsLeastClosed, IsLeastFrom, is_dead, is_officer_home, is_shielded, region, region_from};
ghost use Rattle.cage_rules.specs.Sets.{union};
ghost use Rattle.cage_rules.specs.Reach.{LeadsTo};

/// The law of frozen sets, for every game that leads to a query, from the array without any of its men. What stands on a frozen
/// set stood there after each beginning of the game, and so in the array without these men; each of these men is the one who began
/// there. A game that reaches a query leads to it from the array at the query's odds.
pub fn frozen_men_stood()
    ensures stood { (o : List Bool) (g : List Move) (q : Asked) (set : List Bool) → Caged o g q set → StoodSo o g q set }
    ensures as_array { (o : List Bool) (g : List Move) (q : Asked) (set : List Bool) → Caged o g q set → IsAsArray o q.board set }
    ensures labels { (o : List Bool) (g : List Move) (q : Asked) (set : List Bool) → Caged o g q set → KeepLabels o g set }
    ensures reached { (g : List Move) (q : Asked) → Reaches g q → LeadsTo q.odds g q }
{}

/// The law that if a frozen set holds what the array without any of its men doesn't, no game leads from there to the query; so
/// if the array at the query's odds doesn't hold it, no game reaches the query.
pub fn frozen_refutes()
    ensures from_odds { (o : List Bool) (q : Asked) (set : List Bool) → IsFrozen q set → (IsAsArray o q.board set → ⊥) → (g : List Move) → LeadsTo o g q → ⊥ }
    ensures reached { (q : Asked) (set : List Bool) → IsFrozen q set → (IsAsArray q.odds q.board set → ⊥) → (g : List Move) → Reaches g q → ⊥ }
{}

/// The law that a region is the least set that has its home and that the array's man there doesn't leave, and the only one; and so is
/// the region of any man from any square of the board.
pub fn regions_are_least()
    ensures least { (set : List Bool) (h : ℕ) → IsTrue (is_officer_home h) → IsLeastClosed set h (region set h) }
    ensures only { (set : List Bool) (h : ℕ) (found : List Bool) → IsTrue (is_officer_home h) → IsLeastClosed set h found → found ≡ region set h }
    ensures least_from { (set : List Bool) (man : Option AMan) (h : ℕ) → h < 64 → IsLeastFrom set man h (region_from set man h) }
    ensures only_from { (set : List Bool) (man : Option AMan) (h : ℕ) (found : List Bool) → h < 64 → IsLeastFrom set man h found → found ≡ region_from set man h }
{}

/// The law of regions, for every game that leads to a query in which a set is frozen, and for each home of a knight, a bishop, a
/// rook or a queen that was not left out. Whoever began there, if he is still on the board, stands in his region and is what he
/// was; so if his home is dead he was captured. If it is shielded, no pawn captures in the region, and so no pawn captured him.
pub fn officers_stay_in_regions()
    ensures region { (o : List Bool) (g : List Move) (q : Asked) (set : List Bool) (h : ℕ) → Caged o g q set → IsTrue (is_officer_home h) → is_in o h ≡ false → StaysInRegion o g set h }
    ensures dead { (o : List Bool) (g : List Move) (q : Asked) (set : List Bool) (h : ℕ) → Caged o g q set → IsTrue (is_officer_home h) → is_in o h ≡ false → IsTrue (is_dead q.board set h) → IsGone o g h }
    ensures safe { (o : List Bool) (g : List Move) (q : Asked) (set : List Bool) (h : ℕ) → Caged o g q set → IsTrue (is_shielded set h) → IsSafeFromPawns o g set h }
    ensures shielded { (o : List Bool) (g : List Move) (q : Asked) (set : List Bool) (h : ℕ) → Caged o g q set → IsTrue (is_officer_home h) → is_in o h ≡ false → IsTrue (is_shielded set h) → IsNotPawned o g h }
{}

/// The same laws wherever the men of a set stay, as those of a frozen set do (`frozen`). They are the men of the array (`stood`), and
/// who began on the home of an officer is in his region beside the set (`region`), where no pawn captures if the home is shielded
/// (`safe`), and so doesn't capture him (`shielded`).
pub fn walled_men_stay()
    ensures frozen { (o : List Bool) (g : List Move) (q : Asked) (set : List Bool) → Caged o g q set → Walled o g set }
    ensures stood { (o : List Bool) (g : List Move) (set : List Bool) → Walled o g set → StandAsBegun o g set }
    ensures region { (o : List Bool) (g : List Move) (set : List Bool) (h : ℕ) → Walled o g set → IsTrue (is_officer_home h) → is_in o h ≡ false → StaysInRegion o g set h }
    ensures safe { (o : List Bool) (g : List Move) (set : List Bool) (h : ℕ) → Walled o g set → IsTrue (is_shielded set h) → IsSafeFromPawns o g set h }
    ensures shielded { (o : List Bool) (g : List Move) (set : List Bool) (h : ℕ) → Walled o g set → IsTrue (is_officer_home h) → is_in o h ≡ false → IsTrue (is_shielded set h) → IsNotPawned o g h }
{}

/// The laws of sets together: two frozen sets are frozen together, and two that are as in the array are so together; and if a
/// set grows, a home that is dead stays dead, and one that is shielded stays shielded.
pub fn larger_sets_gain()
    ensures frozen { (q : Asked) (a b : List Bool) → length a ≡ 64 → length b ≡ 64 → IsFrozen q a → IsFrozen q b → IsFrozen q (union a b) }
    ensures as_array { (o : List Bool) (board : Places) (a b : List Bool) → IsAsArray o board a → IsAsArray o board b → IsAsArray o board (union a b) }
    ensures dead { (board : Places) (inner outer : List Bool) (h : ℕ) → IsTrue (is_officer_home h) → length inner ≡ 64 → IsWithin inner outer → IsTrue (is_dead board inner h) → IsTrue (is_dead board outer h) }
    ensures shielded { (inner outer : List Bool) (h : ℕ) → IsTrue (is_officer_home h) → length inner ≡ 64 → IsWithin inner outer → IsTrue (is_shielded inner h) → IsTrue (is_shielded outer h) }
{}
