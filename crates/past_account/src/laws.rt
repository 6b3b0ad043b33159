ghost use Rattle.std.specs.Prelude.{ℕ, ◌≡◌, ◌<◌, Bool, IsTrue, List, Option, []};
ghost use Rattle.board_base.specs.Board.{is_in};
ghost use Rattle.board_base.specs.Rights.{Rights};
ghost use Rattle.board_base.specs.declared.men.Man.{Man as AMan};
ghost use Rattle.board_base.specs.declared.moves.Move.{Move};
ghost use Rattle.capture_prices.specs.Prices.{PriceList};
ghost use Rattle.query_base.specs.Asked.{Asked};
ghost use Rattle.cage_rules.specs.Laws.{Walled};
ghost use Rattle.cage_rules.specs.Reach.{LeadsTo};
ghost use Rattle.cage_rules.specs.Regions.{region_from};
ghost use Rattle.past_sketches.specs.Figures.{Sketch, sketch_of};
ghost use Rattle.past_sketches.specs.Fits.{Fits, MayBeMarked};
ghost use Rattle.past_sketches.specs.Moments.{FitsGame};
ghost use Rattle.past_account.specs.Account.{IsClosedBy, IsForcedBy};
ghost use Rattle.past_account.specs.Closes.{Closes, Forces};
ghost use Rattle.past_account.specs.Frozen.{AreBegun, IsFrozenIn};
ghost use Rattle.past_account.specs.Refuted.{Refuted};
ghost use Rattle.past_account.specs.Zones.{room_past};

/// The laws of accounts, at each moment of each game from the array without any of its men at which the men of a set of fixed figures stay.
/// Where for some prices the figures cost too much, the sketch doesn't fit (`close`). Where they cost too much if one figure's man was
/// promoted, or captured as a pawn, he wasn't, or didn't (`force`).
pub fn accounts_hold()
    ensures close { (o : List Bool) (g : List Move) (S : Sketch) (set : List Bool) (zones : List (List Bool)) (p : PriceList) → Fits o g S → Walled o g set → IsClosedBy o S set zones p → ⊥ }
    ensures force { (o : List Bool) (g : List Move) (S : Sketch) (set : List Bool) (zones : List (List Bool)) (p : PriceList) (i : ℕ) (fits : Fits o g S) → Walled o g set → IsForcedBy o S set zones p i → MayBeMarked o g S fits i }
{}

/// The law of frozen figures, at each moment of each game from the array without any of its men. A set of squares of fixed figures, each on
/// a home of a right that is held, or shut in by the set as far as his mark lets him come, is one where men stay (`stay`); and if the
/// men of squares of fixed figures stay, the array had them there (`begun`).
pub fn frozen_figures_stay()
    ensures stay { (o : List Bool) (g : List Move) (S : Sketch) (held : Rights) (set : List Bool) → FitsGame o g held S → IsFrozenIn held S set → Walled o g set }
    ensures begun { (o : List Bool) (g : List Move) (S : Sketch) (set : List Bool) → Fits o g S → Walled o g set → AreBegun o S set }
{}

/// Both together, in games in which these rights are held: a sketch that an account closes fits no moment of one (`closed`), and a mark that
/// an account forces is true (`forced`).
pub fn accounts_are_sound()
    ensures closed { (o : List Bool) (held : Rights) (S : Sketch) → Closes o held S → (g : List Move) → FitsGame o g held S → ⊥ }
    ensures forced { (o : List Bool) (held : Rights) (i : ℕ) (S : Sketch) → Forces o held i S → (g : List Move) (it : FitsGame o g held S) → MayBeMarked o g S it.fits i }
{}

/// The laws of sketches and accounts together: a refuted sketch fits no moment of any game in which these rights are held (`sketches`). So
/// no game, of any length and at any odds, leads to a query whose sketch is refuted (`queries`).
pub fn refuted_sketches_fit_no_game()
    ensures sketches { (o : List Bool) (held : Rights) (S : Sketch) → Refuted o held S → (g : List Move) → FitsGame o g held S → ⊥ }
    ensures queries { (o : List Bool) (q : Asked) → Refuted o q.held (sketch_of q.board) → (g : List Move) → LeadsTo o g q → ⊥ }
{}

/// The law that an officer's room if no zones are known is his region.
pub fn rooms_are_regions()
    ensures { (set : List Bool) (m : Option AMan) (h s : ℕ) → h < 64 → room_past set [] m h s ≡ is_in (region_from set m h) s }
{}
