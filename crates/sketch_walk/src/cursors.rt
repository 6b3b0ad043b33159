ghost use Rattle.std.specs.Prelude.{◌≡◌, ◌<◌, ◌≤◌, ℕ};
ghost use Rattle.sketch_walk.specs.Cursors.{IsInside, number_of};
ghost use Rattle.sketch_walk.specs.Nests.{Finds, after_figure, after_place, after_square, after_victim, after_way, left};

/// A place on the walk: a figure, a square, an origin, a victim and how many pawns are above, each by its number.
#[derive(Clone, Copy)]
pub(crate) struct Cursor {
    pub(crate) by: u8,
    pub(crate) to: u8,
    pub(crate) way: u8,
    pub(crate) victim: u8,
    pub(crate) above: u8,
}

/// The first place of the next figure.
pub(crate) fn past_figure(c: Cursor) -> Cursor
    requires { c.by < 32 }
    ensures left { (finds : Finds) (k : ℕ) → left finds k result ≡ after_figure finds k c }
    ensures inside { IsInside result }
    ensures later { IsInside c → number_of c < number_of result }
{
    Cursor {
        by: c.by + 1,
        to: 0,
        way: 0,
        victim: 0,
        above: 0,
    }
}

/// The first place of the next square.
pub(crate) fn past_square(c: Cursor) -> Cursor
    requires few { c.by < 32 }
    requires inside { IsInside c }
    ensures left { (finds : Finds) (k : ℕ) → c.by < k → left finds k result ≡ after_square finds k c }
    ensures inside { IsInside result }
    ensures later { number_of c < number_of result }
{
    if c.to == 63 {
        return past_figure(c);
    }
    Cursor {
        by: c.by,
        to: c.to + 1,
        way: 0,
        victim: 0,
        above: 0,
    }
}

/// The first place of the next origin.
pub(crate) fn past_way(c: Cursor) -> Cursor
    requires few { c.by < 32 }
    requires inside { IsInside c }
    ensures left { (finds : Finds) (k : ℕ) → c.by < k → left finds k result ≡ after_way finds k c }
    ensures inside { IsInside result }
    ensures later { number_of c < number_of result }
{
    if c.way == 3 {
        return past_square(c);
    }
    Cursor {
        by: c.by,
        to: c.to,
        way: c.way + 1,
        victim: 0,
        above: 0,
    }
}

/// The first place of the next victim.
pub(crate) fn past_victim(c: Cursor) -> Cursor
    requires few { c.by < 32 }
    requires inside { IsInside c }
    ensures left { (finds : Finds) (k : ℕ) → c.by < k → left finds k result ≡ after_victim finds k c }
    ensures inside { IsInside result }
    ensures later { number_of c < number_of result }
{
    if c.victim == 4 {
        return past_way(c);
    }
    Cursor {
        by: c.by,
        to: c.to,
        way: c.way,
        victim: c.victim + 1,
        above: 0,
    }
}

/// The next place of a sketch of so many figures.
pub(crate) fn past_place(c: Cursor, count: usize) -> Cursor
    requires few { c.by < 32 }
    requires inside { IsInside c }
    requires count { count ≤ 32 }
    ensures left { (finds : Finds) → c.by < count → left finds count result ≡ after_place finds count c }
    ensures inside { IsInside result }
    ensures later { number_of c < number_of result }
{
    if (c.above as usize) < count {
        return Cursor {
            by: c.by,
            to: c.to,
            way: c.way,
            victim: c.victim,
            above: c.above + 1,
        };
    }
    past_victim(c)
}
