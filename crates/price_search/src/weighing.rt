ghost use Rattle.std.specs.Prelude.{IfSome, ◌<◌, ◌≤◌};

use crate::places::free_on;
use crate::tallies::Tally;
use board_base::Colour;

/// The sum of the weights of a side's tallies.
pub(crate) const WHOLE: i32 = 16_384;

/// Up to which price the weighing shows that no prices do.
const GRAIN: i32 = 8;

/// How often weight is shifted after each new tally.
const STEPS: u32 = 40;

/// What each of at most sixteen tallies says on a place, in the order of the tallies.
type Row = [i8; 16];

/// Tallies of a side that were seen, in order, each with its weight.
#[derive(Drop)]
struct SideSeen {
    /// How many there are, at most sixteen.
    count: usize,
    /// What they say, by places.
    times: [Row; 96],
    weights: [i32; 16],
    /// By places, the greatest number that a tally says, at least 0.
    most: [i8; 96],
    /// By places, whether the tallies say different numbers.
    differs: [bool; 96],
}

/// The places on which something may be owed and the tallies of a side differ: what is owed there by their weights, beyond what is earned
/// and what is free, and what each tally says, in the order of the places.
#[derive(Drop)]
struct Scale {
    count: usize,
    places: [u8; 96],
    owed: [i32; 96],
    white: [Row; 96],
    black: [Row; 96],
}

/// Tallies that were seen, those of each side apart, with weights. The cost at any prices is at most what each tally of White with each
/// of Black comes to. So if these by their weights owe too little on all places together, low prices don't support the query.
#[derive(Drop)]
pub(crate) struct Weighing {
    white: SideSeen,
    black: SideSeen,
    scale: Scale,
    /// What is owed on the other places together, of those where anything is.
    fixed: i32,
    /// What is owed on the places of captures, if the tallies of each side say the same.
    needs: [i32; 32],
}

/// The place of the lightest tally in their order.
fn lightest(weights: &[i32; 16]) -> usize
    ensures { result < 16 }
{
    let mut at = 0;
    let mut least = i32::MAX;
    for i in 0..16 {
        if weights[i] < least {
            at = i;
            least = weights[i];
        }
    }
    at
}

/// The greatest of these numbers and 0.
fn greatest_of(row: &Row) -> i8 {
    let mut most = 0;
    for i in 0..16 {
        most = row[i].max(most);
    }
    most
}

/// Whether these numbers aren't all the same.
fn is_mixed(row: &Row) -> bool {
    let mut mixed = false;
    for i in 0..16 {
        mixed |= row[i] != row[0];
    }
    mixed
}

/// What the first tallies say on a place, by their weights.
fn weighted(row: &Row, weights: &[i32; 16], count: usize) -> i32 {
    let mut sum = 0i32;
    for i in 0..16 {
        if i >= count {
            break;
        }
        sum = sum.wrapping_add(weights[i].wrapping_mul(i32::from(row[i])));
    }
    sum
}

/// Adds what each of the first tallies says on a place, so many times.
fn add_times(sums: &mut [i32; 16], row: &Row, by: i32, count: usize) {
    for i in 0..16 {
        if i >= count {
            break;
        }
        sums[i] = sums[i].wrapping_add(by.wrapping_mul(i32::from(row[i])));
    }
}

impl SideSeen {
    /// No tallies were seen.
    fn new() -> SideSeen {
        SideSeen {
            count: 0,
            times: [[0; 16]; 96],
            weights: [0; 16],
            most: [0; 96],
            differs: [false; 96],
        }
    }

    /// Whether the tally in this place is the same.
    fn is_at(&self, at: usize, tally: &Tally) -> bool
        requires { at < 16 }
    {
        for k in 0..96 {
            if self.times[k][at] != tally.times[k] {
                return false;
            }
        }
        true
    }

    /// Whether a tally is there.
    fn has(&self, tally: &Tally) -> bool {
        for at in 0..16 {
            if at < self.count && self.is_at(at, tally) {
                return true;
            }
        }
        false
    }

    /// What the tallies say on a place, by their weights.
    fn weighted(&self, place: usize) -> i32
        requires { place < 96 }
    {
        weighted(&self.times[place], &self.weights, self.count)
    }

    /// Adds a tally that isn't there. The first has the whole weight and the next have none; if there is no more room the lightest
    /// makes way, and leaves its weight.
    fn add(&mut self, tally: &Tally) {
        if self.has(tally) {
            return;
        }
        if self.count == 0 {
            self.weights[0] = WHOLE;
        }
        let at = self.count;
        if at < 16 {
            self.count = at + 1;
            self.put(at, tally);
            self.compare(tally);
        } else {
            let at = lightest(&self.weights);
            self.put(at, tally);
            self.compare_all();
        }
    }

    /// Puts a tally in the place of another.
    fn put(&mut self, at: usize, tally: &Tally)
        requires { at < 16 }
    {
        for k in 0..96 {
            self.times[k][at] = tally.times[k];
        }
    }

    /// Notes how a tally compares with the others.
    fn compare(&mut self, tally: &Tally) {
        for k in 0..96 {
            self.most[k] = self.most[k].max(tally.times[k]);
            self.differs[k] |= tally.times[k] != self.times[k][0];
        }
    }

    /// Notes how sixteen tallies compare.
    fn compare_all(&mut self) {
        for k in 0..96 {
            let row = &self.times[k];
            self.most[k] = greatest_of(row);
            self.differs[k] = is_mixed(row);
        }
    }
}

impl Scale {
    /// There are no places.
    fn new() -> Scale {
        Scale {
            count: 0,
            places: [0; 96],
            owed: [0; 96],
            white: [[0; 16]; 96],
            black: [[0; 16]; 96],
        }
    }

    /// How many places there are.
    fn len(&self) -> usize
        ensures { result ≤ 96 }
    {
        self.count.min(96)
    }

    /// Adds a place on which so much is owed and the tallies of each side say this.
    fn add_place(&mut self, place: u8, owed: i32, white: &Row, black: &Row) {
        if self.count < 96 {
            self.places[self.count] = place;
            self.owed[self.count] = owed;
            self.white[self.count] = *white;
            self.black[self.count] = *black;
            self.count += 1;
        }
    }

    /// What is owed on all places together, of those where anything is.
    fn unpaid(&self) -> i32 {
        let mut sum = 0i32;
        for x in 0..self.len() {
            sum = sum.wrapping_add(self.owed[x].max(0));
        }
        sum
    }

    /// What the tallies of a side say.
    fn rows(&self, side: Colour) -> &[Row; 96] {
        match side {
            Colour::White => &self.white,
            Colour::Black => &self.black,
        }
    }

    /// What each of the first tallies of a side owes on the places where anything is owed.
    fn dues(&self, side: Colour, count: usize) -> [i32; 16] {
        let rows = self.rows(side);
        let mut sums = [0i32; 16];
        for x in 0..self.len() {
            if self.owed[x] > 0 {
                add_times(&mut sums, &rows[x], self.owed[x], count);
            }
        }
        sums
    }

    /// By how much one tally of a side is above another, by the places.
    fn rises(&self, side: Colour, shift: Shift) -> [i32; 96]
        requires from { shift.from < 16 }
        requires to { shift.to < 16 }
    {
        let rows = self.rows(side);
        let mut rises = [0; 96];
        for x in 0..self.len() {
            rises[x] = i32::from(rows[x][shift.to]).wrapping_sub(i32::from(rows[x][shift.from]));
        }
        rises
    }

    /// The sum of the squares of these rises, on the places where that counts.
    fn square_sum(&self, rises: &[i32; 96]) -> i32 {
        let mut sum = 0i32;
        for x in 0..self.len() {
            let rise = rises[x];
            if self.owed[x] > 0 || (rise > 0 && self.owed[x] > -WHOLE / 8) {
                sum = sum.wrapping_add(rise.wrapping_mul(rise));
            }
        }
        sum
    }

    /// Lets what is owed rise so many times.
    fn raise(&mut self, rises: &[i32; 96], by: i32) {
        for x in 0..self.len() {
            self.owed[x] = self.owed[x].wrapping_add(by.wrapping_mul(rises[x]));
        }
    }
}

/// A shift of weight: from which tally to which, and by how much less is owed there.
#[derive(Clone, Copy)]
struct Shift {
    from: usize,
    to: usize,
    gain: i32,
}

/// From the tally that owes the most of those that have weight to that which owes the least; None if that gains nothing.
fn best_shift(weights: &[i32; 16], count: usize, dues: &[i32; 16]) -> Option<Shift>
    ensures { IfSome result (λ shift. (shift.from < 16) × (shift.to < 16)) }
{
    let mut from = 0;
    let mut to = 0;
    let mut most = i32::MIN;
    let mut least = i32::MAX;
    for i in 0..16 {
        if i < count {
            if dues[i] < least {
                to = i;
                least = dues[i];
            }
            if weights[i] > 0 && dues[i] > most {
                from = i;
                most = dues[i];
            }
        }
    }
    let gain = most.wrapping_sub(least);
    if most <= least {
        None
    } else {
        Some(Shift { from, to, gain })
    }
}

/// How much weight goes over: at most what there is.
fn amount(gain: i32, squares: i32, weight: i32) -> i32 {
    if squares <= 1 {
        gain.min(weight)
    } else {
        (gain / squares).min(weight)
    }
}

/// Shifts weight between two tallies of a side; false if none goes over.
fn shift_weight(seen: &mut SideSeen, scale: &mut Scale, side: Colour) -> bool {
    let Some(shift) = best_shift(&seen.weights, seen.count, &scale.dues(side, seen.count)) else {
        return false;
    };
    let rises = scale.rises(side, shift);
    let by = amount(
        shift.gain,
        scale.square_sum(&rises),
        seen.weights[shift.from],
    );
    if by <= 0 {
        return false;
    }
    seen.weights[shift.from] = seen.weights[shift.from].wrapping_sub(by);
    seen.weights[shift.to] = seen.weights[shift.to].wrapping_add(by);
    scale.raise(&rises, by);
    true
}

impl Weighing {
    /// No tallies were seen.
    pub(crate) fn new() -> Weighing {
        Weighing {
            white: SideSeen::new(),
            black: SideSeen::new(),
            scale: Scale::new(),
            fixed: 0,
            needs: [0; 32],
        }
    }

    /// What is owed on a place, whether or not that can ever be more than nothing.
    fn owed_on(&self, place: usize) -> i32
        requires { place < 96 }
    {
        let white = self.white.weighted(place);
        let black = self.black.weighted(place);
        let free = WHOLE.wrapping_mul(free_on(place));
        white.wrapping_add(black).wrapping_sub(free)
    }

    /// Whether something may be owed on a place.
    fn may_owe(&self, place: usize) -> bool
        requires { place < 96 }
    {
        let white = i32::from(self.white.most[place]);
        let black = i32::from(self.black.most[place]);
        white.wrapping_add(black) > free_on(place)
    }

    /// Adds a tally of each side.
    pub(crate) fn add(&mut self, white: &Tally, black: &Tally) {
        self.white.add(white);
        self.black.add(black);
        self.sort_places();
    }

    /// Puts the places on which something may be owed and tallies differ on the scale, and sums up the others.
    fn sort_places(&mut self) {
        self.scale.count = 0;
        self.fixed = 0;
        self.needs = [0; 32];
        for k in 0..96 {
            if self.may_owe(k) {
                self.sort_place(k);
            }
        }
    }

    /// Puts a place on the scale if tallies differ there, or adds what is owed there.
    fn sort_place(&mut self, k: usize)
        requires { k < 96 }
    {
        let owed = self.owed_on(k);
        if self.white.differs[k] || self.black.differs[k] {
            let white = &self.white.times[k];
            let black = &self.black.times[k];
            self.scale.add_place(k as u8, owed, white, black);
        } else {
            self.fixed = self.fixed.wrapping_add(owed.max(0));
            if k < 32 {
                self.needs[k] = owed;
            }
        }
    }

    /// What is owed on the places of captures.
    pub(crate) fn needs(&self) -> [i32; 32] {
        let mut all = self.needs;
        for x in 0..self.scale.len() {
            let place = self.scale.places[x] as usize;
            if place < 32 {
                all[place] = self.scale.owed[x];
            }
        }
        all
    }

    /// Whether so little is owed that no low prices support the query.
    fn is_paid(&self) -> bool {
        GRAIN.wrapping_mul(self.fixed.wrapping_add(self.scale.unpaid())) < WHOLE
    }

    /// Shifts weight to and fro so that less is owed, and says whether no low prices support the query.
    pub(crate) fn weigh(&mut self) -> bool {
        let mut idle = false;
        let mut side = Colour::White;
        for _ in 0..STEPS {
            if self.is_paid() {
                return true;
            }
            let shifted = match side {
                Colour::White => shift_weight(&mut self.white, &mut self.scale, side),
                Colour::Black => shift_weight(&mut self.black, &mut self.scale, side),
            };
            if !shifted && idle {
                return false;
            }
            idle = !shifted;
            side = side.other();
        }
        self.is_paid()
    }
}
