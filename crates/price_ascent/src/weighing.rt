ghost use Rattle.std.specs.Prelude.{IfSome, ◌<◌};

use crate::places::free_on;
use crate::tallies::Tally;
use arrayvec::ArrayVec;
use board_base::Colour;

/// The sum of the weights of a side's tallies.
pub const WHOLE: i32 = 16_384;

/// Up to which price the weighing shows that no prices do.
const GRAIN: i32 = 16;

/// How often weight is shifted after each new tally.
const STEPS: u32 = 40;

/// A tally of a side and how much it weighs.
#[derive(Clone, Copy, Default)]
struct Weighed {
    tally: Tally,
    weight: i32,
}

/// What the tallies say on a place, White's and Black's each in their order, and what is paid there by their weights beyond what is
/// earned and what is free.
#[derive(Clone, Copy, Default)]
struct Column {
    place: u8,
    white: [i8; 16],
    black: [i8; 16],
    owed: i32,
}

/// Tallies that were seen, those of each side apart, with weights. The cost at any prices is at most what each tally of White with each
/// of Black comes to. So if these by their weights owe too little on all places together, low prices don't support the query.
#[derive(Drop)]
pub struct Weighing {
    white: SideSeen,
    black: SideSeen,
    /// The places on which something may be owed.
    columns: ArrayVec<Column, 96>,
}

/// The place of the lightest of these in their order.
fn lightest(seen: &[Weighed]) -> usize {
    let mut at = 0;
    let mut least = i32::MAX;
    for (i, x) in seen.iter().enumerate() {
        if x.weight < least {
            at = i;
            least = x.weight;
        }
    }
    at
}

/// What the tallies of a side say on a place, in their order, and the greatest of these numbers, at least 0.
#[derive(Clone, Copy, Default)]
struct Said {
    each: [i8; 16],
    most: i8,
}

/// The tallies of a side that were seen, and what they say by places.
#[derive(Drop)]
struct SideSeen {
    tallies: ArrayVec<Weighed, 16>,
    said: [Said; 96],
}

impl SideSeen {
    /// No tallies were seen.
    fn new() -> SideSeen {
        SideSeen {
            tallies: ArrayVec::new(),
            said: [Said::default(); 96],
        }
    }

    /// Adds a tally that isn't there. The first has the whole weight and the next have none; if there is no more room the lightest
    /// makes way, and leaves its weight.
    fn add(&mut self, tally: &Tally) {
        if self.tallies.iter().any(|x| x.tally == *tally) {
            return;
        }
        let at = self.tallies.len();
        let weight = if at == 0 { WHOLE } else { 0 };
        let tally = *tally;
        if self.tallies.try_push(Weighed { tally, weight }).is_ok() {
            for (said, times) in self.said.iter_mut().zip(&tally.times) {
                said.say(at, *times);
            }
        } else {
            self.replace_lightest(&tally);
        }
    }

    /// Puts a tally where the lightest was.
    fn replace_lightest(&mut self, tally: &Tally) {
        let at = lightest(self.tallies.as_slice());
        if let Some(x) = self.tallies.get_mut(at) {
            x.tally = *tally;
        }
        for (said, times) in self.said.iter_mut().zip(&tally.times) {
            said.say(at, *times);
            said.most = peak(&said.each);
        }
    }

    /// The sum of what the tallies say on a place, by their weights.
    fn weighted(&self, place: usize) -> i32
        requires { place < 96 }
    {
        let mut sum = 0i32;
        for (x, times) in self.tallies.iter().zip(&self.said[place].each) {
            sum = sum.wrapping_add(x.weight.wrapping_mul(i32::from(*times)));
        }
        sum
    }
}

impl Said {
    /// Lets the tally that is so far in their order say this.
    fn say(&mut self, at: usize, times: i8) {
        if let Some(x) = self.each.get_mut(at) {
            *x = times;
        }
        self.most = self.most.max(times);
    }
}

/// The greatest of these numbers, at least 0.
fn peak(numbers: &[i8; 16]) -> i8 {
    let mut most = 0;
    for x in numbers {
        most = most.max(*x);
    }
    most
}

/// What is owed on all places together, of those where anything is.
fn unpaid(columns: &[Column]) -> i32 {
    let mut sum = 0i32;
    for column in columns {
        sum = sum.wrapping_add(column.owed.max(0));
    }
    sum
}

impl Column {
    /// What the tallies of a side say.
    fn of(&self, side: Colour) -> &[i8; 16] {
        match side {
            Colour::White => &self.white,
            Colour::Black => &self.black,
        }
    }

    /// By how much one tally of a side is above another.
    fn rise(&self, side: Colour, from: usize, to: usize) -> i32
        requires from { from < 16 }
        requires to { to < 16 }
    {
        let told = self.of(side);
        i32::from(told[to]).wrapping_sub(i32::from(told[from]))
    }
}

/// What each of the first tallies of a side owes on the places where anything is owed.
fn dues(columns: &[Column], side: Colour, count: usize) -> [i32; 16] {
    let mut sums = [0i32; 16];
    for column in columns {
        if column.owed > 0 {
            for (sum, x) in sums.iter_mut().zip(column.of(side)).take(count) {
                *sum = sum.wrapping_add(column.owed.wrapping_mul(i32::from(*x)));
            }
        }
    }
    sums
}

/// A shift of weight: from which tally to which, and by how much less is owed there.
#[derive(Clone, Copy)]
struct Shift {
    from: usize,
    to: usize,
    gain: i32,
}

/// From the tally that owes the most of those that have weight to that which owes the least; None if that gains nothing.
fn best_shift(seen: &[Weighed], dues: &[i32; 16]) -> Option<Shift>
    ensures { IfSome result (λ shift. (shift.from < 16) × (shift.to < 16)) }
{
    let mut from = 0;
    let mut to = 0;
    let mut most = i32::MIN;
    let mut least = i32::MAX;
    for i in 0..16 {
        if i < seen.len() {
            if dues[i] < least {
                to = i;
                least = dues[i];
            }
            if seen[i].weight > 0 && dues[i] > most {
                from = i;
                most = dues[i];
            }
        }
    }
    let gain = most.wrapping_sub(least);
    if most <= least {
        None
    } else {
        Some(Shift { from, to, gain })
    }
}

/// The sum of the squares by which the two tallies differ, on the places where that counts.
fn square_sum(columns: &[Column], side: Colour, shift: Shift) -> i32
    requires from { shift.from < 16 }
    requires to { shift.to < 16 }
{
    let mut sum = 0i32;
    for column in columns {
        let rise = column.rise(side, shift.from, shift.to);
        if column.owed > 0 || (rise > 0 && column.owed > -WHOLE / 8) {
            sum = sum.wrapping_add(rise.wrapping_mul(rise));
        }
    }
    sum
}

/// How much weight goes over: at most what there is.
fn amount(gain: i32, squares: i32, weight: i32) -> i32 {
    if squares <= 1 {
        gain.min(weight)
    } else {
        (gain / squares).min(weight)
    }
}

/// Shifts weight between two tallies of a side; false if none goes over.
fn shift_weight(
    seen: &mut ArrayVec<Weighed, 16>,
    columns: &mut ArrayVec<Column, 96>,
    side: Colour,
) -> bool {
    let Some(shift) = best_shift(seen.as_slice(), &dues(columns.as_slice(), side, seen.len()))
    else {
        return false;
    };
    let squares = square_sum(columns.as_slice(), side, shift);
    let Some(giver) = seen.get_mut(shift.from) else {
        return false;
    };
    let by = amount(shift.gain, squares, giver.weight);
    if by <= 0 {
        return false;
    }
    giver.weight = giver.weight.wrapping_sub(by);
    if let Some(taker) = seen.get_mut(shift.to) {
        taker.weight = taker.weight.wrapping_add(by);
    }
    for column in columns.iter_mut() {
        let rise = column.rise(side, shift.from, shift.to);
        column.owed = column.owed.wrapping_add(by.wrapping_mul(rise));
    }
    true
}

impl Weighing {
    /// No tallies were seen.
    pub fn new() -> Weighing {
        Weighing {
            white: SideSeen::new(),
            black: SideSeen::new(),
            columns: ArrayVec::new(),
        }
    }

    /// What the tallies say on a place.
    fn column_at(&self, place: u8) -> Column
        requires { place < 96 }
    {
        let at = place as usize;
        let free = WHOLE.wrapping_mul(free_on(at));
        let paid = self
            .white
            .weighted(at)
            .wrapping_add(self.black.weighted(at));
        Column {
            place,
            white: self.white.said[at].each,
            black: self.black.said[at].each,
            owed: paid.wrapping_sub(free),
        }
    }

    /// Whether something may be owed on a place.
    fn may_owe(&self, place: usize) -> bool
        requires { place < 96 }
    {
        let white = i32::from(self.white.said[place].most);
        let black = i32::from(self.black.said[place].most);
        white.wrapping_add(black) > free_on(place)
    }

    /// Adds a tally of each side.
    pub fn add(&mut self, white: &Tally, black: &Tally) {
        self.white.add(white);
        self.black.add(black);
        self.columns.clear();
        for place in 0..96 {
            if self.may_owe(place as usize) {
                let column = self.column_at(place);
                let _ = self.columns.try_push(column);
            }
        }
    }

    /// What is owed on the places of captures.
    pub fn needs(&self) -> [i32; 32] {
        let mut all = [0; 32];
        for column in &self.columns {
            if column.place < 32 {
                all[column.place as usize] = column.owed;
            }
        }
        all
    }

    /// Whether so little is owed that no low prices support the query.
    fn is_paid(&self) -> bool {
        GRAIN.wrapping_mul(unpaid(self.columns.as_slice())) < WHOLE
    }

    /// Shifts weight to and fro so that less is owed, and says whether no low prices support the query.
    pub fn weigh(&mut self) -> bool {
        let mut idle = false;
        let mut side = Colour::White;
        for _ in 0..STEPS {
            if self.is_paid() {
                return true;
            }
            let shifted = match side {
                Colour::White => shift_weight(&mut self.white.tallies, &mut self.columns, side),
                Colour::Black => shift_weight(&mut self.black.tallies, &mut self.columns, side),
            };
            if !shifted && idle {
                return false;
            }
            idle = !shifted;
            side = side.other();
        }
        self.is_paid()
    }
}
