use board_base::Memory;
use std::alloc::Global;

/// The end of a list.
const END: u32 = u32::MAX;

/// Numbers in buckets by value. Of a bucket the number that was put in last comes first.
#[derive(Drop)]
pub struct Buckets {
    /// Of each value the number on top, or `END`.
    tops: Vec<u32>,
    /// Of each value how many numbers it has.
    counts: Vec<u32>,
    /// Of each number the one beneath it, or `END`.
    beneath: Vec<u32>,
    /// No lower value has a number.
    lowest: usize,
}

impl Buckets {
    /// So many empty buckets.
    pub fn new(alloc: Global, number: usize) -> Result<Buckets, Memory> {
        match (vec![in alloc; END; number], vec![in alloc; 0; number]) {
            (Ok(tops), Ok(counts)) => Ok(Buckets {
                tops,
                counts,
                beneath: Vec::new(alloc),
                lowest: 0,
            }),
            _ => Err(Memory),
        }
    }

    /// Empties them all.
    pub fn clear(&mut self) {
        self.tops.fill(END);
        self.counts.fill(0);
        self.beneath.clear();
        self.lowest = 0;
    }

    /// Puts the number on top of the bucket of this value, or of the last one. Numbers are first put in as they ascend from 0; one that
    /// was taken out may be put in again.
    pub fn put(&mut self, value: usize, number: u32) -> Result<(), Memory> {
        let value = value.min(self.tops.len().saturating_sub(1));
        let Some(top) = self.tops.get_mut(value) else {
            return Ok(());
        };
        let under = *top;
        *top = number;
        if let Some(count) = self.counts.get_mut(value) {
            *count = count.saturating_add(1);
        }
        self.lowest = self.lowest.min(value);
        match self.beneath.get_mut(number as usize) {
            Some(beneath) => *beneath = under,
            None => {
                if self.beneath.push(under).is_err() {
                    return Err(Memory);
                }
            }
        }
        Ok(())
    }

    /// The lowest value of a bucket that isn't empty.
    pub fn lowest(&mut self) -> Option<usize> {
        for value in self.lowest..self.tops.len() {
            if self.is_filled(value) {
                self.lowest = value;
                return Some(value);
            }
        }
        None
    }

    /// The first value from the one to before the other whose bucket isn't empty.
    pub fn filled_between(&self, from: usize, end: usize) -> Option<usize> {
        (from..end).find(|value| self.is_filled(*value))
    }

    fn is_filled(&self, value: usize) -> bool {
        match self.tops.get(value) {
            Some(top) => *top != END,
            None => false,
        }
    }

    /// How many numbers the bucket has.
    pub fn count(&self, value: usize) -> u32 {
        self.counts.get(value).copied().unwrap_or(0)
    }

    fn under(&self, number: u32) -> u32 {
        self.beneath.get(number as usize).copied().unwrap_or(END)
    }

    /// Takes the number out that has so many above it in its bucket, or else the lowest one.
    pub fn take(&mut self, value: usize, above: u32) -> Option<u32> {
        let mut over = END;
        let mut number = self.tops.get(value).copied().unwrap_or(END);
        for _ in 0..above {
            let next = self.under(number);
            if next == END {
                break;
            }
            over = number;
            number = next;
        }
        if number == END {
            return None;
        }
        self.unlink(value, over, number);
        Some(number)
    }

    fn unlink(&mut self, value: usize, over: u32, number: u32) {
        let under = self.under(number);
        if let Some(beneath) = self.beneath.get_mut(over as usize) {
            *beneath = under;
        } else if let Some(top) = self.tops.get_mut(value) {
            *top = under;
        }
        if let Some(count) = self.counts.get_mut(value) {
            *count = count.saturating_sub(1);
        }
    }
}
