use board_base::Memory;
use std::alloc::Global;

/// How many places are tried for a key.
const TRIES: usize = 32;

/// Keys that came up before. A table that is full forgets those that come after.
#[derive(Drop)]
pub struct Seen {
    keys: Vec<u64>,
}

impl Seen {
    /// Room for some keys.
    pub fn new(alloc: Global, room: usize) -> Result<Seen, Memory> {
        match vec![in alloc; 0; room] {
            Ok(keys) => Ok(Seen { keys }),
            Err(_) => Err(Memory),
        }
    }

    /// Forgets all keys.
    pub fn clear(&mut self) {
        self.keys.fill(0);
    }

    /// Adds the key; whether it is new, as far as is known.
    pub fn add(&mut self, key: u64) -> bool {
        let key = key.max(1);
        let room = self.keys.len().max(1);
        let start = (key >> 20) as usize % room;
        for place in start..start.saturating_add(TRIES) {
            let Some(kept) = self.keys.get_mut(place) else {
                return true;
            };
            if *kept == key {
                return false;
            }
            if *kept == 0 {
                *kept = key;
                return true;
            }
        }
        true
    }
}
