use figures::Sketch;

/// The lines of prices, at most eight, by which figures are marked one after another.
#[derive(Clone, Copy)]
pub struct Marking {
    lines: [u32; 8],
    count: usize,
}

impl Marking {
    /// No line.
    pub fn new() -> Marking {
        Marking {
            lines: [0; 8],
            count: 0,
        }
    }

    /// Whether there is no room for a line.
    pub(crate) fn is_full(&self) -> bool {
        self.count >= 8
    }

    /// Puts a line behind the others, if there is room.
    pub(crate) fn push(&mut self, line: u32) {
        if self.count < 8 {
            self.lines[self.count] = line;
            self.count += 1;
        }
    }

    /// The line in this place.
    pub fn get(&self, place: usize) -> Option<u32> {
        if place < self.count && place < 8 {
            Some(self.lines[place])
        } else {
            None
        }
    }

    /// How many lines there are.
    pub(crate) fn len(&self) -> usize {
        self.count
    }

    /// The others than the line in this place.
    pub(crate) fn without(&self, place: usize) -> Marking {
        let mut less = Marking::new();
        for i in 0..8usize {
            if i < self.count && i != place {
                less.push(self.lines[i]);
            }
        }
        less
    }
}

/// The sketch with marks for the figures with these numbers, counted from 1.
pub fn with_marks(sketch: &Sketch, numbers: &[u8]) -> Sketch {
    let mut made = Sketch::new();
    for i in 0..32usize {
        if let Some(mut figure) = sketch.get(i) {
            figure.marked = figure.marked || numbers.iter().any(|n| *n as usize == i + 1);
            if made.len() < 32 {
                made.push(figure);
            }
        }
    }
    made
}

/// The first sketch, with the marks of the other's figures.
pub fn with_marks_of(wide: &Sketch, sketch: &Sketch) -> Sketch {
    let mut made = Sketch::new();
    for i in 0..32usize {
        if let Some(mut figure) = wide.get(i) {
            if let Some(below) = sketch.get(i) {
                figure.marked = below.marked;
            }
            if made.len() < 32 {
                made.push(figure);
            }
        }
    }
    made
}
