ghost use Rattle.std.specs.Prelude.{◌<◌, IfSome};

use home_ways::file_set;

/// The squares of which file and rank have an odd sum, counted from 0.
const ODD: u64 = 0x55aa_55aa_55aa_55aa;

/// The classes of the squares of a set: two bits a file, for its two shades.
pub(crate) fn classes_of(set: u64) -> u16 {
    let mut classes = 0u16;
    for file in 0..8usize {
        let squares = set & file_set(file);
        if squares & !ODD != 0 {
            classes |= 1 << (2 * file);
        }
        if squares & ODD != 0 {
            classes |= 2 << (2 * file);
        }
    }
    classes
}

/// The greatest of these numbers of classes, at least 0.
pub(crate) fn most_of(numbers: &[i32; 16], classes: u16) -> i32 {
    let mut most = 0;
    for class in 0..16usize {
        if classes >> class & 1 == 1 {
            most = numbers[class].max(most);
        }
    }
    most
}

/// One of these classes of whose numbers none is greater, and of such one with the greatest need; None if that number is 0.
pub(crate) fn neediest_class(numbers: &[i32; 16], needs: &[i32; 16], classes: u16) -> Option<usize>
    ensures { IfSome result (λ class. class < 16) }
{
    let mut best: Option<usize> = None;
    let mut most = 1;
    let mut need = i32::MIN;
    for class in 0..16usize {
        let better = numbers[class] > most || (numbers[class] == most && needs[class] > need);
        if better && classes >> class & 1 == 1 {
            best = Some(class);
            most = numbers[class];
            need = needs[class];
        }
    }
    best
}
