ghost use Rattle.std.specs.Prelude.{◌<◌, IfSome};

use crate::lands::Classes;

/// One of these classes of whose numbers none is greater, and of such one with the greatest need; None if that number is 0.
pub(crate) fn neediest_class(takes: &[u8; 16], needs: &[i32; 16], within: &Classes) -> Option<usize>
    ensures { IfSome result (λ class. class < 16) }
{
    let mut best: Option<usize> = None;
    let mut most = 1;
    let mut need = i32::MIN;
    for class in 0..16 {
        let better = takes[class] > most || (takes[class] == most && needs[class] > need);
        if better && within[class] != 0 {
            best = Some(class);
            most = takes[class];
            need = needs[class];
        }
    }
    best
}
