ghost use Rattle.std.specs.Prelude.{◌≡◌, ◌==◌, [], MatchOption};
ghost use Rattle.std.specs.List.{list_any};
ghost use Rattle.cert_checker.specs.Sketches.{files_of};
ghost use Rattle.sketch_search.specs.Plain.{no_files};

use arrayvec::ArrayVec;
use sketch_text::SketchHead;

/// The numbers of the exact files, from 0 for a to 7 for h.
fn numbers_of(exact: &[bool; 8]) -> ArrayVec<u8, 8> {
    let mut numbers = ArrayVec::new();
    for file in 0..8u8 {
        if exact[file as usize] {
            let _ = numbers.try_push(file);
        }
    }
    numbers
}

/// The first line of a sketch with these exact files, from a to h, without prices.
pub(crate) fn head_with(exact: &[bool; 8]) -> Option<SketchHead>
    ensures { exact.now ≡ no_files → MatchOption result ⊥ (λ head. head.files ≡ []) }
{
    if *exact == [false; 8] {
        return SketchHead::new(0, &[]);
    }
    SketchHead::new(0, numbers_of(exact).as_slice())
}

fn has_file(files: &[u8], file: u8) -> bool
    ensures { result ≡ list_any (λ n. n == file) files.now }
{
    files.iter().any(|n| *n == file)
}

/// The files with these numbers, from 0 for a to 7 for h.
pub(crate) fn exact_files(files: &[u8]) -> [bool; 8]
    ensures { result ≡ files_of files.now }
{
    [
        has_file(files, 0),
        has_file(files, 1),
        has_file(files, 2),
        has_file(files, 3),
        has_file(files, 4),
        has_file(files, 5),
        has_file(files, 6),
        has_file(files, 7),
    ]
}
