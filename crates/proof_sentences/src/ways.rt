//! Which of the cheapest ways of a side's pawns is told.

ghost use Rattle.std.specs.Prelude.{◌≡◌, ◌+◌, ◌*◌, ◌==◌, ◌∷◌, ◌<◌, ◌≤◌, ◌↔◌, IsTrue, drop, length, slice_index_or, pos, ◌+ℤ◌, ◌<ℤ◌};
ghost use Rattle.std.specs.List.{find};
ghost use Rattle.assignment.specs.Tables.{cost_at};
ghost use Rattle.assignment.specs.Assignments.{IsBounded, IsInjection, assignment_cost, is_among, least_cost, total};
ghost use Rattle.first_pairing.specs.Endings.{injections_ending, items_found};
ghost use Rattle.first_pairing.specs.FirstPairings.{IsFirstPairing};

use arrayvec::ArrayVec;
use board_base::Potentials;
use pawn_assign::{Costs, Least};

/// Whether a pawn began on the file.
fn is_taken(file: u8, files: &ArrayVec<u8, 8>) -> bool
    ensures { result ≡ is_among file files.now.items }
{
    files.as_slice().contains(&file)
}

/// Whether the cost is above the sum of these potentials.
fn is_above(cost: u8, u: i8, v: i8) -> bool
    ensures { IsTrue result ↔ ((u +ℤ v) <ℤ pos cost) }
{
    cost as i16 > u as i16 + v as i16
}

/// Whether the pawn of the row costs more from the file than the potentials of both, so that no cheapest way has it begin there.
fn is_loose(costs: &Costs, p: &Potentials, row: u8, file: u8) -> bool
    requires row { row < length costs.now }
    requires file { file < 8 }
    requires bounded { IsBounded 8 costs.now p.now.u p.now.v }
    ensures { IsTrue result ↔ ((slice_index_or p.now.u row (pos 0) +ℤ slice_index_or p.now.v file (pos 0)) <ℤ pos (cost_at costs.now row file)) }
{
    let u = p.u()[row as usize];
    let v = p.v()[file as usize];
    is_above(costs.cost(row, file), u, v)
}

/// The same files, with one more before them.
fn with_first(file: u8, files: &ArrayVec<u8, 8>) -> ArrayVec<u8, 8>
    requires { length files.now.items < 8 }
    ensures { result.items ≡ file ∷ files.now.items }
{
    let mut all = ArrayVec::new();
    all.push(file);
    for x in files.as_slice() {
        all.push(*x);
    }
    all
}

/// The first of the cheapest ways that end with these files, which cost so much; so many pawns are left.
fn first_ending(
    costs: &Costs,
    least: &Least,
    left: u8,
    files: ArrayVec<u8, 8>,
    spent: u16,
) -> Option<ArrayVec<u8, 8>>
    requires rows { left + length files.items ≡ length costs.now }
    requires few { length costs.now ≤ 8 }
    requires apart { IsInjection 8 (length files.items) files.items }
    requires spent { spent ≡ assignment_cost (drop left costs.now) files.items }
    requires small { spent ≤ 64 * length files.items }
    requires bounded { IsBounded 8 costs.now least.now.potentials.u least.now.potentials.v }
    requires reached { (total least.now.potentials.u +ℤ total least.now.potentials.v) ≡ pos least.now.cost }
    ensures { items_found result ≡ find (λ way. assignment_cost costs.now way == least.now.cost) (injections_ending 8 left files.items) }
{
    if left == 0 {
        return if spent == least.cost {
            Some(files)
        } else {
            None
        };
    }
    for file in 0..8 {
        if is_taken(file, &files) || is_loose(costs, &least.potentials, left - 1, file) {
            continue;
        }
        let more = with_first(file, &files);
        let cost = u16::from(costs.cost(left - 1, file));
        if let Some(way) = first_ending(costs, least, left - 1, more, spent + cost) {
            return Some(way);
        }
    }
    None
}

/// The first of all cheapest ways: for each pawn its file.
pub(crate) fn cheapest_way(costs: &Costs, least: &Least) -> ArrayVec<u8, 8>
    requires least { least.now.cost ≡ least_cost 8 costs.now }
    requires bounded { IsBounded 8 costs.now least.now.potentials.u least.now.potentials.v }
    requires reached { (total least.now.potentials.u +ℤ total least.now.potentials.v) ≡ pos least.now.cost }
    ensures injection { IsInjection 8 (length costs.now) result.items }
    ensures cost { least.now.cost ≡ assignment_cost costs.now result.items }
    ensures first { IsFirstPairing 8 costs.now result.items }
{
    first_ending(costs, least, costs.rows(), ArrayVec::new(), 0).unwrap()
}
