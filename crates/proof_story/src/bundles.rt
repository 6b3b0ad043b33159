//! How retractions are put together.

use crate::rendering::is_castling;
use crate::stories::{Bundle, Point, Way};
use crate::trees::last_of;
use board_base::{Board, Kind, Move, Unmove};
use castle_history::castle_of;
use std::alloc::{AllocError, Global};

/// A move with those whom it may have captured.
#[derive(Drop)]
struct Taking {
    mv: Move,
    passing: bool,
    castles: bool,
    taken: Vec<Kind>,
}

/// Whether the move is this one, and captured somebody as this one did.
fn goes_with(taking: &Taking, u: &Unmove) -> bool {
    taking.mv == u.mv
        && taking.passing == u.ep
        && !u.ep
        && taking.taken.len() > 0
        && u.captured.is_some()
}

/// Whom the retraction captured on the target, as a list; empty if it captured nobody, or en passant.
fn taken_by(alloc: Global, u: &Unmove) -> Result<Vec<Kind>, AllocError> {
    let mut taken = Vec::new(alloc);
    if let Some(kind) = u.captured {
        if !u.ep {
            taken.push(kind)?;
        }
    }
    Ok(taken)
}

/// Puts the retraction with the last of the moves, if it differs from that only in whom it captured, or else behind them.
fn push_taking(
    alloc: Global,
    board: &Board,
    u: &Unmove,
    out: &mut Vec<Taking>,
) -> Result<(), AllocError> {
    if let Some(last) = out.last_mut() {
        if goes_with(last, u) {
            if let Some(kind) = u.captured {
                last.taken.push(kind)?;
            }
            return Ok(());
        }
    }
    let taken = taken_by(alloc, u)?;
    out.push(Taking {
        mv: u.mv,
        passing: u.ep,
        castles: castle_of(u, board).is_some(),
        taken,
    })?;
    Ok(())
}

/// Puts the move to those of a bundle.
fn push_way(
    alloc: Global,
    board: &Board,
    taking: &Taking,
    ways: &mut Vec<Way>,
) -> Result<(), AllocError> {
    for i in 0..ways.len() {
        let is_same = ways[i].to == taking.mv.to && ways[i].promo == taking.mv.promo;
        if is_same && !taking.castles && !is_castling(board, &ways[i]) {
            ways[i].origins.push(taking.mv.from)?;
            return Ok(());
        }
    }
    let mut origins = Vec::new(alloc);
    origins.push(taking.mv.from)?;
    ways.push(Way {
        to: taking.mv.to,
        promo: taking.mv.promo,
        origins,
    })?;
    Ok(())
}

/// Puts the move to the bundle of those that captured the same men.
fn push_bundled(
    alloc: Global,
    board: &Board,
    taking: Taking,
    bundles: &mut Vec<Bundle>,
) -> Result<(), AllocError> {
    for i in 0..bundles.len() {
        if bundles[i].passing == taking.passing
            && bundles[i].taken.as_slice() == taking.taken.as_slice()
        {
            return push_way(alloc, board, &taking, &mut bundles[i].ways);
        }
    }
    let mut ways = Vec::new(alloc);
    push_way(alloc, board, &taking, &mut ways)?;
    bundles.push(Bundle {
        taken: taking.taken,
        passing: taking.passing,
        ways,
    })?;
    Ok(())
}

/// The retractions that lead to these nodes, which all lead from one query with this board.
pub(crate) fn bundles_of(
    alloc: Global,
    points: &[Point],
    board: &Board,
    nodes: &[usize],
) -> Result<Vec<Bundle>, AllocError> {
    let mut takings = Vec::new(alloc);
    for node in nodes {
        if let Some(u) = last_of(points, *node) {
            push_taking(alloc, board, &u, &mut takings)?;
        }
    }
    let mut bundles = Vec::new(alloc);
    for taking in takings {
        push_bundled(alloc, board, taking, &mut bundles)?;
    }
    Ok(bundles)
}
