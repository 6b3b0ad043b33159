ghost use Rattle.std.specs.Prelude.{◌≡◌, ◌<◌, ◌≤◌, ◌==◌, if◌then◌else◌, length, slice_index, take};
ghost use Rattle.std.specs.Int.{trailing_zeros, w64};
ghost use Rattle.cert_checker.specs.Staging.{IsPart, NoEnd};

use memchr::memchr;
use std::simd::prelude::*;

/// The place of the lowest bit of the mask that is set, or 16 if none is.
#[inline(always)]
fn lowest(mask: u64) -> usize
    ensures { result ≡ if mask == 0 then 16 else trailing_zeros w64 mask }
{
    if mask == 0 {
        16
    } else {
        mask.trailing_zeros() as usize
    }
}

/// How many of the first 16 bytes come before the first that ends a line.
#[inline(always)]
fn before_end(bytes: &[u8]) -> usize
    requires { 16 ≤ length bytes.now }
    ensures within { result ≤ 16 }
    ensures before { NoEnd (take result bytes.now) }
    ensures end { result < 16 → slice_index bytes.now result ≡ 10 }
{
    let ends = u8x16::from_slice(bytes).simd_eq(u8x16::splat(b'\n'));
    lowest(ends.to_bitmask())
}

/// How many of the bytes are of the first line, with its end, and whether they end it.
// The end of a short line is near, and `memchr` looks at 64 bytes for it.
#[inline(always)]
pub(crate) fn first_part(bytes: &[u8]) -> (usize, bool)
    requires { 0 < length bytes.now }
    ensures within { result.0 ≤ length bytes.now }
    ensures some { 0 < result.0 }
    ensures part { IsPart result.1 (take result.0 bytes.now) }
{
    if bytes.len() >= 16 {
        let near = before_end(bytes);
        if near < 16 {
            return (near + 1, true);
        }
    }
    match memchr(b'\n', bytes) {
        Some(i) => (i + 1, true),
        None => (bytes.len(), false),
    }
}
