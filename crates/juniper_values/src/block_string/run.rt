//! Runs of characters that end no line of a block string and begin no `\"""`.
ghost use Rattle.std.specs.Prelude.{◌≡◌, ◌+◌, ◌≤◌, length, take, drop};
ghost use Rattle.std.specs.Str.{chars, IsUtf8};
ghost use Rattle.juniper_values.specs.device.BlockSteps.{ends_run, run_length, RunsOver};

use juniper_tokens::lane_mask::{LANES, first_set};
use std::simd::prelude::*;

// Splits a text after its longest prefix without a backslash and without a line end.
pub(crate) fn split_run(text: &str) -> (&str, &str)
    ensures run { chars result.0.now ≡ take (run_length (chars text.now)) (chars text.now) }
    ensures after { chars result.1.now ≡ drop (run_length (chars text.now)) (chars text.now) }
    ensures whole { length text.now ≡ length result.0.now + length result.1.now }
    ensures run_utf8 { IsUtf8 result.0.now }
    ensures after_utf8 { IsUtf8 result.1.now }
{
    text.split_at(run_length(text.as_bytes()))
}

// The number of bytes before the first that ends a run. What ends one is ASCII, so it is a character of its own.
fn run_length(bytes: &[u8]) -> usize
    ensures { result ≡ run_length bytes.now }
{
    let mut i = 0;
    'by_lanes: while bytes.len() - i >= LANES {
        let more = over_lanes(bytes, i);
        i += more;
        if more < LANES {
            return i;
        }
    }
    while i < bytes.len() && !ends_run(bytes[i]) {
        i += 1;
    }
    i
}

// How many of sixteen bytes, compared at once, come before the first that ends a run.
#[inline(always)]
fn over_lanes(bytes: &[u8], at: usize) -> usize
    requires { at + LANES ≤ length bytes.now }
    ensures { RunsOver bytes.now at result }
{
    let v = u8x16::from_slice(&bytes[at..]);
    let ends = v.simd_eq(u8x16::splat(b'\\'))
        | v.simd_eq(u8x16::splat(b'\n'))
        | v.simd_eq(u8x16::splat(b'\r'));
    first_set(ends.to_bitmask())
}

fn ends_run(byte: u8) -> bool
    ensures { result ≡ ends_run byte }
{
    byte == b'\\' || byte == b'\n' || byte == b'\r'
}
