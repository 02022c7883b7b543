//! Runs within sixteen bytes, all compared at once.
ghost use Rattle.std.specs.Prelude.{◌+◌, ◌≤◌, length};
ghost use Rattle.juniper_tokens.specs.declared.lexer.run.Run.TheVariants as runs;
ghost use Rattle.juniper_tokens.specs.device.Lanes.{GoesOverLanes};

use crate::lane_mask::{LANES, first_set};
use crate::lexer::run::Run;
use std::simd::prelude::*;

// A byte is among n consecutive ones if it is below n after their first is subtracted, since what is below the first
// wraps. With the bit 0x20 a capital letter is its small one, and no other byte becomes a letter.
#[inline(always)]
fn over_name(bytes: &[u8], at: usize) -> usize
    requires { at + LANES ≤ length bytes.now }
    ensures { GoesOverLanes runs.Name bytes.now at result }
{
    let v = u8x16::from_slice(&bytes[at..]);
    let from_a = (v | u8x16::splat(0x20)) - u8x16::splat(b'a');
    let from_zero = v - u8x16::splat(b'0');
    let stops = from_a.simd_ge(u8x16::splat(26))
        & from_zero.simd_ge(u8x16::splat(10))
        & v.simd_ne(u8x16::splat(b'_'));
    first_set(stops.to_bitmask())
}

#[inline(always)]
fn over_digits(bytes: &[u8], at: usize) -> usize
    requires { at + LANES ≤ length bytes.now }
    ensures { GoesOverLanes runs.Digits bytes.now at result }
{
    let from_zero = u8x16::from_slice(&bytes[at..]) - u8x16::splat(b'0');
    first_set(from_zero.simd_ge(u8x16::splat(10)).to_bitmask())
}

#[inline(always)]
fn over_plain(bytes: &[u8], at: usize) -> usize
    requires { at + LANES ≤ length bytes.now }
    ensures { GoesOverLanes runs.Plain bytes.now at result }
{
    let v = u8x16::from_slice(&bytes[at..]);
    let from_space = v - u8x16::splat(b' ');
    let stops = (from_space.simd_ge(u8x16::splat(0x60)) & v.simd_ne(u8x16::splat(b'\t')))
        | v.simd_eq(u8x16::splat(b'"'))
        | v.simd_eq(u8x16::splat(b'\\'));
    first_set(stops.to_bitmask())
}

#[inline(always)]
fn over_block(bytes: &[u8], at: usize) -> usize
    requires { at + LANES ≤ length bytes.now }
    ensures { GoesOverLanes runs.Block bytes.now at result }
{
    let v = u8x16::from_slice(&bytes[at..]);
    let from_space = v - u8x16::splat(b' ');
    let is_control = from_space.simd_ge(u8x16::splat(0x60))
        & v.simd_ne(u8x16::splat(b'\n'))
        & v.simd_ne(u8x16::splat(b'\t'))
        & v.simd_ne(u8x16::splat(b'\r'));
    let stops = is_control | v.simd_eq(u8x16::splat(b'"')) | v.simd_eq(u8x16::splat(b'\\'));
    first_set(stops.to_bitmask())
}

#[inline(always)]
fn over_line(bytes: &[u8], at: usize) -> usize
    requires { at + LANES ≤ length bytes.now }
    ensures { GoesOverLanes runs.Line bytes.now at result }
{
    let v = u8x16::from_slice(&bytes[at..]);
    let stops = v.simd_ge(u8x16::splat(0x80)) | v.simd_eq(u8x16::splat(b'\n'));
    first_set(stops.to_bitmask())
}

#[inline(always)]
fn over_comment(bytes: &[u8], at: usize) -> usize
    requires { at + LANES ≤ length bytes.now }
    ensures { GoesOverLanes runs.Comment bytes.now at result }
{
    let v = u8x16::from_slice(&bytes[at..]);
    let from_space = v - u8x16::splat(b' ');
    let stops = from_space.simd_ge(u8x16::splat(0x60)) & v.simd_ne(u8x16::splat(b'\t'));
    first_set(stops.to_bitmask())
}

#[inline(always)]
fn over_spaces(bytes: &[u8], at: usize) -> usize
    requires { at + LANES ≤ length bytes.now }
    ensures { GoesOverLanes runs.Spaces bytes.now at result }
{
    let stops = u8x16::from_slice(&bytes[at..]).simd_ne(u8x16::splat(b' '));
    first_set(stops.to_bitmask())
}

/// How many of sixteen bytes, from the first on, are ASCII characters that continue a run.
///
/// An ASCII byte after fewer than sixteen ends the run.
#[inline(always)]
pub(crate) fn over_lanes(run: Run, bytes: &[u8], at: usize) -> usize
    requires { at + LANES ≤ length bytes.now }
    ensures { GoesOverLanes run bytes.now at result }
{
    match run {
        Run::Name => over_name(bytes, at),
        Run::Digits => over_digits(bytes, at),
        Run::Plain => over_plain(bytes, at),
        Run::Block => over_block(bytes, at),
        Run::Line => over_line(bytes, at),
        Run::Comment => over_comment(bytes, at),
        Run::Spaces => over_spaces(bytes, at),
    }
}
