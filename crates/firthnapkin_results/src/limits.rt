//! The limits of a call.
ghost use Rattle.std.specs.Prelude.{◌≡◌, ◌<◌, ◌^◌, length, true, false};
ghost use Rattle.firthnapkin_results.specs.Limits.{AreValid, AreInvalid};

use crate::status::TOO_LONG_FROM;

/// The largest depth that a call takes: a text nested that deep takes some 2 MB of the machine's stack.
pub const MAX_DEPTH: u32 = 1000;

/// The limits of a call, as C gives them.
#[repr(C)]
#[derive(Clone, Copy)]
pub struct Limits {
    /// How deep brackets may be nested: 0 to `MAX_DEPTH`.
    pub depth: u32,
    /// How many tokens a source may have, its end not counted. No source that a call reads has more than the largest
    /// number.
    pub tokens: u32,
    /// Words of limits to come, in which 0 is no limit.
    pub reserved: [u32; 6],
}

/// Returns whether a call refuses its limits: the depth is above `MAX_DEPTH`, or a reserved word isn't 0. A source that
/// is too long is reported before that, so then it returns false.
pub fn are_refused(source: &[u8], limits: &Limits) -> bool
    ensures refused { result ≡ true → AreInvalid limits.now × (length source.now < 2 ^ 32) }
    ensures taken { result ≡ false → length source.now < 2 ^ 32 → AreValid limits.now }
{
    source.len() < TOO_LONG_FROM && (MAX_DEPTH < limits.depth || limits.reserved != [0; 6])
}
