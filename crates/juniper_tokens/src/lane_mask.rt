//! What a comparison of sixteen bytes at once says of them.
ghost use Rattle.std.specs.Prelude.{◌≡◌};
ghost use Rattle.juniper_tokens.specs.LaneMasks.{first_set};

/// The number of bytes that are compared at once.
pub const LANES: usize = 16;

/// The first lane whose bit is set, or [`LANES`] if none is.
///
/// Lanes are counted from 0, and the lowest bit of the mask is the first lane's.
#[inline(always)]
pub fn first_set(mask: u64) -> usize
    ensures { result ≡ first_set mask 16 }
{
    if mask == 0 {
        LANES
    } else {
        mask.trailing_zeros() as usize
    }
}
