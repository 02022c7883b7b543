//! The version of the library.
ghost use Rattle.std.specs.Prelude.{◌≡◌};

// 0.1.0: its first number ten thousand times, its second a hundred times, and its third.
const VERSION: u32 = 100;

/// The version of the library, as a number.
#[unsafe(no_mangle)]
pub extern "C" fn firthnapkin_version() -> u32
    // header: FIRTHNAPKIN_VERSION of the header that the library was built with.
    ensures { result ≡ VERSION }
{
    VERSION
}
