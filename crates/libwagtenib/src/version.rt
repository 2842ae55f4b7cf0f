//! The version of the library.

ghost use Rattle.std.specs.Prelude.{◌≡◌};

/// The version of the library: 1,000,000 times the first number of the file VERSION, 1,000 times the second, and the third.
pub const VERSION: u32 = 1_000;

/// The version of the library, as [`VERSION`]. A program compares it with that of the header with which it was compiled.
#[unsafe(no_mangle)]
pub extern "C" fn wagtenib_version() -> u32
    ensures { result ≡ 1000 }
{
    VERSION
}
