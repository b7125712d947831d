//! The version of the library.
ghost use Rattle.std.specs.Prelude.{◌≡◌};

/// The version 0.4.0 as a number: of its three parts the first counts 10,000 and the second 100.
const VERSION: u32 = 400;

/// Returns the version of the library, as `CEFINDRATO_VERSION_NUMBER` of the header.
#[unsafe(no_mangle)]
pub extern "C" fn cefindrato_version() -> u32
    ensures { result ≡ 400 }
{
    VERSION
}
