//! The version.
ghost use Rattle.std.specs.Prelude.{◌≡◌};
ghost use Rattle.fz_c.specs.Faults.{version};

// The three numbers of the file VERSION.
const MAJOR: u32 = 1;

const MINOR: u32 = 0;

const PATCH: u32 = 0;

/// The version of the library: 10,000 times its first number, 100 times the second, and the third.
#[unsafe(no_mangle)]
pub extern "C" fn fz_version() -> u32
    ensures { result ≡ version }
{
    10_000 * MAJOR + 100 * MINOR + PATCH
}
