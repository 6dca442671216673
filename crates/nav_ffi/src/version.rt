//! Which version of the library a host was linked with.

ghost use Rattle.std.specs.Prelude.{◌≡◌};
ghost use Rattle.nav_ffi.specs.Version.{library_version};

/// The version as one number: major * 10000 + minor * 100 + patch.
pub const VERSION: u32 = 100;

/// The version of the library. A host compares it with `NAVD_VERSION` of the header that it was compiled with.
#[unsafe(no_mangle)]
pub extern "C" fn navd_version() -> u32
    ensures { result ≡ library_version }
{
    VERSION
}
