// The version of the library.
ghost use Rattle.std.specs.Prelude.{◌≡◌};

/// The version of the library as one number: the major version times 1,000,000, plus the minor one
/// times 1,000, plus the patch; 1,000 for 0.1.0.
#[unsafe(no_mangle)]
pub extern "C" fn chinese_number_version() -> u32
    ensures { result ≡ 1000 }
{
    1_000
}
