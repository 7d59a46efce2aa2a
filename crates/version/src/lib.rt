// The version of the library.
#![tactic(auto)]

ghost use Rattle.std.specs.Prelude.{◌≡◌};
ghost use Rattle.version.specs.Version.{version};

// 0.14.0
const VERSION: u32 = 14000;

// The number of the library's version; the header has the same.
pub fn number() -> u32
    ensures { result ≡ version }
{
    VERSION
}
