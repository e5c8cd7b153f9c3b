// The version of the exports: a new call, value or refusal number raises the minor number, a change of what stands the major one.
ghost use Rattle.std.specs.Prelude.{◌≡◌};
ghost use Rattle.bridgenook.specs.Version.{version};

pub fn bridgenook_version() -> u32
    ensures { result ≡ version }
{
    1_000_000
}
