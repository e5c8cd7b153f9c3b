// The numbers of a case as they are written.
ghost use Rattle.std.specs.Prelude.{IfSome, Ok};

use std::str::FromStr;

// A decimal that fits: digits, at least one. `parse` would also take a sign before them.
pub fn decimal<T: FromStr>(text: &str) -> Option<T>
where
    T::Err: Drop,
    ensures { IfSome result (λ number. T.from_str_gives text.now (Ok number)) }
{
    if text.starts_with('+') {
        return None;
    }
    text.parse().ok()
}
