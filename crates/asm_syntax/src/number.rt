//! Numbers, of any size.

ghost use Rattle.std.specs.Prelude.{◌≡◌, min};
ghost use Rattle.std.specs.Option.{option_map};
ghost use Rattle.numerals.specs.Numbers.{number_value};

use numerals::{is_number, u64_of};

/// Where numbers stop growing: far above what any statement takes.
pub(crate) const LIMIT: u64 = 1 << 40;

/// The value of a number, or [`LIMIT`] if it is more; none for another word.
pub(crate) fn number_value(word: &[u8]) -> Option<u64>
    ensures { result ≡ option_map (λ n. min n LIMIT) (number_value word.now) }
{
    if !is_number(word) {
        return None;
    }
    Some(u64_of(word).unwrap_or(LIMIT).min(LIMIT))
}
