//! Numbers as users write them: decimal digits, or `0x` and hexadecimal digits of either case, of any number and without a sign.
//!
//! The model of a word is its bytes, and that of a number is the natural number. Callers may rely on this: a word is a number or not,
//! whatever its size ([`is_number`]), and its value is answered exactly if the type has room for it ([`u32_of`], [`u64_of`]).
#![tactic(auto)]

ghost use Rattle.std.specs.Prelude.{◌≡◌, ◌<◌, ◌+◌, ◌*◌, ◌^◌, is_some};
ghost use Rattle.std.specs.Char.{digit_value, is_digit};
ghost use Rattle.std.specs.List.{list_all};
ghost use Rattle.std.specs.Option.{option_and_then};
ghost use Rattle.std.specs.Str.Parse.{digits_value};
ghost use Rattle.numerals.specs.Numbers.{below, is_numeral, number_in, number_value, numeral_value};

/// Whether a word is a number, of any size.
pub fn is_number(word: &[u8]) -> bool
    ensures { result ≡ is_some (number_value word.now) }
{
    if word.starts_with(b"0x") {
        is_numeral(16, &word[2..])
    } else {
        is_numeral(10, word)
    }
}

/// The value of a word that is a number below 2^32.
pub fn u32_of(word: &[u8]) -> Option<u32>
    ensures { result ≡ number_in 32 word.now }
{
    match u32::try_from(u64_of(word)?) {
        Ok(number) => Some(number),
        Err(_) => None,
    }
}

/// The value of a word that is a number below 2^64.
pub fn u64_of(word: &[u8]) -> Option<u64>
    ensures { result ≡ number_in 64 word.now }
{
    if word.starts_with(b"0x") {
        numeral_value(16, &word[2..])
    } else {
        numeral_value(10, word)
    }
}

/// The value of a word that is digits, one at least, and nothing else, if it is below 2^64.
fn numeral_value(radix: u64, word: &[u8]) -> Option<u64>
    requires { 0 < radix }
    ensures { result ≡ option_and_then (below (2 ^ 64)) (numeral_value radix word.now) }
{
    if is_numeral(radix, word) {
        digits_value(radix, word)
    } else {
        None
    }
}

/// Whether a word is digits in a base, one at least, and nothing else.
fn is_numeral(radix: u64, word: &[u8]) -> bool
    ensures { result ≡ is_numeral radix word.now }
{
    !word.is_empty() && are_digits(radix, word)
}

/// Whether all bytes are digits in a base.
fn are_digits(radix: u64, word: &[u8]) -> bool
    ensures { result ≡ list_all (λ b. is_digit b radix) word.now }
{
    word.iter().all(|byte| is_digit(*byte, radix))
}

/// The value of digits, if it is below 2^64.
fn digits_value(radix: u64, digits: &[u8]) -> Option<u64>
    requires { 0 < radix }
    ensures { result ≡ below (2 ^ 64) (digits_value radix digits.now) }
{
    let mut value: u64 = 0;
    for digit in digits {
        value = with_digit(value, radix, digit_value(*digit))?;
    }
    Some(value)
}

/// A number with one digit more after it, if it is below 2^64.
fn with_digit(value: u64, radix: u64, digit: u64) -> Option<u64>
    ensures { result ≡ below (2 ^ 64) (value * radix + digit) }
{
    let shifted = value.checked_mul(radix)?;
    shifted.checked_add(digit)
}

/// Whether a byte is a digit in a base.
fn is_digit(byte: u8, radix: u64) -> bool
    ensures { result ≡ is_digit byte radix }
{
    digit_value(byte) < radix
}

/// The value of a digit or a letter, and 36 for any other byte.
fn digit_value(byte: u8) -> u64
    ensures { result ≡ digit_value byte }
{
    match byte {
        b'0'..=b'9' => u64::from(byte - b'0'),
        b'A'..=b'Z' => u64::from(byte - b'A') + 10,
        b'a'..=b'z' => u64::from(byte - b'a') + 10,
        _ => 36,
    }
}
