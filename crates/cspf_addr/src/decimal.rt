//! Numbers in decimal and in hexadecimal digits: which text spells which number.

ghost use Rattle.std.specs.Prelude.{◌≡◌, ◌≢◌, ℕ, ◌^◌, ◌<◌, ◌≤◌, ◌+◌, ◌*◌, IsTrue, IfSome, IfNone};
ghost use Rattle.std.specs.Fmt.{decimal};
ghost use Rattle.std.specs.Char.{digit_value};
ghost use Rattle.std.specs.Str.Parse.{digits_value};
ghost use Rattle.cspf_addr.specs.Numbers.{are_digits, is_decimal, number_of, has_plain_start, AreSpelledOnce};

/// The value of a text of digits in base `base`. `None` if a byte isn't a digit of this base, or if
/// the value is 2^64 or more.
pub(crate) fn value(text: &[u8], base: u32) -> Option<u64>
    requires least { 2 ≤ base }
    requires most { base ≤ 36 }
    ensures some { IfSome result
        (λ n. IsTrue (are_digits base text.now) × (n ≡ digits_value base text.now)) }
    ensures none { IfNone result
        (IsTrue (are_digits base text.now) → 2 ^ 64 ≤ digits_value base text.now) }
    ensures small { IfSome result (λ n. n < 2 ^ 64) }
{
    let mut value: u64 = 0;
    for byte in text {
        value = one_more(value, *byte, base)?;
    }
    Some(value)
}

/// The value of a text of digits after the digit `byte` is appended. Without this digit, the value
/// is `value`. `None` if `byte` isn't a digit of base `base`, or if the new value is 2^64 or more.
fn one_more(value: u64, byte: u8, base: u32) -> Option<u64>
    requires least { 2 ≤ base }
    requires most { base ≤ 36 }
    ensures some { IfSome result
        (λ n. (digit_value byte < base) × (n ≡ value * base + digit_value byte)) }
    ensures none { IfNone result
        (digit_value byte < base → 2 ^ 64 ≤ value * base + digit_value byte) }
    ensures small { IfSome result (λ n. n < 2 ^ 64) }
{
    let digit = char::from(byte).to_digit(base)?;
    value
        .checked_mul(u64::from(base))?
        .checked_add(u64::from(digit))
}

/// Whether a text isn't empty and has no leading zero. The text `0` has no leading zero.
fn has_plain_start(text: &[u8]) -> bool
    ensures { result ≡ has_plain_start text.now }
{
    !text.is_empty() && (text.len() == 1 || text[0] != b'0')
}

/// The number that a text spells in decimal, below 2^64. A sign or a leading zero isn't allowed.
pub fn number(text: &[u8]) -> Option<u64>
    ensures value { result ≡ number_of text.now }
    ensures some { IfSome result (λ n. text.now ≡ decimal n) }
    ensures none { IfNone result ((n : ℕ) → n < 2 ^ 64 → text.now ≢ decimal n) }
    ensures only { (n : ℕ) → n < 2 ^ 64 → text.now ≡ decimal n → result ≡ Some n }
{
    if has_plain_start(text) {
        value(text, 10)
    } else {
        None
    }
}

/// Whether a text is one or more decimal digits without a leading zero.
#[tactic(auto, unfolding(crate::specs::Numbers::is_decimal))]
pub(crate) fn is_decimal(text: &[u8]) -> bool
    ensures { result ≡ is_decimal text.now }
{
    has_plain_start(text) && are_digits(text)
}

/// Whether each byte of a text is a decimal digit.
#[tactic(auto, unfolding(crate::specs::Numbers::are_digits))]
fn are_digits(text: &[u8]) -> bool
    ensures { result ≡ are_digits 10 text.now }
{
    text.iter().all(|byte| char::from(*byte).is_digit(10))
}

/// Law: a text is read as the number `n` exactly if it is the decimal text of `n`.
pub fn numbers_are_spelled_once()
    ensures { AreSpelledOnce }
{}
