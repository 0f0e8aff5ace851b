//! Numbers in texts.

ghost use Rattle.std.specs.Prelude.{◌≡◌, ◌<◌, ◌≤◌, IfSome};
ghost use Rattle.std.specs.Char.{digit_value};
ghost use Rattle.pg_config.specs.Numbers.{numeral_of, seconds_of, unsigned_of};
ghost use Rattle.pg_config.specs.Reading.{next_value};

/// The largest number of seconds that a signed number of 64 bits says.
const MOST_SECONDS: u64 = 9_223_372_036_854_775_807;

/// An unsigned number of at most `most`, before which a plus may stand.
pub(crate) fn read_unsigned(text: &[u8], most: u64) -> Option<u64>
    ensures value { result ≡ unsigned_of most text.now }
    ensures small { IfSome result (λ number. number ≤ most) }
{
    match text {
        [b'+', digits @ ..] => read_numeral(digits, 10, most),
        _ => read_numeral(text, 10, most),
    }
}

/// A number of seconds, before which a sign may stand. Less than none is none.
pub(crate) fn read_seconds(text: &[u8]) -> Option<u64>
    ensures { result ≡ seconds_of text.now }
{
    match text {
        [b'-', digits @ ..] => match read_numeral(digits, 10, MOST_SECONDS + 1) {
            Some(_) => Some(0),
            None => None,
        },
        _ => read_unsigned(text, MOST_SECONDS),
    }
}

/// The number of at most `most` that digits write.
pub(crate) fn read_numeral(digits: &[u8], radix: u64, most: u64) -> Option<u64>
    requires low { 1 ≤ radix }
    requires high { radix ≤ 36 }
    ensures value { result ≡ numeral_of radix most digits.now }
    ensures small { IfSome result (λ number. number ≤ most) }
{
    if digits.is_empty() {
        return None;
    }
    let mut value = 0;
    for digit in digits {
        match extend(value, *digit, radix, most) {
            Some(longer) => value = longer,
            None => return None,
        }
    }
    Some(value)
}

/// The number with one digit more, unless it grows past `most`.
fn extend(value: u64, digit: u8, radix: u64, most: u64) -> Option<u64>
    ensures value { result ≡ next_value radix most value digit }
    ensures small { IfSome result (λ number. number ≤ most) }
{
    let digit = value_of(digit);
    if digit >= radix {
        return None;
    }
    match value.checked_mul(radix) {
        Some(shifted) => match shifted.checked_add(digit) {
            Some(longer) if longer <= most => Some(longer),
            _ => None,
        },
        None => None,
    }
}

/// The value of a digit of either case; 36 where it is none.
fn value_of(digit: u8) -> u64
    ensures { result ≡ digit_value digit }
{
    match digit {
        b'0'..=b'9' => u64::from(digit - b'0'),
        b'A'..=b'Z' => u64::from(digit - b'A' + 10),
        b'a'..=b'z' => u64::from(digit - b'a' + 10),
        _ => 36,
    }
}
