// Reading a word as a number.
ghost use Rattle.std.specs.Prelude.{◌≡◌, ◌+◌, ◌*◌, ◌≤◌, ◌<◌, ◌^◌, IfSome, SomeIff};
ghost use Rattle.swf_protocol.specs.Number.{value_of_digits, is_number, number_of, budget_of, moment_in};

use swf_duration::Moment;
use swf_text::all_digits;

/// The most steps of one settling.
const MOST_STEPS: u64 = 1_000_000;

// `0`, or digits without a leading zero.
fn is_number(bytes: &[u8]) -> bool
    ensures { result ≡ is_number bytes.now }
{
    let len = bytes.len();
    len > 0 && all_digits(bytes) && (len == 1 || bytes[0] != b'0')
}

// The number with one digit more, if it fits.
fn with_digit(value: u64, digit: u64) -> Option<u64>
    ensures { SomeIff result (value * 10 + digit < 2 ^ 64) (value * 10 + digit) }
{
    match value.checked_mul(10) {
        Some(tens) => tens.checked_add(digit),
        None => None,
    }
}

// The number that some digits spell, if it fits.
fn value_of_digits(bytes: &[u8]) -> Option<u64>
    ensures { SomeIff result (value_of_digits bytes.now < 2 ^ 64) (value_of_digits bytes.now) }
{
    let mut value = 0u64;
    for byte in bytes {
        let digit = u64::from(byte.saturating_sub(b'0'));
        match with_digit(value, digit) {
            Some(next) => value = next,
            None => return None,
        }
    }
    Some(value)
}

/// A number of at most 18446744073709551615.
pub fn number_of(bytes: &[u8]) -> Option<u64>
    ensures { result ≡ number_of bytes.now }
{
    if is_number(bytes) {
        value_of_digits(bytes)
    } else {
        None
    }
}

/// A number from 1 to 1,000,000.
pub fn budget_of(bytes: &[u8]) -> Option<u64>
    ensures budget { result ≡ budget_of bytes.now }
    ensures modest { IfSome result (λ n. n ≤ 1000000) }
    ensures some { IfSome result (λ n. 0 < n) }
{
    let number = number_of(bytes)?;
    if number > 0 && number <= MOST_STEPS {
        Some(number)
    } else {
        None
    }
}

/// A moment: a number of at most 4503599627370495.
pub fn moment_in(bytes: &[u8]) -> Option<Moment>
    ensures { result ≡ moment_in bytes.now }
{
    let number = number_of(bytes)?;
    if number <= Moment::LAST {
        Some(Moment::new(number))
    } else {
        None
    }
}
