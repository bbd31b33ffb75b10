// The whole number that a number's text is.
ghost use Rattle.std.specs.Prelude.{◌==◌, ◌≡◌, ◌<◌, true, false, length, slice_index, IsTrue};
ghost use Rattle.serde_json.specs.Data.{unsigned};
ghost use Rattle.serde_json.specs.Find.{of_integer};
ghost use Rattle.serde_json.specs.Read.{number_of, number_from, float_of};
ghost use Rattle.swf_value.specs.Found.{Finds, IsInt};

use fast_float::Numeral;

/// The greatest whole number of a value.
const GREATEST: i64 = 9007199254740991;

/// The whole number that a number's text is, where it is one in range; nothing where the text is
/// too large for a float.
#[inline(never)]
pub(crate) fn number(text: &str) -> Option<Option<i64>>
    ensures { Finds IsInt (number_of text.now) result }
{
    let bytes = text.as_bytes();
    if has_minus(bytes) {
        negative(&Numeral::scan(&bytes[1..]))
    } else {
        positive(&Numeral::scan(bytes))
    }
}

/// The same of a number with no sign.
#[inline(always)]
fn positive(numeral: &Numeral<'_>) -> Option<Option<i64>>
    ensures { Finds IsInt (number_from false numeral.now) result }
{
    match numeral.to_u64() {
        Some(value) => Some(in_range_unsigned(value)),
        None => float(false, numeral),
    }
}

/// The same of a number behind a minus sign.
#[inline(always)]
fn negative(numeral: &Numeral<'_>) -> Option<Option<i64>>
    ensures { Finds IsInt (number_from true numeral.now) result }
{
    match numeral.to_i64(true) {
        Some(value) if value < 0 => Some(in_range(value)),
        _ => float(true, numeral),
    }
}

/// The same of a float, which is no whole number.
#[inline(always)]
fn float(negative: bool, numeral: &Numeral<'_>) -> Option<Option<i64>>
    ensures { Finds IsInt (float_of negative numeral.now) result }
{
    if numeral.to_float::<f64>(negative).is_finite() {
        Some(None)
    } else {
        None
    }
}

/// A number of 64 bits without a sign, where it is in range.
#[inline(always)]
fn in_range_unsigned(value: u64) -> Option<i64>
    ensures { IsInt (unsigned value) result }
{
    in_range(i64::try_from(value).ok()?)
}

/// A number of 64 bits, where it is in range.
#[inline(always)]
fn in_range(value: i64) -> Option<i64>
    ensures { IsInt (of_integer value) result }
{
    if -GREATEST <= value && value <= GREATEST {
        Some(value)
    } else {
        None
    }
}

/// Whether the first byte is a minus sign.
#[inline(always)]
fn has_minus(bytes: &[u8]) -> bool
    ensures value { result ≡ (slice_index bytes.now 0 == 45) }
    ensures some { IsTrue result → 0 < length bytes.now }
{
    !bytes.is_empty() && bytes[0] == b'-'
}
