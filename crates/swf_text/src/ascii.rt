// The letters and digits of ASCII, asked of a byte.
ghost use Rattle.std.specs.Prelude.{◌≡◌};
ghost use Rattle.std.specs.List.{list_all};
ghost use Rattle.swf_text.specs.Ascii.{is_digit, is_lower, is_upper, is_letter};

/// Whether a byte is one of `0` to `9`.
pub fn is_digit(byte: u8) -> bool
    ensures { result ≡ is_digit byte }
{
    b'0' <= byte && byte <= b'9'
}

/// Whether a byte is one of `a` to `z`.
pub fn is_lower(byte: u8) -> bool
    ensures { result ≡ is_lower byte }
{
    b'a' <= byte && byte <= b'z'
}

/// Whether a byte is one of `A` to `Z`.
pub fn is_upper(byte: u8) -> bool
    ensures { result ≡ is_upper byte }
{
    b'A' <= byte && byte <= b'Z'
}

/// Whether a byte is a letter of ASCII.
pub fn is_letter(byte: u8) -> bool
    ensures { result ≡ is_letter byte }
{
    is_lower(byte) || is_upper(byte)
}

/// Whether all bytes are digits.
pub fn all_digits(bytes: &[u8]) -> bool
    ensures { result ≡ list_all is_digit bytes.now }
{
    for byte in bytes {
        if !is_digit(*byte) {
            return false;
        }
    }
    true
}
