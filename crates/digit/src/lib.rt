// Decimal digits as bytes.
#![tactic(auto)]

ghost use Rattle.std.specs.Prelude.{◌≡◌};
ghost use Rattle.digit.specs.Digit.{is_digit, digit_value};

// Whether a byte is one of the ten digits.
pub fn is_digit(byte: u8) -> bool
    ensures { result ≡ is_digit byte }
{
    byte.is_ascii_digit()
}

// The number of a digit, and 0 for any other byte.
pub fn value(byte: u8) -> u64
    ensures { result ≡ digit_value byte }
{
    if is_digit(byte) {
        u64::from(byte - b'0')
    } else {
        0
    }
}
