//! Numbers, spelled in decimal digits.

ghost use Rattle.std.specs.Prelude.{◌≡◌, ◌≤◌, ◌+◌, ◌*◌, ◌^◌, Some, None, nat_le, if◌then◌else◌, IsTrue, IfNone, IfSome};
ghost use Rattle.std.specs.Char.{is_ascii_digit, digit_value};
ghost use Rattle.std.specs.Str.{all_ascii_digits};
ghost use Rattle.std.specs.Str.Parse.{digits_value};
ghost use Rattle.cilk_log.specs.Reading.{is_decimal, number_in};

/// The number that a text spells, up to the most that it may be.
pub fn number_in(text: &[u8], most: u64) -> Option<u64>
    ensures { result ≡ number_in most text.now }
{
    if !is_decimal(text) {
        return None;
    }
    value_of(text, most)
}

/// The number of a worker that a text spells.
pub(crate) fn worker_in(text: &[u8]) -> Option<u8>
    ensures { result ≡ number_in 255 text.now }
{
    match number_in(text, 255) {
        None => None,
        Some(number) => u8::try_from(number).ok(),
    }
}

fn is_decimal(text: &[u8]) -> bool
    ensures { result ≡ is_decimal text.now }
{
    match text {
        [] => false,
        [digit] => digit.is_ascii_digit(),
        [first, digits @ ..] => (b'1'..=b'9').contains(first) && are_digits(digits),
    }
}

fn are_digits(text: &[u8]) -> bool
    ensures { result ≡ all_ascii_digits text.now }
{
    for byte in text {
        if !byte.is_ascii_digit() {
            return false;
        }
    }
    true
}

// The value of digits, up to the most that it may be.
fn value_of(digits: &[u8], most: u64) -> Option<u64>
    requires { IsTrue (all_ascii_digits digits.now) }
    ensures { result ≡ (if nat_le (digits_value 10 digits.now) most then Some (digits_value 10 digits.now) else None) }
{
    let mut value: u64 = 0;
    for digit in digits {
        value = with_digit(value, *digit)?;
    }
    (value <= most).then_some(value)
}

// One more digit behind those of a number, where it fits.
fn with_digit(value: u64, digit: u8) -> Option<u64>
    requires { IsTrue (is_ascii_digit digit) }
    ensures none { IfNone result (2 ^ 64 ≤ value * 10 + digit_value digit) }
    ensures some { IfSome result (λ more. more ≡ value * 10 + digit_value digit) }
{
    value.checked_mul(10)?.checked_add(u64::from(digit - b'0'))
}
