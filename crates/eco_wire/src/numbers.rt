//! Numbers in decimal digits.

ghost use Rattle.std.specs.Prelude.{◌≡◌, ◌<◌, ◌^◌, ℕ, MatchOption, decimal};
ghost use Rattle.eco_wire.specs.Numbers.{number_of_digits, leads_with_zero};

/// The longest text that is read: 2^64 - 1 has so many digits.
const MOST_DIGITS: usize = 20;

/// The number that 1 to 20 digits write.
pub(crate) fn read_digits(text: &[u8]) -> Option<u128>
    ensures { result ≡ number_of_digits text.now }
{
    if text.is_empty() || MOST_DIGITS < text.len() {
        return None;
    }
    let mut number: u128 = 0;
    for digit in text {
        if !digit.is_ascii_digit() {
            return None;
        }
        number = number * 10 + u128::from(digit - b'0');
    }
    Some(number)
}

fn leads_with_zero(text: &[u8]) -> bool
    ensures { result ≡ leads_with_zero text.now }
{
    matches!(text, [b'0', _, ..])
}

/// A number without a leading zero, within 64 bits.
pub(crate) fn read_number(text: &[u8]) -> Option<u64>
    ensures { MatchOption result ((n : ℕ) → n < 2 ^ 64 → ¬ (text.now ≡ decimal n)) (λ n. (n < 2 ^ 64) × (text.now ≡ decimal n)) }
{
    if leads_with_zero(text) {
        return None;
    }
    match read_digits(text) {
        Some(number) if number <= u64::MAX as u128 => Some(number as u64),
        _ => None,
    }
}
