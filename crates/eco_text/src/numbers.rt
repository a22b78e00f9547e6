//! Numbers in decimal digits.

ghost use Rattle.std.specs.Prelude.{◌≡◌, ◌≤◌, Some, None, position, length, MatchResult};
ghost use Rattle.std.specs.Char.{is_ascii_digit};
ghost use Rattle.std.specs.List.{list_all, list_any, position_or_len};
ghost use Rattle.eco_text.specs.Numbers.{natural_of, number_of, at_most, integer_of, digits_behind, is_point, six_of, microns_of};

use crate::pieces::part;
use eco_common::MAX_MILLIONTHS;
use thiserror::Error;

/// A word is no number, or one out of range.
#[derive(Clone, Copy, Debug, Drop, PartialEq, Eq, Error)]
#[error("BadNumber")]
pub struct BadNumber;

/// The number that digits make, where it is at most `limit`.
#[tactic(auto, using(crate::proofs::DigitSteps::above_limit, crate::proofs::DigitSteps::digit_on))]
fn read_digits(limit: u32, digits: &[u8]) -> Option<u32>
    ensures { result ≡ at_most limit (digits_behind 0 digits.now) }
{
    let mut number: u32 = 0;
    for digit in digits {
        if !digit.is_ascii_digit() {
            return None;
        }
        let longer = u64::from(number) * 10 + u64::from(digit - b'0');
        if longer > u64::from(limit) {
            return None;
        }
        number = longer as u32;
    }
    Some(number)
}

/// The number that at least one digit makes, where it is at most `limit`.
pub fn read_natural(limit: u32, digits: &[u8]) -> Option<u32>
    ensures { result ≡ at_most limit (natural_of digits.now) }
{
    match digits {
        [] => None,
        _ => read_digits(limit, digits),
    }
}

/// A number without a leading zero, where it is at most `limit`.
pub fn read_number(limit: u32, digits: &[u8]) -> Option<u32>
    ensures { result ≡ at_most limit (number_of digits.now) }
{
    match digits {
        [b'0', _, ..] => None,
        _ => read_natural(limit, digits),
    }
}

/// A coordinate in database units: an optional minus, then digits, within 32 bits and a sign.
pub fn read_i32(word: &[u8]) -> Result<i32, BadNumber>
    ensures { MatchResult result (λ x. integer_of word.now ≡ Some x) (λ _. integer_of word.now ≡ None) }
{
    match word {
        [b'-', digits @ ..] => match read_natural(1 << 31, digits) {
            Some(number) => Ok((-i64::from(number)) as i32),
            None => Err(BadNumber),
        },
        _ => match read_natural(i32::MAX as u32, word) {
            Some(number) => Ok(number as i32),
            None => Err(BadNumber),
        },
    }
}

fn point_place(word: &[u8]) -> Option<usize>
    ensures { result ≡ position is_point word.now }
{
    word.iter().position(|byte| *byte == b'.')
}

/// How many bytes stand before the first point.
#[tactic(auto, using(crate::proofs::Lengths::unwrap_or_position))]
fn whole_len(word: &[u8]) -> usize
    ensures within { result ≤ length word.now }
    ensures first { result ≡ position_or_len is_point word.now }
{
    point_place(word).unwrap_or(word.len())
}

fn has_digit(word: &[u8]) -> bool
    ensures { result ≡ list_any is_ascii_digit word.now }
{
    word.iter().any(|byte| byte.is_ascii_digit())
}

fn are_digits(bytes: &[u8]) -> bool
    ensures { result ≡ list_all is_ascii_digit bytes.now }
{
    bytes.iter().all(|byte| byte.is_ascii_digit())
}

/// The first six digits, with zeros for those that are missing.
fn six_decimals(digits: &[u8]) -> [u8; 6]
    ensures { result ≡ six_of digits.now }
{
    let mut six = [b'0'; 6];
    let kept = digits.len().min(6);
    six[..kept].copy_from_slice(&digits[..kept]);
    six
}

/// The millionths that digits make after those of a number, where they are at most the longest length.
#[tactic(auto, using(crate::proofs::DigitSteps::above_limit, crate::proofs::DigitSteps::digit_on))]
fn read_millionths(before: u64, digits: &[u8]) -> Option<u64>
    requires { before ≤ MAX_MILLIONTHS }
    ensures { result ≡ at_most MAX_MILLIONTHS (digits_behind before digits.now) }
{
    let mut number = before;
    for digit in digits {
        if !digit.is_ascii_digit() {
            return None;
        }
        let longer = number * 10 + u64::from(digit - b'0');
        if longer > MAX_MILLIONTHS {
            return None;
        }
        number = longer;
    }
    Some(number)
}

/// The millionths of a word that is a length.
#[tactic(auto, using(crate::proofs::DigitSteps::digits_on))]
fn millionths(word: &[u8]) -> Option<u64>
    ensures { result ≡ microns_of word.now }
{
    let point = whole_len(word);
    let decimals = part(word, point + 1, word.len());
    if !has_digit(word) || !are_digits(decimals) {
        return None;
    }
    let whole = read_millionths(0, part(word, 0, point))?;
    read_millionths(whole, &six_decimals(decimals))
}

/// A length in millionths of a micron: digits with a point before, among or after them, or without one, up to 10,000
/// microns. Digits after the sixth decimal are dropped.
pub fn read_microns(word: &[u8]) -> Result<u64, BadNumber>
    ensures { MatchResult result (λ x. microns_of word.now ≡ Some x) (λ _. microns_of word.now ≡ None) }
{
    millionths(word).ok_or(BadNumber)
}
