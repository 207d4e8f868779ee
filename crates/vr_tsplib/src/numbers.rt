//! Numbers, and ranges of them.

ghost use Rattle.std.specs.Prelude.{◌≡◌, ◌≤◌, ◌<◌, ◌^◌, length, pos, neg_ℤ, IfSome, IfOk, option_map};
ghost use Rattle.std.specs.List.{list_all};
ghost use Rattle.vr_tsplib.specs.Numbers as numbers;

use crate::flaws::Flaw;
use crate::texts::cut_at;

// Whether a byte is a digit.
fn is_digit(b: u8) -> bool
    ensures { result ≡ numbers.is_digit b }
{
    b'0' <= b && b <= b'9'
}

// Whether a text has 1 to 15 bytes.
fn is_short(text: &[u8]) -> bool
    ensures { result ≡ numbers.is_short text.now }
{
    1 <= text.len() && text.len() <= 15
}

// The value of digits; `None` if a byte is no digit.
fn value_of(text: &[u8]) -> Option<u64>
    requires { length text.now ≤ 15 }
    ensures value { result ≡ numbers.digits_behind 0 text.now }
    ensures small { IfSome result (λ n. n < 10 ^ 15) }
{
    let mut value = 0;
    for &b in text {
        if !is_digit(b) {
            return None;
        }
        value = value * 10 + u64::from(b - b'0');
    }
    Some(value)
}

// The value of 1 to 15 digits, so that it lies below 10^15; `None` of any other text.
#[tactic(auto, unfolding(crate::specs::Numbers::digits))]
fn digits(text: &[u8]) -> Option<u64>
    ensures value { result ≡ numbers.digits text.now }
    ensures small { IfSome result (λ n. n < 10 ^ 15) }
{
    if is_short(text) { value_of(text) } else { None }
}

// Whether all bytes of a text are zeros.
fn are_zeros(text: &[u8]) -> bool
    ensures { result ≡ list_all numbers.is_zero text.now }
{
    text.iter().all(|b| *b == b'0')
}

// The value of a number without a sign; after a point it has zeros alone, or nothing.
#[tactic(auto, unfolding(crate::specs::Numbers::unsigned))]
fn unsigned(text: &[u8]) -> Option<u64>
    ensures value { result ≡ numbers.unsigned text.now }
    ensures small { IfSome result (λ n. n < 10 ^ 15) }
{
    match cut_at(text, b'.') {
        None => digits(text),
        Some((whole, zeros)) => {
            if are_zeros(zeros) {
                digits(whole)
            } else {
                None
            }
        }
    }
}

// A number without a sign.
fn positive(text: &[u8]) -> Option<i64>
    ensures { result ≡ option_map pos (numbers.unsigned text.now) }
{
    match unsigned(text) {
        None => None,
        Some(n) => Some(n as i64),
    }
}

// The number whose sign, a minus, was taken off.
fn negative(text: &[u8]) -> Option<i64>
    ensures { result ≡ option_map (λ n. neg_ℤ (pos n)) (numbers.unsigned text.now) }
{
    match unsigned(text) {
        None => None,
        Some(n) => Some(-(n as i64)),
    }
}

// The number that a word is, if it is one.
#[tactic(auto, unfolding(crate::specs::Numbers::number_of))]
fn number_of(word: &[u8]) -> Option<i64>
    ensures { result ≡ numbers.number_of word.now }
{
    if word.len() > 0 && word[0] == b'-' {
        negative(&word[1..])
    } else {
        positive(word)
    }
}

/// The number that a word is: an optional `-` and 1 to 15 digits, then optionally a point and any count of zeros. Any
/// other word has the flaw `FaultyLine`.
pub(crate) fn number(word: &[u8]) -> Result<i64, Flaw>
    ensures { result ≡ numbers.number word.now }
{
    number_of(word).ok_or(Flaw::FaultyLine)
}

/// A number that must lie in `lo..=hi`.
pub(crate) fn whole_in(number: i64, lo: i64, hi: i64) -> Result<i64, Flaw>
    ensures { result ≡ numbers.whole_in lo hi number }
{
    if lo <= number && number <= hi {
        Ok(number)
    } else {
        Err(Flaw::OutOfRange)
    }
}

/// A number that must lie in `lo..=hi`, and is not negative.
pub(crate) fn count_in(number: i64, lo: u64, hi: u64) -> Result<u64, Flaw>
    ensures value { result ≡ numbers.count_in lo hi number }
    ensures within { IfOk result (λ n. n ≤ hi) }
{
    if number < 0 {
        return Err(Flaw::OutOfRange);
    }
    let count = number as u64;
    if lo <= count && count <= hi {
        Ok(count)
    } else {
        Err(Flaw::OutOfRange)
    }
}
