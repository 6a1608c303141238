//! Bounds on sizes and ages.
ghost use Rattle.std.specs.Prelude.{◌≡◌, ◌≤◌, ◌+◌, ◌-◌, ◌*◌, ◌^◌, min, length, MatchOption};
ghost use Rattle.find_tests.specs.Bounds.{is_within, digits_of, behind_digits, decimal, unit_of, amount_of, bound_reading};

use crate::errors::TestError;

/// A bound on a number.
#[derive(Clone, Copy, Debug, Drop, PartialEq, Eq)]
pub enum Bound {
    /// The number is equal to this one.
    Equal(u64),
    /// The number is greater than this one.
    More(u64),
    /// The number is less than this one.
    Less(u64),
}

impl Bound {
    // Whether a number meets the bound.
    pub(crate) fn has(self, n: u64) -> bool
        ensures { result ≡ is_within self n }
    {
        match self {
            Bound::Equal(m) => n == m,
            Bound::More(m) => m < n,
            Bound::Less(m) => n < m,
        }
    }
}

// The bound that a text says. A unit may follow if it is `sized`.
pub(crate) fn read_bound(sized: bool, text: &[u8]) -> Result<Bound, TestError>
    ensures { result ≡ bound_reading sized text.now }
{
    match text {
        [b'+', number @ ..] => Ok(Bound::More(read_amount(sized, number)?)),
        [b'-', number @ ..] => Ok(Bound::Less(read_amount(sized, number)?)),
        number => Ok(Bound::Equal(read_amount(sized, number)?)),
    }
}

// The number that a text says, times its unit.
fn read_amount(sized: bool, text: &[u8]) -> Result<u64, TestError>
    ensures { result ≡ amount_of sized text.now }
{
    let (digits, unit) = split_digits(text);
    if digits.is_empty() {
        return Err(TestError::BadNumber);
    }
    let Some(unit) = unit_of(sized, unit) else {
        return Err(TestError::BadUnit);
    };
    if digits.len() > 40 {
        return Err(TestError::BadNumber);
    }
    let Some(number) = decimal(digits) else {
        return Err(TestError::BadNumber);
    };
    number.checked_mul(unit).ok_or(TestError::BadNumber)
}

fn split_digits(text: &[u8]) -> (&[u8], &[u8])
    ensures digits { result.0.now ≡ digits_of text.now }
    ensures behind { result.1.now ≡ behind_digits text.now }
{
    text.split_at(digits_len(text))
}

fn digits_len(text: &[u8]) -> usize
    ensures len { result ≡ length (digits_of text.now) }
    ensures within { result ≤ length text.now }
{
    text.iter().take_while(|b| b.is_ascii_digit()).count()
}

fn unit_of(sized: bool, text: &[u8]) -> Option<u64>
    ensures { result ≡ unit_of sized text.now }
{
    match text {
        [] => Some(1),
        [b'B'] if sized => Some(1),
        [b'k'] if sized => Some(1 << 10),
        [b'M'] if sized => Some(1 << 20),
        [b'G'] if sized => Some(1 << 30),
        _ => None,
    }
}

// The number that digits say, if it is below 2^64.
fn decimal(digits: &[u8]) -> Option<u64>
    ensures { MatchOption result (2 ^ 64 ≤ decimal digits.now) (λ n. n ≡ decimal digits.now) }
{
    let mut number = 0u128;
    for digit in digits {
        number = with_digit(number, *digit);
    }
    u64::try_from(number).ok()
}

fn with_digit(number: u128, digit: u8) -> u128
    ensures { result ≡ min (number * 10 + (digit - 48)) (2 ^ 128 - 1) }
{
    number
        .saturating_mul(10)
        .saturating_add(u128::from(digit.saturating_sub(b'0')))
}
