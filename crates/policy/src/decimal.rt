// The numbers of a policy.
ghost use Rattle.std.specs.Prelude.{◌≡◌, ◌+◌, ◌-◌, ◌^◌, ◌<◌, nat_lt, if◌then◌else◌, pos, neg_ℤ};
ghost use Rattle.std.specs.List.{list_all};
ghost use Rattle.std.specs.Char.{is_ascii_digit};
ghost use Rattle.policy.specs.Numbers.{decimal_value, are_digits};
ghost use Rattle.std.specs.Option.{option_map};
ghost use Rattle.policy.specs.Reading.{digits_below, bound_of, negative};

fn are_digits(word: &[u8]) -> bool
    ensures { result ≡ are_digits word.now }
{
    !word.is_empty() && are_all_digits(word)
}

fn are_all_digits(word: &[u8]) -> bool
    ensures { result ≡ list_all is_ascii_digit word.now }
{
    word.iter().all(|byte| byte.is_ascii_digit())
}

fn digit_value(byte: u8) -> u8
    ensures { result ≡ byte - 48 }
{
    byte.saturating_sub(b'0')
}

// The number that the digits spell, where it has at most 64 bits.
fn value(digits: &[u8]) -> Option<u64>
    ensures { result ≡ if nat_lt (decimal_value digits.now) (2 ^ 64) then Some (decimal_value digits.now) else None }
{
    let mut number: u64 = 0;
    for digit in digits {
        number = number
            .checked_mul(10)?
            .checked_add(u64::from(digit_value(*digit)))?;
    }
    Some(number)
}

// The number of a word of digits, where it has at most 64 bits.
fn digits(word: &[u8]) -> Option<u64>
    ensures { result ≡ digits_below (2 ^ 64) word.now }
{
    if are_digits(word) { value(word) } else { None }
}

/// The number of a word of digits, where it has at most 32 bits.
pub(crate) fn count(word: &[u8]) -> Option<u32>
    ensures { result ≡ digits_below (2 ^ 32) word.now }
{
    let number = digits(word)?;
    u32::try_from(number).ok()
}

// The same number below 0, where it is at least -2^63.
fn below_zero(word: &[u8]) -> Option<i128>
    ensures { result ≡ option_map negative (digits_below (2 ^ 63 + 1) word.now) }
{
    let number = digits(word)?;
    if number <= 1 << 63 {
        Some(-i128::from(number))
    } else {
        None
    }
}

fn above_zero(word: &[u8]) -> Option<i128>
    ensures { result ≡ option_map pos (digits_below (2 ^ 64) word.now) }
{
    let number = digits(word)?;
    Some(i128::from(number))
}

/// The bound of a range that the word spells: digits, with a minus sign before them or without it,
/// from -2^63 to 2^64 - 1.
pub(crate) fn bound(word: &[u8]) -> Option<i128>
    ensures { result ≡ bound_of word.now }
{
    match word {
        [b'-', digits @ ..] => below_zero(digits),
        _ => above_zero(word),
    }
}
