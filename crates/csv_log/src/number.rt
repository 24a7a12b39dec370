ghost use Rattle.std.specs.Prelude.{◌≡◌, ◌<◌, ◌≤◌, ◌^◌, length, true, option_map, IfSome};
ghost use Rattle.std.specs.List.{list_all};
ghost use Rattle.decl_base.specs.Threshold.{is_digit, number_of_digits};
ghost use Rattle.csv_log.specs.Number.{number_of, size_of};

/// The most digits that a number has.
const MOST_DIGITS: usize = 18;

/// The whole number that a text writes: 1 to 18 digits, with or without a minus sign before them.
pub(crate) fn read_number(text: &[u8]) -> Option<i64>
    ensures { result ≡ number_of text.now }
{
    match text {
        [b'-', digits @ ..] => Some(-(read_size(digits)? as i64)),
        digits => Some(read_size(digits)? as i64),
    }
}

/// The number that 1 to 18 digits write.
fn read_size(digits: &[u8]) -> Option<u64>
    ensures value { result ≡ size_of digits.now }
    ensures within { IfSome result (λ n. n < 10 ^ 18) }
{
    if digits.is_empty() || digits.len() > MOST_DIGITS || !are_digits(digits) {
        return None;
    }
    Some(number_of(digits))
}

/// Whether each byte is a decimal digit.
fn are_digits(bytes: &[u8]) -> bool
    ensures { result ≡ list_all is_digit bytes.now }
{
    bytes.iter().all(|byte| byte.is_ascii_digit())
}

/// The number that at most 18 digits write.
fn number_of(digits: &[u8]) -> u64
    requires few { length digits.now ≤ 18 }
    requires digits { list_all is_digit digits.now ≡ true }
    ensures value { result ≡ number_of_digits digits.now }
    ensures within { result < 10 ^ length digits.now }
{
    let mut number = 0;
    for digit in digits {
        number = number * 10 + u64::from(digit - b'0');
    }
    number
}
