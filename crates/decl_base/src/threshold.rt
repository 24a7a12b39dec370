ghost use Rattle.std.specs.Prelude.{◌≡◌, ◌<◌, ◌≤◌, ◌^◌, length, true, option_map, IfSome};
ghost use Rattle.std.specs.List.{list_all};
ghost use Rattle.decl_base.specs.Threshold.{one, fraction_of, threshold_of, is_digit, is_met, number_of_digits};

use std::marker::Model;

/// The number of millionths in 1.
const ONE: u32 = 1_000_000;

/// The number of decimal digits of a millionth.
const PLACES: usize = 6;

/// The least score that a candidate may have, in millionths, from 0 to 1,000,000.
#[derive(Clone, Copy, Debug, PartialEq, Eq)]
pub struct Threshold {
    pub millionths: u32,
}

impl Model for Threshold {
    ghost use Rattle.std.specs.Prelude.{◌≤◌};
    ghost use Rattle.decl_base.specs.Threshold.{ThresholdValue, one};

    ghost Value = { ThresholdValue };

    ghost view = { λ t. record { millionths = t.millionths } };

    ghost invariant = { λ t. t.millionths ≤ one };

    ghost inverse = { λ t. record { millionths = t.millionths } };
}

/// The thresholds of the three scores.
#[derive(Clone, Copy, Debug, PartialEq, Eq)]
pub struct Thresholds {
    pub support: Threshold,
    pub confidence: Threshold,
    pub interest: Threshold,
}

impl Threshold {
    /// The threshold that a text writes: one digit 0 or 1, alone or followed by a point and 1 to 6 digits, at most 1.
    pub fn read(text: &str) -> Option<Threshold>
        ensures value { option_map (λ t. t.millionths) result ≡ threshold_of text.now }
        ensures within { IfSome result (λ t. t.millionths ≤ one) }
    {
        let (whole, fraction) = match text.as_bytes() {
            [whole] => (*whole, 0),
            [whole, b'.', digits @ ..] => (*whole, read_fraction(digits)?),
            _ => return None,
        };
        match (whole, fraction) {
            (b'0', millionths) => Some(Threshold { millionths }),
            (b'1', 0) => Some(Threshold { millionths: ONE }),
            _ => None,
        }
    }

    /// Whether the fraction `num`/`den` is at least this threshold, from equality on.
    pub fn met(&self, num: u128, den: u128) -> bool
        requires num_fits { num < 2 ^ 100 }
        requires den_fits { den < 2 ^ 100 }
        ensures { result ≡ is_met self.now.millionths num den }
    {
        u128::from(self.millionths) * den <= num * u128::from(ONE)
    }
}

/// The millionths that 1 to 6 digits behind a point write.
fn read_fraction(digits: &[u8]) -> Option<u32>
    ensures value { result ≡ fraction_of digits.now }
    ensures within { IfSome result (λ n. n < one) }
{
    if digits.is_empty() || digits.len() > PLACES || !are_digits(digits) {
        return None;
    }
    Some(number_of(digits) * 10_u32.pow((PLACES - digits.len()) as u32))
}

/// Whether each byte is a decimal digit.
fn are_digits(bytes: &[u8]) -> bool
    ensures { result ≡ list_all is_digit bytes.now }
{
    bytes.iter().all(|byte| byte.is_ascii_digit())
}

/// The number that at most 6 digits write.
fn number_of(digits: &[u8]) -> u32
    requires few { length digits.now ≤ 6 }
    requires digits { list_all is_digit digits.now ≡ true }
    ensures value { result ≡ number_of_digits digits.now }
    ensures within { result < 10 ^ length digits.now }
{
    let mut number = 0;
    for digit in digits {
        number = number * 10 + u32::from(digit - b'0');
    }
    number
}
