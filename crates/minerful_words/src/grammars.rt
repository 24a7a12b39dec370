ghost use Rattle.std.specs.Prelude.{◌≡◌, IfSome};
ghost use Rattle.std.specs.List.{list_all};
ghost use Rattle.decl_base.specs.Threshold.{is_digit};
ghost use Rattle.minerful_words.specs.Grammars.{IsBetween, keep_of, order_as_of, repertoire_of, number_between as number_between_of, whole_number_of, is_whole_number as has_whole_number_form};

use log_columns::OrderAs;
use template_core::Repertoire;

/// The number of digits that a whole number has at most.
const DIGITS: usize = 10;

#[tactic(auto, unfolding(crate::specs::Grammars::order_as_of))]
pub(crate) fn order_as_named(text: &str) -> Option<OrderAs>
    ensures { result ≡ order_as_of text.now }
{
    match text {
        "text" => Some(OrderAs::Text),
        "number" => Some(OrderAs::Number),
        _ => None,
    }
}

#[tactic(auto, unfolding(crate::specs::Grammars::repertoire_of))]
pub(crate) fn repertoire_numbered(text: &str) -> Option<Repertoire>
    ensures { result ≡ repertoire_of text.now }
{
    match text {
        "1" => Some(Repertoire::First),
        "2" => Some(Repertoire::Second),
        _ => None,
    }
}

/// Whether a run keeps on where the limit on states is met.
#[tactic(auto, unfolding(crate::specs::Grammars::keep_of))]
pub(crate) fn keep_named(text: &str) -> Option<bool>
    ensures { result ≡ keep_of text.now }
{
    match text {
        "stop" => Some(false),
        "keep" => Some(true),
        _ => None,
    }
}

/// The whole number that a text writes, from `least` to `most`.
#[tactic(auto, unfolding(crate::specs::Grammars::number_between))]
pub(crate) fn number_between(text: &str, least: u64, most: u64) -> Option<u64>
    ensures value { result ≡ number_between_of least most text.now }
    ensures within { IfSome result (IsBetween least most) }
{
    let number = whole_number(text)?;
    if least <= number && number <= most {
        Some(number)
    } else {
        None
    }
}

/// The number that 1 to 10 decimal digits write.
#[tactic(auto, unfolding(crate::specs::Grammars::whole_number_of))]
fn whole_number(text: &str) -> Option<u64>
    ensures { result ≡ whole_number_of text.now }
{
    if is_whole_number(text.as_bytes()) {
        text.parse().ok()
    } else {
        None
    }
}

fn is_whole_number(text: &[u8]) -> bool
    ensures { result ≡ has_whole_number_form text.now }
{
    !text.is_empty() && text.len() <= DIGITS && are_digits(text)
}

fn are_digits(bytes: &[u8]) -> bool
    ensures { result ≡ list_all is_digit bytes.now }
{
    bytes.iter().all(|byte| byte.is_ascii_digit())
}
