ghost use Rattle.std.specs.Prelude.{◌≡◌, ◌&&◌, nat_le, length, slice_index_or, [], IfOk, IfErr, IfSome, IfNone, List, ℕ, Some, None, true, false, option_map, unwrap_or};
ghost use Rattle.std.specs.Str.{is_utf8};
ghost use Rattle.csv.specs.Records.{fields_of};
ghost use Rattle.csv_log.specs.CsvLog.{has_no_number};
ghost use Rattle.csv_log.specs.Kept.{HasRowFault, SaysRow, field_in, lacks_field, number_key, text_key, value_of};

use crate::number::read_number;
use crate::places::Places;
use crate::{Columns, OrderAs};
use csv::ByteRecord;
use decl_base::Refusal;

/// What a row says of its event.
#[derive(Clone, Copy)]
pub(crate) struct Fields<'a> {
    pub case: &'a str,
    pub activity: &'a str,
    /// By what the event is ordered among numbers, and 0 among texts.
    pub number: i64,
    /// By what the event is ordered among texts, and empty among numbers.
    pub text: &'a [u8],
}

/// What the row says, whose record has this number.
pub(crate) fn read_row<'a>(
    row: &'a ByteRecord,
    places: &Places,
    order_as: OrderAs,
    number: u64,
) -> Result<Fields<'a>, Refusal>
    ensures ok { IfOk result (SaysRow places.now order_as (fields_of row.now) number) }
    ensures err { IfErr result (HasRowFault places.now order_as (fields_of row.now) number) }
{
    let Some((case, activity, value)) = wanted_fields(row, places) else {
        return Err(Refusal::ShortRow { row: number });
    };
    let Some((case, activity)) = texts_of(case, activity) else {
        return Err(Refusal::RowText { row: number });
    };
    let Some((number, text)) = read_value(value, order_as) else {
        return Err(Refusal::RowOrder { row: number });
    };
    Ok(Fields {
        case,
        activity,
        number,
        text,
    })
}

/// The fields of a row in the wanted columns, where it has them all.
fn wanted_fields<'a>(
    row: &'a ByteRecord,
    places: &Places,
) -> Option<(&'a [u8], &'a [u8], Option<&'a [u8]>)>
    ensures case { IfSome result (λ found. found.0.now ≡ field_in (fields_of row.now) places.now.case) }
    ensures activity { IfSome result (λ found. found.1.now ≡ field_in (fields_of row.now) places.now.activity) }
    ensures value { IfSome result (λ found. value_of found.2 ≡ option_map (field_in (fields_of row.now)) places.now.order) }
    ensures all { IfSome result (λ _. lacks_field places.now (fields_of row.now) ≡ false) }
    ensures none { IfNone result (lacks_field places.now (fields_of row.now) ≡ true) }
{
    let case = field_at(row, places.case)?;
    let activity = field_at(row, places.activity)?;
    match places.order {
        Some(place) => Some((case, activity, Some(field_at(row, place)?))),
        None => Some((case, activity, None)),
    }
}

/// The field at this place, where the row is long enough.
pub(crate) fn field_at(row: &ByteRecord, place: usize) -> Option<&[u8]>
    ensures some { IfSome result (λ field. field.now ≡ field_in (fields_of row.now) place) }
    ensures inside { IfSome result (λ _. nat_le (length (fields_of row.now)) place ≡ false) }
    ensures none { IfNone result (nat_le (length (fields_of row.now)) place ≡ true) }
{
    row.get(place)
}

/// The two fields as texts.
fn texts_of<'a>(case: &'a [u8], activity: &'a [u8]) -> Option<(&'a str, &'a str)>
    ensures some { IfSome result (λ texts. (texts.0.now ≡ case.now) × (texts.1.now ≡ activity.now)) }
    ensures both { IfSome result (λ _. (is_utf8 case.now && is_utf8 activity.now) ≡ true) }
    ensures none { IfNone result ((is_utf8 case.now && is_utf8 activity.now) ≡ false) }
{
    Some((text_of(case)?, text_of(activity)?))
}

/// The text of a field.
fn text_of(field: &[u8]) -> Option<&str>
    ensures text { IfSome result (λ text. text.now ≡ field.now) }
    ensures some { IfSome result (λ _. is_utf8 field.now ≡ true) }
    ensures none { IfNone result (is_utf8 field.now ≡ false) }
{
    match std::str::from_utf8(field) {
        Ok(text) => Some(text),
        Err(_) => None,
    }
}

/// By what an event of this value is ordered, as a number and as a text.
fn read_value(value: Option<&[u8]>, order_as: OrderAs) -> Option<(i64, &[u8])>
    ensures number { IfSome result (λ keys. keys.0 ≡ number_key order_as (value_of value.entry)) }
    ensures text { IfSome result (λ keys. keys.1.now ≡ text_key order_as (value_of value.entry)) }
    ensures numbers { IfSome result (λ _. has_no_number order_as (value_of value.entry) ≡ false) }
    ensures none { IfNone result (has_no_number order_as (value_of value.entry) ≡ true) }
{
    match (value, order_as) {
        (None, _) => Some((0, b"")),
        (Some(text), OrderAs::Text) => Some((0, text)),
        (Some(text), OrderAs::Number) => Some((read_number(text)?, b"")),
    }
}
