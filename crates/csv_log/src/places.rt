ghost use Rattle.std.specs.Prelude.{◌≡◌, ◌+◌, ℕ, IfOk, IfErr, not, position, true, false, Some, None, option_map, option_to_list};
ghost use Rattle.csv.specs.Records.{fields_of};
ghost use Rattle.event_log.specs.Logs.{has_name, place_of};
ghost use Rattle.csv_log.specs.CsvLog.{first_missing, wanted};
ghost use Rattle.csv_log.specs.Kept.{ArePlaces};

use crate::Columns;
use crate::row::field_at;
use csv::ByteRecord;
use decl_base::{Name, Refusal};

/// The places of the wanted columns in each row.
#[derive(Clone, Copy, Debug)]
pub(crate) struct Places {
    pub case: usize,
    pub activity: usize,
    pub order: Option<usize>,
}

/// The places of the wanted columns, by their header.
pub(crate) fn find_places(header: &ByteRecord, columns: &Columns) -> Result<Places, Refusal>
    ensures ok { IfOk result (ArePlaces (fields_of header.now) columns.now) }
    ensures present { IfOk result (λ _. first_missing (fields_of header.now) (wanted columns.now) ≡ None) }
    ensures err { IfErr result (λ e. (i : ℕ) × (first_missing (fields_of header.now) (wanted columns.now) ≡ Some i) × (e ≡ Refusal.Header (i + 1))) }
{
    let case = find_place(header, &columns.case, 1)?;
    let activity = find_place(header, &columns.activity, 2)?;
    let order = find_order(header, &columns.order)?;
    Ok(Places {
        case,
        activity,
        order,
    })
}

/// The place of the order column, where one is wanted.
fn find_order(header: &ByteRecord, order: &Option<Name>) -> Result<Option<usize>, Refusal>
    ensures place { IfOk result (λ place. place ≡ option_map (place_of (fields_of header.now)) order.now) }
    ensures present { IfOk result (λ _. first_missing (fields_of header.now) (option_to_list order.now) ≡ None) }
    ensures err { IfErr result (λ e. (first_missing (fields_of header.now) (option_to_list order.now) ≡ Some 0) × (e ≡ Refusal.Header 3)) }
{
    let Some(name) = order else {
        return Ok(None);
    };
    Ok(Some(find_place(header, name, 3)?))
}

/// The place of the first column with this name, which is the wanted one of this number.
fn find_place(header: &ByteRecord, name: &Name, which: u8) -> Result<usize, Refusal>
    ensures place { IfOk result (λ place. place ≡ place_of (fields_of header.now) name.now) }
    ensures present { IfOk result (λ _. has_name (fields_of header.now) name.now ≡ true) }
    ensures err { IfErr result (λ e. (has_name (fields_of header.now) name.now ≡ false) × (e ≡ Refusal.Header which)) }
{
    let wanted = name.text().as_bytes();
    for place in 0..header.len() {
        if let Some(field) = field_at(header, place)
            && wanted == field
        {
            return Ok(place);
        }
    }
    Err(Refusal::Header { which })
}
