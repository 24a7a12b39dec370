ghost use Rattle.std.specs.Prelude.{◌≡◌, List, IfOk, IfErr, Ok};
ghost use Rattle.event_log.specs.Logs.{named, IsNumbering};
ghost use Rattle.event_log.specs.Within.{CanCount, IsWithin};
ghost use Rattle.csv_log.specs.CsvLog.{activities_of, csv_log, CsvCause, Event};
ghost use Rattle.csv_log.specs.Kept.{Collects, IsLogOfCollected};

use crate::Columns;
use crate::collect::Collected;
use crate::group::grouped_log;
use crate::places::find_places;
use crate::records::{next_record, records_of, without_mark};
use crate::row::read_row;
use csv::ByteRecord;
use decl_base::{Limits, Refusal};
use event_log::{Alphabet, Log};
use std::alloc::Global;

/// The log of a CSV text, with its activities in the order of their first records.
///
/// One byte order mark before the text is dropped. The first record is the header, and each later one is an event.
/// Refusals, of the first record at fault: `Header`, `ShortRow`, `RowText`, `RowOrder`, `Events`, `Traces`, `Activities`,
/// where records are counted from 1 with the header. `Memory` comes from any call.
pub fn read_csv(
    alloc: Global,
    bytes: &[u8],
    columns: &Columns,
    limits: &Limits,
) -> Result<(Alphabet, Log), Refusal>
    requires countable { CanCount limits.now }
    ensures log { IfOk result (λ read. csv_log columns.now limits.now bytes.now ≡ Ok (named read.0.names read.1.traces)) }
    ensures names { IfOk result (λ read. read.0.names ≡ activities_of columns.now bytes.now) }
    ensures numbering { IfOk result (λ read. IsNumbering read.0.names read.1.traces) }
    ensures within { IfOk result (λ read. IsWithin limits.now read.0 read.1) }
    ensures err { IfErr result (CsvCause (csv_log columns.now limits.now bytes.now)) }
{
    let mut reader = records_of(alloc, without_mark(bytes));
    let mut row = ByteRecord::new(alloc);
    if !next_record(&mut reader, &mut row)? {
        return Err(Refusal::Header { which: 1 });
    }
    let places = find_places(&row, columns)?;
    let mut collected = Collected::new(alloc, columns, limits);
    while next_record(&mut reader, &mut row)? {
        let fields = read_row(&row, &places, columns.order_as, collected.next_number())?;
        collected.add(&fields, limits)?;
    }
    finish(alloc, collected, columns, limits)
}

/// The alphabet and the log of the events that were collected.
fn finish(
    alloc: Global,
    collected: Collected,
    columns: &Columns,
    limits: &Limits,
) -> Result<(Alphabet, Log), Refusal>
    requires { (events : List Event) × Collects columns.now limits.now events collected }
    ensures ok { IfOk result (λ read. IsLogOfCollected columns.now limits.now collected read.0 read.1) }
    ensures err { IfErr result (λ e. e ≡ Refusal.Memory) }
{
    let Collected {
        cases,
        activities,
        mut events,
        keys,
    } = collected;
    let log = grouped_log(
        alloc,
        &mut events,
        &keys,
        columns.order.is_some(),
        cases.len(),
        limits,
    )?;
    Ok((activities, log))
}
