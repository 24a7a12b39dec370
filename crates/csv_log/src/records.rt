ghost use Rattle.std.specs.Prelude.{◌≡◌, [], IfOk, IfErr};
ghost use Rattle.csv.specs.Reading.{strip_bom};
ghost use Rattle.csv.specs.Records.{fields_of};
ghost use Rattle.csv_log.specs.Walk.{IsReading, ReadsRecord};

use csv::{ByteRecord, Reader, ReaderBuilder};
use decl_base::Refusal;
use std::alloc::Global;

/// The byte order mark, U+FEFF in UTF-8.
const MARK: [u8; 3] = [0xEF, 0xBB, 0xBF];

/// The text behind a byte order mark.
pub(crate) fn without_mark(bytes: &[u8]) -> &[u8]
    ensures { result.now ≡ strip_bom bytes.now }
{
    match bytes.strip_prefix(&MARK) {
        Some(text) => text,
        None => bytes,
    }
}

/// Reads the records of a text, all alike.
pub(crate) fn records_of(alloc: Global, text: &[u8]) -> Reader<&[u8]>
    ensures { IsReading text.now [] result }
{
    ReaderBuilder::new()
        .has_headers(false)
        .flexible(true)
        .from_reader(alloc, text)
}

/// Puts the next record into `row`, and answers whether there is one. Over bytes in memory only memory can be wanting.
pub(crate) fn next_record(reader: &mut Reader<&[u8]>, row: &mut ByteRecord) -> Result<bool, Refusal>
    ensures ok { IfOk result (λ found. ReadsRecord reader.old reader.new found (fields_of row.new)) }
    ensures err { IfErr result (λ e. e ≡ Refusal.Memory) }
{
    let Ok(found) = reader.read_byte_record(row) else {
        return Err(Refusal::Memory);
    };
    Ok(found)
}
