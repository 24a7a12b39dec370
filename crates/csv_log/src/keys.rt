ghost use Rattle.std.specs.Prelude.{◌≡◌, slice_range, IfErr, OnOk};
ghost use Rattle.csv_log.specs.Kept.{AddsKey, HaveKeys, SuitKeys, number_at, text_at};

use crate::row::Fields;
use crate::{Columns, OrderAs};
use decl_base::Refusal;
use std::alloc::Global;

/// Where a text stands.
#[derive(Clone, Copy, Debug)]
pub(crate) struct Span {
    pub start: usize,
    pub end: usize,
}

/// By what the events are ordered, in the order of their records. A key of a kind that isn't asked isn't kept.
#[derive(Drop)]
pub(crate) enum Keys {
    /// They stand as they came.
    Nothing,
    Numbers(Vec<i64>),
    /// The bytes of the texts, one text behind the other, and where each of them stands.
    Texts { bytes: Vec<u8>, spans: Vec<Span> },
}

impl Keys {
    /// No key, of the kind that the columns ask.
    pub fn new(alloc: Global, columns: &Columns) -> Keys
        ensures suit { SuitKeys columns.now result }
        ensures none { HaveKeys 0 result }
    {
        match (&columns.order, columns.order_as) {
            (None, _) => Keys::Nothing,
            (Some(_), OrderAs::Number) => Keys::Numbers(Vec::new(alloc)),
            (Some(_), OrderAs::Text) => Keys::Texts {
                bytes: Vec::new(alloc),
                spans: Vec::new(alloc),
            },
        }
    }

    /// Puts the key of an event behind those that are there.
    pub fn add(&mut self, fields: &Fields) -> Result<(), Refusal>
        ensures ok { OnOk result (AddsKey fields.now self.old self.new) }
        ensures err { IfErr result (λ e. e ≡ Refusal.Memory) }
    {
        match self {
            Keys::Nothing => {}
            Keys::Numbers(numbers) => numbers.push(fields.number)?,
            Keys::Texts { bytes, spans } => {
                let start = bytes.len();
                bytes.extend_from_slice(fields.text)?;
                spans.push(Span {
                    start,
                    end: bytes.len(),
                })?;
            }
        }
        Ok(())
    }

    /// By what the event of this place is ordered among numbers, and 0 among texts.
    pub fn number_at(&self, place: usize) -> i64
        ensures { result ≡ number_at self.now place }
    {
        match self {
            Keys::Numbers(numbers) => numbers.get(place).copied().unwrap_or(0),
            _ => 0,
        }
    }

    /// By what the event of this place is ordered among texts, and empty among numbers.
    pub fn text_at(&self, place: usize) -> &[u8]
        ensures { result.now ≡ text_at self.now place }
    {
        match self {
            Keys::Texts { bytes, spans } => match spans.get(place) {
                Some(span) => text_of(bytes, *span),
                None => b"",
            },
            _ => b"",
        }
    }
}

/// The text that stands here, as far as it is there.
fn text_of(bytes: &[u8], span: Span) -> &[u8]
    ensures { result.now ≡ slice_range bytes.now span.start span.end }
{
    let end = span.end.min(bytes.len());
    if span.start < end {
        &bytes[span.start..end]
    } else {
        &[]
    }
}
