ghost use Rattle.std.specs.Prelude.{◌≡◌, ◌<◌, ◌≤◌, length, vec_len, take, slice_range, true, IfOk, IfErr, IfSome, IfNone};
ghost use Rattle.std.specs.Io.KnownBytes.{prepend_known, IsAtEnd};
ghost use Rattle.std.specs.Str.Lines.{strip_carriage_return};
ghost use Rattle.decl_outside.specs.Held.{held_bytes};
ghost use Rattle.decl_outside.specs.Inputs.{KeepsInput};
ghost use Rattle.decl_outside.specs.Lines.{line_length, FillCause, TakesFirst, HasNoneLeft};

use crate::held::Held;
use crate::{Failed, Inputs};
use decl_base::Refusal;
use memchr::memchr;

/// The number of bytes before the first line feed, or of all, where so many are known to have none.
pub fn line_end(bytes: &[u8], searched: usize) -> usize
    requires { searched ≤ line_length bytes.now }
    ensures value { result ≡ line_length bytes.now }
    ensures within { result ≤ length bytes.now }
{
    match memchr(b'\n', &bytes[searched..]) {
        Some(i) => searched + i,
        None => bytes.len(),
    }
}

/// The length of a line without a carriage return at its end.
fn text_length(line: &[u8]) -> usize
    ensures value { take result line.now ≡ strip_carriage_return line.now }
    ensures within { result ≤ length line.now }
{
    match line {
        [front @ .., b'\r'] => front.len(),
        _ => line.len(),
    }
}

/// Reads until the held bytes have a line feed, or the input is at its end. Answers the length of the first line.
fn fill<I: Inputs>(
    held: &mut Held,
    piece: &mut [u8],
    inputs: &mut I,
    limit: u64,
    number: u64,
) -> Result<usize, Refusal>
    requires room { 0 < length piece.old }
    requires open { (I.state inputs.old).is_open ≡ true }
    ensures keeps { KeepsInput (I.state inputs.old) (I.state inputs.new) }
    ensures rest { IfOk result (λ _. prepend_known (held_bytes held.new) (I.state inputs.new).left
        ≡ prepend_known (held_bytes held.old) (I.state inputs.old).left) }
    ensures end { IfOk result (λ end. end ≡ line_length (held_bytes held.new)) }
    ensures whole { IfOk result (λ end. end ≡ length (held_bytes held.new) → IsAtEnd (I.state inputs.new).left) }
    ensures within { IfOk result (λ end. end ≤ limit) }
    ensures cause { IfErr result (FillCause limit number (held_bytes held.old) (held_bytes held.new) (I.state inputs.old) (I.state inputs.new)) }
{
    let mut searched = 0;
    'reads: loop {
        let end = line_end(held.rest(), searched);
        if end as u64 > limit {
            return Err(Refusal::LineLong { line: number });
        }
        if end < held.rest().len() {
            return Ok(end);
        }
        let count = match inputs.read(piece) {
            Ok(count) => count,
            Err(Failed) => return Err(Refusal::ReadFault),
        };
        if count == 0 {
            return Ok(end);
        }
        held.add(&piece[..count])?;
        searched = end;
    }
}

/// Where a line that was found stands among the held bytes.
#[derive(Clone, Copy)]
pub struct Found {
    pub from: usize,
    pub to: usize,
    /// Whether no line feed ended it.
    pub is_last: bool,
}

/// Takes the next line, or none at the end of the input.
pub fn take_line<I: Inputs>(
    held: &mut Held,
    piece: &mut [u8],
    inputs: &mut I,
    limit: u64,
    number: u64,
) -> Result<Option<Found>, Refusal>
    requires room { 0 < length piece.old }
    requires open { (I.state inputs.old).is_open ≡ true }
    ensures keeps { KeepsInput (I.state inputs.old) (I.state inputs.new) }
    ensures line { IfOk result (λ found. IfSome found (λ f. TakesFirst limit (prepend_known (held_bytes held.old) (I.state inputs.old).left)
        (prepend_known (held_bytes held.new) (I.state inputs.new).left) (slice_range held.new.bytes.items f.from f.to) f.is_last)) }
    ensures ordered { IfOk result (λ found. IfSome found (λ f. f.from ≤ f.to)) }
    ensures inside { IfOk result (λ found. IfSome found (λ f. f.to ≤ vec_len held.new.bytes)) }
    ensures none { IfOk result (λ found. IfNone found (HasNoneLeft (prepend_known (held_bytes held.old) (I.state inputs.old).left))) }
    ensures nothing { IfOk result (λ found. IfNone found (HasNoneLeft (prepend_known (held_bytes held.new) (I.state inputs.new).left))) }
    ensures cause { IfErr result (FillCause limit number (held_bytes held.old) (held_bytes held.new) (I.state inputs.old) (I.state inputs.new)) }
{
    let end = fill(held, piece, inputs, limit, number)?;
    let from = held.start;
    if end < held.rest().len() {
        let to = from + text_length(&held.bytes[from..from + end]);
        held.start = from + end + 1;
        return Ok(Some(Found {
            from,
            to,
            is_last: false,
        }));
    }
    if end == 0 {
        return Ok(None);
    }
    held.start = from + end;
    Ok(Some(Found {
        from,
        to: from + end,
        is_last: true,
    }))
}
