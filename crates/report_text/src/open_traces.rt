ghost use Rattle.std.specs.Prelude.{◌≡◌, ◌++◌, slice_get, string_bytes, IfOk, OnOk};
ghost use Rattle.serde_json.specs.View.{view};
ghost use Rattle.report_text.specs.AnalysisText.{word_line};
ghost use Rattle.report_text.specs.OpenTraces.{name_or_null, open_trace_text, open_trace_value};

use decl_base::Trace;
use event_log::Alphabet;
use serde_json::Value;
use std::alloc::{AllocError, Global};

/// A line of a word and a text.
pub(crate) fn put_line(out: &mut Vec<u8>, word: &str, text: &[u8]) -> Result<(), AllocError>
    ensures { OnOk result (out.new.items ≡ out.old.items ++ word_line word.now text.now) }
{
    out.extend_from_slice(word.as_bytes())?;
    out.push(b' ')?;
    out.extend_from_slice(text)?;
    out.push(b'\n')?;
    Ok(())
}

/// A line of a word and a trace.
pub(crate) fn put_trace(
    alloc: Global,
    out: &mut Vec<u8>,
    names: &Alphabet,
    word: &str,
    trace: &Trace,
) -> Result<(), AllocError>
    ensures { OnOk result (out.new.items ≡ out.old.items ++ word_line word.now (open_trace_text names.now.names trace.now)) }
{
    let text = open_trace_text(alloc, names, trace)?;
    put_line(out, word, text.as_bytes())
}

/// The names of a trace as a JSON list, with `null` for the symbol behind the last name.
fn open_trace_text(alloc: Global, names: &Alphabet, trace: &Trace) -> Result<String, AllocError>
    ensures { IfOk result (λ text. string_bytes text ≡ open_trace_text names.now.names trace.now) }
{
    let value = open_trace_value(alloc, names, trace)?;
    value.to_string(alloc)
}

/// A list of the names of a trace.
fn open_trace_value(alloc: Global, names: &Alphabet, trace: &Trace) -> Result<Value, AllocError>
    ensures { IfOk result (λ value. view value ≡ open_trace_value names.now.names trace.now) }
{
    let mut values = Vec::new(alloc);
    for symbol in trace.events() {
        values.push(name_or_null(alloc, names, *symbol)?)?;
    }
    Ok(Value::Array(values))
}

/// The name of a symbol, and null for the symbol behind the last name.
fn name_or_null(alloc: Global, names: &Alphabet, symbol: u32) -> Result<Value, AllocError>
    ensures { IfOk result (λ value. view value ≡ name_or_null (slice_get names.now.names symbol)) }
{
    if symbol < names.len() {
        Value::try_from_str(alloc, names.name(symbol))
    } else {
        Ok(Value::from(()))
    }
}
