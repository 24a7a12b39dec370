ghost use Rattle.std.specs.Prelude.{◌≡◌, ◌++◌, codes, option_map, string_bytes, IfOk, IfErr, OnOk};
ghost use Rattle.serde_json.specs.View.{view};
ghost use Rattle.serde_json.specs.Written.{compact_text};
ghost use Rattle.report_text.specs.AnalysisText.{accepts_line, analysis_text, numbers_value as numbers_value_of, trace_lines};

use crate::open_traces::{put_line, put_trace};
use decl_base::{Refusal, Trace};
use event_log::Alphabet;
use model_compare::Analysed;
use serde_json::Value;
use std::alloc::{AllocError, Global};

/// The text of a model that was analysed over these names and one name more, in lines that are each ended by a line feed: the least trace that
/// keeps it, or `none`; the dead names; the numbers of the redundant constraints; and the first traces that keep it. Lists and traces are JSON
/// lists, with `null` for the further name.
pub fn analysed_text(
    alloc: Global,
    names: &Alphabet,
    analysed: &Analysed,
) -> Result<Vec<u8>, Refusal>
    ensures ok { IfOk result (λ text. text.items ≡ analysis_text names.now.names analysed.now) }
    ensures err { IfErr result (λ e. e ≡ Refusal.Memory) }
{
    let dead = Trace::of(alloc, analysed.dead())?;
    let redundant = numbers_text(alloc, analysed.redundant())?;
    let mut out = Vec::new(alloc);
    put_accepts(alloc, &mut out, names, analysed.accepts())?;
    put_trace(alloc, &mut out, names, "dead", &dead)?;
    put_line(&mut out, "redundant", redundant.as_bytes())?;
    put_traces(alloc, &mut out, names, analysed.traces())?;
    Ok(out)
}

/// The line of the least trace that keeps the model.
fn put_accepts(
    alloc: Global,
    out: &mut Vec<u8>,
    names: &Alphabet,
    accepts: Option<&Trace>,
) -> Result<(), AllocError>
    ensures { OnOk result (out.new.items ≡ out.old.items ++ accepts_line names.now.names (option_map (λ t. t.now) accepts.entry)) }
{
    match accepts {
        Some(trace) => put_trace(alloc, out, names, "accepts", trace),
        None => put_line(out, "accepts", "none".as_bytes()),
    }
}

/// A line for each trace.
fn put_traces(
    alloc: Global,
    out: &mut Vec<u8>,
    names: &Alphabet,
    traces: &[Trace],
) -> Result<(), AllocError>
    ensures { OnOk result (out.new.items ≡ out.old.items ++ trace_lines names.now.names traces.now) }
{
    for trace in traces {
        put_trace(alloc, out, names, "trace", trace)?;
    }
    Ok(())
}

/// Numbers as a JSON list.
fn numbers_text(alloc: Global, numbers: &[u32]) -> Result<String, AllocError>
    ensures { IfOk result (λ text. string_bytes text ≡ compact_text (numbers_value_of numbers.now)) }
{
    let value = numbers_value(alloc, numbers)?;
    value.to_string(alloc)
}

/// A list of numbers.
fn numbers_value(alloc: Global, numbers: &[u32]) -> Result<Value, AllocError>
    ensures { IfOk result (λ value. view value ≡ numbers_value_of numbers.now) }
{
    let mut values = Vec::new(alloc);
    for number in numbers {
        values.push(Value::from(*number as u64))?;
    }
    Ok(Value::Array(values))
}
