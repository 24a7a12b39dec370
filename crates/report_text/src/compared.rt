ghost use Rattle.std.specs.Prelude.{◌≡◌, ◌++◌, option_map, IfOk, IfErr, OnOk};
ghost use Rattle.report_text.specs.ComparisonText.{comparison_text, trace_line, relation_line, relation_name};

use crate::open_traces::{put_line, put_trace};
use decl_base::{Refusal, Trace};
use event_log::Alphabet;
use model_compare::{Compared, Relation};
use std::alloc::{AllocError, Global};

/// The text of two models compared over these names and one name more: three lines, each ended by a line feed: what the first model is to the second, and for each model the
/// least trace that keeps it alone, as a JSON list with `null` for the further name, or `-` where there is none.
pub fn compared_text(
    alloc: Global,
    names: &Alphabet,
    compared: &Compared,
) -> Result<Vec<u8>, Refusal>
    ensures ok { IfOk result (λ text. text.items ≡ comparison_text names.now.names compared.now) }
    ensures err { IfErr result (λ e. e ≡ Refusal.Memory) }
{
    let mut out = Vec::new(alloc);
    put_relation(&mut out, compared.relation())?;
    put_found(alloc, &mut out, names, "only first", compared.only_first())?;
    put_found(
        alloc,
        &mut out,
        names,
        "only second",
        compared.only_second(),
    )?;
    Ok(out)
}

/// The line of what the first model is to the second.
fn put_relation(out: &mut Vec<u8>, relation: Relation) -> Result<(), AllocError>
    ensures { OnOk result (out.new.items ≡ out.old.items ++ relation_line relation) }
{
    out.extend_from_slice(relation_name(relation).as_bytes())?;
    out.push(b'\n')?;
    Ok(())
}

/// What the first model is to the second.
fn relation_name(relation: Relation) -> &'static str
    ensures { result.now ≡ relation_name relation }
{
    match relation {
        Relation::Equal => "equal",
        Relation::Stronger => "stronger",
        Relation::Weaker => "weaker",
        Relation::Neither => "neither",
    }
}

/// A line of a word and a trace over the names and the symbol behind them, or `-` where there is none.
fn put_found(
    alloc: Global,
    out: &mut Vec<u8>,
    names: &Alphabet,
    word: &str,
    trace: Option<&Trace>,
) -> Result<(), AllocError>
    ensures { OnOk result (out.new.items ≡ out.old.items ++ trace_line names.now.names word.now (option_map (λ t. t.now) trace.entry)) }
{
    match trace {
        Some(trace) => put_trace(alloc, out, names, word, trace),
        None => put_line(out, word, "-".as_bytes()),
    }
}
