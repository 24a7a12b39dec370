ghost use Rattle.std.specs.Prelude.{◌≡◌, ◌≤◌, codes, length, map, option_map, option_and_then, position, IfOk, IfErr, IfSome, IfNone, MatchOption};
ghost use Rattle.std.specs.Str.{bytes_eq};
ghost use Rattle.serde_json.specs.Find.{as_str, get};
ghost use Rattle.serde_json.specs.View.{view};
ghost use Rattle.decl_base.specs.Limits.{standard};
ghost use Rattle.model_json.specs.Model.{each, list_in, texts_in, ModelCause};
ghost use Rattle.model_json.specs.Certificate.{ascend, claim_of, claim_told, conflict_by, constraint_in, dropped_by, dropped_in, items_under, kept_in, names_of, told, trace_in, version_in, version_of, witness_in};

use crate::items::read_item;
use crate::lists::values_under;
use crate::reading::task_names;
use crate::shapes::texts_in;
use chain_cert::{Claim, Dropped};
use decl_base::{Limits, Refusal, Trace};
use event_log::Alphabet;
use serde_json::Value;
use std::alloc::Global;
use template_core::{Constraint, Repertoire};

/// What a certificate claims: its printed constraints with their witnesses, the dropped ones, and the example.
pub(crate) fn claim_of(alloc: Global, certificate: &Value) -> Result<Claim, Refusal>
    ensures claim { IfOk result (λ claim. claim_of (view certificate.now) ≡ Ok claim) }
    ensures refusal { IfErr result (ModelCause (claim_of (view certificate.now))) }
{
    let Some(report) = certificate.get("report") else {
        return Err(Refusal::CertShape { part: 1 });
    };
    let Some(repertoire) = version_of(report) else {
        return Err(Refusal::CertShape { part: 1 });
    };
    let Some(names) = names_of(alloc, report)? else {
        return Err(Refusal::CertShape { part: 1 });
    };
    claim_over(alloc, report, repertoire, names)
}

/// What a report claims over the names of its tasks.
fn claim_over(
    alloc: Global,
    report: &Value,
    repertoire: Repertoire,
    names: Alphabet,
) -> Result<Claim, Refusal>
    requires limit { names.limit ≡ standard.activities }
    requires within { length names.names ≤ standard.activities }
    ensures claim { IfOk result (λ claim. claim_told (told (view report.now) repertoire names.names) ≡ Ok claim) }
    ensures refusal { IfErr result (ModelCause (claim_told (told (view report.now) repertoire names.names))) }
{
    let mut names = names;
    let Some((model, witnesses)) = kept_in(alloc, &mut names, repertoire, report)? else {
        return Err(Refusal::CertShape { part: 2 });
    };
    let Some(dropped) = dropped_in(alloc, &mut names, repertoire, report)? else {
        return Err(Refusal::CertShape { part: 3 });
    };
    let Some(example) = trace_under(alloc, &names, "example", report)? else {
        return Err(Refusal::CertShape { part: 4 });
    };
    match Claim::of(names.len(), model, witnesses, dropped, example) {
        Some(claim) => Ok(claim),
        None => unreachable!(),
    }
}

/// The repertoire of a report: the first where it has no version. None where its version isn't 2.
fn version_of(report: &Value) -> Option<Repertoire>
    ensures { result ≡ version_of (view report.now) }
{
    match report.get("version") {
        Some(version) => version_in(version),
        None => Some(Repertoire::First),
    }
}

/// The repertoire of a version. One that is no whole number is read past.
fn version_in(version: &Value) -> Option<Repertoire>
    ensures { result ≡ version_in (view version.now) }
{
    match version.as_number() {
        Some(number) if !number.is_f64() => match number.as_u64() {
            Some(2) => Some(Repertoire::Second),
            _ => None,
        },
        _ => Some(Repertoire::First),
    }
}

/// The names of the tasks of a report: no more than the limit, none of them twice, and ascending.
fn names_of(alloc: Global, report: &Value) -> Result<Option<Alphabet>, Refusal>
    ensures names { IfOk result (λ names. option_map (λ a. a.names) names
        ≡ option_and_then names_of (option_and_then texts_in (get (codes "tasks") (view report.now)))) }
    ensures limit { IfOk result (λ names. IfSome names (λ names. (names.limit ≡ standard.activities) × (length names.names ≤ standard.activities))) }
    ensures cause { IfErr result (λ e. e ≡ Refusal.Memory) }
{
    let Some(tasks) = report.get("tasks") else {
        return Ok(None);
    };
    let Some(tasks) = texts_in(tasks) else {
        return Ok(None);
    };
    if tasks.len() as u64 > Limits::standard().activities {
        return Ok(None);
    }
    let names = task_names(alloc, tasks)?;
    if names.len() as usize == tasks.len() && ascend(&names) {
        Ok(Some(names))
    } else {
        Ok(None)
    }
}

/// Whether each name is before the next in the order of bytes.
fn ascend(names: &Alphabet) -> bool
    ensures { result ≡ ascend names.now.names }
{
    for id in 1..names.len() {
        if names.name(id - 1) >= names.name(id) {
            return false;
        }
    }
    true
}

/// The printed constraints and their witnesses.
fn kept_in(
    alloc: Global,
    names: &mut Alphabet,
    repertoire: Repertoire,
    report: &Value,
) -> Result<Option<(Vec<Constraint>, Vec<Trace>)>, Refusal>
    requires limit { names.old.limit ≡ standard.activities }
    requires within { length names.old.names ≤ standard.activities }
    ensures kept { IfOk result (λ kept. option_map (λ k. (k.0.items, k.1.items)) kept ≡ kept_in (told (view report.now) repertoire names.old.names)) }
    ensures same { IfOk result (λ kept. IfSome kept (λ _. names.new ≡ names.old)) }
    ensures cause { IfErr result (λ e. e ≡ Refusal.Memory) }
{
    let Some(items) = items_under("constraints", report) else {
        return Ok(None);
    };
    let Some(constraints) = constraints_of(alloc, names, repertoire, items)? else {
        return Ok(None);
    };
    let Some(witnesses) = witnesses_of(alloc, names, items)? else {
        return Ok(None);
    };
    Ok(Some((constraints, witnesses)))
}

/// The dropped constraints.
fn dropped_in(
    alloc: Global,
    names: &mut Alphabet,
    repertoire: Repertoire,
    report: &Value,
) -> Result<Option<Vec<Dropped>>, Refusal>
    requires limit { names.old.limit ≡ standard.activities }
    requires within { length names.old.names ≤ standard.activities }
    ensures dropped { IfOk result (λ dropped. option_map (λ l. l.items) dropped ≡ dropped_in (told (view report.now) repertoire names.old.names)) }
    ensures same { IfOk result (λ dropped. IfSome dropped (λ _. names.new ≡ names.old)) }
    ensures cause { IfErr result (λ e. e ≡ Refusal.Memory) }
{
    match items_under("dropped", report) {
        Some(items) => dropped_of(alloc, names, repertoire, items),
        None => Ok(None),
    }
}

/// The items of a member, no more than a model may have.
fn items_under<'a>(name: &str, report: &'a Value) -> Option<&'a [Value]>
    ensures { option_map (λ list. map view list.now) result ≡ items_under name.now (view report.now) }
{
    let items = values_under(name, report)?;
    if items.len() as u64 <= Limits::standard().candidates {
        Some(items)
    } else {
        None
    }
}

/// A constraint of each item.
fn constraints_of(
    alloc: Global,
    names: &mut Alphabet,
    repertoire: Repertoire,
    items: &[Value],
) -> Result<Option<Vec<Constraint>>, Refusal>
    requires limit { names.old.limit ≡ standard.activities }
    requires within { length names.old.names ≤ standard.activities }
    ensures constraints { IfOk result (λ list. option_map (λ l. l.items) list ≡ each (constraint_in repertoire names.old.names) (map view items.now)) }
    ensures same { IfOk result (λ list. IfSome list (λ _. names.new ≡ names.old)) }
    ensures cause { IfErr result (λ e. e ≡ Refusal.Memory) }
{
    let mut constraints = Vec::new(alloc);
    for item in items {
        let Some(constraint) = constraint_in(names, repertoire, item)? else {
            return Ok(None);
        };
        constraints.push(constraint)?;
    }
    Ok(Some(constraints))
}

/// A witness of each item.
fn witnesses_of(
    alloc: Global,
    names: &Alphabet,
    items: &[Value],
) -> Result<Option<Vec<Trace>>, Refusal>
    ensures witnesses { IfOk result (λ list. option_map (λ l. l.items) list ≡ each (witness_in names.now.names) (map view items.now)) }
    ensures cause { IfErr result (λ e. e ≡ Refusal.Memory) }
{
    let mut witnesses = Vec::new(alloc);
    for item in items {
        let Some(witness) = trace_under(alloc, names, "witness", item)? else {
            return Ok(None);
        };
        witnesses.push(witness)?;
    }
    Ok(Some(witnesses))
}

/// A dropped constraint of each item.
fn dropped_of(
    alloc: Global,
    names: &mut Alphabet,
    repertoire: Repertoire,
    items: &[Value],
) -> Result<Option<Vec<Dropped>>, Refusal>
    requires limit { names.old.limit ≡ standard.activities }
    requires within { length names.old.names ≤ standard.activities }
    ensures dropped { IfOk result (λ list. option_map (λ l. l.items) list ≡ each (dropped_by repertoire names.old.names) (map view items.now)) }
    ensures same { IfOk result (λ list. IfSome list (λ _. names.new ≡ names.old)) }
    ensures cause { IfErr result (λ e. e ≡ Refusal.Memory) }
{
    let mut dropped = Vec::new(alloc);
    for item in items {
        let Some(constraint) = constraint_in(names, repertoire, item)? else {
            return Ok(None);
        };
        let Some(conflict) = conflict_in(item) else {
            return Ok(None);
        };
        dropped.push(Dropped {
            constraint,
            conflict,
        })?;
    }
    Ok(Some(dropped))
}

/// The constraint that an item is in a model with these names, where it has no name besides.
fn constraint_in(
    names: &mut Alphabet,
    repertoire: Repertoire,
    item: &Value,
) -> Result<Option<Constraint>, Refusal>
    requires limit { names.old.limit ≡ standard.activities }
    requires within { length names.old.names ≤ standard.activities }
    ensures constraint { IfOk result (λ constraint. constraint ≡ constraint_in repertoire names.old.names (view item.now)) }
    ensures same { IfOk result (λ constraint. IfSome constraint (λ _. names.new ≡ names.old)) }
    ensures cause { IfErr result (λ e. e ≡ Refusal.Memory) }
{
    let known = names.len();
    match read_item(names, repertoire, 1, item) {
        Ok(constraint) if names.len() == known => Ok(Some(constraint)),
        Err(Refusal::Memory) => Err(Refusal::Memory),
        _ => Ok(None),
    }
}

/// Whether an item was dropped as a conflict. None where it has no reason of those that are known.
fn conflict_in(item: &Value) -> Option<bool>
    ensures { result ≡ option_and_then conflict_by (option_and_then as_str (get (codes "why") (view item.now))) }
{
    match item.get("why")?.as_str()? {
        "conflict" => Some(true),
        "weaker" | "first-pass" | "second-pass" => Some(false),
        _ => None,
    }
}

/// The trace of names that a member is.
fn trace_under(
    alloc: Global,
    names: &Alphabet,
    name: &str,
    value: &Value,
) -> Result<Option<Trace>, Refusal>
    ensures trace { IfOk result (λ trace. trace ≡ option_and_then (trace_in names.now.names) (get name.now (view value.now))) }
    ensures cause { IfErr result (λ e. e ≡ Refusal.Memory) }
{
    let Some(values) = values_under(name, value) else {
        return Ok(None);
    };
    let mut events = Vec::new(alloc);
    for value in values {
        let Some(place) = place_in(names, value) else {
            return Ok(None);
        };
        events.push(place)?;
    }
    Ok(Some(Trace::of(alloc, &events)?))
}

/// The place of the name that a text is.
fn place_in(names: &Alphabet, value: &Value) -> Option<u32>
    ensures { result ≡ option_and_then (λ name. position (bytes_eq name) names.now.names) (as_str (view value.now)) }
{
    names.find(value.as_str()?)
}
