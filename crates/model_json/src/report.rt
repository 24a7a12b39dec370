ghost use Rattle.std.specs.Prelude.{◌≡◌, ◌<◌, map, length, count_by, All, IfOk, IfErr};
ghost use Rattle.serde_json.specs.Data.{string};
ghost use Rattle.serde_json.specs.View.{view};
ghost use Rattle.template_core.specs.Constraints.{IsWellMadeFor};
ghost use Rattle.model_json.specs.Model.{AreOf};
ghost use Rattle.model_json.specs.Report.{is_tested, scored_value, listed_value, with_witnesses};
ghost use Rattle.model_json.specs.Report.{scores_object, report_object, versioned, scores_report, consistent_report, model_report};

use crate::constraints::{scored_value, trace_value, untested_value, witnessed_value};
use crate::decisions::{dropped_values, is_tested, staying};
use decl_base::{Refusal, Trace};
use event_log::Alphabet;
use reduce_model::{Decision, Reduced, Sifted};
use scoring::Scored;
use serde_json::{Value, json, put};
use std::alloc::{AllocError, Global};
use template_core::Repertoire;

/// The report of all candidates with their scores, over names in byte order.
pub fn scores_value(
    alloc: Global,
    names: &Alphabet,
    repertoire: Repertoire,
    list: &[Scored],
    traces: u64,
    events: u64,
) -> Result<Value, Refusal>
    requires made { All (λ scored. IsWellMadeFor (length names.now.names) scored.constraint) list.now }
    requires repertoire { AreOf repertoire list.now }
    ensures value { IfOk result (λ value. view value ≡ scores_report names.now.names repertoire list.now traces events) }
    ensures cause { IfErr result (λ e. e ≡ Refusal.Memory) }
{
    let constraints = scored_values(alloc, names, list)?;
    let tasks = task_values(alloc, names)?;
    let report = scores_object(alloc, constraints, events, tasks, traces)?;
    Ok(versioned(alloc, repertoire, report)?)
}

/// The report of the candidates with conflicts removed, over names in byte order: those that stay, those that are
/// dropped, and the least trace that keeps all that stay.
pub fn consistent_value(
    alloc: Global,
    names: &Alphabet,
    repertoire: Repertoire,
    list: &[Scored],
    sifted: &Sifted,
    traces: u64,
    events: u64,
) -> Result<Value, Refusal>
    requires made { All (λ scored. IsWellMadeFor (length names.now.names) scored.constraint) list.now }
    requires repertoire { AreOf repertoire list.now }
    requires decisions { length sifted.now.decisions ≡ length list.now }
    requires example { All (λ rank. rank < length names.now.names) sifted.now.example }
    ensures value { IfOk result (λ value. view value ≡ consistent_report names.now.names repertoire list.now sifted.now traces events) }
    ensures cause { IfErr result (λ e. e ≡ Refusal.Memory) }
{
    let kept = staying(alloc, list, sifted.decisions())?;
    let constraints = scored_values(alloc, names, &kept)?;
    let dropped = dropped_values(alloc, names, list, sifted.decisions())?;
    let example = trace_value(alloc, names, sifted.example())?;
    let tasks = task_values(alloc, names)?;
    let report = report_object(alloc, constraints, dropped, events, example, tasks, traces)?;
    Ok(versioned(alloc, repertoire, report)?)
}

/// The report of the reduced candidates, over names in byte order: those that stay, each with its witness or untested,
/// those that are dropped, and the least trace that keeps all that stay.
pub fn report_value(
    alloc: Global,
    names: &Alphabet,
    repertoire: Repertoire,
    list: &[Scored],
    reduced: &Reduced,
    traces: u64,
    events: u64,
) -> Result<Value, Refusal>
    requires made { All (λ scored. IsWellMadeFor (length names.now.names) scored.constraint) list.now }
    requires repertoire { AreOf repertoire list.now }
    requires decisions { length reduced.now.decisions ≡ length list.now }
    requires witnesses { length reduced.now.witnesses ≡ count_by is_tested reduced.now.decisions }
    requires witness { All (λ trace. All (λ rank. rank < length names.now.names) trace) reduced.now.witnesses }
    requires example { All (λ rank. rank < length names.now.names) reduced.now.example }
    ensures value { IfOk result (λ value. view value
        ≡ model_report names.now.names repertoire list.now reduced.now.decisions reduced.now.witnesses reduced.now.example traces events) }
    ensures cause { IfErr result (λ e. e ≡ Refusal.Memory) }
{
    let decisions = reduced.decisions();
    let constraints = listed_values(alloc, names, list, decisions, reduced.witnesses())?;
    let dropped = dropped_values(alloc, names, list, decisions)?;
    let example = trace_value(alloc, names, reduced.example())?;
    let tasks = task_values(alloc, names)?;
    let report = report_object(alloc, constraints, dropped, events, example, tasks, traces)?;
    Ok(versioned(alloc, repertoire, report)?)
}

/// A report of its repertoire: one of the second has a version.
fn versioned(alloc: Global, repertoire: Repertoire, report: Value) -> Result<Value, AllocError>
    ensures { IfOk result (λ value. view value ≡ versioned repertoire (view report)) }
{
    match (repertoire, report) {
        (Repertoire::Second, Value::Object(mut members)) => {
            put(&mut members, alloc, "version", json!(in alloc; 2)?)?;
            Ok(Value::Object(members))
        }
        (_, report) => Ok(report),
    }
}

fn scores_object(
    alloc: Global,
    constraints: Vec<Value>,
    events: u64,
    tasks: Vec<Value>,
    traces: u64,
) -> Result<Value, AllocError>
    ensures { IfOk result (λ value. view value
        ≡ scores_object (map view constraints.items) events (map view tasks.items) traces) }
{
    json!(in alloc; {
        "constraints": constraints,
        "events": events,
        "tasks": tasks,
        "traces": traces
    })
}

fn report_object(
    alloc: Global,
    constraints: Vec<Value>,
    dropped: Vec<Value>,
    events: u64,
    example: Value,
    tasks: Vec<Value>,
    traces: u64,
) -> Result<Value, AllocError>
    ensures { IfOk result (λ value. view value
        ≡ report_object (map view constraints.items) (map view dropped.items) events (view example) (map view tasks.items) traces) }
{
    json!(in alloc; {
        "constraints": constraints,
        "dropped": dropped,
        "events": events,
        "example": example,
        "tasks": tasks,
        "traces": traces
    })
}

fn scored_values(alloc: Global, names: &Alphabet, list: &[Scored]) -> Result<Vec<Value>, AllocError>
    requires { All (λ scored. IsWellMadeFor (length names.now.names) scored.constraint) list.now }
    ensures { IfOk result (λ values. map view values.items ≡ map (scored_value names.now.names) list.now) }
{
    let mut values = Vec::new(alloc);
    for scored in list {
        values.push(scored_value(alloc, names, scored)?)?;
    }
    Ok(values)
}

/// The candidates that stay, each with its witness or untested.
fn listed_values(
    alloc: Global,
    names: &Alphabet,
    list: &[Scored],
    decisions: &[Decision],
    witnesses: &[Trace],
) -> Result<Vec<Value>, AllocError>
    requires made { All (λ scored. IsWellMadeFor (length names.now.names) scored.constraint) list.now }
    requires decisions { length decisions.now ≡ length list.now }
    requires witnesses { length witnesses.now ≡ count_by is_tested decisions.now }
    requires witness { All (λ trace. All (λ rank. rank < length names.now.names) trace) witnesses.now }
    ensures { IfOk result (λ values. map view values.items
        ≡ map (λ p. listed_value names.now.names p.0 p.1) (with_witnesses list.now decisions.now witnesses.now)) }
{
    let mut values = Vec::new(alloc);
    let mut next = 0;
    for (place, scored) in list.iter().enumerate() {
        let decision = decisions[place];
        if is_tested(decision) {
            values.push(witnessed_value(alloc, names, scored, &witnesses[next])?)?;
            next += 1;
        } else if decision.is_kept() {
            values.push(untested_value(alloc, names, scored)?)?;
        }
    }
    Ok(values)
}

/// The names in byte order.
fn task_values(alloc: Global, names: &Alphabet) -> Result<Vec<Value>, AllocError>
    ensures { IfOk result (λ values. map view values.items ≡ map string names.now.names) }
{
    let mut values = Vec::new(alloc);
    for id in 0..names.len() {
        values.push(Value::try_from_str(alloc, names.name(id))?)?;
    }
    Ok(values)
}
