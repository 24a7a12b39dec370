ghost use Rattle.std.specs.Prelude.{◌≡◌, ◌<◌, map, length, codes, All, IfOk};
ghost use Rattle.serde_json.specs.Data.{object, member, string};
ghost use Rattle.serde_json.specs.View.{view};
ghost use Rattle.template_core.specs.Constraints.{IsWellMadeFor};
ghost use Rattle.model_json.specs.Report.{fraction_value, parameters_value, constraint_value, trace_value, why, with_more};
ghost use Rattle.model_json.specs.Report.{scored_members, scored_value, untested_value, witnessed_value};

use decl_base::{Frac, Trace};
use event_log::Alphabet;
use scoring::Scored;
use serde_json::{Value, json, put};
use std::alloc::{AllocError, Global};
use template_core::Constraint;
use template_set::{arity, name};

/// An object with one more member.
fn with_more(alloc: Global, object: Value, key: &str, member: Value) -> Result<Value, AllocError>
    ensures { IfOk result (λ value. view value ≡ with_more key.now (view member) (view object)) }
{
    match object {
        Value::Object(mut members) => {
            put(&mut members, alloc, key, member)?;
            Ok(Value::Object(members))
        }
        other => Ok(other),
    }
}

/// A constraint with its scores.
pub fn scored_value(alloc: Global, names: &Alphabet, scored: &Scored) -> Result<Value, AllocError>
    requires { IsWellMadeFor (length names.now.names) scored.now.constraint }
    ensures { IfOk result (λ value. view value ≡ scored_value names.now.names scored.now) }
{
    let confidence = fraction_value(alloc, &scored.confidence)?;
    let interest = fraction_value(alloc, &scored.interest)?;
    let parameters = parameters_value(alloc, names, &scored.constraint)?;
    let support = fraction_value(alloc, &scored.support)?;
    json!(in alloc; {
        "confidence": confidence,
        "interest": interest,
        "parameters": parameters,
        "support": support,
        "template": name(scored.constraint.kind)
    })
}

/// A constraint with its scores and the trace that breaks it alone.
pub fn witnessed_value(
    alloc: Global,
    names: &Alphabet,
    scored: &Scored,
    witness: &Trace,
) -> Result<Value, AllocError>
    requires made { IsWellMadeFor (length names.now.names) scored.now.constraint }
    requires witness { All (λ rank. rank < length names.now.names) witness.now }
    ensures { IfOk result (λ value. view value ≡ witnessed_value names.now.names scored.now witness.now) }
{
    let witness = trace_value(alloc, names, witness)?;
    with_more(
        alloc,
        scored_value(alloc, names, scored)?,
        "witness",
        witness,
    )
}

/// A constraint with its scores that stays untested.
pub fn untested_value(alloc: Global, names: &Alphabet, scored: &Scored) -> Result<Value, AllocError>
    requires { IsWellMadeFor (length names.now.names) scored.now.constraint }
    ensures { IfOk result (λ value. view value ≡ untested_value names.now.names scored.now) }
{
    let scored = scored_value(alloc, names, scored)?;
    with_more(alloc, scored, "untested", Value::Bool(true))
}

/// A constraint with its scores and the reason why it is dropped.
pub fn dropped_value(
    alloc: Global,
    names: &Alphabet,
    scored: &Scored,
    reason: &str,
) -> Result<Value, AllocError>
    requires { IsWellMadeFor (length names.now.names) scored.now.constraint }
    ensures { IfOk result (λ value. view value ≡ object (scored_members names.now.names scored.now (why reason.now))) }
{
    let reason = Value::try_from_str(alloc, reason)?;
    with_more(alloc, scored_value(alloc, names, scored)?, "why", reason)
}

/// A constraint with its scores that is dropped since another one is above it.
pub fn weaker_value(
    alloc: Global,
    names: &Alphabet,
    scored: &Scored,
    above: &Constraint,
) -> Result<Value, AllocError>
    requires made { IsWellMadeFor (length names.now.names) scored.now.constraint }
    requires above { IsWellMadeFor (length names.now.names) above.now }
    ensures { IfOk result (λ value. view value
        ≡ object (member (codes "by") (constraint_value names.now.names above.now) (scored_members names.now.names scored.now (why (codes "weaker"))))) }
{
    let by = constraint_value(alloc, names, above)?;
    let dropped = dropped_value(alloc, names, scored, "weaker")?;
    with_more(alloc, dropped, "by", by)
}

/// A constraint without its scores.
fn constraint_value(
    alloc: Global,
    names: &Alphabet,
    constraint: &Constraint,
) -> Result<Value, AllocError>
    requires { IsWellMadeFor (length names.now.names) constraint.now }
    ensures { IfOk result (λ value. view value ≡ constraint_value names.now.names constraint.now) }
{
    let parameters = parameters_value(alloc, names, constraint)?;
    json!(in alloc; {"parameters": parameters, "template": name(constraint.kind)})
}

/// A score as its numerator and its denominator.
fn fraction_value(alloc: Global, fraction: &Frac) -> Result<Value, AllocError>
    ensures { IfOk result (λ value. view value ≡ fraction_value fraction.now) }
{
    json!(in alloc; [fraction.num(), fraction.den()])
}

/// A list with one list of one name for each activity.
fn parameters_value(
    alloc: Global,
    names: &Alphabet,
    constraint: &Constraint,
) -> Result<Value, AllocError>
    requires { IsWellMadeFor (length names.now.names) constraint.now }
    ensures { IfOk result (λ value. view value ≡ parameters_value names.now.names constraint.now) }
{
    let first = names.name(constraint.first);
    if arity(constraint.kind) == 1 {
        return json!(in alloc; [[first]]);
    }
    json!(in alloc; [[first], [names.name(constraint.second)]])
}

/// A list of the names of a trace.
pub fn trace_value(alloc: Global, names: &Alphabet, trace: &Trace) -> Result<Value, AllocError>
    requires { All (λ rank. rank < length names.now.names) trace.now }
    ensures { IfOk result (λ value. view value ≡ trace_value names.now.names trace.now) }
{
    let mut values = Vec::new(alloc);
    for rank in trace.events() {
        values.push(Value::try_from_str(alloc, names.name(*rank))?)?;
    }
    Ok(Value::Array(values))
}
