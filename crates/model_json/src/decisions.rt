ghost use Rattle.std.specs.Prelude.{◌≡◌, map, length, All, IfOk};
ghost use Rattle.serde_json.specs.View.{view};
ghost use Rattle.template_core.specs.Constraints.{IsWellMadeFor};
ghost use Rattle.model_json.specs.Report.{is_tested, staying, decided_value, dropped_values};

use crate::constraints::{dropped_value, scored_value, untested_value, weaker_value};
use event_log::Alphabet;
use reduce_model::Decision;
use scoring::Scored;
use serde_json::Value;
use std::alloc::{AllocError, Global};

/// Whether it stays, and a trace breaks it alone.
pub fn is_tested(decision: Decision) -> bool
    ensures { result ≡ is_tested decision }
{
    matches!(decision, Decision::Kept)
}

/// The candidates that stay, in their order.
pub fn staying(
    alloc: Global,
    list: &[Scored],
    decisions: &[Decision],
) -> Result<Vec<Scored>, AllocError>
    requires { length decisions.now ≡ length list.now }
    ensures { IfOk result (λ kept. kept.items ≡ staying list.now decisions.now) }
{
    let mut kept = Vec::new(alloc);
    for (place, scored) in list.iter().enumerate() {
        if decisions[place].is_kept() {
            kept.push(*scored)?;
        }
    }
    Ok(kept)
}

/// The candidates that are dropped, in their order, with what their decisions tell.
pub fn dropped_values(
    alloc: Global,
    names: &Alphabet,
    list: &[Scored],
    decisions: &[Decision],
) -> Result<Vec<Value>, AllocError>
    requires made { All (λ scored. IsWellMadeFor (length names.now.names) scored.constraint) list.now }
    requires decisions { length decisions.now ≡ length list.now }
    ensures { IfOk result (λ values. map view values.items ≡ dropped_values names.now.names list.now decisions.now) }
{
    let mut values = Vec::new(alloc);
    for (place, scored) in list.iter().enumerate() {
        let decision = decisions[place];
        if !decision.is_kept() {
            values.push(decided_value(alloc, names, list, scored, decision)?)?;
        }
    }
    Ok(values)
}

/// A candidate of the list with what its decision tells.
fn decided_value(
    alloc: Global,
    names: &Alphabet,
    list: &[Scored],
    scored: &Scored,
    decision: Decision,
) -> Result<Value, AllocError>
    requires list { All (λ scored. IsWellMadeFor (length names.now.names) scored.constraint) list.now }
    requires made { IsWellMadeFor (length names.now.names) scored.now.constraint }
    ensures { IfOk result (λ value. view value ≡ decided_value names.now.names list.now scored.now decision) }
{
    match decision {
        Decision::Kept => scored_value(alloc, names, scored),
        Decision::Conflict => dropped_value(alloc, names, scored, "conflict"),
        Decision::Weaker { by } => {
            let above = list.get(by as usize).unwrap_or(scored);
            weaker_value(alloc, names, scored, &above.constraint)
        }
        Decision::FirstPass => dropped_value(alloc, names, scored, "first-pass"),
        Decision::SecondPass => dropped_value(alloc, names, scored, "second-pass"),
        Decision::Beyond => dropped_value(alloc, names, scored, "beyond"),
        Decision::Untested => untested_value(alloc, names, scored),
    }
}
